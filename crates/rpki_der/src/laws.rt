//! Laws about the definitions. Each is the contract of a function without parameters that does
//! nothing.

ghost use Rattle.std.specs.Prelude.{◌≡◌, ℕ, ◌%◌, ◌^◌, ◌<◌, ◌≤◌, List, ◌++◌, length};
ghost use Rattle.std.specs.List.{AllByRecursion, concat};
ghost use Rattle.rpki_der.specs.Values.{AreOctets, enc, IsEnc, IsValue, IsUnambiguous};
ghost use Rattle.rpki_der.specs.Primitives.{IsObjectIdentifier, number};
ghost use Rattle.rpki_der.specs.Serials.{IsSerial};
ghost use Rattle.rpki_der.specs.Skipping.{IsSkippableWithin};
ghost use Rattle.rpki_der.specs.Encoding.{Begins};
ghost use Rattle.rpki_der.specs.Times.{Moment, IsMoment, IsTime, second_number, time};
ghost use Rattle.rpki_der.specs.Timestamps.{timestamp};

/// Says that no value is a proper beginning of another value (X.690 8.1, 10.1).
pub fn one_value()
    ensures { (a b x y : List ℕ) → IsValue a → IsValue b
        → a ++ x ≡ b ++ y → (a ≡ b) × (x ≡ y) }
{}

/// Says that a value with an identifier octet and a content is read as these and no others,
/// whatever follows it (X.690 8.1, 10.1).
pub fn value_again()
    ensures read { (t : ℕ) (c rest : List ℕ) → t < 256 → t % 32 < 31 → AreOctets c
        → length c < 2 ^ 32 → Begins (IsEnc t) (enc t c ++ rest) c rest }
    ensures alone { (t u : ℕ) (c d rest tail : List ℕ)
        → Begins (IsEnc u) (enc t c ++ rest) d tail → (u ≡ t) × (d ≡ c) × (tail ≡ rest) }
{}

/// Says that a sequence of values can be split into values in only one way.
pub fn one_row()
    ensures { (vs ws : List (List ℕ)) → AllByRecursion IsValue vs → AllByRecursion IsValue ws
        → concat vs ≡ concat ws → vs ≡ ws }
{}

/// Says that a string begins with at most one encoding of a serial number, and that an encoding is
/// of one number only. Says the same of times and of object identifiers.
pub fn one_field()
    ensures serial { IsUnambiguous IsSerial }
    ensures time { IsUnambiguous IsTime }
    ensures identifier { IsUnambiguous IsObjectIdentifier }
{}

/// Says that a written serial number is read as that number and no other, whatever follows it.
pub fn serial_again()
    ensures read { (n : ℕ) (rest : List ℕ) → n < 2 ^ 160
        → Begins IsSerial (number n ++ rest) n rest }
    ensures alone { (n m : ℕ) (rest tail : List ℕ) → n < 2 ^ 160
        → Begins IsSerial (number n ++ rest) m tail → (m ≡ n) × (tail ≡ rest) }
{}

/// Says that a written time is read as that time and no other, whatever follows it.
pub fn time_again()
    ensures read { (m : Moment) (rest : List ℕ) → IsMoment m
        → Begins IsTime (time m ++ rest) m rest }
    ensures alone { (m n : Moment) (rest tail : List ℕ) → IsMoment m
        → Begins IsTime (time m ++ rest) n tail → (n ≡ m) × (tail ≡ rest) }
{}

/// Says that two times with the same number of seconds are the same time.
pub fn one_moment()
    ensures { (m n : Moment) → IsMoment m → IsMoment n
        → second_number m ≡ second_number n → m ≡ n }
{}

/// Says that two times with the same number of seconds since 1970 are the same time.
pub fn one_timestamp()
    ensures { (m n : Moment) → IsMoment m → IsMoment n → timestamp m ≡ timestamp n → m ≡ n }
{}

/// Says that a value that may be skipped under one limit of depth may be skipped under a greater
/// limit. So a value that may be skipped under the limit 16 may be skipped under the limit 32
/// (own).
pub fn deeper()
    ensures general { (d e : ℕ) (b : List ℕ) → d ≤ e
        → IsSkippableWithin d b → IsSkippableWithin e b }
    ensures to_32 { (b : List ℕ) → IsSkippableWithin 16 b → IsSkippableWithin 32 b }
{}
