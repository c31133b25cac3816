//! Periods of validity.
ghost use Rattle.std.specs.Prelude.{◌≡◌, ◌++◌, length, take, IfErr, OnErr, OnOk};
ghost use Rattle.rpki_der.specs.Reading.{both, map_value};
ghost use Rattle.rpki_der.specs.Times.{Moment, time};
ghost use Rattle.rpki_der.specs.Times.Reading.{time_at};
ghost use Rattle.rpki_der.specs.Values.{AreOctets};
ghost use Rattle.rpki_der.specs.Answers.{Answers};
ghost use Rattle.rpki_der.specs.Formats.{part};
ghost use Rattle.rpki_der.specs.Place.{remaining, Keeps};
ghost use Rattle.rpki_der.specs.Place.Reading.{Took};
ghost use Rattle.rpki_der.specs.declared.error.EncodeError.TheVariants.{Memory};
ghost use Rattle.rpki_parts.specs.Validities.{ValidityFields, validity_format};
ghost use Rattle.rpki_der.specs.Writers.{Writes};

use rpki_der::{Cursor, DecodeError, EncodeError, Time, end_value, tag};
use std::alloc::Global;
use std::marker::Model;

/// The validity period of a certificate, both ends included (RFC 5280 4.1.2.5).
#[derive(Clone, Copy)]
pub struct Validity {
    not_before: Time,
    not_after: Time,
}

impl Model for Validity {
    ghost use Rattle.rpki_parts.specs.Validities.{ValidityFields};

    ghost Value = { ValidityFields };

    ghost view = { λ v. record { not_before = v.not_before; not_after = v.not_after } };

    ghost inverse = { λ v. record { not_before = v.not_before; not_after = v.not_after } };
}

impl Validity {
    /// Makes the validity period from `not_before` to `not_after`, both included.
    ///
    /// # Not checked
    ///
    /// Whether `not_before` is the earlier time.
    pub fn new(not_before: Time, not_after: Time) -> Validity
        ensures { result ≡ record { not_before = not_before; not_after = not_after } }
    {
        Validity {
            not_before,
            not_after,
        }
    }

    /// Returns the first time at which the certificate is valid.
    pub fn not_before(self) -> Time
        ensures { result ≡ self.not_before }
    {
        self.not_before
    }

    /// Returns the last time at which the certificate is valid.
    pub fn not_after(self) -> Time
        ensures { result ≡ self.not_after }
    {
        self.not_after
    }

    // The two times that stand next. Where it errs, the cursor may stand anywhere.
    fn take_times(cursor: &mut Cursor<'_>) -> Result<Validity, DecodeError>
        ensures { let fields : Moment × Moment → ValidityFields =
            λ x. record { not_before = x.0; not_after = x.1 } in
            Took (map_value fields (both time_at time_at)) cursor.old result cursor.new }
    {
        let not_before = Time::take_from(cursor)?;
        let not_after = Time::take_from(cursor)?;
        Ok(Validity::new(not_before, not_after))
    }

    // The period that stands next, by the reading function.
    #[tactic(auto, unfolding(crate::specs::Validities::validity_format))]
    fn read(cursor: &mut Cursor<'_>) -> Result<Validity, DecodeError>
        ensures reads { Took validity_format.read cursor.old result cursor.new }
        ensures keeps { Keeps result cursor.old cursor.new }
        ensures octets { AreOctets (remaining cursor.old) }
    {
        let mut ahead = cursor.fork();
        let mut content = ahead.take_sequence()?;
        let validity = Validity::take_times(&mut content)?;
        content.finish()?;
        *cursor = ahead;
        Ok(validity)
    }

    /// Reads the validity period at the cursor: a SEQUENCE of two times (RFC 5280 4.1.2.5).
    ///
    /// # Errors
    ///
    /// Returns an error if the bytes at the cursor don't begin with such a SEQUENCE; which error is
    /// unspecified. The cursor then stays where it was.
    ///
    /// # Not checked
    ///
    /// Whether `not_before` is the earlier time.
    pub fn take_from(cursor: &mut Cursor<'_>) -> Result<Validity, DecodeError>
        ensures { Answers validity_format cursor.old result cursor.new }
    {
        Validity::read(cursor)
    }

    // Appends both times, or a part of them where memory runs out.
    fn append_times(&self, alloc: Global, out: &mut Vec<u8>) -> Result<(), EncodeError>
        ensures ok { OnOk result (out.new.items
            ≡ out.old.items ++ (time self.now.not_before ++ time self.now.not_after)) }
        ensures err { OnErr result (take (length out.old.items) out.new.items ≡ out.old.items) }
        ensures memory { IfErr result (λ e. e ≡ Memory) }
    {
        self.not_before.encode_varied(alloc, out)?;
        self.not_after.encode_varied(alloc, out)
    }

    /// Appends the SEQUENCE of both times (RFC 5280 4.1.2.5).
    ///
    /// # Errors
    ///
    /// Returns `Memory` if memory ran out. `out` is then unchanged.
    #[tactic(auto, unfolding(crate::specs::Validities::validity_format))]
    pub fn encode(&self, alloc: Global, out: &mut Vec<u8>) -> Result<(), EncodeError>
        ensures writes { Writes (part validity_format self.now) out.old.items result out.new.items }
        ensures memory { IfErr result (λ e. e ≡ Memory) }
    {
        let start = out.len();
        let times = self.append_times(alloc, out);
        end_value(out, start, tag::SEQUENCE, times)
    }
}
