//! AS numbers.
ghost use Rattle.std.specs.Prelude.{◌≡◌, ◌-◌, ◌^◌, refl, Some};
ghost use Rattle.rpki_blocks.specs.ResourceTexts.{as_text};

use crate::bound::Bound;
use std::fmt;
use std::marker::Model;

/// An AS number, of 32 bits (RFC 6793).
#[derive(Clone, Copy, PartialEq, Eq, PartialOrd, Ord)]
pub struct Asn(u32);

impl Model for Asn {
    ghost use Rattle.std.specs.Prelude.{ℕ, ◌<◌, ◌^◌};

    ghost Value = { ℕ };

    ghost view = { λ a. a.0 };

    ghost invariant = { λ a. a.0 < 2 ^ 32 };

    ghost inverse = { λ n. record { 0 = n } };
}

impl Asn {
    /// The least AS number, 0.
    pub const MIN: Asn = Asn(0);

    /// The greatest AS number, 2^32 - 1.
    pub const MAX: Asn = Asn(u32::MAX);

    /// Returns the AS number as an integer.
    pub fn into_u32(self) -> u32
        ensures { result ≡ self }
    {
        self.0
    }
}

impl From<u32> for Asn {
    ghost use Rattle.std.specs.Prelude.{◌≡◌};

    ghost from_gives = { λ n a. a ≡ n };

    fn from(number: u32) -> Asn {
        Asn(number)
    }
}

/// Prints `AS` and the number in decimal digits, as `AS64496` (RFC 5396).
impl fmt::Display for Asn {
    ghost output = { λ a. Some (as_text a) };

    fn fmt<W: fmt::Write>(&self, f: &mut fmt::Formatter<W>) -> fmt::Result {
        let number = self.0;
        write!(f, "AS{number}")
    }
}

impl Bound for Asn {
    ghost number = { λ a. a };

    ghost value = { λ n. n };

    ghost has_number = { λ _. refl };

    ghost greatest = { 2 ^ 32 - 1 };

    fn known(self) {}

    fn next(self) -> Option<Asn> {
        Some(Asn(self.0.checked_add(1)?))
    }

    ghost ordered = { λ x y. refl };
}
