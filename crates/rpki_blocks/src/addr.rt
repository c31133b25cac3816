//! IP addresses.
ghost use Rattle.std.specs.Prelude.{◌≡◌, ◌-◌, ◌^◌, refl};

use crate::bound::Bound;
use std::marker::Model;

/// An IP address as a number of 128 bits. An IPv4 address is in the upper 32 bits.
#[derive(Clone, Copy, PartialEq, Eq, PartialOrd, Ord)]
pub struct Addr(u128);

impl Model for Addr {
    ghost use Rattle.std.specs.Prelude.{ℕ, ◌<◌, ◌^◌};

    ghost Value = { ℕ };

    ghost view = { λ a. a.0 };

    ghost invariant = { λ a. a.0 < 2 ^ 128 };

    ghost inverse = { λ n. record { 0 = n } };
}

impl Addr {
    /// Returns the number of the address.
    pub fn to_bits(self) -> u128
        ensures { result ≡ self }
    {
        self.0
    }
}

impl From<u128> for Addr {
    ghost use Rattle.std.specs.Prelude.{◌≡◌};

    ghost from_gives = { λ n a. a ≡ n };

    fn from(bits: u128) -> Addr {
        Addr(bits)
    }
}

impl Bound for Addr {
    ghost number = { λ a. a };

    ghost value = { λ n. n };

    ghost has_number = { λ _. refl };

    ghost greatest = { 2 ^ 128 - 1 };

    fn known(self) {}

    fn next(self) -> Option<Addr> {
        Some(Addr(self.0.checked_add(1)?))
    }

    ghost ordered = { λ x y. refl };
}
