//! Why a path isn't accepted.
ghost use Rattle.rpki_c.specs.declared.refusal.Refusal.TheVariants as refusal;

use rpki_der::DecodeError;
use rpki_keys::tal::TalError;
use rpki_path::PathError;
use std::alloc::AllocError;

/// Why a path isn't accepted, or isn't judged at all.
#[derive(Drop)]
pub(crate) enum Refusal {
    /// The caller's lengths or numbers don't fit.
    BadCall,
    /// Memory ran out before a certificate was validated.
    Memory,
    /// The bytes aren't a TAL.
    Locator(TalError),
    /// The trust anchor's key isn't the TAL's.
    OtherKey,
    /// The trust anchor, at this index, lists no IP address and no AS number.
    NoResources(usize),
    /// The string at this index isn't a CRL.
    List(usize, DecodeError),
    /// A certificate of the path is wrong.
    Member(PathError),
    /// The certificates are a valid path, but the issuer of the one at this path index isn't the
    /// subject of the one above it; for the trust anchor, its own.
    OtherName(usize),
    /// The certificates are a valid path, but the RPKI doesn't use the last one's key.
    UnusedKey,
}

impl Refusal {
    ghost use Rattle.std.specs.Prelude.{◌≡◌};
    ghost use Rattle.rpki_c.specs.Telling.{refusal_place, told_place};

    /// Returns the index of what is wrong, for a question of so many certificates, as a verdict has
    /// it.
    pub(crate) fn index(&self, members: usize) -> u32
        ensures { result ≡ told_place (refusal_place members self.now) }
    {
        let place = match self {
            Refusal::NoResources(place) => *place,
            Refusal::Member(error) => error.index,
            Refusal::OtherName(place) => *place,
            Refusal::UnusedKey => members.saturating_sub(1),
            Refusal::List(place, _) => members.saturating_add(*place),
            _ => 0,
        };
        u32::try_from(place).unwrap_or(u32::MAX)
    }
}

impl From<AllocError> for Refusal {
    ghost use Rattle.std.specs.Prelude.{◌≡◌};

    ghost from_gives = { λ _ r. r ≡ refusal.Memory };

    fn from(_error: AllocError) -> Refusal {
        Refusal::Memory
    }
}

impl From<TalError> for Refusal {
    ghost use Rattle.std.specs.Prelude.{◌≡◌};

    ghost from_gives = { λ error r. r ≡ refusal.Locator error };

    fn from(error: TalError) -> Refusal {
        Refusal::Locator(error)
    }
}

impl From<PathError> for Refusal {
    ghost use Rattle.std.specs.Prelude.{◌≡◌};

    ghost from_gives = { λ error r. r ≡ refusal.Member error };

    fn from(error: PathError) -> Refusal {
        Refusal::Member(error)
    }
}
