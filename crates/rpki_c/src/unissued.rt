//! Why no certificate and no CRL is prepared or completed.
ghost use Rattle.rpki_c.specs.declared.unissued.Unissued.TheVariants as unissued;

use crate::certificates::CertUri;
use crate::refusal::Refusal;
use rpki_issuing::wanted::WantedError;
use std::alloc::AllocError;

/// Why no certificate and no CRL is prepared or completed.
#[derive(Drop)]
pub(crate) enum Unissued {
    /// The caller's lengths or numbers don't fit.
    BadCall,
    /// Memory ran out.
    Memory,
    /// The issuer's path isn't accepted.
    Issuer(Refusal),
    /// The bytes of the key aren't a SubjectPublicKeyInfo.
    NoKey,
    /// The RPKI doesn't use the key.
    UnusedKey,
    /// The bytes of this URI aren't a URI of its kind.
    BadUri(CertUri),
    /// The subject would have no name.
    NoName,
    /// The bytes of the previous CRL aren't a CRL of the issuer.
    OtherList,
    /// The signed bytes are neither a TBSCertificate nor a TBSCertList.
    NotToSign,
    /// The issuer's name in it isn't that of the issuer.
    OtherName,
    /// It isn't ready to be signed, or isn't signed.
    Unfit(WantedError),
}

impl Unissued {
    ghost use Rattle.std.specs.Prelude.{◌≡◌};
    ghost use Rattle.rpki_c.specs.IssuedTelling.{unissued_place};
    ghost use Rattle.rpki_c.specs.Telling.{told_place};

    /// Returns the path index of what is wrong, below so many certificates.
    pub(crate) fn index(&self, members: usize) -> u32
        ensures { result ≡ told_place (unissued_place members self.now) }
    {
        match self {
            Unissued::Issuer(refusal) => refusal.index(members),
            Unissued::BadUri(which) => which.number(),
            Unissued::BadCall | Unissued::Memory => 0,
            _ => u32::try_from(members).unwrap_or(u32::MAX),
        }
    }
}

impl From<AllocError> for Unissued {
    ghost use Rattle.std.specs.Prelude.{◌≡◌};

    ghost from_gives = { λ _ why. why ≡ unissued.Memory };

    fn from(_error: AllocError) -> Unissued {
        Unissued::Memory
    }
}

impl From<WantedError> for Unissued {
    ghost use Rattle.std.specs.Prelude.{◌≡◌};
    ghost use Rattle.rpki_c.specs.WantedAnswers.{unfit_of};

    ghost from_gives = { λ error why. why ≡ unfit_of error };

    fn from(error: WantedError) -> Unissued {
        match error {
            WantedError::Memory => Unissued::Memory,
            other => Unissued::Unfit(other),
        }
    }
}
