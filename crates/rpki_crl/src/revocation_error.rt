//! Why a certificate isn't found unrevoked.
ghost use Rattle.std.specs.Prelude.{◌≡◌};

use thiserror::Error;

/// Why a certificate isn't found unrevoked (RFC 6487 7.2, RFC 5280 6.3.3).
#[derive(Debug, Clone, Copy, PartialEq, Eq, Error)]
pub enum RevocationError {
    /// No CRL is stored under the URI.
    #[error("missing revocation list")]
    NoCrl,
    /// The CRL's authority key identifier isn't that of the issuer's key (RFC 5280 5.2.1).
    #[error("wrong authority key identifier of the revocation list")]
    WrongKeyId,
    /// The issuer's key didn't sign the CRL.
    #[error("bad signature of the revocation list")]
    BadSignature,
    /// The validation time isn't within the CRL's times: its nextUpdate is before it, or, if CRLs
    /// are given, its thisUpdate is after it.
    #[error("stale revocation list")]
    Stale,
    /// The CRL has the serial number.
    #[error("certificate revoked")]
    Revoked,
    /// CRLs are given, their issuer names are compared, the issuer's key signed one of them, and no
    /// such CRL has the issuer's name (RFC 5280 6.3.3 (b) (1)).
    #[error("wrong issuer of the revocation list")]
    WrongIssuer,
}

impl RevocationError {
    ghost use Rattle.rpki_crl.specs.Revocation.{revocation_error_name};

    /// Returns the variant's name.
    pub fn name(&self) -> &'static str
        ensures { result.now ≡ revocation_error_name self.now }
    {
        match self {
            RevocationError::NoCrl => "NoCrl",
            RevocationError::WrongKeyId => "WrongKeyId",
            RevocationError::BadSignature => "BadSignature",
            RevocationError::Stale => "Stale",
            RevocationError::Revoked => "Revoked",
            RevocationError::WrongIssuer => "WrongIssuer",
        }
    }
}
