//! Errors of reading and of writing.
use crate::oid::Oid;
use std::alloc::AllocError;
use thiserror::Error;

/// A part of a certificate or of a CRL that an error names.
#[derive(Debug, Clone, Copy, PartialEq, Eq)]
pub enum Field {
    /// Basic constraints (RFC 6487 4.8.1).
    BasicConstraints,
    /// Subject key identifier (RFC 6487 4.8.2).
    SubjectKeyIdentifier,
    /// Authority key identifier (RFC 6487 4.8.3, 5).
    AuthorityKeyIdentifier,
    /// Key usage (RFC 6487 4.8.4).
    KeyUsage,
    /// Extended key usage (RFC 6487 4.8.5).
    ExtendedKeyUsage,
    /// CRL distribution points (RFC 6487 4.8.6).
    CrlDistributionPoints,
    /// Authority information access (RFC 6487 4.8.7).
    AuthorityInformationAccess,
    /// Subject information access (RFC 6487 4.8.8).
    SubjectInformationAccess,
    /// Certificate policies (RFC 6487 4.8.9).
    CertificatePolicies,
    /// IP resources (RFC 6487 4.8.10).
    IpResources,
    /// AS resources (RFC 6487 4.8.11).
    AsResources,
    /// The IP resources or the AS resources (RFC 6487 4.8.10, 4.8.11).
    Resources,
    /// CRL number (RFC 6487 5).
    CrlNumber,
}

/// Why bytes could not be read.
#[derive(Debug, Drop, Error)]
pub enum DecodeError {
    /// The bytes end within a value (X.690 8.1).
    #[error("truncated value")]
    Truncated,
    /// A length that is not the shortest or is indefinite (X.690 10.1), or has more than four bytes
    /// (own rule).
    #[error("bad length")]
    BadLength,
    /// Another identifier octet than the required one (X.690 8.1.2), or one whose tag number is 31
    /// or more (own rule).
    #[error("unexpected identifier")]
    BadTag,
    /// A content that its type does not allow (X.690 8, 11), or that a field does not allow (RFC
    /// 5280 4, 5, RFC 6487 4, 5).
    #[error("bad value")]
    BadValue,
    /// Bytes remain after the last component of a value (X.690 8.9), or after a value that must be
    /// the last one.
    #[error("trailing octets")]
    Trailing,
    /// Constructed values are nested too deep (own rule).
    #[error("values nested too deep")]
    TooDeep,
    /// A required extension is missing (RFC 6487 4.8, 5).
    #[error("missing {0:?}")]
    Missing(Field),
    /// An extension appears twice (RFC 5280 4.2, RFC 6487 5).
    #[error("duplicate {0:?}")]
    Duplicate(Field),
    /// An extension that must not be critical is critical (RFC 6487 4.8).
    #[error("{0:?} is critical")]
    Critical(Field),
    /// An extension that must be critical is not critical (RFC 6487 4.8).
    #[error("{0:?} is not critical")]
    NotCritical(Field),
    /// A critical extension that the profile does not have (RFC 6487 4.8).
    #[error("unexpected critical extension {0}")]
    UnexpectedCritical(Oid),
    /// An extension of a CRL that the profile does not have (RFC 6487 5).
    #[error("invalid extension {0}")]
    InvalidExtension(Oid),
    /// The extension with resources has another identifier than the certificate policy requires, or
    /// there is no certificate policy (RFC 6487 4.8.10, 4.8.11, RFC 8360 4.2).
    #[error("wrong identifier of {0:?}")]
    WrongResources(Field),
    /// The signature algorithm in the to-be-signed part differs from the one outside it (RFC 5280
    /// 4.1.1.2, 5.1.1.2).
    #[error("signature algorithm mismatch")]
    AlgorithmMismatch,
    /// Memory ran out.
    #[error("out of memory")]
    Memory,
}

impl DecodeError {
    ghost use Rattle.std.specs.Prelude.{◌≡◌, ◌↔◌, IsTrue};
    ghost use Rattle.rpki_der.specs.ErrorNames.{decode_error_name};
    ghost use Rattle.rpki_der.specs.declared.error.DecodeError.TheVariants as error;

    /// Returns the variant's name.
    pub fn name(&self) -> &'static str
        ensures { result.now ≡ decode_error_name self.now }
    {
        match self {
            DecodeError::Truncated => "Truncated",
            DecodeError::BadLength => "BadLength",
            DecodeError::BadTag => "BadTag",
            DecodeError::BadValue => "BadValue",
            DecodeError::Trailing => "Trailing",
            DecodeError::TooDeep => "TooDeep",
            DecodeError::Missing(_) => "Missing",
            DecodeError::Duplicate(_) => "Duplicate",
            DecodeError::Critical(_) => "Critical",
            DecodeError::NotCritical(_) => "NotCritical",
            DecodeError::UnexpectedCritical(_) => "UnexpectedCritical",
            DecodeError::InvalidExtension(_) => "InvalidExtension",
            DecodeError::WrongResources(_) => "WrongResources",
            DecodeError::AlgorithmMismatch => "AlgorithmMismatch",
            DecodeError::Memory => "Memory",
        }
    }

    /// Returns whether the error is `Memory`.
    pub fn is_memory(&self) -> bool
        ensures { IsTrue result ↔ self.now ≡ error.Memory }
    {
        match self {
            DecodeError::Memory => true,
            _ => false,
        }
    }
}

impl From<AllocError> for DecodeError {
    ghost use Rattle.std.specs.Prelude.{◌≡◌};
    ghost use Rattle.rpki_der.specs.declared.error.DecodeError.TheVariants.{Memory};

    ghost from_gives = { λ _ e. e ≡ Memory };

    fn from(_error: AllocError) -> DecodeError {
        DecodeError::Memory
    }
}

/// Why a value could not be written.
#[derive(Debug, Drop, Error)]
pub enum EncodeError {
    /// A content would have 2^32 bytes or more (own rule).
    #[error("content too long")]
    TooLong,
    /// Memory ran out.
    #[error("out of memory")]
    Memory,
}

impl EncodeError {
    ghost use Rattle.std.specs.Prelude.{◌≡◌, ◌↔◌, IsTrue};
    ghost use Rattle.rpki_der.specs.ErrorNames.{encode_error_name};
    ghost use Rattle.rpki_der.specs.declared.error.EncodeError.TheVariants as error;

    /// Returns the variant's name.
    pub fn name(&self) -> &'static str
        ensures { result.now ≡ encode_error_name self.now }
    {
        match self {
            EncodeError::TooLong => "TooLong",
            EncodeError::Memory => "Memory",
        }
    }

    /// Returns whether the error is `Memory`.
    pub fn is_memory(&self) -> bool
        ensures { IsTrue result ↔ self.now ≡ error.Memory }
    {
        match self {
            EncodeError::TooLong => false,
            EncodeError::Memory => true,
        }
    }
}

impl From<AllocError> for EncodeError {
    ghost use Rattle.std.specs.Prelude.{◌≡◌};
    ghost use Rattle.rpki_der.specs.declared.error.EncodeError.TheVariants.{Memory};

    ghost from_gives = { λ _ e. e ≡ Memory };

    fn from(_error: AllocError) -> EncodeError {
        EncodeError::Memory
    }
}
