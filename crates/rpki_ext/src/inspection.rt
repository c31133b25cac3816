//! What inspection finds wrong with a certificate.
ghost use Rattle.std.specs.Prelude.{◌≡◌, Some};
ghost use Rattle.rpki_ext.specs.Inspection.{inspection_error_name, inspection_error_text};

use std::error::Error;
use std::fmt;

/// A condition of its profile that a certificate, or a part of it, doesn't meet (RFC 6487 4, RFC
/// 8209 3.1).
#[derive(Debug, Clone, Copy, PartialEq, Eq)]
pub enum InspectionError {
    /// The signature algorithm inside the to-be-signed part isn't that of the signature (RFC 5280
    /// 4.1.1.2).
    AlgorithmMismatch,
    /// The issuer's name isn't of the profile's form: one CommonName, and at most one serialNumber
    /// (RFC 6487 4.4).
    Issuer,
    /// The subject's name isn't of the profile's form (RFC 6487 4.5; a router's: RFC 8209 3.1.1).
    Subject,
    /// The key isn't an RSA key, or a router's key isn't a P-256 key (RFC 6487 4.7, RFC 7935 3, RFC
    /// 8608 3).
    KeyAlgorithm,
    /// The subject key identifier isn't the SHA-1 hash of the key's bits (RFC 6487 4.8.2).
    SubjectKeyIdentifier,
    /// Extended Key Usage is present in a certificate that isn't a router's (RFC 6487 4.8.5).
    ExtendedKeyUsagePresent,
    /// Basic Constraints don't say that the subject is a CA (RFC 6487 4.8.1, RFC 5280 4.2.1.9).
    CaFlagFalse,
    /// Basic Constraints are missing from a CA's certificate (RFC 6487 4.8.1).
    MissingBasicConstraints,
    /// Key Usage isn't that of the kind: keyCertSign and cRLSign for a CA, digitalSignature for any
    /// other (RFC 6487 4.8.4).
    KeyUsage,
    /// The URI of the repository is missing from a CA's certificate (RFC 6487 4.8.8.1).
    MissingCaRepository,
    /// The URI of the manifest is missing from a CA's certificate (RFC 6487 4.8.8.1).
    MissingManifest,
    /// The manifest's URI isn't directly below the repository's URI (own rule).
    ManifestNotChild,
    /// The URI of a signed object is present in a CA's certificate (own rule: RFC 6487 4.8.8.1
    /// lists no signedObject).
    SignedObjectPresent,
    /// The authority key identifier of a trust anchor isn't its subject key identifier (RFC 6487
    /// 4.8.3).
    AuthorityKeyIdentifier,
    /// The URI of a CRL is present in a trust anchor's certificate (RFC 6487 4.8.6).
    CrlUriPresent,
    /// The URI of the issuer's certificate is present in a trust anchor's certificate (RFC 6487
    /// 4.8.7).
    CaIssuerPresent,
    /// The URI of the issuer's CRL is missing from a certificate below a trust anchor (RFC 6487
    /// 4.8.6).
    MissingCrlUri,
    /// Basic Constraints are present in a certificate that isn't a CA's (RFC 6487 4.8.1).
    BasicConstraintsPresent,
    /// The URI of a repository is present in an end entity's certificate (RFC 6487 4.8.8.2).
    CaRepositoryPresent,
    /// The URI of a manifest is present in an end entity's certificate (RFC 6487 4.8.8.2).
    ManifestPresent,
    /// The URI of the signed object is missing from the certificate of an end entity that isn't
    /// detached (RFC 6487 4.8.8.2).
    MissingSignedObject,
    /// Extended Key Usage is missing from a router's certificate (RFC 8209 3.1.3.2).
    MissingExtendedKeyUsage,
    /// Extended Key Usage doesn't have the purpose of routers, id-kp-bgpsec-router (RFC 8209
    /// 3.1.3.2).
    MissingRouterPurpose,
    /// A URI of Subject Information Access is present in a router's certificate (RFC 8209 3.1.3.3).
    SubjectInformationPresent,
    /// IP resources are present in a router's certificate (RFC 8209 3.1.3.4).
    IpResourcesPresent,
    /// AS resources are missing from a router's certificate (RFC 8209 3.1.3.5).
    MissingAsResources,
    /// AS resources are inherited in a router's certificate (RFC 8209 3.1.3.5).
    InheritedAsResources,
}

impl InspectionError {
    /// Returns the variant's name.
    pub fn name(&self) -> &'static str
        ensures { result.now ≡ inspection_error_name self.now }
    {
        *match self {
            InspectionError::AlgorithmMismatch => &"AlgorithmMismatch",
            InspectionError::Issuer => &"Issuer",
            InspectionError::Subject => &"Subject",
            InspectionError::KeyAlgorithm => &"KeyAlgorithm",
            InspectionError::SubjectKeyIdentifier => &"SubjectKeyIdentifier",
            InspectionError::ExtendedKeyUsagePresent => &"ExtendedKeyUsagePresent",
            InspectionError::CaFlagFalse => &"CaFlagFalse",
            InspectionError::MissingBasicConstraints => &"MissingBasicConstraints",
            InspectionError::KeyUsage => &"KeyUsage",
            InspectionError::MissingCaRepository => &"MissingCaRepository",
            InspectionError::MissingManifest => &"MissingManifest",
            InspectionError::ManifestNotChild => &"ManifestNotChild",
            InspectionError::SignedObjectPresent => &"SignedObjectPresent",
            InspectionError::AuthorityKeyIdentifier => &"AuthorityKeyIdentifier",
            InspectionError::CrlUriPresent => &"CrlUriPresent",
            InspectionError::CaIssuerPresent => &"CaIssuerPresent",
            InspectionError::MissingCrlUri => &"MissingCrlUri",
            InspectionError::BasicConstraintsPresent => &"BasicConstraintsPresent",
            InspectionError::CaRepositoryPresent => &"CaRepositoryPresent",
            InspectionError::ManifestPresent => &"ManifestPresent",
            InspectionError::MissingSignedObject => &"MissingSignedObject",
            InspectionError::MissingExtendedKeyUsage => &"MissingExtendedKeyUsage",
            InspectionError::MissingRouterPurpose => &"MissingRouterPurpose",
            InspectionError::SubjectInformationPresent => &"SubjectInformationPresent",
            InspectionError::IpResourcesPresent => &"IpResourcesPresent",
            InspectionError::MissingAsResources => &"MissingAsResources",
            InspectionError::InheritedAsResources => &"InheritedAsResources",
        }
    }

    // What is printed of it.
    fn text(&self) -> &'static str
        ensures { result.now ≡ inspection_error_text self.now }
    {
        *match self {
            InspectionError::AlgorithmMismatch => &"signature algorithm mismatch",
            InspectionError::Issuer => &"invalid issuer",
            InspectionError::Subject => &"invalid subject",
            InspectionError::KeyAlgorithm => &"invalid key algorithm",
            InspectionError::SubjectKeyIdentifier => &"subject key identifier mismatch",
            InspectionError::ExtendedKeyUsagePresent => &"extended key usage present",
            InspectionError::CaFlagFalse => &"CA flag is false",
            InspectionError::MissingBasicConstraints => &"missing basic constraints",
            InspectionError::KeyUsage => &"wrong key usage",
            InspectionError::MissingCaRepository => &"missing CA repository",
            InspectionError::MissingManifest => &"missing manifest",
            InspectionError::ManifestNotChild => &"manifest not directly below the repository",
            InspectionError::SignedObjectPresent => &"signed object present",
            InspectionError::AuthorityKeyIdentifier => &"authority key identifier mismatch",
            InspectionError::CrlUriPresent => &"CRL URI present",
            InspectionError::CaIssuerPresent => &"CA issuer present",
            InspectionError::MissingCrlUri => &"missing CRL URI",
            InspectionError::BasicConstraintsPresent => &"basic constraints present",
            InspectionError::CaRepositoryPresent => &"CA repository present",
            InspectionError::ManifestPresent => &"manifest present",
            InspectionError::MissingSignedObject => &"missing signed object",
            InspectionError::MissingExtendedKeyUsage => &"missing extended key usage",
            InspectionError::MissingRouterPurpose => &"missing router purpose",
            InspectionError::SubjectInformationPresent => &"subject information access present",
            InspectionError::IpResourcesPresent => &"IP resources present",
            InspectionError::MissingAsResources => &"missing AS resources",
            InspectionError::InheritedAsResources => &"inherited AS resources",
        }
    }
}

/// Writes what is wrong in words, as `missing manifest`.
impl fmt::Display for InspectionError {
    ghost output = { λ error. Some (inspection_error_text error) };

    fn fmt<W: fmt::Write>(&self, f: &mut fmt::Formatter<W>) -> fmt::Result {
        f.write_str(self.text())
    }
}

impl Error for InspectionError {}
