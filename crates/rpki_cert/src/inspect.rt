//! Certificates are inspected: whether one meets the profile of its kind (RFC 6487 4, RFC 8209
//! 3.1).
ghost use Rattle.std.specs.Prelude.{◌≡◌, ◌↔◌, IsTrue, IfSome, OnOk, IfErr, Some};
ghost use Rattle.rpki_parts.specs.Conditions.{Tests};
ghost use Rattle.rpki_blocks.specs.Resources.{missing};
ghost use Rattle.rpki_parts.specs.Keys.{key_identifier};
ghost use Rattle.rpki_ext.specs.RouterPurposes.{HasRouterPurpose};
ghost use Rattle.rpki_cert.specs.Profiles.{HasKeyFor, HasSubjectFor, HasUsageFor, HasManifestWithin, HasNoAccess, Lacks, faults, MeetsProfile, IsFirstFault, kind_text};
ghost use Rattle.rpki_cert.specs.declared.inspect.Kind.TheVariants.{Anchor, Authority, EndEntity, Detached, Router};

use crate::cert::Cert;
use crate::tbs::TbsCert;
use rpki_ext::{InspectionError, KeyUsage};
use std::fmt;

/// The kinds of certificates that inspection distinguishes (RFC 6487 4, RFC 8209 3.1).
#[derive(Debug, Clone, Copy, PartialEq, Eq)]
pub enum Kind {
    /// A trust anchor, which signs itself (RFC 8630 2.3).
    Anchor,
    /// A CA below another one (RFC 6487 4.8.1).
    Authority,
    /// An end entity whose certificate has the URI of the object that it signs (RFC 6487 4.8.8.2).
    EndEntity,
    /// An end entity that signs any object (own).
    Detached,
    /// A BGPsec router (RFC 8209 3.1).
    Router,
}

/// Displays the kind in words, as `trust anchor`.
impl fmt::Display for Kind {
    ghost output = { λ kind. Some (kind_text kind) };

    fn fmt<W: fmt::Write>(&self, f: &mut fmt::Formatter<W>) -> fmt::Result {
        f.write_str(match self {
            Kind::Anchor => "trust anchor",
            Kind::Authority => "certification authority",
            Kind::EndEntity => "end entity",
            Kind::Detached => "detached end entity",
            Kind::Router => "router",
        })
    }
}

// What is tested of each kind, in this order.
const ANCHOR: &[InspectionError] = &[
    InspectionError::AlgorithmMismatch,
    InspectionError::Issuer,
    InspectionError::Subject,
    InspectionError::KeyAlgorithm,
    InspectionError::SubjectKeyIdentifier,
    InspectionError::ExtendedKeyUsagePresent,
    InspectionError::CaFlagFalse,
    InspectionError::MissingBasicConstraints,
    InspectionError::KeyUsage,
    InspectionError::MissingCaRepository,
    InspectionError::MissingManifest,
    InspectionError::ManifestNotChild,
    InspectionError::SignedObjectPresent,
    InspectionError::AuthorityKeyIdentifier,
    InspectionError::CrlUriPresent,
    InspectionError::CaIssuerPresent,
];

const AUTHORITY: &[InspectionError] = &[
    InspectionError::AlgorithmMismatch,
    InspectionError::Issuer,
    InspectionError::Subject,
    InspectionError::KeyAlgorithm,
    InspectionError::SubjectKeyIdentifier,
    InspectionError::ExtendedKeyUsagePresent,
    InspectionError::CaFlagFalse,
    InspectionError::MissingBasicConstraints,
    InspectionError::KeyUsage,
    InspectionError::MissingCaRepository,
    InspectionError::MissingManifest,
    InspectionError::ManifestNotChild,
    InspectionError::SignedObjectPresent,
    InspectionError::MissingCrlUri,
];

const END_ENTITY: &[InspectionError] = &[
    InspectionError::AlgorithmMismatch,
    InspectionError::Issuer,
    InspectionError::Subject,
    InspectionError::KeyAlgorithm,
    InspectionError::SubjectKeyIdentifier,
    InspectionError::ExtendedKeyUsagePresent,
    InspectionError::MissingCrlUri,
    InspectionError::BasicConstraintsPresent,
    InspectionError::KeyUsage,
    InspectionError::CaRepositoryPresent,
    InspectionError::ManifestPresent,
    InspectionError::MissingSignedObject,
];

const DETACHED: &[InspectionError] = &[
    InspectionError::AlgorithmMismatch,
    InspectionError::Issuer,
    InspectionError::Subject,
    InspectionError::KeyAlgorithm,
    InspectionError::SubjectKeyIdentifier,
    InspectionError::ExtendedKeyUsagePresent,
    InspectionError::MissingCrlUri,
    InspectionError::BasicConstraintsPresent,
    InspectionError::KeyUsage,
    InspectionError::CaRepositoryPresent,
    InspectionError::ManifestPresent,
];

const ROUTER: &[InspectionError] = &[
    InspectionError::AlgorithmMismatch,
    InspectionError::Issuer,
    InspectionError::Subject,
    InspectionError::KeyAlgorithm,
    InspectionError::BasicConstraintsPresent,
    InspectionError::SubjectKeyIdentifier,
    InspectionError::KeyUsage,
    InspectionError::MissingExtendedKeyUsage,
    InspectionError::MissingRouterPurpose,
    InspectionError::MissingCrlUri,
    InspectionError::SubjectInformationPresent,
    InspectionError::IpResourcesPresent,
    InspectionError::MissingAsResources,
    InspectionError::InheritedAsResources,
];

impl Kind {
    // What is tested, in this order.
    fn faults(self) -> &'static [InspectionError]
        ensures { result.now ≡ faults self }
    {
        match self {
            Kind::Anchor => ANCHOR,
            Kind::Authority => AUTHORITY,
            Kind::EndEntity => END_ENTITY,
            Kind::Detached => DETACHED,
            Kind::Router => ROUTER,
        }
    }
}

impl TbsCert {
    // Whether the subject's name has the form that the kind asks for.
    fn has_subject_for(&self, kind: Kind, strict: bool) -> bool
        ensures { IsTrue result ↔ HasSubjectFor kind strict self.now }
    {
        match kind {
            Kind::Router => self.subject().inspect_router(strict).is_ok(),
            _ => self.subject().inspect_rpki(strict).is_ok(),
        }
    }

    // Whether the key is of the sort that the kind asks for.
    fn has_key_for(&self, kind: Kind) -> bool
        ensures { IsTrue result ↔ HasKeyFor kind self.now }
    {
        match kind {
            Kind::Router => self.subject_public_key_info().allow_router_cert(),
            _ => self.subject_public_key_info().allow_rpki_cert(),
        }
    }

    // Whether the subject key identifier is that of the key.
    fn has_own_identifier(&self) -> bool
        ensures { IsTrue result
            ↔ self.now.extensions.subject_key_identifier ≡ key_identifier self.now.key }
    {
        self.subject_key_identifier() == self.subject_public_key_info().key_identifier()
    }

    // Whether the key is used as the kind asks.
    fn has_usage_for(&self, kind: Kind) -> bool
        ensures { IsTrue result ↔ HasUsageFor kind self.now.extensions }
    {
        match kind {
            Kind::Anchor | Kind::Authority => self.key_usage() == KeyUsage::Ca,
            _ => self.key_usage() == KeyUsage::Ee,
        }
    }

    // Whether the manifest's parent is the repository, where both are there.
    fn has_manifest_within(&self) -> bool
        ensures { IsTrue result ↔ HasManifestWithin self.now.extensions.access }
    {
        match (self.rpki_manifest(), self.ca_repository()) {
            (Some(manifest), Some(repository)) => manifest.parent_is(repository),
            _ => true,
        }
    }

    // Whether the authority key identifier is the subject's, where it is there.
    fn names_own_key(&self) -> bool
        ensures { IsTrue result ↔ IfSome self.now.extensions.authority_key_identifier
            (λ id. id ≡ self.now.extensions.subject_key_identifier) }
    {
        match self.authority_key_identifier() {
            Some(id) => id == self.subject_key_identifier(),
            None => true,
        }
    }

    // Whether the router's purpose is among the further purposes of the key, where they are there.
    fn has_router_purpose(&self) -> bool
        ensures { IsTrue result ↔ IfSome self.now.extensions.extended_key_usage HasRouterPurpose }
    {
        match self.extended_key_usage() {
            Some(usage) => usage.inspect_router().is_ok(),
            None => true,
        }
    }

    // Whether no URI of Subject Information Access is there.
    fn has_no_access(&self) -> bool
        ensures { IsTrue result ↔ HasNoAccess self.now.extensions.access }
    {
        self.ca_repository().is_none()
            && self.rpki_manifest().is_none()
            && self.signed_object().is_none()
            && self.rpki_notify().is_none()
    }

    // Whether no IP resources are there.
    fn has_no_addresses(&self) -> bool
        ensures { IsTrue result ↔ ((self.now.extensions.v4_resources ≡ missing)
            × (self.now.extensions.v6_resources ≡ missing)) }
    {
        !self.v4_resources().is_present() && !self.v6_resources().is_present()
    }
}

impl Cert {
    // Whether the certificate is without this fault.
    fn lacks(&self, kind: Kind, strict: bool, fault: InspectionError) -> bool
        ensures { IsTrue result ↔ Lacks kind strict self.now fault }
    {
        let tbs = self.as_tbs();
        match fault {
            InspectionError::AlgorithmMismatch => tbs.signature()
                == *self.signed_data().signature().algorithm(),
            InspectionError::Issuer => tbs.issuer().inspect_rpki(strict).is_ok(),
            InspectionError::Subject => tbs.has_subject_for(kind, strict),
            InspectionError::KeyAlgorithm => tbs.has_key_for(kind),
            InspectionError::SubjectKeyIdentifier => tbs.has_own_identifier(),
            InspectionError::ExtendedKeyUsagePresent => tbs.extended_key_usage().is_none(),
            InspectionError::CaFlagFalse => tbs.basic_ca() != Some(false),
            InspectionError::MissingBasicConstraints => tbs.basic_ca().is_some(),
            InspectionError::KeyUsage => tbs.has_usage_for(kind),
            InspectionError::MissingCaRepository => tbs.ca_repository().is_some(),
            InspectionError::MissingManifest => tbs.rpki_manifest().is_some(),
            InspectionError::ManifestNotChild => tbs.has_manifest_within(),
            InspectionError::SignedObjectPresent => tbs.signed_object().is_none(),
            InspectionError::AuthorityKeyIdentifier => tbs.names_own_key(),
            InspectionError::CrlUriPresent => tbs.crl_uri().is_none(),
            InspectionError::CaIssuerPresent => tbs.ca_issuer().is_none(),
            InspectionError::MissingCrlUri => tbs.crl_uri().is_some(),
            InspectionError::BasicConstraintsPresent => tbs.basic_ca().is_none(),
            InspectionError::CaRepositoryPresent => tbs.ca_repository().is_none(),
            InspectionError::ManifestPresent => tbs.rpki_manifest().is_none(),
            InspectionError::MissingSignedObject => tbs.signed_object().is_some(),
            InspectionError::MissingExtendedKeyUsage => tbs.extended_key_usage().is_some(),
            InspectionError::MissingRouterPurpose => tbs.has_router_purpose(),
            InspectionError::SubjectInformationPresent => tbs.has_no_access(),
            InspectionError::IpResourcesPresent => tbs.has_no_addresses(),
            InspectionError::MissingAsResources => tbs.as_resources().is_present(),
            InspectionError::InheritedAsResources => !tbs.as_resources().is_inherited(),
        }
    }

    // The faults of the kind are looked for one after the other.
    pub(crate) fn inspect(&self, kind: Kind, strict: bool) -> Result<(), InspectionError>
        ensures { Tests (Lacks kind strict self.now) (faults kind) result }
    {
        for fault in kind.faults() {
            if !self.lacks(kind, strict, *fault) {
                return Err(*fault);
            }
        }
        Ok(())
    }

    /// Checks that the certificate meets the profile of a trust anchor (RFC 6487 4):
    ///
    /// - one signature algorithm in the to-be-signed part and after it (RFC 5280 4.1.1.2)
    /// - issuer and subject of one CommonName and at most one serialNumber (RFC 6487 4.4, 4.5)
    /// - an RSA key, with its identifier as Subject Key Identifier (RFC 6487 4.7, 4.8.2)
    /// - no Extended Key Usage (RFC 6487 4.8.5)
    /// - Basic Constraints that say CA (RFC 6487 4.8.1), and the Key Usage of CAs (RFC 6487 4.8.4)
    /// - URIs of a repository and of a manifest directly in it (own), and none of a signed object
    ///   (RFC 6487 4.8.8)
    /// - no Authority Key Identifier but its own (RFC 6487 4.8.3)
    /// - no URIs of a CRL or of the issuer's certificate (RFC 6487 4.8.6, 4.8.7)
    ///
    /// In strict mode the names are PrintableStrings, else they may be UTF8Strings too. Borrows the
    /// certificate, so that several kinds can be tried. Takes no memory.
    ///
    /// # Errors
    ///
    /// Returns the first fault, in the order of the profile (own).
    ///
    /// # Not checked
    ///
    /// Whether issuer and subject are one name, whether it lists resources itself
    /// ([`Cert::verify_ta_at`] rejects inherited ones), the signature, the times, whether the RSA
    /// key has 2048 bits and the exponent 65537 (`rpki_keys::is_usable`), and the characters of
    /// names (own).
    pub fn inspect_ta(&self, strict: bool) -> Result<(), InspectionError>
        ensures ok { OnOk result (MeetsProfile Anchor strict self.now) }
        ensures fault { IfErr result (IsFirstFault Anchor strict self.now) }
    {
        self.inspect(Kind::Anchor, strict)
    }

    /// Checks that the certificate meets the profile of a CA below another one (RFC 6487 4):
    ///
    /// - one signature algorithm in the to-be-signed part and after it (RFC 5280 4.1.1.2)
    /// - issuer and subject of one CommonName and at most one serialNumber (RFC 6487 4.4, 4.5)
    /// - an RSA key, with its identifier as Subject Key Identifier (RFC 6487 4.7, 4.8.2)
    /// - no Extended Key Usage (RFC 6487 4.8.5)
    /// - Basic Constraints that say CA (RFC 6487 4.8.1), and the Key Usage of CAs (RFC 6487 4.8.4)
    /// - URIs of a repository and of a manifest directly in it (own), and none of a signed object
    ///   (RFC 6487 4.8.8)
    /// - the URI of a CRL (RFC 6487 4.8.6)
    ///
    /// In strict mode the names are PrintableStrings, else they may be UTF8Strings too. Borrows the
    /// certificate, so that several kinds can be tried. Takes no memory.
    ///
    /// # Errors
    ///
    /// Returns the first fault, in the order of the profile (own).
    ///
    /// # Not checked
    ///
    /// The Authority Key Identifier and the URI of the issuer's certificate ([`Cert::verify_ca_at`]
    /// checks them), the signature, the times, whether the RSA key has 2048 bits and the exponent
    /// 65537 (`rpki_keys::is_usable`), and the characters of names (own).
    pub fn inspect_ca(&self, strict: bool) -> Result<(), InspectionError>
        ensures ok { OnOk result (MeetsProfile Authority strict self.now) }
        ensures fault { IfErr result (IsFirstFault Authority strict self.now) }
    {
        self.inspect(Kind::Authority, strict)
    }

    /// Checks that the certificate meets the profile of an end entity whose certificate has the URI
    /// of the object that it signs (RFC 6487 4):
    ///
    /// - one signature algorithm in the to-be-signed part and after it (RFC 5280 4.1.1.2)
    /// - issuer and subject of one CommonName and at most one serialNumber (RFC 6487 4.4, 4.5)
    /// - an RSA key, with its identifier as Subject Key Identifier (RFC 6487 4.7, 4.8.2)
    /// - no Extended Key Usage (RFC 6487 4.8.5)
    /// - the URI of a CRL (RFC 6487 4.8.6)
    /// - no Basic Constraints (RFC 6487 4.8.1), and the Key Usage of end entities (RFC 6487 4.8.4)
    /// - no URIs of a repository or a manifest (RFC 6487 4.8.8.2)
    /// - the URI of a signed object (RFC 6487 4.8.8.2)
    ///
    /// In strict mode the names are PrintableStrings, else they may be UTF8Strings too. Borrows the
    /// certificate, so that several kinds can be tried. Takes no memory.
    ///
    /// # Errors
    ///
    /// Returns the first fault, in the order of the profile (own).
    ///
    /// # Not checked
    ///
    /// The Authority Key Identifier and the URI of the issuer's certificate ([`Cert::verify_ee_at`]
    /// checks them), the signature, the times, whether the RSA key has 2048 bits and the exponent
    /// 65537 (`rpki_keys::is_usable`), and the characters of names (own).
    pub fn inspect_ee(&self, strict: bool) -> Result<(), InspectionError>
        ensures ok { OnOk result (MeetsProfile EndEntity strict self.now) }
        ensures fault { IfErr result (IsFirstFault EndEntity strict self.now) }
    {
        self.inspect(Kind::EndEntity, strict)
    }

    /// Checks that the certificate meets the profile of an end entity whose certificate needs no
    /// URI of a signed object (RFC 6487 4; own: the URI may be there):
    ///
    /// - one signature algorithm in the to-be-signed part and after it (RFC 5280 4.1.1.2)
    /// - issuer and subject of one CommonName and at most one serialNumber (RFC 6487 4.4, 4.5)
    /// - an RSA key, with its identifier as Subject Key Identifier (RFC 6487 4.7, 4.8.2)
    /// - no Extended Key Usage (RFC 6487 4.8.5)
    /// - the URI of a CRL (RFC 6487 4.8.6)
    /// - no Basic Constraints (RFC 6487 4.8.1), and the Key Usage of end entities (RFC 6487 4.8.4)
    /// - no URIs of a repository or a manifest (RFC 6487 4.8.8.2)
    ///
    /// In strict mode the names are PrintableStrings, else they may be UTF8Strings too. Borrows the
    /// certificate, so that several kinds can be tried. Takes no memory.
    ///
    /// # Errors
    ///
    /// Returns the first fault, in the order of the profile (own).
    ///
    /// # Not checked
    ///
    /// The Authority Key Identifier and the URI of the issuer's certificate ([`Cert::verify_ee_at`]
    /// checks them), the signature, the times, whether the RSA key has 2048 bits and the exponent
    /// 65537 (`rpki_keys::is_usable`), and the characters of names (own).
    pub fn inspect_detached_ee(&self, strict: bool) -> Result<(), InspectionError>
        ensures ok { OnOk result (MeetsProfile Detached strict self.now) }
        ensures fault { IfErr result (IsFirstFault Detached strict self.now) }
    {
        self.inspect(Kind::Detached, strict)
    }

    /// Checks that the certificate meets the profile of a BGPsec router (RFC 8209 3.1):
    ///
    /// - one signature algorithm in the to-be-signed part and after it (RFC 5280 4.1.1.2)
    /// - issuer and subject of one CommonName and at most one serialNumber (RFC 6487 4.4, 4.5)
    /// - a P-256 key, with its identifier as Subject Key Identifier (RFC 8608 3.1, RFC 6487 4.8.2)
    /// - no Basic Constraints (RFC 8209 3.1.3.1), and the Key Usage of end entities (RFC 6487
    ///   4.8.4)
    /// - Extended Key Usage with the purpose of routers (RFC 8209 3.1.3.2)
    /// - the URI of a CRL (RFC 6487 4.8.6)
    /// - no URI in Subject Information Access (RFC 8209 3.1.3.3)
    /// - no IP addresses (RFC 8209 3.1.3.4), and AS numbers that are listed (RFC 8209 3.1.3.5)
    ///
    /// In strict mode the issuer's name is of PrintableStrings, else it may be of UTF8Strings too;
    /// the subject's may in either mode (own). Borrows the certificate, so that several kinds can
    /// be tried. Takes no memory.
    ///
    /// # Errors
    ///
    /// Returns the first fault, in the order of the profile (own).
    ///
    /// # Not checked
    ///
    /// The Authority Key Identifier and the URI of the issuer's certificate
    /// ([`Cert::verify_router_at`] checks them), the signature, the times, whether the key is a
    /// point of the curve (`rpki_keys::is_usable`), and the characters of names (own).
    pub fn inspect_router(&self, strict: bool) -> Result<(), InspectionError>
        ensures ok { OnOk result (MeetsProfile Router strict self.now) }
        ensures fault { IfErr result (IsFirstFault Router strict self.now) }
    {
        self.inspect(Kind::Router, strict)
    }
}
