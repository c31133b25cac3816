//! The kinds of extensions: their names, and the form that each has to have.
ghost use Rattle.std.specs.Prelude.{◌≡◌, ◌++◌, ◌↔◌, IsTrue, IsOk, MatchResult, Some};
ghost use Rattle.rpki_der.specs.Place.{remaining};
ghost use Rattle.rpki_files.specs.KnownKinds.{NamesKind, kind_among, place_kinds, resource_kinds, known_in_certificates, known_in_lists, known_kind, called, kind_name, kind_wanted, HasContent, MayHaveFlag, SaysWhether};
ghost use Rattle.rpki_files.specs.declared.kinds.Kind.TheVariants.{Unknown, NoList};

use rpki_blocks::{AsResources, IpResources};
use rpki_der::{Cursor, DecodeError, Field, Serial, oid};
use rpki_ext::{
    take_authority_information_access, take_authority_key_identifier, take_basic_constraints,
    take_certificate_policies, take_crl_distribution_points, take_extended_key_usage,
    take_key_usage, take_subject_information_access, take_subject_key_identifier,
};
use std::alloc::Global;

/// The kinds of extensions that a certificate or a CRL may have. Resources have two identifiers
/// (RFC 8360 4.2).
#[derive(Clone, Copy, PartialEq, Eq)]
pub enum Kind {
    BasicConstraints,
    SubjectKeyIdentifier,
    AuthorityKeyIdentifier,
    KeyUsage,
    ExtendedKeyUsage,
    CrlDistributionPoints,
    AuthorityInformationAccess,
    SubjectInformationAccess,
    CertificatePolicies,
    IpResources,
    AsResources,
    CrlNumber,
    /// An extension that no certificate of the profile has.
    Unknown,
    /// An extension that no CRL may have.
    NoList,
}

fn of_key(identifier: &[u8]) -> Kind
    ensures { result ≡ kind_among known_in_certificates Unknown identifier.now }
{
    if identifier == oid::CE_BASIC_CONSTRAINTS {
        Kind::BasicConstraints
    } else if identifier == oid::CE_SUBJECT_KEY_IDENTIFIER {
        Kind::SubjectKeyIdentifier
    } else if identifier == oid::CE_AUTHORITY_KEY_IDENTIFIER {
        Kind::AuthorityKeyIdentifier
    } else if identifier == oid::CE_KEY_USAGE {
        Kind::KeyUsage
    } else if identifier == oid::CE_EXTENDED_KEY_USAGE {
        Kind::ExtendedKeyUsage
    } else {
        of_place(identifier)
    }
}

fn of_place(identifier: &[u8]) -> Kind
    ensures { result ≡ kind_among (place_kinds ++ resource_kinds) Unknown identifier.now }
{
    if identifier == oid::CE_CRL_DISTRIBUTION_POINTS {
        Kind::CrlDistributionPoints
    } else if identifier == oid::PE_AUTHORITY_INFO_ACCESS {
        Kind::AuthorityInformationAccess
    } else if identifier == oid::PE_SUBJECT_INFO_ACCESS {
        Kind::SubjectInformationAccess
    } else if identifier == oid::CE_CERTIFICATE_POLICIES {
        Kind::CertificatePolicies
    } else {
        of_resources(identifier)
    }
}

fn of_resources(identifier: &[u8]) -> Kind
    ensures { result ≡ kind_among resource_kinds Unknown identifier.now }
{
    if identifier == oid::PE_IP_ADDR_BLOCK || identifier == oid::PE_IP_ADDR_BLOCK_V2 {
        Kind::IpResources
    } else if identifier == oid::PE_AUTONOMOUS_SYS_IDS
        || identifier == oid::PE_AUTONOMOUS_SYS_IDS_V2
    {
        Kind::AsResources
    } else {
        Kind::Unknown
    }
}

fn of_list(identifier: &[u8]) -> Kind
    ensures { result ≡ kind_among known_in_lists NoList identifier.now }
{
    if identifier == oid::CE_AUTHORITY_KEY_IDENTIFIER {
        Kind::AuthorityKeyIdentifier
    } else if identifier == oid::CE_CRL_NUMBER {
        Kind::CrlNumber
    } else {
        Kind::NoList
    }
}

impl Kind {
    /// Returns the kind that an identifier names in a CRL, or in a certificate.
    pub fn of(identifier: &[u8], is_list: bool) -> Kind
        ensures { result ≡ known_kind is_list identifier.now }
    {
        if is_list {
            of_list(identifier)
        } else {
            of_key(identifier)
        }
    }

    // What faults call the extensions of this kind, if they name it.
    fn called(self) -> Option<Field>
        ensures { result ≡ called self }
    {
        match self {
            Kind::BasicConstraints => Some(Field::BasicConstraints),
            Kind::SubjectKeyIdentifier => Some(Field::SubjectKeyIdentifier),
            Kind::AuthorityKeyIdentifier => Some(Field::AuthorityKeyIdentifier),
            Kind::KeyUsage => Some(Field::KeyUsage),
            Kind::ExtendedKeyUsage => Some(Field::ExtendedKeyUsage),
            Kind::CrlDistributionPoints => Some(Field::CrlDistributionPoints),
            Kind::AuthorityInformationAccess => Some(Field::AuthorityInformationAccess),
            Kind::SubjectInformationAccess => Some(Field::SubjectInformationAccess),
            Kind::CertificatePolicies => Some(Field::CertificatePolicies),
            Kind::IpResources => Some(Field::IpResources),
            Kind::AsResources => Some(Field::AsResources),
            Kind::CrlNumber => Some(Field::CrlNumber),
            Kind::Unknown | Kind::NoList => None,
        }
    }

    // Whether faults call the extensions of this kind so.
    pub(crate) fn is_called(self, field: Field) -> bool
        ensures { IsTrue result ↔ called self ≡ Some field }
    {
        match self.called() {
            Some(name) => name == field,
            None => false,
        }
    }

    // Whether a fault names extensions of this kind.
    pub(crate) fn is_named(self, field: Field) -> bool
        ensures { IsTrue result ↔ NamesKind field self }
    {
        match field {
            Field::Resources => self == Kind::IpResources || self == Kind::AsResources,
            _ => self.is_called(field),
        }
    }

    /// Returns the name of the kind, as in RFC 6487 4.8 and 5.
    pub fn name(self) -> &'static str
        ensures { result.now ≡ kind_name self }
    {
        match self {
            Kind::BasicConstraints => "Basic Constraints",
            Kind::SubjectKeyIdentifier => "Subject Key Identifier",
            Kind::AuthorityKeyIdentifier => "Authority Key Identifier",
            Kind::KeyUsage => "Key Usage",
            Kind::ExtendedKeyUsage => "Extended Key Usage",
            Kind::CrlDistributionPoints => "CRL Distribution Points",
            Kind::AuthorityInformationAccess => "Authority Information Access",
            Kind::SubjectInformationAccess => "Subject Information Access",
            Kind::CertificatePolicies => "Certificate Policies",
            Kind::IpResources => "IP Resources",
            Kind::AsResources => "AS Resources",
            Kind::CrlNumber => "CRL Number",
            Kind::Unknown | Kind::NoList => "an unknown extension",
        }
    }

    /// Returns what is expected of an extension of this kind. In a CRL no flag is required.
    pub fn wanted(self) -> &'static str
        ensures { result.now ≡ kind_wanted self }
    {
        match self {
            Kind::BasicConstraints => {
                "critical, that it is a CA, and no path length (RFC 6487 4.8.1)"
            }
            Kind::SubjectKeyIdentifier => "not critical, 20 bytes (RFC 6487 4.8.2)",
            Kind::AuthorityKeyIdentifier => {
                "not critical, a key identifier of 20 bytes alone (RFC 6487 4.8.3)"
            }
            Kind::KeyUsage => {
                "critical, keyCertSign with cRLSign, or digitalSignature (RFC 6487 4.8.4)"
            }
            Kind::ExtendedKeyUsage => "not critical, purposes (RFC 6487 4.8.5)",
            Kind::CrlDistributionPoints => {
                "not critical, one point with one rsync URI of a CRL (RFC 6487 4.8.6; own: only one)"
            }
            Kind::AuthorityInformationAccess => {
                "not critical, one rsync URI of the issuer's certificate (RFC 6487 4.8.7; own: only one)"
            }
            Kind::SubjectInformationAccess => {
                "not critical, rsync URIs, and https for rpkiNotify (RFC 6487 4.8.8)"
            }
            Kind::CertificatePolicies => "critical, the policy of the RPKI alone (RFC 6487 4.8.9)",
            Kind::IpResources => "addresses by family, or inherit (RFC 3779 2.2.3)",
            Kind::AsResources => "AS numbers, or inherit (RFC 3779 3.2.3)",
            Kind::CrlNumber => "an INTEGER that isn't negative (RFC 5280 5.2.3)",
            Kind::Unknown => "not critical (RFC 6487 4.8)",
            Kind::NoList => "of a CRL, Authority Key Identifier and CRL Number alone (RFC 6487 5)",
        }
    }

    // Whether an extension of this kind may have this flag. In lists, and of resources, it isn't
    // tested.
    pub(crate) fn may_be(self, is_list: bool, critical: bool) -> bool
        ensures { IsTrue result ↔ MayHaveFlag is_list self critical }
    {
        if is_list {
            return true;
        }
        match self {
            Kind::BasicConstraints | Kind::KeyUsage | Kind::CertificatePolicies => critical,
            Kind::IpResources | Kind::AsResources => true,
            _ => !critical,
        }
    }

    /// Reads an extension with this flag and this content in a CRL, or in a certificate.
    ///
    /// # Errors
    ///
    /// Returns an error if the flag or the form of the content isn't that of the kind (which error
    /// is unspecified), and `Memory`.
    pub fn read(
        self,
        alloc: Global,
        is_list: bool,
        critical: bool,
        content: &mut Cursor<'_>,
    ) -> Result<(), DecodeError>
        ensures { SaysWhether result (MayHaveFlag is_list self critical
            × HasContent self (remaining content.old)) }
    {
        if self.may_be(is_list, critical) {
            self.take(alloc, content)
        } else {
            Err(DecodeError::BadValue)
        }
    }

    pub(crate) fn take(self, alloc: Global, content: &mut Cursor<'_>) -> Result<(), DecodeError>
        ensures { SaysWhether result (HasContent self (remaining content.old)) }
    {
        match self {
            Kind::BasicConstraints => without_value(take_basic_constraints(content)),
            Kind::SubjectKeyIdentifier => without_value(take_subject_key_identifier(content)),
            Kind::AuthorityKeyIdentifier => without_value(take_authority_key_identifier(content)),
            Kind::KeyUsage => without_value(take_key_usage(content)),
            Kind::ExtendedKeyUsage => without_value(take_extended_key_usage(alloc, content)),
            Kind::CrlDistributionPoints => {
                without_value(take_crl_distribution_points(alloc, content))
            }
            Kind::AuthorityInformationAccess => {
                without_value(take_authority_information_access(alloc, content))
            }
            Kind::SubjectInformationAccess => {
                without_value(take_subject_information_access(alloc, content))
            }
            Kind::CertificatePolicies => without_value(take_certificate_policies(content)),
            Kind::IpResources => without_value(IpResources::take_families_from(alloc, content)),
            Kind::AsResources => without_value(AsResources::take_from(alloc, content)),
            Kind::CrlNumber => without_value(Serial::take_from(content)),
            Kind::Unknown => Ok(()),
            Kind::NoList => Err(DecodeError::BadValue),
        }
    }
}

// Whether a value was read.
pub(crate) fn without_value<T: Drop>(read: Result<T, DecodeError>) -> Result<(), DecodeError>
    ensures { MatchResult read (λ _. IsOk result) (λ e. result ≡ Err e) }
{
    let value = read?;
    drop(value);
    Ok(())
}
