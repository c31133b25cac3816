//! The extensions of a certificate, kind by kind: reading each in its place, and writing them.
ghost use Rattle.std.specs.Prelude.{◌≡◌, ◌++◌, length, take, map, false, if◌then◌else◌, is_some, OnErr, OnOk, IfErr, IfOk, None, Some};
ghost use Rattle.rpki_der.specs.Extensions.{Extension, part_of};
ghost use Rattle.rpki_der.specs.Place.{remaining};
ghost use Rattle.rpki_der.specs.Place.Reading.{Returns, ReturnsOrMemoryBy};
ghost use Rattle.rpki_der.specs.Writers.{SaysLong, Writes};
ghost use Rattle.rpki_ext.specs.CertificateExtensions.{bare, ExtensionsFit, extensions, sequence_part, Names, wanted, HasFlag, field_of, all_kinds, state_of, is_seen, ListedFields, agreed, disagreement, completed, part_for, parts};
ghost use Rattle.rpki_ext.specs.CertificateExtensions.Views.{ip_of};

use crate::authority_access::{
    put_authority_information_access, take_authority_information_access,
};
use crate::basic_constraints::{put_basic_constraints, take_basic_constraints};
use crate::distribution_points::{put_crl_distribution_points, take_crl_distribution_points};
use crate::early_exits::beside;
use crate::extended_key_usage::{
    ExtendedKeyUsage, put_extended_key_usage, take_extended_key_usage,
};
use crate::kept::{copied, known_https, known_identifier, known_rsync, known_usage};
use crate::key_identifiers::{
    encode_subject_key_identifier, put_authority_key_identifier, take_authority_key_identifier,
    take_subject_key_identifier,
};
use crate::key_usage::{KeyUsage, encode_key_usage, take_key_usage};
use crate::listed_resources::agreed;
use crate::policies::{encode_certificate_policies, take_certificate_policies};
use crate::reading::{Taken, is, keep, uris};
use crate::subject_access::{
    Sia, encode_subject_information_access, take_subject_information_access,
};
use rpki_blocks::{AsResources, IpResources, Overclaim};
use rpki_der::{Cursor, DecodeError, EncodeError, Field, MAX_LEN, oid};
use rpki_parts::{Https, KeyIdentifier, Rsync};
use std::alloc::{AllocError, Global};
use std::marker::Model;

/// The values of a certificate's extensions (RFC 6487 4.8). `None` means that the extension, or the
/// URI in it, is absent.
#[derive(Drop)]
pub struct Extensions {
    /// Whether Basic Constraints say that the subject is a CA (RFC 6487 4.8.1).
    pub basic_ca: Option<bool>,
    /// The identifier of the subject's key (RFC 6487 4.8.2).
    pub subject_key_identifier: KeyIdentifier,
    /// The identifier of the issuer's key (RFC 6487 4.8.3).
    pub authority_key_identifier: Option<KeyIdentifier>,
    /// What the key is used for (RFC 6487 4.8.4).
    pub key_usage: KeyUsage,
    /// The further purposes of the key (RFC 6487 4.8.5).
    pub extended_key_usage: Option<ExtendedKeyUsage>,
    /// The URI of the issuer's CRL (RFC 6487 4.8.6).
    pub crl_uri: Option<Rsync>,
    /// The URI of the issuer's certificate (RFC 6487 4.8.7).
    pub ca_issuer: Option<Rsync>,
    /// The URI of the directory in which the CA publishes (RFC 6487 4.8.8.1).
    pub ca_repository: Option<Rsync>,
    /// The URI of the CA's manifest (RFC 6487 4.8.8.1).
    pub rpki_manifest: Option<Rsync>,
    /// The URI of the object that the key signs (RFC 6487 4.8.8.2).
    pub signed_object: Option<Rsync>,
    /// The URI of the Update Notification File (RFC 8182 3.2).
    pub rpki_notify: Option<Https>,
    /// What happens to resources that the issuer doesn't hold, by the certificate policy (RFC 6487
    /// 4.8.9, RFC 8360 4.2.1).
    pub overclaim: Overclaim,
    /// The IPv4 addresses (RFC 6487 4.8.10).
    pub v4_resources: IpResources,
    /// The IPv6 addresses (RFC 6487 4.8.10).
    pub v6_resources: IpResources,
    /// The AS numbers (RFC 6487 4.8.11).
    pub as_resources: AsResources,
}

impl Model for Extensions {
    ghost use Rattle.rpki_ext.specs.CertificateExtensions.{ExtensionFields};

    ghost Value = { ExtensionFields };

    ghost view = { λ x. record {
      basic_ca = x.basic_ca;
      subject_key_identifier = x.subject_key_identifier;
      authority_key_identifier = x.authority_key_identifier;
      key_usage = x.key_usage;
      extended_key_usage = x.extended_key_usage;
      crl_uri = x.crl_uri;
      ca_issuer = x.ca_issuer;
      access = record {
        ca_repository = x.ca_repository;
        rpki_manifest = x.rpki_manifest;
        signed_object = x.signed_object;
        rpki_notify = x.rpki_notify;
      };
      overclaim = x.overclaim;
      v4_resources = x.v4_resources;
      v6_resources = x.v6_resources;
      as_resources = x.as_resources;
    } };
}

impl Extensions {
    /// Makes the values of extensions of which only these are present, and which have no resources.
    pub fn bare(
        subject_key_identifier: KeyIdentifier,
        key_usage: KeyUsage,
        overclaim: Overclaim,
    ) -> Extensions
        ensures { result ≡ bare subject_key_identifier key_usage overclaim }
    {
        Extensions {
            basic_ca: None,
            subject_key_identifier,
            authority_key_identifier: None,
            key_usage,
            extended_key_usage: None,
            crl_uri: None,
            ca_issuer: None,
            ca_repository: None,
            rpki_manifest: None,
            signed_object: None,
            rpki_notify: None,
            overclaim,
            v4_resources: IpResources::missing(),
            v6_resources: IpResources::missing(),
            as_resources: AsResources::missing(),
        }
    }

    /// Shows that the values can be written. Does nothing else.
    pub fn known(&self)
        ensures { ExtensionsFit self.now }
    {
        // Called for what they ensure alone.
        let _octets = self.subject_key_identifier.as_octets();
        known_identifier(&self.authority_key_identifier);
        known_usage(&self.extended_key_usage);
        known_rsync(&self.crl_uri);
        known_rsync(&self.ca_issuer);
        known_rsync(&self.ca_repository);
        known_rsync(&self.rpki_manifest);
        known_rsync(&self.signed_object);
        known_https(&self.rpki_notify);
        let _v4 = self.v4_resources.is_present();
        let _v6 = self.v6_resources.is_present();
        let _numbers = self.as_resources.is_present();
    }

    // Clones the URIs of Subject Information Access.
    fn try_clone_access(
        &self,
        alloc: Global,
    ) -> Result<
        (
            ((Option<Rsync>, Option<Rsync>), Option<Rsync>),
            Option<Https>,
        ),
        AllocError,
    >
        ensures { let a = self.now.access in IfOk result (λ u. u ≡
            (((a.ca_repository, a.rpki_manifest), a.signed_object), a.rpki_notify)) }
    {
        let repository = copied(&self.ca_repository, |uri| uri.try_clone(alloc))?;
        let manifest = beside(
            repository,
            copied(&self.rpki_manifest, |uri| uri.try_clone(alloc)),
        )?;
        let object = beside(
            manifest,
            copied(&self.signed_object, |uri| uri.try_clone(alloc)),
        )?;
        beside(
            object,
            copied(&self.rpki_notify, |uri| uri.try_clone(alloc)),
        )
    }

    // Clones the resources.
    fn try_clone_resources(
        &self,
        alloc: Global,
    ) -> Result<((IpResources, IpResources), AsResources), AllocError>
        ensures { IfOk result (λ r. r ≡
            ((self.now.v4_resources, self.now.v6_resources), self.now.as_resources)) }
    {
        let v4 = self.v4_resources.try_clone(alloc)?;
        let v6 = beside(v4, self.v6_resources.try_clone(alloc))?;
        beside(v6, self.as_resources.try_clone(alloc))
    }

    /// Clones the values.
    ///
    /// # Errors
    ///
    /// Returns an error if memory ran out.
    pub fn try_clone(&self, alloc: Global) -> Result<Extensions, AllocError>
        ensures { IfOk result (λ copy. copy ≡ self.now) }
    {
        let purposes = copied(&self.extended_key_usage, |usage| usage.try_clone(alloc))?;
        let lists = beside(purposes, copied(&self.crl_uri, |uri| uri.try_clone(alloc)))?;
        let issuers = beside(lists, copied(&self.ca_issuer, |uri| uri.try_clone(alloc)))?;
        let uris = beside(issuers, self.try_clone_access(alloc))?;
        let (uris, resources) = beside(uris, self.try_clone_resources(alloc))?;
        let (((extended_key_usage, crl_uri), ca_issuer), access) = uris;
        let (((ca_repository, rpki_manifest), signed_object), rpki_notify) = access;
        let ((v4_resources, v6_resources), as_resources) = resources;
        Ok(Extensions {
            basic_ca: self.basic_ca,
            subject_key_identifier: self.subject_key_identifier,
            authority_key_identifier: self.authority_key_identifier,
            key_usage: self.key_usage,
            extended_key_usage,
            crl_uri,
            ca_issuer,
            ca_repository,
            rpki_manifest,
            signed_object,
            rpki_notify,
            overclaim: self.overclaim,
            v4_resources,
            v6_resources,
            as_resources,
        })
    }

    // The kinds in the order in which they are written.
    fn in_order(&self) -> [Named; 11]
        ensures { map (part_for self.now) result ≡ parts self.now }
    {
        [
            Named::BasicConstraints,
            Named::SubjectKeyIdentifier,
            Named::AuthorityKeyIdentifier,
            Named::KeyUsage,
            Named::ExtendedKeyUsage,
            Named::CrlDistributionPoints,
            Named::AuthorityInformationAccess,
            Named::SubjectInformationAccess,
            Named::CertificatePolicies,
            Named::IpResources(self.overclaim),
            Named::AsResources(self.overclaim),
        ]
    }

    // Appends the extension of this kind, where it is there.
    fn append(&self, alloc: Global, kind: Named, out: &mut Vec<u8>) -> Result<(), EncodeError>
        ensures { Writes (part_of (part_for self.now kind)) out.old.items result out.new.items }
    {
        match kind {
            Named::BasicConstraints => put_basic_constraints(alloc, out, self.basic_ca),
            Named::SubjectKeyIdentifier => {
                encode_subject_key_identifier(alloc, out, self.subject_key_identifier)
            }
            Named::AuthorityKeyIdentifier => {
                put_authority_key_identifier(alloc, out, self.authority_key_identifier)
            }
            Named::KeyUsage => encode_key_usage(alloc, out, self.key_usage),
            Named::ExtendedKeyUsage => {
                put_extended_key_usage(alloc, out, self.extended_key_usage.as_ref())
            }
            Named::CrlDistributionPoints => {
                put_crl_distribution_points(alloc, out, self.crl_uri.as_ref())
            }
            Named::AuthorityInformationAccess => {
                put_authority_information_access(alloc, out, self.ca_issuer.as_ref())
            }
            Named::SubjectInformationAccess => encode_subject_information_access(
                alloc,
                out,
                self.ca_repository.as_ref(),
                self.rpki_manifest.as_ref(),
                self.signed_object.as_ref(),
                self.rpki_notify.as_ref(),
            ),
            Named::CertificatePolicies => encode_certificate_policies(alloc, out, self.overclaim),
            Named::IpResources(mode) => IpResources::encode_extension(
                alloc,
                out,
                mode,
                &self.v4_resources,
                &self.v6_resources,
            ),
            Named::AsResources(mode) => self.as_resources.encode_extension(alloc, out, mode),
        }
    }

    // Appends the extensions, or a part of them where it errs.
    fn append_sequence(&self, alloc: Global, out: &mut Vec<u8>) -> Result<(), EncodeError>
        ensures ok { OnOk result (out.new.items ≡ out.old.items ++ extensions self.now) }
        ensures err { OnErr result (take (length out.old.items) out.new.items ≡ out.old.items) }
        ensures too_long { SaysLong result (extensions self.now) }
    {
        let kinds = self.in_order();
        for kind in &kinds {
            self.append(alloc, *kind, out)?;
        }
        Ok(())
    }

    /// Appends the extensions, in one fixed order, each with the flag that it must have (RFC 6487
    /// 4.8).
    ///
    /// # Errors
    ///
    /// Returns `TooLong` if they would have 2^32 bytes or more, or `Memory`. `out` is then
    /// unchanged.
    pub fn encode_row(&self, alloc: Global, out: &mut Vec<u8>) -> Result<(), EncodeError>
        ensures { Writes (sequence_part self.now) out.old.items result out.new.items }
    {
        let start = out.len();
        let ended = match self.append_sequence(alloc, out) {
            Ok(()) if out.len() - start > MAX_LEN => Err(EncodeError::TooLong),
            appended => appended,
        };
        if ended.is_err() {
            out.truncate(start);
        }
        ended
    }
}

// ---- how they are read

/// The kinds of extensions that certificates know (RFC 6487 4.8). Resources have an identifier for
/// each mode (RFC 8360 4.2).
#[derive(Clone, Copy)]
pub(crate) enum Named {
    BasicConstraints,
    SubjectKeyIdentifier,
    AuthorityKeyIdentifier,
    KeyUsage,
    ExtendedKeyUsage,
    CrlDistributionPoints,
    AuthorityInformationAccess,
    SubjectInformationAccess,
    CertificatePolicies,
    IpResources(Overclaim),
    AsResources(Overclaim),
}

impl Named {
    /// Returns the kind that an identifier names, or `None` if it isn't known.
    pub(crate) fn of(identifier: &[u8]) -> Option<Named>
        ensures { Names identifier.now result }
    {
        if is(identifier, oid::CE_BASIC_CONSTRAINTS) {
            Some(Named::BasicConstraints)
        } else if is(identifier, oid::CE_SUBJECT_KEY_IDENTIFIER) {
            Some(Named::SubjectKeyIdentifier)
        } else if is(identifier, oid::CE_AUTHORITY_KEY_IDENTIFIER) {
            Some(Named::AuthorityKeyIdentifier)
        } else if is(identifier, oid::CE_KEY_USAGE) {
            Some(Named::KeyUsage)
        } else if is(identifier, oid::CE_EXTENDED_KEY_USAGE) {
            Some(Named::ExtendedKeyUsage)
        } else if is(identifier, oid::CE_CRL_DISTRIBUTION_POINTS) {
            Some(Named::CrlDistributionPoints)
        } else if is(identifier, oid::PE_AUTHORITY_INFO_ACCESS) {
            Some(Named::AuthorityInformationAccess)
        } else if is(identifier, oid::PE_SUBJECT_INFO_ACCESS) {
            Some(Named::SubjectInformationAccess)
        } else if is(identifier, oid::CE_CERTIFICATE_POLICIES) {
            Some(Named::CertificatePolicies)
        } else if is(identifier, oid::PE_IP_ADDR_BLOCK) {
            Some(Named::IpResources(Overclaim::Refuse))
        } else if is(identifier, oid::PE_IP_ADDR_BLOCK_V2) {
            Some(Named::IpResources(Overclaim::Trim))
        } else if is(identifier, oid::PE_AUTONOMOUS_SYS_IDS) {
            Some(Named::AsResources(Overclaim::Refuse))
        } else if is(identifier, oid::PE_AUTONOMOUS_SYS_IDS_V2) {
            Some(Named::AsResources(Overclaim::Trim))
        } else {
            None
        }
    }

    /// Returns whether it must be critical or must not be, or `None` if the flag isn't tested (RFC
    /// 6487 4.8).
    pub(crate) fn must_be_critical(self) -> Option<bool>
        ensures { result ≡ wanted self }
    {
        match self {
            Named::BasicConstraints | Named::KeyUsage | Named::CertificatePolicies => Some(true),
            Named::SubjectKeyIdentifier
            | Named::AuthorityKeyIdentifier
            | Named::ExtendedKeyUsage
            | Named::CrlDistributionPoints
            | Named::AuthorityInformationAccess
            | Named::SubjectInformationAccess => Some(false),
            Named::IpResources(_) | Named::AsResources(_) => None,
        }
    }

    /// Returns what errors call it.
    pub(crate) fn field(self) -> Field
        ensures { result ≡ field_of self }
    {
        match self {
            Named::BasicConstraints => Field::BasicConstraints,
            Named::SubjectKeyIdentifier => Field::SubjectKeyIdentifier,
            Named::AuthorityKeyIdentifier => Field::AuthorityKeyIdentifier,
            Named::KeyUsage => Field::KeyUsage,
            Named::ExtendedKeyUsage => Field::ExtendedKeyUsage,
            Named::CrlDistributionPoints => Field::CrlDistributionPoints,
            Named::AuthorityInformationAccess => Field::AuthorityInformationAccess,
            Named::SubjectInformationAccess => Field::SubjectInformationAccess,
            Named::CertificatePolicies => Field::CertificatePolicies,
            Named::IpResources(_) => Field::IpResources,
            Named::AsResources(_) => Field::AsResources,
        }
    }
}

/// What the extensions that were seen so far gave.
#[derive(Drop)]
pub(crate) struct ReadExtensions {
    basic_ca: Option<bool>,
    subject_key_identifier: Option<KeyIdentifier>,
    authority_key_identifier: Option<KeyIdentifier>,
    key_usage: Option<KeyUsage>,
    extended_key_usage: Option<ExtendedKeyUsage>,
    crl_uri: Option<Rsync>,
    ca_issuer: Option<Rsync>,
    access: Option<Sia>,
    overclaim: Option<Overclaim>,
    ip_resources: Option<(Overclaim, (Option<IpResources>, Option<IpResources>))>,
    as_resources: Option<(Overclaim, AsResources)>,
}

impl ReadExtensions {
    pub(crate) fn nothing() -> ReadExtensions
        ensures { state_of result ≡ all_kinds.start }
    {
        ReadExtensions {
            basic_ca: None,
            subject_key_identifier: None,
            authority_key_identifier: None,
            key_usage: None,
            extended_key_usage: None,
            crl_uri: None,
            ca_issuer: None,
            access: None,
            overclaim: None,
            ip_resources: None,
            as_resources: None,
        }
    }

    pub(crate) fn has(&self, kind: Named) -> bool
        ensures { result ≡ is_seen self.now kind }
    {
        match kind {
            Named::BasicConstraints => self.basic_ca.is_some(),
            Named::SubjectKeyIdentifier => self.subject_key_identifier.is_some(),
            Named::AuthorityKeyIdentifier => self.authority_key_identifier.is_some(),
            Named::KeyUsage => self.key_usage.is_some(),
            Named::ExtendedKeyUsage => self.extended_key_usage.is_some(),
            Named::CrlDistributionPoints => self.crl_uri.is_some(),
            Named::AuthorityInformationAccess => self.ca_issuer.is_some(),
            Named::SubjectInformationAccess => self.access.is_some(),
            Named::CertificatePolicies => self.overclaim.is_some(),
            Named::IpResources(_) => self.ip_resources.is_some(),
            Named::AsResources(_) => self.as_resources.is_some(),
        }
    }

    // Reads the content of an extension of this kind, where it is the first and has the kind's
    // flag.
    #[tactic(auto, unfolding(crate::specs::ResourceKinds::addresses_format, crate::specs::ResourceKinds::numbers_format))]
    pub(crate) fn take(&mut self, alloc: Global, kind: Named, content: &mut Cursor<'_>) -> Taken
        ensures { (x : Extension) → Names x.identifier (Some kind)
            → HasFlag (wanted kind) x.critical → is_seen self.old kind ≡ false
            → x.content ≡ remaining content.old → ReturnsOrMemoryBy (λ _. state_of self.new) result
            (all_kinds.step (state_of self.old) x) }
    {
        match kind {
            Named::BasicConstraints => self.basic_ca = Some(take_basic_constraints(content)?),
            Named::SubjectKeyIdentifier => {
                self.subject_key_identifier = Some(take_subject_key_identifier(content)?);
            }
            Named::AuthorityKeyIdentifier => {
                self.authority_key_identifier = Some(take_authority_key_identifier(content)?);
            }
            Named::KeyUsage => self.key_usage = Some(take_key_usage(content)?),
            Named::ExtendedKeyUsage => {
                let purposes = take_extended_key_usage(alloc, content)?;
                keep(&mut self.extended_key_usage, purposes);
            }
            Named::CrlDistributionPoints => {
                let uri = take_crl_distribution_points(alloc, content)?;
                keep(&mut self.crl_uri, uri);
            }
            Named::AuthorityInformationAccess => {
                let uri = take_authority_information_access(alloc, content)?;
                keep(&mut self.ca_issuer, uri);
            }
            Named::SubjectInformationAccess => {
                let uris = take_subject_information_access(alloc, content)?;
                keep(&mut self.access, uris);
            }
            Named::CertificatePolicies => {
                self.overclaim = Some(take_certificate_policies(content)?);
            }
            Named::IpResources(mode) => {
                let read = (mode, IpResources::take_families_from(alloc, content)?);
                keep(&mut self.ip_resources, read);
            }
            Named::AsResources(mode) => {
                let read = (mode, AsResources::take_from(alloc, content)?);
                keep(&mut self.as_resources, read);
            }
        }
        Ok(())
    }
}

impl Extensions {
    // What was seen, if all is there that must be, and the identifiers of the resources are those
    // of the policy. Else what is wrong of the resources is named, or then the first kind that is
    // missing.
    pub(crate) fn complete(seen: ReadExtensions) -> Result<Extensions, DecodeError>
        ensures reads { Returns result (completed (state_of seen)) }
        ensures disagreed { agreed seen.overclaim (ip_of seen.ip_resources) seen.as_resources ≡ None
            → IfErr result (λ e. e ≡ disagreement seen.overclaim (ip_of seen.ip_resources)
            seen.as_resources) }
        ensures missing { (l : ListedFields)
            → agreed seen.overclaim (ip_of seen.ip_resources) seen.as_resources ≡ Some l
            → IfErr result (λ e. e ≡ DecodeError.Missing (if is_some seen.subject_key_identifier
            then Field.KeyUsage else Field.SubjectKeyIdentifier)) }
    {
        let ReadExtensions {
            basic_ca,
            subject_key_identifier,
            authority_key_identifier,
            key_usage,
            extended_key_usage,
            crl_uri,
            ca_issuer,
            access,
            overclaim,
            ip_resources,
            as_resources,
        } = seen;
        let resources = match agreed(overclaim, ip_resources, as_resources) {
            Ok(resources) => resources,
            Err(error) => {
                drop((extended_key_usage, crl_uri, ca_issuer, access));
                return Err(error);
            }
        };
        let Some(subject_key_identifier) = subject_key_identifier else {
            drop((resources, extended_key_usage, crl_uri, ca_issuer, access));
            return Err(DecodeError::Missing(Field::SubjectKeyIdentifier));
        };
        let Some(key_usage) = key_usage else {
            drop((resources, extended_key_usage, crl_uri, ca_issuer, access));
            return Err(DecodeError::Missing(Field::KeyUsage));
        };
        let (ca_repository, rpki_manifest, signed_object, rpki_notify) = uris(access);
        Ok(Extensions {
            basic_ca,
            subject_key_identifier,
            authority_key_identifier,
            key_usage,
            extended_key_usage,
            crl_uri,
            ca_issuer,
            ca_repository,
            rpki_manifest,
            signed_object,
            rpki_notify,
            overclaim: resources.overclaim,
            v4_resources: resources.v4_resources,
            v6_resources: resources.v6_resources,
            as_resources: resources.as_resources,
        })
    }
}
