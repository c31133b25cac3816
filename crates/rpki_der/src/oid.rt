//! Object identifiers, and constants for those in resource certificates.
ghost use Rattle.std.specs.Prelude.{◌≡◌, List, ℕ, IfOk, IfErr, IsOk, ◌↔◌, true, Some, ◌++◌, codes, bytes_eq};
ghost use Rattle.std.proofs.Common.{rules};
ghost use Rattle.std.specs.Cmp.Rules.{comparing};
ghost use Rattle.rpki_der.specs.Identifiers.{id_ce, pkix};
ghost use Rattle.rpki_der.specs.Primitives.{IsOid, IsObjectIdentifier};
ghost use Rattle.rpki_der.specs.Place.{remaining, Keeps};
ghost use Rattle.rpki_der.specs.Answers.{AnswersBy};
ghost use Rattle.rpki_der.specs.BasicFormats.{object_identifier};
ghost use Rattle.rpki_der.specs.Place.Reading.{TookBy};
ghost use Rattle.rpki_der.specs.Primitives.Reading.{is_oid, ends_oid, oid_at};
ghost use Rattle.rpki_der.specs.Texts.{oid_text};
ghost use Rattle.rpki_der.specs.Values.{AreOctets};
ghost use Rattle.rpki_der.specs.declared.error.DecodeError.TheVariants.{BadValue};

use crate::cursor::Cursor;
use crate::error::DecodeError;
use crate::piece::Piece;
use crate::tag;
use bytes::Bytes;
use std::alloc::{AllocError, Global};
use std::fmt;
use std::marker::Model;

// Extensions of certificates and revocation lists (RFC 5280 4.2, 5.2).

/// id-ce-subjectKeyIdentifier
pub const CE_SUBJECT_KEY_IDENTIFIER: &[u8] = &[0x55, 0x1D, 0x0E];
/// id-ce-keyUsage
pub const CE_KEY_USAGE: &[u8] = &[0x55, 0x1D, 0x0F];
/// id-ce-basicConstraints
pub const CE_BASIC_CONSTRAINTS: &[u8] = &[0x55, 0x1D, 0x13];
/// id-ce-cRLNumber
pub const CE_CRL_NUMBER: &[u8] = &[0x55, 0x1D, 0x14];
/// id-ce-cRLDistributionPoints
pub const CE_CRL_DISTRIBUTION_POINTS: &[u8] = &[0x55, 0x1D, 0x1F];
/// id-ce-certificatePolicies
pub const CE_CERTIFICATE_POLICIES: &[u8] = &[0x55, 0x1D, 0x20];
/// id-ce-authorityKeyIdentifier
pub const CE_AUTHORITY_KEY_IDENTIFIER: &[u8] = &[0x55, 0x1D, 0x23];
/// id-ce-extKeyUsage
pub const CE_EXTENDED_KEY_USAGE: &[u8] = &[0x55, 0x1D, 0x25];

/// id-pe-authorityInfoAccess (RFC 5280 4.2.2.1)
pub const PE_AUTHORITY_INFO_ACCESS: &[u8] = &[0x2B, 0x06, 0x01, 0x05, 0x05, 0x07, 0x01, 0x01];
/// id-pe-subjectInfoAccess (RFC 5280 4.2.2.2)
pub const PE_SUBJECT_INFO_ACCESS: &[u8] = &[0x2B, 0x06, 0x01, 0x05, 0x05, 0x07, 0x01, 0x0B];
/// id-pe-ipAddrBlocks (RFC 3779 2.2.1): a certificate that overclaims is rejected.
pub const PE_IP_ADDR_BLOCK: &[u8] = &[0x2B, 0x06, 0x01, 0x05, 0x05, 0x07, 0x01, 0x07];
/// id-pe-autonomousSysIds (RFC 3779 3.2.1): a certificate that overclaims is rejected.
pub const PE_AUTONOMOUS_SYS_IDS: &[u8] = &[0x2B, 0x06, 0x01, 0x05, 0x05, 0x07, 0x01, 0x08];
/// id-pe-ipAddrBlocks-v2 (RFC 8360 4.2.2.1): the resources of a certificate that overclaims are
/// trimmed.
pub const PE_IP_ADDR_BLOCK_V2: &[u8] = &[0x2B, 0x06, 0x01, 0x05, 0x05, 0x07, 0x01, 0x1C];
/// id-pe-autonomousSysIds-v2 (RFC 8360 4.2.2.3): the resources of a certificate that overclaims are
/// trimmed.
pub const PE_AUTONOMOUS_SYS_IDS_V2: &[u8] = &[0x2B, 0x06, 0x01, 0x05, 0x05, 0x07, 0x01, 0x1D];

/// id-ad-caIssuers (RFC 5280 4.2.2.1)
pub const AD_CA_ISSUERS: &[u8] = &[0x2B, 0x06, 0x01, 0x05, 0x05, 0x07, 0x30, 0x02];
/// id-ad-caRepository (RFC 5280 4.2.2.2)
pub const AD_CA_REPOSITORY: &[u8] = &[0x2B, 0x06, 0x01, 0x05, 0x05, 0x07, 0x30, 0x05];
/// id-ad-rpkiManifest (RFC 6487 4.8.8.1)
pub const AD_RPKI_MANIFEST: &[u8] = &[0x2B, 0x06, 0x01, 0x05, 0x05, 0x07, 0x30, 0x0A];
/// id-ad-signedObject (RFC 6487 4.8.8.2)
pub const AD_SIGNED_OBJECT: &[u8] = &[0x2B, 0x06, 0x01, 0x05, 0x05, 0x07, 0x30, 0x0B];
/// id-ad-rpkiNotify (RFC 8182 3.2)
pub const AD_RPKI_NOTIFY: &[u8] = &[0x2B, 0x06, 0x01, 0x05, 0x05, 0x07, 0x30, 0x0D];

/// id-cp-ipAddr-asNumber (RFC 6484 1.2): a certificate that overclaims is rejected.
pub const CP_IPADDR_ASNUMBER: &[u8] = &[0x2B, 0x06, 0x01, 0x05, 0x05, 0x07, 0x0E, 0x02];
/// id-cp-ipAddr-asNumber-v2 (RFC 8360 4.2.1): the resources of a certificate that overclaims are
/// trimmed.
pub const CP_IPADDR_ASNUMBER_V2: &[u8] = &[0x2B, 0x06, 0x01, 0x05, 0x05, 0x07, 0x0E, 0x03];

/// id-kp-bgpsec-router (RFC 8209 3.1.3.2)
pub const KP_BGPSEC_ROUTER: &[u8] = &[0x2B, 0x06, 0x01, 0x05, 0x05, 0x07, 0x03, 0x1E];

/// Says that the identifiers of extensions have these content octets (RFC 5280 4.2, 5.2).
pub fn extension_identifiers()
    ensures subject_key_identifier { CE_SUBJECT_KEY_IDENTIFIER.now ≡ id_ce 0x0E }
    ensures key_usage { CE_KEY_USAGE.now ≡ id_ce 0x0F }
    ensures basic_constraints { CE_BASIC_CONSTRAINTS.now ≡ id_ce 0x13 }
    ensures crl_number { CE_CRL_NUMBER.now ≡ id_ce 0x14 }
    ensures crl_distribution_points { CE_CRL_DISTRIBUTION_POINTS.now ≡ id_ce 0x1F }
    ensures certificate_policies { CE_CERTIFICATE_POLICIES.now ≡ id_ce 0x20 }
    ensures authority_key_identifier { CE_AUTHORITY_KEY_IDENTIFIER.now ≡ id_ce 0x23 }
    ensures extended_key_usage { CE_EXTENDED_KEY_USAGE.now ≡ id_ce 0x25 }
{}

/// Says that the identifiers under PKIX have these content octets (RFC 3779, RFC 5280 4.2.2, RFC
/// 6484, RFC 6487 4.8.8, RFC 8182, RFC 8209, RFC 8360).
pub fn pkix_identifiers()
    ensures authority_info_access { PE_AUTHORITY_INFO_ACCESS.now ≡ pkix 0x01 0x01 }
    ensures subject_info_access { PE_SUBJECT_INFO_ACCESS.now ≡ pkix 0x01 0x0B }
    ensures addresses { PE_IP_ADDR_BLOCK.now ≡ pkix 0x01 0x07 }
    ensures as_numbers { PE_AUTONOMOUS_SYS_IDS.now ≡ pkix 0x01 0x08 }
    ensures addresses_trimmed { PE_IP_ADDR_BLOCK_V2.now ≡ pkix 0x01 0x1C }
    ensures as_numbers_trimmed { PE_AUTONOMOUS_SYS_IDS_V2.now ≡ pkix 0x01 0x1D }
    ensures ca_issuers { AD_CA_ISSUERS.now ≡ pkix 0x30 0x02 }
    ensures ca_repository { AD_CA_REPOSITORY.now ≡ pkix 0x30 0x05 }
    ensures rpki_manifest { AD_RPKI_MANIFEST.now ≡ pkix 0x30 0x0A }
    ensures signed_object { AD_SIGNED_OBJECT.now ≡ pkix 0x30 0x0B }
    ensures rpki_notify { AD_RPKI_NOTIFY.now ≡ pkix 0x30 0x0D }
    ensures policy { CP_IPADDR_ASNUMBER.now ≡ pkix 0x0E 0x02 }
    ensures policy_trimmed { CP_IPADDR_ASNUMBER_V2.now ≡ pkix 0x0E 0x03 }
    ensures bgpsec_router { KP_BGPSEC_ROUTER.now ≡ pkix 0x03 0x1E }
{}

/// An object identifier, as the content octets of its value (X.690 8.19).
#[derive(Drop)]
pub struct Oid {
    content: Piece,
}

impl Model for Oid {
    ghost use Rattle.std.specs.Prelude.{◌≡◌, List, ℕ, true};
    ghost use Rattle.rpki_der.specs.Primitives.Reading.{is_oid};

    ghost Value = { List ℕ };

    ghost view = { λ o. o.content };

    ghost invariant = { λ o. is_oid o.content ≡ true };

    ghost inverse = { λ b. record { content = b } };
}

// Whether these are whole subidentifiers, or nothing.
fn has_ended(content: &[u8]) -> bool
    ensures { result ≡ ends_oid true content.now }
{
    let mut ended = true;
    for octet in content {
        if ended && *octet == 0x80 {
            return false;
        }
        ended = *octet < 0x80;
    }
    ended
}

// Tests as `has_ended` does, four octets at once where these are all.
#[inline(always)]
fn has_four_or_ended(content: &[u8]) -> bool
    ensures { result ≡ ends_oid true content.now }
{
    match content {
        [0..=0x7F, 0..=0x7F, 0..=0x7F, 0..=0x7F] => true,
        _ => has_ended(content),
    }
}

/// Returns whether these are whole subidentifiers, each without a leading `80`. Identifiers of
/// three and of eight octets, as extensions have them, are tested without a loop.
#[inline(always)]
pub(crate) fn is_oid(content: &[u8]) -> bool
    ensures { result ≡ is_oid content.now }
{
    match content {
        [] => false,
        [0..=0x7F, 0..=0x7F, 0..=0x7F] => true,
        [0..=0x7F, 0..=0x7F, 0..=0x7F, 0..=0x7F, rest @ ..] => has_four_or_ended(rest),
        _ => has_ended(content),
    }
}

impl Oid {
    /// Makes the object identifier with these content octets (X.690 8.19). Allocates nothing.
    ///
    /// # Errors
    ///
    /// Returns `BadValue` if the bytes are not the content of an OBJECT IDENTIFIER, and no other
    /// error: they are empty, end within a subidentifier, or a subidentifier starts with `80`.
    pub fn new(content: Bytes) -> Result<Oid, DecodeError>
        ensures ok { IfOk result (λ o. o ≡ content) }
        ensures accepted { IsOk result ↔ IsOid content }
        ensures rejected { IfErr result (λ e. e ≡ BadValue) }
    {
        Oid::from_piece(Piece::from(content))
    }

    /// Makes the object identifier with these content octets, which are kept already (X.690 8.19).
    /// Allocates nothing.
    ///
    /// # Errors
    ///
    /// Returns `BadValue` as [`Oid::new`] does.
    pub fn from_piece(content: Piece) -> Result<Oid, DecodeError>
        ensures ok { IfOk result (λ o. o ≡ content) }
        ensures accepted { IsOk result ↔ IsOid content }
        ensures rejected { IfErr result (λ e. e ≡ BadValue) }
    {
        if is_oid(content.as_bytes()) {
            Ok(Oid { content })
        } else {
            Err(DecodeError::BadValue)
        }
    }

    /// Returns the content octets.
    pub fn as_bytes(&self) -> &[u8]
        ensures octets { result.now ≡ self.now }
        ensures valid { IsOid self.now }
    {
        self.content.as_bytes()
    }

    /// Clones the identifier. The copy has the same content octets.
    ///
    /// # Errors
    ///
    /// Returns an error if memory runs out.
    pub fn try_clone(&self, alloc: Global) -> Result<Oid, AllocError>
        ensures { IfOk result (λ o. o ≡ self.now) }
    {
        let content = self.content.try_clone(alloc)?;
        Ok(Oid { content })
    }
}

impl<'a> Cursor<'a> {
    // The content of the next OBJECT IDENTIFIER, by the reading function.
    #[tactic(auto, unfolding(crate::specs::Primitives::Reading::oid_at))]
    #[inline(always)]
    fn next_oid(&mut self) -> Result<&'a [u8], DecodeError>
        ensures reads { TookBy (λ id. id.now) oid_at self.old result self.new }
        ensures keeps { Keeps result self.old self.new }
        ensures octets { AreOctets (remaining self.old) }
    {
        let mut ahead = self.fork();
        let content = ahead.take_value(tag::OBJECT_IDENTIFIER)?.rest();
        if !is_oid(content) {
            return Err(DecodeError::BadValue);
        }
        *self = ahead;
        Ok(content)
    }

    /// Reads the next value, which must be an OBJECT IDENTIFIER (X.690 8.19). Returns its content
    /// octets.
    ///
    /// # Errors
    ///
    /// Returns an error as [`Cursor::take_value`] does. Returns `BadValue` if the content is empty
    /// or ends within a subidentifier, or if a subidentifier starts with `80`.
    #[tactic(auto, using(crate::proofs::FormatAnswers::answers_lawful, crate::proofs::BasicFormats::object_identifier_lawful))]
    #[inline(always)]
    pub fn take_oid(&mut self) -> Result<&'a [u8], DecodeError>
        ensures { AnswersBy (λ id. id.now) object_identifier self.old result self.new }
    {
        self.next_oid()
    }
}

impl PartialEq for Oid {
    ghost eq = { bytes_eq };

    ghost laws = { Prim.search (comparing, rules) };

    fn eq(&self, other: &Oid) -> bool {
        self.as_bytes() == other.as_bytes()
    }
}

impl Eq for Oid {
    ghost laws = { Prim.search (comparing, rules) };
}

/// Prints the content octets in lower-case hexadecimal digits, as `551d0e`.
impl fmt::Display for Oid {
    ghost output = { λ o. Some (oid_text o) };

    fn fmt<W: fmt::Write>(&self, f: &mut fmt::Formatter<W>) -> fmt::Result {
        for octet in self.content.as_bytes() {
            write!(f, "{octet:02x}")?;
        }
        Ok(())
    }
}

/// Prints the same digits in `Oid(..)`.
impl fmt::Debug for Oid {
    ghost debug_output = { λ o. Some (codes "Oid(" ++ (oid_text o ++ codes ")")) };

    fn fmt<W: fmt::Write>(&self, f: &mut fmt::Formatter<W>) -> fmt::Result {
        write!(f, "Oid({self})")
    }
}
