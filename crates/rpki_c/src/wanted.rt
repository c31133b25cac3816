//! A certificate that a caller requests, as bytes, lengths and numbers.
ghost use Rattle.std.specs.Prelude.{◌≡◌, ◌<◌, ◌↔◌, IsNone, IfSome};
ghost use Rattle.rpki_c.specs.WantedQuestions.{trim_number, HasWantedTerms, HasNoWantedTerms};

use crate::certificates::kind_of;
use crate::copying::{RpkiAsRange, RpkiIpRange};
use crate::moments::{RpkiTime, moment_of};
use crate::question::{RpkiQuestion, Terms, terms_of};
use rpki_cert::Kind;
use rpki_der::Time;

/// The addresses of a family that the certificate is to list.
#[repr(C)]
#[derive(Clone, Copy)]
pub struct RpkiAddresses<'c> {
    /// The ranges, in any order; they may overlap.
    pub ranges: &'c [RpkiIpRange],
    /// 0: nothing, 1: inherited from the issuer, 2: these ranges.
    pub state: u32,
}

/// The AS numbers that the certificate is to list.
#[repr(C)]
#[derive(Clone, Copy)]
pub struct RpkiAsNumbers<'c> {
    /// The ranges, in any order; they may overlap.
    pub ranges: &'c [RpkiAsRange],
    /// 0: nothing, 1: inherited from the issuer, 2: these ranges.
    pub state: u32,
}

/// The URIs. An empty one is left out.
#[repr(C)]
#[derive(Clone, Copy)]
pub struct RpkiUris<'c> {
    pub ca_issuer: &'c [u8],
    pub crl: &'c [u8],
    pub repository: &'c [u8],
    pub manifest: &'c [u8],
    pub signed_object: &'c [u8],
    pub notify: &'c [u8],
}

/// A requested certificate.
#[repr(C)]
#[derive(Clone, Copy)]
pub struct RpkiWanted<'c> {
    /// The size of this struct in bytes, as the caller knows it.
    pub size: usize,
    /// The issuer's path, the time, and whether names may only have the profile's string types.
    pub issuer: RpkiQuestion<'c>,
    /// The SubjectPublicKeyInfo, in DER.
    pub key: &'c [u8],
    pub v4: RpkiAddresses<'c>,
    pub v6: RpkiAddresses<'c>,
    pub asn: RpkiAsNumbers<'c>,
    pub uris: RpkiUris<'c>,
    pub not_before: RpkiTime,
    pub not_after: RpkiTime,
    pub serial: [u8; 20],
    /// The kind: 0 a trust anchor, 1 a CA, 2 an end entity, 3 a detached end entity, 4 a router.
    pub kind: u32,
    /// 0: overclaiming is rejected, 1: it is trimmed (RFC 8360).
    pub overclaim: u32,
}

/// The size of a requested certificate in bytes.
pub(crate) const WANTED_SIZE: usize = size_of::<RpkiWanted<'_>>();

/// The terms under which a certificate is prepared.
#[derive(Clone, Copy)]
pub(crate) struct WantedTerms {
    pub(crate) kind: Kind,
    /// Whether resources that the issuer doesn't hold are trimmed (RFC 8360).
    pub(crate) trims: bool,
    /// The terms under which the issuer's path is validated, and the time.
    pub(crate) asked: Terms,
    pub(crate) not_before: Time,
    pub(crate) not_after: Time,
}

// Whether overclaimed resources are trimmed, by the number of the policy.
fn is_trimmed(number: u32) -> Option<bool>
    ensures none { IsNone result ↔ 1 < number }
    ensures trims { IfSome result (λ trims. number ≡ trim_number trims) }
{
    match number {
        0 => Some(false),
        1 => Some(true),
        _ => None,
    }
}

/// Returns the terms under which a certificate is prepared, or `None` if a kind, a policy or a time
/// doesn't exist, if the issuer's path has no terms, or if the caller knows another struct.
#[tactic(auto, using(crate::proofs::WantedTermsGiven::no_wanted_size, crate::proofs::WantedTermsGiven::no_wanted_kind, crate::proofs::WantedTermsGiven::no_wanted_policy, crate::proofs::WantedTermsGiven::no_wanted_path, crate::proofs::WantedTermsGiven::no_wanted_begin, crate::proofs::WantedTermsGiven::no_wanted_end))]
pub(crate) fn wanted_terms_of(wanted: &RpkiWanted<'_>) -> Option<WantedTerms>
    ensures terms { IfSome result (HasWantedTerms wanted.now) }
    ensures none { IsNone result → HasNoWantedTerms wanted.now }
{
    if wanted.size != WANTED_SIZE {
        return None;
    }
    Some(WantedTerms {
        kind: kind_of(wanted.kind)?,
        trims: is_trimmed(wanted.overclaim)?,
        asked: terms_of(&wanted.issuer)?,
        not_before: moment_of(&wanted.not_before)?,
        not_after: moment_of(&wanted.not_after)?,
    })
}
