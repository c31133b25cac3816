//! A caller's question about a path, as bytes, lengths and numbers.
ghost use Rattle.std.specs.Prelude.{◌≡◌, ◌↔◌, ◌<◌, IsNone, IfSome};
ghost use Rattle.rpki_c.specs.Questions.{choice_number, HasTerms, HasNoTerms};

use crate::certificates::kind_of;
use crate::moments::{RpkiTime, moment_of};
use crate::strings::RpkiStrings;
use rpki_cert::Kind;
use rpki_der::Time;

/// A question about a path.
#[repr(C)]
#[derive(Clone, Copy)]
pub struct RpkiQuestion<'c> {
    /// The size of this struct in bytes, as the caller knows it.
    pub size: usize,
    /// The certificates, the trust anchor first.
    pub members: RpkiStrings<'c>,
    pub lists: RpkiStrings<'c>,
    /// The bytes of a TAL.
    pub locator: &'c [u8],
    pub moment: RpkiTime,
    /// The kind of the last certificate: 0 the trust anchor, alone, 1 a CA (or the trust anchor,
    /// alone), 2 an end entity, 3 a detached end entity, 4 a router.
    pub last: u32,
    pub strict: u32,
    /// Whether revocation is checked: 0 by the CRLs, 1 not at all.
    pub revocation: u32,
    /// Whether the trust anchor has to have the TAL's key: 0 it has to, 1 it needn't.
    pub anchor: u32,
    /// Whether the RPKI has to use the last certificate's key: 0 it has to, 1 it needn't.
    pub key: u32,
    /// Whether the names of the path and of the CRLs are checked: 0 they are, 1 they aren't.
    pub names: u32,
}

/// The size of a question in bytes.
pub(crate) const QUESTION_SIZE: usize = size_of::<RpkiQuestion<'_>>();

/// The terms under which a path is validated.
#[derive(Clone, Copy)]
pub(crate) struct Terms {
    /// The kind of the last certificate.
    pub(crate) last: Kind,
    /// Whether names may only have the profile's string types.
    pub(crate) strict: bool,
    pub(crate) now: Time,
    /// Whether revocation is checked by the CRLs.
    pub(crate) asks_lists: bool,
    /// Whether the trust anchor has to have the TAL's key.
    pub(crate) asks_locator: bool,
    /// Whether the last certificate has to have a key that the RPKI uses.
    pub(crate) asks_key: bool,
    /// Whether the path's names have to chain, and CRLs to have their issuers' names.
    pub(crate) asks_names: bool,
}

/// Returns whether a check is made, by the number of that choice.
pub(crate) fn is_asked(number: u32) -> Option<bool>
    ensures none { IsNone result ↔ 1 < number }
    ensures asked { IfSome result (λ asked. number ≡ choice_number asked) }
{
    match number {
        0 => Some(true),
        1 => Some(false),
        _ => None,
    }
}

/// Returns the terms of a question about a path, or `None` if a kind, the time or a choice doesn't
/// exist, or if the caller knows another struct.
#[tactic(auto, using(crate::proofs::QuestionTerms::no_size, crate::proofs::QuestionTerms::no_kind, crate::proofs::QuestionTerms::no_moment, crate::proofs::QuestionTerms::no_revocation, crate::proofs::QuestionTerms::no_anchor, crate::proofs::QuestionTerms::no_key, crate::proofs::QuestionTerms::no_names))]
pub(crate) fn terms_of(question: &RpkiQuestion<'_>) -> Option<Terms>
    ensures terms { IfSome result (HasTerms question.now) }
    ensures none { IsNone result → HasNoTerms question.now }
{
    if question.size != QUESTION_SIZE {
        return None;
    }
    Some(Terms {
        last: kind_of(question.last)?,
        strict: question.strict != 0,
        now: moment_of(&question.moment)?,
        asks_lists: is_asked(question.revocation)?,
        asks_locator: is_asked(question.anchor)?,
        asks_key: is_asked(question.key)?,
        asks_names: is_asked(question.names)?,
    })
}
