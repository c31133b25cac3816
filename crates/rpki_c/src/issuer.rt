//! The issuer: the CA in which a path ends, or none above a trust anchor.
ghost use Rattle.std.specs.Prelude.{◌≡◌, ◌↔◌, option_map, IfErr, IfOk, IsTrue};
ghost use Rattle.rpki_cert.specs.declared.inspect.Kind.TheVariants.{Anchor};
ghost use Rattle.rpki_c.specs.Questions.{HasTerms};
ghost use Rattle.rpki_c.specs.WantedAnswers.{IsAuthorityOf, IsWantedIssuer, IsWhyNoIssuer, IsNoIssuer, asked_above as asked_for, issuer_above, strings_above as strings_for};

use crate::asking::Asked;
use crate::judging::{Accepted, judge_terms};
use crate::question::{RpkiQuestion, Terms};
use crate::unissued::Unissued;
use bytes::Bytes;
use rpki_cert::{Kind, ResourceCert};
use std::alloc::Global;

// Whether it is a trust anchor.
fn is_anchor(kind: Kind) -> bool
    ensures { IsTrue result ↔ (kind ≡ Anchor) }
{
    match kind {
        Kind::Anchor => true,
        _ => false,
    }
}

/// Returns the path of a question, if it is accepted and ends in a CA.
pub(crate) fn authority_of(
    alloc: Global,
    question: &RpkiQuestion<'_>,
    terms: &Terms,
) -> Result<Accepted, Unissued>
    requires { HasTerms question.now terms.now }
    ensures authority { IfOk result (IsAuthorityOf question.now terms.entry.now) }
    ensures none { IfErr result (IsWhyNoIssuer question.now terms.entry.now) }
{
    if question.last > 1 {
        return Err(Unissued::BadCall);
    }
    match judge_terms(alloc, question, terms) {
        Ok(accepted) => Ok(accepted),
        Err(refusal) => Err(Unissued::Issuer(refusal)),
    }
}

/// Returns the path of a question, if it is accepted and ends in a CA; `None` for a trust anchor,
/// above which there is no path.
pub(crate) fn issuer_of(
    alloc: Global,
    kind: Kind,
    question: &RpkiQuestion<'_>,
    terms: &Terms,
) -> Result<Option<Accepted>, Unissued>
    requires { HasTerms question.now terms.now }
    ensures issuer { IfOk result (IsWantedIssuer kind question.now terms.entry.now) }
    ensures none { IfErr result (IsNoIssuer kind question.now terms.entry.now) }
{
    if is_anchor(kind) {
        if question.members.lengths.is_empty() {
            return Ok(None);
        }
        return Err(Unissued::BadCall);
    }
    match authority_of(alloc, question, terms) {
        Ok(issuer) => Ok(Some(issuer)),
        Err(why) => Err(why),
    }
}

/// Returns the CA in which the issuer's path ends, with the resources that it holds.
pub(crate) fn holder_above<'a>(above: Option<&'a Accepted>) -> Option<&'a ResourceCert>
    ensures { option_map (λ r. r.now) result ≡ issuer_above (option_map (λ a. a.now) above.entry) }
{
    match above {
        Some(above) => Some(&above.judged.holder),
        None => None,
    }
}

/// Returns the certificates of the issuer's path.
pub(crate) fn strings_above<'a>(above: Option<&'a Accepted>) -> &'a [Bytes]
    ensures { result.now ≡ strings_for (option_map (λ a. a.now) above.entry) }
{
    match above {
        Some(above) => &above.path,
        None => &[],
    }
}

/// Returns what answers for revocation below the issuer, as for its path.
pub(crate) fn asked_above<'a>(above: Option<&'a Accepted>, terms: &Terms) -> Asked<'a>
    ensures { result ≡ asked_for terms.entry.now (option_map (λ a. a.now) above.entry) }
{
    match above {
        Some(above) => Asked::by(&above.lists, terms),
        None => Asked::nobody(),
    }
}
