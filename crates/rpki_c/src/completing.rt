//! The completion of certificates with their signatures.
ghost use Rattle.std.specs.Prelude.{option_map, IsNone, IfSome};
ghost use Rattle.rpki_c.specs.WantedAnswers.{AnswersCompletedBelow, AnswersCompletion, AnswersSigned};
ghost use Rattle.rpki_c.specs.WantedQuestions.{HasCompletionTerms, HasNoCompletionTerms};

use crate::certificates::kind_of;
use crate::issuer::{asked_above, holder_above, issuer_of, strings_above};
use crate::judging::Accepted;
use crate::question::{RpkiQuestion, Terms, terms_of};
use crate::unissued::Unissued;
use bytes::Bytes;
use rpki_cert::{Kind, ResourceCert, TbsCert};
use rpki_issuing::wanted::issuers::is_named;
use rpki_issuing::wanted::{complete_octets, read_tbs};
use rpki_keys::is_usable;
use std::alloc::Global;

/// A prepared certificate with its signature.
#[repr(C)]
#[derive(Clone, Copy)]
pub struct RpkiCompletion<'c> {
    /// The size of this struct in bytes, as the caller knows it.
    pub size: usize,
    /// The issuer's path, the time, and whether names may only have the profile's string types.
    pub issuer: RpkiQuestion<'c>,
    /// The prepared TBSCertificate.
    pub prepared: &'c [u8],
    /// The bytes of its signature.
    pub signature: &'c [u8],
    /// The kind: 0 a trust anchor, 1 a CA, 2 an end entity, 3 a detached end entity, 4 a router.
    pub kind: u32,
}

/// The size of a completion in bytes.
pub(crate) const COMPLETION_SIZE: usize = size_of::<RpkiCompletion<'_>>();

/// The terms under which a certificate is completed.
#[derive(Clone, Copy)]
pub(crate) struct CompletionTerms {
    pub(crate) kind: Kind,
    /// The terms under which the issuer's path is validated, and the time.
    pub(crate) asked: Terms,
}

// How the certificate is completed. `None` where no kind has its number, where the path of the
// issuer has no terms, and where the caller knows another struct.
#[tactic(auto, using(crate::proofs::WantedTermsGiven::no_completion_size, crate::proofs::WantedTermsGiven::no_completion_kind, crate::proofs::WantedTermsGiven::no_completion_path))]
fn completion_terms_of(completion: &RpkiCompletion<'_>) -> Option<CompletionTerms>
    ensures terms { IfSome result (HasCompletionTerms completion.now) }
    ensures none { IsNone result → HasNoCompletionTerms completion.now }
{
    if completion.size != COMPLETION_SIZE {
        return None;
    }
    Some(CompletionTerms {
        kind: kind_of(completion.kind)?,
        asked: terms_of(&completion.issuer)?,
    })
}

// The fields of what was signed, whose issuer has to be named as the one above.
fn signed_below(
    alloc: Global,
    octets: &[u8],
    issuer: Option<&ResourceCert>,
) -> Result<TbsCert, Unissued>
    ensures { let issuer = option_map (λ r. r.now) issuer.entry in
        AnswersSigned issuer octets.now result }
{
    let octets = Bytes::copy_from_slice(alloc, octets)?;
    let Some(tbs) = read_tbs(alloc, &octets)? else {
        return Err(Unissued::NotToSign);
    };
    if !is_usable(tbs.subject_public_key_info()) {
        return Err(Unissued::UnusedKey);
    }
    if !is_named(&tbs, issuer) {
        return Err(Unissued::OtherName);
    }
    Ok(tbs)
}

// The certificate below the issuer.
fn completed_below(
    alloc: Global,
    completion: &RpkiCompletion<'_>,
    terms: CompletionTerms,
    above: Option<&Accepted>,
) -> Result<Bytes, Unissued>
    ensures { let above = option_map (λ a. a.now) above.entry in
        AnswersCompletedBelow completion.now terms above result }
{
    let (prepared, signature) = (completion.prepared, completion.signature);
    let (kind, asked) = (terms.kind, terms.asked);
    let (strict, now) = (asked.strict, asked.now);
    let (issuer, path) = (holder_above(above), strings_above(above));
    let source = asked_above(above, &asked);
    let tbs = signed_below(alloc, prepared, issuer)?;
    let octets = complete_octets(
        alloc, &tbs, prepared, signature, kind, issuer, path, &source, strict, now,
    )?;
    Ok(octets)
}

/// Completes a prepared certificate with its signature, and returns the certificate's bytes.
pub(crate) fn complete(alloc: Global, completion: &RpkiCompletion<'_>) -> Result<Bytes, Unissued>
    ensures { AnswersCompletion completion.now result }
{
    let Some(terms) = completion_terms_of(completion) else {
        return Err(Unissued::BadCall);
    };
    let above = issuer_of(alloc, terms.kind, &completion.issuer, &terms.asked)?;
    completed_below(alloc, completion, terms, above.as_ref())
}
