//! The answer to a question about a path.
ghost use Rattle.std.specs.Prelude.{◌↔◌, IfOk, IfErr, IsTrue, MatchOption};
ghost use Rattle.rpki_path.specs.NameChains.{BeginPath, IsUnchained, strings_below};
ghost use Rattle.rpki_c.specs.Questions.{HasTerms};
ghost use Rattle.rpki_c.specs.Verdicts.{AreStringsOf, DontAddUp, IsUncalled, IsKeyOf, AreListsNaming, IsUnreadList, AreListsGiven, AreNoListsGiven, IsTrusted, IsQuestionPath, IsValidWith, AreChainedIf, HasKeyAsked, FailsWith, FailsAs, IsAcceptedQuestion, IsRefusedOn, AnswersQuestion};

use crate::asking::Asked;
use crate::keys::keys_among;
use crate::lists::lists_of;
use crate::locators::ask_locator;
use crate::question::{RpkiQuestion, Terms, terms_of};
use crate::refusal::Refusal;
use crate::strings::{RpkiStrings, cut};
use bytes::Bytes;
use rpki_crl::Crl;
use rpki_keys::{RsaVerifier, is_usable};
use rpki_path::{GivenPath, Judged, Member, first_unchained, judge};
use std::alloc::{AllocError, Global};

/// An accepted path: what its last certificate holds, its certificates, and the CRLs that were
/// checked.
#[derive(Drop)]
pub(crate) struct Accepted {
    pub(crate) judged: Judged,
    pub(crate) path: Vec<Bytes>,
    pub(crate) lists: Vec<Crl>,
}

/// Cuts the caller's octets into the strings of these lengths.
pub(crate) fn strings_of(alloc: Global, strings: &RpkiStrings<'_>) -> Result<Vec<Bytes>, Refusal>
    ensures cut { IfOk result (λ it. AreStringsOf strings.now it.items) }
    ensures refused { IfErr result (IsUncalled (DontAddUp strings.now)) }
{
    match cut(alloc, strings.octets, strings.lengths)? {
        Some(strings) => Ok(strings),
        None => Err(Refusal::BadCall),
    }
}

// Reads the lists that these octets are, but for those that name no key of the path of these strings:
// a certificate asks its issuer's lists alone.
fn lists_naming(alloc: Global, strings: &[Bytes], octets: &[Bytes]) -> Result<Vec<Crl>, Refusal>
    ensures lists { IfOk result (λ it.
        AreListsNaming (IsKeyOf strings.now) octets.now it.items) }
    ensures unread { IfErr result (IsUnreadList (IsKeyOf strings.now) octets.now) }
{
    let keys = keys_among(alloc, strings)?;
    let lists = lists_of(alloc, octets, &keys);
    drop(keys);
    lists
}

// The caller's lists that name a key of the path of these strings, if lists are asked.
fn lists_asked(
    alloc: Global,
    strings: &[Bytes],
    lists: &RpkiStrings<'_>,
    asks_lists: bool,
) -> Result<Vec<Crl>, Refusal>
    ensures lists { IfOk result (λ it.
        AreListsGiven (AreListsNaming (IsKeyOf strings.now)) asks_lists lists.now it.items) }
    ensures unread { IfErr result (AreNoListsGiven (IsKeyOf strings.now) asks_lists lists.now) }
{
    if !asks_lists {
        return Ok(Vec::new(alloc));
    }
    let octets = strings_of(alloc, lists)?;
    let lists = lists_naming(alloc, strings, &octets);
    drop(octets);
    lists
}

// The place of the first member whose names don't chain, if names are asked. All strings begin with
// certificates, so this errs only if memory runs out.
fn unchained(
    alloc: Global,
    path: &GivenPath<'_, '_>,
    asks_names: bool,
) -> Result<Option<usize>, AllocError>
    requires { BeginPath path.now }
    ensures { IfOk result (λ o. MatchOption o (AreChainedIf asks_names path.now)
        (λ place. IsTrue asks_names × IsUnchained path.now.anchor (strings_below path.now) place)) }
{
    if !asks_names {
        return Ok(None);
    }
    match first_unchained(alloc, path) {
        Ok(place) => Ok(place),
        Err(error) => {
            if !error.is_memory() {
                unreachable!();
            }
            drop(error);
            Err(AllocError)
        }
    }
}

/// Tells whether the last key is one that the RPKI uses, if it is asked.
pub(crate) fn has_key_asked(judged: &Judged, asks_key: bool) -> bool
    ensures { IsTrue result ↔ HasKeyAsked asks_key judged.now }
{
    !asks_key || is_usable(judged.last_key())
}

// What is judged of the path with these lists.
fn judge_with(
    alloc: Global,
    path: &GivenPath<'_, '_>,
    lists: &[Crl],
    terms: &Terms,
) -> Result<Judged, Refusal>
    ensures valid { IfOk result (IsValidWith terms.entry.now lists.now path.now) }
    ensures chained { IfOk result (λ _. AreChainedIf terms.entry.now.asks_names path.now) }
    ensures usable { IfOk result (HasKeyAsked terms.entry.now.asks_key) }
    ensures fails { IfErr result (FailsWith terms.entry.now lists.now path.now) }
{
    let asked = Asked::by(lists, terms);
    let judged = judge(alloc, path, &asked, terms.strict, terms.now, &RsaVerifier)?;
    if let Some(place) = unchained(alloc, path, terms.asks_names)? {
        return Err(Refusal::OtherName(place));
    }
    if !has_key_asked(&judged, terms.asks_key) {
        return Err(Refusal::UnusedKey);
    }
    Ok(judged)
}

// What is judged of the path of these strings, and the lists that were asked.
fn judge_path(
    alloc: Global,
    path: &GivenPath<'_, '_>,
    strings: &[Bytes],
    question: &RpkiQuestion<'_>,
    terms: &Terms,
) -> Result<(Judged, Vec<Crl>), Refusal>
    ensures trusted { IfOk result (λ _. IsTrusted question.now terms.entry.now path.now.anchor) }
    ensures lists { IfOk result (λ it. AreListsGiven
        (AreListsNaming (IsKeyOf strings.now)) terms.entry.now.asks_lists question.now.lists it.1.items) }
    ensures valid { IfOk result (λ it. IsValidWith terms.entry.now it.1.items path.now it.0) }
    ensures chained { IfOk result (λ _. AreChainedIf terms.entry.now.asks_names path.now) }
    ensures usable { IfOk result (λ it. HasKeyAsked terms.entry.now.asks_key it.0) }
    ensures fails { let Are = AreListsNaming (IsKeyOf strings.now) in
        IfErr result (FailsAs Are question.now terms.entry.now strings.now path.now) }
{
    if terms.asks_locator {
        ask_locator(alloc, path.anchor, question.locator, terms.strict)?;
    }
    let lists = lists_asked(alloc, strings, &question.lists, terms.asks_lists)?;
    let judged = judge_with(alloc, path, &lists, terms)?;
    Ok((judged, lists))
}

/// Judges the path of a question that has these terms, with the RPKI's signatures.
pub(crate) fn judge_terms(
    alloc: Global,
    question: &RpkiQuestion<'_>,
    terms: &Terms,
) -> Result<Accepted, Refusal>
    requires { HasTerms question.now terms.now }
    ensures accepted { IfOk result (IsAcceptedQuestion question.now terms.entry.now) }
    ensures refused { IfErr result (IsRefusedOn question.now terms.entry.now) }
{
    let strings = strings_of(alloc, &question.members)?;
    let members = Member::of_each(alloc, &strings)?;
    let Some(path) = GivenPath::of(&members, terms.last) else {
        return Err(Refusal::BadCall);
    };
    let (judged, lists) = judge_path(alloc, &path, &strings, question, terms)?;
    drop(members);
    Ok(Accepted {
        judged,
        path: strings,
        lists,
    })
}

/// Answers a question about a path, with the RPKI's signatures (RSASSA-PKCS1-v1_5 with SHA-256, RFC
/// 7935 2).
pub(crate) fn judge_question(
    alloc: Global,
    question: &RpkiQuestion<'_>,
) -> Result<Accepted, Refusal>
    ensures { AnswersQuestion question.now result }
{
    match terms_of(question) {
        Some(terms) => judge_terms(alloc, question, &terms),
        None => Err(Refusal::BadCall),
    }
}
