//! The walk over a directory's strings, below the trust anchor among them.
ghost use Rattle.std.specs.Prelude.{◌≡◌, [], List, length, Err, IfOk};
ghost use Rattle.rpki_cert.specs.Verification.{context};
ghost use Rattle.rpki_path.specs.AskedLists.{by_named_lists};
ghost use Rattle.rpki_keys.specs.Locators.{NamedTal};
ghost use Rattle.rpki_keys.specs.RsaSignatures.{IsSignedByRsa};
ghost use Rattle.rpki_folder.specs.FirstPlaces.{IsFirstIn};
ghost use Rattle.rpki_folder.specs.FoundAnchors.{IsFound};
ghost use Rattle.rpki_folder.specs.KeptLines.{BecameLines};
ghost use Rattle.rpki_folder.specs.LimitTables.{HasReached};
ghost use Rattle.rpki_folder.specs.ReachedLimits.{AreLimited, LimitedCa, ended_of};
ghost use Rattle.rpki_folder.specs.UsualBounds.{usual_steps};
ghost use Rattle.rpki_folder.specs.Walks.{IsLookedAt, LeadsTo, Root, TellsBelow, Told, members_at};
ghost use Rattle.rpki_folder.specs.declared.anchors.FoundAnchor.TheVariants.{Valid};
ghost use Rattle.rpki_c.specs.FolderFates.{IsSorted};
ghost use Rattle.rpki_c.specs.FolderFates.Steps.{refusal_of, wrong_first};
ghost use Rattle.rpki_c.specs.FolderQuestions.{asked_or};
ghost use Rattle.rpki_c.specs.FolderTelling.{AnswersBelow, AnswersGiven, AnswersFolder};

use crate::folder_lines::{ToldLines, WalkLines};
use crate::folder_question::{FolderTerms, RpkiFolderQuestion, folder_terms_of};
use crate::judging::strings_of;
use crate::refusal::Refusal;
use crate::sorting::Sorted;
use rpki_cert::{ResourceCert, laws};
use rpki_folder::{
    Admission, AllAdmitted, Ended, Firsts, FoundAnchor, Lines, Walk, WalkError,
    Walked as FolderWalk, WrongCandidate,
};
use rpki_keys::RsaVerifier;
use rpki_keys::tal::Tal;
use rpki_path::{LocatedError, PathError};
use std::alloc::{AllocError, Global};

/// The results for a directory's strings.
#[derive(Drop)]
pub(crate) struct Walked {
    /// The line of each string.
    pub(crate) told: ToldLines,
    pub(crate) ended: Ended,
    /// The index of the trust anchor.
    pub(crate) anchor: usize,
}

// Why there was no walk below the trust anchor at a place.
fn refused(error: WalkError, place: usize) -> Refusal
    ensures { result ≡ refusal_of place error }
{
    match error {
        WalkError::Memory => Refusal::Memory,
        WalkError::OtherName => Refusal::OtherName(place),
        WalkError::Anchor(LocatedError::OtherKey) => Refusal::OtherKey,
        WalkError::Anchor(LocatedError::NoResources) => Refusal::NoResources(place),
        WalkError::Anchor(LocatedError::Path(error)) => {
            let fault = error.fault;
            Refusal::Member(PathError {
                index: place,
                fault,
            })
        }
    }
}

// The walk that is asked for, through the certificates that are admitted.
fn walk_of<'w, A: Admission>(
    alloc: Global,
    sorted: &'w Sorted<'_>,
    admission: &'w A,
    terms: &FolderTerms,
) -> Walk<'w, A, RsaVerifier>
    ensures folder { result.folder.now ≡ sorted.now.folder }
    ensures admission { result.admission.now ≡ admission.now }
    ensures names { result.names ≡ terms.now.asks_names }
    ensures strict { result.strict ≡ terms.now.strict }
    ensures at { result.at ≡ terms.now.at }
    ensures depth { result.bounds.depth ≡ terms.now.depth }
    ensures steps { result.bounds.steps ≡ asked_or terms.now.steps usual_steps }
{
    let names = terms.asks_names;
    Walk {
        alloc,
        folder: &sorted.folder,
        admission,
        bounds: terms.bounds(),
        names,
        strict: terms.strict,
        at: terms.at,
        verifier: &RsaVerifier,
    }
}

// The trust anchor among sorted strings.
fn anchor_of(
    alloc: Global,
    sorted: &Sorted<'_>,
    tal: &Tal,
    terms: &FolderTerms,
) -> Result<FoundAnchor, AllocError>
    ensures { let x = context IsSignedByRsa terms.now.at terms.now.strict in
        let asked = by_named_lists terms.now.asks_names x sorted.now.folder.lists in
        let certs = sorted.now.folder.certs in
        IfOk result (IsFound x asked terms.now.asks_names tal.now certs) }
{
    walk_of(alloc, sorted, &AllAdmitted, terms).find_anchor(tal)
}

// Walks below a trust anchor, through each certificate at its first place, and keeps the lines.
fn walk_below(
    alloc: Global,
    sorted: &Sorted<'_>,
    firsts: &Firsts,
    terms: &FolderTerms,
    issuer: &ResourceCert,
    start: usize,
    kept: &mut Lines,
) -> Result<FolderWalk, AllocError>
    ensures tells { let x = context IsSignedByRsa terms.now.at terms.now.strict in
        let asked = by_named_lists terms.now.asks_names x sorted.now.folder.lists in
        let certs = sorted.now.folder.certs in
        let steps = asked_or terms.now.steps usual_steps in
        (told : List Told) × BecameLines kept.old told kept.new × TellsBelow x asked
        (IsLookedAt terms.now.asks_names (IsFirstIn firsts.now) issuer.now.cert certs) issuer.now
        certs [] terms.now.depth steps (ended_of result) told }
    ensures limits { let x = context IsSignedByRsa terms.now.at terms.now.strict in
        let asked = by_named_lists terms.now.asks_names x sorted.now.folder.lists in
        let certs = sorted.now.folder.certs in
        let steps = asked_or terms.now.steps usual_steps in
        IfOk result (λ walked. (limited : List LimitedCa)
        × HasReached start (length certs) limited walked × ((root : Root)
        → LeadsTo x asked root (members_at root certs []) issuer.now → AreLimited x asked
        (IsLookedAt terms.now.asks_names (IsFirstIn firsts.now) issuer.now.cert certs) root
        certs terms.now.depth steps limited)) }
{
    walk_of(alloc, sorted, firsts, terms).below(issuer, start, kept)
}

// The answer of sorted strings below the trust anchor at a place of their folder.
fn walk_from(
    alloc: Global,
    sorted: &Sorted<'_>,
    anchor: usize,
    issuer: &ResourceCert,
    terms: &FolderTerms,
) -> Result<Walked, Refusal>
    requires sorted { IsSorted sorted.now }
    ensures { let x = context IsSignedByRsa terms.now.at terms.now.strict in
        let asked = by_named_lists terms.now.asks_names x sorted.now.folder.lists in
        let certs = sorted.now.folder.certs in (t : NamedTal)
        → IsFound x asked terms.now.asks_names t certs (Valid anchor issuer.now)
        → AnswersBelow x terms.now t sorted.now.strings.now result }
{
    laws::unambiguous();
    let firsts = Firsts::of(alloc, &sorted.folder)?;
    let mut kept = Lines::new(alloc, sorted.folder.certs().len())?;
    let start = firsts.first_of(anchor);
    let walk = walk_below(alloc, sorted, &firsts, terms, issuer, start, &mut kept)?;
    let FolderWalk { ended, limits } = walk;
    let lines = WalkLines {
        sorted,
        firsts: &firsts,
        kept: kept.as_slice(),
        limits: &limits,
        anchor,
    };
    let told = lines.told(alloc, terms.asks_key)?;
    let anchor = sorted.origin(anchor);
    Ok(Walked {
        told,
        ended,
        anchor,
    })
}

// Why there was no walk, if no string is a valid trust anchor: what is wrong with the first of those
// that have the locator's key.
fn wrong_of(sorted: &Sorted<'_>, mut candidates: Vec<WrongCandidate>) -> Refusal
    ensures { result ≡ wrong_first sorted.now candidates.items }
{
    if candidates.is_empty() {
        drop(candidates);
        return Refusal::OtherKey;
    }
    let WrongCandidate { place, error } = candidates.remove(0);
    drop(candidates);
    refused(error, sorted.origin(place))
}

// The answer of sorted strings below a locator.
fn walk_sorted(
    alloc: Global,
    sorted: &Sorted<'_>,
    tal: &Tal,
    terms: FolderTerms,
) -> Result<Walked, Refusal>
    requires { IsSorted sorted.now }
    ensures { let x = context IsSignedByRsa terms.at terms.strict in
        AnswersBelow x terms tal.now sorted.now.strings.now result }
{
    laws::unambiguous();
    match anchor_of(alloc, sorted, tal, &terms)? {
        FoundAnchor::Valid(anchor, issuer) => {
            let answer = walk_from(alloc, sorted, anchor, &issuer, &terms);
            drop(issuer);
            answer
        }
        FoundAnchor::Wrong(candidates) => Err(wrong_of(sorted, candidates)),
    }
}

// The answer to the question, which has these terms.
fn walk_given(
    alloc: Global,
    question: &RpkiFolderQuestion<'_>,
    terms: FolderTerms,
) -> Result<Walked, Refusal>
    ensures { AnswersGiven IsSignedByRsa question.now terms result }
{
    let strings = strings_of(alloc, &question.strings)?;
    let tal = Tal::read_named(alloc, String::new(alloc), question.locator, terms.strict)?;
    let sorted = Sorted::of(alloc, &strings)?;
    walk_sorted(alloc, &sorted, &tal, terms)
}

/// Answers a question about a directory, with the RPKI's signatures (RSASSA-PKCS1-v1_5 with
/// SHA-256, RFC 7935 2).
pub(crate) fn judge_folder(
    alloc: Global,
    question: &RpkiFolderQuestion<'_>,
) -> Result<Walked, Refusal>
    ensures { AnswersFolder IsSignedByRsa question.now result }
{
    match folder_terms_of(question) {
        Some(terms) => walk_given(alloc, question, terms),
        None => Err(Refusal::BadCall),
    }
}
