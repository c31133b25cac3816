//! A path of files, from a trust anchor down.
ghost use Rattle.std.specs.Prelude.{◌≡◌, ◌≢◌, ◌<◌, ℕ, Bool, true, All, List, [], ◌∷◌, length, option_map, IfOk, OnOk, IsFalse, IsTrue, MatchOption};
ghost use Rattle.rpki_cert.specs.Certificates.{IsCertificate};
ghost use Rattle.rpki_der.specs.Encoding.{Means};
ghost use Rattle.rpki_der.specs.Times.{Moment};
ghost use Rattle.rpki_keys.specs.RsaSignatures.{IsSignedByRsa};
ghost use Rattle.rpki_cert.specs.Verification.{context};
ghost use Rattle.rpki_path.specs.declared.judging.Judged.{Judged as Holding};
ghost use Rattle.rpki_path.specs.Paths.{UnlessMemory};
ghost use Rattle.rpki_path.specs.declared.path_fault.PathFault.TheVariants.{Memory};
ghost use Rattle.rpki_path.specs.NameChains.{BeginPath, IsUnchained, strings_below};
ghost use Rattle.rpki_files.specs.Contents.{BeginsWithCertificate};
ghost use Rattle.rpki_verdicts.specs.Reasons.{locator_reason, name_reason, resources_reason, tal_reason};
ghost use Rattle.rpki_files.specs.Files.{contents};
ghost use Rattle.rpki_files.specs.LocatorFiles.{AreLocator};
ghost use Rattle.rpki_verdicts.specs.GivenLocators.{HasNumbersIf, IsLocated, IsRead, locator_octets};
ghost use Rattle.rpki_verdicts.specs.PathFiles.{IsJudgedAs, AreListsOf, Demands, IsAnchorLocator, IsPlaceOfLocator, demands_of};
ghost use Rattle.rpki_verdicts.specs.PathAnswers.{reason_of, AreChained, AreSame, IsNoLocator, IsReasonAt, IsPathVerdict, IsVerdictBy};
ghost use Rattle.rpki_path.specs.LocatedPaths.{BeginsWithNoNumber};
ghost use Rattle.rpki_verdicts.specs.PathAnswers.Steps.{IsKindOfLast, IsKeyVerdict, IsNamedVerdict};
ghost use Rattle.rpki_verdicts.specs.UnrevokedMembers.{AreUnrevoked};
ghost use Rattle.rpki_verdicts.specs.declared.path.Verdict.TheVariants.{Accepted, Rejected};
ghost use Rattle.rpki_verdicts.specs.declared.path.Fault.{Fault as Faulty};

use crate::locators::{GivenLocator, place_of_key};
use crate::reasons::of_path;
use rpki_cert::{Cert, Kind, said_kind};
use rpki_crl::Crl;
use rpki_der::Time;
use rpki_files::Object;
use rpki_files::rules::{Rule, of_key, of_name, of_no_resources, of_other_key, of_tal};
use rpki_keys::tal::TalError;
use rpki_keys::{RsaVerifier, is_usable};
use rpki_path::revocation::{GivenLists, NobodyAsked, RevocationSource};
use rpki_path::{
    GivenPath, Judged, Member, PathError, first_unchained, judge as judge_path, lists_numbers,
};
use std::alloc::{AllocError, Global};
use std::marker::Model;

/// A question about a path: its files from the trust anchor down, the CRLs, the TALs, whether names
/// are checked, the mode and the validation time.
#[derive(Drop)]
pub struct Question<'q, 'n> {
    pub members: &'q [Object<'n>],
    pub lists: &'q [Object<'n>],
    pub locators: &'q [GivenLocator<'n>],
    pub names: bool,
    pub strict: bool,
    pub at: Time,
}

impl<'q, 'n> Model for Question<'q, 'n> {
    ghost use Rattle.rpki_verdicts.specs.PathFiles.{QuestionFields};

    ghost Value = { QuestionFields };

    ghost view = { λ q. record {
      members = q.members.now;
      lists = q.lists.now;
      locators = q.locators.now;
      names = q.names;
      strict = q.strict;
      at = q.at;
    } };
}

/// Why a path is rejected: the path index, the step, the error's name and what it means.
#[derive(Clone, Copy)]
pub struct Fault {
    pub index: usize,
    pub step: &'static str,
    pub name: &'static str,
    pub rule: Rule,
}

/// The verdict: the last certificate with the resources that it holds (above a router, the CA) and
/// the router's certificate, or the first error.
#[derive(Drop)]
pub enum Verdict {
    Accepted(Judged),
    Rejected(Fault),
}

// As what the last file is judged.
fn judged_as(last: &Object<'_>) -> Kind
    ensures { IsJudgedAs result last.now.octets }
{
    match last.certificate() {
        Some((cert, _)) => said_kind(cert.as_tbs()),
        None => Kind::Authority,
    }
}

// As what the last file below the trust anchor's is judged; a CA where there is none.
fn kind_of_last(files: &[Object<'_>]) -> Kind
    ensures { IsKindOfLast (contents files.now) result }
{
    let Some((_, below)) = files.split_first() else {
        return Kind::Authority;
    };
    match below.split_last() {
        Some((last, _)) => judged_as(last),
        None => Kind::Authority,
    }
}

// The member that a file is, with what was read of it.
fn member_of<'f>(file: &'f Object<'_>) -> Member<'f>
    ensures { result ≡ file.now.octets }
{
    match file.certificate() {
        Some((cert, _)) => Member::read_as(file.octets(), cert),
        None => Member::of(file.octets()),
    }
}

// The members that the files are.
fn members_of<'f>(alloc: Global, files: &'f [Object<'_>]) -> Result<Vec<Member<'f>>, AllocError>
    ensures { IfOk result (λ all. all.items ≡ contents files.now) }
{
    let mut all = Vec::new(alloc);
    for file in files {
        all.push(member_of(file))?;
    }
    Ok(all)
}

// A copy of the list with a table of its serials, so that none is looked for twice along the list.
pub(crate) fn with_table(alloc: Global, list: &Crl) -> Result<Crl, AllocError>
    ensures same { IfOk result (λ kept. kept.list ≡ list.now.list) }
    ensures cached { IfOk result (λ kept. kept.is_cached ≡ true) }
{
    let mut kept = list.try_clone(alloc)?;
    match kept.cache_serials(alloc) {
        Ok(()) => Ok(kept),
        Err(error) => {
            drop(kept);
            Err(error)
        }
    }
}

/// Returns the CRLs among the files, each with a table of its serial numbers.
///
/// # Errors
///
/// Returns an error only if memory runs out.
pub fn lists_of(alloc: Global, files: &[Object<'_>]) -> Result<Vec<Crl>, AllocError>
    ensures { IfOk result (λ all. AreListsOf (contents files.now) all.items) }
{
    let mut all = Vec::new(alloc);
    for file in files {
        let Some(list) = file.whole_list() else {
            continue;
        };
        let kept = with_table(alloc, list)?;
        all.push(kept)?;
    }
    Ok(all)
}

// What is told of an error, unless memory ran out.
fn rejected(error: PathError, files: &[Object<'_>]) -> Result<Fault, AllocError>
    requires { UnlessMemory error.fault (error.index < length files.now) }
    ensures index { IfOk result (λ fault. fault.index ≡ error.index) }
    ensures reason { IfOk result (IsReasonAt (contents files.now) error.fault) }
    ensures no_memory { OnOk result (error.fault ≢ Memory) }
{
    if error.is_memory() {
        drop(error);
        return Err(AllocError);
    }
    let index = error.index;
    let file = &files[index];
    let (step, name, rule) = of_path(&error.fault, file.octets());
    drop(error);
    Ok(Fault {
        index,
        step,
        name,
        rule,
    })
}

// The verdict on a valid path, whose last member stands at this place: its key has to be one that
// the RPKI uses.
fn with_key(judged: Judged, index: usize) -> Verdict
    ensures { IsKeyVerdict judged index result }
{
    let key = judged.last_key();
    if is_usable(key) {
        return Verdict::Accepted(judged);
    }
    let rule = of_key(key.algorithm());
    drop(judged);
    Verdict::Rejected(Fault {
        index,
        step: "key",
        name: "BadKey",
        rule,
    })
}

// The certificate that the trust anchor's file begins with, if it begins with one.
fn anchor_certificate<'q>(question: &Question<'q, '_>) -> Option<&'q Cert>
    ensures { (anchor : List ℕ) (more : List (List ℕ))
        → contents question.now.members ≡ anchor ∷ more
        → MatchOption result (BeginsWithCertificate anchor → ⊥)
        (λ cert. Means IsCertificate cert.now anchor) }
{
    let anchor = question.members.first()?;
    match anchor.certificate() {
        Some((cert, _)) => Some(cert),
        None => None,
    }
}

// Finds the place of the first of the locators whose key the trust anchor's certificate has.
fn place_of_locator(question: &Question<'_, '_>) -> Option<usize>
    requires { All (IsRead question.now.strict) question.now.locators }
    ensures { IsPlaceOfLocator question.now result }
{
    rpki_cert::laws::unambiguous();
    rpki_keys::tal::laws::unambiguous();
    match anchor_certificate(question) {
        Some(cert) => place_of_key(question.locators, cert.as_tbs().subject_public_key_info()),
        None => None,
    }
}

/// Returns the first TAL whose key the trust anchor's certificate has (RFC 8630 3).
pub fn located<'q, 'n>(question: &Question<'q, 'n>) -> Option<&'q GivenLocator<'n>>
    requires { All (IsRead question.now.strict) question.now.locators }
    ensures { IsAnchorLocator question.now (option_map (λ l. l.now) result) }
{
    question.locators.get(place_of_locator(question)?)
}

// Whether locators are given, and the trust anchor's certificate has the key of none.
fn has_other_key(question: &Question<'_, '_>) -> bool
    requires { All (IsRead question.now.strict) question.now.locators }
    ensures other { IsTrue result → (anchor : List ℕ) (more : List (List ℕ))
        → contents question.now.members ≡ anchor ∷ more
        → let files = locator_octets question.now.locators in
        BeginsWithCertificate anchor × (IsLocated question.now.strict files anchor → ⊥) }
    ensures located { IsFalse result → (anchor : List ℕ) (more : List (List ℕ))
        → contents question.now.members ≡ anchor ∷ more → BeginsWithCertificate anchor
        → IsLocated question.now.strict (locator_octets question.now.locators) anchor }
{
    if question.locators.is_empty() {
        return false;
    }
    match anchor_certificate(question) {
        Some(_) => place_of_locator(question).is_none(),
        None => false,
    }
}

// Whether locators are given, and the trust anchor's certificate lists no number.
fn has_no_numbers(question: &Question<'_, '_>) -> bool
    ensures none { IsTrue result → (anchor : List ℕ) (more : List (List ℕ))
        → contents question.now.members ≡ anchor ∷ more
        → (locator_octets question.now.locators ≢ []) × BeginsWithNoNumber anchor }
    ensures numbers { IsFalse result → (anchor : List ℕ) (more : List (List ℕ))
        → contents question.now.members ≡ anchor ∷ more → BeginsWithCertificate anchor
        → HasNumbersIf (locator_octets question.now.locators) anchor }
{
    if question.locators.is_empty() {
        return false;
    }
    match anchor_certificate(question) {
        Some(cert) => {
            if lists_numbers(cert) {
                return false;
            }
            true
        }
        None => false,
    }
}

// Why the file at this place, which is given as a locator, is none.
fn no_locator(index: usize, fault: &TalError) -> Fault
    ensures place { result.index ≡ index }
    ensures reason { reason_of result ≡ tal_reason fault.now }
{
    Fault {
        index,
        step: "tal",
        name: fault.name(),
        rule: of_tal(fault),
    }
}

/// Finds the first file that is given as a TAL and isn't one, and why.
pub fn first_no_locator(question: &Question<'_, '_>) -> Option<Fault>
    requires { All (IsRead question.now.strict) question.now.locators }
    ensures { let files = locator_octets question.now.locators in
        MatchOption result (All (AreLocator question.now.strict) files)
        (IsNoLocator question.now.strict files) }
{
    for (place, locator) in question.locators.iter().enumerate() {
        if let Err(fault) = locator.tal() {
            return Some(no_locator(place, fault));
        }
    }
    None
}

// That the trust anchor's key is that of no locator.
pub(crate) fn other_key() -> Fault
    ensures place { result.index ≡ 0 }
    ensures reason { reason_of result ≡ locator_reason }
{
    Fault {
        index: 0,
        step: "tal",
        name: "OtherKey",
        rule: of_other_key(),
    }
}

// That the trust anchor lists no number.
pub(crate) fn no_resources() -> Fault
    ensures place { result.index ≡ 0 }
    ensures reason { reason_of result ≡ resources_reason }
{
    Fault {
        index: 0,
        step: "tal",
        name: "NoResources",
        rule: of_no_resources(),
    }
}

// That the names of the member at this place don't chain.
pub(crate) fn other_name(index: usize) -> Fault
    ensures place { result.index ≡ index }
    ensures reason { reason_of result ≡ name_reason index }
{
    Fault {
        index,
        step: "names",
        name: "OtherName",
        rule: of_name(index),
    }
}

// The place of the first member whose names don't chain, where that is asked. All strings begin
// with certificates, so this errs only where memory runs out.
fn unchained(
    alloc: Global,
    path: &GivenPath<'_, '_>,
    names: bool,
) -> Result<Option<usize>, AllocError>
    requires { BeginPath path.now }
    ensures { IfOk result (λ o. MatchOption o (AreChained names path.now)
        (λ place. IsTrue names × IsUnchained path.now.anchor (strings_below path.now) place)) }
{
    if !names {
        return Ok(None);
    }
    match first_unchained(alloc, path) {
        Ok(place) => Ok(place),
        Err(error) => {
            if !error.is_memory() {
                unreachable!();
            }
            drop(error);
            Err(AllocError)
        }
    }
}

// The verdict on a valid path, whose last member stands at this place: where it is asked, its names
// have to chain, and its last key has to be one that the RPKI uses.
fn with_names(
    alloc: Global,
    path: &GivenPath<'_, '_>,
    names: bool,
    judged: Judged,
    index: usize,
) -> Result<Verdict, AllocError>
    requires { BeginPath path.now }
    ensures { IfOk result (IsNamedVerdict path.now names judged index) }
{
    match unchained(alloc, path, names) {
        Ok(None) => Ok(with_key(judged, index)),
        Ok(Some(place)) => {
            drop(judged);
            Ok(Verdict::Rejected(other_name(place)))
        }
        Err(error) => {
            drop(judged);
            Err(error)
        }
    }
}

// The verdict on the path that the members are. `None` where there is none.
fn verdict_on<R: RevocationSource>(
    alloc: Global,
    members: &[Member<'_>],
    kind: Kind,
    question: &Question<'_, '_>,
    asked: &R,
) -> Result<Option<Verdict>, AllocError>
    requires members { members.now ≡ contents question.now.members }
    requires kind { IsKindOfLast members.now kind }
    requires read { All (IsRead question.now.strict) question.now.locators }
    ensures { let x = context IsSignedByRsa question.now.at question.now.strict in
        IfOk result (λ o. MatchOption o (members.now ≡ [])
        (IsPathVerdict x (R.asks asked.now x) (demands_of question.now) members.now)) }
{
    rpki_cert::laws::unambiguous();
    let Some(path) = GivenPath::of(members, kind) else {
        return Ok(None);
    };
    if has_other_key(question) {
        return Ok(Some(Verdict::Rejected(other_key())));
    }
    if has_no_numbers(question) {
        return Ok(Some(Verdict::Rejected(no_resources())));
    }
    match judge_path(
        alloc,
        &path,
        asked,
        question.strict,
        question.at,
        &RsaVerifier,
    ) {
        Ok(judged) => {
            let place = members.len() - 1;
            let verdict = with_names(alloc, &path, question.names, judged, place)?;
            Ok(Some(verdict))
        }
        Err(error) => {
            let fault = rejected(error, question.members)?;
            Ok(Some(Verdict::Rejected(fault)))
        }
    }
}

// The verdict, by who is asked for revocation. `None` where there is no file.
fn judged_by<R: RevocationSource>(
    alloc: Global,
    question: &Question<'_, '_>,
    asked: &R,
) -> Result<Option<Verdict>, AllocError>
    requires { All (IsRead question.now.strict) question.now.locators }
    ensures { let x = context IsSignedByRsa question.now.at question.now.strict in
        let members = contents question.now.members in
        IfOk result (λ o. MatchOption o (members ≡ [])
        (IsPathVerdict x (R.asks asked.now x) (demands_of question.now) members)) }
{
    let kind = kind_of_last(question.members);
    let members = members_of(alloc, question.members)?;
    let verdict = verdict_on(alloc, &members, kind, question, asked);
    drop(members);
    verdict
}

/// Validates a path of files with real signatures (RFC 6487 7.2, RFC 7935 2), and returns `None` if
/// there is no file.
///
/// If TALs are given, the trust anchor has to have the key of one of them (RFC 8630 3). If CRLs are
/// given, no certificate may be revoked by its issuer's newest CRL. If names are checked, they have
/// to chain, and CRLs have to have their issuers' names (RFC 5280 6.3.3).
///
/// # Errors
///
/// Returns an error only if memory runs out. A rejection is a verdict.
///
/// # Not checked
///
/// Whether the RPKI uses the last certificate's key, and manifests (own). Revocation, if no CRL is
/// given.
pub fn judge(alloc: Global, question: &Question<'_, '_>) -> Result<Option<Verdict>, AllocError>
    requires { All (IsRead question.now.strict) question.now.locators }
    ensures { let x = context IsSignedByRsa question.now.at question.now.strict in
        let d = demands_of question.now in
        let members = contents question.now.members in
        let lists = contents question.now.lists in
        IfOk result (λ o. MatchOption o (members ≡ []) (IsVerdictBy x d members lists)) }
{
    if question.lists.is_empty() {
        return judged_by(alloc, question, &NobodyAsked);
    }
    let lists = lists_of(alloc, question.lists)?;
    let given = GivenLists::with_names(&lists, question.names);
    let verdict = judged_by(alloc, question, &given);
    drop(lists);
    verdict
}

/// States that, if CRLs are given, each certificate of an accepted path but the trust anchor is
/// left unrevoked by one of them: the key of the certificate above signed it, it has that
/// certificate's name if names are checked, it is current, and it doesn't have the serial number.
pub fn accepted_are_unrevoked()
    ensures { (now : Moment) (strict : Bool) (d : Demands) (files lists : List (List ℕ))
        (list : List ℕ) (j : Holding) → let x = context IsSignedByRsa now strict in
        IsVerdictBy x d files (list ∷ lists) (Accepted j)
        → AreUnrevoked d.names x (list ∷ lists) files }
{}

/// States that the same files aren't both accepted and rejected.
pub fn one_answer()
    ensures { (now : Moment) (strict : Bool) (d : Demands) (files lists : List (List ℕ))
        (j : Holding) (f : Faulty) → let x = context IsSignedByRsa now strict in
        IsVerdictBy x d files lists (Accepted j) → IsVerdictBy x d files lists (Rejected f) → ⊥ }
{
    rpki_cert::laws::unambiguous();
    rpki_crl::laws::unambiguous();
}

/// States that an accepted path is accepted with one last certificate, which holds the same
/// resources.
pub fn one_acceptance()
    ensures { (now : Moment) (strict : Bool) (d : Demands) (files lists : List (List ℕ))
        (j i : Holding) → let x = context IsSignedByRsa now strict in
        IsVerdictBy x d files lists (Accepted j) → IsVerdictBy x d files lists (Accepted i)
        → AreSame j i }
{
    rpki_cert::laws::unambiguous();
    rpki_crl::laws::unambiguous();
}
