//! The issuer: the last of the CAs of a path.
ghost use Rattle.std.specs.Prelude.{◌≡◌, ◌≢◌, All, Option, None, IfErr, IfOk, MatchOption};
ghost use Rattle.rpki_keys.specs.RsaSignatures.{IsSignedByRsa};
ghost use Rattle.rpki_cert.specs.Verification.{ResourceFields, context};
ghost use Rattle.rpki_files.specs.Contents.{IsList};
ghost use Rattle.rpki_files.specs.Files.{contents};
ghost use Rattle.rpki_cert.specs.SaidKinds.{SaysAuthority};
ghost use Rattle.rpki_requests.specs.Refusals.{TellsPath};
ghost use Rattle.rpki_requests.specs.RequestFiles.{IsRequestIssuer, IsNoAuthority, IsNoListAt, IsOnlyIssuer, IsOnlyPathIssuer, IsPathIssuer};
ghost use Rattle.rpki_requests.specs.ToldRefusals.{IsOfPath};
ghost use Rattle.rpki_requests.specs.declared.refusals.Refusal.TheVariants.{Memory, NoAuthority};

use crate::refusals::Refusal;
use rpki_cert::ResourceCert;
use rpki_der::Time;
use rpki_files::Object;
use rpki_path::Judged;
use rpki_verdicts::{Question, Verdict, judge, one_acceptance, one_answer};
use std::alloc::Global;

// The CA that the last member of a path is.
fn authority_of(judged: Judged) -> Result<ResourceCert, Refusal>
    ensures holder { IfOk result (λ r. (judged ≡ record { holder = r; router = None })
        × SaysAuthority r.cert.fields) }
    ensures no_authority { IfErr result (λ why. (why ≡ NoAuthority) × IsNoAuthority judged) }
{
    let Judged { holder, router } = judged;
    if router.is_some() {
        drop(router);
        drop(holder);
        return Err(Refusal::NoAuthority);
    }
    drop(router);
    if holder.as_cert().as_tbs().is_ca() {
        return Ok(holder);
    }
    drop(holder);
    Err(Refusal::NoAuthority)
}

// The place of the first file that is no list.
fn first_no_list(lists: &[Object<'_>]) -> Option<usize>
    ensures { MatchOption result (All IsList (contents lists.now))
        (IsNoListAt (contents lists.now)) }
{
    for (place, list) in lists.iter().enumerate() {
        if !list.is_list() {
            return Some(place);
        }
    }
    None
}

// The CA that the path of these files ends in, by the lists that are given.
fn issuer_of_path(
    alloc: Global,
    files: &[Object<'_>],
    lists: &[Object<'_>],
    strict: bool,
    at: Time,
) -> Result<Option<ResourceCert>, Refusal>
    ensures issuer { let x = context IsSignedByRsa at strict in
        IfOk result (IsPathIssuer x (contents files.now) (contents lists.now)) }
    ensures only { let x = context IsSignedByRsa at strict in
        IfOk result (IsOnlyPathIssuer x (contents files.now) (contents lists.now)) }
    ensures none { let x = context IsSignedByRsa at strict in
        IfErr result (λ why. why ≢ Memory → (issuer : Option ResourceFields)
        → IsPathIssuer x (contents files.now) (contents lists.now) issuer → ⊥) }
    ensures told { let x = context IsSignedByRsa at strict in
        IfErr result (TellsPath x (contents files.now) (contents lists.now)) }
    ensures of_path { IfErr result IsOfPath }
{
    // Called for what they ensure alone.
    one_answer();
    one_acceptance();
    let question = Question {
        members: files,
        lists,
        locators: &[],
        names: true,
        strict,
        at,
    };
    let verdict = judge(alloc, &question);
    drop(question);
    match verdict? {
        None => Ok(None),
        Some(Verdict::Accepted(judged)) => Ok(Some(authority_of(judged)?)),
        Some(Verdict::Rejected(fault)) => Err(Refusal::Rejected(fault)),
    }
}

/// Returns the CA in which the path of these files ends, with the resources that it holds, or
/// `None` if there is no file. The path is validated with real signatures, with the given CRLs and
/// with name chaining.
///
/// # Errors
///
/// Returns why the path is rejected, or that a file given as a CRL isn't one or is followed by
/// other bytes, and `Memory`.
pub(crate) fn issuer_of(
    alloc: Global,
    files: &[Object<'_>],
    lists: &[Object<'_>],
    strict: bool,
    at: Time,
) -> Result<Option<ResourceCert>, Refusal>
    ensures issuer { let x = context IsSignedByRsa at strict in
        IfOk result (IsRequestIssuer x (contents files.now) (contents lists.now)) }
    ensures only { let x = context IsSignedByRsa at strict in
        IfOk result (IsOnlyIssuer x (contents files.now) (contents lists.now)) }
    ensures none { let x = context IsSignedByRsa at strict in
        IfErr result (λ why. why ≢ Memory → (issuer : Option ResourceFields)
        → IsRequestIssuer x (contents files.now) (contents lists.now) issuer → ⊥) }
    ensures told { let x = context IsSignedByRsa at strict in
        IfErr result (TellsPath x (contents files.now) (contents lists.now)) }
    ensures of_path { IfErr result IsOfPath }
{
    if let Some(place) = first_no_list(lists) {
        return Err(Refusal::OtherCrl(place));
    }
    issuer_of_path(alloc, files, lists, strict, at)
}
