//! A signer that refuses issues no authority.

use crate::anchors::{anchor, now};
use crate::checks::{check, check_count};
use crate::samples;
use crate::signers::{Refusal, Refusing};
use rpki_cert::{IssueCaError, ResourceCert, issue_ca};
use rpki_parts::{SigningError, StandIn};
use std::alloc::Global;
use std::process::Abort;

// What a refusing signer refused with; 0 for anything else.
fn refused_with(answer: &Result<ResourceCert, IssueCaError<u32>>) -> u32 {
    match answer {
        Err(IssueCaError::Signing(SigningError::Signer(key))) => *key,
        _ => 0,
    }
}

fn refused(rt: &impl Abort, alloc: Global, issuer: &ResourceCert) -> u32 {
    let tbs = samples::authority(alloc).expect(rt, "memory");
    let signer = Refusing::new(Refusal::Own);
    let answer = issue_ca(alloc, tbs, &signer, &7, issuer, true, now(rt), &StandIn);
    let key = refused_with(&answer);
    drop(answer);
    check_count(rt, signer.calls(), 1);
    key
}

#[test]
fn a_refusing_signer_does_not_issue(rt: HostRuntime) {
    let alloc = rt.alloc();
    let anchor = anchor(&rt, alloc);
    check(
        &rt,
        refused(&rt, alloc, &anchor) == 7,
        "the key of the refusal",
    );
    drop(anchor);
}
