//! Whole paths, and the line program.

use crate::asking::{Told, begin, called, end};
use crate::inputs::{ANCHOR, FIRST, NUMBERS, SECOND, anchor, locator, new_year};
use bytes::Bytes;
use rpki_blocks::Asn;
use rpki_cert::{Kind, ResourceCert};
use rpki_der::{Serial, Time};
use rpki_lines::{Watched, program};
use rpki_parts::StandIn;
use rpki_path::revocation::NobodyAsked;
use rpki_path::{GivenPath, Member, Role, Validator, judge, validate_router};
use rpki_tests::samples::{router, shared, signed};
use std::alloc::Global;
use std::process::ExitCode;

// A list of revoked certificates with serial 12, which is asked for.
const REVOKED: &[u8] = b"revoked 3014301202010C170D3139303530313030303030305A 0C\n";

const YES: &[u8] = b"yes\n";

const ACCEPTED: &[u8] = b"stand-in signatures\naccepted\nv4 none\nv6 none\nas 3-3\n";

// What the line program is asked about the path of the anchor and the two authorities.
fn question(alloc: Global) -> Option<String> {
    let [ta, first, second] = [NUMBERS, FIRST, SECOND];
    let text = format!(in alloc; "at 20240101000000\nstrict\nta {ta}\nca {first}\nca {second}\n");
    text.ok()
}

// Room for what is printed, so that the writer itself asks for nothing.
fn output(alloc: Global) -> Option<Vec<u8>> {
    Vec::with_capacity(alloc, 100).ok()
}

// What was answered, and whether that was printed; after a fault nothing is.
fn judged(answer: &'static str, output: &[u8], wanted: &[u8]) -> Told {
    let stands = if answer == "ok" {
        output == wanted
    } else {
        output.is_empty()
    };
    Told::standing(answer, stands)
}

fn ended_with(alloc: Global, input: &[u8], wanted: &[u8]) -> Option<Told> {
    let mut output = output(alloc)?;
    let mut reader = Watched::new(input);
    let mut writer = Watched::new(&mut output);
    begin(alloc);
    let status = program(alloc, &mut reader, &mut writer);
    end(alloc);
    let answer = if status == ExitCode::SUCCESS {
        "ok"
    } else if status == ExitCode::from(3) {
        "3"
    } else {
        "another"
    };
    let told = judged(answer, &output, wanted);
    Some(Told { status, ..told })
}

fn path_program(alloc: Global) -> Option<Told> {
    let input = question(alloc)?;
    let told = ended_with(alloc, input.as_bytes(), ACCEPTED);
    drop(input);
    told
}

fn list_program(alloc: Global) -> Option<Told> {
    ended_with(alloc, REVOKED, YES)
}

fn router_octets(alloc: Global) -> Option<Bytes> {
    signed(alloc, router(alloc)?)
}

fn router_validated(alloc: Global, issuer: &ResourceCert, now: Time) -> Option<Told> {
    let octets = router_octets(alloc)?;
    called!(
        alloc,
        validate_router(alloc, &octets, issuer, None, true, now, &StandIn)
    )
}

fn judged_of(alloc: Global, members: &[Member<'_>], last: Kind) -> Option<Told> {
    let (now, path) = new_year().zip(GivenPath::of(members, last))?;
    called!(
        alloc,
        judge(alloc, &path, &NobodyAsked, true, now, &StandIn)
    )
}

fn judged_as(alloc: Global, strings: &[Bytes], last: Kind) -> Option<Told> {
    let members = Member::of_each(alloc, strings).ok()?;
    let told = judged_of(alloc, &members, last);
    drop(members);
    told
}

fn path_judged(alloc: Global) -> Option<Told> {
    let authorities = shared(alloc, FIRST).zip(shared(alloc, SECOND));
    let (anchor, (first, second)) = shared(alloc, NUMBERS).zip(authorities)?;
    judged_as(alloc, &[anchor, first, second], Kind::Authority)
}

// The path of an anchor and a router below it.
fn router_judged(alloc: Global) -> Option<Told> {
    let (anchor, router) = shared(alloc, ANCHOR).zip(router_octets(alloc))?;
    judged_as(alloc, &[anchor, router], Kind::Router)
}

// ---- step by step

type Steps<'a> = Validator<'a, 'a, NobodyAsked, StandIn>;

fn steps<'a>(alloc: Global, now: Time) -> Steps<'a> {
    Validator {
        alloc,
        asked: &NobodyAsked,
        strict: true,
        at: now,
        verifier: &StandIn,
    }
}

fn anchor_step(alloc: Global) -> Option<Told> {
    let steps = steps(alloc, new_year()?);
    let (octets, tal) = shared(alloc, NUMBERS).zip(locator(alloc))?;
    called!(
        alloc,
        steps.trust_anchor(&Member::of(&octets), tal),
        holder => holder.tal().name() == "example"
    )
}

fn member_step(alloc: Global, issuer: &ResourceCert, now: Time) -> Option<Told> {
    let octets = shared(alloc, FIRST)?;
    let steps = steps(alloc, now);
    called!(
        alloc,
        steps.member(issuer, &Member::of(&octets), Role::Authority),
        holder => holder.as_resources().contains(Asn::from(10))
    )
}

fn router_step(alloc: Global, issuer: &ResourceCert, now: Time) -> Option<Told> {
    let octets = router_octets(alloc)?;
    let steps = steps(alloc, now);
    called!(
        alloc,
        steps.router(&Member::of(&octets), issuer),
        cert => cert.as_tbs().serial_number() == Serial::from(10u64)
    )
}

fn below(alloc: Global, path: &str, issuer: &ResourceCert, now: Time) -> Option<Told> {
    match path {
        "rpki_path::Validator::member" => member_step(alloc, issuer, now),
        "rpki_path::Validator::router" => router_step(alloc, issuer, now),
        "rpki_path::validate_router" => router_validated(alloc, issuer, now),
        _ => None,
    }
}

// Below the anchor of these digits.
fn below_anchor(alloc: Global, path: &str, digits: &str) -> Option<Told> {
    let now = new_year()?;
    let issuer = anchor(alloc, digits, now)?;
    let told = below(alloc, path, &issuer, now);
    drop(issuer);
    told
}

fn of_paths(alloc: Global, path: &str) -> Option<Told> {
    match path {
        "rpki_path::judge" => path_judged(alloc),
        "rpki_path::judge/router" => router_judged(alloc),
        "rpki_lines::program" => path_program(alloc),
        "rpki_lines::program/revoked" => list_program(alloc),
        _ => None,
    }
}

/// The calls of `rpki_path` and `rpki_lines`.
pub fn told(alloc: Global, path: &str) -> Option<Told> {
    match path {
        "rpki_path::Validator::trust_anchor" => anchor_step(alloc),
        "rpki_path::Validator::member" => below_anchor(alloc, path, NUMBERS),
        "rpki_path::Validator::router" => below_anchor(alloc, path, ANCHOR),
        "rpki_path::validate_router" => below_anchor(alloc, path, ANCHOR),
        _ => of_paths(alloc, path),
    }
}
