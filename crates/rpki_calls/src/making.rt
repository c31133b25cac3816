//! Certificates that are made.
ghost use Rattle.std.specs.Prelude.{IsTrue};
ghost use Rattle.rpki_calls.specs.Issuable.{IsIssuable};

use crate::asking::{Told, begin, called, ended};
use crate::inputs::{NUMBERS, anchor, new_year};
use rpki_blocks::{AsBlock, AsBlocks, Asn};
use rpki_cert::{IssueCaError, KeyUsage, ResourceCert, TbsCert, issue_ca, round_trip};
use rpki_der::Time;
use rpki_parts::{PublicKey, StandIn};
use rpki_path::issuing::issue_below;
use rpki_tests::samples::{self, rsa};
use std::alloc::Global;

/// The data of an authority with the key `a` under the anchor, which lists AS5 to AS20.
pub fn authority(alloc: Global) -> Option<TbsCert> {
    let mut tbs = samples::bare(alloc, 13, rsa(b"a"), KeyUsage::Ca)?;
    samples::set_authority(alloc, &mut tbs);
    let numbers = AsBlock::from((Asn::from(5), Asn::from(20)));
    let set = tbs.as_resources_from_iter(alloc, [numbers]).ok();
    set.and(Some(tbs))
}

// Whether the set has the numbers that both it and the anchor list, and no others around them.
fn holds_common(set: &AsBlocks) -> bool {
    let is_in = |number: u32| set.contains(Asn::from(number));
    !is_in(4) && is_in(5) && is_in(10) && !is_in(11)
}

type Issued = Result<ResourceCert, IssueCaError<()>>;

// What was answered, and whether what was issued holds what it has to hold.
fn judged(alloc: Global, answer: Issued) -> Option<Told> {
    let stands = match &answer {
        Ok(cert) => holds_common(cert.as_resources()),
        Err(_) => true,
    };
    Some(Told::standing(ended(alloc, answer), stands))
}

fn issued(alloc: Global, issuer: &ResourceCert, key: &PublicKey, now: Time) -> Option<Told> {
    let tbs = authority(alloc)?;
    begin(alloc);
    let answer = issue_ca(alloc, tbs, &StandIn, key, issuer, true, now, &StandIn);
    judged(alloc, answer)
}

// Whether `issue_ca` issues these fields. The stand-in has one signature of them, so that shows
// what `issue_below` wants of a signer.
fn is_issuable(
    alloc: Global,
    tbs: &TbsCert,
    key: &PublicKey,
    issuer: &ResourceCert,
    now: Time,
) -> bool
    ensures { IsTrue result → IsIssuable tbs.now key.now issuer.now now }
{
    let Ok(copy) = tbs.try_clone(alloc) else {
        return false;
    };
    match issue_ca(alloc, copy, &StandIn, key, issuer, true, now, &StandIn) {
        Ok(issued) => {
            let is_short = issued.as_cert().to_captured(alloc).is_ok();
            drop(issued);
            is_short
        }
        Err(error) => {
            drop(error);
            false
        }
    }
}

fn issued_below(alloc: Global, issuer: &ResourceCert, key: &PublicKey, now: Time) -> Option<Told> {
    let tbs = authority(alloc)?;
    if is_issuable(alloc, &tbs, key, issuer, now) {
        begin(alloc);
        let answer = issue_below(alloc, tbs, &StandIn, key, issuer, true, now, &StandIn);
        judged(alloc, answer)
    } else {
        drop(tbs);
        None
    }
}

// Under the anchor with AS1 to AS10, by either call.
fn issued_under(alloc: Global, is_below: bool) -> Option<Told> {
    let now = new_year()?;
    let issuer = anchor(alloc, NUMBERS, now)?;
    let key = rsa(b"abc");
    let told = if is_below {
        issued_below(alloc, &issuer, &key, now)
    } else {
        issued(alloc, &issuer, &key, now)
    };
    drop(key);
    drop(issuer);
    told
}

// A trust anchor's certificate that was made, and is read from its own octets.
fn read_again(alloc: Global) -> Option<Told> {
    let mut tbs = samples::anchor(alloc)?;
    tbs.set_v4_resources_inherit();
    let key = rsa(b"abc");
    let made = tbs.into_cert(alloc, &StandIn, &key);
    drop(key);
    let made = made.ok()?;
    let told = called!(alloc, round_trip::read_again(alloc, &made));
    drop(made);
    told
}

/// The calls that make certificates.
pub fn told(alloc: Global, path: &str) -> Option<Told> {
    match path {
        "rpki_cert::issue_ca" => issued_under(alloc, false),
        "rpki_path::issuing::issue_below" => issued_under(alloc, true),
        "rpki_cert::round_trip::read_again" => read_again(alloc),
        _ => None,
    }
}
