//! Folders, the walk down through one, and what is kept of it.

use crate::asking::{Fault, Told, begin, called, end, name_of};
use crate::inputs::{ANCHOR, anchor, new_year};
use crate::making::authority;
use crate::stores::list_by;
use bytes::Bytes;
use rpki_cert::{Cert, KeyUsage, Kind, ResourceCert, Said, TbsCert};
use rpki_crl::Crl;
use rpki_folder::{
    Accepted, AllAdmitted, Bounds, Ended, Firsts, Folder, Found, FoundAnchor, IssuerStatus,
    IssuersByKey, Line, Lines, Unseen, Visitor, Walk, Walked,
};
use rpki_keys::tal::Tal;
use rpki_parts::{KeyIdentifier, StandIn};
use rpki_path::{Member, PathFault};
use rpki_tests::samples::{self, rsa, shared};
use std::alloc::Global;

// The data of an end entity of this serial below the key that the bits are.
fn leaf(alloc: Global, serial: u64, bits: &'static [u8]) -> Option<TbsCert> {
    let mut tbs = samples::bare(alloc, serial, rsa(b"b"), KeyUsage::Ee)?;
    samples::set_issuer(alloc, &mut tbs);
    tbs.set_as_resources_inherit();
    tbs.set_authority_key_identifier(Some(rsa(bits).key_identifier()));
    Some(tbs)
}

// An end entity's octets.
fn end_entity(alloc: Global, serial: u64, bits: &'static [u8]) -> Option<Bytes> {
    let made = leaf(alloc, serial, bits)?
        .into_cert(alloc, &StandIn, &rsa(bits))
        .ok()?;
    let octets = made.to_captured(alloc).ok();
    drop(made);
    octets
}

// What was answered, and whether what stands afterwards is what has to stand.
type Outcome = Option<(&'static str, bool)>;

// Lets what was changed go, and then marks the end: after an error a folder may keep room that it
// asked for, and lines keep what was told before.
fn ended_without<T: Drop>(alloc: Global, changed: T, outcome: Outcome) -> Option<Told> {
    drop(changed);
    end(alloc);
    let (answer, stands) = outcome?;
    Some(Told::standing(answer, stands))
}

// ---- what is added

// Adds these octets, if there are any.
fn put(folder: &mut Folder, octets: Option<Bytes>) -> Option<()> {
    let added = folder.add(octets?).ok();
    added.and(Some(()))
}

fn put_list(folder: &mut Folder, list: Option<Crl>) -> Option<()> {
    folder.add_list(list?).ok()
}

// A certificate that was read.
fn add_read(alloc: Global, folder: &mut Folder) -> Outcome {
    let octets = end_entity(alloc, 13, b"abc")?;
    let cert = Cert::decode_shared(alloc, octets.clone().ok()?).ok()?;
    let said = Said::of(&cert);
    drop(cert);
    begin(alloc);
    let answer = folder.add_cert(octets, said);
    Some((name_of(&answer), true))
}

fn add_list(alloc: Global, folder: &mut Folder) -> Outcome {
    let list = list_by(alloc, b"abc")?;
    begin(alloc);
    let answer = folder.add_list(list);
    Some((name_of(&answer), true))
}

fn added(alloc: Global, is_list: bool) -> Option<Told> {
    let mut folder = Folder::new(alloc);
    let outcome = if is_list {
        add_list(alloc, &mut folder)
    } else {
        add_read(alloc, &mut folder)
    };
    ended_without(alloc, folder, outcome)
}

// The certificate of a folder, read again.
fn first_read(alloc: Global, folder: &Folder) -> Option<Told> {
    let filed = folder.certs().first()?;
    let key = rsa(b"b").key_identifier();
    called!(
        alloc,
        filed.cert(alloc),
        cert => cert.as_tbs().subject_key_identifier() == key
    )
}

fn of_folder(alloc: Global, path: &str, folder: &mut Folder) -> Option<Told> {
    let filled = put(folder, end_entity(alloc, 13, b"abc"));
    let told = match path {
        "rpki_folder::Filed::cert" => first_read(alloc, folder),
        _ => called!(alloc, Firsts::of(alloc, folder), firsts => firsts.first_of(0) == 0),
    };
    filled.and(told)
}

fn filed(alloc: Global, path: &str) -> Option<Told> {
    let mut folder = Folder::new(alloc);
    let told = of_folder(alloc, path, &mut folder);
    drop(folder);
    told
}

// ---- lines

// How many CAs stand above an accepted certificate; 8 where it was rejected below the trust anchor,
// and 9 where nothing was told.
fn kept(lines: &Lines, place: usize) -> usize {
    match lines.as_slice().get(place) {
        Some(Line::Accepted(paths)) => paths.first.above.len(),
        Some(Line::Rejected(1, PathFault::Revocation(_))) => 8,
        Some(Line::Unseen) => 9,
        _ => 10,
    }
}

fn tell(alloc: Global, lines: &mut Lines, issuer: &ResourceCert) -> Outcome {
    let accepted = Accepted {
        holder: issuer,
        router: None,
    };
    begin(alloc);
    let answer = lines.tell(&[7], 0, Ok(accepted));
    let is_told = kept(lines, 0) == if answer.is_ok() { 1 } else { 9 };
    Some((name_of(&answer), is_told && kept(lines, 1) == 9))
}

fn line_told(alloc: Global) -> Option<Told> {
    let issuer = anchor(alloc, ANCHOR, new_year()?)?;
    let told = line_told_of(alloc, &issuer);
    drop(issuer);
    told
}

fn line_told_of(alloc: Global, issuer: &ResourceCert) -> Option<Told> {
    let mut lines = Lines::new(alloc, 2).ok()?;
    let outcome = tell(alloc, &mut lines, issuer);
    ended_without(alloc, lines, outcome)
}

// ---- issuers

// What a certificate says that names its own key as its signer's.
fn own_signer(key: KeyIdentifier) -> Said {
    Said {
        kind: Kind::EndEntity,
        key,
        signer: Some(key),
    }
}

// Whether the certificate is below a rejected one, itself at place 0.
fn is_below_itself(issuers: &IssuersByKey, key: KeyIdentifier) -> bool {
    match issuers.why_unseen(own_signer(key)) {
        Unseen::BelowRejected(place) => place == 0,
        _ => false,
    }
}

// A rejected certificate, beside none before.
fn issuer_added(alloc: Global) -> Option<Told> {
    let key = rsa(b"b").key_identifier();
    let mut issuers = IssuersByKey::new(alloc);
    begin(alloc);
    let answer = issuers.add(0, own_signer(key), IssuerStatus::Rejected);
    let is_kept = is_below_itself(&issuers, key);
    let outcome = Some((name_of(&answer), is_kept == answer.is_ok()));
    ended_without(alloc, issuers, outcome)
}

// ---- the walk

// A locator of the key with the bits `abc`, which is the anchor's.
const LOCATOR: &[u8] = b"rsync://example.com/ta.cer\n\nMBUwDQYJKoZIhvcNAQEBBQADBABhYmM=\n";

fn locator(alloc: Global) -> Option<Tal> {
    let name = String::from_str(alloc, "example").ok()?;
    Tal::read_named(alloc, name, LOCATOR, true).ok()
}

fn authority_octets(alloc: Global) -> Option<Bytes> {
    samples::signed(alloc, authority(alloc)?)
}

// An authority, an end entity below it, one below the anchor, one there that its list revokes, and
// the anchor.
fn fill(alloc: Global, folder: &mut Folder) -> Option<()> {
    let first = put(folder, authority_octets(alloc));
    let second = put(folder, end_entity(alloc, 9, b"a"));
    let third = put(folder, end_entity(alloc, 9, b"abc"));
    let fourth = put(folder, end_entity(alloc, 5, b"abc"));
    let last = put(folder, shared(alloc, ANCHOR));
    let list = put_list(folder, list_by(alloc, b"abc"));
    let other = put_list(folder, list_by(alloc, b"a"));
    first
        .and(second)
        .and(third)
        .and(fourth)
        .and(last)
        .and(list)
        .and(other)
}

// Whether the lines are those of the whole folder, or, where memory ran out, some of them.
fn are_kept(lines: &Lines, is_whole: bool) -> bool {
    let is_line = |place: usize, wanted: usize| {
        let line = kept(lines, place);
        line == wanted || !is_whole && line == 9
    };
    is_line(0, 0) && is_line(1, 1) && is_line(2, 0) && is_line(3, 8)
}

fn ended_with<E: Fault>(answer: &Result<Walked, E>, lines: &Lines) -> Outcome {
    let stands = match answer {
        Ok(walked) => walked.ended == Ended::Whole && are_kept(lines, true),
        Err(_) => are_kept(lines, false),
    };
    Some((name_of(answer), stands))
}

type Down<'w> = Walk<'w, AllAdmitted, StandIn>;

fn anchor_taken(alloc: Global, walk: &Down<'_>, tal: &Tal, anchor: &Member<'_>) -> Option<Told> {
    called!(alloc, walk.trust_anchor(tal, anchor), holder => holder.tal().name() == "example")
}

// Whether the anchor was found at its place.
fn is_anchor(found: &FoundAnchor) -> bool {
    match found {
        FoundAnchor::Valid(place, _) => *place == 4,
        FoundAnchor::Wrong(_) => false,
    }
}

fn anchor_found(alloc: Global, walk: &Down<'_>, tal: &Tal) -> Option<Told> {
    called!(alloc, walk.find_anchor(tal), found => is_anchor(found))
}

fn walk_below(alloc: Global, walk: &Down<'_>, issuer: &ResourceCert, lines: &mut Lines) -> Outcome {
    begin(alloc);
    let answer = walk.below(issuer, walk.folder.certs().len(), lines);
    let outcome = ended_with(&answer, lines);
    drop(answer);
    outcome
}

fn walked_below(alloc: Global, walk: &Down<'_>, issuer: &ResourceCert) -> Option<Told> {
    let mut lines = Lines::new(alloc, 5).ok()?;
    let outcome = walk_below(alloc, walk, issuer, &mut lines);
    ended_without(alloc, lines, outcome)
}

fn walked(alloc: Global, walk: &Down<'_>, tal: &Tal, anchor: &Member<'_>) -> Option<Told> {
    let issuer = walk.trust_anchor(tal, anchor).ok()?;
    let told = walked_below(alloc, walk, &issuer);
    drop(issuer);
    told
}

// Whether the end entity below the authority was found.
fn is_found(found: &Found) -> bool {
    match found {
        Found::Valid(path) => path.above.as_slice() == [0].as_slice(),
        Found::NotFound(_) => false,
    }
}

fn found(alloc: Global, walk: &Down<'_>, tal: &Tal, anchor: &Member<'_>) -> Option<Told> {
    called!(alloc, walk.find(tal, anchor, 1), found => is_found(found))
}

fn down(alloc: Global, path: &str, folder: &Folder, tal: &Tal) -> Option<Told> {
    let at = new_year()?;
    let octets = shared(alloc, ANCHOR)?;
    let anchor = Member::of(&octets);
    let walk = Walk {
        alloc,
        folder,
        admission: &AllAdmitted,
        bounds: Bounds { depth: 3, steps: 9 },
        names: false,
        strict: true,
        at,
        verifier: &StandIn,
    };
    match path {
        "rpki_folder::Walk::trust_anchor" => anchor_taken(alloc, &walk, tal, &anchor),
        "rpki_folder::Walk::find_anchor" => anchor_found(alloc, &walk, tal),
        "rpki_folder::Walk::below" => walked(alloc, &walk, tal, &anchor),
        "rpki_folder::Walk::find" => found(alloc, &walk, tal, &anchor),
        _ => None,
    }
}

fn down_filled(alloc: Global, path: &str, folder: &mut Folder, tal: &Tal) -> Option<Told> {
    fill(alloc, folder)?;
    down(alloc, path, folder, tal)
}

fn of_walk(alloc: Global, path: &str) -> Option<Told> {
    let tal = locator(alloc)?;
    let mut folder = Folder::new(alloc);
    let told = down_filled(alloc, path, &mut folder, &tal);
    drop(folder);
    drop(tal);
    told
}

/// The calls of `rpki_folder`.
pub fn told(alloc: Global, path: &str) -> Option<Told> {
    match path {
        "rpki_folder::Filed::cert" | "rpki_folder::Firsts::of" => filed(alloc, path),
        "rpki_folder::Lines::tell" => line_told(alloc),
        "rpki_folder::IssuersByKey::add" => issuer_added(alloc),
        "rpki_folder::Folder::add_cert" => added(alloc, false),
        "rpki_folder::Folder::add_list" => added(alloc, true),
        _ if path.starts_with("rpki_folder::Walk::") => of_walk(alloc, path),
        _ => None,
    }
}
