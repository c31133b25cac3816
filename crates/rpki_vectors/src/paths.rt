//! Whole paths.
use crate::answer::Answer;
use crate::validating::{held, tal};
use crate::words::{Words, bytes, moment};
use bytes::Bytes;
use rpki_cert::{Kind, ResourceCert};
use rpki_der::Time;
use rpki_parts::{StandIn, Verifier};
use rpki_path::{GivenPath, Leaf, Member, PathError, PathFault, first_unchained, validate_path};

/// Returns the octets behind `NAME:` of a word.
pub fn named(out: &mut Answer, word: &str, name: &str) -> Option<Bytes> {
    let (before, digits) = word.split_once(':')?;
    if before == name {
        Some(bytes(out, digits))
    } else {
        None
    }
}

/// Returns the CAs among the words from a place on.
pub fn authorities(out: &mut Answer, words: &Words<'_>, from: usize) -> Vec<Bytes> {
    let mut found: Vec<Bytes> = Vec::new(out.alloc());
    for place in from..words.count() {
        if let Some(octets) = named(out, words.at(place), "ca") {
            if found.push(octets).is_err() {
                out.fail();
            }
        }
    }
    found
}

/// Returns the leaf, where the last word is one.
pub fn leaf(out: &mut Answer, words: &Words<'_>) -> Option<Leaf> {
    let last = words.at(words.count().wrapping_sub(1));
    if let Some(octets) = named(out, last, "ee") {
        return Some(Leaf::Ee(octets));
    }
    named(out, last, "detached").map(|octets| Leaf::DetachedEe(octets))
}

/// Appends the member that was refused, and why.
pub fn refused(out: &mut Answer, error: PathError) {
    out.text("refused ");
    out.count(error.index);
    match &error.fault {
        PathFault::Decode(_) => out.text(" decode"),
        PathFault::Inspect(fault) => {
            out.text(" inspect ");
            out.name(fault.name());
        }
        PathFault::Verify(fault) => {
            out.text(" verify ");
            out.name(fault.name());
        }
        PathFault::Revocation(fault) => {
            out.text(" revocation ");
            out.name(fault.name());
        }
        PathFault::Memory => out.fail(),
    }
    drop(error);
}

/// Appends what was answered of a path.
pub fn validated(out: &mut Answer, answer: Result<ResourceCert, PathError>) {
    match answer {
        Ok(cert) => {
            held(out, &cert);
            drop(cert);
        }
        Err(error) => refused(out, error),
    }
}

fn answered<V: Verifier>(
    out: &mut Answer,
    words: &Words<'_>,
    mode: &str,
    now: Time,
    verifier: &V,
) -> Option<()> {
    let (tal, anchor) = tal(out).zip(named(out, words.at(3), "ta"))?;
    let cas = authorities(out, words, 4);
    let leaf = leaf(out, words);
    let strict = mode == "strict";
    let answer = validate_path(out.alloc(), &anchor, &cas, leaf, tal, strict, now, verifier);
    validated(out, answer);
    Some(())
}

/// Appends what the path of the words behind the third answers, in a mode, at a moment and by a
/// verifier.
pub fn judged<V: Verifier>(
    words: &Words<'_>,
    out: &mut Answer,
    mode: &str,
    at: &str,
    verifier: &V,
) {
    let answer = match moment(at) {
        Some(now) => answered(out, words, mode, now, verifier),
        None => None,
    };
    if answer.is_none() {
        out.text("unfit");
    }
}

/// Tells what the last member of a path holds, or which member is rejected, and why, under the
/// stand-in.
pub fn path(words: &Words<'_>, out: &mut Answer) {
    judged(words, out, words.at(1), words.at(2), &StandIn);
}

// The octets of all members among the words, the first of which is the question's.
fn strings(out: &mut Answer, words: &Words<'_>) -> Vec<Bytes> {
    let mut found: Vec<Bytes> = Vec::new(out.alloc());
    for place in 1..words.count() {
        if let Some((_, digits)) = words.at(place).split_once(':') {
            let octets = bytes(out, digits);
            if found.push(octets).is_err() {
                out.fail();
            }
        }
    }
    found
}

// The kind of the last member.
fn last_kind(words: &Words<'_>) -> Kind {
    let last = words.at(words.count().wrapping_sub(1));
    match last.split_once(':') {
        Some(("ta", _)) => Kind::Anchor,
        Some(("ee", _)) => Kind::EndEntity,
        Some(("detached", _)) => Kind::Detached,
        Some(("router", _)) => Kind::Router,
        _ => Kind::Authority,
    }
}

fn names_told(out: &mut Answer, answer: Result<Option<usize>, PathError>) {
    match answer {
        Ok(None) => out.text("chain"),
        Ok(Some(place)) => {
            out.text("unchained ");
            out.count(place);
        }
        Err(error) => refused(out, error),
    }
}

fn names_of(out: &mut Answer, members: &[Member<'_>], last: Kind) {
    match GivenPath::of(members, last) {
        Some(path) => {
            let answer = first_unchained(out.alloc(), &path);
            names_told(out, answer);
        }
        None => out.text("unfit"),
    }
}

/// Tells whether the names of a path chain, the place of the first member whose names don't, or
/// that of the first that isn't read.
pub fn names(words: &Words<'_>, out: &mut Answer) {
    let strings = strings(out, words);
    match Member::of_each(out.alloc(), &strings) {
        Ok(members) => {
            names_of(out, &members, last_kind(words));
            drop(members);
        }
        Err(_) => out.fail(),
    }
}
