//! The walk down through a folder from the trust anchor of a locator.
use crate::answer::Answer;
use crate::located::refused;
use crate::locators::locator_of;
use crate::paths::named;
use crate::words::{Words, moment};
use bytes::Bytes;
use rpki_folder::{AllAdmitted, Bounds, Ended, Folder, Line, Lines, Walk, WalkError, Walked};
use rpki_keys::tal::Tal;
use rpki_parts::{StandIn, Verifier};
use rpki_path::Member;
use std::alloc::AllocError;

// Adds the octets of the words from a place on.
fn fill(out: &mut Answer, folder: &mut Folder, words: &Words<'_>, from: usize) {
    for place in from..words.count() {
        let octets = words.bytes(out, place);
        if folder.add(octets).is_err() {
            out.fail();
        }
    }
}

// Of each certificate whether it was accepted; `-` where there was no verdict.
fn shown(out: &mut Answer, ended: &str, lines: &Lines) {
    out.text(ended);
    for line in lines.as_slice() {
        out.text(match line {
            Line::Unseen => " -",
            Line::Accepted(_) => " yes",
            Line::Rejected(_, _) => " no",
        });
    }
}

fn ended(out: &mut Answer, how: Ended, lines: &Lines) {
    match how {
        Ended::Whole => shown(out, "whole", lines),
        Ended::TooDeep => shown(out, "deep", lines),
        Ended::OutOfSteps => out.text("out"),
    }
}

fn told(out: &mut Answer, answer: Result<Walked, WalkError>, lines: &Lines) {
    match answer {
        Ok(walked) => {
            ended(out, walked.ended, lines);
            drop(walked);
        }
        Err(WalkError::Anchor(error)) => refused(out, error),
        Err(WalkError::OtherName) => out.text("refused names OtherName"),
        Err(WalkError::Memory) => out.fail(),
    }
}

// A line for each certificate of the folder.
fn lines_of(out: &Answer, folder: &Folder) -> Result<Lines, AllocError> {
    Lines::new(out.alloc(), folder.certs().len())
}

// Walks from this trust anchor as the words say.
fn walked<V: Verifier>(
    words: &Words<'_>,
    out: &mut Answer,
    folder: &Folder,
    tal: &Tal,
    anchor: &Bytes,
    verifier: &V,
) -> Option<()> {
    let at = moment(words.at(2))?;
    let Ok(mut lines) = lines_of(out, folder) else {
        out.fail();
        return None;
    };
    let walk = Walk {
        alloc: out.alloc(),
        folder,
        admission: &AllAdmitted,
        bounds: Bounds {
            depth: words.number(3) as usize,
            steps: words.number(4) as usize,
        },
        names: false,
        strict: words.is(1, "strict"),
        at,
        verifier,
    };
    let answer = walk.from_anchor(tal, &Member::of(anchor), &mut lines);
    told(out, answer, &lines);
    drop(lines);
    Some(())
}

fn below<V: Verifier>(
    words: &Words<'_>,
    out: &mut Answer,
    tal: &Tal,
    anchor: &Bytes,
    verifier: &V,
) -> Option<()> {
    let mut folder = Folder::new(out.alloc());
    fill(out, &mut folder, words, 7);
    let is_fit = walked(words, out, &folder, tal, anchor, verifier);
    drop(folder);
    is_fit
}

fn answered<V: Verifier>(words: &Words<'_>, out: &mut Answer, verifier: &V) -> Option<()> {
    let (anchor, tal) = named(out, words.at(6), "ta").zip(locator_of(words, out, 5))?;
    let is_fit = below(words, out, &tal, &anchor, verifier);
    drop(tal);
    drop(anchor);
    is_fit
}

/// Tells how the walk through a folder ended, and of each of its certificates whether it was
/// accepted, by a verifier.
pub fn judged<V: Verifier>(words: &Words<'_>, out: &mut Answer, verifier: &V) {
    if answered(words, out, verifier).is_none() {
        out.text("unfit");
    }
}

/// Tells how the walk ended and what was accepted, under the stand-in.
pub fn folder(words: &Words<'_>, out: &mut Answer) {
    judged(words, out, &StandIn);
}
