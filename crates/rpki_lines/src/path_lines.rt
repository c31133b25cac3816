//! The lines of a question about a path.
ghost use Rattle.std.specs.Prelude.{◌<◌, ℕ, Bool, List, [], ◌∷◌, Some, None, IfOk, IfSome, IfNone};
ghost use Rattle.std.specs.List.{AllZip};
ghost use Rattle.rpki_der.specs.Times.{Moment};
ghost use Rattle.rpki_lines.specs.InputLines.{IsMomentLine, IsInputLine, at_moment, strictness};
ghost use Rattle.rpki_lines.specs.InputLines.{anchor as anchor_line};
ghost use Rattle.rpki_lines.specs.Questions.{member_line, IsReadBehind};

use crate::input::Input;
use crate::lines::{behind, octets_behind, split_line};
use bytes::Bytes;
use rpki_der::Time;
use rpki_path::Leaf;
use std::alloc::{AllocError, Global};

const STRICT: &[u8] = b"strict";

const LENIENT: &[u8] = b"lenient";

/// The strings of a path, and how they are to be validated.
#[derive(Drop)]
pub(crate) struct PathQuestion {
    pub(crate) now: Time,
    pub(crate) strict: bool,
    pub(crate) anchor: Bytes,
    pub(crate) cas: Vec<Bytes>,
    pub(crate) leaf: Option<Leaf>,
}

/// Reads the time of a line `at YYYYMMDDhhmmss`.
pub(crate) fn moment_from(line: &[u8]) -> Option<Time>
    ensures some { IfSome result (λ now. IsMomentLine now line.now) }
    ensures none { IfNone result ((now : Moment) → IsMomentLine now line.now → ⊥) }
{
    Time::from_digits(behind(b"at ", line)?)
}

// Whether a line is `strict` or `lenient`.
fn strictness_from(line: &[u8]) -> Option<bool>
    ensures some { IfSome result (λ strict. IsInputLine (strictness strict) line.now) }
    ensures none { IfNone result ((strict : Bool) → IsInputLine (strictness strict) line.now → ⊥) }
{
    if line == STRICT {
        Some(true)
    } else if line == LENIENT {
        Some(false)
    } else {
        None
    }
}

/// A string below the trust anchor.
#[derive(Drop)]
pub(crate) enum Member {
    Authority(Bytes),
    Last(Leaf),
}

// The string of a line `ca HEX`, `ee HEX` or `detached HEX`.
fn member_from(alloc: Global, line: &[u8]) -> Result<Option<Member>, AllocError>
    ensures some { IfOk result (λ found.
        IfSome found (λ member. IsInputLine (member_line member) line.now)) }
    ensures none { IfOk result (λ found.
        IfNone found ((member : Member) → IsInputLine (member_line member) line.now → ⊥)) }
{
    if let Some(octets) = octets_behind(alloc, b"ca ", line)? {
        return Ok(Some(Member::Authority(octets)));
    }
    if let Some(octets) = octets_behind(alloc, b"ee ", line)? {
        return Ok(Some(Member::Last(Leaf::Ee(octets))));
    }
    let Some(octets) = octets_behind(alloc, b"detached ", line)? else {
        return Ok(None);
    };
    Ok(Some(Member::Last(Leaf::DetachedEe(octets))))
}

// The lines from the fourth on: those of the strings below the trust anchor.
fn members_from(
    alloc: Global,
    now: Time,
    strict: bool,
    anchor: Bytes,
    text: &[u8],
) -> Result<Input, AllocError>
    ensures { (before : List (List ℕ))
        → AllZip IsInputLine (at_moment now ∷ strictness strict ∷ anchor_line anchor ∷ []) before
        → IfOk result (IsReadBehind before text.now) }
{
    let mut cas = Vec::new(alloc);
    let mut rest = text;
    while let Some((line, others)) = split_line(rest) {
        rest = others;
        match member_from(alloc, line)? {
            Some(Member::Authority(octets)) => cas.push(octets)?,
            Some(Member::Last(leaf)) => {
                let leaf = Some(leaf);
                if !rest.is_empty() {
                    return Ok(Input::Bad(cas.len() + 5));
                }
                return Ok(Input::Path(PathQuestion {
                    now,
                    strict,
                    anchor,
                    cas,
                    leaf,
                }));
            }
            None => return Ok(Input::Bad(cas.len() + 4)),
        }
    }
    let leaf = None;
    Ok(Input::Path(PathQuestion {
        now,
        strict,
        anchor,
        cas,
        leaf,
    }))
}

// The lines from the third on: first that of the trust anchor.
fn anchor_from(alloc: Global, now: Time, strict: bool, text: &[u8]) -> Result<Input, AllocError>
    ensures { (before : List (List ℕ))
        → AllZip IsInputLine (at_moment now ∷ strictness strict ∷ []) before
        → IfOk result (IsReadBehind before text.now) }
{
    let Some((line, rest)) = split_line(text) else {
        return Ok(Input::Bad(3));
    };
    let Some(anchor) = octets_behind(alloc, b"ta ", line)? else {
        return Ok(Input::Bad(3));
    };
    members_from(alloc, now, strict, anchor, rest)
}

/// Reads the lines from the second on; the first of them says whether names are inspected strictly.
pub(crate) fn path_from(alloc: Global, now: Time, text: &[u8]) -> Result<Input, AllocError>
    ensures { (before : List (List ℕ)) → AllZip IsInputLine (at_moment now ∷ []) before
        → IfOk result (IsReadBehind before text.now) }
{
    let Some((line, rest)) = split_line(text) else {
        return Ok(Input::Bad(2));
    };
    let Some(strict) = strictness_from(line) else {
        return Ok(Input::Bad(2));
    };
    anchor_from(alloc, now, strict, rest)
}
