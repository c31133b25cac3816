//! Directories for C.
ghost use Rattle.std.specs.Prelude.{◌≡◌, Ok};
ghost use Rattle.rpki_keys.specs.RsaSignatures.{IsSignedByRsa};
ghost use Rattle.rpki_c.specs.FolderTelling.{anchor_place, ended_number as number_of_end, walk_of, ArePut, ArePutIn, HoldsWalk, IsToldWalk};
ghost use Rattle.rpki_c.specs.Telling.{IsSameRoom};

use crate::copying::put_items;
use crate::faults::{NONE, of_refusal};
use crate::folder_lines::RpkiLine;
use crate::folder_question::RpkiFolderQuestion;
use crate::paths::RpkiRoom;
use crate::ranges::Ranges;
use crate::refusal::Refusal;
use crate::walking::{Walked, judge_folder};
use rpki_folder::Ended;
use std::alloc::Global;

/// The end of a walk over a directory.
#[repr(C)]
#[derive(Clone, Copy)]
pub struct RpkiWalk {
    /// 0 if there was a walk; else the number of the error.
    pub fault: u32,
    /// 0 if there was no walk, 1 whole, 2 too deep, 3 out of steps.
    pub ended: u32,
    /// The index of the trust anchor's string.
    pub anchor: u64,
    /// How many ranges of IPv4, IPv6 and AS numbers the accepted certificates hold together.
    pub v4: u64,
    pub v6: u64,
    pub asn: u64,
}

fn ended_number(ended: Ended) -> u32
    ensures { result ≡ number_of_end ended }
{
    match ended {
        Ended::Whole => 1,
        Ended::TooDeep => 2,
        Ended::OutOfSteps => 3,
    }
}

// The place of the trust anchor that is wrong; 0 where another thing is.
fn wrong_anchor(refusal: &Refusal) -> u64
    ensures { result ≡ anchor_place refusal.now }
{
    match refusal {
        Refusal::NoResources(place) => *place as u64,
        Refusal::OtherName(place) => *place as u64,
        Refusal::Member(error) => error.index as u64,
        _ => 0,
    }
}

fn put_ranges(ranges: &Ranges, room: &mut RpkiRoom<'_>)
    ensures put { ArePutIn ranges.now room.old room.new }
    ensures room { IsSameRoom room.old room.new }
{
    put_items(&ranges.v4, room.v4);
    put_items(&ranges.v6, room.v6);
    put_items(&ranges.asn, room.asn);
}

// Writes the lines and the ranges, and tells how the walk ended.
fn put_walked(walked: &Walked, lines: &mut [RpkiLine], room: &mut RpkiRoom<'_>) -> RpkiWalk
    ensures told { result ≡ walk_of (Ok walked.now) }
    ensures put { ArePut (Ok walked.now) lines.old lines.new }
    ensures held { HoldsWalk (Ok walked.now) room.old room.new }
    ensures room { IsSameRoom room.old room.new }
{
    let ranges = &walked.told.ranges;
    put_items(&walked.told.lines, lines);
    put_ranges(ranges, room);
    RpkiWalk {
        fault: NONE,
        ended: ended_number(walked.ended),
        anchor: walked.anchor as u64,
        v4: ranges.v4.len() as u64,
        v6: ranges.v6.len() as u64,
        asn: ranges.asn.len() as u64,
    }
}

// What is told of the answer, with its lines and ranges.
fn put(answer: Result<Walked, Refusal>, lines: &mut [RpkiLine], room: &mut RpkiRoom<'_>) -> RpkiWalk
    ensures told { result ≡ walk_of answer }
    ensures put { ArePut answer lines.old lines.new }
    ensures held { HoldsWalk answer room.old room.new }
    ensures room { IsSameRoom room.old room.new }
{
    match answer {
        Ok(walked) => {
            let out = put_walked(&walked, lines, room);
            drop(walked);
            out
        }
        Err(refusal) => {
            let out = RpkiWalk {
                fault: of_refusal(&refusal),
                ended: 0,
                anchor: wrong_anchor(&refusal),
                v4: 0,
                v6: 0,
                asn: 0,
            };
            drop(refusal);
            out
        }
    }
}

/// Judges all certificates of a directory below the trust anchor of a TAL, with real signatures
/// (RSASSA-PKCS1-v1_5 with SHA-256, RFC 7935 2). Writes a line for each string, as many as fit; and the
/// ranges that the accepted certificates hold (for a router, those of the CA above it), as many as fit,
/// at the places that each line has.
///
/// # Errors
///
/// Returns the number of the walk's error, or 0.
///
/// # Not checked
///
/// Manifests. Names, if the question waives them.
#[unsafe(no_mangle)]
pub extern "C" fn rpki_folder_judge(
    alloc: Global,
    question: &RpkiFolderQuestion<'_>,
    lines: &mut [RpkiLine],
    room: &mut RpkiRoom<'_>,
    out: &mut RpkiWalk,
) -> u32
    ensures walk { IsToldWalk
        IsSignedByRsa question.now lines.old lines.new room.old room.new out.new }
    ensures answered { result ≡ out.new.fault }
    ensures room { IsSameRoom room.old room.new }
{
    let answer = judge_folder(alloc, question);
    *out = put(answer, lines, room);
    out.fault
}
