//! Paths for C.
ghost use Rattle.std.specs.Prelude.{◌≡◌};
ghost use Rattle.rpki_c.specs.Telling.{acceptance, rejection, HoldsAnswer, HoldsRanges, IsSameRoom, verdict_of, IsToldVerdict};

use crate::copying::{RpkiAsRange, RpkiIpRange, put_addresses, put_as_numbers};
use crate::faults::{NONE, of_refusal};
use crate::judging::{Accepted, judge_question};
use crate::question::RpkiQuestion;
use crate::refusal::Refusal;
use rpki_cert::ResourceCert;
use std::alloc::Global;

/// Room for the ranges that the last certificate of a path holds.
#[repr(C)]
#[derive(Drop)]
pub struct RpkiRoom<'c> {
    pub v4: &'c mut [RpkiIpRange],
    pub v6: &'c mut [RpkiIpRange],
    pub asn: &'c mut [RpkiAsRange],
}

/// The verdict on a path.
#[repr(C)]
#[derive(Clone, Copy)]
pub struct RpkiVerdict {
    /// 0 if the path is accepted; else the number of the error.
    pub fault: u32,
    /// The path index of the first wrong certificate; the trust anchor's is 0.
    pub index: u32,
    /// How many ranges of IPv4, IPv6 and AS numbers the last certificate holds (for a router: the
    /// one above it).
    pub v4: u64,
    pub v6: u64,
    pub asn: u64,
}

fn rejected_as(fault: u32, index: u32) -> RpkiVerdict
    ensures { result ≡ rejection fault index }
{
    RpkiVerdict {
        fault,
        index,
        v4: 0,
        v6: 0,
        asn: 0,
    }
}

fn accepted(holder: &ResourceCert, room: &mut RpkiRoom<'_>) -> RpkiVerdict
    ensures verdict { result ≡ acceptance holder.now }
    ensures held { HoldsRanges holder.now room.old room.new }
    ensures room { IsSameRoom room.old room.new }
{
    RpkiVerdict {
        fault: NONE,
        index: 0,
        v4: put_addresses(holder.v4_resources(), room.v4),
        v6: put_addresses(holder.v6_resources(), room.v6),
        asn: put_as_numbers(holder.as_resources(), room.asn),
    }
}

// The verdict that the answer is to a question of so many members, with the ranges that are held.
fn verdict(
    answer: Result<Accepted, Refusal>,
    members: usize,
    room: &mut RpkiRoom<'_>,
) -> RpkiVerdict
    ensures told { result ≡ verdict_of members answer }
    ensures held { HoldsAnswer answer room.old room.new }
    ensures room { IsSameRoom room.old room.new }
{
    match answer {
        Ok(it) => {
            let out = accepted(&it.judged.holder, room);
            drop(it);
            out
        }
        Err(refusal) => {
            let out = rejected_as(of_refusal(&refusal), refusal.index(members));
            drop(refusal);
            out
        }
    }
}

/// Answers a question about a path, with real signatures (RSASSA-PKCS1-v1_5 with SHA-256). Writes
/// the ranges that the last member holds (of a router: the one above it), as many as there is room
/// for. Answers the verdict's fault.
#[unsafe(no_mangle)]
pub extern "C" fn rpki_path_validate(
    alloc: Global,
    question: &RpkiQuestion<'_>,
    room: &mut RpkiRoom<'_>,
    out: &mut RpkiVerdict,
) -> u32
    ensures verdict { IsToldVerdict question.now room.old room.new out.new }
    ensures answered { result ≡ out.new.fault }
    ensures room { IsSameRoom room.old room.new }
{
    let answer = judge_question(alloc, question);
    *out = verdict(answer, question.members.lengths.len(), room);
    out.fault
}
