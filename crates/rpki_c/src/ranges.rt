//! Ranges that several certificates hold: those of one behind those of another, or at the place that has
//! the same already.
ghost use Rattle.std.specs.Prelude.{◌≡◌, ◌++◌, length, map, IfOk, IfSome, IsTrue, OnOk};
ghost use Rattle.rpki_c.specs.HeldRanges.{KeepsItems};
ghost use Rattle.rpki_c.specs.Writing.{IsPartAt, as_struct, ip_struct};

use crate::copying::{RpkiAsRange, RpkiIpRange, as_range, ip_range};
use rpki_blocks::{AsBlock, AsBlocks, IpBlock, IpBlocks};
use rpki_cert::ResourceCert;
use std::alloc::{AllocError, Global};

/// From so many ranges on it is looked whether the same are there already: a certificate without
/// ranges of its own may hold as many as its issuer.
const MANY: usize = 32;

/// It is looked for them among so many sets of ranges, which were the last to be written.
const SETS: usize = 256;

/// Which of the ranges one certificate holds: how many of each kind, behind how many others.
#[repr(C)]
#[derive(Clone, Copy)]
pub struct RpkiHeld {
    pub v4: u64,
    pub v6: u64,
    pub asn: u64,
    pub v4_at: u64,
    pub v6_at: u64,
    pub asn_at: u64,
}

// Adds these ranges behind the others. Returns how many they are.
fn push_addresses(blocks: &IpBlocks, all: &mut Vec<RpkiIpRange>) -> Result<u64, AllocError>
    ensures count { IfOk result (λ count. count ≡ length blocks.now) }
    ensures pushed { OnOk result (all.new.items ≡ all.old.items ++ map ip_struct blocks.now) }
{
    let blocks = blocks.iter().as_slice();
    for block in blocks {
        all.push(ip_range(*block))?;
    }
    Ok(blocks.len() as u64)
}

// Adds these ranges of AS numbers behind the others. Returns how many they are.
fn push_as_numbers(blocks: &AsBlocks, all: &mut Vec<RpkiAsRange>) -> Result<u64, AllocError>
    ensures count { IfOk result (λ count. count ≡ length blocks.now) }
    ensures pushed { OnOk result (all.new.items ≡ all.old.items ++ map as_struct blocks.now) }
{
    let blocks = blocks.iter().as_slice();
    for block in blocks {
        all.push(as_range(*block))?;
    }
    Ok(blocks.len() as u64)
}

// Whether it is the range of a block.
#[tactic(auto, using(crate::proofs::Writings::same_addresses))]
fn is_range(range: &RpkiIpRange, block: IpBlock) -> bool
    ensures { IsTrue result → range.now ≡ ip_struct block }
{
    let other = ip_range(block);
    range.min == other.min && range.max == other.max
}

// Whether these ranges are at a place.
fn addresses_at(blocks: &[IpBlock], all: &[RpkiIpRange], place: usize) -> bool
    ensures { IsTrue result → IsPartAt all.now place (length blocks.now) (map ip_struct blocks.now) }
{
    if place > all.len() || blocks.len() > all.len() - place {
        return false;
    }
    let part = &all[place..place + blocks.len()];
    for at in 0..blocks.len() {
        if !is_range(&part[at], blocks[at]) {
            return false;
        }
    }
    true
}

// Where these ranges are, if it is at one of the last of these places.
fn addresses_found(blocks: &[IpBlock], all: &[RpkiIpRange], sets: &[usize]) -> Option<usize>
    ensures { IfSome result (λ place.
        IsPartAt all.now place (length blocks.now) (map ip_struct blocks.now)) }
{
    for place in &sets[sets.len().saturating_sub(SETS)..] {
        if addresses_at(blocks, all, *place) {
            return Some(*place);
        }
    }
    None
}

// Returns where these ranges are, and how many: where the same are already, or behind the others.
#[tactic(auto, using(crate::proofs::HeldLines::goes_on))]
fn place_addresses(
    blocks: &IpBlocks,
    all: &mut Vec<RpkiIpRange>,
    sets: &mut Vec<usize>,
) -> Result<(u64, u64), AllocError>
    ensures part { IfOk result (λ it.
        IsPartAt all.new.items it.0 it.1 (map ip_struct blocks.now)) }
    ensures grown { OnOk result (KeepsItems all.old.items all.new.items) }
{
    let end = all.len();
    if blocks.iter().as_slice().len() >= MANY {
        if let Some(place) = addresses_found(blocks.iter().as_slice(), all, sets) {
            return Ok((place as u64, blocks.iter().as_slice().len() as u64));
        }
        sets.push(end)?;
    }
    let count = push_addresses(blocks, all)?;
    Ok((end as u64, count))
}

// Whether it is the range of a block.
#[tactic(auto, using(crate::proofs::Writings::same_numbers))]
fn is_as_range(range: &RpkiAsRange, block: AsBlock) -> bool
    ensures { IsTrue result → range.now ≡ as_struct block }
{
    let other = as_range(block);
    range.min == other.min && range.max == other.max
}

// Whether these ranges of AS numbers are at a place.
fn as_numbers_at(blocks: &[AsBlock], all: &[RpkiAsRange], place: usize) -> bool
    ensures { IsTrue result → IsPartAt all.now place (length blocks.now) (map as_struct blocks.now) }
{
    if place > all.len() || blocks.len() > all.len() - place {
        return false;
    }
    let part = &all[place..place + blocks.len()];
    for at in 0..blocks.len() {
        if !is_as_range(&part[at], blocks[at]) {
            return false;
        }
    }
    true
}

// Where these ranges of AS numbers are, if it is at one of the last of these places.
fn as_numbers_found(blocks: &[AsBlock], all: &[RpkiAsRange], sets: &[usize]) -> Option<usize>
    ensures { IfSome result (λ place.
        IsPartAt all.now place (length blocks.now) (map as_struct blocks.now)) }
{
    for place in &sets[sets.len().saturating_sub(SETS)..] {
        if as_numbers_at(blocks, all, *place) {
            return Some(*place);
        }
    }
    None
}

// Returns where these ranges of AS numbers are, and how many: where the same are already, or behind the others.
#[tactic(auto, using(crate::proofs::HeldLines::goes_on))]
fn place_as_numbers(
    blocks: &AsBlocks,
    all: &mut Vec<RpkiAsRange>,
    sets: &mut Vec<usize>,
) -> Result<(u64, u64), AllocError>
    ensures part { IfOk result (λ it.
        IsPartAt all.new.items it.0 it.1 (map as_struct blocks.now)) }
    ensures grown { OnOk result (KeepsItems all.old.items all.new.items) }
{
    let end = all.len();
    if blocks.iter().as_slice().len() >= MANY {
        if let Some(place) = as_numbers_found(blocks.iter().as_slice(), all, sets) {
            return Ok((place as u64, blocks.iter().as_slice().len() as u64));
        }
        sets.push(end)?;
    }
    let count = push_as_numbers(blocks, all)?;
    Ok((end as u64, count))
}

/// The ranges of all certificates, and where sets of many of them begin.
#[derive(Drop)]
pub(crate) struct Ranges {
    pub(crate) v4: Vec<RpkiIpRange>,
    pub(crate) v6: Vec<RpkiIpRange>,
    pub(crate) asn: Vec<RpkiAsRange>,
    v4_sets: Vec<usize>,
    v6_sets: Vec<usize>,
    asn_sets: Vec<usize>,
}

impl Ranges {
    ghost use Rattle.std.specs.Prelude.{IfOk, OnOk};
    ghost use Rattle.rpki_c.specs.HeldRanges.{AreHeldAt, HaveGrown};

    /// There is none yet.
    pub(crate) fn new(alloc: Global) -> Ranges {
        Ranges {
            v4: Vec::new(alloc),
            v6: Vec::new(alloc),
            asn: Vec::new(alloc),
            v4_sets: Vec::new(alloc),
            v6_sets: Vec::new(alloc),
            asn_sets: Vec::new(alloc),
        }
    }

    /// Adds what a certificate holds, unless the same is there already. Returns where it is.
    pub(crate) fn add(&mut self, holder: &ResourceCert) -> Result<RpkiHeld, AllocError>
        ensures held { IfOk result (AreHeldAt holder.now self.new) }
        ensures grown { OnOk result (HaveGrown self.old self.new) }
    {
        let (v4_at, v4) = place_addresses(holder.v4_resources(), &mut self.v4, &mut self.v4_sets)?;
        let (v6_at, v6) = place_addresses(holder.v6_resources(), &mut self.v6, &mut self.v6_sets)?;
        let (asn_at, asn) = place_as_numbers(
            holder.as_resources(),
            &mut self.asn,
            &mut self.asn_sets,
        )?;
        Ok(RpkiHeld {
            v4,
            v6,
            asn,
            v4_at,
            v6_at,
            asn_at,
        })
    }
}
