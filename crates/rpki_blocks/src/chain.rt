//! Sets of numbers.
ghost use Rattle.std.specs.Prelude.{◌≡◌, ◌+◌, ◌<◌, ◌≤◌, ◌↔◌, IsTrue, IsFalse, IfOk, List, [], length, vec_len, vec_capacity};
ghost use Rattle.rpki_blocks.specs.Sets.{is_in, IsSet, IsIntersection, AreIn, Escapes, HaveSameNumbers, Block as Span};
ghost use Rattle.std.specs.Slice.Iter.{iter_rest};
ghost use Rattle.std.specs.Iterator.{IsFinite, Drains};

use crate::addr::Addr;
use crate::asn::Asn;
use crate::block::Block;
use crate::bound::{Bound, is_below};
use std::alloc::{AllocError, Global};
use std::marker::Model;
use std::slice::Iter;
use std::sync::Arc;

// The blocks of a set: those that it shares with its copies, or its own, which a copy copies.
enum Kept<B: Bound> {
    Shared(Arc<Vec<Block<B>>>),
    Own(Vec<Block<B>>),
}

/// A set of numbers, as blocks in ascending order that neither overlap nor touch. So equal sets
/// have equal blocks.
pub struct Chain<B: Bound> {
    blocks: Kept<B>,
}

// Not derived, so that it is a call, and no `match` wherever a set is dropped.
impl<B: Bound> Drop for Chain<B> {
    fn drop(self) {
        let Chain { blocks } = self;
        match blocks {
            Kept::Shared(shared) => drop(shared),
            Kept::Own(own) => drop(own),
        }
    }
}

/// A set of IP addresses. IPv4 addresses are in the upper 32 bits.
pub type IpBlocks = Chain<Addr>;

/// A set of AS numbers.
pub type AsBlocks = Chain<Asn>;

// Returns whether blocks are a set as they stand: they ascend, and neither overlap nor touch.
fn is_set<B: Bound>(blocks: &[Block<B>]) -> bool
    ensures { IsTrue result → IsSet B.greatest blocks.now }
{
    if blocks.is_empty() {
        return true;
    }
    // Called for what it ensures alone.
    blocks[0].known();
    // Proofs name the loop by its label.
    'check: for i in 0..blocks.len() - 1 {
        if blocks[i].reaches(blocks[i + 1]) {
            return false;
        }
    }
    true
}

// Makes blocks a set in place: those that aren't one are sorted and merged.
pub(crate) fn merge<B: Bound>(blocks: &mut Vec<Block<B>>)
    ensures union { HaveSameNumbers blocks.new.items blocks.old.items }
    ensures set { IsSet B.greatest blocks.new.items }
    ensures fewer { vec_len blocks.new ≤ vec_len blocks.old }
    ensures capacity { vec_capacity blocks.new ≡ vec_capacity blocks.old }
{
    if !is_set(blocks) {
        sort_and_merge(blocks);
    }
}

// Sorts blocks and merges them in place.
fn sort_and_merge<B: Bound>(blocks: &mut Vec<Block<B>>)
    ensures union { HaveSameNumbers blocks.new.items blocks.old.items }
    ensures set { IsSet B.greatest blocks.new.items }
    ensures fewer { vec_len blocks.new ≤ vec_len blocks.old }
    ensures capacity { vec_capacity blocks.new ≡ vec_capacity blocks.old }
{
    if blocks.is_empty() {
        return;
    }
    blocks.sort_unstable_by(|x, y| x.order(y));
    let mut last = blocks[0];
    // Called for what it ensures alone.
    last.known();
    let mut kept = 0;
    // Proofs name the loop by its label.
    'merge: for i in 1..blocks.len() {
        let next = blocks[i];
        if last.reaches(next) {
            last = last.join(next);
        } else {
            blocks[kept] = last;
            kept += 1;
            last = next;
        }
    }
    blocks[kept] = last;
    blocks.truncate(kept + 1);
}

impl<B: Bound> Model for Chain<B> {
    ghost use Rattle.std.specs.Prelude.{List};
    ghost use Rattle.rpki_blocks.specs.Sets.{Block as Span, IsSet};

    ghost Value = { List Span };

    ghost use Rattle.rpki_blocks.specs.Sets.Views.{blocks_of};

    ghost view = { λ c. blocks_of c.blocks };

    ghost invariant = { λ c. IsSet B.greatest (blocks_of c.blocks) };
}

impl<B: Bound> Chain<B> {
    /// Makes the empty set.
    pub fn empty(alloc: Global) -> Chain<B>
        ensures { result ≡ [] }
    {
        Chain {
            blocks: Kept::Own(Vec::new(alloc)),
        }
    }

    /// Makes the set of the numbers of some blocks, which may be in any order, overlap and touch.
    /// The iterator must be finite.
    ///
    /// # Errors
    ///
    /// Returns an error if memory runs out.
    pub fn from_iter<I: IntoIterator<Item = Block<B>>>(
        alloc: Global,
        blocks: I,
    ) -> Result<Chain<B>, AllocError>
        requires { (it : I.IntoIter) → I.into_iter_gives blocks it →
            I.IntoIter.can_next it × IsFinite (I.IntoIter.remaining it) }
        ensures union { IfOk result (λ chain.
            (it : I.IntoIter) × (bs : List Span) × I.into_iter_gives blocks it
            × Drains I.IntoIter.next_gives it bs × HaveSameNumbers chain bs) }
        ensures set { IfOk result (IsSet B.greatest) }
    {
        let all: Vec<Block<B>> = Vec::from_iter(alloc, blocks)?;
        Ok(Chain::from_blocks(all))
    }

    // Makes the set of blocks that are one as they stand. Its copies share them.
    fn of_set(blocks: Vec<Block<B>>) -> Result<Chain<B>, AllocError>
        requires { IsSet B.greatest blocks.items }
        ensures same { IfOk result (λ set. set ≡ blocks.items) }
        ensures set { IfOk result (IsSet B.greatest) }
    {
        if blocks.is_empty() {
            return Ok(Chain {
                blocks: Kept::Own(blocks),
            });
        }
        let shared = Arc::new(*blocks.allocator(), blocks)?;
        Ok(Chain {
            blocks: Kept::Shared(shared),
        })
    }

    // Makes the set one whose copies share its blocks.
    pub(crate) fn into_shared(self) -> Result<Chain<B>, AllocError>
        ensures same { IfOk result (λ set. set ≡ self) }
        ensures set { IfOk result (IsSet B.greatest) }
    {
        let Chain { blocks } = self;
        match blocks {
            Kept::Shared(blocks) => Ok(Chain {
                blocks: Kept::Shared(blocks),
            }),
            Kept::Own(blocks) => Ok(Chain::of_set(blocks)?),
        }
    }

    // The blocks.
    fn blocks(&self) -> &[Block<B>]
        ensures value { result.now ≡ self.now }
        ensures set { IsSet B.greatest result.now }
    {
        match &self.blocks {
            Kept::Shared(blocks) => blocks,
            Kept::Own(blocks) => blocks,
        }
    }

    // Makes the set of blocks in a vector, which is merged in place. Where few are kept, the rest
    // of the room is given back.
    pub(crate) fn from_blocks(mut blocks: Vec<Block<B>>) -> Chain<B>
        ensures union { HaveSameNumbers result blocks.items }
        ensures set { IsSet B.greatest result }
    {
        merge(&mut blocks);
        if blocks.len() < blocks.capacity() / 4 {
            blocks.shrink_to_fit();
        }
        Chain {
            blocks: Kept::Own(blocks),
        }
    }

    /// Clones the set. The copy is equal. Copies share their blocks.
    ///
    /// # Errors
    ///
    /// Returns an error if memory runs out.
    pub fn try_clone(&self, alloc: Global) -> Result<Chain<B>, AllocError>
        ensures same { IfOk result (λ copy. copy ≡ self.now) }
        ensures set { IfOk result (IsSet B.greatest) }
    {
        match &self.blocks {
            Kept::Shared(blocks) => Ok(Chain {
                blocks: Kept::Shared(blocks.clone()?),
            }),
            Kept::Own(own) => {
                let mut blocks = Vec::new(alloc);
                blocks.extend_from_slice(own)?;
                Ok(Chain::of_set(blocks)?)
            }
        }
    }

    // How many blocks it has.
    pub(crate) fn len(&self) -> usize
        ensures { result ≡ length self.now }
    {
        self.blocks().len()
    }

    /// Returns whether the set is empty.
    pub fn is_empty(&self) -> bool
        ensures { IsTrue result ↔ self.now ≡ [] }
    {
        self.blocks().is_empty()
    }

    /// Returns an iterator over the blocks of the set: ascending, disjoint and not adjacent.
    pub fn iter(&self) -> Iter<'_, Block<B>>
        ensures all { iter_rest result ≡ self.now }
        ensures set { IsSet B.greatest self.now }
    {
        self.blocks().iter()
    }

    /// Returns whether a number is in the set.
    pub fn contains(&self, at: B) -> bool
        ensures { result ≡ is_in (B.number at) self.now }
    {
        let ours = self.blocks();
        let k = ours.partition_point(|block| is_below(block.max(), at));
        k < ours.len() && !is_below(at, ours[k].min())
    }

    /// Returns whether each number of this set is in the other set.
    pub fn is_encompassed(&self, other: &Chain<B>) -> bool
        ensures inside { IsTrue result ↔ AreIn self.now other.now }
        ensures outside { IsFalse result ↔ Escapes B.greatest self.now other.now }
    {
        let ours = self.blocks();
        let theirs = other.blocks();
        let mut i = 0;
        let mut j = 0;
        // Proofs name the loop by its label.
        'walk: while i < ours.len() {
            if j == theirs.len() {
                return false;
            }
            let a = ours[i];
            let b = theirs[j];
            if b.is_before(a) {
                j += 1;
            } else if a.is_within(b) {
                i += 1;
            } else {
                return false;
            }
        }
        true
    }

    /// Returns the set of the numbers that are in both sets.
    ///
    /// # Errors
    ///
    /// Returns an error if memory runs out.
    pub fn intersection(&self, alloc: Global, other: &Chain<B>) -> Result<Chain<B>, AllocError>
        ensures both { IfOk result (IsIntersection self.now other.now) }
        ensures set { IfOk result (IsSet B.greatest) }
    {
        let ours = self.blocks();
        let theirs = other.blocks();
        let mut both = Vec::new(alloc);
        let mut i = 0;
        let mut j = 0;
        // Proofs name the loop by its label.
        'walk: while i < ours.len() && j < theirs.len() {
            let a = ours[i];
            let b = theirs[j];
            match a.meet(b) {
                Some(block) => both.push(block)?,
                None => {}
            }
            if a.ends_before(b) {
                i += 1;
            } else {
                j += 1;
            }
        }
        Ok(Chain::of_set(both)?)
    }
}
