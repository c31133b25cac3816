//! Lists of blocks in resources of certificates (RFC 3779 2.2.3.4, 3.2.3.2).
ghost use Rattle.std.specs.Prelude.{◌≡◌, ◌+◌, ◌/◌, ◌<◌, ◌≤◌, max, ◌++◌, [], ◌∷◌, length, IfOk, OnOk, vec_len, vec_capacity};
ghost use Rattle.rpki_der.specs.Formats.{Format};
ghost use Rattle.rpki_der.specs.Place.{remaining, Keeps};
ghost use Rattle.rpki_der.specs.Place.Reading.{Took, TookOrMemory, ReturnsOrMemory, ReturnsOrMemoryBy};
ghost use Rattle.rpki_der.specs.Sequences.Reading.{Shrinks};
ghost use Rattle.rpki_blocks.specs.Resources.{listed};
ghost use Rattle.rpki_blocks.specs.Sets.{Block as Span, HaveSameNumbers, IsSet};
ghost use Rattle.rpki_blocks.specs.Unions.{resource_choice};
ghost use Rattle.rpki_blocks.specs.Unions.Reading.{merged, union_of};

use crate::block::Block;
use crate::bound::Bound;
use crate::chain::{Chain, merge};
use crate::resources::Resources;
use rpki_der::{Cursor, DecodeError, tag};
use std::alloc::{AllocError, Global};

/// A kind of numbers, and how one element of a list of them is read.
pub(crate) trait Elements {
    type End: Bound;

    /// The format of an element.
    ghost element: { Self → Format Span };

    fn take_element(&self, cursor: &mut Cursor<'_>) -> Result<Block<Self::End>, DecodeError>
        ensures reads { Took (element self.now).read cursor.old result cursor.new }
        ensures keeps { Keeps result cursor.old cursor.new };

    /// For how many blocks room is made before a sequence of so many bytes is read: for one of
    /// seven bytes each at least, which is a whole address of IPv4, and of three at most.
    fn room(&self, octets: usize) -> usize
        ensures enough { octets / 7 < result }
        ensures few { result ≤ octets / 3 + 1 };

    /// An element has bytes.
    ghost shrinks: { (kind : Self) → Shrinks (element kind).read };
}

// Merges blocks that fill their room, and makes more where that frees less than half of it, or
// where there is none. Elements of five octets are the shortest of which more than 2^7 can be
// apart, so room grows once as a rule.
fn make_room<B: Bound>(blocks: &mut Vec<Block<B>>, octets: usize) -> Result<(), AllocError>
    ensures union { HaveSameNumbers blocks.new.items blocks.old.items }
    ensures set { IsSet B.greatest blocks.new.items }
    ensures fewer { vec_len blocks.new ≤ vec_len blocks.old }
    ensures room { OnOk result (vec_len blocks.new < vec_capacity blocks.new) }
    ensures kept { vec_capacity blocks.old ≤ vec_capacity blocks.new }
    ensures few { vec_capacity blocks.new
        ≤ max (vec_capacity blocks.old) (vec_len blocks.old + octets / 5 + 1) }
{
    merge(blocks);
    if blocks.capacity() == 0 || blocks.len() > blocks.capacity() / 2 {
        blocks.reserve_exact(octets / 5 + 1)?;
    }
    Ok(())
}

// One block more, before so many octets. Room grows only where it is full.
#[inline(always)]
fn push<B: Bound>(
    blocks: &mut Vec<Block<B>>,
    block: Block<B>,
    octets: usize,
) -> Result<(), AllocError>
    ensures union { OnOk result (HaveSameNumbers blocks.new.items (blocks.old.items ++ block ∷ [])) }
    ensures len { vec_len blocks.new ≤ vec_len blocks.old + 1 }
    ensures kept { vec_capacity blocks.old ≤ vec_capacity blocks.new }
    ensures full { vec_len blocks.old < vec_capacity blocks.old
        → vec_capacity blocks.new ≡ vec_capacity blocks.old }
    ensures few { vec_capacity blocks.new
        ≤ max (vec_capacity blocks.old) (vec_len blocks.old + octets / 5 + 1) }
{
    if blocks.len() >= blocks.capacity() {
        make_room(blocks, octets)?;
    }
    blocks.push_reserved(block);
    Ok(())
}

// Blocks with the numbers of the elements that a content is a sequence of. Room is made for one of
// seven octets each at least, and for no more blocks than there are octets and one.
#[inline(always)]
fn elements_in<K: Elements>(
    alloc: Global,
    kind: &K,
    mut content: Cursor<'_>,
) -> Result<Vec<Block<K::End>>, DecodeError>
    ensures reads { ReturnsOrMemoryBy (λ v. listed (merged v.items)) result
        (union_of (K.element kind.now).read (remaining content.entry)) }
    ensures enough { IfOk result (λ v. length (remaining content.entry) / 7 < vec_capacity v) }
    ensures few { IfOk result (λ v. vec_capacity v ≤ length (remaining content.entry) + 1) }
{
    let mut blocks = Vec::with_capacity(alloc, kind.room(content.rest().len()))?;
    while !content.is_empty() {
        let block = kind.take_element(&mut content)?;
        push(&mut blocks, block, content.rest().len())?;
    }
    Ok(blocks)
}

// The set of the elements' numbers.
fn union_in<K: Elements>(
    alloc: Global,
    kind: &K,
    content: Cursor<'_>,
) -> Result<Resources<K::End>, DecodeError>
    ensures { ReturnsOrMemory result (union_of (K.element kind.now).read (remaining content.entry)) }
{
    let blocks = elements_in(alloc, kind, content)?;
    let set = Chain::from_blocks(blocks).into_shared()?;
    Ok(Resources::blocks(set))
}

/// Reads an IPAddressChoice or an ASIdentifierChoice: NULL for what the issuer has, or a SEQUENCE
/// of elements.
#[tactic(auto, unfolding(crate::specs::Unions::resource_choice))]
pub(crate) fn take_choice<K: Elements>(
    alloc: Global,
    kind: &K,
    cursor: &mut Cursor<'_>,
) -> Result<Resources<K::End>, DecodeError>
    ensures reads { TookOrMemory (resource_choice (K.element kind.now)).read cursor.old result cursor.new }
    ensures keeps { Keeps result cursor.old cursor.new }
{
    let mut ahead = cursor.fork();
    let resources = match ahead.rest() {
        [tag::SEQUENCE, ..] => union_in(alloc, kind, ahead.take_sequence()?)?,
        _ => {
            ahead.take_null()?;
            Resources::inherit()
        }
    };
    *cursor = ahead;
    Ok(resources)
}
