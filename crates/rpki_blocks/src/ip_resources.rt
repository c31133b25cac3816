//! The addresses that a certificate lists (RFC 3779 2.2.3).
ghost use Rattle.std.specs.Prelude.{◌≡◌, ◌<◌, ◌≤◌, ◌+◌, ◌-◌, ◌*◌, ◌^◌, ◌%◌, [], length, Some};
ghost use Rattle.std.specs.Int.Digits.{number_from_digits};
ghost use Rattle.rpki_der.proofs.Choices.{choice_shrinks, conversion_shrinks, content_shrinks, inside_shrinks};
ghost use Rattle.rpki_der.specs.Primitives.Reading.{bits_at, bits_of};
ghost use Rattle.rpki_der.specs.Answers.{AnswersOrMemoryBy};
ghost use Rattle.rpki_der.specs.Place.{remaining, Keeps};
ghost use Rattle.rpki_der.specs.Place.Reading.{Took, TookOrMemory, TookOrMemoryBy, Returns, ReturnsBy};
ghost use Rattle.rpki_der.specs.Reading.{optional};
ghost use Rattle.rpki_der.specs.Tags.{BIT_STRING, SEQUENCE};
ghost use Rattle.rpki_der.specs.Values.{AreOctets};
ghost use Rattle.rpki_blocks.specs.Addresses.{lower, upper, family_bits, prefix_of, ip_address_format, ip_address_ends_format, ip_address_range_format, ip_address_or_range_format};
ghost use Rattle.rpki_blocks.specs.Addresses.{family_of, ip_address_family_format, with_second, ip_addr_blocks_format};
ghost use Rattle.rpki_blocks.specs.Addresses.Views.{families_of};

use crate::addr::Addr;
use crate::block::{Block, IpBlock};
use crate::elements::{Elements, take_choice};
use crate::prefix::Prefix;
use crate::resources::IpResources;
use rpki_der::{Cursor, DecodeError, tag};
use std::alloc::Global;

/// The two families of addresses.
#[derive(Clone, Copy)]
pub(crate) enum Family {
    V4,
    V6,
}

impl Family {
    // How many bits an address has.
    fn bits(self) -> usize
        ensures { result ≡ family_bits self }
    {
        match self {
            Family::V4 => 32,
            Family::V6 => 128,
        }
    }

    // The family with this number (IANA, Address Family Numbers).
    fn from_octets(octets: &[u8]) -> Result<Family, DecodeError>
        ensures { Returns result (family_of octets.now) }
    {
        match octets {
            [0, 1] => Ok(Family::V4),
            [0, 2] => Ok(Family::V6),
            _ => Err(DecodeError::BadValue),
        }
    }
}

// The least address that begins with these octets.
#[inline(always)]
fn lower(octets: &[u8]) -> u128
    requires { length octets.now ≤ 16 }
    ensures { result ≡ lower octets.now }
{
    let mut number = 0u128;
    for octet in octets {
        number = number * 0x100 + u128::from(*octet);
    }
    match octets.len() {
        0 => 0,
        len => number << (128 - 8 * len),
    }
}

// The least IPv4 address that begins with these octets, as a number of 32 bits.
#[inline(always)]
fn v4_lower(octets: &[u8]) -> u32
    requires { length octets.now ≤ 4 }
    ensures { result * 2 ^ 96 ≡ lower octets.now }
{
    match octets {
        [] => 0,
        [a] => u32::from(*a) * 0x100_0000,
        [a, b] => u32::from(*a) * 0x100_0000 + u32::from(*b) * 0x1_0000,
        [a, b, c] => {
            u32::from(*a) * 0x100_0000 + u32::from(*b) * 0x1_0000 + u32::from(*c) * 0x100
        }
        [a, b, c, d] => {
            u32::from(*a) * 0x100_0000
                + u32::from(*b) * 0x1_0000
                + u32::from(*c) * 0x100
                + u32::from(*d)
        }
        [_, _, _, _, _, ..] => unreachable!(),
    }
}

// The IPv4 addresses that begin with the bits of a BIT STRING.
#[inline(always)]
fn v4_block(unused: u8, octets: &[u8]) -> IpBlock
    requires few { unused < 8 }
    requires none { octets.now ≡ [] → unused ≡ 0 }
    requires zero_bits { number_from_digits 256 octets.now % 2 ^ unused ≡ 0 }
    requires short { length octets.now ≤ 4 }
    ensures { result ≡ record { min = lower octets.now; max = upper unused octets.now } }
{
    let first = u64::from(v4_lower(octets));
    let size = 1u64 << (32 - 8 * octets.len() as u8 + unused);
    let last = first + (size - 1);
    let low = u128::from(first) << 96;
    let high = (u128::from(last) << 96) + ((1 << 96) - 1);
    Block::of_ends(Addr::from(low), Addr::from(high))
}

// The addresses that begin with the bits of a BIT STRING.
#[inline(always)]
fn prefix_of(bits: usize, unused: u8, octets: &[u8]) -> Result<IpBlock, DecodeError>
    requires family { bits ≤ 128 }
    requires few { unused < 8 }
    requires none { octets.now ≡ [] → unused ≡ 0 }
    requires zero_bits { number_from_digits 256 octets.now % 2 ^ unused ≡ 0 }
    ensures { Returns result (prefix_of bits (unused, octets.now)) }
{
    if bits / 8 < octets.len() {
        return Err(DecodeError::BadValue);
    }
    if bits == 32 {
        return Ok(v4_block(unused, octets));
    }
    let len = 8 * octets.len() as u8 - unused;
    Ok(IpBlock::from(Prefix::new(lower(octets), len)))
}

// The addresses that begin with the bits of the BIT STRING that stands next.
#[tactic(auto, unfolding(crate::specs::Addresses::ip_address_format))]
#[inline(always)]
fn take_address(family: Family, cursor: &mut Cursor<'_>) -> Result<IpBlock, DecodeError>
    ensures reads { Took (ip_address_format family).read cursor.old result cursor.new }
    ensures keeps { Keeps result cursor.old cursor.new }
{
    let mut ahead = cursor.fork();
    let (unused, octets) = ahead.take_bits()?;
    let block = prefix_of(family.bits(), unused, octets.rest())?;
    *cursor = ahead;
    Ok(block)
}

// A range: from the first address of one prefix to the last of another.
#[tactic(auto, unfolding(crate::specs::Addresses::ip_address_range_format))]
#[inline(always)]
fn take_range(family: Family, cursor: &mut Cursor<'_>) -> Result<IpBlock, DecodeError>
    ensures reads { Took (ip_address_range_format family).read cursor.old result cursor.new }
    ensures keeps { Keeps result cursor.old cursor.new }
{
    let mut ahead = cursor.fork();
    let mut content = ahead.take_sequence()?;
    let low = take_address(family, &mut content)?.min();
    let high = take_address(family, &mut content)?.max();
    if high < low {
        return Err(DecodeError::BadValue);
    }
    content.finish()?;
    *cursor = ahead;
    Ok(IpBlock::from((low, high)))
}

impl Elements for Family {
    type End = Addr;

    ghost element = { ip_address_or_range_format };

    #[tactic(auto, unfolding(crate::specs::Addresses::ip_address_or_range_format))]
    #[inline(always)]
    fn take_element(&self, cursor: &mut Cursor<'_>) -> Result<IpBlock, DecodeError> {
        match cursor.rest() {
            [tag::SEQUENCE, ..] => take_range(*self, cursor),
            _ => take_address(*self, cursor),
        }
    }

    // A whole address of IPv4 takes seven octets.
    fn room(&self, octets: usize) -> usize {
        octets / 7 + 1
    }

    ghost shrinks = { λ family. unfold ip_address_or_range_format ip_address_range_format ip_address_format bits_at in
        choice_shrinks SEQUENCE (ip_address_range_format family).read (ip_address_format family).read
        (inside_shrinks SEQUENCE (ip_address_ends_format family).read)
        (conversion_shrinks (prefix_of (family_bits family)) bits_at (content_shrinks BIT_STRING bits_of)) };
}

// The family that stands next, and its resources.
#[tactic(auto, unfolding(crate::specs::Addresses::ip_address_family_format))]
fn take_family(alloc: Global, cursor: &mut Cursor<'_>) -> Result<(Family, IpResources), DecodeError>
    ensures { TookOrMemory ip_address_family_format.read cursor.old result cursor.new }
{
    let mut content = cursor.take_sequence()?;
    let family = Family::from_octets(content.take_octets()?.rest())?;
    let resources = take_choice(alloc, &family, &mut content)?;
    content.finish()?;
    Ok((family, resources))
}

// The next family, if one stands next.
fn take_opt_family(
    alloc: Global,
    cursor: &mut Cursor<'_>,
) -> Result<Option<(Family, IpResources)>, DecodeError>
    ensures { TookOrMemory (optional SEQUENCE ip_address_family_format.read)
        cursor.old result cursor.new }
{
    match cursor.rest() {
        [tag::SEQUENCE, ..] => Ok(Some(take_family(alloc, cursor)?)),
        _ => Ok(None),
    }
}

// One family, or two that differ.
fn with_second(
    first: (Family, IpResources),
    second: Option<(Family, IpResources)>,
) -> Result<(Option<IpResources>, Option<IpResources>), DecodeError>
    ensures { ReturnsBy families_of result (with_second first second) }
{
    match (first, second) {
        ((Family::V4, v4), None) => Ok((Some(v4), None)),
        ((Family::V6, v6), None) => Ok((None, Some(v6))),
        ((Family::V4, v4), Some((Family::V6, v6))) => Ok((Some(v4), Some(v6))),
        ((Family::V6, v6), Some((Family::V4, v4))) => Ok((Some(v4), Some(v6))),
        _ => Err(DecodeError::BadValue),
    }
}

impl IpResources {
    // The families, by their format.
    #[tactic(auto, unfolding(crate::specs::Addresses::ip_addr_blocks_format))]
    fn read_families(
        alloc: Global,
        cursor: &mut Cursor<'_>,
    ) -> Result<(Option<IpResources>, Option<IpResources>), DecodeError>
        ensures reads { TookOrMemoryBy families_of ip_addr_blocks_format.read
            cursor.old result cursor.new }
        ensures keeps { Keeps result cursor.old cursor.new }
        ensures octets { AreOctets (remaining cursor.old) }
    {
        let mut ahead = cursor.fork();
        let mut content = ahead.take_sequence()?;
        if content.is_empty() {
            return Err(DecodeError::BadValue);
        }
        let first = take_family(alloc, &mut content)?;
        let second = take_opt_family(alloc, &mut content)?;
        content.finish()?;
        let families = with_second(first, second)?;
        *cursor = ahead;
        Ok(families)
    }

    /// Reads the next value, which must be an IPAddrBlocks of IPv4, IPv6 or both (RFC 3779 2.2.3,
    /// RFC 6487 4.8.10). Returns the IPv4 resources and the IPv6 resources. A family that does not
    /// appear is `None`, and an empty list of a family counts as missing (own). The families may be
    /// in either order, and elements may be in any order, overlap and touch (own).
    ///
    /// # Errors
    ///
    /// Returns an error as [`Cursor::take_value`], [`Cursor::take_null`] and [`Cursor::take_bits`]
    /// do, for each value inside too. Returns these errors as well:
    ///
    /// - `BadValue`: no family appears, a family appears twice, or a family is neither IPv4 nor
    ///   IPv6 or has a SAFI.
    /// - `BadValue`: an element has more bits than an address of its family, or a lower end is
    ///   above its upper end.
    /// - `Trailing`: bytes remain after the second family, or inside a value.
    /// - `Memory`: memory runs out.
    ///
    /// # Not checked
    ///
    /// Whether the issuer has the addresses.
    #[tactic(auto, using(rpki_der::proofs::FormatAnswers::answers_or_memory_alone, crate::proofs::AddressReads::ip_alone))]
    pub fn take_families_from(
        alloc: Global,
        cursor: &mut Cursor<'_>,
    ) -> Result<(Option<IpResources>, Option<IpResources>), DecodeError>
        ensures { AnswersOrMemoryBy families_of ip_addr_blocks_format
            cursor.old result cursor.new }
    {
        IpResources::read_families(alloc, cursor)
    }
}
