//! Printing of blocks and of sets of them.
ghost use Rattle.std.specs.Prelude.{◌≡◌, ◌/◌, ◌^◌, Some};
ghost use Rattle.std.specs.Fmt.{WritesOnOk};
ghost use Rattle.std.specs.Net.Addr.{IsIpv4OfBits, IsIpv6OfBits};
ghost use Rattle.rpki_blocks.specs.BlockTexts.{v4_block_text, v6_block_text, as_block_text, ip_block_text, blocks_text};
ghost use Rattle.rpki_blocks.specs.BlockTexts.Families.{address_text};

use crate::addr::Addr;
use crate::block::{AsBlock, IpBlock};
use crate::chain::{AsBlocks, IpBlocks};
use crate::encode_ip::prefix_bits;
use crate::ip_resources::Family;
use std::fmt;
use std::marker::Model;
use std::net::{Ipv4Addr, Ipv6Addr};

impl Addr {
    /// Returns the IPv4 address in the upper 32 bits. Ignores the lower 96 bits.
    pub fn to_v4(self) -> Ipv4Addr
        ensures { IsIpv4OfBits result (self / 2 ^ 96) }
    {
        Ipv4Addr::from((self.to_bits() >> 96) as u32)
    }

    /// Returns the number as an IPv6 address.
    pub fn to_v6(self) -> Ipv6Addr
        ensures { IsIpv6OfBits result self }
    {
        Ipv6Addr::from(self.to_bits())
    }
}

// An address of a family.
#[tactic(auto, unfolding(std::specs::Net::Addr::IsIpv4OfBits, std::specs::Net::Addr::IsIpv6OfBits))]
fn write_address<W: fmt::Write>(
    f: &mut fmt::Formatter<W>,
    family: Family,
    address: Addr,
) -> fmt::Result
    ensures { WritesOnOk W.write_str_gives f.old result (address_text family address) f.new }
{
    match family {
        Family::V4 => {
            let address = address.to_v4();
            write!(f, "{address}")
        }
        Family::V6 => {
            let address = address.to_v6();
            write!(f, "{address}")
        }
    }
}

// A block of addresses of a family.
fn write_ip_block<W: fmt::Write>(
    f: &mut fmt::Formatter<W>,
    family: Family,
    block: IpBlock,
) -> fmt::Result
    ensures { WritesOnOk W.write_str_gives f.old result
        (ip_block_text (address_text family) block) f.new }
{
    // Called for what it ensures alone.
    block.known();
    let min = block.min();
    let max = block.max();
    write_address(f, family, min)?;
    match prefix_bits(min.to_bits(), max.to_bits()) {
        Some(last) => {
            let length = 128 - last;
            write!(f, "/{length}")
        }
        None => {
            f.write_str("-")?;
            write_address(f, family, max)
        }
    }
}

// The blocks of a set of addresses of a family.
fn write_ip_blocks<W: fmt::Write>(
    f: &mut fmt::Formatter<W>,
    family: Family,
    blocks: &IpBlocks,
) -> fmt::Result
    ensures { WritesOnOk W.write_str_gives f.old result
        (blocks_text (ip_block_text (address_text family)) blocks.now) f.new }
{
    let mut blocks = blocks.iter();
    let Some(first) = blocks.next() else {
        return Ok(());
    };
    write_ip_block(f, family, *first)?;
    for block in blocks {
        f.write_str(", ")?;
        write_ip_block(f, family, *block)?;
    }
    Ok(())
}

/// Prints an AS number, or the two ends if there are several, as `AS64496-AS64511`.
impl fmt::Display for AsBlock {
    ghost output = { λ b. Some (as_block_text b) };

    fn fmt<W: fmt::Write>(&self, f: &mut fmt::Formatter<W>) -> fmt::Result {
        let min = self.min();
        let max = self.max();
        if min == max {
            return write!(f, "{min}");
        }
        write!(f, "{min}-{max}")
    }
}

/// Prints the blocks with a comma and a space between them, as `AS64496-AS64511, AS65536`.
impl fmt::Display for AsBlocks {
    ghost output = { λ bs. Some (blocks_text as_block_text bs) };

    fn fmt<W: fmt::Write>(&self, f: &mut fmt::Formatter<W>) -> fmt::Result {
        let mut blocks = self.iter();
        let Some(first) = blocks.next() else {
            return Ok(());
        };
        write!(f, "{first}")?;
        for block in blocks {
            write!(f, ", {block}")?;
        }
        Ok(())
    }
}

/// A block of addresses, printed as IPv4 addresses.
#[derive(Drop)]
pub struct DisplayV4Block(IpBlock);

impl Model for DisplayV4Block {
    ghost use Rattle.rpki_blocks.specs.Sets.{Block as Span};

    ghost Value = { Span };

    ghost view = { λ shown. shown.0 };
}

/// Prints a prefix, as `192.0.2.0/24`, if the block is all addresses with one. Else prints the two
/// ends, as `192.0.2.1-192.0.2.9`.
impl fmt::Display for DisplayV4Block {
    ghost output = { λ b. Some (v4_block_text b) };

    fn fmt<W: fmt::Write>(&self, f: &mut fmt::Formatter<W>) -> fmt::Result {
        write_ip_block(f, Family::V4, self.0)
    }
}

/// A block of addresses, printed as IPv6 addresses.
#[derive(Drop)]
pub struct DisplayV6Block(IpBlock);

impl Model for DisplayV6Block {
    ghost use Rattle.rpki_blocks.specs.Sets.{Block as Span};

    ghost Value = { Span };

    ghost view = { λ shown. shown.0 };
}

/// Prints a prefix, as `2001:db8::/32`, if the block is all addresses with one. Else prints the two
/// ends, as `2001:db8::1-2001:db8::9`.
impl fmt::Display for DisplayV6Block {
    ghost output = { λ b. Some (v6_block_text b) };

    fn fmt<W: fmt::Write>(&self, f: &mut fmt::Formatter<W>) -> fmt::Result {
        write_ip_block(f, Family::V6, self.0)
    }
}

impl IpBlock {
    /// Returns a value that prints the block as IPv4 addresses.
    pub fn display_v4(self) -> DisplayV4Block
        ensures { result ≡ self }
    {
        DisplayV4Block(self)
    }

    /// Returns a value that prints the block as IPv6 addresses.
    pub fn display_v6(self) -> DisplayV6Block
        ensures { result ≡ self }
    {
        DisplayV6Block(self)
    }
}

/// A set of addresses, printed as IPv4 addresses.
#[derive(Drop)]
pub struct DisplayV4Blocks<'a>(&'a IpBlocks);

impl<'a> Model for DisplayV4Blocks<'a> {
    ghost use Rattle.std.specs.Prelude.{List};
    ghost use Rattle.rpki_blocks.specs.Sets.{Block as Span};

    ghost Value = { List Span };

    ghost view = { λ shown. shown.0.now };
}

/// Prints the blocks with a comma and a space between them, as `192.0.2.0/24, 198.51.100.1/32`.
impl<'a> fmt::Display for DisplayV4Blocks<'a> {
    ghost output = { λ bs. Some (blocks_text v4_block_text bs) };

    fn fmt<W: fmt::Write>(&self, f: &mut fmt::Formatter<W>) -> fmt::Result {
        write_ip_blocks(f, Family::V4, self.0)
    }
}

/// A set of addresses, printed as IPv6 addresses.
#[derive(Drop)]
pub struct DisplayV6Blocks<'a>(&'a IpBlocks);

impl<'a> Model for DisplayV6Blocks<'a> {
    ghost use Rattle.std.specs.Prelude.{List};
    ghost use Rattle.rpki_blocks.specs.Sets.{Block as Span};

    ghost Value = { List Span };

    ghost view = { λ shown. shown.0.now };
}

/// Prints the blocks with a comma and a space between them, as `2001:db8::/32, 2001:db8:1::1/128`.
impl<'a> fmt::Display for DisplayV6Blocks<'a> {
    ghost output = { λ bs. Some (blocks_text v6_block_text bs) };

    fn fmt<W: fmt::Write>(&self, f: &mut fmt::Formatter<W>) -> fmt::Result {
        write_ip_blocks(f, Family::V6, self.0)
    }
}

impl IpBlocks {
    /// Returns a value that prints the set as IPv4 addresses.
    pub fn as_v4(&self) -> DisplayV4Blocks<'_>
        ensures { result ≡ self.now }
    {
        DisplayV4Blocks(self)
    }

    /// Returns a value that prints the set as IPv6 addresses.
    pub fn as_v6(&self) -> DisplayV6Blocks<'_>
        ensures { result ≡ self.now }
    {
        DisplayV6Blocks(self)
    }
}
