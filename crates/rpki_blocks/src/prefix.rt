//! Prefixes of addresses.
ghost use Rattle.std.specs.Prelude.{◌≡◌, ◌+◌, ◌-◌, ◌*◌, ◌/◌, ◌^◌, ◌<◌, ◌≤◌};
ghost use Rattle.std.specs.List.{list_all};
ghost use Rattle.rpki_blocks.specs.AddressBits.{is_prefix, prefix_bits};
ghost use Rattle.rpki_blocks.specs.Prefixes.{is_v4_block};

use crate::addr::Addr;
use crate::block::{Block, IpBlock};
use crate::chain::IpBlocks;
use crate::encode_ip::prefix_bits;
use std::marker::Model;

/// A prefix: the addresses that begin with the first `len` bits of an address.
#[derive(Clone, Copy)]
pub struct Prefix {
    addr: u128,
    len: u8,
}

impl Model for Prefix {
    ghost use Rattle.std.specs.Prelude.{◌<◌, ◌≤◌, ◌^◌};
    ghost use Rattle.rpki_blocks.specs.Prefixes.{FirstBits};

    ghost Value = { FirstBits };

    ghost view = { λ p. record { addr = p.addr; len = p.len } };

    ghost invariant = { λ p. (p.addr < 2 ^ 128) × (p.len ≤ 128) };

    ghost inverse = { λ v. record { addr = v.addr; len = v.len } };
}

impl Prefix {
    /// Makes the prefix of `len` bits, at most 128. The bits of `addr` after them count as zero. An
    /// IPv4 address is in the upper 32 bits: 10.0.0.0/8 is `Prefix::new(0x0A00_0000 << 96, 8)`.
    pub fn new(addr: u128, len: u8) -> Prefix
        requires { len ≤ 128 }
        ensures address { result.addr ≡ addr }
        ensures length { result.len ≡ len }
    {
        Prefix { addr, len }
    }
}

/// Makes the block of the addresses with the prefix.
impl From<Prefix> for IpBlock {
    ghost use Rattle.rpki_blocks.specs.Prefixes.{IsPrefixBlock};

    ghost from_gives = { λ p b. IsPrefixBlock p.addr p.len b };

    fn from(prefix: Prefix) -> IpBlock {
        let (low, high) = ends(prefix.addr, prefix.len);
        Block::between(Addr::from(low), Addr::from(high))
    }
}

// The least and the greatest address with the prefix.
fn ends(addr: u128, len: u8) -> (u128, u128)
    requires { len ≤ 128 }
    ensures lower { result.0 ≡ addr / 2 ^ (128 - len) * 2 ^ (128 - len) }
    ensures upper { result.1 + 1 ≡ result.0 + 2 ^ (128 - len) }
{
    if len == 0 {
        return (0, u128::MAX);
    }
    let size = 1u128 << (128 - len);
    let low = addr / size * size;
    (low, low + (size - 1))
}

impl IpBlock {
    /// Returns whether the block consists of all addresses with some prefix.
    pub fn is_prefix(self) -> bool
        ensures { result ≡ is_prefix self (prefix_bits self) }
    {
        // Called for what it ensures alone.
        self.known();
        let min = self.min().to_bits();
        let max = self.max().to_bits();
        prefix_bits(min, max).is_some()
    }
}

impl IpBlocks {
    /// Returns whether the set consists of whole IPv4 addresses, in the upper 32 bits: in each
    /// block, the lower 96 bits of the lower end are all 0, and those of the upper end are all 1.
    pub fn is_v4(&self) -> bool
        ensures { result ≡ list_all is_v4_block self.now }
    {
        self.iter().all(|block| has_whole_v4(*block))
    }
}

fn has_whole_v4(block: IpBlock) -> bool
    ensures { result ≡ is_v4_block block }
{
    let low = block.min().to_bits() % (1 << 96);
    let high = block.max().to_bits() % (1 << 96);
    low == 0 && high == (1 << 96) - 1
}
