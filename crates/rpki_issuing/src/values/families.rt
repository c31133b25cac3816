//! Blocks of addresses as texts.
ghost use Rattle.std.specs.Prelude.{◌≡◌, ◌*◌, ◌+◌, ◌<◌, ◌^◌, IfSome};
ghost use Rattle.rpki_issuing.specs.BlockTexts.{IsAddressText, IsAddressesText, IsPrefix, IsAddressRange, address_bits as bits_in, size_of};
ghost use Rattle.rpki_issuing.specs.OnlyValues.{FindsOnly};

use crate::values::listing::BlockText;
use crate::values::systems::{number, parted};
use rpki_blocks::{Addr, IpBlock, Prefix};
use std::net::{Ipv4Addr, Ipv6Addr};

/// The two address families. An IPv4 address is in the upper 32 bits of an [`Addr`].
#[derive(Clone, Copy)]
pub enum Family {
    V4,
    V6,
}

// The address that a text says.
fn address(family: Family, text: &[u8]) -> Option<u128>
    ensures one { FindsOnly (λ n. IsAddressText family n text.now) result }
    ensures small { IfSome result (λ n. n < 2 ^ bits_in family) }
{
    match family {
        Family::V4 => match Ipv4Addr::parse_ascii(text) {
            Ok(address) => Some(address.to_bits() as u128),
            Err(_) => None,
        },
        Family::V6 => match Ipv6Addr::parse_ascii(text) {
            Ok(address) => Some(address.to_bits()),
            Err(_) => None,
        },
    }
}

// How many bits an address of the family has.
fn bits_of(family: Family) -> u8
    ensures { result ≡ bits_in family }
{
    match family {
        Family::V4 => 32,
        Family::V6 => 128,
    }
}

// The first address of 128 bits that begins with the address.
fn first_of(family: Family, address: u128) -> Addr
    requires { address < 2 ^ bits_in family }
    ensures { result ≡ address * size_of family }
{
    match family {
        Family::V4 => Addr::from(address * (1 << 96)),
        Family::V6 => Addr::from(address),
    }
}

// The last one.
fn last_of(family: Family, address: u128) -> Addr
    requires { address < 2 ^ bits_in family }
    ensures { result + 1 ≡ (address + 1) * size_of family }
{
    match family {
        Family::V4 => Addr::from(address * (1 << 96) + ((1 << 96) - 1)),
        Family::V6 => Addr::from(address),
    }
}

// The addresses of a prefix, by the texts of its address and of the number of its bits.
fn prefix(family: Family, before: &[u8], behind: &[u8]) -> Option<IpBlock>
    ensures { FindsOnly (λ b. IsPrefix family before.now behind.now b) result }
{
    let address = address(family, before)?;
    let count = number(behind)?;
    let bits = bits_of(family);
    if count > bits as u32 {
        return None;
    }
    let first = first_of(family, address);
    let block = IpBlock::from(Prefix::new(first.to_bits(), count as u8));
    if block.min() == first {
        Some(block)
    } else {
        None
    }
}

// The addresses from one to another, by their texts.
fn range(family: Family, before: &[u8], behind: &[u8]) -> Option<IpBlock>
    ensures { FindsOnly (λ b. IsAddressRange family before.now behind.now b) result }
{
    let first = address(family, before)?;
    let last = address(family, behind)?;
    if first > last {
        return None;
    }
    Some(IpBlock::from((first_of(family, first), last_of(family, last))))
}

/// Parses addresses: a prefix, as `192.0.2.0/24`, whose other bits are 0, or a range, as
/// `192.0.2.1-192.0.2.9`. Returns `None` if the text has another form.
pub fn addresses(family: Family, text: &[u8]) -> Option<IpBlock>
    ensures { FindsOnly (λ b. IsAddressesText family b text.now) result }
{
    if let Some(parts) = parted(b'/', text) {
        return prefix(family, parts.0, parts.1);
    }
    match parted(b'-', text) {
        Some(parts) => range(family, parts.0, parts.1),
        None => None,
    }
}

/// The texts of IPv4 addresses.
pub struct V4Texts;

impl BlockText<Addr> for V4Texts {
    ghost use Rattle.rpki_issuing.specs.declared.values.families.Family.TheVariants.{V4};

    ghost is_text = { IsAddressesText V4 };

    fn block(text: &[u8]) -> Option<IpBlock> {
        addresses(Family::V4, text)
    }
}

/// The texts of IPv6 addresses.
pub struct V6Texts;

impl BlockText<Addr> for V6Texts {
    ghost use Rattle.rpki_issuing.specs.declared.values.families.Family.TheVariants.{V6};

    ghost is_text = { IsAddressesText V6 };

    fn block(text: &[u8]) -> Option<IpBlock> {
        addresses(Family::V6, text)
    }
}
