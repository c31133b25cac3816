//! How blocks of addresses are encoded.
ghost use Rattle.std.specs.Prelude.{◌≡◌, ◌+◌, ◌-◌, ◌/◌, ◌^◌, ◌<◌, ◌≤◌, ◌++◌};
ghost use Rattle.std.specs.Prelude.{ℕ, length, take, IfSome, OnErr, OnOk};
ghost use Rattle.rpki_der.specs.Writers.{SaysLong};
ghost use Rattle.rpki_blocks.specs.Sets.{between};
ghost use Rattle.rpki_blocks.specs.AddressBits.{ip_range, ip_block, IsPrefixAnswer, zero_bits, one_bits, without};

use crate::addr::Addr;
use crate::encode::Encode;
use rpki_der::{EncodeError, tag};
use std::alloc::{AllocError, Global};

impl Encode for Addr {
    ghost written = { ip_block };

    fn put_block(_alloc: Global, out: &mut Vec<u8>, min: Addr, max: Addr) -> Result<(), EncodeError>
        requires { min ≤ max }
        ensures ok { OnOk result (out.new.items ≡ out.old.items ++ ip_block (between min max)) }
        ensures err { OnErr result (take (length out.old.items) out.new.items ≡ out.old.items) }
        ensures too_long { SaysLong result (ip_block (between min max)) }
    {
        let min = min.to_bits();
        let max = max.to_bits();
        if let Some(last) = prefix_bits(min, max) {
            put_address(out, min, last)?;
            return Ok(());
        }
        put_range(out, min, max)?;
        Ok(())
    }
}

// Appends a SEQUENCE of the lower end without its last zero bits and of the upper end without its
// last one bits, or a part of it where memory runs out.
fn put_range(out: &mut Vec<u8>, min: u128, max: u128) -> Result<(), AllocError>
    ensures ok { OnOk result (out.new.items ≡ out.old.items ++ ip_range min max) }
    ensures err { OnErr result (take (length out.old.items) out.new.items ≡ out.old.items) }
{
    let low = zero_bits(min);
    let high = one_bits(max);
    out.extend_from_slice(&[tag::SEQUENCE, address_len(low) + address_len(high)])?;
    put_address(out, min, low)?;
    put_address(out, max, high)
}

// How many bits are 0 at the foot.
fn zero_bits(address: u128) -> u32
    ensures is { result ≡ zero_bits address }
    ensures most { result ≤ 128 }
{
    address.trailing_zeros()
}

// How many bits are 1 at the foot.
fn one_bits(address: u128) -> u32
    ensures is { result ≡ one_bits address }
    ensures most { result ≤ 128 }
{
    address.trailing_ones()
}

// How many bits a prefix leaves open, if these are the ends of the block of all addresses with one.
pub(crate) fn prefix_bits(min: u128, max: u128) -> Option<u32>
    requires { min ≤ max }
    ensures prefix { IsPrefixAnswer (between min max) result }
    ensures most { IfSome result (λ last. last ≤ 128) }
{
    let last = zero_bits(min).min(one_bits(max));
    if max - min == low_ones(last) {
        Some(last)
    } else {
        None
    }
}

// The number of so many one bits.
fn low_ones(count: u32) -> u128
    requires { count ≤ 128 }
    ensures { result ≡ 2 ^ count - 1 }
{
    if count == 128 {
        u128::MAX
    } else {
        (1 << count) - 1
    }
}

// How many octets of an address are written without its last bits.
fn octets_kept(last: u32) -> u8
    requires { last ≤ 128 }
    ensures octets { result ≡ (128 - last + 7) / 8 }
    ensures most { result ≤ 16 }
{
    16 - (last / 8) as u8
}

// How many octets the BIT STRING of an address without its last bits has.
fn address_len(last: u32) -> u8
    requires { last ≤ 128 }
    ensures octets { (address : ℕ) → length (without last address) ≡ result }
    ensures small { result ≤ 19 }
{
    3 + octets_kept(last)
}

// Appends the BIT STRING of an address without its last bits, or a part of it where memory runs
// out.
fn put_address(out: &mut Vec<u8>, address: u128, last: u32) -> Result<(), AllocError>
    requires { last ≤ 128 }
    ensures ok { OnOk result (out.new.items ≡ out.old.items ++ without last address) }
    ensures err { OnErr result (take (length out.old.items) out.new.items ≡ out.old.items) }
{
    if last >= 96 {
        return put_short(out, address, last);
    }
    let count = octets_kept(last);
    out.extend_from_slice(&[tag::BIT_STRING, count + 1, (last % 8) as u8])?;
    let start = out.len();
    out.extend_from_slice(&(address >> last << last).to_be_bytes())?;
    out.truncate(start + count as usize);
    Ok(())
}

// Appends the BIT STRING of an address without its last bits, where at most 32 bits stay.
fn put_short(out: &mut Vec<u8>, address: u128, last: u32) -> Result<(), AllocError>
    requires least { 96 ≤ last }
    requires most { last ≤ 128 }
    ensures ok { OnOk result (out.new.items ≡ out.old.items ++ without last address) }
    ensures err { OnErr result (out.new.items ≡ out.old.items) }
{
    let count = octets_kept(last);
    let upper = (address >> 96) as u64 >> (last - 96) << (last - 96);
    let [a, b, c, d] = (upper as u32).to_be_bytes();
    let start = out.len();
    out.extend_from_slice(&[tag::BIT_STRING, count + 1, (last % 8) as u8, a, b, c, d])?;
    out.truncate(start + 3 + count as usize);
    Ok(())
}
