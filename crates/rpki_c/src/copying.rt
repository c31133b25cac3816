//! Bytes, and ranges of addresses and AS numbers, in the caller's memory.
ghost use Rattle.std.specs.Prelude.{◌≡◌, ◌++◌, length, map, take, drop};
ghost use Rattle.rpki_c.specs.Writing.{written_over, ip_struct, as_struct};

use rpki_blocks::{AsBlock, AsBlocks, IpBlock, IpBlocks};

/// A range of addresses of 16 bytes each. An IPv4 address is in the first four bytes.
#[repr(C)]
#[derive(Clone, Copy)]
pub struct RpkiIpRange {
    pub min: [u8; 16],
    pub max: [u8; 16],
}

/// A range of AS numbers.
#[repr(C)]
#[derive(Clone, Copy)]
pub struct RpkiAsRange {
    pub min: u32,
    pub max: u32,
}

/// The range, as the caller's memory has it.
pub(crate) fn ip_range(block: IpBlock) -> RpkiIpRange
    ensures { result ≡ ip_struct block }
{
    RpkiIpRange {
        min: block.min().to_bits().to_be_bytes(),
        max: block.max().to_bits().to_be_bytes(),
    }
}

/// The range of AS numbers, as the caller's memory has it.
pub(crate) fn as_range(block: AsBlock) -> RpkiAsRange
    ensures { result ≡ as_struct block }
{
    RpkiAsRange {
        min: block.min().into_u32(),
        max: block.max().into_u32(),
    }
}

/// Writes as many ranges as fit, and returns how many there are.
pub(crate) fn put_addresses(blocks: &IpBlocks, out: &mut [RpkiIpRange]) -> u64
    ensures count { result ≡ length blocks.now }
    ensures written { out.new ≡ written_over (map ip_struct blocks.now) out.old }
{
    let blocks = blocks.iter().as_slice();
    for at in 0..blocks.len().min(out.len()) {
        out[at] = ip_range(blocks[at]);
    }
    blocks.len() as u64
}

/// Writes as many ranges of AS numbers as fit, and returns how many there are.
pub(crate) fn put_as_numbers(blocks: &AsBlocks, out: &mut [RpkiAsRange]) -> u64
    ensures count { result ≡ length blocks.now }
    ensures written { out.new ≡ written_over (map as_struct blocks.now) out.old }
{
    let blocks = blocks.iter().as_slice();
    for at in 0..blocks.len().min(out.len()) {
        out[at] = as_range(blocks[at]);
    }
    blocks.len() as u64
}

/// Writes as many items as there is room for, and tells how many there are.
pub(crate) fn put_items<T: Copy>(from: &[T], out: &mut [T]) -> u64
    ensures count { result ≡ length from.now }
    ensures written { out.new ≡ written_over from.now out.old }
{
    let fit = from.len().min(out.len());
    out[..fit].copy_from_slice(&from[..fit]);
    from.len() as u64
}

/// Writes as many octets as there is room for, and tells how many there are.
pub(crate) fn put_octets(from: &[u8], out: &mut [u8]) -> u64
    ensures count { result ≡ length from.now }
    ensures written { out.new ≡ written_over from.now out.old }
{
    let fit = from.len().min(out.len());
    out[..fit].copy_from_slice(&from[..fit]);
    from.len() as u64
}

/// Writes as many bytes as fit from this index on.
pub(crate) fn put_behind(from: &[u8], at: usize, out: &mut [u8])
    ensures { out.new ≡ take at out.old ++ written_over from.now (drop at out.old) }
{
    let at = at.min(out.len());
    put_octets(from, &mut out[at..]);
}
