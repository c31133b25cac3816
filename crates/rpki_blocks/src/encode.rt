//! How resources are encoded.
ghost use Rattle.std.specs.Prelude.{◌≡◌, ℕ, ◌+◌, ◌-◌, ◌^◌, ◌<◌, ◌≤◌, ◌++◌};
ghost use Rattle.std.specs.Prelude.{length, take, flat_map, OnErr, OnOk};
ghost use Rattle.std.specs.List.{concat};
ghost use Rattle.rpki_blocks.specs.Sets.{between};
ghost use Rattle.rpki_blocks.specs.Addresses.{family};
ghost use Rattle.rpki_blocks.specs.Systems.{as_range, as_block};
ghost use Rattle.rpki_blocks.specs.Unions.{text_of, written_choice};
ghost use Rattle.rpki_blocks.specs.ResourceExtensions.{as_extension, ip_extension};
ghost use Rattle.rpki_der.specs.Primitives.{number};
ghost use Rattle.rpki_der.specs.Tags.{CONTEXT_CONSTRUCTED, SEQUENCE};
ghost use Rattle.rpki_der.specs.Values.{enc, sequence};
ghost use Rattle.rpki_der.specs.Writers.{SaysLong, Writes};

use crate::asn::Asn;
use crate::bound::Bound;
use crate::chain::Chain;
use crate::overclaim::Overclaim;
use crate::resources::{AsResources, IpResources, Resources};
use rpki_der::{EncodeError, enclose, end_extension, tag};
use std::alloc::{AllocError, Global};

// How many octets a block usually has. More room is made where some have more.
const USUAL_LEN: usize = 8;

/// A kind of numbers, and how its blocks are encoded.
pub trait Encode: Bound {
    ghost use Rattle.rpki_blocks.specs.Sets.{Block as Span};
    ghost use Rattle.std.specs.Prelude.{ℕ, List};

    /// What is written of a block.
    ghost written: { Span → List ℕ };

    /// Appends the block of these two ends.
    fn put_block(alloc: Global, out: &mut Vec<u8>, min: Self, max: Self) -> Result<(), EncodeError>
        requires { Self.number min ≤ Self.number max }
        ensures ok { OnOk result (out.new.items ≡ out.old.items
            ++ written (between (Self.number min) (Self.number max))) }
        ensures err { OnErr result (take (length out.old.items) out.new.items ≡ out.old.items) }
        ensures too_long { SaysLong result
            (written (between (Self.number min) (Self.number max))) };
}

impl Encode for Asn {
    ghost written = { as_block };

    #[tactic(auto, unfolding(crate::specs::Systems::as_id_or_range_format, crate::specs::Systems::as_range_format))]
    fn put_block(_alloc: Global, out: &mut Vec<u8>, min: Asn, max: Asn) -> Result<(), EncodeError>
        requires { min ≤ max }
        ensures ok { OnOk result (out.new.items ≡ out.old.items ++ as_block (between min max)) }
        ensures err { OnErr result (take (length out.old.items) out.new.items ≡ out.old.items) }
        ensures too_long { SaysLong result (as_block (between min max)) }
    {
        if min == max {
            put_number(out, min.into_u32())?;
            return Ok(());
        }
        put_range(out, min.into_u32(), max.into_u32())?;
        Ok(())
    }
}

// Appends a SEQUENCE of two INTEGERs, or a part of it where memory runs out.
#[tactic(auto, unfolding(crate::specs::Systems::as_range_format))]
fn put_range(out: &mut Vec<u8>, min: u32, max: u32) -> Result<(), AllocError>
    requires { min ≤ max }
    ensures ok { OnOk result (out.new.items ≡ out.old.items ++ as_range min max) }
    ensures err { OnErr result (take (length out.old.items) out.new.items ≡ out.old.items) }
{
    if 0x8000 <= min && max < 0x80_0000 {
        return put_usual_range(out, min, max);
    }
    out.extend_from_slice(&[tag::SEQUENCE, number_len(min) + number_len(max)])?;
    put_number(out, min)?;
    put_number(out, max)
}

// Appends a SEQUENCE of two INTEGERs of three octets each, as most are.
fn put_usual_range(out: &mut Vec<u8>, min: u32, max: u32) -> Result<(), AllocError>
    requires least { 0x8000 ≤ min }
    requires ordered { min ≤ max }
    requires most { max < 0x80_0000 }
    ensures ok { OnOk result (out.new.items ≡ out.old.items ++ as_range min max) }
    ensures err { OnErr result (out.new.items ≡ out.old.items) }
{
    let [_, a, b, c] = min.to_be_bytes();
    let [_, d, e, f] = max.to_be_bytes();
    let head = tag::SEQUENCE;
    let number = tag::INTEGER;
    out.extend_from_slice(&[head, 10, number, 3, a, b, c, number, 3, d, e, f])
}

// How many octets an INTEGER has.
fn number_len(asn: u32) -> u8
    ensures octets { result ≡ length (number asn) }
    ensures small { result ≤ 7 }
{
    match asn {
        0..=0x7F => 3,
        0x80..=0x7FFF => 4,
        0x8000..=0x7F_FFFF => 5,
        0x80_0000..=0x7FFF_FFFF => 6,
        _ => 7,
    }
}

// Appends an INTEGER.
fn put_number(out: &mut Vec<u8>, asn: u32) -> Result<(), AllocError>
    ensures ok { OnOk result (out.new.items ≡ out.old.items ++ number asn) }
    ensures err { OnErr result (out.new.items ≡ out.old.items) }
{
    let [a, b, c, d] = asn.to_be_bytes();
    if asn < 0x80 {
        out.extend_from_slice(&[tag::INTEGER, 1, d])
    } else if asn < 0x8000 {
        out.extend_from_slice(&[tag::INTEGER, 2, c, d])
    } else if asn < 0x80_0000 {
        out.extend_from_slice(&[tag::INTEGER, 3, b, c, d])
    } else if asn < 0x8000_0000 {
        out.extend_from_slice(&[tag::INTEGER, 4, a, b, c, d])
    } else {
        out.extend_from_slice(&[tag::INTEGER, 5, 0x00, a, b, c, d])
    }
}

// Appends the elements of a set, or a part of them where it errs.
fn put_elements<B: Encode>(
    alloc: Global,
    out: &mut Vec<u8>,
    chain: &Chain<B>,
) -> Result<(), EncodeError>
    ensures ok { OnOk result (out.new.items ≡ out.old.items ++ flat_map B.written chain.now) }
    ensures err { OnErr result (take (length out.old.items) out.new.items ≡ out.old.items) }
    ensures too_long { SaysLong result (flat_map B.written chain.now) }
{
    out.reserve(chain.len().saturating_mul(USUAL_LEN))?;
    for block in chain.iter() {
        // Called for what it ensures alone.
        block.known();
        B::put_block(alloc, out, block.min(), block.max())?;
    }
    Ok(())
}

// Appends a SEQUENCE of the blocks of a set, or a part of it where it errs.
fn put_set<B: Encode>(alloc: Global, out: &mut Vec<u8>, chain: &Chain<B>) -> Result<(), EncodeError>
    ensures ok { OnOk result
        (out.new.items ≡ out.old.items ++ enc SEQUENCE (flat_map B.written chain.now)) }
    ensures err { OnErr result (take (length out.old.items) out.new.items ≡ out.old.items) }
    ensures too_long { SaysLong result (enc SEQUENCE (flat_map B.written chain.now)) }
{
    let start = out.len();
    put_elements(alloc, out, chain)?;
    enclose(out, start, tag::SEQUENCE)
}

// Appends a NULL for what is inherited, a SEQUENCE of blocks for a set; a part of it where it errs.
fn put_choice<B: Encode>(
    alloc: Global,
    out: &mut Vec<u8>,
    resources: &Resources<B>,
) -> Result<(), EncodeError>
    ensures ok { OnOk result
        (out.new.items ≡ out.old.items ++ text_of (written_choice B.written resources.now)) }
    ensures err { OnErr result (take (length out.old.items) out.new.items ≡ out.old.items) }
    ensures too_long { SaysLong result (text_of (written_choice B.written resources.now)) }
{
    if let Some(chain) = resources.as_blocks() {
        return put_set(alloc, out, chain);
    }
    if resources.is_inherited() {
        out.extend_from_slice(&[tag::NULL, 0])?;
    }
    Ok(())
}

// Appends a family of addresses, unless it is missing; a part of it where it errs.
fn put_family(
    alloc: Global,
    out: &mut Vec<u8>,
    code: u8,
    resources: &IpResources,
) -> Result<(), EncodeError>
    ensures ok { OnOk result (out.new.items ≡ out.old.items ++ concat (family code resources.now)) }
    ensures err { OnErr result (take (length out.old.items) out.new.items ≡ out.old.items) }
    ensures too_long { SaysLong result (concat (family code resources.now)) }
{
    if !resources.is_present() {
        return Ok(());
    }
    let start = out.len();
    out.extend_from_slice(&[tag::OCTET_STRING, 0x02, 0x00, code])?;
    put_choice(alloc, out, resources)?;
    enclose(out, start, tag::SEQUENCE)
}

// Appends the content of the extension with addresses, or a part of it where it errs.
fn put_families(
    alloc: Global,
    out: &mut Vec<u8>,
    v4: &IpResources,
    v6: &IpResources,
) -> Result<(), EncodeError>
    ensures ok { OnOk result
        (out.new.items ≡ out.old.items ++ sequence (family 1 v4.now ++ family 2 v6.now)) }
    ensures err { OnErr result (take (length out.old.items) out.new.items ≡ out.old.items) }
    ensures too_long { SaysLong result (sequence (family 1 v4.now ++ family 2 v6.now)) }
{
    let start = out.len();
    put_family(alloc, out, 1, v4)?;
    put_family(alloc, out, 2, v6)?;
    enclose(out, start, tag::SEQUENCE)
}

// Appends the content of the extension with AS numbers, or a part of it where it errs.
fn put_numbers(alloc: Global, out: &mut Vec<u8>, resources: &AsResources) -> Result<(), EncodeError>
    ensures ok { let choice = text_of (written_choice as_block resources.now) in OnOk result
        (out.new.items ≡ out.old.items ++ enc SEQUENCE (enc (CONTEXT_CONSTRUCTED 0) choice)) }
    ensures err { OnErr result (take (length out.old.items) out.new.items ≡ out.old.items) }
    ensures too_long { let choice = text_of (written_choice as_block resources.now) in
        SaysLong result (enc SEQUENCE (enc (CONTEXT_CONSTRUCTED 0) choice)) }
{
    let start = out.len();
    put_choice(alloc, out, resources)?;
    enclose(out, start, tag::CONTEXT_CONSTRUCTED)?;
    enclose(out, start, tag::SEQUENCE)
}

impl IpResources {
    /// Appends the critical extension with the IPv4 and IPv6 resources of a certificate (RFC 3779
    /// 2.2), under the identifier of the mode. Appends nothing if both are missing.
    ///
    /// # Errors
    ///
    /// Returns `TooLong` only if the extension would have a content of 2^32 bytes or more, and
    /// `Memory` if memory runs out. After an error `out` is unchanged.
    ///
    /// # Not checked
    ///
    /// Whether `v4` has whole IPv4 addresses ([`crate::IpBlocks::is_v4`]).
    pub fn encode_extension(
        alloc: Global,
        out: &mut Vec<u8>,
        mode: Overclaim,
        v4: &IpResources,
        v6: &IpResources,
    ) -> Result<(), EncodeError>
        ensures { Writes (ip_extension mode v4.now v6.now) out.old.items result out.new.items }
    {
        if !v4.is_present() && !v6.is_present() {
            return Ok(());
        }
        let start = out.len();
        let content = put_families(alloc, out, v4, v6);
        end_extension(out, start, mode.ip_res_id(), true, content)
    }
}

impl AsResources {
    /// Appends the critical extension with the AS resources of a certificate (RFC 3779 3.2), under
    /// the identifier of the mode. Appends nothing if they are missing.
    ///
    /// # Errors
    ///
    /// Returns `TooLong` only if the extension would have a content of 2^32 bytes or more, and
    /// `Memory` if memory runs out. After an error `out` is unchanged.
    pub fn encode_extension(
        &self,
        alloc: Global,
        out: &mut Vec<u8>,
        mode: Overclaim,
    ) -> Result<(), EncodeError>
        ensures { Writes (as_extension mode self.now) out.old.items result out.new.items }
    {
        if !self.is_present() {
            return Ok(());
        }
        let start = out.len();
        let content = put_numbers(alloc, out, self);
        end_extension(out, start, mode.as_res_id(), true, content)
    }
}
