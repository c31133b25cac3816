//! Constants, copies, equality, order and hashes of values. Each function calls one of them and
//! promises its result.

ghost use Rattle.std.specs.Prelude.{◌≡◌, ◌-◌, ◌^◌, ◌↔◌, IsTrue, IsOkAnd};
ghost use Rattle.std.specs.Ordering.{nat_cmp};

use crate::addr::Addr;
use crate::asn::Asn;
use crate::block::Block;
use crate::bound::Bound;
use crate::overclaim::Overclaim;
use crate::prefix::Prefix;
use std::alloc::AllocError;
use std::cmp::Ordering;
use std::hash::{Hash, Hasher};

/// Clones an address. The copy is the same address.
pub fn copied_address(address: &Addr) -> Result<Addr, AllocError>
    ensures { IsOkAnd result (λ copy. copy ≡ address.now) }
{
    address.clone()
}

/// Compares addresses: they are equal if and only if they are the same number.
pub fn equal_addresses(one: &Addr, other: &Addr) -> bool
    ensures { IsTrue result ↔ one.now ≡ other.now }
{
    one == other
}

/// Orders addresses by their numbers.
pub fn ordered_addresses(one: &Addr, other: &Addr) -> Ordering
    ensures { result ≡ nat_cmp one.now other.now }
{
    one.cmp(other)
}

/// Returns the least AS number, which is 0.
pub fn least_as_number() -> Asn
    ensures { result ≡ 0 }
{
    Asn::MIN
}

/// Returns the greatest AS number, which is 2^32 - 1.
pub fn greatest_as_number() -> Asn
    ensures { result ≡ 2 ^ 32 - 1 }
{
    Asn::MAX
}

/// Clones an AS number. The copy is the same number.
pub fn copied_as_number(number: &Asn) -> Result<Asn, AllocError>
    ensures { IsOkAnd result (λ copy. copy ≡ number.now) }
{
    number.clone()
}

/// Compares AS numbers: they are equal if and only if they are the same number.
pub fn equal_as_numbers(one: &Asn, other: &Asn) -> bool
    ensures { IsTrue result ↔ one.now ≡ other.now }
{
    one == other
}

/// Orders AS numbers.
pub fn ordered_as_numbers(one: &Asn, other: &Asn) -> Ordering
    ensures { result ≡ nat_cmp one.now other.now }
{
    one.cmp(other)
}

/// Clones a block. The copy has the same ends.
pub fn copied_block<B: Bound>(block: &Block<B>) -> Result<Block<B>, AllocError>
    ensures { IsOkAnd result (λ copy. copy ≡ block.now) }
{
    block.clone()
}

/// Clones a prefix. The copy is the same prefix.
pub fn copied_prefix(prefix: &Prefix) -> Result<Prefix, AllocError>
    ensures { IsOkAnd result (λ copy. copy ≡ prefix.now) }
{
    prefix.clone()
}

/// Clones a mode. The copy is the same mode.
pub fn copied_overclaim(mode: &Overclaim) -> Result<Overclaim, AllocError>
    ensures { IsOkAnd result (λ copy. copy ≡ mode.now) }
{
    mode.clone()
}

/// Compares modes: they are equal if and only if they are the same.
pub fn equal_overclaims(one: &Overclaim, other: &Overclaim) -> bool
    ensures { IsTrue result ↔ one.now ≡ other.now }
{
    one == other
}

/// Hashes two modes. Equal ones change equal hashers alike.
pub fn hashed_overclaims<H: Hasher>(
    one: &Overclaim,
    other: &Overclaim,
    first: &mut H,
    second: &mut H,
)
    ensures { one.now ≡ other.now → first.old ≡ second.old → first.new ≡ second.new }
{
    one.hash(first);
    other.hash(second);
}
