//! Copies, equality, order and hashes of values. Each function calls one of them and promises its
//! result.

ghost use Rattle.std.specs.Prelude.{◌≡◌, ◌↔◌, IsTrue, IsOkAnd};
ghost use Rattle.std.specs.Ordering.{nat_cmp};
ghost use Rattle.rpki_der.specs.Times.{second_number};

use crate::error::Field;
use crate::oid::Oid;
use crate::piece::Piece;
use crate::serial::Serial;
use crate::time::Time;
use std::alloc::AllocError;
use std::cmp::Ordering;
use std::hash::{Hash, Hasher};

/// Clones a serial number. The copy is the same number.
pub fn copied_serial(serial: &Serial) -> Result<Serial, AllocError>
    ensures { IsOkAnd result (λ copy. copy ≡ serial.now) }
{
    serial.clone()
}

/// Compares serial numbers: they are equal if and only if they are the same number.
pub fn equal_serials(one: &Serial, other: &Serial) -> bool
    ensures { IsTrue result ↔ one.now ≡ other.now }
{
    one == other
}

/// Orders serial numbers as numbers.
pub fn ordered_serials(one: &Serial, other: &Serial) -> Ordering
    ensures { result ≡ nat_cmp one.now other.now }
{
    one.cmp(other)
}

/// Hashes two serial numbers. Equal ones change equal hashers alike.
pub fn hashed_serials<H: Hasher>(one: &Serial, other: &Serial, first: &mut H, second: &mut H)
    ensures { one.now ≡ other.now → first.old ≡ second.old → first.new ≡ second.new }
{
    one.hash(first);
    other.hash(second);
}

/// Clones a time. The copy is the same time.
pub fn copied_time(time: &Time) -> Result<Time, AllocError>
    ensures { IsOkAnd result (λ copy. copy ≡ time.now) }
{
    time.clone()
}

/// Compares times: they are equal if and only if they are the same.
pub fn equal_times(one: &Time, other: &Time) -> bool
    ensures { IsTrue result ↔ one.now ≡ other.now }
{
    // Called for what they ensure alone.
    one.known();
    other.known();
    one == other
}

/// Orders times by their numbers of seconds.
pub fn ordered_times(one: &Time, other: &Time) -> Ordering
    ensures { result ≡ nat_cmp (second_number one.now) (second_number other.now) }
{
    one.cmp(other)
}

/// Clones a field. The copy is the same field.
pub fn copied_field(field: &Field) -> Result<Field, AllocError>
    ensures { IsOkAnd result (λ copy. copy ≡ field.now) }
{
    field.clone()
}

/// Compares fields: they are equal if and only if they are the same.
pub fn equal_fields(one: &Field, other: &Field) -> bool
    ensures { IsTrue result ↔ one.now ≡ other.now }
{
    one == other
}

/// Compares object identifiers: they are equal if and only if their content octets are.
pub fn equal_identifiers(one: &Oid, other: &Oid) -> bool
    ensures { IsTrue result ↔ one.now ≡ other.now }
{
    one == other
}

/// Compares kept bytes: they are equal if and only if they are the same bytes.
pub fn equal_pieces(one: &Piece, other: &Piece) -> bool
    ensures { IsTrue result ↔ one.now ≡ other.now }
{
    one == other
}
