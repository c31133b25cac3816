//! The sorted table of a CRL's serial numbers, and the search in it.
ghost use Rattle.std.specs.Prelude.{◌≡◌, ◌↔◌, ◌+◌, ◌*◌, ◌^◌, ◌%◌, ◌<◌, ◌≤◌, ◌/◌, ◌⊎◌, IsTrue, IfOk, IfSome, IfNone, Contains, length, get_or};
ghost use Rattle.std.specs.Int.Digits.{number_from_digits};
ghost use Rattle.std.specs.List.Sorted.{IsPermutation};
ghost use Rattle.std.specs.Ordering.{MatchOrdering};
ghost use Rattle.rpki_crl.specs.SerialTables.{AreAscending, digits, serials_of};
ghost use Rattle.rpki_crl.specs.SerialBuckets.{AreBuckets, IsScale, bucket_of};
ghost use Rattle.rpki_crl.specs.SerialSearches.{IsRange, IsSearch};

use crate::revoked::RevokedCertificates;
use rpki_der::Serial;
use std::alloc::{AllocError, Global};
use std::cmp::Ordering;
use std::marker::Model;

/// Counts the stored serials that a search reads.
#[derive(Drop)]
pub(crate) struct Count {
    looks: usize,
}

impl Model for Count {
    ghost use Rattle.std.specs.Prelude.{ℕ};

    ghost Value = { ℕ };

    ghost view = { λ c. c.looks };
}

impl Count {
    fn new() -> Count
        ensures { result ≡ 0 }
    {
        Count { looks: 0 }
    }

    /// Returns the count.
    pub(crate) fn get(&self) -> usize
        ensures { result ≡ self.now }
    {
        self.looks
    }
}

/// Serial numbers in ascending order, and the start of each bucket. A search for a serial reads
/// only its bucket: a few adjacent numbers.
#[derive(Drop)]
pub(crate) struct SerialTable {
    serials: Vec<Serial>,
    starts: Vec<usize>,
    base: u128,
    shift: u32,
}

impl Model for SerialTable {
    ghost use Rattle.std.specs.Prelude.{List, ℕ, ◌<◌};
    ghost use Rattle.rpki_crl.specs.SerialTables.{AreAscending};
    ghost use Rattle.rpki_crl.specs.SerialBuckets.{AreBuckets};

    ghost Value = { List ℕ };

    ghost view = { λ t. t.serials.items };

    ghost invariant = { λ t. AreAscending t.serials.items
        × AreBuckets t.base t.shift t.starts.items t.serials.items × (t.shift < 160) };
}

// The number of these octets in two parts: without the last 32 bits, and these.
fn parts_of(octets: &[u8]) -> (u128, u32)
    requires { length octets.now ≡ 20 }
    ensures front { result.0 ≡ number_from_digits 256 octets.now / 2 ^ 32 }
    ensures back { result.1 ≡ number_from_digits 256 octets.now % 2 ^ 32 }
{
    let mut front = [0; 16];
    let mut back = [0; 4];
    front.copy_from_slice(&octets[..16]);
    back.copy_from_slice(&octets[16..]);
    (u128::from_be_bytes(front), u32::from_be_bytes(back))
}

// The bucket of a serial, unless that has more than 96 bits or the serial lies below the base.
fn bucket_of(serial: Serial, base: u128, shift: u32) -> Option<u128>
    requires { shift < 160 }
    ensures some { IfSome result (λ bucket. bucket ≡ bucket_of base shift serial) }
    ensures none { IfNone result
        ((serial < base * 2 ^ 32) ⊎ (2 ^ 96 ≤ bucket_of base shift serial)) }
{
    let (front, back) = parts_of(&serial.octets());
    let front = front.checked_sub(base)?;
    if shift >= 32 {
        Some(front >> (shift - 32))
    } else if front < 1 << 96 {
        Some((front * 0x1_0000_0000 + u128::from(back)) >> shift)
    } else {
        None
    }
}

// How many binary digits the number of these two parts has.
fn bits_of(front: u128, back: u32) -> u32
    ensures below { front * 2 ^ 32 + back < 2 ^ result }
    ensures no_more { 2 ^ result ≤ 2 * (front * 2 ^ 32 + back) + 1 }
    ensures most { result ≤ 160 }
{
    if front == 0 {
        32 - back.leading_zeros()
    } else {
        160 - front.leading_zeros()
    }
}

// How many binary digits buckets have of which there are half as many as serials, or fewer.
fn bits_for(serials: usize) -> u32
    ensures few { 2 ^ result ≤ serials / 2 + 1 }
    ensures many { serials / 4 < 2 ^ result }
{
    usize::BITS - (serials / 4).leading_zeros()
}

// The base and the shift with which ascending serials have half as many buckets, or fewer.
fn scale_of(serials: &[Serial]) -> (u128, u32)
    requires { AreAscending serials.now }
    ensures scale { IsScale result.0 result.1 serials.now }
    ensures shift { result.1 < 160 }
{
    let (Some(least), Some(greatest)) = (serials.first(), serials.last()) else {
        return (0, 0);
    };
    let (base, _) = parts_of(&least.octets());
    let (front, back) = parts_of(&greatest.octets());
    let bits = bits_of(front.saturating_sub(base), back);
    let shift = bits.saturating_sub(bits_for(serials.len())).min(159);
    (base, shift)
}

// The starts of the buckets of ascending serials, up to the last serial's.
fn starts_of(
    alloc: Global,
    serials: &[Serial],
    base: u128,
    shift: u32,
) -> Result<Vec<usize>, AllocError>
    requires shift { shift < 160 }
    requires ascending { AreAscending serials.now }
    requires scale { IsScale base shift serials.now }
    ensures buckets { IfOk result (λ starts. AreBuckets base shift starts.items serials.now) }
    ensures few { IfOk result (λ starts. 2 * length starts.items ≤ length serials.now + 3) }
{
    let mut starts = Vec::new(alloc);
    for i in 0..serials.len() {
        let Some(bucket) = bucket_of(serials[i], base, shift) else {
            unreachable!()
        };
        while (starts.len() as u128) <= bucket {
            starts.push(i)?;
        }
    }
    Ok(starts)
}

impl SerialTable {
    /// Sorts the serials of a CRL's entries into a table.
    pub(crate) fn of(alloc: Global, list: &RevokedCertificates) -> Result<SerialTable, AllocError>
        ensures { IfOk result (λ table. IsPermutation (serials_of list.now.entries) table) }
    {
        let mut serials = Vec::new(alloc);
        for entry in list.iter() {
            serials.push(entry.user_certificate)?;
        }
        serials.sort_unstable();
        let (base, shift) = scale_of(&serials);
        let starts = starts_of(alloc, &serials, base, shift)?;
        Ok(SerialTable {
            serials,
            starts,
            base,
            shift,
        })
    }

    // The range of places in which the serial can be: its bucket's; all places if the serial has no
    // bucket or is in the last one or after it.
    fn places_of(&self, serial: Serial) -> (usize, usize)
        ensures range { IsRange self.now serial result.0 result.1 }
        ensures ascending { AreAscending self.now }
        ensures small { length self.now < 2 ^ 64 }
    {
        let all = (0, self.serials.len());
        let Some(bucket) = bucket_of(serial, self.base, self.shift) else {
            return all;
        };
        let count = self.starts.len();
        if count < 2 || bucket >= (count - 1) as u128 {
            return all;
        }
        let bucket = bucket as usize;
        (self.starts[bucket], self.starts[bucket + 1])
    }

    // Reads the stored serial in this place and counts it: the only call that reads one.
    fn compare_at(&self, place: usize, serial: Serial, count: &mut Count) -> Ordering
        requires place { place < length self.now }
        requires room { count.old + 1 < 2 ^ 64 }
        ensures compared { let stored = get_or self.now place 0 in
            MatchOrdering result (stored < serial) (stored ≡ serial) (serial < stored) }
        ensures counted { count.new ≡ count.old + 1 }
    {
        count.looks += 1;
        self.serials[place].cmp(&serial)
    }

    /// Returns whether the table has this serial, and how many of the stored serials the search
    /// read.
    pub(crate) fn contains(&self, serial: Serial) -> (bool, Count)
        ensures found { IsTrue result.0 ↔ Contains self.now serial }
        ensures few { result.1 ≤ digits (length self.now) }
        ensures looked { IsTrue result.0 → 1 ≤ result.1 }
        ensures searched { IsSearch self.now serial result.1 }
        ensures ascending { AreAscending self.now }
    {
        let mut count = Count::new();
        let (mut low, mut high) = self.places_of(serial);
        while low < high {
            let middle = low + (high - low) / 2;
            match self.compare_at(middle, serial, &mut count) {
                Ordering::Less => low = middle + 1,
                Ordering::Equal => return (true, count),
                Ordering::Greater => high = middle,
            }
        }
        (false, count)
    }

    /// Clones the table.
    pub(crate) fn try_clone(&self, alloc: Global) -> Result<SerialTable, AllocError>
        ensures { IfOk result (λ table. table ≡ self.now) }
    {
        let mut serials = Vec::new(alloc);
        serials.extend_from_slice(&self.serials)?;
        let mut starts = Vec::new(alloc);
        starts.extend_from_slice(&self.starts)?;
        Ok(SerialTable {
            serials,
            starts,
            base: self.base,
            shift: self.shift,
        })
    }
}
