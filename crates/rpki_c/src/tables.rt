//! A table of revoked serial numbers in the caller's memory, which is made once and searched often.
ghost use Rattle.std.specs.Int.Digits.{number_from_digits};
ghost use Rattle.std.specs.List.Sorted.{IsPermutation};
ghost use Rattle.std.specs.Ordering.{MatchOrdering};
ghost use Rattle.std.specs.Prelude.{ℕ, ◌≡◌, ◌≢◌, ◌↔◌, ◌<◌, ◌≤◌, ◌*◌, List, length, get_or, IfErr, IfOk, IfSome, IsTrue};
ghost use Rattle.rpki_crl.specs.Lists.{CrlFields, IsCertificateList};
ghost use Rattle.rpki_crl.specs.RevokedEntries.{Entry, IsRevoked};
ghost use Rattle.rpki_crl.specs.SerialTables.{AreAscending, serials_of};
ghost use Rattle.rpki_ext.specs.Kinds.{Means};
ghost use Rattle.rpki_c.specs.Contents.{AreFlags, AreTold, IsFlag};
ghost use Rattle.rpki_c.specs.FaultNumbers.{IsReadingNumber};
ghost use Rattle.rpki_c.specs.ListTables.{IsSerialTable, serials_in};
ghost use Rattle.rpki_c.specs.Verdicts.{BeginsNoList};
ghost use Rattle.rpki_c.specs.Writing.{IsWrittenInto, written_over};

use crate::copying::put_items;
use crate::faults::{BAD_CALL, MEMORY, NONE};
use crate::lists::{add_up, decoded, number_of, serial_at};
use rpki_crl::Crl;
use rpki_der::Serial;
use std::alloc::{AllocError, Global};
use std::cmp::Ordering;

/// A revoked serial number in a table.
#[repr(C)]
#[derive(Clone, Copy)]
pub struct RpkiSerial {
    pub serial: [u8; 20],
    /// The place where a search starts: for the entry at an index, the index of the first serial
    /// number of the part with that number.
    pub hint: u32,
}

// How the numbers from the least to the greatest one are cut into parts of one size. It only says
// where a search begins.
#[derive(Clone, Copy)]
struct Parts {
    /// The least serial number without its last 32 bits.
    base: u128,
    /// Whether distances from it are kept without their last 32 bits.
    is_wide: bool,
    shift: u32,
    count: u64,
}

// A number in two parts: without its last 32 bits, and these.
fn halves(serial: &[u8; 20]) -> (u128, u32) {
    let mut front = [0; 16];
    let mut back = [0; 4];
    front.copy_from_slice(&serial[..16]);
    back.copy_from_slice(&serial[16..]);
    (u128::from_be_bytes(front), u32::from_be_bytes(back))
}

impl Parts {
    // Parts from the least to the greatest of so many serial numbers: one for four of them.
    fn between(least: &[u8; 20], greatest: &[u8; 20], count: usize) -> Parts {
        let (base, _) = halves(least);
        let (front, _) = halves(greatest);
        let parts = Parts {
            base,
            is_wide: front.saturating_sub(base) >= 1 << 96,
            shift: 0,
            count: (count / 4 + 1) as u64,
        };
        Parts {
            shift: parts.distance(greatest).leading_zeros(),
            ..parts
        }
    }

    // How far the number lies behind the least one.
    fn distance(self, serial: &[u8; 20]) -> u128 {
        let (front, back) = halves(serial);
        let front = front.saturating_sub(self.base);
        if self.is_wide {
            return front;
        }
        front.wrapping_mul(1 << 32).wrapping_add(u128::from(back))
    }

    // The part of the number.
    fn part_of(self, serial: &[u8; 20]) -> usize {
        let far = self.distance(serial).wrapping_shl(self.shift) >> 64;
        let part = far.wrapping_mul(u128::from(self.count)) >> 64;
        usize::try_from(part).unwrap_or(usize::MAX)
    }
}

// At the place of each part, where its numbers begin among ascending ones.
fn hints_of(alloc: Global, serials: &[Serial]) -> Result<Vec<u32>, AllocError> {
    let mut hints = Vec::new(alloc);
    let (Some(least), Some(greatest)) = (serials.first(), serials.last()) else {
        return Ok(hints);
    };
    let parts = Parts::between(&least.octets(), &greatest.octets(), serials.len());
    for (at, serial) in serials.iter().enumerate() {
        let part = parts.part_of(&serial.octets()).min(serials.len());
        let hint = u32::try_from(at).unwrap_or(u32::MAX);
        for _ in hints.len()..part + 1 {
            hints.push(hint)?;
        }
    }
    Ok(hints)
}

// The serial numbers of a list, ascending.
fn ascending(alloc: Global, list: &Crl) -> Result<Vec<Serial>, AllocError>
    ensures serials { let entries = list.now.list.fields.revoked.entries in
        IfOk result (λ it. IsPermutation (serials_of entries) it.items) }
    ensures ascending { IfOk result (λ it. AreAscending it.items) }
{
    let mut serials = Vec::new(alloc);
    for entry in list.as_cert_list().revoked_certs().iter() {
        serials.push(entry.user_certificate)?;
    }
    serials.sort_unstable();
    Ok(serials)
}

// The table of these serial numbers, in their order.
fn with_hints(alloc: Global, serials: &[Serial]) -> Result<Vec<RpkiSerial>, AllocError>
    ensures { IfOk result (λ it. serials_in it.items ≡ serials.now) }
{
    let hints = hints_of(alloc, serials)?;
    let mut table = Vec::new(alloc);
    for (at, serial) in serials.iter().enumerate() {
        let hint = hints.get(at).copied().unwrap_or(u32::MAX);
        table.push(RpkiSerial {
            serial: serial.octets(),
            hint,
        })?;
    }
    drop(hints);
    Ok(table)
}

// The table of a list.
fn table_of(alloc: Global, list: &Crl) -> Result<Vec<RpkiSerial>, AllocError>
    ensures { IfOk result (λ it. IsSerialTable list.now.list.fields.revoked.entries it.items) }
{
    let serials = ascending(alloc, list)?;
    let table = with_hints(alloc, &serials);
    drop(serials);
    table
}

// The table of the list that the octets begin with, or the number of a fault.
fn read_table(alloc: Global, octets: &[u8]) -> Result<Vec<RpkiSerial>, u32>
    ensures table { IfOk result (λ it. (l : CrlFields) × Means IsCertificateList l octets.now
        × IsSerialTable l.fields.revoked.entries it.items) }
    ensures fault { IfErr result (λ fault. fault ≢ NONE) }
    ensures unread { IfErr result (λ fault. fault ≢ MEMORY → BeginsNoList octets.now) }
    ensures code { IfErr result IsReadingNumber }
{
    let list = decoded(alloc, octets)?;
    let table = table_of(alloc, &list);
    drop(list);
    match table {
        Ok(table) => Ok(table),
        Err(_) => Err(MEMORY),
    }
}

/// Writes a table of the CRL at the start of the bytes, for `rpki_table_ask`: as many entries as
/// fit, and in `count` how many there are.
///
/// # Errors
///
/// Returns the number of an error, or 0.
///
/// # Not checked
///
/// The signature, and the times.
#[unsafe(no_mangle)]
pub extern "C" fn rpki_list_table(
    alloc: Global,
    octets: &[u8],
    out: &mut [RpkiSerial],
    count: &mut u64,
) -> u32
    ensures table { result ≡ NONE → (l : CrlFields) × Means IsCertificateList l octets.now
        × (table : List RpkiSerial) × IsSerialTable l.fields.revoked.entries table
        × IsWrittenInto table out.old out.new count.new }
    ensures at_fault { result ≢ NONE → count.new ≡ 0 }
    ensures untouched { result ≢ NONE → out.new ≡ out.old }
    ensures unread { result ≢ NONE → result ≢ MEMORY → BeginsNoList octets.now }
    ensures code { result ≢ NONE → IsReadingNumber result }
{
    *count = 0;
    match read_table(alloc, octets) {
        Ok(table) => {
            *count = put_items(&table, out);
            drop(table);
            NONE
        }
        Err(fault) => fault,
    }
}

// How the serial number at a place of a table stands to another one.
fn compared(table: &[RpkiSerial], place: usize, serial: Serial) -> Ordering
    requires { place < length table.now }
    ensures { let stored = get_or (serials_in table.now) place 0 in
        MatchOrdering result (stored < serial) (stored ≡ serial) (serial < stored) }
{
    number_of(&table[place].serial).cmp(&serial)
}

// Whether the serial number at a place is less than another one.
fn is_below(table: &[RpkiSerial], place: usize, serial: Serial) -> bool
    requires { place < length table.now }
    ensures { IsTrue result ↔ (get_or (serials_in table.now) place 0 < serial) }
{
    match compared(table, place, serial) {
        Ordering::Less => true,
        Ordering::Equal | Ordering::Greater => false,
    }
}

// Whether it is greater.
fn is_above(table: &[RpkiSerial], place: usize, serial: Serial) -> bool
    requires { place < length table.now }
    ensures { IsTrue result ↔ (serial < get_or (serials_in table.now) place 0) }
{
    match compared(table, place, serial) {
        Ordering::Greater => true,
        Ordering::Less | Ordering::Equal => false,
    }
}

// Between which places the hints of a table say that the serial number stands.
fn hinted(table: &[RpkiSerial], serial: Serial) -> Option<(usize, usize)>
    ensures { IfSome result (λ places. (places.0 ≤ places.1) × (places.1 ≤ length table.now)) }
{
    let parts = Parts::between(&table.first()?.serial, &table.last()?.serial, table.len());
    let part = parts.part_of(&serial.octets());
    let low = table.get(part)?.hint as usize;
    let high = table.get(part.saturating_add(1))?.hint as usize;
    if low <= high && high <= table.len() {
        Some((low, high))
    } else {
        None
    }
}

// Whether all numbers before a place of an ascending table are less than the serial number.
fn is_before(table: &[RpkiSerial], place: usize, serial: Serial) -> bool
    requires { place ≤ length table.now }
    ensures { AreAscending (serials_in table.now) → IsTrue result
        → (i : ℕ) → i < place → get_or (serials_in table.now) i 0 < serial }
{
    place == 0 || is_below(table, place - 1, serial)
}

// Whether all from a place of an ascending table on are greater.
fn is_behind(table: &[RpkiSerial], place: usize, serial: Serial) -> bool
    ensures { AreAscending (serials_in table.now) → IsTrue result
        → (i : ℕ) → place ≤ i → i < length table.now → serial < get_or (serials_in table.now) i 0 }
{
    place >= table.len() || is_above(table, place, serial)
}

// Between which places of an ascending table the serial number can stand: those of the hints, where
// these are right, and else all.
fn places_of(table: &[RpkiSerial], serial: Serial) -> (usize, usize)
    ensures order { result.0 ≤ result.1 }
    ensures inside { result.1 ≤ length table.now }
    ensures before { AreAscending (serials_in table.now) → (i : ℕ) → i < result.0
        → get_or (serials_in table.now) i 0 < serial }
    ensures after { AreAscending (serials_in table.now) → (i : ℕ) → result.1 ≤ i
        → i < length table.now → serial < get_or (serials_in table.now) i 0 }
{
    match hinted(table, serial) {
        Some((low, high)) => {
            if is_before(table, low, serial) && is_behind(table, high, serial) {
                return (low, high);
            }
            (0, table.len())
        }
        None => (0, table.len()),
    }
}

// Whether the serial number stands in an ascending table.
fn has(table: &[RpkiSerial], serial: Serial) -> bool
    ensures { (entries : List Entry) → IsSerialTable entries table.now
        → IsTrue result ↔ IsRevoked serial entries }
{
    let (mut low, mut high) = places_of(table, serial);
    while low < high {
        let middle = low + (high - low) / 2;
        match compared(table, middle, serial) {
            Ordering::Less => low = middle + 1,
            Ordering::Equal => return true,
            Ordering::Greater => high = middle,
        }
    }
    false
}

// 1 where the serial number stands in an ascending table, and else 0.
fn answer_of(table: &[RpkiSerial], serial: Serial) -> u8
    ensures told { (entries : List Entry) → IsSerialTable entries table.now
        → IsFlag (IsRevoked serial entries) result }
    ensures flag { result ≤ 1 }
{
    if has(table, serial) { 1 } else { 0 }
}

fn put_answers(table: &[RpkiSerial], serials: &[u8], answers: &mut [u8])
    requires { length serials.now ≡ 20 * length answers.old }
    ensures told { (entries : List Entry) → IsSerialTable entries table.now
        → AreTold entries serials.now answers.new }
    ensures flags { AreFlags answers.new }
{
    for at in 0..answers.len() {
        answers[at] = answer_of(table, serial_at(serials, at));
    }
}

/// Searches a table that `rpki_list_table` has written for serial numbers of 20 bytes each, one
/// after the other, and writes 1 if a serial number is on the table's CRL and else 0. For entries
/// that aren't such a table's, each answer is 0 or 1 and means nothing.
///
/// # Errors
///
/// Returns 2 if there aren't 20 bytes for each answer, or 0.
#[unsafe(no_mangle)]
pub extern "C" fn rpki_table_ask(table: &[RpkiSerial], serials: &[u8], answers: &mut [u8]) -> u32
    ensures bad_call { (result ≡ BAD_CALL) ↔ (length serials.now ≢ 20 * length answers.old) }
    ensures answers { result ≡ NONE → (entries : List Entry) → IsSerialTable entries table.now
        → AreTold entries serials.now answers.new }
    ensures flags { result ≡ NONE → AreFlags answers.new }
    ensures fault { result ≢ NONE → result ≡ BAD_CALL }
    ensures untouched { result ≢ NONE → answers.new ≡ answers.old }
{
    if !add_up(serials, answers) {
        return BAD_CALL;
    }
    put_answers(table, serials, answers);
    NONE
}
