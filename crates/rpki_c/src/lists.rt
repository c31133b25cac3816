//! CRLs for C.
ghost use Rattle.std.specs.Int.Digits.{number_from_digits};
ghost use Rattle.std.specs.Prelude.{◌≡◌, ◌≢◌, ◌≤◌, ◌+◌, ◌*◌, ◌^◌, ◌↔◌, ◌++◌, ◌∷◌, [], length, Contains, IsTrue, IsNone, MatchOption, OnOk, IfOk, IfErr, IfSome};
ghost use Rattle.rpki_der.specs.Place.{MeansOrMemoryBy, Rejects};
ghost use Rattle.rpki_ext.specs.Kinds.{Means};
ghost use Rattle.rpki_crl.specs.Lists.{CrlFields, IsCertificateList};
ghost use Rattle.rpki_crl.specs.RevokedEntries.{IsRevoked};
ghost use Rattle.rpki_crl.specs.RevokedEntries.Views.{entry_of};
ghost use Rattle.rpki_c.specs.Contents.{AreEntriesPut, AreTold, IsFlag, TellsEntry, TellsList, serial_in, told_count};
ghost use Rattle.rpki_c.specs.FaultNumbers.{IsReadingNumber};
ghost use Rattle.rpki_c.specs.Verdicts.{AreListsNaming, AreNoList, BeginsNoList, IsForeign, IsListGiven, IsUnreadList};
ghost use Rattle.rpki_c.specs.Writing.{IsWrittenInto};

use crate::copying::put_octets;
use crate::faults::{BAD_CALL, MEMORY, NONE, of_decoding};
use crate::moments::{RpkiTime, parts_of};
use crate::refusal::Refusal;
use bytes::Bytes;
use rpki_crl::{Crl, CrlEntry, laws, named_key};
use rpki_der::{Cursor, DecodeError, Serial};
use rpki_parts::KeyIdentifier;
use std::alloc::{AllocError, Global};

/// At most so many searches take less time than a table takes to make.
const FEW: usize = 16;

/// The fields of a CRL that have a fixed size.
#[repr(C)]
#[derive(Clone, Copy)]
pub struct RpkiList {
    pub this_update: RpkiTime,
    pub next_update: RpkiTime,
    /// How many entries there are.
    pub entries: u64,
    pub number: [u8; 20],
    pub authority_key: [u8; 20],
}

/// A revoked certificate.
#[repr(C)]
#[derive(Clone, Copy)]
pub struct RpkiEntry {
    pub date: RpkiTime,
    pub serial: [u8; 20],
}

// How many entries there are; nothing where 64 bits can't tell.
fn count_of(list: &Crl) -> Option<u64>
    ensures some { IfSome result (λ n. n ≡ length list.now.list.fields.revoked.entries) }
    ensures none { IsNone result → 2 ^ 64 ≤ length list.now.list.fields.revoked.entries }
{
    let mut count = 0u64;
    for _entry in list.as_cert_list().revoked_certs().iter() {
        count = count.checked_add(1)?;
    }
    Some(count)
}

fn entries(list: &Crl) -> u64
    ensures { result ≡ told_count (length list.now.list.fields.revoked.entries) }
{
    count_of(list).unwrap_or(u64::MAX)
}

fn put_list(list: &Crl, out: &mut RpkiList)
    ensures { TellsList list.now.list.fields out.new }
{
    let data = list.as_cert_list();
    out.this_update = parts_of(data.this_update());
    out.next_update = parts_of(data.next_update());
    out.number = data.crl_number().octets();
    out.authority_key = *data.authority_key_identifier().as_octets();
    out.entries = entries(list);
}

/// The CRL at the start of the bytes, or the number of an error.
#[tactic(auto, using(crate::proofs::Unread::unless_memory))]
pub(crate) fn decoded(alloc: Global, octets: &[u8]) -> Result<Crl, u32>
    ensures read { IfOk result (λ l. Means IsCertificateList l.list octets.now) }
    ensures fault { IfErr result (λ fault. (fault ≢ NONE) × (fault ≢ BAD_CALL)) }
    ensures unread { IfErr result (λ fault. fault ≢ MEMORY → BeginsNoList octets.now) }
    ensures code { IfErr result IsReadingNumber }
{
    match Crl::decode(alloc, octets) {
        Ok(list) => Ok(list),
        Err(error) => {
            let fault = of_decoding(&error);
            drop(error);
            Err(fault)
        }
    }
}

/// Reads the CRL at the start of the bytes.
///
/// # Errors
///
/// Returns the number of an error, or 0.
///
/// # Not checked
///
/// The signature, and the times.
#[unsafe(no_mangle)]
pub extern "C" fn rpki_list_read(alloc: Global, octets: &[u8], out: &mut RpkiList) -> u32
    ensures read { result ≡ NONE → (l : CrlFields) × Means IsCertificateList l octets.now
        × TellsList l.fields out.new }
    ensures untouched { result ≢ NONE → out.new ≡ out.old }
    ensures unread { result ≢ NONE → result ≢ MEMORY → BeginsNoList octets.now }
    ensures code { result ≢ NONE → IsReadingNumber result }
{
    match decoded(alloc, octets) {
        Ok(list) => {
            put_list(&list, out);
            drop(list);
            NONE
        }
        Err(fault) => fault,
    }
}

fn entry(it: &CrlEntry) -> RpkiEntry
    ensures { TellsEntry (entry_of it.now) result }
{
    RpkiEntry {
        date: parts_of(it.revocation_date),
        serial: it.user_certificate.octets(),
    }
}

fn put_entries(list: &Crl, out: &mut [RpkiEntry])
    ensures { AreEntriesPut list.now.list.fields.revoked.entries out.old out.new }
{
    let mut at = 0;
    for it in list.as_cert_list().revoked_certs().iter() {
        if at == out.len() {
            return;
        }
        out[at] = entry(&it);
        at += 1;
    }
}

/// Writes the entries of the CRL: as many as fit, and in `count` how many there are.
///
/// # Errors
///
/// Returns the number of an error, or 0.
#[unsafe(no_mangle)]
pub extern "C" fn rpki_list_entries(
    alloc: Global,
    octets: &[u8],
    out: &mut [RpkiEntry],
    count: &mut u64,
) -> u32
    ensures entries { result ≡ NONE → (l : CrlFields) × Means IsCertificateList l octets.now
        × AreEntriesPut l.fields.revoked.entries out.old out.new
        × (count.new ≡ told_count (length l.fields.revoked.entries)) }
    ensures at_fault { result ≢ NONE → count.new ≡ 0 }
    ensures untouched { result ≢ NONE → out.new ≡ out.old }
    ensures unread { result ≢ NONE → result ≢ MEMORY → BeginsNoList octets.now }
    ensures code { result ≢ NONE → IsReadingNumber result }
{
    *count = 0;
    match decoded(alloc, octets) {
        Ok(list) => {
            put_entries(&list, out);
            *count = entries(&list);
            drop(list);
            NONE
        }
        Err(fault) => fault,
    }
}

/// Writes the issuer's name in DER: as many bytes as fit, and in `count` how many there are.
///
/// # Errors
///
/// Returns the number of an error, or 0.
#[unsafe(no_mangle)]
pub extern "C" fn rpki_list_issuer(
    alloc: Global,
    octets: &[u8],
    out: &mut [u8],
    count: &mut u64,
) -> u32
    ensures issuer { result ≡ NONE → (l : CrlFields) × Means IsCertificateList l octets.now
        × IsWrittenInto l.fields.issuer out.old out.new count.new }
    ensures at_fault { result ≢ NONE → count.new ≡ 0 }
    ensures untouched { result ≢ NONE → out.new ≡ out.old }
    ensures unread { result ≢ NONE → result ≢ MEMORY → BeginsNoList octets.now }
    ensures code { result ≢ NONE → IsReadingNumber result }
{
    *count = 0;
    match decoded(alloc, octets) {
        Ok(list) => {
            *count = put_octets(list.as_cert_list().issuer().as_bytes(), out);
            drop(list);
            NONE
        }
        Err(fault) => fault,
    }
}

/// The number of 20 bytes, the most significant one first.
pub(crate) fn number_of(octets: &[u8; 20]) -> Serial
    ensures { result ≡ number_from_digits 256 octets.now }
{
    match Serial::from_slice(octets) {
        Some(number) => number,
        None => unreachable!(),
    }
}

/// The serial number at this index.
pub(crate) fn serial_at(serials: &[u8], at: usize) -> Serial
    requires { 20 * at + 20 ≤ length serials.now }
    ensures { result ≡ serial_in serials.now at }
{
    let mut octets = [0; 20];
    octets.copy_from_slice(&serials[20 * at..20 * at + 20]);
    number_of(&octets)
}

/// Whether there are 20 bytes for each answer.
pub(crate) fn add_up(serials: &[u8], answers: &[u8]) -> bool
    ensures { IsTrue result ↔ (length serials.now ≡ 20 * length answers.now) }
{
    serials.len() % 20 == 0 && serials.len() / 20 == answers.len()
}

// 1 where the list revokes the serial number, and else 0.
fn answer_of(list: &Crl, serial: Serial) -> u8
    ensures { IsFlag (IsRevoked serial list.now.list.fields.revoked.entries) result }
{
    if list.contains(serial) { 1 } else { 0 }
}

fn put_answers(list: &Crl, serials: &[u8], answers: &mut [u8])
    requires { length serials.now ≡ 20 * length answers.old }
    ensures { AreTold list.now.list.fields.revoked.entries serials.now answers.new }
{
    for at in 0..answers.len() {
        answers[at] = answer_of(list, serial_at(serials, at));
    }
}

// The list that the octets begin with, with its serial numbers in a table where several are asked
// for.
fn list_for(alloc: Global, octets: &[u8], count: usize) -> Result<Crl, u32>
    ensures read { IfOk result (λ l. Means IsCertificateList l.list octets.now) }
    ensures fault { IfErr result (λ fault. (fault ≢ NONE) × (fault ≢ BAD_CALL)) }
    ensures unread { IfErr result (λ fault. fault ≢ MEMORY → BeginsNoList octets.now) }
    ensures code { IfErr result IsReadingNumber }
{
    let mut list = decoded(alloc, octets)?;
    if count < 2 {
        return Ok(list);
    }
    match list.cache_serials(alloc) {
        Ok(()) => Ok(list),
        Err(_) => {
            drop(list);
            Err(MEMORY)
        }
    }
}

/// Searches the CRL for serial numbers of 20 bytes each, one after the other, and writes 1 if a
/// serial number is on the CRL and else 0. If there are several, a sorted table is made first, so
/// that each further search is fast.
///
/// # Errors
///
/// Returns the number of an error, 2 if there aren't 20 bytes for each answer, or 0.
///
/// # Not checked
///
/// Whether the CRL is the certificate's issuer's, is signed, or is current.
#[unsafe(no_mangle)]
pub extern "C" fn rpki_list_ask(
    alloc: Global,
    octets: &[u8],
    serials: &[u8],
    answers: &mut [u8],
) -> u32
    ensures bad_call { (result ≡ BAD_CALL) ↔ (length serials.now ≢ 20 * length answers.old) }
    ensures answers { result ≡ NONE → (l : CrlFields) × Means IsCertificateList l octets.now
        × AreTold l.fields.revoked.entries serials.now answers.new }
    ensures untouched { result ≢ NONE → answers.new ≡ answers.old }
    ensures unread { result ≢ NONE → result ≢ MEMORY → result ≢ BAD_CALL → BeginsNoList octets.now }
    ensures code { result ≢ NONE → result ≢ BAD_CALL → IsReadingNumber result }
{
    if !add_up(serials, answers) {
        return BAD_CALL;
    }
    match list_for(alloc, octets, answers.len()) {
        Ok(list) => {
            put_answers(&list, serials, answers);
            drop(list);
            NONE
        }
        Err(fault) => fault,
    }
}

/// Reads the CRL that the bytes are. Bytes after it are an error, because they may be another CRL.
pub(crate) fn whole_list(alloc: Global, octets: &Bytes) -> Result<Crl, DecodeError>
    ensures { MeansOrMemoryBy (λ l. l.list) IsCertificateList result octets.now }
{
    // Called for what it ensures alone.
    laws::unambiguous();
    let mut cursor = Cursor::new(octets);
    let list = Crl::take_from(alloc, &mut cursor)?;
    if !cursor.is_empty() {
        drop(list);
        return Err(DecodeError::Trailing);
    }
    Ok(list)
}

// Puts the serial numbers of the list that the octets are into a table.
fn tabled(alloc: Global, list: Crl, octets: &Bytes) -> Result<Crl, DecodeError>
    requires { IsCertificateList list.list octets.now }
    ensures { MeansOrMemoryBy (λ l. l.list) IsCertificateList result octets.now }
{
    let mut list = list;
    match list.cache_serials(alloc) {
        Ok(()) => Ok(list),
        Err(error) => {
            drop(list);
            Err(DecodeError::from(error))
        }
    }
}

/// Reads the list that the octets are, and puts its serial numbers into a table.
pub(crate) fn list_of(alloc: Global, octets: &Bytes) -> Result<Crl, DecodeError>
    ensures { MeansOrMemoryBy (λ l. l.list) IsCertificateList result octets.now }
{
    let list = whole_list(alloc, octets)?;
    tabled(alloc, list, octets)
}

// Whether more than a few certificates may ask the list that names this key: each of these names
// it, and the certificate above has it.
fn is_named_often(named: &KeyIdentifier, keys: &[KeyIdentifier]) -> bool {
    let mut count = 0usize;
    for key in keys {
        if key == named {
            count = count.saturating_add(1);
        }
    }
    count > 2 * FEW
}

// Reads the list that the octets are, if it names one of these keys: else no more than its head.
// One that more than a few certificates may ask gets a table.
fn list_naming(
    alloc: Global,
    octets: &Bytes,
    keys: &[KeyIdentifier],
) -> Result<Option<Crl>, DecodeError>
    ensures list { IfOk result (λ o. MatchOption o
        (IsForeign (Contains keys.now) octets.now) (IsListGiven octets.now)) }
    ensures unread { IfErr result (λ e. Rejects e
        (AreNoList octets.now × (IsForeign (Contains keys.now) octets.now → ⊥))) }
{
    // Called for what it ensures alone.
    laws::names_one_key();
    let key = named_key(alloc, octets)?;
    if !keys.contains(&key) {
        return Ok(None);
    }
    let list = whole_list(alloc, octets)?;
    if is_named_often(&key, keys) {
        return Ok(Some(tabled(alloc, list, octets)?));
    }
    Ok(Some(list))
}

// Adds the list, if there is one.
fn keep(lists: &mut Vec<Crl>, list: Option<Crl>) -> Result<(), AllocError>
    ensures { OnOk result (MatchOption list (lists.new.items ≡ lists.old.items)
        (λ l. lists.new.items ≡ lists.old.items ++ l ∷ [])) }
{
    match list {
        Some(list) => {
            lists.push(list)?;
            Ok(())
        }
        None => Ok(()),
    }
}

/// Reads a list of each of these octets, unless it names none of these keys. A list gets a table if
/// more than a few certificates of the path whose keys these are may ask it.
pub(crate) fn lists_of(
    alloc: Global,
    strings: &[Bytes],
    keys: &[KeyIdentifier],
) -> Result<Vec<Crl>, Refusal>
    ensures lists { IfOk result (λ it.
        AreListsNaming (Contains keys.now) strings.now it.items) }
    ensures unread { IfErr result (IsUnreadList (Contains keys.now) strings.now) }
{
    let mut lists = Vec::new(alloc);
    let mut place = 0usize;
    for octets in strings {
        match list_naming(alloc, octets, keys) {
            Ok(list) => keep(&mut lists, list)?,
            Err(error) => {
                drop(lists);
                return Err(Refusal::List(place, error));
            }
        }
        place += 1;
    }
    Ok(lists)
}
