//! Entries, lists that are made, and lists under their URIs.

use crate::asking::{Told, begin, called, read, vector, written_digits};
use bytes::Bytes;
use rpki_crl::{
    Crl, CrlEntry, CrlStore, InvalidExtension, RevokedCertificates, TbsCertList, round_trip,
};
use rpki_der::{Cursor, Oid, Serial, Time};
use rpki_parts::{RpkiSignatureAlgorithm, Rsync, StandIn};
use rpki_tests::samples::{day, rsa, shared, uri};
use std::alloc::Global;

// One entry, as it stands in a list.
const ONE_ENTRY: &str = "3014301202010c170d3139303530313030303030305a";

fn entry_written(alloc: Global) -> Option<Told> {
    let entry = CrlEntry::new(Serial::from(12u64), day(2019)?);
    let mut out = vector(alloc)?;
    let answer = entry.encode(alloc, &mut out);
    written_digits(
        alloc,
        answer,
        &out,
        "301202010c170d3139303530313030303030305a",
    )
}

fn revoked(alloc: Global) -> Option<RevokedCertificates> {
    let octets = shared(alloc, ONE_ENTRY)?;
    RevokedCertificates::take_from(alloc, &mut Cursor::new(&octets)).ok()
}

fn sequence_read(alloc: Global) -> Option<Told> {
    let octets = shared(alloc, ONE_ENTRY)?;
    let mut cursor = Cursor::new(&octets);
    begin(alloc);
    let answer = RevokedCertificates::take_from(alloc, &mut cursor);
    read(alloc, answer, &cursor)
}

fn sequence_written(alloc: Global) -> Option<Told> {
    let (entries, mut out) = revoked(alloc).zip(vector(alloc))?;
    let answer = entries.encode_ref(alloc, &mut out);
    let told = written_digits(alloc, answer, &out, ONE_ENTRY);
    drop(entries);
    told
}

fn sequence_copied(alloc: Global) -> Option<Told> {
    let entries = revoked(alloc)?;
    let told = called!(alloc, entries.try_clone(alloc), copy => copy.contains(Serial::from(12u64)));
    drop(entries);
    told
}

fn extension_copied(alloc: Global) -> Option<Told> {
    let oid = Oid::new(Bytes::from_static(b"\x55\x1d\x63")).ok()?;
    let extension = InvalidExtension::new(oid);
    let told = called!(
        alloc,
        extension.try_clone(alloc),
        copy => copy.oid().as_bytes() == b"\x55\x1d\x63".as_slice()
    );
    drop(extension);
    told
}

// Entries of the serials 1 to 8.
fn eight(alloc: Global, since: Time) -> Option<Vec<CrlEntry>> {
    let entry = |number: u64| CrlEntry::new(Serial::from(number), since);
    let entries = [
        entry(1),
        entry(2),
        entry(3),
        entry(4),
        entry(5),
        entry(6),
        entry(7),
        entry(8),
    ];
    Vec::from_slice(alloc, &entries).ok()
}

// The data of a list with these entries, of the key that the bits are.
fn data_of(alloc: Global, bits: &'static [u8]) -> Option<TbsCertList<Vec<CrlEntry>>> {
    let (since, until) = day(2019).zip(day(2029))?;
    let identifier = rsa(bits).key_identifier();
    let number = Serial::from(12u64);
    let algorithm = RpkiSignatureAlgorithm::default();
    let issuer = rsa(bits).to_subject_name(alloc).ok();
    let (issuer, entries) = issuer.zip(eight(alloc, since))?;
    Some(TbsCertList::new(algorithm, issuer, since, until, entries, identifier, number))
}

fn data(alloc: Global) -> Option<TbsCertList<Vec<CrlEntry>>> {
    data_of(alloc, b"abc")
}

fn collected(alloc: Global) -> Option<Told> {
    let data = data(alloc)?;
    called!(
        alloc,
        data.to_revoked(alloc),
        fields => fields.revoked_certs().contains(Serial::from(8u64))
    )
}

fn made(alloc: Global) -> Option<Told> {
    let data = data(alloc)?;
    let key = rsa(b"abc");
    called!(alloc, data.into_crl(alloc, &StandIn, &key), list => is_list(list, false))
}

/// A list that was made, and is read from its own octets.
pub fn read_again(alloc: Global) -> Option<Told> {
    let data = data(alloc)?;
    let key = rsa(b"abc");
    let made = data.into_crl(alloc, &StandIn, &key);
    drop(key);
    let made = made.ok()?;
    let told = called!(alloc, round_trip::read_again(alloc, &made), again => is_list(again, false));
    drop(made);
    told
}

/// The list of the key that the bits are, with the number 12: it revokes the numbers 1 to 8.
pub fn list_by(alloc: Global, bits: &'static [u8]) -> Option<Crl> {
    let data = data_of(alloc, bits)?;
    let key = rsa(bits);
    let made = data.into_crl(alloc, &StandIn, &key);
    drop(key);
    made.ok()
}

// Whether the list answers as it was made, and from a table of its serials or not: a walk looks at
// all eight entries to tell that one isn't there, a table at four at most.
fn is_list(list: &Crl, is_cached: bool) -> bool {
    let (is_in, looks) = list.contains_counted(Serial::from(9u64));
    let has = list.contains(Serial::from(1u64)) && list.contains(Serial::from(8u64));
    has && !is_in && if is_cached { looks <= 4 } else { looks == 8 }
}

const UNDER: &str = "rsync://example.com/m/x.crl";

// Whether the store has the list under this URI, with a table.
fn has_list(store: &CrlStore, under: &Rsync) -> bool {
    match store.get(under) {
        Some(list) => is_list(list, true),
        None => false,
    }
}

fn store_copied(alloc: Global) -> Option<Told> {
    let mut store = CrlStore::new(alloc);
    store.enable_serial_caching();
    let told = copied_with_list(alloc, &mut store);
    drop(store);
    told
}

fn copied_with_list(alloc: Global, store: &mut CrlStore) -> Option<Told> {
    let (under, list) = uri(alloc, UNDER).zip(list_by(alloc, b"abc"))?;
    store.push(under, list).ok()?;
    let under = uri(alloc, UNDER)?;
    called!(alloc, store.try_clone(alloc), copy => has_list(copy, &under))
}

fn of_entries(alloc: Global, path: &str) -> Option<Told> {
    match path {
        "rpki_crl::CrlEntry::encode" => entry_written(alloc),
        "rpki_crl::RevokedCertificates::take_from" => sequence_read(alloc),
        "rpki_crl::RevokedCertificates::encode_ref" => sequence_written(alloc),
        "rpki_crl::RevokedCertificates::try_clone" => sequence_copied(alloc),
        _ => None,
    }
}

fn of_lists(alloc: Global, path: &str) -> Option<Told> {
    match path {
        "rpki_crl::CrlStore::try_clone" => store_copied(alloc),
        "rpki_crl::InvalidExtension::try_clone" => extension_copied(alloc),
        "rpki_crl::TbsCertList::to_revoked" => collected(alloc),
        "rpki_crl::TbsCertList::into_crl" => made(alloc),
        _ => None,
    }
}

/// The calls of entries, of lists that are made, and of stores.
pub fn told(alloc: Global, path: &str) -> Option<Told> {
    of_entries(alloc, path).or(of_lists(alloc, path))
}
