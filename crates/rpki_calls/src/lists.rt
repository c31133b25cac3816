//! The data of revocation lists, and lists that are copied or read again.

use crate::asking::{Told, begin, called, read, written};
use crate::inputs::{LIST, list};
use crate::stores::read_again;
use bytes::Bytes;
use rpki_crl::{TbsCertList, named_key};
use rpki_der::{Cursor, Serial};
use rpki_tests::samples::shared;
use std::alloc::Global;

// With the table of its serials, which is copied too.
fn cached_copied(alloc: Global) -> Option<Told> {
    let mut list = list(alloc)?;
    let cached = list.cache_serials(alloc);
    let told = called!(alloc, list.try_clone(alloc), copy => copy.contains(Serial::from(42u64)));
    drop(list);
    cached.ok()?;
    told
}

// The key that the list names.
fn named(alloc: Global) -> Option<Told> {
    let list = list(alloc)?;
    let wanted = *list.as_cert_list().authority_key_identifier();
    drop(list);
    let octets = shared(alloc, LIST)?;
    let told = called!(alloc, named_key(alloc, &octets), key => *key == wanted);
    drop(octets);
    told
}

// The data of the list.
fn data(alloc: Global) -> Option<Bytes> {
    let list = list(alloc)?;
    let data = Vec::from_slice(alloc, list.signed_data().data());
    drop(list);
    Bytes::from_vec(data.ok()?).ok()
}

fn data_read(alloc: Global) -> Option<Told> {
    let octets = data(alloc)?;
    let mut cursor = Cursor::new(&octets);
    begin(alloc);
    let answer = TbsCertList::take_from(alloc, &mut cursor);
    let told = read(alloc, answer, &cursor);
    drop(octets);
    told
}

fn data_written(alloc: Global) -> Option<Told> {
    let mut out = Vec::from_slice(alloc, b"\xaa").ok()?;
    let (list, octets) = list(alloc).zip(data(alloc))?;
    begin(alloc);
    let answer = list.as_cert_list().encode_ref(alloc, &mut out);
    drop(list);
    written(alloc, answer, &out, octets.as_slice())
}

fn data_copied(alloc: Global) -> Option<Told> {
    let list = list(alloc)?;
    let told = called!(
        alloc,
        list.as_cert_list().try_clone(alloc),
        copy => copy.revoked_certs().contains(Serial::from(42u64))
    );
    drop(list);
    told
}

/// The calls of lists and of their data.
pub fn told(alloc: Global, path: &str) -> Option<Told> {
    match path {
        "rpki_crl::TbsCertList::take_from" => data_read(alloc),
        "rpki_crl::TbsCertList::encode_ref" => data_written(alloc),
        "rpki_crl::TbsCertList::try_clone" => data_copied(alloc),
        "rpki_crl::Crl::try_clone/cached" => cached_copied(alloc),
        "rpki_crl::named_key" => named(alloc),
        "rpki_crl::round_trip::read_again" => read_again(alloc),
        _ => None,
    }
}
