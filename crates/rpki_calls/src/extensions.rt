//! All extensions of a certificate.

use crate::asking::{Told, called, ended, vector};
use rpki_blocks::{Asn, Overclaim};
use rpki_der::Cursor;
use rpki_ext::{Extensions, KeyUsage};
use rpki_tests::samples::{self, rsa};
use std::alloc::Global;

fn bare() -> Extensions {
    let id = rsa(b"abc").key_identifier();
    Extensions::bare(id, KeyUsage::Ee, Overclaim::Trim)
}

// Whether what is behind the first octet is all of the extensions, or, after an error, their
// beginning.
fn begins_so(answer: &str, out: &[u8], elements: &[u8]) -> bool {
    let Some((head, tail)) = out.split_first() else {
        return false;
    };
    let is_fit = if answer == "ok" {
        tail == elements
    } else {
        elements.starts_with(tail)
    };
    *head == 0xaa && is_fit
}

fn all_written(alloc: Global) -> Option<Told> {
    let mut out = vector(alloc)?;
    let extensions = bare();
    let answer = ended(alloc, extensions.encode_row(alloc, &mut out));
    drop(extensions);
    let elements = samples::octets(alloc, WRITTEN)?;
    Some(Told::standing(answer, begins_so(answer, &out, &elements)))
}

// The identifier of the subject's key, Key Usage and Certificate Policies, in the order in which
// they are written.
const WRITTEN: &str =
    "301d0603551d0e04160414a9993e364706816aba3e25717850c26c9cd0d89d300e0603551d0f0101ff04040302078030180603551d200101ff040e300c300a06082b06010505070e03";

// The first two, AS1 to AS10 under the second identifier, and Certificate Policies.
const READ: &str =
    "301d0603551d0e04160414a9993e364706816aba3e25717850c26c9cd0d89d300e0603551d0f0101ff040403020780301d06082b0601050507011d0101ff040e300ca00a3008300602010102010a30180603551d200101ff040e300c300a06082b06010505070e03";

// Whether these are what was read: they list AS10, for this key.
fn is_read(extensions: &Extensions) -> bool {
    let lists = match extensions.as_resources.as_blocks() {
        Some(set) => set.contains(Asn::from(10)),
        None => false,
    };
    lists && extensions.subject_key_identifier == rsa(b"abc").key_identifier()
}

fn all_read(alloc: Global) -> Option<Told> {
    let octets = samples::shared(alloc, READ)?;
    let cursor = Cursor::new(&octets);
    called!(alloc, Extensions::from_row(alloc, &cursor), extensions => is_read(extensions))
}

fn elements(alloc: Global) -> Option<Extensions> {
    let octets = samples::shared(alloc, READ)?;
    Extensions::from_row(alloc, &Cursor::new(&octets)).ok()
}

fn sequence_copied(alloc: Global) -> Option<Told> {
    let extensions = elements(alloc)?;
    let told = called!(alloc, extensions.try_clone(alloc), copy => is_read(copy));
    drop(extensions);
    told
}

/// The calls of `rpki_ext`.
pub fn told(alloc: Global, path: &str) -> Option<Told> {
    match path {
        "rpki_ext::Extensions::from_row" => all_read(alloc),
        "rpki_ext::Extensions::try_clone" => sequence_copied(alloc),
        "rpki_ext::Extensions::encode_row" => all_written(alloc),
        _ => None,
    }
}
