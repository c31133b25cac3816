//! Contents that are ended where they stand.

use crate::asking::{Told, vector, written};
use rpki_der::{enclose, end_extension, end_value, oid};
use std::alloc::Global;

fn enclosed(alloc: Global) -> Option<Told> {
    let mut out = vector(alloc)?;
    let start = out.len();
    let answer = enclose(&mut out, start, 0x30);
    written(alloc, answer, &out, b"\x30\x00")
}

fn value(alloc: Global) -> Option<Told> {
    let mut out = vector(alloc)?;
    let start = out.len();
    let answer = end_value(&mut out, start, 0xA0, Ok(()));
    written(alloc, answer, &out, b"\xa0\x00")
}

fn extension(alloc: Global) -> Option<Told> {
    let mut out = vector(alloc)?;
    let start = out.len();
    let answer = end_extension(&mut out, start, oid::CE_KEY_USAGE, false, Ok(()));
    written(alloc, answer, &out, b"\x30\x07\x06\x03\x55\x1d\x0f\x04\x00")
}

/// The calls of `rpki_der` that end a content.
pub fn told(alloc: Global, path: &str) -> Option<Told> {
    match path {
        "rpki_der::enclose" => enclosed(alloc),
        "rpki_der::end_value" => value(alloc),
        "rpki_der::end_extension" => extension(alloc),
        _ => None,
    }
}
