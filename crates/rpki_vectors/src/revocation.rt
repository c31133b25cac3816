//! Whole paths whose members are looked for on revocation lists.
use crate::answer::Answer;
use crate::paths::{authorities, leaf, named, validated};
use crate::validating::tal;
use crate::words::{Words, bytes, moment, octets};
use bytes::Bytes;
use rpki_crl::{Crl, CrlStore};
use rpki_der::Time;
use rpki_parts::{Rsync, StandIn, Verifier};
use rpki_path::validate_path_with;

// The list of these digits.
fn list_of(out: &mut Answer, digits: &str) -> Option<Crl> {
    let list = octets(out, digits);
    match Crl::decode(out.alloc(), &list) {
        Ok(crl) => Some(crl),
        Err(error) => {
            if error.is_memory() {
                out.fail();
            }
            drop(error);
            None
        }
    }
}

// Stores the list `URI:LIST`, both in hexadecimal.
fn store_pair(out: &mut Answer, store: &mut CrlStore, pair: &str) -> Option<()> {
    let (uri, list) = pair.split_once(':')?;
    let uri = Rsync::from_bytes(bytes(out, uri)).ok();
    let (uri, list) = uri.zip(list_of(out, list))?;
    let pushed = store.push(uri, list);
    if pushed.is_err() {
        out.fail();
    }
    drop(pushed);
    Some(())
}

/// Returns the store of a word; `-` for one without lists. Lists behind a `cache` get a table.
pub fn store_of(out: &mut Answer, word: &str, is_cached: bool) -> Option<CrlStore> {
    let mut store = CrlStore::new(out.alloc());
    if is_cached {
        store.enable_serial_caching();
    }
    if word == "-" {
        return Some(store);
    }
    let mut is_fit = true;
    for pair in word.split(';') {
        if pair == "cache" {
            store.enable_serial_caching();
        } else {
            is_fit = is_fit && store_pair(out, &mut store, pair).is_some();
        }
    }
    if is_fit {
        Some(store)
    } else {
        drop(store);
        None
    }
}

fn asked<V: Verifier>(
    out: &mut Answer,
    words: &Words<'_>,
    anchor: &Bytes,
    now: Time,
    is_cached: bool,
    verifier: &V,
) -> Option<()> {
    let alloc = out.alloc();
    let (tal, store) = tal(out).zip(store_of(out, words.at(3), is_cached))?;
    let cas = authorities(out, words, 5);
    let leaf = leaf(out, words);
    let strict = words.is(2, "strict");
    let answer = validate_path_with(
        alloc, &store, anchor, &cas, leaf, tal, strict, now, verifier,
    );
    drop(store);
    validated(out, answer);
    Some(())
}

fn answered<V: Verifier>(out: &mut Answer, words: &Words<'_>, verifier: &V) -> Option<()> {
    let (now, anchor) = moment(words.at(1)).zip(named(out, words.at(4), "ta"))?;
    let mut plain = out.beside();
    let mut cached = out.beside();
    let is_fit = asked(&mut plain, words, &anchor, now, false, verifier);
    let is_fit = is_fit.and(asked(&mut cached, words, &anchor, now, true, verifier));
    drop(anchor);
    out.follow(&plain);
    out.follow(&cached);
    if is_fit.is_some() {
        out.text(plain.line());
        out.field("cached").compared(&plain, &cached);
    }
    drop(plain);
    drop(cached);
    is_fit
}

/// Tells what the path of the words behind the fourth answers, by a verifier, where the lists of a
/// store are asked; and whether the answer stays where serial numbers are cached.
pub fn judged<V: Verifier>(words: &Words<'_>, out: &mut Answer, verifier: &V) {
    if answered(out, words, verifier).is_none() {
        out.text("unfit");
    }
}

/// What the last member of a path holds, or which member is refused, and why, under the stand-in.
pub fn revocation(words: &Words<'_>, out: &mut Answer) {
    judged(words, out, &StandIn);
}
