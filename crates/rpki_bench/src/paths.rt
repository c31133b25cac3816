//! Paths that are validated, without revocation lists and with them.
ghost use Rattle.std.specs.Prelude.{◌≤◌};

use crate::judging::{Yes, went_well};
use bytes::Bytes;
use rpki_cert::Cert;
use rpki_crl::{Crl, CrlStore};
use rpki_der::Time;
use rpki_keys::RsaVerifier;
use rpki_parts::{Rsync, TalInfo, Verifier};
use rpki_path::{Leaf, validate_path, validate_path_with};
use std::alloc::{AllocError, Global};
use std::rc::Rc;

// What a path is validated with.
#[derive(Drop)]
struct Asked<'a> {
    members: &'a [Bytes],
    store: Option<&'a CrlStore>,
    tal: &'a Rc<TalInfo>,
    now: Time,
}

fn shared(octets: &Bytes) -> Option<Bytes> {
    let octets: Result<Bytes, AllocError> = octets.clone();
    octets.ok()
}

// The values, which stand one behind the other and have these lengths, each in a buffer of its own.
fn pieces(alloc: Global, octets: &[u8], lengths: &[usize]) -> Option<Vec<Bytes>> {
    let mut pieces = Vec::new(alloc);
    let mut rest = octets;
    for length in lengths {
        let (piece, after) = rest.split_at_checked(*length)?;
        let piece = Bytes::copy_from_slice(alloc, piece).ok()?;
        pieces.push(piece).ok()?;
        rest = after;
    }
    Some(pieces)
}

// Where the member says that its issuer's list is.
fn list_uri(alloc: Global, member: &Bytes) -> Option<Rsync> {
    let cert = Cert::decode_shared(alloc, shared(member)?).ok()?;
    cert.as_tbs().crl_uri()?.try_clone(alloc).ok()
}

fn push_list(alloc: Global, store: &mut CrlStore, member: &Bytes, list: &Bytes) -> Option<()> {
    let uri = list_uri(alloc, member)?;
    let crl = Crl::decode_shared(alloc, shared(list)?).ok()?;
    store.push(uri, crl).ok()
}

// The lists of the members' issuers, from the anchor's on.
fn store_of(alloc: Global, members: &[Bytes], lists: &[Bytes], caches: bool) -> Option<CrlStore> {
    let mut store = CrlStore::new(alloc);
    if caches {
        store.enable_serial_caching();
    }
    let (_anchor, below) = members.split_first()?;
    for (member, list) in below.iter().zip(lists) {
        push_list(alloc, &mut store, member, list)?;
    }
    Some(store)
}

// Whether the path from the first member down to the last, an end entity, is valid.
fn is_valid<V: Verifier>(alloc: Global, asked: &Asked<'_>, verifier: &V) -> Option<bool> {
    let (anchor, below) = asked.members.split_first()?;
    let (last, cas) = below.split_last()?;
    let leaf = Some(Leaf::Ee(shared(last)?));
    let tal: Result<Rc<TalInfo>, AllocError> = asked.tal.clone();
    let tal = tal.ok()?;
    let now = asked.now;
    let path = match asked.store {
        Some(store) => {
            validate_path_with(alloc, store, anchor, cas, leaf, tal, true, now, verifier)
        }
        None => validate_path(alloc, anchor, cas, leaf, tal, true, now, verifier),
    };
    Some(went_well(path))
}

fn rounds_of<V: Verifier>(alloc: Global, asked: &Asked<'_>, verifier: &V, rounds: u32) -> u32
    ensures { result ≤ rounds }
{
    for round in 0..rounds {
        if is_valid(alloc, asked, verifier) != Some(true) {
            return round;
        }
    }
    rounds
}

fn validated(
    alloc: Global,
    members: &[Bytes],
    store: Option<&CrlStore>,
    signed: bool,
    rounds: u32,
) -> Option<u32> {
    let now = Time::utc(2030, 1, 1, 0, 0, 0)?;
    let tal = TalInfo::from_name(String::new(alloc)).into_rc(alloc).ok()?;
    let asked = Asked {
        members,
        store,
        tal: &tal,
        now,
    };
    Some(if signed {
        rounds_of(alloc, &asked, &RsaVerifier, rounds)
    } else {
        rounds_of(alloc, &asked, &Yes, rounds)
    })
}

fn validated_alone(
    alloc: Global,
    octets: &[u8],
    lengths: &[usize],
    signed: bool,
    rounds: u32,
) -> Option<u32> {
    let members = pieces(alloc, octets, lengths)?;
    validated(alloc, &members, None, signed, rounds)
}

fn validated_with(
    alloc: Global,
    octets: &[u8],
    lengths: &[usize],
    caches: bool,
    signed: bool,
    rounds: u32,
) -> Option<u32> {
    let pieces = pieces(alloc, octets, lengths)?;
    let (members, lists) = pieces.split_at_checked(pieces.len() / 2 + 1)?;
    let store = store_of(alloc, members, lists, caches)?;
    validated(alloc, members, Some(&store), signed, rounds)
}

/// Validates so many times the path of an anchor, authorities and an end entity, which stand one
/// behind the other and have these lengths, at the beginning of 2030: with real signatures where
/// `signed` isn't 0, else with a verifier that says yes. Answers how often that went well.
#[unsafe(no_mangle)]
pub extern "C" fn rpki_path(
    alloc: Global,
    octets: &[u8],
    lengths: &[usize],
    signed: u32,
    rounds: u32,
) -> u32 {
    validated_alone(alloc, octets, lengths, signed != 0, rounds).unwrap_or(0)
}

/// Validates the path in the way of [`rpki_path`] and asks revocation lists: behind the members
/// stands a list of each of them but the end entity, in their order. The store of lists is made
/// once, and sorts their serial numbers where `caches` isn't 0.
#[unsafe(no_mangle)]
pub extern "C" fn rpki_path_with(
    alloc: Global,
    octets: &[u8],
    lengths: &[usize],
    caches: u32,
    signed: u32,
    rounds: u32,
) -> u32 {
    let (caches, signed) = (caches != 0, signed != 0);
    validated_with(alloc, octets, lengths, caches, signed, rounds).unwrap_or(0)
}
