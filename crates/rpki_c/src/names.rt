//! Name chaining of paths for C.
ghost use Rattle.std.specs.Prelude.{◌≡◌, ◌⊎◌};
ghost use Rattle.rpki_c.specs.Telling.{AreToldNames, FindsNames, IsToldNames, names_fault, names_place};

use crate::faults::{BAD_CALL, MEMORY, NONE, OTHER_NAME, of_path};
use crate::strings::{RpkiStrings, cut};
use bytes::Bytes;
use rpki_cert::Kind;
use rpki_path::{GivenPath, Member, PathError, first_unchained};
use std::alloc::Global;

// What is found of the members' names. `None` where there are none. Names don't depend on what the
// last one is.
fn found(alloc: Global, members: &[Member<'_>]) -> Option<Result<Option<usize>, PathError>>
    ensures { FindsNames members.now result }
{
    let path = GivenPath::of(members, Kind::Authority)?;
    Some(first_unchained(alloc, &path))
}

// The fault that it is, and its place.
fn told(answer: Option<Result<Option<usize>, PathError>>) -> (u32, u64)
    ensures fault { result.0 ≡ names_fault answer }
    ensures place { result.1 ≡ names_place answer }
{
    match answer {
        Some(Ok(None)) => (NONE, 0),
        Some(Ok(Some(place))) => (OTHER_NAME, place as u64),
        Some(Err(error)) => {
            let answer = (of_path(&error.fault), error.index as u64);
            drop(error);
            answer
        }
        None => (BAD_CALL, 0),
    }
}

// What is answered of the names of the members' strings.
fn told_of(alloc: Global, strings: &[Bytes]) -> (u32, u64)
    ensures { ((result.0 ≡ MEMORY) × (result.1 ≡ 0)) ⊎ AreToldNames strings.now result.0 result.1 }
{
    match Member::of_each(alloc, strings) {
        Ok(members) => {
            let found = found(alloc, &members);
            drop(members);
            told(found)
        }
        Err(_) => (MEMORY, 0),
    }
}

/// Checks that the names of a path chain (RFC 6487 7.2, RFC 5280 6.1.3 (a) (4)): the trust anchor's
/// issuer has to be its own subject, and each later certificate's issuer the subject of the one
/// above it. The certificates follow one another and have these lengths, the trust anchor first.
///
/// # Errors
///
/// Returns the number of an error, or 0: 600 if names don't chain. Writes the path index of the
/// first certificate at which that is so.
///
/// # Not checked
///
/// Everything else.
#[unsafe(no_mangle)]
pub extern "C" fn rpki_path_names(alloc: Global, members: &RpkiStrings<'_>, place: &mut u64) -> u32
    ensures { IsToldNames members.now result place.new }
{
    *place = 0;
    match cut(alloc, members.octets, members.lengths) {
        Ok(Some(strings)) => {
            let (fault, at) = told_of(alloc, &strings);
            drop(strings);
            *place = at;
            fault
        }
        Ok(None) => BAD_CALL,
        Err(_) => MEMORY,
    }
}
