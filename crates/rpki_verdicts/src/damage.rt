//! Files among others that damage a cache.
ghost use Rattle.std.specs.Prelude.{◌≡◌, ◌↔◌, IsTrue};
ghost use Rattle.rpki_verdicts.specs.Damage.{AreSoMany, IsBrokenList, IsNeither, IsUnknownFile, is_list_name, is_named_apart, is_object_name};

use rpki_files::{BareObject, Front, looks_like_locator};

// Whether a file begins with no certificate, and is no list.
fn is_neither(file: &BareObject<'_>) -> bool
    ensures { IsTrue result ↔ IsNeither file.now }
{
    match file.front() {
        Front::Certificate(_) | Front::List => false,
        Front::Neither => true,
    }
}

// Whether a name is that of a list.
fn is_list_name(name: &str) -> bool
    ensures { result ≡ is_list_name name.now }
{
    name.as_bytes().ends_with(b".crl".as_slice())
}

// Whether a name is that of a signed object.
fn is_object_name(name: &str) -> bool
    ensures { result ≡ is_object_name name.now }
{
    let name = name.as_bytes();
    name.ends_with(b".roa".as_slice())
        || name.ends_with(b".mft".as_slice())
        || name.ends_with(b".gbr".as_slice())
        || name.ends_with(b".asa".as_slice())
        || name.ends_with(b".tak".as_slice())
        || name.ends_with(b".sig".as_slice())
        || name.ends_with(b".spl".as_slice())
}

// Whether a name is that of a file that isn't read here.
fn is_named_apart(name: &str) -> bool
    ensures { result ≡ is_named_apart name.now }
{
    is_list_name(name) || is_object_name(name)
}

// Whether a file has the name of a list and is none.
fn is_broken_list(file: &BareObject<'_>) -> bool
    ensures { IsTrue result ↔ IsBrokenList file.now }
{
    is_neither(file) && is_list_name(file.name())
}

// Whether a file is another one that is neither, isn't named as a signed object, and doesn't look
// like a TAL.
fn is_other(file: &BareObject<'_>) -> bool
    ensures { IsTrue result ↔ IsUnknownFile file.now }
{
    is_neither(file)
        && !is_named_apart(file.name())
        && !looks_like_locator(file.octets().as_slice())
}

/// Returns how many files have the name of a CRL and are none.
pub fn count_broken_lists(files: &[BareObject<'_>]) -> usize
    ensures { AreSoMany IsBrokenList files.now result }
{
    let mut count = 0;
    for file in files {
        if is_broken_list(file) {
            count += 1;
        }
    }
    count
}

/// Returns how many others are neither certificates nor CRLs, and are neither named as signed objects
/// nor look like TALs.
pub fn count_others(files: &[BareObject<'_>]) -> usize
    ensures { AreSoMany IsUnknownFile files.now result }
{
    let mut count = 0;
    for file in files {
        if is_other(file) {
            count += 1;
        }
    }
    count
}
