//! Files that are TALs.
ghost use Rattle.std.specs.Char.{is_ascii_whitespace};
ghost use Rattle.std.specs.List.{list_all, starts_with};
ghost use Rattle.std.specs.Prelude.{◌≡◌, nat_eq, codes, option_map, IfOk};
ghost use Rattle.rpki_files.specs.LocatorFiles.{IsReadAs, behind_comments, looks_like_locator, stands_before_uris};

use rpki_keys::tal::{Tal, TalError};
use std::alloc::{AllocError, Global};

/// Reads bytes as a TAL of this name, in strict mode or not, or finds why they aren't one (RFC 8630
/// 2.2).
///
/// # Errors
///
/// Returns an error only if memory runs out.
pub fn read_locator(
    alloc: Global,
    name: &str,
    octets: &[u8],
    strict: bool,
) -> Result<Result<Tal, TalError>, AllocError>
    ensures read { IfOk result (IsReadAs strict octets.now) }
    ensures name { IfOk result (λ read. IfOk read (λ tal. tal.name ≡ name.now)) }
{
    let name = String::from_str(alloc, name)?;
    match Tal::read_named(alloc, name, octets, strict) {
        Ok(tal) => Ok(Ok(tal)),
        Err(fault) => {
            if fault.is_memory() {
                drop(fault);
                return Err(AllocError);
            }
            Ok(Err(fault))
        }
    }
}

// Whether a line is one of the comment section.
fn is_comment(line: &[u8]) -> bool
    ensures { result ≡ starts_with nat_eq line.now (codes "#") }
{
    line.starts_with("#".as_bytes())
}

// Whether a line is one of white space alone.
fn is_blank(line: &[u8]) -> bool
    ensures { result ≡ list_all is_ascii_whitespace line.now }
{
    line.iter().all(|octet| octet.is_ascii_whitespace())
}

// Whether a line stands before the URIs of a locator.
fn stands_before_uris(line: &[u8]) -> bool
    ensures { result ≡ stands_before_uris line.now }
{
    is_comment(line) || is_blank(line)
}

// The first line behind comments and empty lines.
fn behind_comments(octets: &[u8]) -> Option<&[u8]>
    ensures { option_map (λ line. line.now) result ≡ behind_comments octets.now }
{
    octets
        .split(|octet| *octet == b'\n')
        .find(|line| !stands_before_uris(line))
}

/// Returns whether bytes look like a TAL, whether they are one or not: the first line after
/// comments and empty lines starts with a URI.
pub fn looks_like_locator(octets: &[u8]) -> bool
    ensures { result ≡ looks_like_locator octets.now }
{
    match behind_comments(octets) {
        Some(line) => {
            line.starts_with("rsync:".as_bytes()) || line.starts_with("http".as_bytes())
        }
        None => false,
    }
}
