//! What both kinds of URIs have in common.
ghost use Rattle.std.specs.Prelude.{◌≡◌, ◌≤◌, ◌↔◌, IsTrue, IsNone, IfSome, true, false, length, take, drop};
ghost use Rattle.std.specs.Char.{is_ascii_graphic};
ghost use Rattle.std.specs.List.{list_all, position_or_len, slice_split};
ghost use Rattle.rpki_parts.specs.Uris.Tests as parts;
ghost use Rattle.rpki_parts.specs.Uris.{ArePrintable, IsHttps, IsRsync, AreIdentical, HasNoPath, IsParent};

use std::alloc::AllocError;
use std::str;
use thiserror::Error;

/// The bytes aren't a URI of the expected scheme.
#[derive(Debug, Clone, Copy, PartialEq, Eq, Error)]
#[error("bad URI")]
pub struct BadUri;

impl BadUri {
    ghost use Rattle.std.specs.Prelude.{◌≡◌, codes};

    /// Returns the type's name.
    pub fn name(&self) -> &'static str
        ensures { result.now ≡ codes "BadUri" }
    {
        "BadUri"
    }
}

/// The reason why a text gave no URI.
#[derive(Debug, Drop, Error)]
pub enum UriError {
    /// The text isn't a URI of the expected scheme.
    #[error("bad URI")]
    BadUri,
    /// Memory ran out.
    #[error("out of memory")]
    Memory,
}

impl UriError {
    ghost use Rattle.std.specs.Prelude.{◌≡◌, ◌↔◌, IsTrue};
    ghost use Rattle.rpki_parts.specs.UriErrors.{uri_error_name};
    ghost use Rattle.rpki_parts.specs.declared.uri.UriError.TheVariants as error;

    /// Returns the variant's name.
    pub fn name(&self) -> &'static str
        ensures { result.now ≡ uri_error_name self.now }
    {
        match self {
            UriError::BadUri => "BadUri",
            UriError::Memory => "Memory",
        }
    }

    /// Returns whether memory ran out.
    pub fn is_memory(&self) -> bool
        ensures { IsTrue result ↔ self.now ≡ error.Memory }
    {
        match self {
            UriError::BadUri => false,
            UriError::Memory => true,
        }
    }
}

impl From<BadUri> for UriError {
    ghost use Rattle.std.specs.Prelude.{◌≡◌};
    ghost use Rattle.rpki_parts.specs.declared.uri.UriError.TheVariants as error;

    ghost from_gives = { λ _ e. e ≡ error.BadUri };

    fn from(_error: BadUri) -> UriError {
        UriError::BadUri
    }
}

impl From<AllocError> for UriError {
    ghost use Rattle.std.specs.Prelude.{◌≡◌};
    ghost use Rattle.rpki_parts.specs.declared.uri.UriError.TheVariants.{Memory};

    ghost from_gives = { λ _ e. e ≡ Memory };

    fn from(_error: AllocError) -> UriError {
        UriError::Memory
    }
}

/// The number of bytes of `rsync://` and of `https://`.
const SCHEME_LENGTH: usize = 8;

// The text of a URI, which is ASCII.
pub(crate) fn text_of(octets: &[u8]) -> &str
    requires { ArePrintable octets.now }
    ensures { result.now ≡ octets.now }
{
    match str::from_utf8(octets) {
        Ok(text) => text,
        Err(_) => unreachable!(),
    }
}

// Where the first slash stands, or the length where there is none.
fn first_slash(text: &[u8]) -> usize
    ensures place { result ≡ position_or_len parts.is_slash text.now }
    ensures within { result ≤ length text.now }
{
    let slash = text.iter().position(|octet| *octet == b'/');
    slash.unwrap_or(text.len())
}

// What stands before the first slash, and the rest.
fn split_at_slash(text: &[u8]) -> (&[u8], &[u8])
    ensures before { result.0.now ≡ parts.before_slash text.now }
    ensures rest { result.1.now ≡ parts.from_slash text.now }
{
    text.split_at(first_slash(text))
}

// The scheme as it is written, and what follows it.
fn split_scheme(uri: &[u8]) -> (&[u8], &[u8])
    ensures scheme { result.0.now ≡ take 8 uri.now }
    ensures after { result.1.now ≡ drop 8 uri.now }
{
    uri.split_at(SCHEME_LENGTH.min(uri.len()))
}

// The authority, and what follows it.
fn split_authority(uri: &[u8]) -> (&[u8], &[u8])
    ensures authority { result.0.now ≡ parts.authority_of uri.now }
    ensures rest { result.1.now ≡ parts.rest_of uri.now }
{
    let (_, after) = split_scheme(uri);
    split_at_slash(after)
}

// Whether this is the scheme, and an authority follows it.
fn has_scheme(scheme: &[u8], uri: &[u8]) -> bool
    ensures { result ≡ parts.has_scheme scheme.now uri.now }
{
    let (written, _) = split_scheme(uri);
    let (authority, _) = split_authority(uri);
    written.eq_ignore_ascii_case(scheme) && !authority.is_empty()
}

// Whether all octets are `21` to `7E`. Goes on past one that isn't, so that the compiler can test
// many at once.
fn is_printable(text: &[u8]) -> bool
    ensures { result ≡ list_all is_ascii_graphic text.now }
{
    let mut all = true;
    for octet in text {
        all &= octet.is_ascii_graphic();
    }
    all
}

// Whether these octets are a URI of the scheme.
fn is_uri(scheme: &[u8], uri: &[u8]) -> bool
    ensures { result ≡ parts.is_uri scheme.now uri.now }
{
    has_scheme(scheme, uri) && is_printable(uri)
}

// Whether these octets are an https URI.
pub(crate) fn is_https(uri: &[u8]) -> bool
    ensures value { result ≡ parts.is_https uri.now }
    ensures grammar { IsTrue result ↔ IsHttps uri.now }
{
    is_uri(b"https://", uri)
}

// The module of an rsync URI, and the path.
fn module_and_path(uri: &[u8]) -> (&[u8], &[u8])
    ensures module { result.0.now ≡ parts.module_of uri.now }
    ensures path { result.1.now ≡ parts.path_of uri.now }
{
    let (_, rest) = split_authority(uri);
    let (module, tail) = split_at_slash(without_first(rest));
    (module, without_first(tail))
}

fn without_first(text: &[u8]) -> &[u8]
    ensures { result.now ≡ drop 1 text.now }
{
    match text {
        [_, rest @ ..] => rest,
        [] => text,
    }
}

// Whether a path may have this segment.
fn is_segment(text: &[u8]) -> bool
    ensures { result ≡ parts.is_segment text.now }
{
    text != b".".as_slice() && text != b"..".as_slice()
}

// Whether a segment of a path begins with a dot. Goes on past one that does, so that the compiler
// can test many octets at once.
fn may_have_dots(path: &[u8]) -> bool
    ensures { result ≡ false
        → list_all parts.is_segment (slice_split parts.is_slash path.now) ≡ true }
{
    let mut begins = false;
    let mut before = b'/';
    for octet in path {
        begins |= (before == b'/') & (*octet == b'.');
        before = *octet;
    }
    begins
}

// Whether none of the segments of a path is `.` or `..`.
fn has_no_dots(path: &[u8]) -> bool
    ensures { result ≡ list_all parts.is_segment (slice_split parts.is_slash path.now) }
{
    if !may_have_dots(path) {
        return true;
    }
    path.split(|octet| *octet == b'/').all(is_segment)
}

// Whether a module follows the authority, and then nothing or a path that may stand there.
fn has_module_and_path(uri: &[u8]) -> bool
    ensures { result ≡ parts.has_module_and_path uri.now }
{
    let (module, path) = module_and_path(uri);
    !module.is_empty() && has_no_dots(path)
}

// Whether these octets are an rsync URI.
pub(crate) fn is_rsync(uri: &[u8]) -> bool
    ensures value { result ≡ parts.is_rsync uri.now }
    ensures grammar { IsTrue result ↔ IsRsync uri.now }
{
    is_uri(b"rsync://", uri) && has_module_and_path(uri)
}

// Whether the authorities are equal without ASCII case, and what follows them is.
pub(crate) fn are_equal(uri: &[u8], other: &[u8]) -> bool
    ensures { result ≡ parts.are_equal uri.now other.now }
{
    let (authority, rest) = split_authority(uri);
    let (other_authority, other_rest) = split_authority(other);
    authority.eq_ignore_ascii_case(other_authority) && rest == other_rest
}

// Without one slash at the end.
fn trimmed(text: &[u8]) -> &[u8]
    ensures { result.now ≡ parts.trimmed text.now }
{
    text.strip_suffix(b"/").unwrap_or(text)
}

// Whether they are equal without one slash at the end.
pub(crate) fn are_identical(uri: &[u8], other: &[u8]) -> bool
    requires uri { IsRsync uri.now }
    requires other { IsRsync other.now }
    ensures { IsTrue result ↔ AreIdentical uri.now other.now }
{
    are_equal(trimmed(uri), trimmed(other))
}

// Up to the last slash, with it.
fn through_slash(text: &[u8]) -> &[u8]
    ensures { result.now ≡ parts.through_slash text.now }
{
    let mut end = text.len();
    while end > 0 && text[end - 1] != b'/' {
        end -= 1;
    }
    &text[..end]
}

// The parent of an rsync URI, where its path isn't empty.
pub(crate) fn parent_of(uri: &[u8]) -> Option<&[u8]>
    requires { IsRsync uri.now }
    ensures none { IsNone result ↔ HasNoPath uri.now }
    ensures some { IfSome result (λ p. IsParent uri.now p.now) }
    ensures valid { IfSome result (λ p. IsRsync p.now) }
{
    let (_, path) = module_and_path(uri);
    if path.is_empty() {
        None
    } else {
        Some(through_slash(trimmed(uri)))
    }
}
