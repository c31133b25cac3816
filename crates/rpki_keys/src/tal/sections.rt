//! The sections of a TAL: comments, URIs, an empty line, and the digits of the key.
ghost use Rattle.std.specs.Prelude.{◌≡◌, ◌≢◌, ◌++◌, [], ◌∷◌, ◌↔◌, IsTrue, OnOk, IfOk, IfErr, map};
ghost use Rattle.std.specs.List.{flat_map};
ghost use Rattle.std.specs.Str.Lines.{lines};
ghost use Rattle.rpki_keys.specs.Digits.{without_white_space};
ghost use Rattle.rpki_keys.specs.Locators.{IsComment, uri_text};
ghost use Rattle.rpki_keys.specs.Sections.{FollowComments, BeginWithNo, FollowUris, StopUris};

use crate::tal::digits::push_digits;
use crate::tal::lines::first_line;
use crate::tal::tal_error::TalError;
use crate::tal::tal_uri::{TalUri, push_uri};
use std::alloc::{AllocError, Global};

// Whether a line is one of the comment section.
fn is_comment(line: &[u8]) -> bool
    ensures { IsTrue result ↔ IsComment line.now }
{
    matches!(line, [b'#', ..])
}

/// What follows the comments.
pub(crate) fn behind_comments(file: &[u8]) -> &[u8]
    ensures comments { FollowComments (lines file.now) (lines result.now) }
    ensures ends { BeginWithNo IsComment (lines result.now) }
{
    let mut rest = file;
    while !rest.is_empty() {
        let (line, after) = first_line(rest);
        if !is_comment(line) {
            break;
        }
        rest = after;
    }
    rest
}

/// Appends the URIs, and returns what follows the empty line behind them.
pub(crate) fn take_uris<'a>(
    alloc: Global,
    text: &'a [u8],
    uris: &mut Vec<TalUri>,
) -> Result<&'a [u8], TalError>
    requires { uris.old.items ≡ [] }
    ensures ok { IfOk result (λ rest. FollowUris (lines text.now)
        (map uri_text uris.new.items) ([] ∷ lines rest.now)) }
    ensures some { OnOk result (uris.new.items ≢ []) }
    ensures stops { IfErr result (λ e. StopUris e (lines text.now)) }
{
    let mut rest = text;
    while !rest.is_empty() {
        let (line, after) = first_line(rest);
        if line.is_empty() {
            return if uris.is_empty() {
                Err(TalError::NoUri)
            } else {
                Ok(after)
            };
        }
        push_uri(alloc, uris, line)?;
        rest = after;
    }
    Err(TalError::NoKey)
}

/// The digits of these lines.
pub(crate) fn digits_in(alloc: Global, text: &[u8]) -> Result<Vec<u8>, AllocError>
    ensures { IfOk result (λ digits. digits.items
        ≡ flat_map without_white_space (lines text.now)) }
{
    let mut digits = Vec::new(alloc);
    let mut rest = text;
    while !rest.is_empty() {
        let (line, after) = first_line(rest);
        push_digits(&mut digits, line)?;
        rest = after;
    }
    Ok(digits)
}
