//! Authority Information Access (RFC 6487 4.8.7).
ghost use Rattle.std.specs.Prelude.{◌≡◌, ◌++◌, length, take, OnErr, OnOk, Some, option_map};
ghost use Rattle.rpki_der.specs.Place.{remaining, Keeps};
ghost use Rattle.rpki_der.specs.Answers.{AnswersOrMemory};
ghost use Rattle.rpki_der.specs.Place.Reading.{ReturnsOrMemory, TookOrMemory};
ghost use Rattle.rpki_der.specs.Values.{AreOctets};
ghost use Rattle.rpki_der.specs.Writers.{SaysLong, Writes};
ghost use Rattle.rpki_ext.specs.Kinds.{part};
ghost use Rattle.rpki_ext.specs.ExtensionKinds.{issuers_of, authority_information_access, authority_information_access_format};
ghost use Rattle.rpki_ext.specs.Contents.{identified};

use crate::encode::append_description;
use crate::names::only_rsync;
use crate::reading::is;
use rpki_der::{Cursor, DecodeError, EncodeError, enclose, end_extension, oid, tag};
use rpki_parts::Rsync;
use std::alloc::Global;

// The only rsync URI of a description that says where certificates of issuers are.
fn issuer_in(alloc: Global, mut description: Cursor<'_>) -> Result<Rsync, DecodeError>
    ensures { ReturnsOrMemory result (identified issuers_of (remaining description.entry)) }
{
    let method = description.take_oid()?;
    if !is(method, oid::AD_CA_ISSUERS) {
        return Err(DecodeError::BadValue);
    }
    only_rsync(alloc, &description)
}

// Reads as `take_authority_information_access` does, by the reading function.
#[tactic(auto, unfolding(crate::specs::ExtensionKinds::authority_information_access_format))]
fn read(alloc: Global, cursor: &mut Cursor<'_>) -> Result<Rsync, DecodeError>
    ensures reads { TookOrMemory authority_information_access.format.read cursor.old result cursor.new }
    ensures keeps { Keeps result cursor.old cursor.new }
    ensures octets { AreOctets (remaining cursor.old) }
{
    let mut ahead = cursor.fork();
    let mut descriptions = ahead.take_sequence()?;
    let description = descriptions.take_sequence()?;
    descriptions.finish()?;
    let uri = issuer_in(alloc, description)?;
    *cursor = ahead;
    Ok(uri)
}

/// Reads the content of Authority Information Access: the URI of the issuer's certificate (RFC 6487
/// 4.8.7).
///
/// Returns the only rsync URI among the names of the only access description, whose method is
/// id-ad-caIssuers.
///
/// # Errors
///
/// Returns an error if the bytes at the cursor don't begin with such a content; which error is
/// unspecified. A second access description and a second rsync URI are rejected (own rules: RFC
/// 6487 4.8.7 allows further URIs). Returns `Memory` if memory ran out. The cursor then stays where
/// it was.
pub fn take_authority_information_access(
    alloc: Global,
    cursor: &mut Cursor<'_>,
) -> Result<Rsync, DecodeError>
    ensures { AnswersOrMemory authority_information_access.format cursor.old result cursor.new }
{
    read(alloc, cursor)
}

// Appends the content: a SEQUENCE of one description, or a part of it where it errs.
#[tactic(auto, unfolding(crate::specs::ExtensionKinds::authority_information_access_format))]
fn append_content(out: &mut Vec<u8>, uri: &Rsync) -> Result<(), EncodeError>
    ensures ok { OnOk result (out.new.items
        ≡ out.old.items ++ authority_information_access_format.written uri.now) }
    ensures err { OnErr result (take (length out.old.items) out.new.items ≡ out.old.items) }
    ensures too_long { SaysLong result (authority_information_access_format.written uri.now) }
{
    let start = out.len();
    append_description(out, oid::AD_CA_ISSUERS, uri.as_bytes())?;
    enclose(out, start, tag::SEQUENCE)
}

/// Appends Authority Information Access, not critical, with one access description: this URI of the
/// issuer's certificate (RFC 6487 4.8.7).
///
/// # Errors
///
/// Returns `TooLong` if the content would have 2^32 bytes or more, or `Memory`. `out` is then
/// unchanged.
#[tactic(auto, using(rpki_der::proofs::ExtensionWritten::content_longer))]
pub fn encode_authority_information_access(
    _alloc: Global,
    out: &mut Vec<u8>,
    uri: &Rsync,
) -> Result<(), EncodeError>
    ensures { Writes (part authority_information_access (Some uri.now)) out.old.items
        result out.new.items }
{
    let start = out.len();
    let content = append_content(out, uri);
    end_extension(out, start, oid::PE_AUTHORITY_INFO_ACCESS, false, content)
}

// Appends the extension, where there is a URI.
pub(crate) fn put_authority_information_access(
    alloc: Global,
    out: &mut Vec<u8>,
    uri: Option<&Rsync>,
) -> Result<(), EncodeError>
    ensures { Writes (part authority_information_access (option_map (λ u. u.now) uri.entry))
        out.old.items result out.new.items }
{
    match uri {
        Some(uri) => encode_authority_information_access(alloc, out, uri),
        None => Ok(()),
    }
}
