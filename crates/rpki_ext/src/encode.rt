//! What the writers of extensions share.
ghost use Rattle.std.specs.Prelude.{◌≡◌, ◌^◌, ◌≤◌, ◌%◌, ◌++◌, nat_lt, true, length, take, OnErr, OnOk};
ghost use Rattle.std.specs.List.{list_all};
ghost use Rattle.rpki_der.specs.Primitives.Reading.{is_oid};
ghost use Rattle.rpki_der.specs.Values.{nested};
ghost use Rattle.rpki_der.specs.Extensions.{extension_part};
ghost use Rattle.rpki_der.specs.Writers.{SaysLong, Writes};
ghost use Rattle.rpki_ext.specs.ExtensionKinds.{description};

use crate::names::URI;
use rpki_der::{EncodeError, enclose, end_extension, put_oid, put_value, tag};

// Appends the octets as the content of a value with the last identifier octet, and that value as
// the content of one with the octet before it, and so on; or a part of them where it errs.
fn append_nested(out: &mut Vec<u8>, tags: &[u8], octets: &[u8]) -> Result<(), EncodeError>
    requires { list_all (λ tag. nat_lt (tag % 32) 31) tags.now ≡ true }
    ensures ok { OnOk result (out.new.items ≡ out.old.items ++ nested tags.now octets.now) }
    ensures err { OnErr result (take (length out.old.items) out.new.items ≡ out.old.items) }
    ensures too_long { SaysLong result (nested tags.now octets.now) }
{
    match tags {
        [] => Ok(out.extend_from_slice(octets)?),
        [tag] => put_value(out, *tag, octets),
        [tag, inner @ ..] => {
            let start = out.len();
            append_nested(out, inner, octets)?;
            enclose(out, start, *tag)
        }
    }
}

/// Appends the extension whose content is a value with the first of these identifier octets, which
/// has one with the next, and so on; the last one has these bytes.
#[tactic(auto, using(rpki_der::proofs::ExtensionWritten::content_longer))]
pub(crate) fn put_nested_extension(
    out: &mut Vec<u8>,
    id: &[u8],
    critical: bool,
    tags: &[u8],
    octets: &[u8],
) -> Result<(), EncodeError>
    requires oid { is_oid id.now ≡ true }
    requires low { list_all (λ tag. nat_lt (tag % 32) 31) tags.now ≡ true }
    ensures { Writes (extension_part id.now critical (nested tags.now octets.now))
        out.old.items result out.new.items }
{
    let start = out.len();
    let content = append_nested(out, tags, octets);
    end_extension(out, start, id, critical, content)
}

/// Appends the description of this method with this URI (RFC 5280 4.2.2.1), or a part of it if it
/// fails.
#[tactic(auto, unfolding(crate::specs::GeneralNames::uri_format))]
pub(crate) fn append_description(
    out: &mut Vec<u8>,
    method: &[u8],
    uri: &[u8],
) -> Result<(), EncodeError>
    requires { is_oid method.now ≡ true }
    ensures ok { OnOk result (out.new.items ≡ out.old.items ++ description method.now uri.now) }
    ensures err { OnErr result (take (length out.old.items) out.new.items ≡ out.old.items) }
    ensures too_long { SaysLong result (description method.now uri.now) }
{
    let start = out.len();
    put_oid(out, method)?;
    put_value(out, URI, uri)?;
    enclose(out, start, tag::SEQUENCE)
}
