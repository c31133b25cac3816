//! The document of a file.
ghost use Rattle.std.specs.Prelude.{◌≡◌, [], ◌∷◌, IfOk, OnOk, map, string_bytes};
ghost use Rattle.hex.specs.Hex.{encode_lower};
ghost use Rattle.sha2.specs.Sha256.{sha256};
ghost use Rattle.rpki_document.specs.Building.{Adds, AddsSome, nodes_of};
ghost use Rattle.rpki_keys.specs.Digits.{base64_of};
ghost use Rattle.rpki_keys.specs.Locators.{uri_text};
ghost use Rattle.rpki_cert.specs.Certificates.{IsCertificate};
ghost use Rattle.rpki_files.specs.Contents.{BeginsBefore, BeginsWithEither};
ghost use Rattle.rpki_files.specs.FaultRules.{rule_of, tal_rule};
ghost use Rattle.rpki_text.specs.KeyTexts.{IsLocatorKey};
ghost use Rattle.rpki_answers.specs.ShownFiles.{IsFileDocument, IsSaidOfFile, IsShownBefore, IsShownUnsigned, IsSubject, behind_nodes, file_nodes, found_nodes, hash_line, name_line, no_tal_nodes, place_nodes, rule_nodes, shows_stop, stop_nodes, tal_key_nodes, tal_nodes, unread_nodes, uri_line, where_line, whole_list_nodes};

use crate::details::add_sort;
use crate::showing::Options;
use crate::showing::certificates::add_certificate;
use crate::showing::lists::add_list;
use crate::showing::subjects::{Rejection, Subject};
use crate::told::{add_key, add_signature, add_unsigned, identifier_leaf, printed};
use base64::engine::general_purpose::STANDARD;
use rpki_cert::Cert;
use rpki_crl::Crl;
use rpki_document::{Leaf, Parts, Piece, add_each, add_inside, add_kept, add_line, add_told};
use rpki_files::rules::{Rule, of_tal};
use rpki_files::{Content, Flaw, Object, Place, Sort};
use rpki_keys::tal::{Tal, TalError, TalUri};
use rpki_text::keys::{KeyAnswer, LocatorKey, answer_of_locator};
use sha2::{Digest, Sha256};
use std::alloc::{AllocError, Global};

// The SHA-256 hash of octets, in hexadecimal.
fn hash_digits(alloc: Global, octets: &[u8]) -> Result<String, AllocError>
    ensures { IfOk result (λ made. string_bytes made ≡ encode_lower (sha256 octets.now)) }
{
    let digest = Sha256::digest(octets);
    hex::encode(alloc, digest.as_slice())
}

// And in base64.
#[tactic(auto, unfolding(rpki_keys::specs::Digits::base64_of))]
fn hash_base64(alloc: Global, octets: &[u8]) -> Result<String, AllocError>
    ensures { IfOk result (λ made. string_bytes made ≡ base64_of (sha256 octets.now)) }
{
    let digest = Sha256::digest(octets);
    STANDARD.encode(alloc, digest.as_slice())
}

fn add_hash(parts: &mut Parts<'_>, alloc: Global, octets: &[u8]) -> Result<(), AllocError>
    ensures { OnOk result (Adds (hash_line octets.now ∷ []) parts.old.items parts.new.items) }
{
    let digits = hash_digits(alloc, octets)?;
    let base64 = hash_base64(alloc, octets)?;
    let pieces = vec![in alloc;
        Piece::Show(Leaf::Own(digits)),
        Piece::Keep("hash_id", Leaf::Own(base64)),
    ]?;
    add_line(parts, "SHA-256", pieces)
}

fn add_name<'p>(
    parts: &mut Parts<'p>,
    alloc: Global,
    object: &'p Object<'_>,
) -> Result<(), AllocError>
    ensures { OnOk result (Adds (name_line object.now ∷ []) parts.old.items parts.new.items) }
{
    add_told(parts, alloc, "File", "file", Leaf::Text(object.name()))
}

// The name of a to-be-signed part, and that it isn't signed; or the name of a file, and the hash of
// its object.
fn add_file<'p>(
    parts: &mut Parts<'p>,
    alloc: Global,
    object: &'p Object<'_>,
    to_be_signed: bool,
) -> Result<(), AllocError>
    ensures { let its = file_nodes object.now to_be_signed in
        OnOk result (Adds its parts.old.items parts.new.items) }
{
    if to_be_signed {
        add_unsigned(parts, alloc)?;
        return add_name(parts, alloc, object);
    }
    add_name(parts, alloc, object)?;
    add_hash(parts, alloc, object.octets().as_slice())
}

// The number of bytes after an object, if there are some.
fn add_behind(parts: &mut Parts<'_>, alloc: Global, left: usize) -> Result<(), AllocError>
    ensures { OnOk result (Adds (behind_nodes left) parts.old.items parts.new.items) }
{
    if left == 0 {
        return Ok(());
    }
    let pieces = vec![in alloc;
        Piece::Tell("bytes_after_end", Leaf::Count(left as u64)),
        Piece::Say(", not read"),
    ]?;
    add_line(parts, "Bytes after its end", pieces)
}

// ---- TALs

fn add_uri<'p>(parts: &mut Parts<'p>, alloc: Global, uri: &'p TalUri) -> Result<(), AllocError>
    ensures { let its = uri_line (uri_text uri.now) in
        OnOk result (Adds (its ∷ []) parts.old.items parts.new.items) }
{
    let octets = uri.as_str().as_bytes();
    add_told(parts, alloc, "URI", "", Leaf::Characters(octets))
}

fn add_uris<'p>(parts: &mut Parts<'p>, alloc: Global, uris: &'p [TalUri]) -> Result<(), AllocError>
    ensures { let its = map (λ uri. uri_line (uri_text uri)) uris.now in
        OnOk result (Adds its parts.old.items parts.new.items) }
{
    for uri in uris {
        add_uri(parts, alloc, uri)?;
    }
    Ok(())
}

// The key, with the findings on it, and its identifier.
fn add_tal_key(
    parts: &mut Parts<'_>,
    alloc: Global,
    tal: &Tal,
    found: &KeyAnswer,
) -> Result<(), AllocError>
    ensures { OnOk result
        (Adds (tal_key_nodes tal.now.tal.key found.now) parts.old.items parts.new.items) }
{
    let key = tal.key_info();
    let said = printed(alloc, &LocatorKey(*found))?;
    let mut own = Vec::new(alloc);
    add_key(&mut own, alloc, "Key", said, None, key, found)?;
    add_inside(parts, "key", own)?;
    let identifier = identifier_leaf(alloc, &key.key_identifier())?;
    add_told(parts, alloc, "Subject key identifier", "ski", identifier)
}

fn add_tal<'p>(
    parts: &mut Parts<'p>,
    alloc: Global,
    name: &'p str,
    tal: &'p Tal,
) -> Result<(), AllocError>
    ensures { OnOk result ((key : _) × IsLocatorKey tal.now.tal.key key
        × Adds (tal_nodes name.now tal.now.tal key) parts.old.items parts.new.items) }
{
    let found = answer_of_locator(tal.key_info());
    add_told(parts, alloc, "Kind", "type", Leaf::Words("TAL", "tal"))?;
    add_kept(parts, alloc, "name", Leaf::Text(name))?;
    let mut uris = Vec::new(alloc);
    add_uris(&mut uris, alloc, tal.uris())?;
    add_each(parts, "trust_anchor_locations", uris)?;
    add_tal_key(parts, alloc, tal, &found)
}

// ---- files that are none

// The meaning of an error, and the section of the standard.
fn add_rule(parts: &mut Parts<'_>, alloc: Global, rule: Rule) -> Result<(), AllocError>
    ensures { OnOk result (Adds (rule_nodes rule) parts.old.items parts.new.items) }
{
    add_told(parts, alloc, "Why", "why", Leaf::Text(rule.says))?;
    let section = Leaf::Text(rule.section);
    add_told(parts, alloc, "Standard", "standard", section)
}

// A file that looks like a TAL.
fn add_no_tal(parts: &mut Parts<'_>, alloc: Global, error: &TalError) -> Result<(), AllocError>
    ensures { OnOk result ((rule : _) × (rule_of rule ≡ tal_rule error.now)
        × Adds (no_tal_nodes error.now rule) parts.old.items parts.new.items) }
{
    add_told(parts, alloc, "Kind", "kind", Leaf::Text("looks like a TAL"))?;
    add_told(parts, alloc, "Error", "fault", Leaf::Text(error.name()))?;
    add_rule(parts, alloc, of_tal(error))
}

// The flaw where reading stops, if one is known.
fn add_found(parts: &mut Parts<'_>, alloc: Global, found: Option<Flaw>) -> Result<(), AllocError>
    ensures { OnOk result (Adds (found_nodes found) parts.old.items parts.new.items) }
{
    match found {
        Some(flaw) => {
            let leaf = printed(alloc, &flaw)?;
            add_told(parts, alloc, "Found", "found", leaf)
        }
        None => Ok(()),
    }
}

// The field where reading stops.
fn add_where<'p>(
    parts: &mut Parts<'p>,
    alloc: Global,
    field: &'p str,
    octet: usize,
) -> Result<(), AllocError>
    ensures { let its = where_line field.now octet in
        OnOk result (Adds (its ∷ []) parts.old.items parts.new.items) }
{
    let pieces = vec![in alloc;
        Piece::Tell("field", Leaf::Text(field)),
        Piece::Say(", at byte "),
        Piece::Tell("byte", Leaf::Count(octet as u64)),
    ]?;
    add_line(parts, "Where", pieces)
}

// The place where reading stops, and what is expected there.
fn add_place(parts: &mut Parts<'_>, alloc: Global, place: Place) -> Result<(), AllocError>
    ensures { OnOk result (Adds (place_nodes place) parts.old.items parts.new.items) }
{
    add_where(parts, alloc, place.field, place.octet)?;
    let wanted = Leaf::Text(place.wanted);
    add_told(parts, alloc, "Expected", "expected", wanted)?;
    add_found(parts, alloc, place.found)
}

fn shows_stop(all: bool, sort: Option<Sort>) -> bool
    ensures { result ≡ shows_stop all sort }
{
    match sort {
        Some(_) => all,
        None => true,
    }
}

// The error, and the place where reading stops, if they are shown.
fn add_stop<'p>(
    parts: &mut Parts<'p>,
    alloc: Global,
    shows: bool,
    it: &'p Rejection,
) -> Result<(), AllocError>
    ensures { OnOk result (Adds (stop_nodes shows it.now) parts.old.items parts.new.items) }
{
    if !shows {
        return Ok(());
    }
    add_told(parts, alloc, "Error", "fault", Leaf::Text(it.why.as_str()))?;
    add_place(parts, alloc, it.place)
}

fn add_unread<'p>(
    parts: &mut Parts<'p>,
    alloc: Global,
    all: bool,
    it: &'p Rejection,
) -> Result<(), AllocError>
    ensures { OnOk result (Adds (unread_nodes all it.now) parts.old.items parts.new.items) }
{
    add_sort(parts, alloc, it.sort)?;
    add_stop(parts, alloc, shows_stop(all, it.sort), it)?;
    add_rule(parts, alloc, it.rule)
}

// ---- the whole

fn add_whole_certificate<'p>(
    parts: &mut Parts<'p>,
    alloc: Global,
    object: &'p Object<'_>,
    cert: &'p Cert,
    left: usize,
    options: &Options,
) -> Result<(), AllocError>
    requires { BeginsBefore IsCertificate object.now.octets cert.now left }
    ensures { let Is = IsShownBefore options.now object.now.octets cert.now left in
        OnOk result (AddsSome Is parts.old.items parts.new.items) }
{
    add_certificate(parts, alloc, object, cert, options)?;
    add_signature(parts, alloc)?;
    add_behind(parts, alloc, left)
}

fn add_whole_list<'p>(
    parts: &mut Parts<'p>,
    alloc: Global,
    list: &Crl,
    left: usize,
    options: &Options,
) -> Result<(), AllocError>
    ensures { let its = whole_list_nodes options.now list.now.list.fields left in
        OnOk result (Adds its parts.old.items parts.new.items) }
{
    add_list(parts, alloc, list.as_cert_list(), options.at, options.all)?;
    add_signature(parts, alloc)?;
    add_behind(parts, alloc, left)
}

// A to-be-signed part, here with a signature of no bytes.
fn add_to_be_signed<'p>(
    parts: &mut Parts<'p>,
    alloc: Global,
    whole: &'p Object<'_>,
    options: &Options,
) -> Result<(), AllocError>
    requires { BeginsWithEither whole.now.octets }
    ensures { let Is = IsShownUnsigned options.now whole.now.octets in
        OnOk result (AddsSome Is parts.old.items parts.new.items) }
{
    match whole.content() {
        Content::Certificate(cert, _) => add_certificate(parts, alloc, whole, cert, options),
        Content::List(list, _) => {
            add_list(parts, alloc, list.as_cert_list(), options.at, options.all)
        }
        Content::Neither(_) => unreachable!(),
    }
}

// The content of a file.
fn add_said<'p>(
    parts: &mut Parts<'p>,
    alloc: Global,
    object: &'p Object<'_>,
    subject: &'p Subject<'_>,
    options: &Options,
) -> Result<(), AllocError>
    requires { IsSubject options.now.strict object.now.octets subject.now }
    ensures { let Is = IsSaidOfFile options.now object.now subject.now in
        OnOk result (AddsSome Is parts.old.items parts.new.items) }
{
    match subject {
        Subject::Certificate(cert, left) => {
            add_whole_certificate(parts, alloc, object, *cert, *left, options)
        }
        Subject::List(list, left) => add_whole_list(parts, alloc, *list, *left, options),
        Subject::ToBeSigned(whole) => add_to_be_signed(parts, alloc, whole, options),
        Subject::Locator(tal) => add_tal(parts, alloc, object.name(), tal),
        Subject::NotALocator(error) => add_no_tal(parts, alloc, error),
        Subject::Unread(it) => add_unread(parts, alloc, options.all, it),
    }
}

/// Makes the document of a file that is this.
pub fn file_document<'p>(
    alloc: Global,
    object: &'p Object<'_>,
    subject: &'p Subject<'_>,
    options: &Options,
) -> Result<Parts<'p>, AllocError>
    requires { IsSubject options.now.strict object.now.octets subject.now }
    ensures { IfOk result (λ parts. IsFileDocument options.now object.now (nodes_of parts.items)) }
{
    let mut parts = Vec::new(alloc);
    add_file(&mut parts, alloc, object, subject.is_to_be_signed())?;
    add_said(&mut parts, alloc, object, subject, options)?;
    Ok(parts)
}
