//! The place where the reading of a file stops.
ghost use Rattle.std.specs.Prelude.{◌≡◌, ◌≢◌, ◌≤◌, ◌<◌, ◌↔◌, ◌++◌, ◌∷◌, ◌+◌, false, true, false, List, [], drop, length, map, Contains, IfErr, IfOk, IsErr, IsTrue, MatchResult, OnOk};
ghost use Rattle.rpki_parts.specs.Algorithms.{Algorithm};
ghost use Rattle.rpki_der.specs.declared.error.DecodeError.TheVariants as decoding;
ghost use Rattle.rpki_der.specs.Extensions.{Extension, IsExtension};
ghost use Rattle.rpki_cert.specs.Certificates.{version_format};
ghost use Rattle.rpki_crl.specs.Lists.{version_2};
ghost use Rattle.rpki_der.specs.Place.{Keeps, remaining};
ghost use Rattle.rpki_der.specs.Place.Reading.{Took};
ghost use Rattle.rpki_der.specs.Values.{AreOctets};
ghost use Rattle.rpki_crl.specs.RevokedEntries.{AreEntries, Entry, IsEntry, entry_format};
ghost use Rattle.rpki_der.specs.Tags.{SEQUENCE};
ghost use Rattle.rpki_files.specs.Flaws.{IsFirstFlaw};
ghost use Rattle.rpki_files.specs.KnownKinds.{known_kind};
ghost use Rattle.rpki_files.specs.PartTexts.{part_description};
ghost use Rattle.rpki_files.specs.StopPlaces.{AlgorithmsDiffer, AnswersWhether, AreComplete, AreFields, AreIncomplete, AreOfKinds, EncodesSome, HasAlgorithm, HasBoth, HasOther, HasTag, IsField, IsMisplaced, IsNextKind, IsSecond, IsStop, IsStopOf, MayStand, MayStandAs, Opens, Passes, ReadsAlgorithm, ReadsEntries, ReadsExtensions, ReadsSigned, ReadsToExtensions, StopsAmong, StopsAmongElements, StopsAt, StopsAtAlgorithm, StopsAtEntries, StopsAtExtension, StopsAtExtensions, StopsBefore, StopsBeforeExtensions, StopsBehind, StopsInEntries, StopsInExtensions, StopsInSigned, StopsInside, extensions_tag, extension_kind};

use crate::expected::{Field, Part};
use crate::flaws::Flaw;
use crate::found::flaw_at;
use crate::kinds::{Kind, without_value};
use bytes::Bytes;
use rpki_crl::CrlEntry;
use rpki_der::{Cursor, DecodeError, Serial, Time, tag, take_extension};
use rpki_ext::Extensions;
use rpki_parts::comparing::equal_algorithms;
use rpki_parts::{Name, PublicKey, RpkiSignatureAlgorithm, Validity};
use std::alloc::{AllocError, Global};

/// The part at which reading stops, the offset in the file at which it stops, what is expected
/// there, and what is found.
#[derive(Clone, Copy)]
pub struct Place {
    pub field: &'static str,
    pub octet: usize,
    pub wanted: &'static str,
    /// The first flaw of the bytes from there on.
    pub found: Option<Flaw>,
}

// Why a walk through the parts ends.
#[derive(Clone, Copy)]
enum Stop {
    At(Part, usize),
    Memory,
}

// The octet at which a cursor stands.
fn at(cursor: &Cursor<'_>) -> usize
    ensures octet { result ≡ cursor.now.from }
    ensures order { cursor.now.from ≤ cursor.now.to }
    ensures within { cursor.now.to ≤ length cursor.now.source }
{
    let (from, _) = cursor.span();
    from
}

// The stop for a fault of reading.
fn stopped(fault: DecodeError, part: Part, octet: usize) -> Stop
    ensures { IsStop (λ stop from. (stop ≡ part) × (from ≡ octet)
        × (fault ≢ decoding.Memory)) result }
{
    let ran_out = fault.is_memory();
    drop(fault);
    if ran_out {
        Stop::Memory
    } else {
        Stop::At(part, octet)
    }
}

// The inside of the value with this identifier octet that has to stand next.
fn opened<'a>(cursor: &mut Cursor<'a>, identifier: u8, part: Part) -> Result<Cursor<'a>, Stop>
    ensures stop { IfErr result (IsStop (StopsBefore (HasTag identifier) part cursor.old)) }
    ensures read { IfOk result (λ inner. Opens identifier cursor.old inner cursor.new) }
{
    let octet = at(cursor);
    match cursor.take_value(identifier) {
        Ok(inner) => {
            // For the proof only: they stand within the file.
            let _behind = at(cursor);
            let _inside = at(&inner);
            Ok(inner)
        }
        Err(fault) => Err(stopped(fault, part, octet)),
    }
}

// The value in which a cursor stands ends there.
fn ended(cursor: &Cursor<'_>) -> Result<(), Stop>
    ensures stop { IfErr result (IsStop (StopsBehind cursor.now)) }
    ensures end { OnOk result (cursor.now.from ≡ cursor.now.to) }
{
    let (from, end) = cursor.span();
    if from == end {
        Ok(())
    } else {
        Err(Stop::At(Part::Behind, from))
    }
}

// Version 3: 2 inside [0].
#[tactic(auto, unfolding(rpki_cert::specs::Certificates::version_format))]
fn version(cursor: &mut Cursor<'_>) -> Result<(), DecodeError>
    ensures reads { Took version_format.read cursor.old result cursor.new }
    ensures keeps { Keeps result cursor.old cursor.new }
    ensures octets { AreOctets (remaining cursor.old) }
{
    let mut ahead = cursor.fork();
    let mut tagged = ahead.take_value(tag::CONTEXT_CONSTRUCTED)?;
    let number = tagged.take_value(tag::INTEGER)?;
    if number.rest() != [2].as_slice() {
        return Err(DecodeError::BadValue);
    }
    tagged.finish()?;
    *cursor = ahead;
    Ok(())
}

// Version 2: 1.
#[tactic(auto, unfolding(rpki_crl::specs::Lists::version_2))]
fn list_version(cursor: &mut Cursor<'_>) -> Result<(), DecodeError>
    ensures reads { Took version_2.read cursor.old result cursor.new }
    ensures keeps { Keeps result cursor.old cursor.new }
    ensures octets { AreOctets (remaining cursor.old) }
{
    let mut ahead = cursor.fork();
    let number = ahead.take_value(tag::INTEGER)?;
    if number.rest() != [1].as_slice() {
        return Err(DecodeError::BadValue);
    }
    *cursor = ahead;
    Ok(())
}

// Reads a field.
fn take_field(alloc: Global, field: Field, cursor: &mut Cursor<'_>) -> Result<(), DecodeError>
    ensures { AnswersWhether (IsField field) cursor.old result cursor.new }
{
    match field {
        Field::Version => version(cursor),
        Field::ListVersion => list_version(cursor),
        Field::Serial => without_value(Serial::take_from(cursor)),
        Field::Algorithm => without_value(RpkiSignatureAlgorithm::x509_take_from(cursor)),
        Field::Issuer => without_value(Name::take_from(alloc, cursor)),
        Field::Validity => without_value(Validity::take_from(cursor)),
        Field::Subject => without_value(Name::take_from(alloc, cursor)),
        Field::Key => without_value(PublicKey::take_from(alloc, cursor)),
        Field::ThisUpdate => without_value(Time::take_from(cursor)),
        Field::NextUpdate => without_value(Time::take_from(cursor)),
        Field::SignatureAlgorithm => without_value(RpkiSignatureAlgorithm::x509_take_from(cursor)),
    }
}

// Passes over a field.
fn past(alloc: Global, field: Field, cursor: &mut Cursor<'_>) -> Result<(), Stop>
    ensures stop { IfErr result
        (IsStop (StopsBefore (IsField field) (Part.Field field) cursor.old)) }
    ensures read { OnOk result (Passes (IsField field) cursor.old cursor.new) }
{
    let octet = at(cursor);
    match take_field(alloc, field, cursor) {
        Ok(()) => {
            // For the proof only: it stands within the file.
            let _behind = at(cursor);
            Ok(())
        }
        Err(fault) => Err(stopped(fault, Part::Field(field), octet)),
    }
}

// Passes over these fields.
fn past_all(alloc: Global, fields: &[Field], cursor: &mut Cursor<'_>) -> Result<(), Stop>
    ensures stop { IfErr result (IsStop (StopsAmong fields.now cursor.old)) }
    ensures read { OnOk result (Passes (AreFields fields.now) cursor.old cursor.new) }
{
    // For the proof only: the first stands within the file.
    let _first = at(cursor);
    for field in fields {
        past(alloc, *field, cursor)?;
    }
    Ok(())
}

// Passes over a revoked certificate.
fn next_entry(rest: &mut Cursor<'_>) -> Result<(), Stop>
    ensures stop { IfErr result
        (IsStop (StopsBefore (EncodesSome entry_format) Part.Entry rest.old)) }
    ensures read { OnOk result ((entry : Entry) × Passes (IsEntry entry) rest.old rest.new) }
    ensures shrinks { OnOk result (length (remaining rest.new) < length (remaining rest.old)) }
{
    let octet = at(rest);
    match CrlEntry::take_from(rest) {
        Ok(_) => {
            // For the proof only: it stands within the file.
            let _behind = at(rest);
            Ok(())
        }
        Err(fault) => Err(stopped(fault, Part::Entry, octet)),
    }
}

// The revoked certificates in their SEQUENCE.
fn each_entry(inside: &Cursor<'_>) -> Result<(), Stop>
    ensures stop { IfErr result (IsStop (StopsInEntries inside.now)) }
    ensures read { OnOk result ((entries : List Entry) × AreEntries entries (remaining inside.now)) }
{
    let mut rest = inside.fork();
    // For the proof only: the first stands within the file.
    let _first = at(&rest);
    while !rest.is_empty() {
        next_entry(&mut rest)?;
    }
    Ok(())
}

// The revoked certificates, where they are there.
fn entries(cursor: &mut Cursor<'_>) -> Result<(), Stop>
    ensures stop { IfErr result (IsStop (StopsAtEntries cursor.old)) }
    ensures read { OnOk result (ReadsEntries cursor.old cursor.new) }
{
    let octet = at(cursor);
    match cursor.take_opt_sequence() {
        Ok(Some(inside)) => {
            // For the proof only: they stand within the file.
            let _behind = at(cursor);
            let _first = at(&inside);
            each_entry(&inside)
        }
        Ok(None) => Ok(()),
        Err(fault) => Err(stopped(fault, Part::Entries, octet)),
    }
}

const CERTIFICATE_FIELDS: &[Field] = &[
    Field::Version,
    Field::Serial,
    Field::Algorithm,
    Field::Issuer,
    Field::Validity,
    Field::Subject,
    Field::Key,
];

const LIST_FIELDS: &[Field] = &[
    Field::ListVersion,
    Field::Algorithm,
    Field::Issuer,
    Field::ThisUpdate,
    Field::NextUpdate,
];

// Passes over the fields before the extensions.
fn before_extensions(alloc: Global, cursor: &mut Cursor<'_>, is_list: bool) -> Result<(), Stop>
    ensures stop { IfErr result (IsStop (StopsBeforeExtensions is_list cursor.old)) }
    ensures read { OnOk result (ReadsToExtensions is_list cursor.old cursor.new) }
{
    if is_list {
        past_all(alloc, LIST_FIELDS, cursor)?;
        entries(cursor)
    } else {
        past_all(alloc, CERTIFICATE_FIELDS, cursor)
    }
}

// Whether it is one of these kinds.
fn is_among(kind: Kind, kinds: &[Kind]) -> bool
    ensures { IsTrue result ↔ Contains kinds.now kind }
{
    for other in kinds {
        if *other == kind {
            return true;
        }
    }
    false
}

// Whether it is a known kind that is among these.
fn is_second(kind: Kind, kinds: &[Kind]) -> bool
    ensures { IsTrue result ↔ IsSecond kinds.now kind }
{
    kind != Kind::Unknown && is_among(kind, kinds)
}

// The kind of an extension with this identifier, where it may stand behind those of these kinds.
fn placed(
    alloc: Global,
    identifier: &[u8],
    critical: bool,
    content: &mut Cursor<'_>,
    octet: usize,
    is_list: bool,
    kinds: &[Kind],
) -> Result<Kind, Stop>
    ensures stop { let kind = known_kind is_list identifier.now in
        let content = remaining content.old in
        IfErr result (IsStop (λ stop from. (from ≡ octet)
        × IsMisplaced is_list kinds.now kind critical content stop)) }
    ensures read { IfOk result (λ kind. (kind ≡ known_kind is_list identifier.now)
        × MayStandAs is_list kinds.now kind critical (remaining content.old)) }
{
    let kind = Kind::of(identifier, is_list);
    if is_second(kind, kinds) {
        return Err(Stop::At(Part::Second(kind), octet));
    }
    match kind.read(alloc, is_list, critical, content) {
        Ok(()) => Ok(kind),
        Err(fault) => Err(stopped(fault, Part::Kind(kind), octet)),
    }
}

// The extension that stands next, where it may stand behind those of these kinds. Returns its kind.
fn next_extension(
    alloc: Global,
    rest: &mut Cursor<'_>,
    is_list: bool,
    kinds: &[Kind],
) -> Result<Kind, Stop>
    ensures stop { IfErr result (IsStop (StopsAtExtension is_list kinds.now rest.old)) }
    ensures read { IfOk result (λ kind. (x : Extension) × IsNextKind is_list kinds.now x kind
        × Passes (IsExtension x) rest.old rest.new) }
    ensures shrinks { OnOk result (length (remaining rest.new) < length (remaining rest.old)) }
{
    let octet = at(rest);
    match take_extension(rest) {
        Ok((identifier, critical, mut content)) => {
            // For the proof only: it stands within the file.
            let _behind = at(rest);
            placed(
                alloc,
                identifier,
                critical,
                &mut content,
                octet,
                is_list,
                kinds,
            )
        }
        Err(fault) => Err(stopped(fault, Part::Extension, octet)),
    }
}

// The next extension, whose kind is kept.
fn keep_next(
    alloc: Global,
    rest: &mut Cursor<'_>,
    is_list: bool,
    kinds: &mut Vec<Kind>,
) -> Result<(), Stop>
    ensures stop { IfErr result (IsStop (StopsAtExtension is_list kinds.old.items rest.old)) }
    ensures read { OnOk result ((x : Extension) × MayStand is_list kinds.old.items x
        × Passes (IsExtension x) rest.old rest.new
        × (kinds.new.items ≡ kinds.old.items ++ extension_kind is_list x ∷ [])) }
    ensures shrinks { OnOk result (length (remaining rest.new) < length (remaining rest.old)) }
{
    let kind = next_extension(alloc, rest, is_list, kinds)?;
    match kinds.push(kind) {
        Ok(()) => Ok(()),
        Err(_) => Err(Stop::Memory),
    }
}

// The extensions in their SEQUENCE, each of which may stand behind those before it. Keeps their
// kinds.
fn each_extension(
    alloc: Global,
    inside: &Cursor<'_>,
    is_list: bool,
    kinds: &mut Vec<Kind>,
) -> Result<(), Stop>
    requires { kinds.old.items ≡ [] }
    ensures stop { IfErr result (IsStop (StopsInExtensions is_list inside.now)) }
    ensures read { OnOk result (AreOfKinds is_list kinds.new.items (remaining inside.now)) }
{
    let mut rest = inside.fork();
    // For the proof only: the first stands within the file.
    let _first = at(&rest);
    while !rest.is_empty() {
        keep_next(alloc, &mut rest, is_list, kinds)?;
    }
    Ok(())
}

// The extensions of a list are of two kinds, and both must be there.
fn list_complete(kinds: &[Kind], octet: usize) -> Result<(), Stop>
    ensures stop { IfErr result (IsStop (λ stop from. (HasBoth kinds.now → ⊥)
        × (stop ≡ Part.Extensions) × (from ≡ octet))) }
    ensures both { OnOk result (HasBoth kinds.now) }
{
    if is_among(Kind::AuthorityKeyIdentifier, kinds) && is_among(Kind::CrlNumber, kinds) {
        Ok(())
    } else {
        Err(Stop::At(Part::Extensions, octet))
    }
}

// The extensions of a certificate give all its fields.
fn certificate_complete(alloc: Global, inside: &Cursor<'_>, octet: usize) -> Result<(), Stop>
    ensures stop { IfErr result (IsStop (λ stop from.
        (AreComplete false (remaining inside.now) → ⊥)
        × (stop ≡ Part.Extensions) × (from ≡ octet))) }
    ensures all { OnOk result (AreComplete false (remaining inside.now)) }
{
    match Extensions::from_row(alloc, inside) {
        Ok(extensions) => {
            drop(extensions);
            Ok(())
        }
        Err(fault) => Err(stopped(fault, Part::Extensions, octet)),
    }
}

// All that must be there is among extensions of these kinds, which were read.
fn complete(
    alloc: Global,
    inside: &Cursor<'_>,
    is_list: bool,
    kinds: &[Kind],
    octet: usize,
) -> Result<(), Stop>
    requires { AreOfKinds is_list kinds.now (remaining inside.now) }
    ensures stop { IfErr result (IsStop (λ stop from. AreIncomplete is_list (remaining inside.now)
        × (stop ≡ Part.Extensions) × (from ≡ octet))) }
    ensures all { OnOk result (AreComplete is_list (remaining inside.now)) }
{
    if is_list {
        list_complete(kinds, octet)
    } else {
        certificate_complete(alloc, inside, octet)
    }
}

// The extensions in their SEQUENCE, in a field that begins at this octet. Keeps their kinds.
fn elements_into(
    alloc: Global,
    inside: &Cursor<'_>,
    is_list: bool,
    octet: usize,
    kinds: &mut Vec<Kind>,
) -> Result<(), Stop>
    requires { kinds.old.items ≡ [] }
    ensures stop { IfErr result (IsStop (StopsAmongElements is_list octet inside.now)) }
    ensures all { OnOk result (AreComplete is_list (remaining inside.now)) }
{
    each_extension(alloc, inside, is_list, kinds)?;
    complete(alloc, inside, is_list, kinds, octet)
}

// The extensions in their SEQUENCE, in a field that begins at this octet.
fn elements(alloc: Global, inside: &Cursor<'_>, is_list: bool, octet: usize) -> Result<(), Stop>
    ensures stop { IfErr result (IsStop (StopsAmongElements is_list octet inside.now)) }
    ensures all { OnOk result (AreComplete is_list (remaining inside.now)) }
{
    let mut kinds = Vec::new(alloc);
    let read = elements_into(alloc, inside, is_list, octet, &mut kinds);
    drop(kinds);
    read
}

// The tag of the extensions: [3], or of a list's [0].
pub(crate) fn extensions_tag(is_list: bool) -> u8
    ensures { result ≡ extensions_tag is_list }
{
    if is_list {
        tag::CONTEXT_CONSTRUCTED
    } else {
        tag::CONTEXT_CONSTRUCTED + 3
    }
}

// The extensions inside their two tags.
fn extensions(alloc: Global, cursor: &mut Cursor<'_>, is_list: bool) -> Result<(), Stop>
    ensures stop { IfErr result (IsStop (StopsAtExtensions is_list cursor.old)) }
    ensures read { OnOk result (ReadsExtensions is_list cursor.old cursor.new) }
{
    let octet = at(cursor);
    let mut tagged = opened(cursor, extensions_tag(is_list), Part::Extensions)?;
    let inside = opened(&mut tagged, tag::SEQUENCE, Part::Extensions)?;
    elements(alloc, &inside, is_list, octet)?;
    ended(&tagged)
}

// What is signed, to its end.
fn signed(alloc: Global, cursor: &mut Cursor<'_>, is_list: bool) -> Result<(), Stop>
    ensures stop { IfErr result (IsStop (StopsInSigned is_list cursor.old)) }
    ensures read { OnOk result (ReadsSigned is_list cursor.old) }
{
    before_extensions(alloc, cursor, is_list)?;
    extensions(alloc, cursor, is_list)?;
    ended(cursor)
}

// The algorithm inside what is signed of a list, behind its version.
fn list_algorithm(signed: &Cursor<'_>) -> Result<RpkiSignatureAlgorithm, DecodeError>
    ensures { MatchResult result (λ a. HasAlgorithm a (remaining signed.now))
        (λ _. (a : Algorithm) → HasAlgorithm a (remaining signed.now) → ⊥) }
{
    let mut rest = signed.fork();
    match list_version(&mut rest) {
        Ok(()) => RpkiSignatureAlgorithm::x509_take_from(&mut rest),
        Err(fault) => Err(fault),
    }
}

// Whether another algorithm than this one stands here.
fn is_other(inside: RpkiSignatureAlgorithm, here: &Cursor<'_>) -> bool
    ensures { IsTrue result ↔ HasOther inside (remaining here.now) }
{
    let mut rest = here.fork();
    match RpkiSignatureAlgorithm::x509_take_from(&mut rest) {
        Ok(beside) => !equal_algorithms(&inside, &beside),
        Err(fault) => {
            drop(fault);
            false
        }
    }
}

// Whether the algorithm inside a list isn't the one that stands here.
fn list_differs(signed: &Cursor<'_>, here: &Cursor<'_>) -> bool
    ensures { IsTrue result ↔ AlgorithmsDiffer true signed.now here.now }
{
    match list_algorithm(signed) {
        Ok(inside) => is_other(inside, here),
        Err(fault) => {
            drop(fault);
            false
        }
    }
}

// Whether it is a list, and the algorithm inside isn't the one that stands here.
fn algorithms_differ(is_list: bool, signed: &Cursor<'_>, here: &Cursor<'_>) -> bool
    ensures { IsTrue result ↔ AlgorithmsDiffer is_list signed.now here.now }
{
    if is_list {
        list_differs(signed, here)
    } else {
        false
    }
}

// Passes over the algorithm beside the signature, which of a list has to be the one inside.
fn signature_algorithm(
    alloc: Global,
    signed: &Cursor<'_>,
    cursor: &mut Cursor<'_>,
    is_list: bool,
) -> Result<(), Stop>
    ensures stop { IfErr result (IsStop (StopsAtAlgorithm is_list signed.now cursor.old)) }
    ensures read { OnOk result (ReadsAlgorithm is_list signed.now cursor.old cursor.new) }
{
    let octet = at(cursor);
    let differ = algorithms_differ(is_list, signed, cursor);
    past(alloc, Field::SignatureAlgorithm, cursor)?;
    if differ {
        Err(Stop::At(Part::OtherAlgorithm, octet))
    } else {
        Ok(())
    }
}

// What stands in the outer SEQUENCE, down to the signature. Returns where that begins.
fn inside(alloc: Global, outer: &mut Cursor<'_>, is_list: bool) -> Result<usize, Stop>
    ensures stop { IfErr result (IsStop (StopsInside is_list outer.old)) }
    ensures read { IfOk result (StopsInside is_list outer.old Part.Signature) }
{
    let mut first = opened(outer, tag::SEQUENCE, Part::Signed)?;
    let begin = first.fork();
    signed(alloc, &mut first, is_list)?;
    signature_algorithm(alloc, &begin, outer, is_list)?;
    Ok(at(outer))
}

// The whole, down to the signature. Returns where that begins.
fn signature_at(alloc: Global, octets: &Bytes, is_list: bool) -> Result<usize, Stop>
    ensures stop { IfErr result (IsStop (StopsAt is_list octets.now)) }
    ensures read { IfOk result (StopsAt is_list octets.now Part.Signature) }
{
    let mut file = Cursor::new(octets);
    let mut outer = opened(&mut file, tag::SEQUENCE, Part::Outer)?;
    inside(alloc, &mut outer, is_list)
}

// What is told of a part.
fn told(
    alloc: Global,
    octets: &Bytes,
    part: Part,
    octet: usize,
    is_list: bool,
) -> Result<Place, AllocError>
    requires { octet ≤ length octets.now }
    ensures octet { IfOk result (λ place. place.octet ≡ octet) }
    ensures field { IfOk result (λ place. place.field.now ≡ (part_description part).name) }
    ensures wanted { IfOk result (λ place. place.wanted.now ≡ (part_description part).wanted) }
    ensures found { IfOk result
        (λ place. IsFirstFlaw is_list part (drop octet octets.now) place.found) }
{
    let found = flaw_at(alloc, part, octets, octet, is_list)?;
    Ok(Place {
        field: part.name(),
        octet,
        wanted: part.wanted(),
        found,
    })
}

// The part and the octet at which reading stops.
fn stop_in(alloc: Global, octets: &Bytes, is_list: bool) -> Result<(Part, usize), AllocError>
    ensures stops { IfOk result (λ stop. StopsAt is_list octets.now stop.0 stop.1) }
    ensures within { IfOk result (λ stop. stop.1 ≤ length octets.now) }
{
    match signature_at(alloc, octets, is_list) {
        Ok(octet) => Ok((Part::Signature, octet)),
        Err(Stop::At(part, octet)) => Ok((part, octet)),
        Err(Stop::Memory) => Err(AllocError),
    }
}

/// Finds the place where reading bytes as a certificate or as a CRL stops: the first part that
/// doesn't have its form, or else the signature. Returns what is expected there and what is found.
///
/// # Errors
///
/// Returns an error only if memory runs out.
pub(crate) fn stop_of(
    alloc: Global,
    octets: &Bytes,
    is_list: bool,
) -> Result<(Part, Place), AllocError>
    ensures stops { IfOk result (λ stop. IsStopOf is_list octets.now stop.0 stop.1) }
    ensures within { IfOk result (λ stop. stop.1.octet ≤ length octets.now) }
{
    let (part, octet) = stop_in(alloc, octets, is_list)?;
    match told(alloc, octets, part, octet, is_list) {
        Ok(place) => Ok((part, place)),
        Err(error) => Err(error),
    }
}
