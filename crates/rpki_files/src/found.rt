//! The first flaw of the bytes from the place on where reading stops.
ghost use Rattle.std.specs.Prelude.{◌≡◌, ◌≤◌, ◌↔◌, ◌∷◌, ℕ, Bool, List, Contains, IfOk, IsTrue, drop, if◌then◌else◌, length, map};
ghost use Rattle.rpki_der.specs.Encoding.{Means};
ghost use Rattle.rpki_der.specs.Extensions.{Extension, IsExtension};
ghost use Rattle.rpki_der.specs.Place.{remaining};
ghost use Rattle.rpki_der.specs.Primitives.{IsInteger};
ghost use Rattle.rpki_der.specs.Tags.{CONTEXT_CONSTRUCTED, INTEGER, SEQUENCE};
ghost use Rattle.rpki_der.specs.Times.{days_in_month};
ghost use Rattle.rpki_der.specs.Values.{IsEnc};
ghost use Rattle.rpki_files.specs.Flaws.{Encloses, IsContentFlaw, IsExtensionFlaw, IsFirstFlaw, IsFirstTrue, IsFlaw, IsOut, IsSecondTimeFlaw, IsSerialFlaw, IsTimeFlaw, IsVersionFlaw, extension_flaws, extension_of, field_flaws, field_openings, list_version_flaws, numbered, openings, own_flaws, serial_flaws, time_flaws, version_flaws};
ghost use Rattle.rpki_files.specs.declared.expected.Field.TheVariants as field;
ghost use Rattle.rpki_files.specs.declared.flaws.ExtensionFlaw.TheVariants.{Critical, NotCritical};
ghost use Rattle.rpki_files.specs.declared.flaws.Flaw.TheVariants as flaw;

use crate::digits::{TimeNumbers, numbers_at};
use crate::expected::{Field, Part};
use crate::flaws::{ExtensionFlaw, Flaw, SerialFlaw, TimeFlaw, VersionFlaw};
use crate::kinds::Kind;
use bytes::Bytes;
use rpki_der::{Cursor, Serial, Time, tag, take_extension};
use std::alloc::{AllocError, Global};

// The identifier octets with which a field may begin.
fn field_openings(field: Field) -> &'static [u8]
    ensures { result.now ≡ field_openings field }
{
    match field {
        Field::Version => &[tag::CONTEXT_CONSTRUCTED],
        Field::ListVersion | Field::Serial => &[tag::INTEGER],
        Field::ThisUpdate | Field::NextUpdate => &[tag::UTC_TIME, tag::GENERALIZED_TIME],
        Field::Algorithm
        | Field::Issuer
        | Field::Validity
        | Field::Subject
        | Field::Key
        | Field::SignatureAlgorithm => &[tag::SEQUENCE],
    }
}

// Those with which a part may begin.
fn openings(part: Part, is_list: bool) -> &'static [u8]
    ensures { result.now ≡ openings is_list part }
{
    match part {
        Part::Field(field) => field_openings(field),
        Part::Extensions if is_list => &[tag::CONTEXT_CONSTRUCTED, tag::SEQUENCE],
        Part::Extensions => &[tag::CONTEXT_CONSTRUCTED + 3, tag::SEQUENCE],
        Part::Behind => &[],
        Part::Signature => &[tag::BIT_STRING],
        _ => &[tag::SEQUENCE],
    }
}

// Whether a part may begin with this identifier octet.
fn may_open(identifier: u8, part: Part, is_list: bool) -> bool
    ensures { IsTrue result ↔ Contains (openings is_list part) identifier }
{
    for octet in openings(part, is_list) {
        if *octet == identifier {
            return true;
        }
    }
    false
}

// Whether a value stands there, which then begins with this identifier octet.
fn stands_whole(at: &Cursor<'_>, identifier: u8) -> bool
    requires { (rest : List ℕ) × (remaining at.now ≡ identifier ∷ rest) }
    ensures { IsTrue result
        ↔ ((tag : ℕ) × (content : List ℕ) × Means (IsEnc tag) content (remaining at.now)) }
{
    let mut ahead = at.fork();
    match ahead.take_value(identifier) {
        Ok(_) => true,
        Err(fault) => {
            drop(fault);
            false
        }
    }
}

// Whether the content of an INTEGER isn't in the shortest form.
fn is_padded(content: &[u8]) -> bool
    ensures { IsTrue result ↔ (IsInteger content.now → ⊥) }
{
    match content {
        [] | [0, 0..=0x7f, ..] | [0xff, 0x80..=0xff, ..] => true,
        _ => false,
    }
}

// The first flaw of the content of a serial number.
fn of_serial(content: &[u8]) -> Option<SerialFlaw>
    ensures { IsFirstTrue (IsSerialFlaw content.now) serial_flaws result }
{
    let Some(first) = content.first() else {
        return Some(SerialFlaw::Empty);
    };
    if *first >= 128 {
        return Some(SerialFlaw::Negative);
    }
    if is_padded(content) {
        return Some(SerialFlaw::Padded);
    }
    match Serial::from_slice(content) {
        Some(_) => None,
        None => Some(SerialFlaw::Large),
    }
}

// The first flaw of the serial number that stands there.
fn in_serial(at: &Cursor<'_>) -> Option<SerialFlaw>
    ensures { let octets = remaining at.now in
        IsFirstTrue (λ f. Encloses INTEGER (λ n. IsSerialFlaw n f) octets) serial_flaws result }
{
    let mut ahead = at.fork();
    match ahead.take_value(tag::INTEGER) {
        Ok(content) => of_serial(content.rest()),
        Err(fault) => {
            drop(fault);
            None
        }
    }
}

// The first flaw of the number of a certificate's version, which has to be 2.
fn of_version(content: &[u8]) -> Option<VersionFlaw>
    ensures { IsFirstTrue (IsVersionFlaw 2 content.now) version_flaws result }
{
    if content == [0].as_slice() {
        Some(VersionFlaw::One)
    } else if content == [1].as_slice() {
        Some(VersionFlaw::Two)
    } else if content != [2].as_slice() {
        Some(VersionFlaw::Other)
    } else {
        None
    }
}

// The first flaw of the number of a list's version, which has to be 1.
fn of_list_version(content: &[u8]) -> Option<VersionFlaw>
    ensures { IsFirstTrue (IsVersionFlaw 1 content.now) list_version_flaws result }
{
    if content == [0].as_slice() {
        Some(VersionFlaw::One)
    } else if content != [1].as_slice() {
        Some(VersionFlaw::Other)
    } else {
        None
    }
}

// The first flaw of the INTEGER that stands there as the version of a certificate.
fn in_number(at: &Cursor<'_>) -> Option<VersionFlaw>
    ensures { let octets = remaining at.now in
        IsFirstTrue (λ f. Encloses INTEGER (λ n. IsVersionFlaw 2 n f) octets) version_flaws result }
{
    let mut ahead = at.fork();
    match ahead.take_value(tag::INTEGER) {
        Ok(content) => of_version(content.rest()),
        Err(fault) => {
            drop(fault);
            None
        }
    }
}

// The first flaw of the version of a certificate that stands there.
fn in_version(at: &Cursor<'_>) -> Option<VersionFlaw>
    ensures { let octets = remaining at.now in
        let tagged = CONTEXT_CONSTRUCTED 0 in
        IsFirstTrue (λ f. Encloses tagged (Encloses INTEGER (λ n. IsVersionFlaw 2 n f)) octets)
        version_flaws result }
{
    let mut ahead = at.fork();
    match ahead.take_value(tag::CONTEXT_CONSTRUCTED) {
        Ok(inside) => in_number(&inside),
        Err(fault) => {
            drop(fault);
            None
        }
    }
}

// The first flaw of the version of a list that stands there.
fn in_list_version(at: &Cursor<'_>) -> Option<VersionFlaw>
    ensures { let octets = remaining at.now in
        IsFirstTrue (λ f. Encloses INTEGER (λ n. IsVersionFlaw 1 n f) octets)
        list_version_flaws result }
{
    let mut ahead = at.fork();
    match ahead.take_value(tag::INTEGER) {
        Ok(content) => of_list_version(content.rest()),
        Err(fault) => {
            drop(fault);
            None
        }
    }
}

// How many days the month has in this year.
fn days_in_month(year: u32, month: u32) -> u32
    ensures { result ≡ days_in_month year month }
{
    let is_leap = year % 400 == 0 || (year % 100 != 0 && year % 4 == 0);
    match month {
        2 if is_leap => 29,
        2 => 28,
        4 | 6 | 9 | 11 => 30,
        _ => 31,
    }
}

// The first of these numbers that no moment has.
fn out_of_range(n: TimeNumbers) -> Option<TimeFlaw>
    ensures { IsFirstTrue (IsOut (numbered n)) time_flaws result }
{
    if n.month == 0 || n.month > 12 {
        Some(TimeFlaw::Month)
    } else if n.day == 0 || n.day > days_in_month(n.year, n.month) {
        Some(TimeFlaw::Day)
    } else if n.hour > 23 {
        Some(TimeFlaw::Hour)
    } else if n.minute > 59 {
        Some(TimeFlaw::Minute)
    } else if n.second > 59 {
        Some(TimeFlaw::Second)
    } else {
        None
    }
}

// The first flaw of the time that stands there.
fn in_time(at: &Cursor<'_>) -> Option<TimeFlaw>
    ensures { IsFirstTrue (IsTimeFlaw (remaining at.now)) time_flaws result }
{
    match numbers_at(at) {
        Some(numbers) => out_of_range(numbers),
        None => Some(TimeFlaw::Form),
    }
}

// The first flaw of the second of the two times that stand there.
fn in_second_time(times: &Cursor<'_>) -> Option<TimeFlaw>
    ensures { IsFirstTrue (IsSecondTimeFlaw (remaining times.now)) time_flaws result }
{
    let mut rest = times.fork();
    match Time::take_from(&mut rest) {
        Ok(_) => in_time(&rest),
        Err(fault) => {
            drop(fault);
            None
        }
    }
}

// The first flaw of the first time of the validity that stands there.
fn in_not_before(at: &Cursor<'_>) -> Option<TimeFlaw>
    ensures { let octets = remaining at.now in
        IsFirstTrue (λ f. Encloses SEQUENCE (λ times. IsTimeFlaw times f) octets)
        time_flaws result }
{
    let mut ahead = at.fork();
    match ahead.take_value(tag::SEQUENCE) {
        Ok(times) => in_time(&times),
        Err(fault) => {
            drop(fault);
            None
        }
    }
}

// The first flaw of its second time.
fn in_not_after(at: &Cursor<'_>) -> Option<TimeFlaw>
    ensures { let octets = remaining at.now in
        IsFirstTrue (λ f. Encloses SEQUENCE (λ times. IsSecondTimeFlaw times f) octets)
        time_flaws result }
{
    let mut ahead = at.fork();
    match ahead.take_value(tag::SEQUENCE) {
        Ok(times) => in_second_time(&times),
        Err(fault) => {
            drop(fault);
            None
        }
    }
}

// The first flaw of the validity that stands there.
fn validity(at: &Cursor<'_>) -> Option<Flaw>
    ensures { (is_list : Bool) (part : Part)
        → IsFirstTrue (IsFlaw is_list part (remaining at.now)) (field_flaws field.Validity) result }
{
    match in_not_before(at) {
        Some(flaw) => Some(Flaw::NotBefore(flaw)),
        None => match in_not_after(at) {
            Some(flaw) => Some(Flaw::NotAfter(flaw)),
            None => None,
        },
    }
}

// The first flaw of the serial number that stands there.
fn serial(at: &Cursor<'_>) -> Option<Flaw>
    ensures { (is_list : Bool) (part : Part)
        → IsFirstTrue (IsFlaw is_list part (remaining at.now)) (field_flaws field.Serial) result }
{
    match in_serial(at) {
        Some(flaw) => Some(Flaw::Serial(flaw)),
        None => None,
    }
}

// The first flaw of the version of a certificate that stands there.
fn version(at: &Cursor<'_>) -> Option<Flaw>
    ensures { (is_list : Bool) (part : Part)
        → IsFirstTrue (IsFlaw is_list part (remaining at.now)) (field_flaws field.Version) result }
{
    match in_version(at) {
        Some(flaw) => Some(Flaw::Version(flaw)),
        None => None,
    }
}

// The first flaw of the version of a list that stands there.
fn list_version(at: &Cursor<'_>) -> Option<Flaw>
    ensures { (is_list : Bool) (part : Part)
        → IsFirstTrue (IsFlaw is_list part (remaining at.now)) (field_flaws field.ListVersion)
        result }
{
    match in_list_version(at) {
        Some(flaw) => Some(Flaw::ListVersion(flaw)),
        None => None,
    }
}

// The first flaw of the time that stands there alone.
fn time(at: &Cursor<'_>) -> Option<Flaw>
    ensures { (is_list : Bool) (part : Part)
        → IsFirstTrue (IsFlaw is_list part (remaining at.now)) (field_flaws field.ThisUpdate)
        result }
{
    match in_time(at) {
        Some(flaw) => Some(Flaw::Time(flaw)),
        None => None,
    }
}

// The first flaw of the field that stands there.
fn in_field(field: Field, at: &Cursor<'_>) -> Option<Flaw>
    ensures { (is_list : Bool) (part : Part)
        → IsFirstTrue (IsFlaw is_list part (remaining at.now)) (field_flaws field) result }
{
    match field {
        Field::Version => version(at),
        Field::ListVersion => list_version(at),
        Field::Serial => serial(at),
        Field::Algorithm => None,
        Field::Issuer => None,
        Field::Validity => validity(at),
        Field::Subject => None,
        Field::Key => None,
        Field::ThisUpdate => time(at),
        Field::NextUpdate => time(at),
        Field::SignatureAlgorithm => None,
    }
}

// Whether an extension has the flag although it may not, or else hasn't it although it must.
fn of_flag(critical: bool) -> ExtensionFlaw
    ensures { result ≡ (if critical then Critical else NotCritical) }
{
    if critical {
        ExtensionFlaw::Critical
    } else {
        ExtensionFlaw::NotCritical
    }
}

// Whether the content is none of this kind, or else a second one.
fn of_content(
    alloc: Global,
    kind: Kind,
    content: &mut Cursor<'_>,
) -> Result<Option<ExtensionFlaw>, AllocError>
    ensures { IfOk result (IsContentFlaw kind (remaining content.old)) }
{
    match kind.take(alloc, content) {
        Ok(()) => Ok(Some(ExtensionFlaw::Second)),
        Err(fault) => {
            let ran_out = fault.is_memory();
            drop(fault);
            if ran_out {
                Err(AllocError)
            } else {
                Ok(Some(ExtensionFlaw::OtherContent))
            }
        }
    }
}

// The first flaw of an extension with this identifier, flag and content.
fn of_extension(
    alloc: Global,
    identifier: &[u8],
    critical: bool,
    content: &mut Cursor<'_>,
    is_list: bool,
) -> Result<Option<ExtensionFlaw>, AllocError>
    ensures { let x = extension_of identifier.now critical (remaining content.old) in
        IfOk result (IsFirstTrue (IsExtensionFlaw is_list x) extension_flaws) }
{
    let kind = Kind::of(identifier, is_list);
    if kind.may_be(is_list, critical) {
        of_content(alloc, kind, content)
    } else {
        Ok(Some(of_flag(critical)))
    }
}

// The first flaw of the extension that stands there.
fn in_extension(
    alloc: Global,
    at: &Cursor<'_>,
    is_list: bool,
) -> Result<Option<ExtensionFlaw>, AllocError>
    ensures { let octets = remaining at.now in
        IfOk result (IsFirstTrue (λ f. (x : Extension) × Means IsExtension x octets
        × IsExtensionFlaw is_list x f) extension_flaws) }
{
    let mut rest = at.fork();
    match take_extension(&mut rest) {
        Ok((identifier, critical, mut content)) => {
            of_extension(alloc, identifier, critical, &mut content, is_list)
        }
        Err(fault) => {
            drop(fault);
            Ok(None)
        }
    }
}

// The first flaw of the extension of a kind that stands there.
fn extension_flaw(alloc: Global, at: &Cursor<'_>, is_list: bool) -> Result<Option<Flaw>, AllocError>
    ensures { (part : Part) → IfOk result (IsFirstTrue (IsFlaw is_list part (remaining at.now))
        (map flaw.Extension extension_flaws)) }
{
    match in_extension(alloc, at, is_list) {
        Ok(Some(flaw)) => Ok(Some(Flaw::Extension(flaw))),
        Ok(None) => Ok(None),
        Err(full) => Err(full),
    }
}

// The first flaw of the extension that stands there, unless it is one that lists may not have.
fn of_kind(
    alloc: Global,
    kind: Kind,
    at: &Cursor<'_>,
    is_list: bool,
) -> Result<Option<Flaw>, AllocError>
    ensures { let part = Part.Kind kind in
        IfOk result (IsFirstTrue (IsFlaw is_list part (remaining at.now)) (own_flaws part)) }
{
    match kind {
        Kind::NoList => Ok(None),
        _ => extension_flaw(alloc, at, is_list),
    }
}

// The first flaw of what stands there as a part that may begin so.
fn own_flaw(
    alloc: Global,
    part: Part,
    at: &Cursor<'_>,
    is_list: bool,
) -> Result<Option<Flaw>, AllocError>
    ensures { IfOk result
        (IsFirstTrue (IsFlaw is_list part (remaining at.now)) (own_flaws part)) }
{
    match part {
        Part::Outer => Ok(None),
        Part::Signed => Ok(None),
        Part::Field(field) => Ok(in_field(field, at)),
        Part::Entries => Ok(None),
        Part::Entry => Ok(None),
        Part::Extensions => Ok(None),
        Part::Extension => Ok(None),
        Part::Kind(kind) => of_kind(alloc, kind, at, is_list),
        Part::Second(_) => extension_flaw(alloc, at, is_list),
        Part::Behind => Ok(None),
        Part::OtherAlgorithm => Ok(None),
        Part::Signature => Ok(None),
    }
}

// The first flaw of what begins with an identifier octet with which the part may begin.
fn opened_flaw(
    alloc: Global,
    part: Part,
    at: &Cursor<'_>,
    identifier: u8,
    is_list: bool,
) -> Result<Option<Flaw>, AllocError>
    requires first { (rest : List ℕ) × (remaining at.now ≡ identifier ∷ rest) }
    requires opens { Contains (openings is_list part) identifier }
    ensures { IfOk result (IsFirstFlaw is_list part (remaining at.now)) }
{
    if stands_whole(at, identifier) {
        own_flaw(alloc, part, at, is_list)
    } else {
        Ok(Some(Flaw::Broken))
    }
}

// The first flaw of what begins with this identifier octet.
fn begun_flaw(
    alloc: Global,
    part: Part,
    at: &Cursor<'_>,
    identifier: u8,
    is_list: bool,
) -> Result<Option<Flaw>, AllocError>
    requires { (rest : List ℕ) × (remaining at.now ≡ identifier ∷ rest) }
    ensures { IfOk result (IsFirstFlaw is_list part (remaining at.now)) }
{
    if may_open(identifier, part, is_list) {
        opened_flaw(alloc, part, at, identifier, is_list)
    } else {
        Ok(Some(Flaw::Other(identifier)))
    }
}

// The first flaw of the octets that remain.
fn first_flaw(
    alloc: Global,
    part: Part,
    at: &Cursor<'_>,
    is_list: bool,
) -> Result<Option<Flaw>, AllocError>
    ensures { IfOk result (IsFirstFlaw is_list part (remaining at.now)) }
{
    match at.rest().first() {
        Some(identifier) => begun_flaw(alloc, part, at, *identifier, is_list),
        None => Ok(Some(Flaw::End)),
    }
}

// The first flaw of all octets.
fn flaw_of(
    alloc: Global,
    part: Part,
    octets: &Bytes,
    is_list: bool,
) -> Result<Option<Flaw>, AllocError>
    ensures { IfOk result (IsFirstFlaw is_list part octets.now) }
{
    let at = Cursor::new(octets);
    first_flaw(alloc, part, &at, is_list)
}

/// Finds the first flaw of a part, from this byte of the file on.
pub(crate) fn flaw_at(
    alloc: Global,
    part: Part,
    octets: &Bytes,
    octet: usize,
    is_list: bool,
) -> Result<Option<Flaw>, AllocError>
    requires { octet ≤ length octets.now }
    ensures { IfOk result (IsFirstFlaw is_list part (drop octet octets.now)) }
{
    let rest = octets.slice(octet..octets.len())?;
    let found = flaw_of(alloc, part, &rest, is_list);
    drop(rest);
    found
}
