//! Whether an error of reading is true of the place where reading stops.
ghost use Rattle.std.specs.Prelude.{◌≡◌, ◌≤◌, ◌↔◌, ℕ, List, true, IfOk, IsTrue, MatchOption, drop, length};
ghost use Rattle.rpki_der.specs.Encoding.{Means};
ghost use Rattle.rpki_der.specs.Extensions.{Extension, IsExtension};
ghost use Rattle.rpki_der.specs.Place.{remaining};
ghost use Rattle.rpki_der.specs.Values.{IsEnc};
ghost use Rattle.rpki_files.specs.Flaws.{extension_of};
ghost use Rattle.rpki_files.specs.NamedFaults.{ExtensionsAre, FirstIs, HasOtherMode, IsOfField, IsOtherFlag, IsSecondOf, NamesTruly};
ghost use Rattle.rpki_files.specs.PolicyPresence.{BeginsWithOne, Lack};

use crate::expected::Part;
use crate::kinds::Kind;
use crate::places::extensions_tag;
use crate::policies::{Wanted, begins_with_one, lack};
use bytes::Bytes;
use rpki_blocks::Overclaim;
use rpki_der::{Cursor, DecodeError, Field, Oid, tag, take_extension};
use std::alloc::AllocError;

// Whether a part is an extension that is called so and may not stand as it stands.
fn is_of_field(part: Part, field: Field) -> bool
    ensures { IsTrue result ↔ IsOfField part field }
{
    match part {
        Part::Kind(kind) => kind.is_called(field),
        _ => false,
    }
}

// Whether a part is a second extension that is called so.
fn is_second_of(part: Part, field: Field) -> bool
    ensures { IsTrue result ↔ IsSecondOf part field }
{
    match part {
        Part::Second(kind) => kind.is_called(field),
        _ => false,
    }
}

// Whether a part is an extension of this kind that may not stand as it stands.
fn is_of_kind(part: Part, kind: Kind) -> bool
    ensures { IsTrue result ↔ part ≡ Part.Kind kind }
{
    match part {
        Part::Kind(other) => other == kind,
        _ => false,
    }
}

// The identifier and the flag of the extension that stands there, if one does.
fn first_extension<'a>(at: &Cursor<'a>) -> Option<(&'a [u8], bool)>
    ensures { let octets = remaining at.now in
        MatchOption result ((x : Extension) → Means IsExtension x octets → ⊥)
        (λ it. (content : List ℕ) × Means IsExtension (extension_of it.0.now it.1 content) octets) }
{
    let mut rest = at.fork();
    match take_extension(&mut rest) {
        Ok((identifier, critical, _)) => Some((identifier, critical)),
        Err(fault) => {
            drop(fault);
            None
        }
    }
}

// Whether a flag is this one, which the kind with this identifier may not have.
fn is_other_flag(identifier: &[u8], critical: bool, this: bool, is_list: bool) -> bool
    ensures { IsTrue result ↔ IsOtherFlag is_list this identifier.now critical }
{
    if critical != this {
        return false;
    }
    let kind = Kind::of(identifier, is_list);
    !kind.may_be(is_list, critical)
}

// Whether the extension that stands there has this flag, which its kind may not have.
fn has_other_flag(at: &Cursor<'_>, this: bool, is_list: bool) -> bool
    ensures { IsTrue result ↔ FirstIs (IsOtherFlag is_list this) (remaining at.now) }
{
    match first_extension(at) {
        Some((identifier, critical)) => is_other_flag(identifier, critical, this, is_list),
        None => false,
    }
}

// Whether these octets are the identifier.
fn is_identifier(octets: &[u8], identifier: &Oid) -> bool
    ensures { IsTrue result ↔ octets.now ≡ identifier.now }
{
    octets == identifier.as_bytes()
}

// Whether the extension that stands there has this identifier.
fn is_under(at: &Cursor<'_>, identifier: &Oid) -> bool
    ensures { IsTrue result ↔ FirstIs (λ id _. id ≡ identifier.now) (remaining at.now) }
{
    match first_extension(at) {
        Some((other, _)) => is_identifier(other, identifier),
        None => false,
    }
}

// Whether they are the identifier of a critical extension.
fn is_critical(octets: &[u8], critical: bool, identifier: &Oid) -> bool
    ensures { IsTrue result ↔ ((octets.now ≡ identifier.now) × (critical ≡ true)) }
{
    if critical {
        is_identifier(octets, identifier)
    } else {
        false
    }
}

// Whether it has this identifier and is critical.
fn is_critical_under(at: &Cursor<'_>, identifier: &Oid) -> bool
    ensures { IsTrue result ↔ FirstIs
        (λ id critical. (id ≡ identifier.now) × (critical ≡ true)) (remaining at.now) }
{
    match first_extension(at) {
        Some((other, critical)) => is_critical(other, critical, identifier),
        None => false,
    }
}

// Whether the part and the octets have what a fault of a flag names.
fn has_flag_of(part: Part, field: Field, at: &Cursor<'_>, this: bool, is_list: bool) -> bool
    ensures { IsTrue result
        ↔ (IsOfField part field × FirstIs (IsOtherFlag is_list this) (remaining at.now)) }
{
    if is_of_field(part, field) {
        has_other_flag(at, this, is_list)
    } else {
        false
    }
}

// Whether it is an unknown extension with this identifier, which is critical.
fn is_unknown_under(part: Part, at: &Cursor<'_>, identifier: &Oid) -> bool
    ensures { IsTrue result ↔ ((part ≡ Part.Kind Kind.Unknown) × FirstIs
        (λ id critical. (id ≡ identifier.now) × (critical ≡ true)) (remaining at.now)) }
{
    if is_of_kind(part, Kind::Unknown) {
        is_critical_under(at, identifier)
    } else {
        false
    }
}

// Whether it is one with this identifier that lists may not have.
fn is_refused_under(part: Part, at: &Cursor<'_>, identifier: &Oid) -> bool
    ensures { IsTrue result ↔ ((part ≡ Part.Kind Kind.NoList)
        × FirstIs (λ id _. id ≡ identifier.now) (remaining at.now)) }
{
    if is_of_kind(part, Kind::NoList) {
        is_under(at, identifier)
    } else {
        false
    }
}

// Whether the part is an algorithm that isn't the one inside.
fn is_other_algorithm(part: Part) -> bool
    ensures { IsTrue result ↔ part ≡ Part.OtherAlgorithm }
{
    match part {
        Part::OtherAlgorithm => true,
        _ => false,
    }
}

// What stands inside the value with this identifier octet, if one stands there.
fn opened<'a>(at: &Cursor<'a>, identifier: u8) -> Option<Cursor<'a>>
    ensures { let octets = remaining at.now in
        MatchOption result ((content : List ℕ) → Means (IsEnc identifier) content octets → ⊥)
        (λ inside. Means (IsEnc identifier) (remaining inside) octets) }
{
    let mut ahead = at.fork();
    match ahead.take_value(identifier) {
        Ok(inside) => Some(inside),
        Err(fault) => {
            drop(fault);
            None
        }
    }
}

// What stands in the two tags of the field of extensions that stands there, if one does.
fn elements_at<'a>(at: &Cursor<'a>, is_list: bool) -> Option<Cursor<'a>>
    ensures { let octets = remaining at.now in
        MatchOption result
        ((content : List ℕ) → ExtensionsAre is_list (λ e. e ≡ content) octets → ⊥)
        (λ elements. ExtensionsAre is_list (λ e. e ≡ remaining elements) octets) }
{
    match opened(at, extensions_tag(is_list)) {
        Some(tagged) => opened(&tagged, tag::SEQUENCE),
        None => None,
    }
}

// Whether the extensions there lack those that a fault names.
fn lacks(at: &Cursor<'_>, field: Field, is_list: bool) -> bool
    ensures { let Are = Lack (Wanted.Named field is_list) in
        IsTrue result ↔ ExtensionsAre is_list Are (remaining at.now) }
{
    match elements_at(at, is_list) {
        Some(elements) => lack(&elements, Wanted::Named(field, is_list)),
        None => false,
    }
}

// Whether these resources stand there under the policy of this mode, which isn't there.
fn is_of_other_mode(elements: &Cursor<'_>, field: Field, mode: Overclaim) -> bool
    ensures { let octets = remaining elements.now in
        IsTrue result ↔ (BeginsWithOne (Wanted.Resources field mode) octets
        × Lack (Wanted.Policy mode) octets) }
{
    if begins_with_one(elements, Wanted::Resources(field, mode)) {
        lack(elements, Wanted::Policy(mode))
    } else {
        false
    }
}

// Whether they stand there under that of one of the modes, which isn't there.
fn has_other_mode(elements: &Cursor<'_>, field: Field) -> bool
    ensures { IsTrue result ↔ HasOtherMode field (remaining elements.now) }
{
    if is_of_other_mode(elements, field, Overclaim::Refuse) {
        return true;
    }
    is_of_other_mode(elements, field, Overclaim::Trim)
}

// Whether the extensions there have such resources.
fn have_other_mode(at: &Cursor<'_>, field: Field, is_list: bool) -> bool
    ensures { IsTrue result ↔ ExtensionsAre is_list (HasOtherMode field) (remaining at.now) }
{
    match elements_at(at, is_list) {
        Some(elements) => has_other_mode(&elements, field),
        None => false,
    }
}

// Whether the part is all extensions together.
fn is_extensions(part: Part) -> bool
    ensures { IsTrue result ↔ part ≡ Part.Extensions }
{
    match part {
        Part::Extensions => true,
        _ => false,
    }
}

// Whether it is that, and they lack those that a fault names.
fn is_missing(part: Part, at: &Cursor<'_>, field: Field, is_list: bool) -> bool
    ensures { let Are = Lack (Wanted.Named field is_list) in IsTrue result
        ↔ ((part ≡ Part.Extensions) × ExtensionsAre is_list Are (remaining at.now)) }
{
    if is_extensions(part) {
        lacks(at, field, is_list)
    } else {
        false
    }
}

// Whether it is that, and they have resources under another identifier than their policy's.
fn has_wrong_resources(part: Part, at: &Cursor<'_>, field: Field, is_list: bool) -> bool
    ensures { let Are = HasOtherMode field in IsTrue result
        ↔ ((part ≡ Part.Extensions) × ExtensionsAre is_list Are (remaining at.now)) }
{
    if is_extensions(part) {
        have_other_mode(at, field, is_list)
    } else {
        false
    }
}

// Whether what a fault names is true of this part, which stands there.
fn names_truly(fault: &DecodeError, part: Part, at: &Cursor<'_>, is_list: bool) -> bool
    ensures { IsTrue result ↔ NamesTruly is_list part (remaining at.now) fault.now }
{
    match fault {
        DecodeError::Duplicate(field) => is_second_of(part, *field),
        DecodeError::Critical(field) => has_flag_of(part, *field, at, true, is_list),
        DecodeError::NotCritical(field) => has_flag_of(part, *field, at, false, is_list),
        DecodeError::UnexpectedCritical(identifier) => is_unknown_under(part, at, identifier),
        DecodeError::InvalidExtension(identifier) => is_refused_under(part, at, identifier),
        DecodeError::Missing(field) => is_missing(part, at, *field, is_list),
        DecodeError::WrongResources(field) => has_wrong_resources(part, at, *field, is_list),
        DecodeError::AlgorithmMismatch => is_other_algorithm(part),
        DecodeError::Truncated
        | DecodeError::BadLength
        | DecodeError::BadTag
        | DecodeError::BadValue
        | DecodeError::Trailing
        | DecodeError::TooDeep
        | DecodeError::Memory => true,
    }
}

// Whether what a fault names is true of this part, which the octets begin with.
fn begins_truly(fault: &DecodeError, part: Part, octets: &Bytes, is_list: bool) -> bool
    ensures { IsTrue result ↔ NamesTruly is_list part octets.now fault.now }
{
    let at = Cursor::new(octets);
    names_truly(fault, part, &at, is_list)
}

/// Returns whether an error of reading is true of this part, which starts at this byte.
pub(crate) fn holds_at(
    fault: &DecodeError,
    part: Part,
    octets: &Bytes,
    octet: usize,
    is_list: bool,
) -> Result<bool, AllocError>
    requires { octet ≤ length octets.now }
    ensures { IfOk result (λ holds.
        IsTrue holds ↔ NamesTruly is_list part (drop octet octets.now) fault.now) }
{
    let rest = octets.slice(octet..octets.len())?;
    let holds = begins_truly(fault, part, &rest, is_list);
    drop(rest);
    Ok(holds)
}
