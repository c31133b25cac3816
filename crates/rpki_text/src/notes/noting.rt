//! The notes of a certificate.
ghost use Rattle.std.specs.Prelude.{◌≡◌, ◌↔◌, ◌≤◌, ◌^◌, ◌++◌, ◌∷◌, List, [], length, if◌then◌else◌, IfOk, OnOk, IsTrue};
ghost use Rattle.std.specs.Int.Digits.{number_from_digits};
ghost use Rattle.rpki_cert.specs.Certificates.{IsCertificate};
ghost use Rattle.rpki_der.specs.Encoding.{Means};
ghost use Rattle.rpki_der.specs.Extensions.{Extension};
ghost use Rattle.rpki_text.specs.Notes.{AreNotes, Breaks, HaveExtensions, IsEndEntityWithNotify, HasFurtherNotify, HasOtherAccess, HasOtherIssuer, HasOtherNotify, HasOtherSubject};

use crate::notes::access::Method;
use crate::notes::canonical;
use crate::notes::characters::has_other_characters;
use crate::notes::finding::{Fault, Kinds, has_one};
use crate::notes::flags::states_false;
use crate::notes::note::Note;
use crate::notes::repeated::is_one_twice;
use crate::notes::times::have_other_form;
use bytes::Bytes;
use rpki_cert::{Cert, KeyUsage, TbsCert};
use rpki_der::Serial;
use rpki_files::Object;
use std::alloc::{AllocError, Global};

// Every note, in the order of answers.
const NOTES: [Note; 19] = [
    Note::SerialZero,
    Note::SerialLong,
    Note::IssuerForm,
    Note::TimeForm,
    Note::SubjectForm,
    Note::NameCharacters,
    Note::EndEntityNotify,
    Note::EndEntityMethod,
    Note::EndEntityObjects,
    Note::NotifyForm,
    Note::NotifyScheme,
    Note::QualifierForm,
    Note::IpNotCritical,
    Note::AsNotCritical,
    Note::IpForm,
    Note::AsForm,
    Note::BytesAfterValue,
    Note::FlagForm,
    Note::ExtensionTwice,
];

fn is_zero(serial: Serial) -> bool
    ensures { IsTrue result ↔ (serial ≡ 0) }
{
    serial == Serial::from(0u64)
}

// Whether 20 octets are a number whose INTEGER has an octet more.
fn begins_high(octets: &[u8]) -> bool
    requires { length octets.now ≡ 20 }
    ensures { IsTrue result ↔ (2 ^ 159 ≤ number_from_digits 256 octets.now) }
{
    octets[0] >= 0x80
}

// Whether the INTEGER of the number has more than 20 octets.
fn is_long(serial: Serial) -> bool
    ensures { IsTrue result ↔ (2 ^ 159 ≤ serial) }
{
    begins_high(&serial.octets())
}

fn has_other_issuer(tbs: &TbsCert) -> bool
    ensures { IsTrue result ↔ HasOtherIssuer tbs.now }
{
    tbs.issuer().inspect_rpki(true).is_err()
}

fn has_other_subject(tbs: &TbsCert) -> bool
    ensures { IsTrue result ↔ HasOtherSubject tbs.now }
{
    tbs.extended_key_usage().is_none() && tbs.subject().inspect_rpki(true).is_err()
}

fn is_end_entity_with_notify(tbs: &TbsCert) -> bool
    ensures { IsTrue result ↔ IsEndEntityWithNotify tbs.now }
{
    match tbs.key_usage() {
        KeyUsage::Ca => false,
        KeyUsage::Ee => tbs.rpki_notify().is_some(),
    }
}

// Whether at least so many descriptions of an end entity have the method.
fn has_other_access(octets: &Bytes, tbs: &TbsCert, times: usize, method: Method) -> bool
    ensures { (xs : List Extension) → HaveExtensions xs octets.now
        → (IsTrue result ↔ HasOtherAccess times method tbs.now xs) }
{
    match tbs.key_usage() {
        KeyUsage::Ca => false,
        KeyUsage::Ee => has_one(octets, Kinds::Access, Fault::AtLeast(times, method), &[]),
    }
}

// Whether rpkiNotify is there without an https URI.
fn has_other_notify(octets: &Bytes, tbs: &TbsCert) -> bool
    ensures { (xs : List Extension) → HaveExtensions xs octets.now
        → (IsTrue result ↔ HasOtherNotify tbs.now xs) }
{
    let fault = Fault::AtLeast(1, Method::RpkiNotify);
    match tbs.rpki_notify() {
        Some(_) => false,
        None => has_one(octets, Kinds::Access, fault, &[]),
    }
}

// Whether rpkiNotify is there with an https URI, and also with one of another scheme.
fn has_further_notify(octets: &Bytes, tbs: &TbsCert) -> bool
    ensures { (xs : List Extension) → HaveExtensions xs octets.now
        → (IsTrue result ↔ HasFurtherNotify tbs.now xs) }
{
    let fault = Fault::AtLeast(1, Method::NotifyElsewhere);
    match tbs.rpki_notify() {
        Some(_) => has_one(octets, Kinds::Access, fault, &[]),
        None => false,
    }
}

// Whether the certificate that the octets start with, with these fields, breaks the rule of a note.
fn is_note(alloc: Global, octets: &Bytes, tbs: &TbsCert, note: Note) -> Result<bool, AllocError>
    ensures { IfOk result (λ yes. (xs : List Extension) → HaveExtensions xs octets.now
        → (IsTrue yes ↔ Breaks note octets.now tbs.now xs)) }
{
    Ok(match note {
        Note::SerialZero => is_zero(tbs.serial_number()),
        Note::SerialLong => is_long(tbs.serial_number()),
        Note::IssuerForm => has_other_issuer(tbs),
        Note::TimeForm => have_other_form(octets, tbs),
        Note::SubjectForm => has_other_subject(tbs),
        Note::NameCharacters => has_other_characters(octets),
        Note::EndEntityNotify => is_end_entity_with_notify(tbs),
        Note::EndEntityMethod => has_other_access(octets, tbs, 1, Method::Unknown),
        Note::EndEntityObjects => has_other_access(octets, tbs, 2, Method::SignedObject),
        Note::NotifyForm => has_other_notify(octets, tbs),
        Note::NotifyScheme => has_further_notify(octets, tbs),
        Note::QualifierForm => has_one(octets, Kinds::Policies, Fault::OtherQualifiers, &[]),
        Note::IpNotCritical => has_one(octets, Kinds::Addresses, Fault::NotCritical, &[]),
        Note::AsNotCritical => has_one(octets, Kinds::Systems, Fault::NotCritical, &[]),
        Note::IpForm => {
            let it = canonical::addresses(alloc, tbs)?;
            has_one(octets, Kinds::Addresses, Fault::OtherContent, it.as_bytes())
        }
        Note::AsForm => {
            let it = canonical::systems(alloc, tbs)?;
            has_one(octets, Kinds::Systems, Fault::OtherContent, it.as_bytes())
        }
        Note::BytesAfterValue => has_one(octets, Kinds::Known, Fault::NotOneValue, &[]),
        Note::FlagForm => states_false(octets),
        Note::ExtensionTwice => is_one_twice(alloc, octets)?,
    })
}

// Adds a note, if it is one.
fn put(notes: &mut Vec<Note>, note: Note, is_one: bool) -> Result<(), AllocError>
    ensures { OnOk result (notes.new.items
        ≡ (if is_one then notes.old.items ++ note ∷ [] else notes.old.items)) }
{
    if is_one {
        notes.push(note)?;
    }
    Ok(())
}

// The notes of the certificate that the octets start with.
fn of_certificate(alloc: Global, octets: &Bytes, cert: &Cert) -> Result<Vec<Note>, AllocError>
    requires { Means IsCertificate cert.now octets.now }
    ensures { IfOk result (λ notes. AreNotes octets.now notes.items) }
{
    let mut notes = Vec::new(alloc);
    for note in NOTES {
        let is_one = is_note(alloc, octets, cert.as_tbs(), note)?;
        put(&mut notes, note, is_one)?;
    }
    Ok(notes)
}

/// Returns what is accepted of the certificate at the start of a file although a standard forbids
/// it: exactly the notes whose rules it breaks, in the order of [`Note`]. There are none if the
/// file doesn't start with a certificate. The time is linear in the number of bytes.
///
/// # Errors
///
/// Returns an error if memory runs out, or if an extension of resources would have 2^32 bytes or
/// more.
#[tactic(auto, using(crate::proofs::Told::none_told))]
pub fn notes_of(alloc: Global, object: &Object<'_>) -> Result<Vec<Note>, AllocError>
    ensures { IfOk result (λ notes. AreNotes object.now.octets notes.items) }
{
    match object.certificate() {
        Some((cert, _)) => of_certificate(alloc, object.octets(), cert),
        None => Ok(Vec::new(alloc)),
    }
}
