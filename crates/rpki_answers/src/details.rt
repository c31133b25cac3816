//! The details of a rejection besides its rule, so that its reader can act.
ghost use Rattle.std.specs.Prelude.{◌≡◌, ◌↔◌, [], ◌∷◌, option_map, IsTrue, OnOk, Some};
ghost use Rattle.rpki_document.specs.Building.{Adds};
ghost use Rattle.rpki_answers.specs.RejectionDetails.{AreDetails, IsAnchor, IsCause, IsCertificateAt, IsSortAt, TellsOrder, bound_node, cause_nodes, details_nodes, identifier_nodes, member_nodes, order_nodes, sort_nodes, uri_nodes};

use crate::told::{identifier_leaf, moment_leaf};
use rpki_cert::Cert;
use rpki_der::Time;
use rpki_document::{Leaf, Parts, Piece, add_line, add_told};
use rpki_files::{Object, Sort, describe};
use rpki_parts::{Https, KeyIdentifier, Rsync};
use rpki_verdicts::{Fault, Question};
use std::alloc::{AllocError, Global};

/// The text about files in the reverse order.
pub const ORDER: &str =
    "expected the files from the trust anchor down, but the last one is a trust anchor";

/// The errors that have details besides their rule.
#[derive(Clone, Copy)]
pub enum Cause {
    /// The list of the member's issuer isn't among those given.
    NoList,
    /// The member names another key than the one above has.
    OtherKey,
    NotYetValid,
    Expired,
    Other,
}

/// The details of an error besides its rule: its cause, the validation time, the certificate at its
/// path index and the one above it, the sort of that certificate's file, and whether the files are in
/// the reverse order.
#[derive(Clone, Copy)]
pub struct Details<'q> {
    pub cause: Cause,
    pub moment: Time,
    pub member: Option<&'q Cert>,
    pub above: Option<&'q Cert>,
    pub sort: Option<Sort>,
    pub is_turned: bool,
}

// ---- finding them

// Whether the error has this name, in this step.
fn is_named(fault: &Fault, step: &str, name: &str) -> bool
    ensures { IsTrue result ↔ ((fault.now.step.now ≡ step.now) × (fault.now.name.now ≡ name.now)) }
{
    fault.step == step && fault.name == name
}

fn cause_of(fault: &Fault) -> Cause
    ensures { IsCause result fault.now }
{
    if is_named(fault, "revocation", "NoCrl") {
        Cause::NoList
    } else if is_named(fault, "verification", "WrongKeyId") {
        Cause::OtherKey
    } else if is_named(fault, "verification", "NotYetValid") {
        Cause::NotYetValid
    } else if is_named(fault, "verification", "Expired") {
        Cause::Expired
    } else {
        Cause::Other
    }
}

// The certificate that the file at this place starts with.
fn certificate_at<'q>(files: &'q [Object<'_>], place: usize) -> Option<&'q Cert>
    ensures { IsCertificateAt files.now place (option_map (λ c. c.now) result) }
{
    match files.get(place) {
        Some(file) => match file.certificate() {
            Some((cert, _)) => Some(cert),
            None => None,
        },
        None => None,
    }
}

fn sort_at(files: &[Object<'_>], place: usize) -> Option<Sort>
    ensures { IsSortAt files.now place result }
{
    match files.get(place) {
        Some(file) => file.sort(),
        None => None,
    }
}

fn is_anchor(cert: Option<&Cert>, strict: bool) -> bool
    ensures { IsTrue result ↔ IsAnchor strict (option_map (λ c. c.now) cert.entry) }
{
    match cert {
        Some(cert) => match cert.inspect_ta(strict) {
            Ok(()) => true,
            Err(_) => false,
        },
        None => false,
    }
}

// Whether the last of the files is a trust anchor, and the first one isn't.
fn is_turned(files: &[Object<'_>], strict: bool) -> bool
    ensures { TellsOrder strict files.now result }
{
    let first = certificate_at(files, 0);
    let last = certificate_at(files, files.len().saturating_sub(1));
    is_anchor(last, strict) && !is_anchor(first, strict)
}

/// Finds the details of an error.
pub fn details_of<'q>(question: &Question<'q, '_>, fault: &Fault) -> Details<'q>
    ensures { AreDetails question.now fault.now result }
{
    let files = question.members;
    Details {
        cause: cause_of(fault),
        moment: question.at,
        member: certificate_at(files, fault.index),
        above: certificate_at(files, fault.index.saturating_sub(1)),
        sort: sort_at(files, fault.index),
        is_turned: is_turned(files, question.strict),
    }
}

// ---- in a document

/// Adds the identifier of a key, if it is there.
pub fn add_identifier<'p>(
    parts: &mut Parts<'p>,
    alloc: Global,
    label: &'p str,
    key: &'p str,
    identifier: Option<KeyIdentifier>,
) -> Result<(), AllocError>
    ensures { let its = identifier_nodes label.now key.now identifier in
        OnOk result (Adds its parts.old.items parts.new.items) }
{
    match identifier {
        Some(identifier) => {
            let leaf = identifier_leaf(alloc, &identifier)?;
            add_told(parts, alloc, label, key, leaf)
        }
        None => Ok(()),
    }
}

/// Adds a URI, if it is there.
pub fn add_uri<'p>(
    parts: &mut Parts<'p>,
    alloc: Global,
    label: &'p str,
    key: &'p str,
    uri: Option<&'p Rsync>,
) -> Result<(), AllocError>
    ensures { let its = uri_nodes label.now key.now (option_map (λ it. it.now) uri.entry) in
        OnOk result (Adds its parts.old.items parts.new.items) }
{
    match uri {
        Some(uri) => add_told(parts, alloc, label, key, Leaf::Characters(uri.as_bytes())),
        None => Ok(()),
    }
}

/// Adds a URI, if it is there.
pub fn add_https<'p>(
    parts: &mut Parts<'p>,
    alloc: Global,
    label: &'p str,
    key: &'p str,
    uri: Option<&'p Https>,
) -> Result<(), AllocError>
    ensures { let its = uri_nodes label.now key.now (option_map (λ it. it.now) uri.entry) in
        OnOk result (Adds its parts.old.items parts.new.items) }
{
    match uri {
        Some(uri) => add_told(parts, alloc, label, key, Leaf::Characters(uri.as_bytes())),
        None => Ok(()),
    }
}

// The CRL that is needed, and the key that has to sign it.
fn add_needed<'p>(
    parts: &mut Parts<'p>,
    alloc: Global,
    details: &Details<'_>,
    cert: &'p Cert,
) -> Result<(), AllocError>
    ensures { let above = option_map (λ c. c.now) details.now.above in
        let its = cause_nodes Cause.NoList details.now.moment cert.now above in
        OnOk result (Adds its parts.old.items parts.new.items) }
{
    let uri = cert.as_tbs().crl_uri();
    add_uri(parts, alloc, "CRL needed", "crl_needed", uri)?;
    let key = cert.as_tbs().authority_key_identifier();
    add_identifier(parts, alloc, "Issuer's key", "aki", key)
}

// The keys that should be equal.
fn add_keys<'p>(
    parts: &mut Parts<'p>,
    alloc: Global,
    details: &Details<'_>,
    cert: &'p Cert,
) -> Result<(), AllocError>
    ensures { let above = option_map (λ c. c.now) details.now.above in
        let its = cause_nodes Cause.OtherKey details.now.moment cert.now above in
        OnOk result (Adds its parts.old.items parts.new.items) }
{
    let key = cert.as_tbs().authority_key_identifier();
    add_identifier(parts, alloc, "Issuer's key", "aki", key)?;
    let key = details
        .above
        .map(|cert| cert.as_tbs().subject_key_identifier());
    add_identifier(parts, alloc, "Key above", "ski_above", key)
}

// An end of a period, and the validation time.
fn add_bound<'p>(
    parts: &mut Parts<'p>,
    alloc: Global,
    label: &'p str,
    key: &'p str,
    bound: Time,
    at: Time,
) -> Result<(), AllocError>
    ensures { let its = bound_node label.now key.now bound at in
        OnOk result (Adds (its ∷ []) parts.old.items parts.new.items) }
{
    let bound = moment_leaf(alloc, bound)?;
    let at = moment_leaf(alloc, at)?;
    let pieces = vec![in alloc;
        Piece::Tell(key, bound),
        Piece::Say(", validation time "),
        Piece::Tell("validation_time", at),
    ]?;
    add_line(parts, label, pieces)
}

fn add_not_yet(
    parts: &mut Parts<'_>,
    alloc: Global,
    details: &Details<'_>,
    cert: &Cert,
) -> Result<(), AllocError>
    ensures { let above = option_map (λ c. c.now) details.now.above in
        let its = cause_nodes Cause.NotYetValid details.now.moment cert.now above in
        OnOk result (Adds its parts.old.items parts.new.items) }
{
    let bound = cert.as_tbs().validity().not_before();
    let at = details.moment;
    add_bound(parts, alloc, "Valid from", "valid_since", bound, at)
}

fn add_expired(
    parts: &mut Parts<'_>,
    alloc: Global,
    details: &Details<'_>,
    cert: &Cert,
) -> Result<(), AllocError>
    ensures { let above = option_map (λ c. c.now) details.now.above in
        let its = cause_nodes Cause.Expired details.now.moment cert.now above in
        OnOk result (Adds its parts.old.items parts.new.items) }
{
    let bound = cert.as_tbs().validity().not_after();
    let at = details.moment;
    add_bound(parts, alloc, "Valid until", "valid_until", bound, at)
}

fn add_cause<'p>(
    parts: &mut Parts<'p>,
    alloc: Global,
    details: &Details<'_>,
    cert: &'p Cert,
) -> Result<(), AllocError>
    ensures { let above = option_map (λ c. c.now) details.now.above in
        let its = cause_nodes details.now.cause details.now.moment cert.now above in
        OnOk result (Adds its parts.old.items parts.new.items) }
{
    match details.cause {
        Cause::NoList => add_needed(parts, alloc, details, cert),
        Cause::OtherKey => add_keys(parts, alloc, details, cert),
        Cause::NotYetValid => add_not_yet(parts, alloc, details, cert),
        Cause::Expired => add_expired(parts, alloc, details, cert),
        Cause::Other => Ok(()),
    }
}

fn add_member<'p>(
    parts: &mut Parts<'p>,
    alloc: Global,
    details: &Details<'p>,
) -> Result<(), AllocError>
    ensures { let d = details.now in
        let member = option_map (λ c. c.now) d.member in
        let above = option_map (λ c. c.now) d.above in
        let its = member_nodes d.cause d.moment member above in
        OnOk result (Adds its parts.old.items parts.new.items) }
{
    match details.member {
        Some(cert) => add_cause(parts, alloc, details, cert),
        None => Ok(()),
    }
}

fn add_description(parts: &mut Parts<'_>, alloc: Global, sort: Sort) -> Result<(), AllocError>
    ensures { OnOk result (Adds (sort_nodes (Some sort)) parts.old.items parts.new.items) }
{
    let told = describe(sort);
    add_told(parts, alloc, "Kind", "kind", Leaf::Text(told.name))?;
    add_told(parts, alloc, "To do", "advice", Leaf::Text(told.advice))
}

/// Adds the sort of a file, and what to do, if the file is of a known sort.
pub fn add_sort(parts: &mut Parts<'_>, alloc: Global, sort: Option<Sort>) -> Result<(), AllocError>
    ensures { OnOk result (Adds (sort_nodes sort) parts.old.items parts.new.items) }
{
    match sort {
        Some(sort) => add_description(parts, alloc, sort),
        None => Ok(()),
    }
}

fn add_order(parts: &mut Parts<'_>, alloc: Global, is_turned: bool) -> Result<(), AllocError>
    ensures { OnOk result (Adds (order_nodes is_turned) parts.old.items parts.new.items) }
{
    if is_turned {
        add_told(parts, alloc, "Order", "order", Leaf::Text(ORDER))
    } else {
        Ok(())
    }
}

/// Adds the details of an error.
pub fn add_details<'p>(
    parts: &mut Parts<'p>,
    alloc: Global,
    details: &Details<'p>,
) -> Result<(), AllocError>
    ensures { OnOk result (Adds (details_nodes details.now) parts.old.items parts.new.items) }
{
    add_member(parts, alloc, details)?;
    add_sort(parts, alloc, details.sort)?;
    add_order(parts, alloc, details.is_turned)
}
