//! Certificates inspected as one of the five kinds.
use crate::answer::Answer;
use crate::words::{Words, bytes};
use rpki_cert::{Cert, InspectionError};
use rpki_der::DecodeError;

/// What a certificate is taken for.
#[derive(Clone, Copy)]
pub enum Role {
    /// A trust anchor.
    Anchor,
    /// A CA.
    Ca,
    /// An end entity whose object is named.
    Ee,
    /// An end entity of which no object needs to be named.
    Detached,
    /// A router.
    Router,
}

/// Returns the kind that a word names.
pub fn role_of(words: &Words<'_>, place: usize) -> Role {
    match words.at(place) {
        "ta" => Role::Anchor,
        "ca" => Role::Ca,
        "ee" => Role::Ee,
        "detached" => Role::Detached,
        _ => Role::Router,
    }
}

fn inspection(cert: &Cert, kind: Role, strict: bool) -> Result<(), InspectionError> {
    match kind {
        Role::Anchor => cert.inspect_ta(strict),
        Role::Ca => cert.inspect_ca(strict),
        Role::Ee => cert.inspect_ee(strict),
        Role::Detached => cert.inspect_detached_ee(strict),
        Role::Router => cert.inspect_router(strict),
    }
}

fn inspected(out: &mut Answer, answer: Result<(), InspectionError>) {
    match answer {
        Ok(()) => out.text("Ok"),
        Err(error) => out.name(error.name()),
    }
}

// The first fault as the kind, strictly and leniently.
fn inspected_as(out: &mut Answer, cert: &Cert, kind: Role) {
    inspected(out, inspection(cert, kind, true));
    out.text(",");
    inspected(out, inspection(cert, kind, false));
}

fn inspected_as_all(out: &mut Answer, cert: &Cert) {
    out.text("ok");
    inspected_as(out.field("ta"), cert, Role::Anchor);
    inspected_as(out.field("ca"), cert, Role::Ca);
    inspected_as(out.field("ee"), cert, Role::Ee);
    inspected_as(out.field("detached"), cert, Role::Detached);
    inspected_as(out.field("router"), cert, Role::Router);
}

/// Returns the certificate of a word in hexadecimal.
pub fn decoded(out: &mut Answer, words: &Words<'_>, place: usize) -> Result<Cert, DecodeError> {
    let octets = bytes(out, words.at(place));
    let found = Cert::decode(out.alloc(), octets.as_slice());
    if let Err(DecodeError::Memory) = &found {
        out.fail();
    }
    found
}

/// Appends the first fault of a certificate, strictly and leniently: as a kind, or as each of the
/// five.
pub fn inspect(words: &Words<'_>, out: &mut Answer) {
    let is_of_all = words.at(2) == "-";
    match decoded(out, words, if is_of_all { 1 } else { 2 }) {
        Ok(cert) => {
            if is_of_all {
                inspected_as_all(out, &cert);
            } else {
                inspected_as(out, &cert, role_of(words, 1));
            }
            drop(cert);
        }
        Err(error) => out.refused(error),
    }
}
