//! Certificates verified and validated, an anchor alone and any other below its issuer, with the
//! stand-in for signatures.
use crate::answer::Answer;
use crate::judging::{Role, decoded, role_of};
use crate::sets::set;
use crate::words::{Words, bytes, moment};
use bytes::Bytes;
use rpki_cert::{Cert, ResourceCert, ValidationError, VerificationError};
use rpki_der::{DecodeError, Time};
use rpki_parts::{StandIn, TalInfo};
use rpki_path::validate_path;
use std::rc::Rc;

// How certificates are judged.
#[derive(Clone, Copy)]
struct Terms {
    strict: bool,
    now: Time,
}

fn stated(words: &Words<'_>) -> Option<Terms> {
    let strict = words.is(2, "strict");
    moment(words.at(3)).map(|now| Terms { strict, now })
}

fn refused(out: &mut Answer, error: ValidationError) {
    match &error {
        ValidationError::Inspection(fault) => {
            out.text("refused inspect ");
            out.name(fault.name());
        }
        ValidationError::Verification(fault) => {
            out.text("refused verify ");
            out.name(fault.name());
        }
    }
    drop(error);
}

/// Appends the sets of a certificate that was verified.
pub fn held(out: &mut Answer, cert: &ResourceCert) {
    out.text("ok");
    set(out.field("v4"), cert.v4_resources());
    set(out.field("v6"), cert.v6_resources());
    set(out.field("as"), cert.as_resources());
}

fn verdict(out: &mut Answer, answer: Result<ResourceCert, ValidationError>) {
    match answer {
        Ok(cert) => {
            held(out, &cert);
            drop(cert);
        }
        Err(error) => refused(out, error),
    }
}

fn verdict_of_router(out: &mut Answer, answer: Result<(), ValidationError>) {
    match answer {
        Ok(()) => out.text("ok"),
        Err(error) => refused(out, error),
    }
}

/// Returns a locator without a name.
pub fn tal(out: &mut Answer) -> Option<Rc<TalInfo>> {
    let made = TalInfo::from_name(String::new(out.alloc())).into_rc(out.alloc());
    if made.is_err() {
        out.fail();
    }
    made.ok()
}

// A certificate that is asked about.
trait Member: Drop {
    // Whether it is verified: as an anchor, or its validity alone.
    fn verify(&self, is_anchor: bool, terms: &Terms) -> Result<(), VerificationError>;

    // Whether it is valid below its issuer, and what it holds.
    fn judge(self, out: &mut Answer, kind: Role, issuer: &ResourceCert, terms: &Terms);
}

impl Member for Cert {
    fn verify(&self, is_anchor: bool, terms: &Terms) -> Result<(), VerificationError> {
        if is_anchor {
            self.verify_ta_ref_at(terms.strict, terms.now, &StandIn)
        } else {
            self.verify_validity(terms.now)
        }
    }

    fn judge(self, out: &mut Answer, kind: Role, issuer: &ResourceCert, terms: &Terms) {
        let (alloc, strict, now) = (out.alloc(), terms.strict, terms.now);
        match kind {
            Role::Router => {
                let answer = self.validate_router_at(issuer, strict, now, &StandIn);
                verdict_of_router(out, answer);
                drop(self);
            }
            Role::Ee => verdict(
                out,
                self.validate_ee_at(alloc, issuer, strict, now, &StandIn),
            ),
            Role::Detached => {
                verdict(
                    out,
                    self.validate_detached_ee_at(alloc, issuer, strict, now, &StandIn),
                );
            }
            _ => verdict(
                out,
                self.validate_ca_at(alloc, issuer, strict, now, &StandIn),
            ),
        }
    }
}

fn verified(out: &mut Answer, answer: Result<(), VerificationError>) {
    match answer {
        Ok(()) => out.text("ok"),
        Err(error) => out.refused_as(error.name()),
    }
}

fn asked<T: Member>(
    out: &mut Answer,
    found: Result<T, DecodeError>,
    words: &Words<'_>,
    terms: &Terms,
) {
    match found {
        Ok(cert) => verified(out, cert.verify(words.is(1, "ta"), terms)),
        Err(error) => out.refused(error),
    }
}

fn judged<T: Member>(
    out: &mut Answer,
    found: Result<T, DecodeError>,
    kind: Role,
    issuer: &ResourceCert,
    terms: &Terms,
) {
    match found {
        Ok(cert) => cert.judge(out, kind, issuer, terms),
        Err(error) => out.refused(error),
    }
}

// A certificate below which others are judged.
trait Above: Drop {
    fn judge(&self, out: &mut Answer, words: &Words<'_>, terms: &Terms);
}

impl Above for ResourceCert {
    fn judge(&self, out: &mut Answer, words: &Words<'_>, terms: &Terms) {
        let found = decoded(out, words, 4);
        judged(out, found, role_of(words, 1), self, terms);
    }
}

fn authorities(out: &mut Answer, words: &Words<'_>) -> Vec<Bytes> {
    let mut found: Vec<Bytes> = Vec::new(out.alloc());
    for place in 6..words.count() {
        let octets = bytes(out, words.at(place));
        if found.push(octets).is_err() {
            out.fail();
        }
    }
    found
}

// The last of the certificates above, each of which is accepted.
fn issuer(out: &mut Answer, words: &Words<'_>, terms: &Terms) -> Option<ResourceCert> {
    let tal = tal(out)?;
    let anchor = bytes(out, words.at(5));
    let cas = authorities(out, words);
    let (alloc, strict, now) = (out.alloc(), terms.strict, terms.now);
    let answer = validate_path(alloc, &anchor, &cas, None, tal, strict, now, &StandIn);
    if let Err(error) = &answer {
        if error.is_memory() {
            out.fail();
        }
    }
    answer.ok()
}

fn judged_below<T: Above>(
    out: &mut Answer,
    words: &Words<'_>,
    above: Option<T>,
    terms: &Terms,
) -> Option<()> {
    let issuer = above?;
    issuer.judge(out, words, terms);
    Some(())
}

// The anchor by its octets; a certificate that is none is not asked about.
fn anchor(
    out: &mut Answer,
    words: &Words<'_>,
    terms: &Terms,
) -> Option<Result<ResourceCert, ValidationError>> {
    let (tal, cert) = tal(out).zip(decoded(out, words, 4).ok())?;
    Some(cert.validate_ta_at(out.alloc(), tal, terms.strict, terms.now, &StandIn))
}

fn judged_anchor(out: &mut Answer, words: &Words<'_>, terms: &Terms) -> Option<()> {
    let answer = anchor(out, words, terms)?;
    verdict(out, answer);
    Some(())
}

fn judged_by(out: &mut Answer, words: &Words<'_>) -> Option<()> {
    let terms = stated(words)?;
    if words.is(1, "ta") {
        judged_anchor(out, words, &terms)
    } else {
        let above = issuer(out, words, &terms);
        judged_below(out, words, above, &terms)
    }
}

/// Answers whether a certificate is valid, a trust anchor or below others, and what it holds.
pub fn validate(words: &Words<'_>, out: &mut Answer) {
    if judged_by(out, words).is_none() {
        out.text("unfit");
    }
}

fn verified_by(out: &mut Answer, words: &Words<'_>) -> Option<()> {
    let terms = stated(words)?;
    let found = decoded(out, words, 4);
    asked(out, found, words, &terms);
    Some(())
}

/// Answers whether a certificate is verified as a trust anchor, or its validity, whatever
/// inspection says.
pub fn verify(words: &Words<'_>, out: &mut Answer) {
    if verified_by(out, words).is_none() {
        out.text("unfit");
    }
}
