//! The subject of a file: a certificate, a CRL, a TAL, or none of them, and why.
ghost use Rattle.std.specs.Prelude.{◌≡◌, ◌≢◌, ◌↔◌, IfOk, IsTrue};
ghost use Rattle.rpki_der.specs.declared.error.DecodeError.TheVariants as decoding;
ghost use Rattle.rpki_files.specs.Contents.{BeginsWithEither};
ghost use Rattle.rpki_files.specs.FaultRules.{rule_of};
ghost use Rattle.rpki_files.specs.LocatorFiles.{IsWhyNoLocator};
ghost use Rattle.rpki_files.specs.Misreads.{kept_fault};
ghost use Rattle.rpki_files.specs.ToBeSigned.{BeginsWithAny};
ghost use Rattle.rpki_answers.specs.ShownFiles.{IsRejection, IsSubject, IsToldAsCertificate, IsToldAsList, IsToldRule, can_be_shown, is_to_be_signed};

use bytes::Bytes;
use rpki_cert::Cert;
use rpki_crl::Crl;
use rpki_der::DecodeError;
use rpki_files::rules::{Rule, of_file};
use rpki_files::{
    Content, Form, Object, Place, Sort, as_unsigned, describe, looks_like, looks_like_locator,
    place_for, read_locator,
};
use rpki_keys::tal::{Tal, TalError};
use std::alloc::{AllocError, Global};

/// Why a file starts with neither a certificate nor a CRL: the error, the sort of the file, the rule
/// of that sort or else of the error, and the place where reading stops, with what is expected there.
#[derive(Drop)]
pub struct Rejection {
    pub why: String,
    pub sort: Option<Sort>,
    pub rule: Rule,
    pub place: Place,
}

/// The subject of a file.
#[derive(Drop)]
pub enum Subject<'a> {
    /// It starts with a certificate, and so many bytes follow.
    Certificate(&'a Cert, usize),
    /// It starts with a CRL, and so many bytes follow.
    List(&'a Crl, usize),
    /// It is a TBSCertificate or a TBSCertList, here with a signature of no bytes.
    ToBeSigned(Object<'a>),
    Locator(Tal),
    /// It looks like a TAL and isn't one.
    NotALocator(TalError),
    Unread(Rejection),
}

impl Subject<'_> {
    /// Returns whether the file starts with a certificate or a CRL, or is the to-be-signed part of
    /// one, or a TAL.
    pub fn can_be_shown(&self) -> bool
        ensures { result ≡ can_be_shown self.now }
    {
        match self {
            Subject::Certificate(..)
            | Subject::List(..)
            | Subject::ToBeSigned(_)
            | Subject::Locator(_) => true,
            Subject::NotALocator(_) | Subject::Unread(_) => false,
        }
    }

    /// Returns whether the file is the to-be-signed part of a certificate or a CRL.
    pub fn is_to_be_signed(&self) -> bool
        ensures { result ≡ is_to_be_signed self.now }
    {
        matches!(self, Subject::ToBeSigned(_))
    }
}

// Whether a file of this sort, which looks like a CRL, is read as a certificate.
fn is_told_as_certificate(sort: Option<Sort>) -> bool
    ensures { IsTrue result ↔ IsToldAsCertificate sort }
{
    match sort {
        Some(Sort::Version1 | Sort::Request) => true,
        _ => false,
    }
}

// Whether a file of this sort is read as a CRL.
fn is_told_as_list(octets: &Bytes, sort: Option<Sort>) -> bool
    ensures { IsTrue result ↔ IsToldAsList sort octets.now }
{
    match looks_like(octets) {
        Form::List => !is_told_as_certificate(sort),
        Form::Certificate | Form::Other => false,
    }
}

// The rule of a file's sort, or else of its error.
fn rule_of_file(sort: Option<Sort>, fault: &DecodeError, octets: &Bytes, is_list: bool) -> Rule
    ensures { IsToldRule sort is_list fault.now octets.now (rule_of result) }
{
    match sort {
        Some(sort) => {
            let told = describe(sort);
            Rule {
                says: told.says,
                section: told.section,
            }
        }
        None => of_file(fault, octets, is_list),
    }
}

// The error that is printed: this one if it is true, and else the plain one.
fn told<'a>(fault: &'a DecodeError, plain: &'a DecodeError, is_true: bool) -> &'a DecodeError
    requires { plain.now ≡ decoding.BadValue }
    ensures { result.now ≡ kept_fault fault.now is_true }
{
    if is_true { fault } else { plain }
}

// Why a file starts with neither. What isn't true at the place where reading stops is left out.
fn rejection_of(
    alloc: Global,
    object: &Object<'_>,
    fault: &DecodeError,
) -> Result<Rejection, AllocError>
    requires { fault.now ≢ decoding.Memory }
    ensures { IfOk result (λ it. IsRejection object.now.octets it) }
{
    let octets = object.octets();
    let sort = object.sort();
    let is_list = is_told_as_list(octets, sort);
    let (place, is_true) = place_for(alloc, octets, is_list, fault)?;
    let plain = DecodeError::BadValue;
    let fault = told(fault, &plain, is_true);
    let rule = rule_of_file(sort, fault, octets, is_list);
    let why = format!(in alloc; "{fault}");
    drop(plain);
    Ok(Rejection {
        why: why?,
        sort,
        rule,
        place,
    })
}

// The subject of a file that is no TAL either.
fn other_subject<'a>(
    alloc: Global,
    object: &'a Object<'_>,
    fault: &DecodeError,
    error: TalError,
) -> Result<Subject<'a>, AllocError>
    requires fault { fault.now ≢ decoding.Memory }
    requires none { BeginsWithAny object.now.octets → ⊥ }
    ensures { (strict : _) → IsWhyNoLocator strict object.now.octets error
        → IfOk result (λ it. IsSubject strict object.now.octets it) }
{
    if looks_like_locator(object.octets().as_slice()) {
        return Ok(Subject::NotALocator(error));
    }
    drop(error);
    let rejection = rejection_of(alloc, object, fault)?;
    Ok(Subject::Unread(rejection))
}

// The subject of a file that is no certificate and no CRL, signed or not.
fn subject_of_none<'a>(
    alloc: Global,
    object: &'a Object<'_>,
    fault: &DecodeError,
    strict: bool,
) -> Result<Subject<'a>, AllocError>
    requires fault { fault.now ≢ decoding.Memory }
    requires none { BeginsWithAny object.now.octets → ⊥ }
    ensures { IfOk result (λ it. IsSubject strict object.now.octets it) }
{
    let octets = object.octets().as_slice();
    match read_locator(alloc, object.name(), octets, strict)? {
        Ok(tal) => Ok(Subject::Locator(tal)),
        Err(error) => other_subject(alloc, object, fault, error),
    }
}

// The subject of a file that starts with neither a certificate nor a CRL.
fn subject_of_neither<'a>(
    alloc: Global,
    object: &'a Object<'_>,
    fault: &DecodeError,
    strict: bool,
) -> Result<Subject<'a>, AllocError>
    requires fault { fault.now ≢ decoding.Memory }
    requires neither { BeginsWithEither object.now.octets → ⊥ }
    ensures { IfOk result (λ it. IsSubject strict object.now.octets it) }
{
    match as_unsigned(alloc, object.name(), object.octets())? {
        Some(whole) => Ok(Subject::ToBeSigned(whole)),
        None => subject_of_none(alloc, object, fault, strict),
    }
}

/// Finds the subject of a file.
///
/// # Errors
///
/// Returns an error only if memory runs out.
pub fn subject_of<'a>(
    alloc: Global,
    object: &'a Object<'_>,
    strict: bool,
) -> Result<Subject<'a>, AllocError>
    ensures { IfOk result (λ it. IsSubject strict object.now.octets it) }
{
    match object.content() {
        Content::Certificate(cert, left) => Ok(Subject::Certificate(cert, *left)),
        Content::List(list, left) => Ok(Subject::List(list, *left)),
        Content::Neither(fault) => subject_of_neither(alloc, object, fault, strict),
    }
}
