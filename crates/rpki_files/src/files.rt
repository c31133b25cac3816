//! Files, in DER or in PEM, with the certificate or CRL at their start.
ghost use Rattle.std.specs.List.{starts_with};
ghost use Rattle.std.specs.Prelude.{◌≡◌, ◌≢◌, ◌↔◌, ◌++◌, ℕ, nat_eq, List, IsTrue, IfOk, MatchOption};
ghost use Rattle.rpki_cert.specs.Certificates.{IsCertificate};
ghost use Rattle.rpki_crl.specs.Lists.{IsCertificateList};
ghost use Rattle.rpki_files.specs.Contents.{BeginsWithEither, FindsBefore, IsContent, IsList};
ghost use Rattle.rpki_files.specs.FileSorts.{IsToldSort};
ghost use Rattle.rpki_files.specs.PemFiles.{BeginsAgain, HasBase64, HasBeginLine, IsBareBase64, IsDamagedPem, IsObjectOf, IsPemOf, IsSeveralPem, IsUnendedPem, begin_line, byte_order_mark, is_begin_line, is_end_line, is_text};

use crate::contents::{Content, read_content};
use crate::sorts::{Sort, sort_of};
use bytes::Bytes;
use rpki_cert::Cert;
use rpki_crl::Crl;
use rpki_keys::tal::{octets_of, push_digits};
use std::alloc::{AllocError, Global};
use std::marker::Model;

/// A file: its name, the bytes of its object in DER, what was read of them, and their sort if they
/// are neither a certificate nor a CRL.
#[derive(Drop)]
pub struct Object<'a> {
    name: &'a str,
    octets: Bytes,
    content: Content,
    sort: Option<Sort>,
}

impl<'a> Model for Object<'a> {
    ghost use Rattle.rpki_files.specs.Files.{FileFields};
    ghost use Rattle.rpki_files.specs.Contents.{IsContent};
    ghost use Rattle.rpki_files.specs.FileSorts.{IsToldSort};

    ghost Value = { FileFields };

    ghost view = { λ o. record { name = o.name.now; octets = o.octets } };

    ghost invariant = { λ o. IsContent o.octets o.content × IsToldSort o.octets o.sort };
}

impl<'a> Object<'a> {
    /// Returns the name.
    pub fn name(&self) -> &str
        ensures { result.now ≡ self.now.name }
    {
        self.name
    }

    /// Returns the bytes of the object.
    pub fn octets(&self) -> &Bytes
        ensures { result.now ≡ self.now.octets }
    {
        &self.octets
    }

    /// Returns what the bytes start with.
    pub fn content(&self) -> &Content
        ensures { IsContent self.now.octets result.now }
    {
        &self.content
    }

    /// Returns the sort of the bytes, if they start with neither a certificate nor a CRL and are of
    /// a known sort.
    pub fn sort(&self) -> Option<Sort>
        ensures { IsToldSort self.now.octets result }
    {
        self.sort
    }

    /// Returns the certificate at the start of the bytes, if there is one, and how many bytes
    /// follow it.
    pub fn certificate(&self) -> Option<(&Cert, usize)>
        ensures { FindsBefore (λ c. c.now) IsCertificate self.now.octets result }
    {
        match self.content() {
            Content::Certificate(cert, left) => Some((cert, *left)),
            Content::List(..) | Content::Neither(_) => None,
        }
    }

    /// Returns the CRL at the start of the bytes, if there is one, and how many bytes follow it.
    pub fn list(&self) -> Option<(&Crl, usize)>
        ensures { FindsBefore (λ l. l.now.list) IsCertificateList self.now.octets result }
    {
        match self.content() {
            Content::List(list, left) => Some((list, *left)),
            Content::Certificate(..) | Content::Neither(_) => None,
        }
    }

    /// Returns the CRL, if the bytes are one and no byte follows it.
    pub fn whole_list(&self) -> Option<&Crl>
        ensures { MatchOption result (IsList self.now.octets → ⊥)
            (λ list. IsCertificateList list.now.list self.now.octets) }
    {
        self.content().whole_list()
    }

    /// Returns whether the bytes are a CRL, and no byte follows it.
    #[tactic(auto, using(crate::proofs::FoundOctets::some_or_none))]
    pub fn is_list(&self) -> bool
        ensures { IsTrue result ↔ IsList self.now.octets }
    {
        self.whole_list().is_some()
    }
}

// Whether octets are a text: none of them is 0, as one of each certificate and of each list is.
fn is_text(octets: &[u8]) -> bool
    ensures { result ≡ is_text octets.now }
{
    !octets.contains(&0)
}

// Whether a line begins as one does at which an object of PEM begins.
fn starts_object(line: &[u8]) -> bool
    ensures { result ≡ starts_with nat_eq line.now begin_line }
{
    line.starts_with("-----BEGIN ".as_bytes())
}

// Whether it does behind a byte order mark.
fn starts_marked_object(line: &[u8]) -> bool
    ensures { result ≡ starts_with nat_eq line.now (byte_order_mark ++ begin_line) }
{
    line.starts_with("\u{feff}-----BEGIN ".as_bytes())
}

// Whether an object of PEM begins at a line, be there a byte order mark before it.
fn is_begin_line(line: &[u8]) -> bool
    ensures { result ≡ is_begin_line line.now }
{
    starts_object(line) || starts_marked_object(line)
}

// Whether an object of PEM ends at a line.
fn is_end_line(line: &[u8]) -> bool
    ensures { result ≡ is_end_line line.now }
{
    line.starts_with("-----END ".as_bytes())
}

// The base64 of the first object of PEM in a text, if it has one.
fn base64_in(alloc: Global, text: &[u8]) -> Result<Option<Vec<u8>>, AllocError>
    ensures { IfOk result (λ found. MatchOption found
        ((digits : List ℕ) → ¬ HasBase64 digits text.now)
        (λ digits. HasBase64 digits.items text.now)) }
{
    let mut digits = Vec::new(alloc);
    let lines = text
        .split(|octet| *octet == b'\n')
        .skip_while(|line| !is_begin_line(line));
    for line in lines.skip(1) {
        if is_end_line(line) {
            return Ok(Some(digits));
        }
        push_digits(&mut digits, line)?;
    }
    Ok(None)
}

// Whether a second object of PEM begins in a text.
fn begins_again(text: &[u8]) -> bool
    ensures { IsTrue result ↔ BeginsAgain text.now }
{
    text.split(|octet| *octet == b'\n')
        .skip_while(|line| !is_begin_line(line))
        .skip(1)
        .any(|line| is_begin_line(line))
}

// The octets of a file's object in PEM, if it has one, and only one.
fn from_pem(alloc: Global, file: &[u8]) -> Result<Option<Vec<u8>>, AllocError>
    ensures { IfOk result (λ found. MatchOption found
        ((octets : List ℕ) → ¬ IsPemOf octets file.now)
        (λ octets. IsPemOf octets.items file.now)) }
{
    if !is_text(file) || begins_again(file) {
        return Ok(None);
    }
    match base64_in(alloc, file)? {
        Some(digits) => octets_of(alloc, &digits),
        None => Ok(None),
    }
}

// Whether an object of PEM begins at one of a text's lines.
fn has_begin_line(text: &[u8]) -> bool
    ensures { IsTrue result ↔ HasBeginLine text.now }
{
    text.split(|octet| *octet == b'\n')
        .any(|line| is_begin_line(line))
}

/// Returns whether the bytes are a text in which several PEM objects start (RFC 7468 2).
pub fn is_several_pem(octets: &[u8]) -> bool
    ensures { IsTrue result ↔ IsSeveralPem octets.now }
{
    is_text(octets) && begins_again(octets)
}

/// Returns whether the bytes are a text in which a PEM object starts that has no end (RFC 7468 2).
///
/// # Errors
///
/// Returns an error only if memory runs out.
pub fn is_unended_pem(alloc: Global, octets: &[u8]) -> Result<bool, AllocError>
    ensures { IfOk result (λ is. IsTrue is ↔ IsUnendedPem octets.now) }
{
    if !is_text(octets) || !has_begin_line(octets) {
        return Ok(false);
    }
    match base64_in(alloc, octets)? {
        Some(digits) => {
            drop(digits);
            Ok(false)
        }
        None => Ok(true),
    }
}

/// Returns whether the bytes are a text in which a PEM object starts that can't be read (RFC 7468
/// 2).
///
/// # Errors
///
/// Returns an error only if memory runs out.
pub fn is_damaged_pem(alloc: Global, octets: &[u8]) -> Result<bool, AllocError>
    ensures { IfOk result (λ is. IsTrue is ↔ IsDamagedPem octets.now) }
{
    if !is_text(octets) || !has_begin_line(octets) {
        return Ok(false);
    }
    match from_pem(alloc, octets)? {
        Some(object) => {
            drop(object);
            Ok(false)
        }
        None => Ok(true),
    }
}

/// Returns whether the bytes are base64, white space aside, and start as that of a certificate
/// does.
///
/// # Errors
///
/// Returns an error only if memory runs out.
pub fn is_bare_base64(alloc: Global, octets: &[u8]) -> Result<bool, AllocError>
    ensures { IfOk result (λ is. IsTrue is ↔ IsBareBase64 octets.now) }
{
    if !octets.starts_with("MI".as_bytes()) {
        return Ok(false);
    }
    let mut digits = Vec::new(alloc);
    push_digits(&mut digits, octets)?;
    match octets_of(alloc, &digits)? {
        Some(object) => {
            drop(object);
            Ok(true)
        }
        None => Ok(false),
    }
}

// The octets of a file's object, in DER or in PEM.
pub(crate) fn object_octets(alloc: Global, file: Vec<u8>) -> Result<Bytes, AllocError>
    ensures { IfOk result (IsObjectOf file.items) }
{
    let octets = from_pem(alloc, &file)?.unwrap_or(file);
    Ok(Bytes::from_vec(octets)?)
}

// The sort of octets of which this was read.
fn told_sort(alloc: Global, octets: &Bytes, content: &Content) -> Result<Option<Sort>, AllocError>
    requires { IsContent octets.now content.now }
    ensures { IfOk result (IsToldSort octets.now) }
{
    match content {
        Content::Neither(_) => sort_of(alloc, octets),
        Content::Certificate(..) | Content::List(..) => Ok(None),
    }
}

// The object of this name and of these octets, of which this was read, with their sort.
fn with_sort<'a>(
    alloc: Global,
    name: &'a str,
    octets: Bytes,
    content: Content,
) -> Result<Object<'a>, AllocError>
    requires { IsContent octets content }
    ensures name { IfOk result (λ object. object.name ≡ name.now) }
    ensures octets { IfOk result (λ object. object.octets ≡ octets) }
{
    match told_sort(alloc, &octets, &content) {
        Ok(sort) => Ok(Object {
            name,
            octets,
            content,
            sort,
        }),
        Err(error) => {
            drop(content);
            drop(octets);
            Err(error)
        }
    }
}

/// Reads what is at the start of the bytes of the object with this name.
pub(crate) fn object_of<'a>(
    alloc: Global,
    name: &'a str,
    octets: Bytes,
) -> Result<Object<'a>, AllocError>
    ensures name { IfOk result (λ object. object.name ≡ name.now) }
    ensures octets { IfOk result (λ object. object.octets ≡ octets) }
{
    match read_content(alloc, &octets) {
        Ok(content) => with_sort(alloc, name, octets, content),
        Err(error) => {
            drop(octets);
            Err(error)
        }
    }
}

/// Reads the object of a file, in DER or in PEM, what it starts with, and its sort if that is
/// neither a certificate nor a CRL.
///
/// # Errors
///
/// Returns an error only if memory runs out.
pub fn read_object<'a>(
    alloc: Global,
    name: &'a str,
    file: Vec<u8>,
) -> Result<Object<'a>, AllocError>
    ensures name { IfOk result (λ object. object.name ≡ name.now) }
    ensures object { IfOk result (λ object. IsObjectOf file.items object.octets) }
    ensures der { BeginsWithEither file.items
        → IfOk result (λ object. object.octets ≡ file.items) }
{
    let octets = object_octets(alloc, file)?;
    object_of(alloc, name, octets)
}
