//! What bytes start with: a certificate, a CRL, or neither.
ghost use Rattle.std.specs.Prelude.{◌≡◌, ◌≢◌, ◌↔◌, false, ℕ, List, IsSomeAnd, IfOk, IfSome, MatchOption};
ghost use Rattle.rpki_der.specs.Encoding.{Means};
ghost use Rattle.rpki_der.specs.Place.{MeansOrMemoryBy, remaining};
ghost use Rattle.rpki_der.specs.Tags.{SEQUENCE};
ghost use Rattle.rpki_der.specs.Values.{IsEnc};
ghost use Rattle.rpki_cert.specs.Certificates.{IsCertificate};
ghost use Rattle.rpki_der.specs.declared.error.DecodeError.TheVariants as decoding;
ghost use Rattle.rpki_crl.specs.Lists.{IsCertificateList};
ghost use Rattle.rpki_files.specs.Contents.{BeginsBefore, BeginsWithCertificate, BeginsWithList, HasFirstInside, IsContent, IsList, LooksLikeList};

use bytes::Bytes;
use rpki_cert::Cert;
use rpki_crl::{Crl, laws};
use rpki_der::{Cursor, DecodeError};
use std::alloc::{AllocError, Global};

/// What the first values of bytes look like.
#[derive(Clone, Copy)]
pub enum Form {
    Certificate,
    List,
    Other,
}

// The inside of the SEQUENCE that stands next, if one does.
fn inside<'a>(at: Cursor<'a>) -> Option<Cursor<'a>>
    ensures found { (content : List ℕ) → Means (IsEnc SEQUENCE) content (remaining at.entry)
        → IsSomeAnd result (λ inside. remaining inside ≡ content) }
    ensures means { let encodes = IsEnc SEQUENCE in
        IfSome result (λ inside. Means encodes (remaining inside) (remaining at.entry)) }
{
    let mut ahead = at.fork();
    ahead.take_sequence().ok()
}

// The first octet inside a SEQUENCE at the front of a SEQUENCE at the front.
fn first_inside(octets: &Bytes) -> Option<u8>
    ensures found { (first : ℕ) → HasFirstInside first octets.now → result ≡ Some first }
    ensures means { IfSome result (λ first. HasFirstInside first octets.now) }
{
    let data = inside(inside(Cursor::new(octets))?)?;
    data.rest().first().copied()
}

/// Returns what the bytes look like: `List` if they start with a CRL, and another form if they
/// start with a certificate. No more than the first identifiers are read (own).
pub fn looks_like(octets: &Bytes) -> Form
    ensures list { BeginsWithList octets.now → result ≡ Form.List }
    ensures certificate { BeginsWithCertificate octets.now → result ≢ Form.List }
    ensures form { result ≡ Form.List ↔ LooksLikeList octets.now }
{
    // A certificate's data begin with its version under [0], a list's with an INTEGER.
    let first = first_inside(octets);
    if first == Some(0xa0) {
        Form::Certificate
    } else if first == Some(0x02) {
        Form::List
    } else {
        Form::Other
    }
}

/// What bytes start with, and how many bytes follow it.
#[derive(Drop)]
pub enum Content {
    Certificate(Cert, usize),
    List(Crl, usize),
    /// Neither. This is the error of reading what the bytes look like.
    Neither(DecodeError),
}

impl Content {
    /// Returns the CRL, if the bytes of which this was read are one and no byte follows it.
    pub(crate) fn whole_list(&self) -> Option<&Crl>
        ensures { (octets : List ℕ) → IsContent octets self.now
            → MatchOption result (IsList octets → ⊥)
            (λ list. IsCertificateList list.now.list octets) }
    {
        // Called for what it ensures alone.
        laws::unambiguous();
        match self {
            Content::List(list, left) => { if *left == 0 { Some(list) } else { None } }
            Content::Certificate(..) | Content::Neither(_) => None,
        }
    }

    /// Returns the CRL as [`Content::whole_list`] does, and drops the rest.
    pub(crate) fn into_whole_list(self) -> Option<Crl>
        ensures { (octets : List ℕ) → IsContent octets self
            → MatchOption result (IsList octets → ⊥) (λ list. IsCertificateList list.list octets) }
    {
        // Called for what it ensures alone.
        laws::unambiguous();
        match self {
            Content::List(list, left) => {
                if left == 0 {
                    return Some(list);
                }
                drop(list);
                None
            }
            other => {
                drop(other);
                None
            }
        }
    }
}

/// Reads the certificate at the start of the bytes, and counts the bytes that follow it.
pub(crate) fn certificate_in(alloc: Global, octets: &Bytes) -> Result<(Cert, usize), DecodeError>
    ensures means { MeansOrMemoryBy (λ found. found.0) (Means IsCertificate) result octets.now }
    ensures left { IfOk result (λ found. BeginsBefore IsCertificate octets.now found.0 found.1) }
{
    let mut cursor = Cursor::new(octets);
    let cert = Cert::take_from(alloc, &mut cursor)?;
    Ok((cert, cursor.rest().len()))
}

/// Reads the CRL at the start of the bytes, and counts the bytes that follow it.
pub(crate) fn list_in(alloc: Global, octets: &Bytes) -> Result<(Crl, usize), DecodeError>
    ensures means { let encodes = Means IsCertificateList in
        MeansOrMemoryBy (λ found. found.0.list) encodes result octets.now }
    ensures left { IfOk result (λ found.
        BeginsBefore IsCertificateList octets.now found.0.list found.1) }
    ensures uncached { IfOk result (λ found. found.0.is_cached ≡ false) }
{
    let mut cursor = Cursor::new(octets);
    let list = Crl::take_from(alloc, &mut cursor)?;
    Ok((list, cursor.rest().len()))
}

// What is read of octets that can't be read for this fault, unless memory ran out.
fn neither(fault: DecodeError) -> Result<Content, AllocError>
    ensures { IfOk result (λ content. (content ≡ Content.Neither fault)
        × (fault ≢ decoding.Memory)) }
{
    if fault.is_memory() {
        drop(fault);
        return Err(AllocError);
    }
    Ok(Content::Neither(fault))
}

// What octets begin with that begin with no list.
fn as_certificate(alloc: Global, octets: &Bytes) -> Result<Content, AllocError>
    requires { BeginsWithList octets.now → ⊥ }
    ensures { IfOk result (IsContent octets.now) }
{
    match certificate_in(alloc, octets) {
        Ok((cert, left)) => Ok(Content::Certificate(cert, left)),
        Err(fault) => neither(fault),
    }
}

// What octets begin with that begin with no certificate.
fn as_list(alloc: Global, octets: &Bytes) -> Result<Content, AllocError>
    requires { BeginsWithCertificate octets.now → ⊥ }
    ensures { IfOk result (IsContent octets.now) }
{
    match list_in(alloc, octets) {
        Ok((list, left)) => Ok(Content::List(list, left)),
        Err(fault) => neither(fault),
    }
}

/// Reads the certificate or the CRL at the start of the bytes.
///
/// # Errors
///
/// Returns an error only if memory runs out.
pub fn read_content(alloc: Global, octets: &Bytes) -> Result<Content, AllocError>
    ensures { IfOk result (IsContent octets.now) }
{
    match looks_like(octets) {
        Form::List => as_list(alloc, octets),
        Form::Certificate | Form::Other => as_certificate(alloc, octets),
    }
}
