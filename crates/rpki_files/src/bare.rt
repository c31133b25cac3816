//! Objects of many files, of which only the bytes are kept.
ghost use Rattle.std.specs.Prelude.{◌≡◌, ◌↔◌, ℕ, List, IfOk, IfSome, IsTrue, MatchOption};
ghost use Rattle.rpki_cert.specs.Certificates.{CertFields, IsCertificate};
ghost use Rattle.rpki_der.specs.Encoding.{Means};
ghost use Rattle.rpki_crl.specs.Lists.{IsCertificateList};
ghost use Rattle.rpki_files.specs.Contents.{BeginsWithCertificate, BeginsWithEither, IsContent, IsFront, IsList, StandBehind};
ghost use Rattle.rpki_files.specs.PemFiles.{IsObjectOf};

use crate::contents::{Content, read_content};
use crate::files::object_octets;
use bytes::Bytes;
use rpki_cert::{Cert, Said};
use rpki_crl::Crl;
use std::alloc::{AllocError, Global};
use std::marker::Model;

/// The kind of an object, without what was read of it.
#[derive(Clone, Copy)]
pub enum Front {
    /// The bytes start with a certificate, which says this of itself.
    Certificate(Said),
    /// The bytes are a CRL, and no byte follows it.
    List,
    Neither,
}

/// An object without what was read of it, which would take as much memory as its bytes: its file's
/// name, its bytes in DER, its kind, and how many bytes follow the certificate or the CRL at their
/// start.
#[derive(Drop)]
pub struct BareObject<'a> {
    name: &'a str,
    octets: Bytes,
    front: Front,
    left: usize,
}

impl<'a> Model for BareObject<'a> {
    ghost use Rattle.rpki_files.specs.Files.{FileFields};
    ghost use Rattle.rpki_files.specs.Contents.{IsFront, StandBehind};

    ghost Value = { FileFields };

    ghost view = { λ o. record { name = o.name.now; octets = o.octets } };

    ghost invariant = { λ o. IsFront o.octets o.front × StandBehind o.octets o.left };
}

// What is kept of what was read of octets.
fn front_of(content: &Content) -> Front
    ensures { (octets : List ℕ) → IsContent octets content.now → IsFront octets result }
{
    if content.whole_list().is_some() {
        return Front::List;
    }
    match content {
        Content::Certificate(cert, _) => Front::Certificate(Said::of(cert)),
        Content::List(..) | Content::Neither(_) => Front::Neither,
    }
}

// How many octets stand behind what was read of them.
fn left_of(content: &Content) -> usize
    ensures { (octets : List ℕ) → IsContent octets content.now → StandBehind octets result }
{
    match content {
        Content::Certificate(_, left) | Content::List(_, left) => *left,
        Content::Neither(_) => 0,
    }
}

// What is kept of what is read of octets, and how many stand behind what they begin with.
fn read_front(alloc: Global, octets: &Bytes) -> Result<(Front, usize), AllocError>
    ensures front { IfOk result (λ it. IsFront octets.now it.0) }
    ensures left { IfOk result (λ it. StandBehind octets.now it.1) }
{
    let content = read_content(alloc, octets)?;
    let front = front_of(&content);
    let left = left_of(&content);
    drop(content);
    Ok((front, left))
}

impl<'a> BareObject<'a> {
    /// Returns the file's name.
    pub fn name(&self) -> &str
        ensures { result.now ≡ self.now.name }
    {
        self.name
    }

    /// Returns the bytes of the object.
    pub fn octets(&self) -> &Bytes
        ensures { result.now ≡ self.now.octets }
    {
        &self.octets
    }

    /// Returns the kind of the object: a certificate if the bytes start with one, a CRL if they are
    /// one, or neither.
    pub fn front(&self) -> Front
        ensures { IsFront self.now.octets result }
    {
        self.front
    }

    /// Returns how many bytes follow the certificate or the CRL at the start of the bytes, and 0 if
    /// they start with neither.
    pub fn left(&self) -> usize
        ensures { StandBehind self.now.octets result }
    {
        self.left
    }

    /// Returns whether the bytes start with a certificate.
    pub fn is_certificate(&self) -> bool
        ensures { IsTrue result ↔ BeginsWithCertificate self.now.octets }
    {
        match self.front() {
            Front::Certificate(_) => true,
            Front::List | Front::Neither => false,
        }
    }

    /// Returns whether the bytes are a CRL, and no byte follows it.
    pub fn is_list(&self) -> bool
        ensures { IsTrue result ↔ IsList self.now.octets }
    {
        match self.front() {
            Front::List => true,
            Front::Certificate(_) | Front::Neither => false,
        }
    }

    /// Reads the certificate at the start of the bytes, if they start with one.
    ///
    /// # Errors
    ///
    /// Returns an error only if memory runs out.
    pub fn certificate(&self, alloc: Global) -> Result<Option<Cert>, AllocError>
        ensures { let octets = self.now.octets in IfOk result (λ found.
            MatchOption found (BeginsWithCertificate octets → ⊥)
            (λ c. Means IsCertificate c octets)) }
    {
        match read_content(alloc, &self.octets)? {
            Content::Certificate(cert, _) => Ok(Some(cert)),
            other => {
                drop(other);
                Ok(None)
            }
        }
    }

    /// Reads the CRL that the bytes are, if they are one and no byte follows it.
    ///
    /// # Errors
    ///
    /// Returns an error only if memory runs out.
    pub fn whole_list(&self, alloc: Global) -> Result<Option<Crl>, AllocError>
        ensures { let octets = self.now.octets in IfOk result (λ found.
            MatchOption found (IsList octets → ⊥) (λ l. IsCertificateList l.list octets)) }
    {
        let content = read_content(alloc, &self.octets)?;
        Ok(content.into_whole_list())
    }
}

/// Reads the object of a file, in DER or in PEM, and keeps only its bytes and its kind.
///
/// # Errors
///
/// Returns an error only if memory runs out.
pub fn read_bare_object<'a>(
    alloc: Global,
    name: &'a str,
    file: Vec<u8>,
) -> Result<BareObject<'a>, AllocError>
    ensures name { IfOk result (λ object. object.name ≡ name.now) }
    ensures object { IfOk result (λ object. IsObjectOf file.items object.octets) }
    ensures der { BeginsWithEither file.items
        → IfOk result (λ object. object.octets ≡ file.items) }
{
    let octets = object_octets(alloc, file)?;
    let (front, left) = read_front(alloc, &octets)?;
    Ok(BareObject {
        name,
        octets,
        front,
        left,
    })
}
