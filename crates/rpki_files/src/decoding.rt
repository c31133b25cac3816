//! Certificates and CRLs decoded, and the place where reading stops otherwise.
ghost use Rattle.std.specs.Prelude.{◌≡◌, ◌≢◌, ◌≤◌, false, true, length, IfErr, IfOk};
ghost use Rattle.rpki_cert.specs.Certificates.{IsCertificate};
ghost use Rattle.rpki_crl.specs.Lists.{IsCertificateList};
ghost use Rattle.rpki_der.specs.Encoding.{Means};
ghost use Rattle.rpki_der.specs.declared.error.DecodeError.TheVariants as decoding;
ghost use Rattle.rpki_files.specs.Misreads.{BeginsAsRead, IsMisread, TellsTruth, kept_fault};

use crate::contents::{certificate_in, list_in};
use crate::naming::holds_at;
use crate::places::{Place, stop_of};
use bytes::Bytes;
use rpki_cert::Cert;
use rpki_crl::Crl;
use rpki_der::DecodeError;
use std::alloc::{AllocError, Global};
use std::fmt;
use thiserror::Error;

/// The error of bytes that can't be read as a certificate or as a CRL.
#[derive(Debug, Drop, Error)]
pub enum Misread {
    /// The bytes don't start with a certificate or a CRL: reading stops at this place.
    #[error("{fault}: {place}")]
    Stopped { fault: DecodeError, place: Place },
    #[error("out of memory")]
    Memory,
}

impl Misread {
    ghost use Rattle.std.specs.Prelude.{◌≡◌, ◌↔◌, IsTrue, Option};
    ghost use Rattle.rpki_files.specs.Misreads.{place_told};
    ghost use Rattle.rpki_files.specs.declared.decoding.Misread.TheVariants.{Memory};

    /// Returns where reading stops, unless memory ran out.
    pub fn place(&self) -> Option<Place>
        ensures { result ≡ place_told self.now }
    {
        match self {
            Misread::Stopped { place, .. } => Some(*place),
            Misread::Memory => None,
        }
    }

    /// Returns whether memory ran out.
    pub fn is_memory(&self) -> bool
        ensures { IsTrue result ↔ self.now ≡ Memory }
    {
        match self {
            Misread::Stopped { .. } => false,
            Misread::Memory => true,
        }
    }
}

impl From<AllocError> for Misread {
    ghost use Rattle.std.specs.Prelude.{◌≡◌};
    ghost use Rattle.rpki_files.specs.declared.decoding.Misread.TheVariants.{Memory};

    ghost from_gives = { λ _ e. e ≡ Memory };

    fn from(_error: AllocError) -> Misread {
        Misread::Memory
    }
}

/// Writes the part and the octet: "the serial number, from octet 15".
impl fmt::Display for Place {
    fn fmt<W: fmt::Write>(&self, f: &mut fmt::Formatter<W>) -> fmt::Result {
        let field = self.field;
        let octet = self.octet;
        write!(f, "{field}, from octet {octet}")
    }
}

impl fmt::Debug for Place {
    fn fmt<W: fmt::Write>(&self, f: &mut fmt::Formatter<W>) -> fmt::Result {
        write!(f, "Place({self})")
    }
}

/// Finds the place where reading bytes as a certificate or as a CRL stops: the first part that
/// doesn't have its form, or else the signature. Returns what is expected there and what is found,
/// and whether the error is true of the place.
///
/// # Errors
///
/// Returns an error only if memory runs out.
pub fn place_for(
    alloc: Global,
    octets: &Bytes,
    is_list: bool,
    fault: &DecodeError,
) -> Result<(Place, bool), AllocError>
    ensures told { IfOk result (TellsTruth is_list octets.now fault.now) }
    ensures within { IfOk result (λ stop. stop.0.octet ≤ length octets.now) }
{
    let (part, place) = stop_of(alloc, octets, is_list)?;
    let is_true = holds_at(fault, part, octets, place.octet, is_list)?;
    Ok((place, is_true))
}

// Keeps a fault that is true, and else answers the plain `BadValue`.
fn kept(fault: DecodeError, is_true: bool) -> DecodeError
    ensures { result ≡ kept_fault fault is_true }
{
    if is_true {
        return fault;
    }
    drop(fault);
    DecodeError::BadValue
}

// Why octets can't be read that begin with none, for this fault.
fn why_unread(alloc: Global, octets: &Bytes, is_list: bool, fault: DecodeError) -> Misread
    requires { fault ≢ decoding.Memory → BeginsAsRead is_list octets.now → ⊥ }
    ensures { IsMisread is_list octets.now result }
{
    if fault.is_memory() {
        drop(fault);
        return Misread::Memory;
    }
    match place_for(alloc, octets, is_list, &fault) {
        Ok((place, is_true)) => Misread::Stopped {
            fault: kept(fault, is_true),
            place,
        },
        Err(error) => {
            drop(fault);
            Misread::from(error)
        }
    }
}

/// Decodes the certificate at the start of the bytes as [`Cert::decode_shared`] does, and ignores
/// the rest.
///
/// # Errors
///
/// Returns where reading stops and why, if the bytes start with no certificate, and `Memory`.
pub fn decode_cert(alloc: Global, octets: &Bytes) -> Result<Cert, Misread>
    ensures read { IfOk result (λ cert. Means IsCertificate cert octets.now) }
    ensures misread { IfErr result (IsMisread false octets.now) }
{
    match certificate_in(alloc, octets) {
        Ok((cert, _)) => Ok(cert),
        Err(fault) => Err(why_unread(alloc, octets, false, fault)),
    }
}

/// Decodes the CRL at the start of the bytes as [`Crl::decode_shared`] does, and ignores the rest.
///
/// # Errors
///
/// Returns where reading stops and why, if the bytes start with no CRL, and `Memory`.
pub fn decode_crl(alloc: Global, octets: &Bytes) -> Result<Crl, Misread>
    ensures read { IfOk result (λ list. Means IsCertificateList list.list octets.now) }
    ensures uncached { IfOk result (λ list. list.is_cached ≡ false) }
    ensures misread { IfErr result (IsMisread true octets.now) }
{
    match list_in(alloc, octets) {
        Ok((list, _)) => Ok(list),
        Err(fault) => Err(why_unread(alloc, octets, true, fault)),
    }
}
