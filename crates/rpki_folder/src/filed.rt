//! A certificate of a folder: its bytes, and what it says.
ghost use Rattle.std.specs.Prelude.{◌≡◌, IfOk};
ghost use Rattle.rpki_ext.specs.Kinds.{Means};
ghost use Rattle.rpki_cert.specs.Certificates.{IsCertificate};
ghost use Rattle.rpki_cert.specs.SaidKinds.{BeginsWithSaid};
ghost use Rattle.rpki_folder.specs.FirstPlaces.{IsCertificateOctets};

use bytes::Bytes;
use rpki_cert::{Cert, Said};
use rpki_der::Cursor;
use rpki_path::Member;
use std::alloc::{AllocError, Global};
use std::marker::Model;

/// A certificate of a folder: bytes that start with it, and what it says (its kind, its issuer's
/// key identifier). Other fields are decoded again if they are needed, because a decoded
/// certificate takes as much memory as its bytes.
#[derive(Drop)]
pub struct Filed {
    octets: Bytes,
    said: Said,
}

impl Model for Filed {
    ghost use Rattle.std.specs.Prelude.{ℕ, List};
    ghost use Rattle.rpki_cert.specs.SaidKinds.{BeginsWithSaid};

    ghost Value = { List ℕ };

    ghost view = { λ f. f.octets };

    ghost invariant = { λ f. BeginsWithSaid f.said f.octets };
}

impl Filed {
    /// Keeps bytes that start with a certificate, and what it says.
    pub(crate) fn new(octets: Bytes, said: Said) -> Filed
        requires { BeginsWithSaid said octets }
        ensures { result ≡ octets }
    {
        Filed { octets, said }
    }

    /// Returns the bytes.
    pub fn octets(&self) -> &Bytes
        ensures { result.now ≡ self.now }
    {
        &self.octets
    }

    /// Returns what the certificate says, unchecked ([`Said`]).
    pub fn said(&self) -> Said
        ensures { BeginsWithSaid result self.now }
    {
        self.said
    }

    /// Decodes the certificate at the start of the bytes. The certificate shares the bytes.
    ///
    /// # Errors
    ///
    /// Returns an error only if memory runs out.
    pub fn cert(&self, alloc: Global) -> Result<Cert, AllocError>
        ensures { IfOk result (λ c. Means IsCertificate c self.now) }
    {
        match Cert::decode_shared(alloc, self.octets.clone()?) {
            Ok(cert) => Ok(cert),
            Err(fault) => {
                if !fault.is_memory() {
                    unreachable!();
                }
                drop(fault);
                Err(AllocError)
            }
        }
    }

    // The bytes of the certificate, without those behind it.
    pub(crate) fn certificate_octets(&self, alloc: Global) -> Result<Bytes, AllocError>
        ensures { IfOk result (IsCertificateOctets self.now) }
    {
        let mut cursor = Cursor::new(&self.octets);
        match Cert::take_from(alloc, &mut cursor) {
            Ok(cert) => {
                drop(cert);
                let end = self.octets.len() - cursor.rest().len();
                self.octets.slice(..end)
            }
            Err(fault) => {
                if !fault.is_memory() {
                    unreachable!();
                }
                drop(fault);
                Err(AllocError)
            }
        }
    }

    /// Returns the certificate as a certificate of a path, to pass to `rpki_path`.
    pub fn member(&self) -> Member<'_>
        ensures { result ≡ self.now }
    {
        Member::of(&self.octets)
    }
}
