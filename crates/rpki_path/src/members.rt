//! A certificate of a path: its bytes, and what was read of them already.
ghost use Rattle.std.specs.Prelude.{◌≡◌, IfOk, IfErr, IfSome};
ghost use Rattle.rpki_ext.specs.Kinds.{Means};
ghost use Rattle.rpki_cert.specs.Certificates.{IsCertificate};
ghost use Rattle.rpki_path.specs.Paths.Steps.{IsUnread};

use crate::path_fault::PathFault;
use bytes::Bytes;
use rpki_cert::Cert;
use std::alloc::{AllocError, Global};
use std::marker::Model;

/// One certificate of a path: bytes that have to start with a certificate, and that certificate, if
/// it was read already. A check of a path reads it only if it wasn't.
#[derive(Drop)]
pub struct Member<'p> {
    octets: &'p Bytes,
    read: Option<&'p Cert>,
}

impl<'p> Model for Member<'p> {
    ghost use Rattle.std.specs.Prelude.{ℕ, List, IfSome};
    ghost use Rattle.rpki_ext.specs.Kinds.{Means};
    ghost use Rattle.rpki_cert.specs.Certificates.{IsCertificate};

    ghost Value = { List ℕ };

    ghost view = { λ m. m.octets.now };

    ghost invariant = { λ m. IfSome m.read (λ c. Means IsCertificate c.now m.octets.now) };
}

impl<'p> Member<'p> {
    /// Makes a member of bytes of which nothing was read.
    pub fn of(octets: &'p Bytes) -> Member<'p>
        ensures { result ≡ octets.now }
    {
        let read = None;
        Member { octets, read }
    }

    /// Makes a member of bytes and the certificate that they start with.
    pub fn read_as(octets: &'p Bytes, cert: &'p Cert) -> Member<'p>
        requires { Means IsCertificate cert.now octets.now }
        ensures { result ≡ octets.now }
    {
        let read = Some(cert);
        Member { octets, read }
    }

    /// Makes a member of each of these strings, of which nothing was read.
    ///
    /// # Errors
    ///
    /// Returns an error only if memory runs out.
    pub fn of_each(alloc: Global, strings: &'p [Bytes]) -> Result<Vec<Member<'p>>, AllocError>
        ensures { IfOk result (λ members. members.items ≡ strings.now) }
    {
        let mut members = Vec::new(alloc);
        for octets in strings {
            members.push(Member::of(octets))?;
        }
        Ok(members)
    }

    /// Returns the bytes.
    pub fn octets(&self) -> &Bytes
        ensures { result.now ≡ self.now }
    {
        self.octets
    }

    /// Returns the certificate at the start of the bytes, if it was read already.
    pub fn cert(&self) -> Option<&Cert>
        ensures { IfSome result (λ c. Means IsCertificate c.now self.now) }
    {
        self.read
    }

    // The certificate at the start of the bytes: a copy of the one that was read, or read now.
    pub(crate) fn decoded(&self, alloc: Global) -> Result<Cert, PathFault>
        ensures ok { IfOk result (λ c. Means IsCertificate c self.now) }
        ensures fault { IfErr result (IsUnread self.now) }
    {
        match self.cert() {
            Some(cert) => Ok(cert.try_clone(alloc)?),
            None => Ok(Cert::decode_shared(alloc, self.octets.clone()?)?),
        }
    }
}
