//! The role in which a certificate is issued.
ghost use Rattle.std.specs.Prelude.{IfErr, OnOk};
ghost use Rattle.rpki_cert.specs.Verification.{context};
ghost use Rattle.rpki_issuing.specs.Roles.{GetsNumbers, IsValidAs, IsInvalidAs};

use crate::issuing_error::IssuingError;
use rpki_cert::{Cert, ResourceCert};
use rpki_der::Time;
use rpki_parts::Verifier;
use std::alloc::Global;

/// The role in which a certificate is issued: its kind, and its issuer.
#[derive(Clone, Copy, Drop)]
pub enum Role<'i> {
    /// A trust anchor, which signs itself.
    Anchor,
    /// A CA below this issuer.
    Authority(&'i ResourceCert),
    /// An end entity, which signs an object that its certificate names (RFC 6487 4.8.8.2).
    EndEntity(&'i ResourceCert),
    /// An end entity whose certificate needn't name an object (RFC 6487 4.8.8.2 requires one).
    Detached(&'i ResourceCert),
    /// A BGPsec router (RFC 8209).
    Router(&'i ResourceCert),
}

impl Role<'_> {
    /// Validates the certificate in this role, without consuming it: inspects it as one of the
    /// role's kind, and then verifies it below the issuer, as [`Cert::validate_ca_at`] and its
    /// siblings do.
    ///
    /// # Errors
    ///
    /// Returns the first error: `Invalid` if the profile or a check fails, and `Memory` if memory
    /// runs out.
    ///
    /// # Not checked
    ///
    /// As [`prepare`](crate::prepare).
    pub fn validate<V: Verifier>(
        &self,
        alloc: Global,
        cert: &Cert,
        strict: bool,
        now: Time,
        verifier: &V,
    ) -> Result<(), IssuingError>
        ensures ok { let x = context (V.verifies verifier.now) now strict in
            OnOk result (IsValidAs x self.now cert.now) }
        ensures numbers { OnOk result (GetsNumbers self.now cert.now) }
        ensures fault { let x = context (V.verifies verifier.now) now strict in
            IfErr result (IsInvalidAs x self.now cert.now) }
    {
        match *self {
            Role::Anchor => {
                cert.inspect_ta(strict)?;
                cert.verify_ta_ref_at(strict, now, verifier)?;
                Ok(())
            }
            Role::Authority(issuer) => {
                let copy = cert.try_clone(alloc)?;
                let valid = copy.validate_ca_at(alloc, issuer, strict, now, verifier)?;
                drop(valid);
                Ok(())
            }
            Role::EndEntity(issuer) => {
                let copy = cert.try_clone(alloc)?;
                let valid = copy.validate_ee_at(alloc, issuer, strict, now, verifier)?;
                drop(valid);
                Ok(())
            }
            Role::Detached(issuer) => {
                let copy = cert.try_clone(alloc)?;
                let valid = copy.validate_detached_ee_at(alloc, issuer, strict, now, verifier)?;
                drop(valid);
                Ok(())
            }
            Role::Router(issuer) => {
                cert.validate_router_at(issuer, strict, now, verifier)?;
                Ok(())
            }
        }
    }
}
