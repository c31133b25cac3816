//! Certificates that were verified, and their resources.
ghost use Rattle.std.specs.Prelude.{◌≡◌, IfOk};
ghost use Rattle.std.proofs.Common.{rc_value};
ghost use Rattle.rpki_blocks.specs.Resources.{Resources};
ghost use Rattle.rpki_cert.specs.Verification.{ListsNumbers};
ghost use Rattle.rpki_cert.specs.Verification.Views.{set_of, resource_fields};

use crate::cert::Cert;
use crate::resolved::Resolved;
use crate::verify_owned::{Kept, joined};
use rpki_blocks::{Addr, AsBlocks, Asn, IpBlocks};
use rpki_ext::beside;
use rpki_parts::TalInfo;
use std::alloc::{AllocError, Global};
use std::marker::Model;
use std::rc::Rc;

// The numbers that a verified certificate has, kind by kind.
#[derive(Drop)]
pub(crate) struct Sets {
    pub(crate) v4: Resolved<Addr>,
    pub(crate) v6: Resolved<Addr>,
    pub(crate) as_numbers: Resolved<Asn>,
}

impl Sets {
    // The numbers that are listed.
    pub(crate) fn listed(alloc: Global) -> Sets
        ensures v4 { (r : Resources) → ListsNumbers r (set_of result.v4 r) }
        ensures v6 { (r : Resources) → ListsNumbers r (set_of result.v6 r) }
        ensures as_numbers { (r : Resources) → ListsNumbers r (set_of result.as_numbers r) }
    {
        Sets {
            v4: Resolved::listed(alloc),
            v6: Resolved::listed(alloc),
            as_numbers: Resolved::listed(alloc),
        }
    }

    // Clones the sets.
    fn try_clone(&self, alloc: Global) -> Result<Sets, AllocError>
        ensures { IfOk result (λ s. s ≡ self.now) }
    {
        let v4 = self.v4.try_clone(alloc)?;
        let addresses = beside(v4, self.v6.try_clone(alloc))?;
        let ((v4, v6), as_numbers) = beside(addresses, self.as_numbers.try_clone(alloc))?;
        Ok(Sets { v4, v6, as_numbers })
    }
}

/// A verified certificate with the resources that it holds: those that it lists, or inherits of its
/// issuer's (RFC 6487 7.2). Under the policy of RFC 8360 they are trimmed to the issuer's.
///
/// It is what the calls `validate_..` and `verify_..` of [`Cert`] return, and the issuer in such
/// calls below it.
///
/// # Not checked
///
/// The profile, if it was made by a call `verify_..`; whether it is still valid at a later time,
/// and whether it is revoked.
#[derive(Drop)]
pub struct ResourceCert {
    pub(crate) cert: Cert,
    pub(crate) sets: Sets,
    pub(crate) tal: Rc<TalInfo>,
}

impl Model for ResourceCert {
    ghost use Rattle.std.proofs.Common.{rc_value};
    ghost use Rattle.rpki_cert.specs.Verification.{ResourceFields};
    ghost use Rattle.rpki_cert.specs.Verification.Views.{resource_fields};

    ghost Value = { ResourceFields };

    ghost view = { λ r. resource_fields r.cert r.sets (rc_value r.tal) };
}

impl ResourceCert {
    /// Returns the certificate.
    pub fn as_cert(&self) -> &Cert
        ensures { result.now ≡ self.now.cert }
    {
        &self.cert
    }

    /// Returns the IPv4 addresses that the certificate holds.
    pub fn v4_resources(&self) -> &IpBlocks
        ensures { result.now ≡ self.now.v4 }
    {
        self.sets.v4.set(self.cert.as_tbs().v4_resources())
    }

    /// Returns the IPv6 addresses that the certificate holds.
    pub fn v6_resources(&self) -> &IpBlocks
        ensures { result.now ≡ self.now.v6 }
    {
        self.sets.v6.set(self.cert.as_tbs().v6_resources())
    }

    /// Returns the AS numbers that the certificate holds.
    pub fn as_resources(&self) -> &AsBlocks
        ensures { result.now ≡ self.now.as_numbers }
    {
        self.sets.as_numbers.set(self.cert.as_tbs().as_resources())
    }

    /// Returns the name of the TAL with which the path begins: the one that was passed with the
    /// trust anchor.
    pub fn tal(&self) -> &Rc<TalInfo>
        ensures { rc_value result.now ≡ self.now.tal }
    {
        &self.tal
    }

    /// Returns the TAL's name, and drops the certificate and its resources.
    pub fn into_tal(self) -> Rc<TalInfo>
        ensures { rc_value result ≡ self.tal }
    {
        let ResourceCert { cert, sets, tal } = self;
        drop(cert);
        drop(sets);
        tal
    }

    // Clones what is kept with the certificate.
    fn try_clone_kept(&self, alloc: Global) -> Result<Kept, AllocError>
        ensures { IfOk result
            (λ k. resource_fields self.now.cert k.sets (rc_value k.tal) ≡ self.now) }
    {
        let sets = self.sets.try_clone(alloc)?;
        let (sets, tal) = beside(sets, self.tal.clone())?;
        Ok(Kept { sets, tal })
    }

    /// Clones the certificate and its resources. The TAL's name is shared.
    pub fn try_clone(&self, alloc: Global) -> Result<ResourceCert, AllocError>
        ensures { IfOk result (λ r. r ≡ self.now) }
    {
        let cert = self.cert.try_clone(alloc)?;
        let (cert, kept) = beside(cert, self.try_clone_kept(alloc))?;
        Ok(joined(cert, kept))
    }
}
