//! The fields of a CRL that is being made: setters, and the check of its nextUpdate.
ghost use Rattle.std.specs.Prelude.{◌≡◌, ◌↔◌, ◌<◌, IsTrue};
ghost use Rattle.rpki_der.specs.Times.{second_number};

use crate::tbs::TbsCertList;
use rpki_der::{Serial, Time};
use rpki_parts::{KeyIdentifier, Name, RpkiSignatureAlgorithm};

impl<C: Drop> TbsCertList<C> {
    /// Sets the algorithm inside the TBSCertList (RFC 5280 5.1.2.2).
    pub fn set_signature(&mut self, signature: RpkiSignatureAlgorithm)
        ensures { self.new ≡ record self.old { algorithm = signature } }
    {
        self.signature = signature;
    }

    /// Sets the name of the issuer (RFC 5280 5.1.2.3).
    pub fn set_issuer(&mut self, issuer: Name)
        ensures { self.new ≡ record self.old { issuer = issuer } }
    {
        self.issuer = issuer;
    }

    /// Sets thisUpdate, the time at which the CRL was made (RFC 5280 5.1.2.4).
    pub fn set_this_update(&mut self, this_update: Time)
        ensures { self.new ≡ record self.old { this_update = this_update } }
    {
        self.this_update = this_update;
    }

    /// Sets nextUpdate, the time by which the next CRL is due (RFC 5280 5.1.2.5).
    pub fn set_next_update(&mut self, next_update: Time)
        ensures { self.new ≡ record self.old { next_update = next_update } }
    {
        self.next_update = next_update;
    }

    /// Sets the revoked certificates (RFC 5280 5.1.2.6).
    pub fn set_revoked_certs(&mut self, revoked_certs: C)
        ensures { self.new ≡ record self.old { revoked = revoked_certs } }
    {
        self.revoked_certs = revoked_certs;
    }

    /// Sets the identifier of the issuer's key (RFC 5280 5.2.1).
    pub fn set_authority_key_identifier(&mut self, identifier: KeyIdentifier)
        ensures { let extensions =
            record self.old.extensions { authority_key_identifier = identifier } in
            self.new ≡ record self.old { extensions = extensions } }
    {
        self.extensions.authority_key_identifier = identifier;
    }

    /// Sets the CRL number (RFC 5280 5.2.3).
    pub fn set_crl_number(&mut self, crl_number: Serial)
        ensures { let extensions = record self.old.extensions { crl_number = crl_number } in
            self.new ≡ record self.old { extensions = extensions } }
    {
        self.extensions.crl_number = crl_number;
    }
}

impl<C> TbsCertList<C> {
    /// Returns whether nextUpdate is before this time (RFC 5280 5.1.2.5).
    pub fn is_stale(&self, now: Time) -> bool
        ensures { IsTrue result ↔ (second_number self.now.next_update < second_number now) }
    {
        self.next_update < now
    }
}
