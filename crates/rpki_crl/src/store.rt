//! CRLs under their URIs.
ghost use Rattle.std.specs.Prelude.{◌≡◌, ◌++◌, [], ◌∷◌, true, false, IfOk, IfErr, OnOk, OnErr, option_map};
ghost use Rattle.rpki_crl.specs.Stores.{StoreFields, IsEarliest, as_stored, stored};

use crate::crl::Crl;
use rpki_parts::Rsync;
use std::alloc::{AllocError, Global};
use std::marker::Model;

/// CRLs, each under the URI where it was found (RFC 6487 4.8.6).
#[derive(Drop)]
pub struct CrlStore {
    alloc: Global,
    pub(crate) pairs: Vec<(Rsync, Crl)>,
    caches: bool,
}

impl Model for CrlStore {
    ghost use Rattle.rpki_crl.specs.Stores.{StoreFields};

    ghost Value = { StoreFields };

    ghost view = { λ s. record { pairs = s.pairs.items; caches = s.caches } };
}

// The CRL, with a table of its serials if they are to be cached; or the CRL as it was.
fn with_table(alloc: Global, caches: bool, mut crl: Crl) -> Result<Crl, Crl>
    ensures stored { IfOk result (λ kept. kept ≡ as_stored caches crl) }
    ensures same { IfErr result (λ same. same ≡ crl) }
{
    if caches && crl.cache_serials(alloc).is_err() {
        return Err(crl);
    }
    Ok(crl)
}

impl CrlStore {
    /// Makes a store without CRLs, which grows by this allocator.
    pub fn new(alloc: Global) -> CrlStore
        ensures { result ≡ record { pairs = []; caches = false } }
    {
        CrlStore {
            alloc,
            pairs: Vec::new(alloc),
            caches: false,
        }
    }

    /// Turns tables on: from now on the serials of each CRL that is pushed are sorted into one.
    pub fn enable_serial_caching(&mut self)
        ensures { self.new ≡ record self.old { caches = true } }
    {
        self.caches = true;
    }

    /// Stores a CRL under its URI.
    ///
    /// # Errors
    ///
    /// Returns an error with the URI and the CRL if memory runs out; the store is unchanged.
    pub fn push(&mut self, uri: Rsync, crl: Crl) -> Result<(), (Rsync, Crl)>
        ensures stored { let pair = stored self.old.caches uri crl in
            OnOk result (self.new ≡ record self.old { pairs = self.old.pairs ++ pair ∷ [] }) }
        ensures handed_back { IfErr result (λ pair. pair ≡ (uri, crl)) }
        ensures err { OnErr result (self.new ≡ self.old) }
    {
        if self.pairs.try_reserve(1).is_err() {
            return Err((uri, crl));
        }
        let crl = match with_table(self.alloc, self.caches, crl) {
            Ok(crl) => crl,
            Err(crl) => return Err((uri, crl)),
        };
        match self.pairs.push((uri, crl)) {
            Ok(()) => Ok(()),
            Err(_) => unreachable!(),
        }
    }

    /// Returns the CRL that was pushed first under an equal URI. Takes no memory.
    pub fn get(&self, uri: &Rsync) -> Option<&Crl>
        ensures { IsEarliest uri.now self.now.pairs (option_map (λ crl. crl.now) result) }
    {
        for (under, crl) in &self.pairs {
            if *under == *uri {
                return Some(crl);
            }
        }
        None
    }

    /// Clones the store.
    pub fn try_clone(&self, alloc: Global) -> Result<CrlStore, AllocError>
        ensures { IfOk result (λ s. s ≡ self.now) }
    {
        let mut pairs = Vec::new(alloc);
        for (uri, crl) in &self.pairs {
            let uri = uri.try_clone(alloc)?;
            let crl = crl.try_clone(alloc)?;
            pairs.push((uri, crl))?;
        }
        Ok(CrlStore {
            alloc,
            pairs,
            caches: self.caches,
        })
    }
}
