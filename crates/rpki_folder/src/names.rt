//! Places by name.
ghost use Rattle.std.specs.Prelude.{◌≡◌, ◌<◌, [], ℕ, List, length, Contains, IfOk, OnOk};
ghost use Rattle.rpki_folder.specs.KeyTables.{places_in, with_place};
ghost use Rattle.rpki_folder.specs.NameTables.{AreByIssuer, HasIssuer};

use crate::folder::Folder;
use bytes::Bytes;
use rpki_cert::laws;
use rpki_ext::beside;
use rpki_parts::Name;
use std::alloc::{AllocError, Global};
use std::collections::BTreeMap;

/// The places that belong to each name.
#[derive(Drop)]
pub(crate) struct NameTable {
    alloc: Global,
    pub(crate) places: BTreeMap<Bytes, Vec<usize>>,
}

// The issuer's name of the certificate at a place.
fn issuer_at(alloc: Global, folder: &Folder, place: usize) -> Result<Bytes, AllocError>
    requires { place < length folder.now.certs }
    ensures { IfOk result (λ name. HasIssuer name folder.now.certs place) }
{
    let cert = folder.certs()[place].cert(alloc)?;
    let name = Bytes::copy_from_slice(alloc, cert.as_tbs().issuer().as_bytes());
    drop(cert);
    name
}

impl NameTable {
    /// Makes a table without places.
    pub(crate) fn new(alloc: Global) -> NameTable
        ensures { (name : List ℕ) → places_in result.places name ≡ [] }
    {
        let places = BTreeMap::new(alloc);
        NameTable { alloc, places }
    }

    /// Returns the places of the name, in the order in which they were added.
    pub(crate) fn get(&self, name: &Bytes) -> &[usize]
        ensures { result.now ≡ places_in self.now.places name.now }
    {
        match self.places.get(name) {
            Some(places) => places,
            None => &[],
        }
    }

    /// Adds a place of the name.
    ///
    /// # Errors
    ///
    /// Returns an error only if memory runs out.
    pub(crate) fn add(&mut self, name: Bytes, place: usize) -> Result<(), AllocError>
        ensures { OnOk result ((k : List ℕ) → places_in self.new.places k
            ≡ with_place name place k (places_in self.old.places k)) }
    {
        if let Some(places) = self.places.get_mut(&name) {
            let added = places.push(place);
            drop(name);
            added?;
            return Ok(());
        }
        let mut places = Vec::new(self.alloc);
        let added = places.push(place);
        let (name, ()) = beside(name, added)?;
        match self.places.insert(name, places) {
            Ok(_) => Ok(()),
            Err(_) => Err(AllocError),
        }
    }

    /// Makes the table of these places of a folder: each belongs to the issuer's name of the
    /// certificate there.
    ///
    /// # Errors
    ///
    /// Returns an error only if memory runs out.
    pub(crate) fn by_issuer(
        alloc: Global,
        folder: &Folder,
        places: &[usize],
    ) -> Result<NameTable, AllocError>
        requires { (place : ℕ) → Contains places.now place → place < length folder.now.certs }
        ensures { IfOk result (AreByIssuer folder.now.certs places.now) }
    {
        laws::unambiguous();
        let mut table = NameTable::new(alloc);
        for &place in places {
            table.add(issuer_at(alloc, folder, place)?, place)?;
        }
        Ok(table)
    }

    /// Returns the places of the name of a certificate, in the order in which they were added.
    ///
    /// # Errors
    ///
    /// Returns an error only if memory runs out.
    pub(crate) fn named(&self, alloc: Global, name: &Name) -> Result<&[usize], AllocError>
        ensures { IfOk result (λ those. those.now ≡ places_in self.now.places name.now) }
    {
        let octets = Bytes::copy_from_slice(alloc, name.as_bytes())?;
        let places = self.get(&octets);
        drop(octets);
        Ok(places)
    }
}
