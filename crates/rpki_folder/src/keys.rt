//! Places by key.
ghost use Rattle.std.specs.Prelude.{◌≡◌, ◌++◌, ◌∷◌, [], ℕ, List, OnOk, OnErr};
ghost use Rattle.rpki_folder.specs.KeyTables.{places_in, with_place};

use rpki_parts::KeyIdentifier;
use std::alloc::{AllocError, Global};
use std::collections::BTreeMap;

/// The places that belong to each key.
#[derive(Drop)]
pub(crate) struct KeyTable {
    alloc: Global,
    pub(crate) places: BTreeMap<[u8; 20], Vec<usize>>,
}

impl KeyTable {
    /// Makes a table without places.
    pub(crate) fn new(alloc: Global) -> KeyTable
        ensures { (key : List ℕ) → places_in result.places key ≡ [] }
    {
        let places = BTreeMap::new(alloc);
        KeyTable { alloc, places }
    }

    /// Returns the places of the key, in the order in which they were added.
    pub(crate) fn get(&self, key: &KeyIdentifier) -> &[usize]
        ensures { result.now ≡ places_in self.now.places key.now }
    {
        match self.places.get(key.as_octets()) {
            Some(places) => places,
            None => &[],
        }
    }

    /// Adds a place of the key.
    ///
    /// # Errors
    ///
    /// Returns an error only if memory runs out. The table is then unchanged.
    pub(crate) fn add(&mut self, key: &KeyIdentifier, place: usize) -> Result<(), AllocError>
        ensures ok { OnOk result ((k : List ℕ) → places_in self.new.places k
            ≡ with_place key.now place k (places_in self.old.places k)) }
        ensures err { OnErr result ((k : List ℕ)
            → places_in self.new.places k ≡ places_in self.old.places k) }
    {
        if let Some(places) = self.places.get_mut(key.as_octets()) {
            places.push(place)?;
            return Ok(());
        }
        let mut places = Vec::new(self.alloc);
        places.push(place)?;
        match self.places.insert(*key.as_octets(), places) {
            Ok(_) => Ok(()),
            Err(_) => Err(AllocError),
        }
    }
}
