//! Which certificates of a folder are copies of an earlier one.
ghost use Rattle.std.specs.Prelude.{◌≡◌, ◌<◌, ◌++◌, ◌∷◌, [], List, ℕ, length, IfOk, OnOk};
ghost use Rattle.rpki_folder.specs.Folders.{IsFirstPlaceOf};
ghost use Rattle.rpki_folder.specs.FirstPlaces.{AreFirsts, AreFirstsIn, first_place_of};

use crate::admission::Admission;
use crate::folder::Folder;
use bytes::Bytes;
use rpki_cert::laws;
use std::alloc::{AllocError, Global};
use std::collections::BTreeMap;

/// For each place of a folder, the first place whose bytes start with the same certificate.
///
/// As an [`Admission`] it admits each certificate once, at its first place. So copies of a
/// certificate, also with other bytes behind it, take no steps of a walk.
#[derive(Drop)]
pub struct Firsts {
    // The first place of each certificate's bytes.
    pub(crate) places: BTreeMap<Bytes, usize>,
    // For each place, the first place of its certificate.
    pub(crate) firsts: Vec<usize>,
}

impl Firsts {
    // A table of no strings.
    fn new(alloc: Global) -> Firsts
        ensures { AreFirsts [] result }
    {
        Firsts {
            places: BTreeMap::new(alloc),
            firsts: Vec::new(alloc),
        }
    }

    // Adds a string, at the next place.
    fn add(&mut self, octets: Bytes) -> Result<(), AllocError>
        ensures { (strings : List (List ℕ)) → AreFirsts strings self.old
            → OnOk result (AreFirsts (strings ++ octets ∷ []) self.new) }
    {
        let place = self.firsts.len();
        let found = self.places.get(&octets).copied();
        match found {
            Some(first) => {
                drop(octets);
                self.firsts.push(first)?;
                Ok(())
            }
            None => {
                self.places.insert(octets, place)?;
                self.firsts.push(place)?;
                Ok(())
            }
        }
    }

    /// Finds the first place of each certificate of a folder.
    ///
    /// # Errors
    ///
    /// Returns an error if memory runs out.
    pub fn of(alloc: Global, folder: &Folder) -> Result<Firsts, AllocError>
        ensures { IfOk result (AreFirstsIn folder.now.certs) }
    {
        let mut firsts = Firsts::new(alloc);
        for file in folder.certs() {
            firsts.add(file.certificate_octets(alloc)?)?;
        }
        Ok(firsts)
    }

    /// Returns the first place whose bytes start with the certificate at this place. A walk that
    /// these [`Firsts`] admit judges the certificate there alone: its verdict is that on every copy.
    pub fn first_of(&self, place: usize) -> usize
        ensures value { result ≡ first_place_of self.now place }
        ensures first { (certs : List (List ℕ)) → AreFirstsIn certs self.now
            → place < length certs → IsFirstPlaceOf certs place result }
    {
        laws::unambiguous();
        laws::octets_are_kept();
        match self.firsts.get(place) {
            Some(first) => *first,
            None => place,
        }
    }
}

impl Admission for Firsts {
    ghost use Rattle.rpki_folder.specs.FirstPlaces.{IsFirstIn};

    ghost admits = { IsFirstIn };

    fn is_admitted(&self, _above: &[usize], place: usize) -> bool {
        self.first_of(place) == place
    }
}
