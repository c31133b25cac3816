//! Strings, sorted into certificates and CRLs.
ghost use Rattle.std.specs.Prelude.{◌≡◌, ◌++◌, ◌∷◌, [], ℕ, List, IfOk, OnOk};
ghost use Rattle.rpki_c.specs.FolderFates.{AreSortedIn, IsSorted, origin_of};

use bytes::Bytes;
use rpki_folder::{Added, Folder};
use std::alloc::{AllocError, Global};

/// Strings, with the folder of the certificates at their starts and of the CRLs that they are.
#[derive(Drop)]
pub(crate) struct Sorted<'s> {
    pub(crate) strings: &'s [Bytes],
    pub(crate) folder: Folder,
    /// What each string was added as.
    pub(crate) added: Vec<Added>,
    /// At the place of each certificate of the folder, the index of its string.
    pub(crate) origins: Vec<usize>,
}

impl<'s> Sorted<'s> {
    // None of the strings is sorted yet.
    fn new(alloc: Global, strings: &'s [Bytes]) -> Sorted<'s>
        ensures sorted { AreSortedIn [] result }
        ensures strings { result.strings.now ≡ strings.now }
    {
        Sorted {
            strings,
            folder: Folder::new(alloc),
            added: Vec::new(alloc),
            origins: Vec::new(alloc),
        }
    }

    // Sorts one string more.
    fn add(&mut self, octets: Bytes) -> Result<(), AllocError>
        ensures sorted { (strings : List (List ℕ)) → AreSortedIn strings self.old
            → OnOk result (AreSortedIn (strings ++ octets ∷ []) self.new) }
        ensures strings { self.new.strings.now ≡ self.old.strings.now }
    {
        let origin = self.added.len();
        match self.folder.add(octets)? {
            Added::Certificate(place) => {
                self.added.push(Added::Certificate(place))?;
                self.origins.push(origin)?;
                Ok(())
            }
            Added::List => {
                self.added.push(Added::List)?;
                Ok(())
            }
            Added::Neither => {
                self.added.push(Added::Neither)?;
                Ok(())
            }
        }
    }

    // Sorts these strings, where none is sorted yet.
    fn add_all(&mut self, strings: &[Bytes]) -> Result<(), AllocError>
        requires { AreSortedIn [] self.now }
        ensures sorted { OnOk result (AreSortedIn strings.now self.new) }
        ensures strings { self.new.strings.now ≡ self.old.strings.now }
    {
        for octets in strings {
            self.add(octets.clone()?)?;
        }
        Ok(())
    }

    /// Sorts strings, each as [`Folder::add`] adds it.
    pub(crate) fn of(alloc: Global, strings: &'s [Bytes]) -> Result<Sorted<'s>, AllocError>
        ensures sorted { IfOk result IsSorted }
        ensures strings { IfOk result (λ it. it.strings.now ≡ strings.now) }
    {
        let mut sorted = Sorted::new(alloc, strings);
        match sorted.add_all(strings) {
            Ok(()) => Ok(sorted),
            Err(error) => {
                drop(sorted);
                Err(error)
            }
        }
    }

    /// Returns the index of the string that the certificate at a place of the folder was.
    pub(crate) fn origin(&self, place: usize) -> usize
        ensures { result ≡ origin_of self.now place }
    {
        match self.origins.get(place) {
            Some(&origin) => origin,
            None => self.added.len(),
        }
    }
}
