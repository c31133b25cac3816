//! Folders of certificates and CRLs.
ghost use Rattle.std.specs.Prelude.{◌≡◌, ◌≢◌, length, IfOk, OnOk, OnErr};
ghost use Rattle.rpki_ext.specs.Kinds.{Means};
ghost use Rattle.rpki_cert.specs.Certificates.{CertFields, IsCertificate};
ghost use Rattle.rpki_crl.specs.Lists.{IsCertificateList};
ghost use Rattle.rpki_der.specs.Place.{MeansOrMemoryBy};
ghost use Rattle.rpki_der.specs.declared.error.DecodeError.TheVariants.{Memory};
ghost use Rattle.rpki_folder.specs.Folders.{empty, with_cert, with_list, ArePlacesOf, IsAdded};
ghost use Rattle.rpki_folder.specs.KeyTables.{list_places};
ghost use Rattle.rpki_cert.specs.SaidKinds.{BeginsWithSaid};

use crate::filed::Filed;
use crate::keys::KeyTable;
use bytes::Bytes;
use rpki_cert::{Cert, Said, laws};
use rpki_crl::Crl;
use rpki_der::{Cursor, DecodeError};
use rpki_parts::KeyIdentifier;
use std::alloc::{AllocError, Global};
use std::marker::Model;

/// What [`Folder::add`] added.
#[derive(Clone, Copy, Debug, PartialEq, Eq)]
pub enum Added {
    /// A certificate, at this place.
    Certificate(usize),
    /// A CRL.
    List,
    /// Nothing: the bytes don't start with a certificate, and aren't a CRL.
    Neither,
}

/// Certificates and CRLs, which are added in any order, and are found by the key identifier of
/// their signer (RFC 5280 4.2.1.1, 5.2.1).
///
/// A certificate's place is its index in the order in which certificates were added, from 0.
///
/// # Not checked
///
/// Adding checks no signature, no time and no profile. Two certificates may be equal; each has its
/// own place.
#[derive(Drop)]
pub struct Folder {
    alloc: Global,
    certs: Vec<Filed>,
    lists: Vec<Crl>,
    by_signer: KeyTable,
    lists_by_signer: KeyTable,
}

impl Model for Folder {
    ghost use Rattle.std.specs.Prelude.{ℕ, List};
    ghost use Rattle.rpki_folder.specs.Folders.{FolderFields, ArePlacesOf};
    ghost use Rattle.std.specs.Prelude.{◌≡◌};
    ghost use Rattle.rpki_folder.specs.KeyTables.{places_in, list_places};

    ghost Value = { FolderFields };

    ghost view = { λ f. record { certs = f.certs.items; lists = f.lists.items } };

    ghost invariant = { λ f. ((key : List ℕ)
        → ArePlacesOf f.certs.items key (places_in f.by_signer.places key))
        × ((key : List ℕ)
        → places_in f.lists_by_signer.places key ≡ list_places key f.lists.items) };
}

// Drops an error, unless it is that memory ran out.
fn rejects(fault: DecodeError) -> Result<(), AllocError>
    ensures { OnOk result (fault ≢ Memory) }
{
    let is_memory = fault.is_memory();
    drop(fault);
    if is_memory { Err(AllocError) } else { Ok(()) }
}

// Decodes the CRL that the bytes are. Bytes after it are an error, since they may be a CRL that
// revokes.
fn whole_list(alloc: Global, octets: &Bytes) -> Result<Crl, DecodeError>
    ensures { MeansOrMemoryBy (λ l. l.list) IsCertificateList result octets.now }
{
    rpki_crl::laws::unambiguous();
    let mut cursor = Cursor::new(octets);
    let list = Crl::take_from(alloc, &mut cursor)?;
    if !cursor.is_empty() {
        drop(list);
        return Err(DecodeError::Trailing);
    }
    Ok(list)
}

impl Folder {
    /// Makes a folder without certificates and CRLs, which allocates with this allocator.
    pub fn new(alloc: Global) -> Folder
        ensures { result ≡ empty }
    {
        Folder {
            alloc,
            certs: Vec::new(alloc),
            lists: Vec::new(alloc),
            by_signer: KeyTable::new(alloc),
            lists_by_signer: KeyTable::new(alloc),
        }
    }

    /// Adds bytes that start with a certificate, with what that certificate says, and returns its
    /// place.
    ///
    /// # Errors
    ///
    /// Returns an error if memory runs out. The folder is then unchanged.
    ///
    /// # Not checked
    ///
    /// The bytes aren't decoded again: `said` has to be what the certificate says.
    pub fn add_cert(&mut self, octets: Bytes, said: Said) -> Result<usize, AllocError>
        requires { BeginsWithSaid said octets }
        ensures ok { OnOk result (self.new ≡ with_cert self.old octets) }
        ensures place { IfOk result (λ place. place ≡ length self.old.certs) }
        ensures err { OnErr result (self.new ≡ self.old) }
    {
        laws::unambiguous();
        let place = self.certs.len();
        self.certs.try_reserve(1)?;
        if let Some(key) = said.signer {
            self.by_signer.add(&key, place)?;
        }
        match self.certs.push(Filed::new(octets, said)) {
            Ok(()) => Ok(place),
            Err(_) => unreachable!(),
        }
    }

    /// Adds a CRL. A search for a serial number reads its entries one by one, unless its serial
    /// numbers are cached ([`Crl::cache_serials`]).
    ///
    /// # Errors
    ///
    /// Returns an error if memory runs out. The folder is then unchanged, and the CRL is dropped.
    ///
    /// # Not checked
    ///
    /// The signature and the times of the CRL: a walk checks them for the issuer.
    pub fn add_list(&mut self, list: Crl) -> Result<(), AllocError>
        ensures ok { OnOk result (self.new ≡ with_list self.old list) }
        ensures err { OnErr result (self.new ≡ self.old) }
    {
        let place = self.lists.len();
        if let Err(error) = self.lists.try_reserve(1) {
            drop(list);
            return Err(error);
        }
        let key = *list.as_cert_list().authority_key_identifier();
        if let Err(error) = self.lists_by_signer.add(&key, place) {
            drop(list);
            return Err(error);
        }
        match self.lists.push(list) {
            Ok(()) => Ok(()),
            Err(_) => unreachable!(),
        }
    }

    /// Adds the certificate at the start of `octets`, whatever follows it, or else the CRL that
    /// `octets` are, and returns which of the two was added. If anything follows a CRL, nothing is
    /// added: it may be a CRL that revokes. The serial numbers of a CRL are cached.
    ///
    /// # Errors
    ///
    /// Returns an error if memory runs out. The folder is then unchanged.
    pub fn add(&mut self, octets: Bytes) -> Result<Added, AllocError>
        ensures ok { IfOk result (IsAdded octets self.old self.new) }
        ensures err { OnErr result (self.new ≡ self.old) }
    {
        match Cert::decode_shared(self.alloc, octets.clone()?) {
            Ok(cert) => {
                let said = Said::of(&cert);
                drop(cert);
                Ok(Added::Certificate(self.add_cert(octets, said)?))
            }
            Err(fault) => {
                rejects(fault)?;
                self.add_other(octets)
            }
        }
    }

    // Adds the CRL that bytes are which start with no certificate.
    fn add_other(&mut self, octets: Bytes) -> Result<Added, AllocError>
        requires { (c : CertFields) → Means IsCertificate c octets → ⊥ }
        ensures ok { IfOk result (IsAdded octets self.old self.new) }
        ensures err { OnErr result (self.new ≡ self.old) }
    {
        let read = whole_list(self.alloc, &octets);
        drop(octets);
        match read {
            Ok(mut list) => {
                if let Err(error) = list.cache_serials(self.alloc) {
                    drop(list);
                    return Err(error);
                }
                self.add_list(list)?;
                Ok(Added::List)
            }
            Err(fault) => {
                rejects(fault)?;
                Ok(Added::Neither)
            }
        }
    }

    /// Returns the certificates, each at its place.
    pub fn certs(&self) -> &[Filed]
        ensures { result.now ≡ self.now.certs }
    {
        &self.certs
    }

    /// Returns the CRLs, in the order in which they were added.
    pub fn lists(&self) -> &[Crl]
        ensures { result.now ≡ self.now.lists }
    {
        &self.lists
    }

    /// Returns the places of the certificates whose Authority Key Identifier is this key identifier
    /// (RFC 5280 4.2.1.1), in the order in which they were added.
    pub fn signed_by(&self, key: &KeyIdentifier) -> &[usize]
        ensures { ArePlacesOf self.now.certs key.now result.now }
    {
        self.by_signer.get(key)
    }

    /// Returns the places of the CRLs whose Authority Key Identifier is this key identifier (RFC
    /// 5280 5.2.1), in the order in which they were added.
    pub(crate) fn lists_of(&self, key: &KeyIdentifier) -> &[usize]
        ensures { result.now ≡ list_places key.now self.now.lists }
    {
        self.lists_by_signer.get(key)
    }
}
