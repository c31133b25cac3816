//! What a walk found out about the issuers below which it went.
ghost use Rattle.std.specs.Prelude.{◌≡◌, ◌<◌, ◌++◌, ◌∷◌, [], false, length, slice_index_or, Contains, IsTrue, IfOk, OnOk, IfSome, if◌then◌else◌};
ghost use Rattle.rpki_path.specs.Repeats.{AreAlike};
ghost use Rattle.rpki_folder.specs.declared.issuers.Issuer.{Issuer};

use crate::entity::are_one_entity;
use crate::issuer_lists::IssuerLists;
use crate::keys::KeyTable;
use crate::names::NameTable;
use bytes::Bytes;
use rpki_cert::Cert;
use rpki_ext::beside;
use std::alloc::{AllocError, Global};

/// What a walk keeps of an issuer, for all paths that lead to it.
#[derive(Drop)]
pub(crate) struct Issuer<'w> {
    /// A certificate of the issuer.
    pub(crate) cert: Cert,
    /// The places of its children.
    pub(crate) children: Vec<usize>,
    /// Its CRLs.
    pub(crate) lists: IssuerLists<'w>,
}

/// What a walk keeps of a key that has several names, for all of them.
#[derive(Drop)]
pub(crate) struct NamedKey {
    /// A certificate of the key.
    pub(crate) cert: Cert,
    /// The places of the certificates that name the key, by their issuers' names.
    pub(crate) certs: NameTable,
    /// Whether the key signed a CRL that names it.
    pub(crate) has_signed: bool,
}

/// The issuers below which a walk went, each of them once. So the signature of a file is verified
/// once for a key, and an issuer's CRLs are gathered once, whatever paths lead to the issuer.
///
/// If names are checked, one key may have many names, each of which is an issuer. What is kept of
/// such a key is found once, so that each name looks at its own certificates alone.
#[derive(Drop)]
pub(crate) struct Issuers<'w> {
    // Where issuers are kept: by the key identifier, and the subject if names are checked.
    by_entity: NameTable,
    pub(crate) kept: Vec<Issuer<'w>>,
    // Where issuers and keys are kept: by the key identifier.
    pub(crate) by_key: KeyTable,
    by_named_key: KeyTable,
    pub(crate) keys: Vec<NamedKey>,
}

// What an issuer is found by.
fn entity_of(alloc: Global, cert: &Cert, names: bool) -> Result<Bytes, AllocError>
    ensures { let f = cert.now.fields in
        IfOk result (λ octets. octets ≡ f.extensions.subject_key_identifier
        ++ (if names then f.subject else [])) }
{
    let tbs = cert.as_tbs();
    let key = tbs.subject_key_identifier();
    let mut octets = Vec::from_slice(alloc, key.as_octets())?;
    if names {
        octets.extend_from_slice(tbs.subject().as_bytes())?;
    }
    Ok(Bytes::from_vec(octets)?)
}

// Whether two certificates have one key and key identifier, and one subject if names are checked.
fn are_alike(one: &Cert, other: &Cert, names: bool) -> bool
    ensures { IsTrue result → AreAlike names one.now.fields other.now.fields }
{
    let (identifier, key) = (
        one.as_tbs().subject_key_identifier(),
        other.as_tbs().subject_key_identifier(),
    );
    identifier == key && are_one_entity(one, other, names)
}

impl<'w> Issuers<'w> {
    /// Makes a table without issuers.
    pub(crate) fn new(alloc: Global) -> Issuers<'w>
        ensures issuers { result.kept.items ≡ [] }
        ensures keys { result.keys.items ≡ [] }
    {
        Issuers {
            by_entity: NameTable::new(alloc),
            kept: Vec::new(alloc),
            by_key: KeyTable::new(alloc),
            by_named_key: KeyTable::new(alloc),
            keys: Vec::new(alloc),
        }
    }

    // The issuer of this entity at one of these indexes.
    fn find_at(&self, indexes: &[usize], cert: &Cert, names: bool) -> Option<usize>
        ensures { IfSome result (λ at. (at < length self.now.kept.items)
            × ((d : Issuer) → AreAlike names (slice_index_or self.now.kept.items at d).cert.fields
            cert.now.fields)) }
    {
        for &at in indexes {
            if at >= self.kept.len() {
                continue;
            }
            if are_alike(&self.kept[at].cert, cert, names) {
                return Some(at);
            }
        }
        None
    }

    /// Returns the index of the issuer with this certificate's key and key identifier, and its
    /// subject if names are checked, if the table has it.
    ///
    /// # Errors
    ///
    /// Returns an error only if memory runs out.
    pub(crate) fn find(
        &self,
        alloc: Global,
        cert: &Cert,
        names: bool,
    ) -> Result<Option<usize>, AllocError>
        ensures { IfOk result (λ found. IfSome found (λ at. (at < length self.now.kept.items)
            × ((d : Issuer) → AreAlike names (slice_index_or self.now.kept.items at d).cert.fields
            cert.now.fields))) }
    {
        let entity = entity_of(alloc, cert, names)?;
        let found = self.find_at(self.by_entity.get(&entity), cert, names);
        drop(entity);
        Ok(found)
    }

    // Keeps that the issuer with this certificate has this index.
    fn index(
        &mut self,
        alloc: Global,
        cert: &Cert,
        names: bool,
        at: usize,
    ) -> Result<(), AllocError>
        ensures kept { self.new.kept ≡ self.old.kept }
        ensures keys { self.new.keys ≡ self.old.keys }
    {
        let entity = entity_of(alloc, cert, names)?;
        self.by_entity.add(entity, at)?;
        let key = cert.as_tbs().subject_key_identifier();
        self.by_key.add(&key, at)
    }

    /// Adds an issuer, and returns its index.
    ///
    /// # Errors
    ///
    /// Returns an error if memory runs out.
    pub(crate) fn add(
        &mut self,
        alloc: Global,
        issuer: Issuer<'w>,
        names: bool,
    ) -> Result<usize, AllocError>
        ensures kept { OnOk result (self.new.kept.items ≡ self.old.kept.items ++ issuer.entry ∷ []) }
        ensures keys { OnOk result (self.new.keys.items ≡ self.old.keys.items) }
        ensures at { IfOk result (λ at. at ≡ length self.old.kept.items) }
    {
        let at = self.kept.len();
        let test = self.index(alloc, &issuer.cert, names, at);
        let (issuer, ()) = beside(issuer, test)?;
        self.kept.push(issuer)?;
        Ok(at)
    }

    /// Returns what is kept of the certificate's key, if anything is.
    pub(crate) fn key_of(&self, cert: &Cert) -> Option<&NamedKey>
        ensures { IfSome result (λ key. Contains self.now.keys.items key.now
            × AreAlike false key.now.cert.fields cert.now.fields) }
    {
        let identifier = cert.as_tbs().subject_key_identifier();
        for &at in self.by_named_key.get(&identifier) {
            if at >= self.keys.len() {
                continue;
            }
            let key = &self.keys[at];
            if are_alike(&key.cert, cert, false) {
                return Some(key);
            }
        }
        None
    }

    /// Adds what is to be kept of a key.
    ///
    /// # Errors
    ///
    /// Returns an error if memory runs out.
    pub(crate) fn add_key(&mut self, key: NamedKey) -> Result<(), AllocError>
        ensures keys { OnOk result (self.new.keys.items ≡ self.old.keys.items ++ key ∷ []) }
        ensures kept { OnOk result (self.new.kept.items ≡ self.old.kept.items) }
    {
        let at = self.keys.len();
        let identifier = key.cert.as_tbs().subject_key_identifier();
        self.keys.push(key)?;
        self.by_named_key.add(&identifier, at)?;
        Ok(())
    }
}
