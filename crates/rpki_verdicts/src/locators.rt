//! Files that are given as TALs of the trust anchor.
ghost use Rattle.std.specs.Prelude.{◌≡◌, ◌↔◌, Any, Ok, Err, IfOk, IfErr, IfNone, IfSome, IsTrue};
ghost use Rattle.rpki_verdicts.specs.GivenLocators.{HasKeyRead, HasLocator, HasTalRead, IsAnchorOf, IsFirstTalRead, IsFirstThat, IsRead};

use rpki_cert::laws;
use rpki_files::{BareObject, read_locator};
use rpki_keys::tal::{Tal, TalError};
use rpki_parts::PublicKey;
use std::alloc::{AllocError, Global};
use std::marker::Model;

/// A file that is given as a TAL, and what was read of it.
#[derive(Drop)]
pub struct GivenLocator<'n> {
    name: &'n str,
    octets: Vec<u8>,
    read: Result<Tal, TalError>,
}

impl<'n> Model for GivenLocator<'n> {
    ghost use Rattle.rpki_verdicts.specs.GivenLocators.{LocatorFields};

    ghost Value = { LocatorFields };

    ghost view = { λ l. record {
      file = record { name = l.name.now; octets = l.octets.items };
      read = l.read;
    } };
}

impl<'n> GivenLocator<'n> {
    /// Reads a file of this name as a TAL, in strict mode or not (RFC 8630 2.2). A file that isn't
    /// a TAL is kept with the reason.
    ///
    /// # Errors
    ///
    /// Returns an error only if memory runs out.
    pub fn read(
        alloc: Global,
        name: &'n str,
        octets: Vec<u8>,
        strict: bool,
    ) -> Result<GivenLocator<'n>, AllocError>
        ensures name { IfOk result (λ l. l.file.name ≡ name.now) }
        ensures octets { IfOk result (λ l. l.file.octets ≡ octets.items) }
        ensures read { IfOk result (IsRead strict) }
    {
        let read = read_locator(alloc, name, &octets, strict)?;
        Ok(GivenLocator { name, octets, read })
    }

    /// Returns the file's name.
    pub fn name(&self) -> &str
        ensures { result.now ≡ self.now.file.name }
    {
        self.name
    }

    /// Returns what was read of the file.
    pub fn tal(&self) -> Result<&Tal, &TalError>
        ensures ok { IfOk result (λ tal. self.now.read ≡ Ok tal.now) }
        ensures err { IfErr result (λ fault. self.now.read ≡ Err fault.now) }
    {
        self.read.as_ref()
    }

    // What was read of it, where it is a locator of this key.
    fn tal_with(&self, key: &PublicKey) -> Option<&Tal>
        ensures found { IfSome result (λ t. (self.now.read ≡ Ok t.now) × (key.now ≡ t.now.tal.key)) }
        ensures none { IfNone result (HasKeyRead key.now self.now → ⊥) }
    {
        match &self.read {
            Ok(tal) => {
                if tal.has_key(key) {
                    return Some(tal);
                }
                None
            }
            Err(_) => None,
        }
    }

    // Whether it was read as a locator of this key.
    fn has_key(&self, key: &PublicKey) -> bool
        ensures { IsTrue result ↔ HasKeyRead key.now self.now }
    {
        match &self.read {
            Ok(tal) => tal.has_key(key),
            Err(_) => false,
        }
    }
}

/// Returns the first TAL with this key.
pub fn tal_of_key<'q>(locators: &'q [GivenLocator<'_>], key: &PublicKey) -> Option<&'q Tal>
    ensures found { IfSome result (λ t. HasTalRead locators.now key.now t.now) }
    ensures first { IfSome result (λ t. IsFirstTalRead locators.now key.now t.now) }
    ensures none { IfNone result (Any (HasKeyRead key.now) locators.now → ⊥) }
{
    for (place, locator) in locators.iter().enumerate() {
        if let Some(tal) = locator.tal_with(key) {
            return Some(tal);
        }
    }
    None
}

// The first of the locators whose key the certificate has with which a file begins.
pub(crate) fn locator_of<'q>(
    alloc: Global,
    locators: &'q [GivenLocator<'_>],
    file: &BareObject<'_>,
) -> Result<Option<&'q Tal>, AllocError>
    ensures found { IfOk result (λ tal.
        IfSome tal (λ t. IsAnchorOf locators.now t.now file.now)) }
    ensures none { IfOk result (λ tal. IfNone tal (HasLocator locators.now file.now → ⊥)) }
{
    laws::unambiguous();
    match file.certificate(alloc)? {
        Some(cert) => {
            let found = tal_of_key(locators, cert.as_tbs().subject_public_key_info());
            drop(cert);
            Ok(found)
        }
        None => Ok(None),
    }
}

/// Returns the index of the first TAL with this key.
pub fn place_of_key(locators: &[GivenLocator<'_>], key: &PublicKey) -> Option<usize>
    ensures { IsFirstThat (HasKeyRead key.now) locators.now result }
{
    for (place, locator) in locators.iter().enumerate() {
        if locator.has_key(key) {
            return Some(place);
        }
    }
    None
}
