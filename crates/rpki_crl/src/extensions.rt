//! Reads the extensions of a CRL in one pass, in any order.
ghost use Rattle.std.specs.Prelude.{◌≡◌, ◌⊎◌, true, false, OnOk, OnErr, IfErr};
ghost use Rattle.rpki_der.specs.Primitives.{IsOid};
ghost use Rattle.rpki_der.specs.Place.{remaining};
ghost use Rattle.rpki_der.specs.Place.Reading.{ReturnsBy, ReturnsOrMemoryBy};
ghost use Rattle.rpki_der.specs.Folding.{over};
ghost use Rattle.rpki_der.specs.Extensions.{extension_format};
ghost use Rattle.rpki_crl.specs.ListExtensions.{list_fold, both_seen, list_extensions_of};
ghost use Rattle.rpki_crl.specs.ListExtensions.Views.{NamesListKind, field_of, is_seen, first_unseen, sights_of, extensions_view};

use crate::invalid_extension::InvalidExtension;
use bytes::Bytes;
use rpki_der::{Cursor, DecodeError, Field, Oid, Serial, oid};
use rpki_ext::{take_authority_key_identifier, take_extension};
use rpki_parts::KeyIdentifier;
use std::alloc::Global;

/// The kinds of extensions that a CRL may have (RFC 6487 5).
#[derive(Clone, Copy)]
enum ListKind {
    AuthorityKeyIdentifier,
    CrlNumber,
}

impl ListKind {
    // The name that errors give it.
    fn field(self) -> Field
        ensures { result ≡ field_of self }
    {
        match self {
            ListKind::AuthorityKeyIdentifier => Field::AuthorityKeyIdentifier,
            ListKind::CrlNumber => Field::CrlNumber,
        }
    }
}

// The kind that an identifier names; `None` if it isn't known.
fn kind_of(identifier: &[u8]) -> Option<ListKind>
    ensures { NamesListKind identifier.now result }
{
    if identifier == oid::CE_AUTHORITY_KEY_IDENTIFIER {
        Some(ListKind::AuthorityKeyIdentifier)
    } else if identifier == oid::CE_CRL_NUMBER {
        Some(ListKind::CrlNumber)
    } else {
        None
    }
}

/// The values of a CRL's extensions.
#[derive(Clone, Copy)]
pub(crate) struct CrlExtensions {
    pub(crate) authority_key_identifier: KeyIdentifier,
    pub(crate) crl_number: Serial,
}

// Makes the error of an extension of no known kind, which is rejected under its own identifier,
// critical or not.
fn refuse(alloc: Global, identifier: &[u8]) -> DecodeError
    ensures { IsOid identifier.now
        → (result ≡ DecodeError.InvalidExtension identifier.now) ⊎ (result ≡ DecodeError.Memory) }
{
    let octets = match Bytes::copy_from_slice(alloc, identifier) {
        Ok(octets) => octets,
        Err(error) => return DecodeError::from(error),
    };
    match Oid::new(octets) {
        Ok(identifier) => DecodeError::from(InvalidExtension::new(identifier)),
        Err(error) => error,
    }
}

/// The values of the extensions that were read so far.
#[derive(Clone, Copy)]
struct ReadListExtensions {
    authority_key_identifier: Option<KeyIdentifier>,
    crl_number: Option<Serial>,
}

impl ReadListExtensions {
    fn nothing() -> ReadListExtensions
        ensures { sights_of result ≡ list_fold.start }
    {
        ReadListExtensions {
            authority_key_identifier: None,
            crl_number: None,
        }
    }

    fn has(&self, kind: ListKind) -> bool
        ensures { result ≡ is_seen self.now kind }
    {
        match kind {
            ListKind::AuthorityKeyIdentifier => self.authority_key_identifier.is_some(),
            ListKind::CrlNumber => self.crl_number.is_some(),
        }
    }

    // Rejects a second extension of a kind, under the kind's name.
    fn check(&self, kind: ListKind) -> Result<(), DecodeError>
        ensures first { OnOk result (is_seen self.now kind ≡ false) }
        ensures second { OnErr result (is_seen self.now kind ≡ true) }
        ensures named { IfErr result (λ e. e ≡ DecodeError.Duplicate (field_of kind)) }
    {
        if self.has(kind) {
            return Err(DecodeError::Duplicate(kind.field()));
        }
        Ok(())
    }

    // One extension more.
    fn put(
        &mut self,
        alloc: Global,
        identifier: &[u8],
        critical: bool,
        content: &mut Cursor<'_>,
    ) -> Result<(), DecodeError>
        ensures { ReturnsOrMemoryBy (λ _. sights_of self.new) result
            (list_fold.step (sights_of self.old) (record {
              identifier = identifier.now;
              critical = critical;
              content = remaining content.old;
            })) }
    {
        let Some(kind) = kind_of(identifier) else {
            return Err(refuse(alloc, identifier));
        };
        match kind {
            ListKind::AuthorityKeyIdentifier => {
                if let Err(error) = self.check(ListKind::AuthorityKeyIdentifier) {
                    return Err(error);
                }
                self.authority_key_identifier = Some(take_authority_key_identifier(content)?);
                Ok(())
            }
            ListKind::CrlNumber => {
                if let Err(error) = self.check(ListKind::CrlNumber) {
                    return Err(error);
                }
                self.crl_number = Some(Serial::take_from(content)?);
                Ok(())
            }
        }
    }

    // A sequence of extensions, one after the other.
    fn from_row(alloc: Global, elements: &Cursor<'_>) -> Result<ReadListExtensions, DecodeError>
        ensures { ReturnsOrMemoryBy sights_of result
            (over extension_format.read list_fold.step list_fold.start (remaining elements.now)) }
    {
        let mut rest = elements.fork();
        let mut seen = ReadListExtensions::nothing();
        while !rest.is_empty() {
            let (identifier, critical, mut content) = match take_extension(&mut rest) {
                Ok(extension) => extension,
                Err(error) => return Err(error),
            };
            match seen.put(alloc, identifier, critical, &mut content) {
                Ok(()) => {}
                Err(error) => return Err(error),
            }
        }
        Ok(seen)
    }
}

impl CrlExtensions {
    // The values, if both kinds were read; else an error that names the first missing kind.
    fn complete(seen: ReadListExtensions) -> Result<CrlExtensions, DecodeError>
        ensures reads { ReturnsBy extensions_view result (both_seen (sights_of seen)) }
        ensures named { IfErr result (λ e. e ≡ DecodeError.Missing (field_of (first_unseen seen))) }
    {
        let Some(authority_key_identifier) = seen.authority_key_identifier else {
            return Err(DecodeError::Missing(Field::AuthorityKeyIdentifier));
        };
        let Some(crl_number) = seen.crl_number else {
            return Err(DecodeError::Missing(Field::CrlNumber));
        };
        Ok(CrlExtensions {
            authority_key_identifier,
            crl_number,
        })
    }

    /// Reads all extensions of a CRL and returns their values (RFC 6487 5).
    ///
    /// # Errors
    ///
    /// Returns an error if an extension is unknown, repeated, malformed or missing, and `Memory`.
    #[tactic(auto, unfolding(crate::specs::ListExtensions::list_extensions_of))]
    pub(crate) fn from_row(
        alloc: Global,
        elements: &Cursor<'_>,
    ) -> Result<CrlExtensions, DecodeError>
        ensures reads { ReturnsOrMemoryBy extensions_view result
            (list_extensions_of (remaining elements.now)) }
    {
        CrlExtensions::complete(ReadListExtensions::from_row(alloc, elements)?)
    }
}
