//! The head of a CRL: whose CRL it is, without a look at its entries.
ghost use Rattle.rpki_der.specs.Answers.{AnswersOrMemory};
ghost use Rattle.rpki_der.specs.Place.{Keeps, MeansOrMemory};
ghost use Rattle.rpki_der.specs.Place.Reading.{TookOrMemory};
ghost use Rattle.rpki_der.specs.Skipping.{levels};
ghost use Rattle.rpki_crl.specs.ListHeads.{NamesKey, head_format, skipped_format};
ghost use Rattle.rpki_crl.specs.RevokedEntries.{revoked_format};

use crate::revoked::RevokedCertificates;
use crate::tbs::TbsCertList;
use bytes::Bytes;
use rpki_der::{Cursor, DecodeError, Piece};
use rpki_parts::KeyIdentifier;
use std::alloc::Global;

/// A form in which the revokedCertificates of a CRL are read.
pub(crate) trait ReadEntries: Drop + Sized {
    ghost use Rattle.rpki_der.specs.Formats.{Format};

    /// Their format in this form.
    ghost format: { Format Self };

    /// Reads them, present or absent, by the reading function.
    fn take_entries(alloc: Global, cursor: &mut Cursor<'_>) -> Result<Self, DecodeError>
        ensures reads { TookOrMemory format.read cursor.old result cursor.new }
        ensures keeps { Keeps result cursor.old cursor.new };
}

impl ReadEntries for RevokedCertificates {
    ghost format = { revoked_format };

    fn take_entries(
        alloc: Global,
        cursor: &mut Cursor<'_>,
    ) -> Result<RevokedCertificates, DecodeError> {
        RevokedCertificates::read(alloc, cursor)
    }
}

/// Whatever the SEQUENCE contains.
impl ReadEntries for Option<Piece> {
    ghost format = { skipped_format };

    fn take_entries(alloc: Global, cursor: &mut Cursor<'_>) -> Result<Option<Piece>, DecodeError> {
        let mut ahead = cursor.fork();
        let octets = match ahead.take_opt_sequence()? {
            Some(mut content) => Some(content.capture_rest(alloc)?),
            None => None,
        };
        *cursor = ahead;
        Ok(octets)
    }
}

// Reads the head at the start of the content of a CRL's SEQUENCE.
fn take_head(
    alloc: Global,
    content: &mut Cursor<'_>,
) -> Result<TbsCertList<Option<Piece>>, DecodeError>
    ensures { AnswersOrMemory (head_format levels) content.old result content.new }
{
    TbsCertList::read(alloc, content)
}

/// Returns the identifier of the key that a CRL names as its issuer's (RFC 5280 5.2.1). Reads the
/// CRL up to its extensions, and skips its entries by their length.
///
/// # Errors
///
/// Returns an error if the bytes aren't one SEQUENCE that starts with such fields (which one is
/// unspecified), and `Memory`.
///
/// # Not checked
///
/// The entries, and what follows the TBSCertList in the SEQUENCE: the signature.
pub fn named_key(alloc: Global, octets: &Bytes) -> Result<KeyIdentifier, DecodeError>
    ensures { MeansOrMemory NamesKey result octets.now }
{
    let mut cursor = Cursor::new(octets);
    let mut content = cursor.take_sequence()?;
    cursor.finish()?;
    let head = take_head(alloc, &mut content)?;
    let key = *head.authority_key_identifier();
    drop(head);
    Ok(key)
}
