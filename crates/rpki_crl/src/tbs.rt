//! The TBSCertList of a CRL: its fields, and how it is read.
ghost use Rattle.std.specs.Prelude.{◌≡◌, IfOk};
ghost use Rattle.std.specs.Borrow.{sem};
ghost use Rattle.rpki_der.specs.Answers.{AnswersOrMemory};
ghost use Rattle.rpki_der.specs.Place.{remaining, Keeps};
ghost use Rattle.rpki_der.specs.Place.Reading.{Took, TookOrMemory, TookOrMemoryBy};
ghost use Rattle.rpki_der.specs.Formats.{tagged};
ghost use Rattle.rpki_der.specs.Skipping.{levels};
ghost use Rattle.rpki_der.specs.Tags.{SEQUENCE};
ghost use Rattle.rpki_der.specs.Values.{AreOctets};
ghost use Rattle.rpki_crl.specs.ListExtensions.Views.{extensions_view};
ghost use Rattle.rpki_crl.specs.Lists.{version_2, content_with, list_format, tagged_extensions_format};
ghost use Rattle.rpki_crl.specs.Lists.Lending.{LendsRevoked};

use crate::extensions::CrlExtensions;
use crate::head::ReadEntries;
use crate::revoked::RevokedCertificates;
use rpki_der::{Cursor, DecodeError, Serial, Time, tag};
use rpki_ext::beside;
use rpki_parts::{KeyIdentifier, Name, RpkiSignatureAlgorithm};
use std::alloc::{AllocError, Global};
use std::marker::Model;

/// The TBSCertList of a CRL: all but its signature, with the revoked certificates in the form of
/// `C` (RFC 5280 5.1.2, RFC 6487 5).
#[derive(Drop)]
pub struct TbsCertList<C> {
    pub(crate) signature: RpkiSignatureAlgorithm,
    pub(crate) issuer: Name,
    pub(crate) this_update: Time,
    pub(crate) next_update: Time,
    pub(crate) revoked_certs: C,
    pub(crate) extensions: CrlExtensions,
}

impl<C> Model for TbsCertList<C> {
    ghost use Rattle.rpki_crl.specs.Lists.{ListFields};
    ghost use Rattle.rpki_crl.specs.ListExtensions.Views.{extensions_view};

    ghost Value = { ListFields C };

    ghost view = { λ t. record {
      algorithm = t.signature;
      issuer = t.issuer;
      this_update = t.this_update;
      next_update = t.next_update;
      revoked = t.revoked_certs;
      extensions = extensions_view t.extensions;
    } };
}

// The version, which is 2.
#[tactic(auto, unfolding(crate::specs::Lists::version_2))]
fn take_version(cursor: &mut Cursor<'_>) -> Result<(), DecodeError>
    ensures reads { Took version_2.read cursor.old result cursor.new }
    ensures keeps { Keeps result cursor.old cursor.new }
{
    let mut ahead = cursor.fork();
    let number = ahead.take_value(tag::INTEGER)?;
    if number.rest() != [0x01].as_slice() {
        return Err(DecodeError::BadValue);
    }
    *cursor = ahead;
    Ok(())
}

// The extensions, inside their tags.
fn take_extensions(alloc: Global, cursor: &mut Cursor<'_>) -> Result<CrlExtensions, DecodeError>
    ensures reads { TookOrMemoryBy extensions_view tagged_extensions_format.read
        cursor.old result cursor.new }
    ensures keeps { Keeps result cursor.old cursor.new }
{
    let mut ahead = cursor.fork();
    let mut tagged = ahead.take_value(tag::CONTEXT_CONSTRUCTED)?;
    let elements = tagged.take_sequence()?;
    let extensions = CrlExtensions::from_row(alloc, &elements)?;
    tagged.finish()?;
    *cursor = ahead;
    Ok(extensions)
}

impl<C: ReadEntries> TbsCertList<C> {
    // Reads the content of the SEQUENCE, by the reading function.
    fn take_content(alloc: Global, content: &mut Cursor<'_>) -> Result<TbsCertList<C>, DecodeError>
        ensures reads { TookOrMemory (content_with C.format levels).read
            content.old result content.new }
        ensures keeps { Keeps result content.old content.new }
    {
        let mut ahead = content.fork();
        take_version(&mut ahead)?;
        let signature = RpkiSignatureAlgorithm::x509_take_from(&mut ahead)?;
        let issuer = Name::take_from(alloc, &mut ahead)?;
        let (issuer, this_update) = beside(issuer, Time::take_from(&mut ahead))?;
        let (issuer, next_update) = beside(issuer, Time::take_from(&mut ahead))?;
        let both = beside(issuer, C::take_entries(alloc, &mut ahead))?;
        let (both, extensions) = beside(both, take_extensions(alloc, &mut ahead))?;
        let (issuer, revoked_certs) = both;
        *content = ahead;
        Ok(TbsCertList {
            signature,
            issuer,
            this_update,
            next_update,
            revoked_certs,
            extensions,
        })
    }

    /// Reads the data, with its entries in the form of `C`, by the reading function.
    pub(crate) fn read(
        alloc: Global,
        cursor: &mut Cursor<'_>,
    ) -> Result<TbsCertList<C>, DecodeError>
        ensures reads { TookOrMemory (tagged SEQUENCE (content_with C.format levels)).read
            cursor.old result cursor.new }
        ensures keeps { Keeps result cursor.old cursor.new }
        ensures octets { AreOctets (remaining cursor.old) }
    {
        let mut ahead = cursor.fork();
        let mut content = ahead.take_sequence()?;
        let list = TbsCertList::take_content(alloc, &mut content)?;
        if !content.is_empty() {
            drop(list);
            return Err(DecodeError::Trailing);
        }
        *cursor = ahead;
        Ok(list)
    }
}

impl TbsCertList<RevokedCertificates> {
    /// Reads the next TBSCertList, one SEQUENCE with its extensions in any order (RFC 5280 5.1.2,
    /// RFC 6487 5).
    ///
    /// # Errors
    ///
    /// Returns an error if the remaining bytes start with no TBSCertList (which one is
    /// unspecified), and `Memory`.
    pub fn take_from(
        alloc: Global,
        cursor: &mut Cursor<'_>,
    ) -> Result<TbsCertList<RevokedCertificates>, DecodeError>
        ensures { AnswersOrMemory (list_format levels) cursor.old result cursor.new }
    {
        TbsCertList::read(alloc, cursor)
    }

    /// Clones the data.
    pub fn try_clone(&self, alloc: Global) -> Result<TbsCertList<RevokedCertificates>, AllocError>
        ensures { IfOk result (λ t. t ≡ self.now) }
    {
        let issuer = self.issuer.try_clone(alloc)?;
        let revoked_certs = self.revoked_certs.try_clone(alloc)?;
        Ok(TbsCertList {
            signature: self.signature,
            issuer,
            this_update: self.this_update,
            next_update: self.next_update,
            revoked_certs,
            extensions: self.extensions,
        })
    }
}

impl<C> TbsCertList<C> {
    /// Makes the data with these fields.
    pub fn new(
        signature: RpkiSignatureAlgorithm,
        issuer: Name,
        this_update: Time,
        next_update: Time,
        revoked_certs: C,
        authority_key_identifier: KeyIdentifier,
        crl_number: Serial,
    ) -> TbsCertList<C>
        ensures { result ≡ record {
          algorithm = signature;
          issuer = issuer;
          this_update = this_update;
          next_update = next_update;
          revoked = revoked_certs;
          extensions = record {
            authority_key_identifier = authority_key_identifier;
            crl_number = crl_number;
          };
        } }
    {
        TbsCertList {
            signature,
            issuer,
            this_update,
            next_update,
            revoked_certs,
            extensions: CrlExtensions {
                authority_key_identifier,
                crl_number,
            },
        }
    }

    /// Returns the algorithm inside the TBSCertList (RFC 5280 5.1.2.2).
    pub fn signature(&self) -> RpkiSignatureAlgorithm
        ensures { result ≡ self.now.algorithm }
    {
        self.signature
    }

    /// Returns the name of the issuer (RFC 5280 5.1.2.3).
    pub fn issuer(&self) -> &Name
        ensures { result.now ≡ self.now.issuer }
    {
        &self.issuer
    }

    /// Returns thisUpdate, the time at which the CRL was made (RFC 5280 5.1.2.4).
    pub fn this_update(&self) -> Time
        ensures { result ≡ self.now.this_update }
    {
        self.this_update
    }

    /// Returns nextUpdate, the time by which the next CRL is due (RFC 5280 5.1.2.5).
    pub fn next_update(&self) -> Time
        ensures { result ≡ self.now.next_update }
    {
        self.next_update
    }

    /// Returns the revoked certificates (RFC 5280 5.1.2.6).
    pub fn revoked_certs(&self) -> &C
        ensures { result.now ≡ self.now.revoked }
    {
        &self.revoked_certs
    }

    /// Lends the revoked certificates to be changed in place. When the borrow ends, the CRL has the
    /// revoked certificates that were left there.
    pub fn revoked_certs_mut(&mut self) -> &mut C
        ensures* lends { sem 𝓛 (LendsRevoked C.row self.entry result) }
        ensures value { result.now ≡ self.old.revoked }
    {
        &mut self.revoked_certs
    }

    /// Returns the identifier of the issuer's key (RFC 5280 5.2.1).
    pub fn authority_key_identifier(&self) -> &KeyIdentifier
        ensures { result.now ≡ self.now.extensions.authority_key_identifier }
    {
        &self.extensions.authority_key_identifier
    }

    /// Returns the CRL number (RFC 5280 5.2.3).
    pub fn crl_number(&self) -> Serial
        ensures { result ≡ self.now.extensions.crl_number }
    {
        self.extensions.crl_number
    }
}
