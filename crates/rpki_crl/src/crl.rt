//! CRLs: reading, and the search for a serial number.
ghost use Rattle.std.specs.Prelude.{◌≡◌, ◌↔◌, ◌^◌, ◌<◌, ◌≤◌, true, false, length, IsTrue, IfOk, IsOk, OnOk, OnErr, IsErrOf, IfSome};
ghost use Rattle.rpki_der.specs.Answers.{AnswersOrMemoryBy};
ghost use Rattle.rpki_der.specs.Place.{remaining, Keeps, AnswersOptionalOrMemoryBy, MeansOrMemoryBy};
ghost use Rattle.rpki_der.specs.Place.Reading.{TookOrMemoryBy};
ghost use Rattle.rpki_der.specs.Skipping.{levels};
ghost use Rattle.rpki_der.specs.Tags.{SEQUENCE};
ghost use Rattle.rpki_der.specs.Values.{AreOctets};
ghost use Rattle.rpki_der.specs.Writers.{Writes};
ghost use Rattle.rpki_parts.specs.SignedDatas.{signed_content, signed_data, signed_part};
ghost use Rattle.rpki_ext.specs.Kinds.{Means};
ghost use Rattle.rpki_crl.specs.Lists.{IsCertificateList, certificate_list_content_format, certificate_list_format};
ghost use Rattle.rpki_crl.specs.RevokedEntries.{IsRevoked};
ghost use Rattle.rpki_crl.specs.SerialSearches.{IsTableSearch};
ghost use Rattle.rpki_crl.specs.SerialTables.{digits, looks};

use crate::revoked::RevokedCertificates;
use crate::table::SerialTable;
use crate::tbs::TbsCertList;
use bytes::Bytes;
use rpki_der::{Cursor, DecodeError, EncodeError, Serial, tag};
use rpki_ext::beside;
use rpki_parts::SignedData;
use std::alloc::{AllocError, Global};
use std::marker::Model;

/// A CRL: its TBSCertList as it was read or made, its signature, and its fields (RFC 5280 5.1,
/// RFC 6487 5). Its serials may also be in a table, which makes searches faster.
#[derive(Drop)]
pub struct Crl {
    list: TbsCertList<RevokedCertificates>,
    signed_data: SignedData,
    cache: Option<SerialTable>,
}

impl Model for Crl {
    ghost use Rattle.std.specs.Prelude.{is_some};
    ghost use Rattle.rpki_crl.specs.Lists.{CrlState};
    ghost use Rattle.rpki_crl.specs.SerialTables.{IsCacheOf};

    ghost Value = { CrlState };

    ghost view = { λ c. record {
      list = record { fields = c.list; signed_data = c.signed_data };
      is_cached = is_some c.cache;
    } };

    ghost invariant = { λ c. IsCacheOf c.list.revoked.entries c.cache };
}

impl Crl {
    /// Makes the CRL with these fields and this signed data, without a table.
    pub(crate) fn from_parts(list: TbsCertList<RevokedCertificates>, signed_data: SignedData) -> Crl
        ensures { result ≡ record {
          list = record { fields = list; signed_data = signed_data };
          is_cached = false;
        } }
    {
        Crl {
            list,
            signed_data,
            cache: None,
        }
    }

    // Reads the content of the SEQUENCE, by the reading function.
    #[tactic(auto, unfolding(crate::specs::Lists::certificate_list_content_format, crate::specs::Lists::list_format, crate::specs::Lists::list_content_format))]
    fn read_content(alloc: Global, content: &mut Cursor<'_>) -> Result<Crl, DecodeError>
        ensures reads { let format = certificate_list_content_format levels in
            TookOrMemoryBy (λ c. c.list) format.read content.old result content.new }
        ensures keeps { Keeps result content.old content.new }
        ensures uncached { IfOk result (λ c. c.is_cached ≡ false) }
        ensures octets { AreOctets (remaining content.old) }
    {
        let mut ahead = content.fork();
        let signed_data = SignedData::from_constructed(alloc, &mut ahead)?;
        let list = TbsCertList::read(alloc, &mut content.fork())?;
        if list.signature() != *signed_data.signature().algorithm() {
            drop(list);
            drop(signed_data);
            return Err(DecodeError::AlgorithmMismatch);
        }
        *content = ahead;
        Ok(Crl {
            list,
            signed_data,
            cache: None,
        })
    }

    // The SEQUENCE, by the reading function.
    #[tactic(auto, unfolding(crate::specs::Lists::certificate_list_format))]
    fn read(alloc: Global, cursor: &mut Cursor<'_>) -> Result<Crl, DecodeError>
        ensures reads { let format = certificate_list_format levels in
            TookOrMemoryBy (λ c. c.list) format.read cursor.old result cursor.new }
        ensures keeps { Keeps result cursor.old cursor.new }
        ensures uncached { IfOk result (λ c. c.is_cached ≡ false) }
        ensures octets { AreOctets (remaining cursor.old) }
    {
        let mut ahead = cursor.fork();
        let mut content = ahead.take_sequence()?;
        let crl = Crl::read_content(alloc, &mut content)?;
        if !content.is_empty() {
            drop(crl);
            return Err(DecodeError::Trailing);
        }
        *cursor = ahead;
        Ok(crl)
    }

    /// Decodes the CRL at the start of `octets` and ignores the rest (RFC 5280 5.1, RFC 6487 5).
    ///
    /// # Errors
    ///
    /// Returns an error if the bytes start with no CRL (which one is unspecified), and `Memory`.
    ///
    /// # Not checked
    ///
    /// The signature, and the times.
    pub fn decode(alloc: Global, octets: &[u8]) -> Result<Crl, DecodeError>
        ensures means { let front = Means IsCertificateList in
            MeansOrMemoryBy (λ c. c.list) front result octets.now }
        ensures uncached { IfOk result (λ c. c.is_cached ≡ false) }
    {
        Crl::decode_shared(alloc, Bytes::copy_from_slice(alloc, octets)?)
    }

    /// Decodes the CRL at the start of shared bytes and ignores the rest (own).
    ///
    /// The CRL shares the buffer and keeps all of it alive; a copy ([`Crl::try_clone`]) copies no
    /// bytes.
    ///
    /// # Errors
    ///
    /// As [`Crl::decode`].
    pub fn decode_shared(alloc: Global, octets: Bytes) -> Result<Crl, DecodeError>
        ensures means { let front = Means IsCertificateList in
            MeansOrMemoryBy (λ c. c.list) front result octets }
        ensures uncached { IfOk result (λ c. c.is_cached ≡ false) }
    {
        let mut cursor = Cursor::new(&octets);
        Crl::take_from(alloc, &mut cursor)
    }

    /// Reads the next CRL, one SEQUENCE (RFC 5280 5.1, RFC 6487 5).
    ///
    /// # Errors
    ///
    /// Returns an error if the remaining bytes start with no CRL (which one is unspecified), and
    /// `Memory`.
    #[tactic(auto, using(rpki_der::proofs::FormatAnswers::answers_or_memory_alone, crate::proofs::ListFormats::certificate_list_alone))]
    pub fn take_from(alloc: Global, cursor: &mut Cursor<'_>) -> Result<Crl, DecodeError>
        ensures answers { let format = certificate_list_format levels in
            AnswersOrMemoryBy (λ c. c.list) format cursor.old result cursor.new }
        ensures uncached { IfOk result (λ c. c.is_cached ≡ false) }
    {
        Crl::read(alloc, cursor)
    }

    /// Reads the CRL if the next value is a SEQUENCE. Returns `None` at the end and before another
    /// identifier octet (RFC 5280 5.1).
    pub fn take_opt_from(alloc: Global, cursor: &mut Cursor<'_>) -> Result<Option<Crl>, DecodeError>
        ensures answers { let encodes = IsCertificateList in
            AnswersOptionalOrMemoryBy (λ c. c.list) SEQUENCE encodes cursor.old result cursor.new }
        ensures keeps { Keeps result cursor.old cursor.new }
        ensures uncached { IfOk result (λ o. IfSome o (λ c. c.is_cached ≡ false)) }
    {
        match cursor.rest() {
            [tag::SEQUENCE, ..] => Ok(Some(Crl::take_from(alloc, cursor)?)),
            _ => Ok(None),
        }
    }

    /// Reads the content of a CRL's SEQUENCE, without its identifier and length (RFC 5280 5.1).
    #[tactic(auto, using(rpki_der::proofs::FormatAnswers::answers_or_memory_alone, crate::proofs::ListFormats::certificate_list_content_alone))]
    pub fn from_constructed(alloc: Global, content: &mut Cursor<'_>) -> Result<Crl, DecodeError>
        ensures answers { let format = certificate_list_content_format levels in
            AnswersOrMemoryBy (λ c. c.list) format content.old result content.new }
        ensures uncached { IfOk result (λ c. c.is_cached ≡ false) }
    {
        Crl::read_content(alloc, content)
    }

    /// Returns the fields of the TBSCertList (RFC 5280 5.1.2).
    pub fn as_cert_list(&self) -> &TbsCertList<RevokedCertificates>
        ensures { result.now ≡ self.now.list.fields }
    {
        &self.list
    }

    /// Returns the TBSCertList's bytes, as they were read or made, and the signature.
    pub fn signed_data(&self) -> &SignedData
        ensures { result.now ≡ self.now.list.signed_data }
    {
        &self.signed_data
    }

    /// Sorts the serials into a table, in which later searches are made. If memory runs out, the
    /// CRL stays as it was.
    pub fn cache_serials(&mut self, alloc: Global) -> Result<(), AllocError>
        ensures list { self.new.list ≡ self.old.list }
        ensures cached { OnOk result (self.new.is_cached ≡ true) }
        ensures err { OnErr result (self.new ≡ self.old) }
    {
        let table = SerialTable::of(alloc, self.list.revoked_certs())?;
        self.cache = Some(table);
        Ok(())
    }

    /// Returns whether the CRL revokes this serial number. Takes no memory.
    ///
    /// # Not checked
    ///
    /// Whether the CRL is the certificate's issuer's, is signed, or is current
    /// ([`CrlStore::check`]).
    pub fn contains(&self, serial: Serial) -> bool
        ensures { IsTrue result ↔ IsRevoked serial self.now.list.fields.revoked.entries }
    {
        self.contains_counted(serial).0
    }

    /// Returns whether the CRL revokes this serial number, and how many serials the search read.
    /// Takes no memory.
    ///
    /// Without a table the search reads the entries up to the first with the serial, or all. With
    /// one it is a binary search in the serial's bucket or in the whole table. It reads at most as
    /// many serials as the number of entries has binary digits, and at least one if the CRL has the
    /// serial.
    pub fn contains_counted(&self, serial: Serial) -> (bool, usize)
        ensures revoked { IsTrue result.0 ↔ IsRevoked serial self.now.list.fields.revoked.entries }
        ensures walked { self.now.is_cached ≡ false
            → result.1 ≡ looks serial self.now.list.fields.revoked.entries }
        ensures searched { self.now.is_cached ≡ true
            → result.1 ≤ digits (length self.now.list.fields.revoked.entries) }
        ensures looked { self.now.is_cached ≡ true → IsTrue result.0 → 1 ≤ result.1 }
        ensures halved { self.now.is_cached ≡ true
            → IsTableSearch self.now.list.fields.revoked.entries serial result.1 }
    {
        match &self.cache {
            Some(table) => {
                let (found, count) = table.contains(serial);
                (found, count.get())
            }
            None => self.list.revoked_certs().contains_counted(serial),
        }
    }

    /// Appends the CRL: the SEQUENCE of its TBSCertList, as it was read or made, its algorithm and
    /// its signature (RFC 5280 5.1). A CRL that was read is written as the bytes that were read.
    ///
    /// # Errors
    ///
    /// Returns `TooLong` if the content would have 2^32 bytes or more, and `Memory`.
    pub fn encode_ref(&self, alloc: Global, out: &mut Vec<u8>) -> Result<(), EncodeError>
        ensures { Writes (signed_part self.now.list.signed_data)
            out.old.items result out.new.items }
    {
        self.signed_data.encode_ref(alloc, out)
    }

    /// Writes the CRL's bytes, as [`Crl::encode_ref`] does, into a buffer of their own.
    ///
    /// # Errors
    ///
    /// As [`Crl::encode_ref`].
    pub fn to_captured(&self, alloc: Global) -> Result<Bytes, EncodeError>
        ensures ok { IfOk result (λ octets. octets ≡ signed_data self.now.list.signed_data) }
        ensures too_long { IsErrOf result EncodeError.TooLong
            → 2 ^ 32 ≤ length (signed_content self.now.list.signed_data) }
        ensures fits { IsOk result
            → length (signed_content self.now.list.signed_data) < 2 ^ 32 }
    {
        let mut octets = Vec::new(alloc);
        self.encode_ref(alloc, &mut octets)?;
        Ok(Bytes::from_vec(octets).map_err(AllocError::from)?)
    }

    /// Clones the CRL, and its table if it has one.
    pub fn try_clone(&self, alloc: Global) -> Result<Crl, AllocError>
        ensures { IfOk result (λ c. c ≡ self.now) }
    {
        let cache = match &self.cache {
            Some(table) => Some(table.try_clone(alloc)?),
            None => None,
        };
        let (cache, signed_data) = beside(cache, self.signed_data.try_clone(alloc))?;
        let both = beside(signed_data, self.list.try_clone(alloc));
        let (cache, (signed_data, list)) = beside(cache, both)?;
        Ok(Crl {
            list,
            signed_data,
            cache,
        })
    }
}
