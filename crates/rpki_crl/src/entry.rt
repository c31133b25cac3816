//! An entry of a CRL.
ghost use Rattle.std.specs.Prelude.{◌≡◌, ◌<◌, ◌++◌, length, take, OnOk, OnErr, IfErr};
ghost use Rattle.rpki_der.specs.Place.{remaining, Keeps, AnswersOptionalBy};
ghost use Rattle.rpki_der.specs.Answers.{AnswersBy};
ghost use Rattle.rpki_der.specs.Place.Reading.{TookBy};
ghost use Rattle.rpki_der.specs.Values.{AreOctets};
ghost use Rattle.rpki_der.specs.Tags.{SEQUENCE};
ghost use Rattle.rpki_der.specs.declared.error.EncodeError.TheVariants.{Memory};
ghost use Rattle.rpki_crl.specs.RevokedEntries.{IsEntry, entry, entry_content_format, entry_format, FitsEntry};
ghost use Rattle.rpki_crl.specs.RevokedEntries.Views.{entry_of};

use rpki_der::{Cursor, DecodeError, EncodeError, Serial, Time, end_value, tag};
use std::alloc::Global;

/// A revoked certificate: its serial number, and its revocation date (RFC 5280 5.1.2.6).
#[derive(Clone, Copy)]
pub struct CrlEntry {
    /// The serial number of the certificate.
    pub user_certificate: Serial,
    /// The time from which it is revoked.
    pub revocation_date: Time,
}

impl CrlEntry {
    /// Makes the entry with this serial number and time.
    pub fn new(user_certificate: Serial, revocation_date: Time) -> CrlEntry
        ensures serial { result.user_certificate ≡ user_certificate }
        ensures date { result.revocation_date ≡ revocation_date }
    {
        CrlEntry {
            user_certificate,
            revocation_date,
        }
    }

    // Reads the content of the SEQUENCE, by the reading function.
    #[tactic(auto, unfolding(crate::specs::RevokedEntries::entry_content_format))]
    #[inline(always)]
    fn take_content(content: &mut Cursor<'_>) -> Result<CrlEntry, DecodeError>
        ensures reads { TookBy entry_of entry_content_format.read content.old result content.new }
        ensures keeps { Keeps result content.old content.new }
        ensures octets { AreOctets (remaining content.old) }
    {
        let mut ahead = content.fork();
        let user_certificate = Serial::take_from(&mut ahead)?;
        let revocation_date = Time::take_from(&mut ahead)?;
        *content = ahead;
        Ok(CrlEntry {
            user_certificate,
            revocation_date,
        })
    }

    // Reads the next entry, by the reading function.
    #[tactic(auto, unfolding(crate::specs::RevokedEntries::entry_format))]
    #[inline(always)]
    fn take_entry(cursor: &mut Cursor<'_>) -> Result<CrlEntry, DecodeError>
        ensures reads { TookBy entry_of entry_format.read cursor.old result cursor.new }
        ensures keeps { Keeps result cursor.old cursor.new }
        ensures octets { AreOctets (remaining cursor.old) }
    {
        let mut ahead = cursor.fork();
        let mut content = ahead.take_sequence()?;
        let entry = CrlEntry::take_content(&mut content)?;
        content.finish()?;
        *cursor = ahead;
        Ok(entry)
    }

    /// Reads the next entry: the SEQUENCE of a serial number and a time (RFC 5280 5.1).
    ///
    /// # Errors
    ///
    /// Returns an error if the next value is no entry.
    #[tactic(auto, using(rpki_der::proofs::FormatAnswers::answers_alone, crate::proofs::EntryReads::entry_alone))]
    #[inline(always)]
    pub fn take_from(cursor: &mut Cursor<'_>) -> Result<CrlEntry, DecodeError>
        ensures { AnswersBy entry_of entry_format cursor.old result cursor.new }
    {
        CrlEntry::take_entry(cursor)
    }

    /// Reads the entry if the next value is a SEQUENCE. Returns `None` at the end and before
    /// another identifier octet (RFC 5280 5.1).
    pub fn take_opt_from(cursor: &mut Cursor<'_>) -> Result<Option<CrlEntry>, DecodeError>
        ensures answers { AnswersOptionalBy entry_of SEQUENCE IsEntry cursor.old result cursor.new }
        ensures keeps { Keeps result cursor.old cursor.new }
    {
        match cursor.rest() {
            [tag::SEQUENCE, ..] => Ok(Some(CrlEntry::take_from(cursor)?)),
            _ => Ok(None),
        }
    }

    /// Reads the content of an entry's SEQUENCE, without its identifier and length (RFC 5280 5.1).
    #[tactic(auto, using(rpki_der::proofs::FormatAnswers::answers_alone, crate::proofs::EntryReads::entry_content_alone))]
    pub fn from_constructed(content: &mut Cursor<'_>) -> Result<CrlEntry, DecodeError>
        ensures { AnswersBy entry_of entry_content_format content.old result content.new }
    {
        CrlEntry::take_content(content)
    }

    // Appends both, or a part of them if memory runs out.
    #[tactic(auto, unfolding(crate::specs::RevokedEntries::entry_content_format))]
    fn append_content(self, alloc: Global, out: &mut Vec<u8>) -> Result<(), EncodeError>
        ensures ok { OnOk result
            (out.new.items ≡ out.old.items ++ entry_content_format.written (entry_of self)) }
        ensures err { OnErr result (take (length out.old.items) out.new.items ≡ out.old.items) }
        ensures memory { IfErr result (λ e. e ≡ Memory) }
        ensures fits { FitsEntry (entry_of self) }
    {
        self.user_certificate.encode(alloc, out)?;
        self.revocation_date.encode_varied(alloc, out)
    }

    /// Appends the entry: the SEQUENCE of its serial number and its time (RFC 5280 5.1).
    ///
    /// # Errors
    ///
    /// Returns `Memory` only.
    #[tactic(auto, unfolding(crate::specs::RevokedEntries::entry_format))]
    pub fn encode(self, alloc: Global, out: &mut Vec<u8>) -> Result<(), EncodeError>
        ensures ok { OnOk result (out.new.items ≡ out.old.items ++ entry (entry_of self)) }
        ensures err { OnErr result (out.new.items ≡ out.old.items) }
        ensures memory { IfErr result (λ e. e ≡ Memory) }
        ensures fits { FitsEntry (entry_of self) }
    {
        let start = out.len();
        let content = self.append_content(alloc, out);
        end_value(out, start, tag::SEQUENCE, content)
    }
}
