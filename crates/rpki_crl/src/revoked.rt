//! The revoked certificates of a CRL.
ghost use Rattle.std.specs.Prelude.{◌≡◌, ◌↔◌, IsTrue, IfOk, IfErr, map};
ghost use Rattle.rpki_der.specs.declared.error.EncodeError.TheVariants.{Memory};
ghost use Rattle.rpki_der.specs.Place.{remaining, Keeps};
ghost use Rattle.rpki_der.specs.Place.Reading.{Returns, ReturnsOrMemory, TookOrMemory};
ghost use Rattle.rpki_der.specs.Tags.{SEQUENCE};
ghost use Rattle.rpki_der.specs.Values.{AreOctets};
ghost use Rattle.rpki_der.specs.Writers.{Writes};
ghost use Rattle.rpki_der.specs.Answers.{AnswersOrAbsentOrMemory};
ghost use Rattle.rpki_crl.specs.RevokedEntries.{AreEntries, IsRevoked, entries, entries_pass, no_entries, revoked_format, revoked_of, revoked_part};
ghost use Rattle.rpki_crl.specs.RevokedEntries.Views.{entry_of};
ghost use Rattle.rpki_crl.specs.SerialTables.{looks};

use crate::entry::CrlEntry;
use bytes::Bytes;
use rpki_der::{Cursor, DecodeError, EncodeError, Piece, Serial, put_value, tag};
use std::alloc::{AllocError, Global};
use std::marker::Model;

/// The revoked certificates of a CRL, kept as the bytes that encode them: always a SEQUENCE OF
/// entries, without identifier and length (RFC 5280 5.1.2.6).
#[derive(Drop)]
pub struct RevokedCertificates {
    octets: Piece,
}

impl Model for RevokedCertificates {
    ghost use Rattle.std.specs.Prelude.{◌≡◌, Some};
    ghost use Rattle.rpki_crl.specs.RevokedEntries.{Revoked};
    ghost use Rattle.rpki_crl.specs.RevokedEntries.{entries_in, entries_pass};

    ghost Value = { Revoked };

    ghost view = { λ r. record { entries = entries_in r.octets; octets = r.octets } };

    ghost invariant = { λ r. entries_pass r.octets ≡ Some tt };
}

/// The entries of a CRL, in their order.
#[derive(Drop)]
pub struct RevokedCertificatesIter<'a> {
    rest: Cursor<'a>,
}

impl<'a> Model for RevokedCertificatesIter<'a> {
    ghost use Rattle.std.specs.Prelude.{◌≡◌, List, Some};
    ghost use Rattle.rpki_der.specs.Place.{remaining};
    ghost use Rattle.rpki_crl.specs.RevokedEntries.{Entry};
    ghost use Rattle.rpki_crl.specs.RevokedEntries.{entries_in, entries_pass};

    ghost Value = { List Entry };

    ghost view = { λ i. entries_in (remaining i.rest) };

    ghost invariant = { λ i. entries_pass (remaining i.rest) ≡ Some tt };
}

impl<'a> Iterator for RevokedCertificatesIter<'a> {
    ghost use Rattle.std.specs.Iterator.{YieldsFirstBy, item_count};
    ghost use Rattle.rpki_crl.specs.RevokedEntries.Views.{entry_of};

    type Item = CrlEntry;

    ghost next_gives = { YieldsFirstBy entry_of (λ entries. entries) };

    ghost remaining = { item_count (λ entries. entries) };

    fn next(&mut self) -> Option<CrlEntry> {
        if self.rest.is_empty() {
            return None;
        }
        let Ok(entry) = CrlEntry::take_from(&mut self.rest) else {
            unreachable!()
        };
        Some(entry)
    }
}

// Checks that the remaining bytes are a sequence of entries.
fn check(cursor: &Cursor<'_>) -> Result<(), DecodeError>
    ensures { Returns result (entries_pass (remaining cursor.now)) }
{
    let mut rest = cursor.fork();
    while !rest.is_empty() {
        let _entry = CrlEntry::take_from(&mut rest)?;
    }
    Ok(())
}

// The content of the SEQUENCE, if it is a sequence of entries.
#[tactic(auto, unfolding(crate::specs::RevokedEntries::revoked_of))]
fn kept(alloc: Global, content: &mut Cursor<'_>) -> Result<RevokedCertificates, DecodeError>
    ensures { ReturnsOrMemory result (revoked_of (remaining content.old)) }
{
    check(content)?;
    let octets = content.capture_rest(alloc)?;
    Ok(RevokedCertificates { octets })
}

impl RevokedCertificates {
    // No entries, in an empty vector.
    fn none() -> RevokedCertificates
        ensures { result ≡ no_entries }
    {
        RevokedCertificates {
            octets: Piece::from(Bytes::new()),
        }
    }

    /// Makes revoked certificates without entries.
    pub fn empty(_alloc: Global) -> RevokedCertificates
        ensures { result ≡ no_entries }
    {
        RevokedCertificates::none()
    }

    /// Makes revoked certificates of the entries of a slice, in their order.
    ///
    /// # Errors
    ///
    /// Returns `Memory` only.
    pub(crate) fn from_entries(
        alloc: Global,
        elements: &[CrlEntry],
    ) -> Result<RevokedCertificates, EncodeError>
        ensures entries { IfOk result (λ r. r.entries ≡ map entry_of elements.now) }
        ensures octets { IfOk result (λ r. r.octets ≡ entries (map entry_of elements.now)) }
        ensures memory { IfErr result (λ e. e ≡ Memory) }
    {
        let mut octets = Vec::new(alloc);
        for entry in elements {
            entry.encode(alloc, &mut octets)?;
        }
        let octets = Bytes::from_vec(octets).map_err(AllocError::from)?;
        Ok(RevokedCertificates {
            octets: Piece::from(octets),
        })
    }

    // Reads the next SEQUENCE of entries, by the reading function.
    #[tactic(auto, unfolding(crate::specs::RevokedEntries::revoked_format))]
    pub(crate) fn read(
        alloc: Global,
        cursor: &mut Cursor<'_>,
    ) -> Result<RevokedCertificates, DecodeError>
        ensures reads { TookOrMemory revoked_format.read cursor.old result cursor.new }
        ensures keeps { Keeps result cursor.old cursor.new }
        ensures octets { AreOctets (remaining cursor.old) }
    {
        let mut ahead = cursor.fork();
        let list = match ahead.take_opt_sequence()? {
            Some(mut content) => kept(alloc, &mut content)?,
            None => RevokedCertificates::none(),
        };
        *cursor = ahead;
        Ok(list)
    }

    /// Reads the next SEQUENCE of entries (RFC 5280 5.1). If the next value is no SEQUENCE, the
    /// result has no entries.
    ///
    /// # Errors
    ///
    /// Returns an error if the next value is a SEQUENCE, but not of entries, and `Memory`.
    #[tactic(auto, using(crate::proofs::ListReads::answers_revoked))]
    pub fn take_from(
        alloc: Global,
        cursor: &mut Cursor<'_>,
    ) -> Result<RevokedCertificates, DecodeError>
        ensures { AnswersOrAbsentOrMemory SEQUENCE revoked_format cursor.old result cursor.new }
    {
        RevokedCertificates::read(alloc, cursor)
    }

    /// Iterates over the entries, in their order. Takes no memory.
    pub fn iter(&self) -> RevokedCertificatesIter<'_>
        ensures all { result ≡ self.now.entries }
        ensures entries { AreEntries self.now.entries self.now.octets }
    {
        RevokedCertificatesIter {
            rest: self.octets.cursor(),
        }
    }

    /// Returns whether some entry has this serial number. Takes no memory.
    pub fn contains(&self, serial: Serial) -> bool
        ensures entries { AreEntries self.now.entries self.now.octets }
        ensures revoked { IsTrue result ↔ IsRevoked serial self.now.entries }
    {
        self.contains_counted(serial).0
    }

    /// Returns whether some entry has this serial number, and how many entries the search read.
    pub(crate) fn contains_counted(&self, serial: Serial) -> (bool, usize)
        ensures entries { AreEntries self.now.entries self.now.octets }
        ensures revoked { IsTrue result.0 ↔ IsRevoked serial self.now.entries }
        ensures looks { result.1 ≡ looks serial self.now.entries }
    {
        // For the proof only: there are fewer entries than octets.
        let _len = self.octets.as_bytes().len();
        let mut rest = self.octets.cursor();
        let mut count = 0;
        while !rest.is_empty() {
            let Ok(entry) = CrlEntry::take_from(&mut rest) else {
                unreachable!()
            };
            count += 1;
            if entry.user_certificate == serial {
                return (true, count);
            }
        }
        (false, count)
    }

    /// Appends the SEQUENCE of the entries, as they were read or made; nothing if there are none
    /// (RFC 5280 5.1.2.6).
    ///
    /// # Errors
    ///
    /// Returns `TooLong` if they have 2^32 bytes or more, and `Memory`.
    #[tactic(auto, unfolding(crate::specs::RevokedEntries::revoked_format))]
    pub fn encode_ref(&self, _alloc: Global, out: &mut Vec<u8>) -> Result<(), EncodeError>
        ensures { Writes (revoked_part self.now) out.old.items result out.new.items }
    {
        let octets = self.octets.as_bytes();
        if octets.is_empty() {
            return Ok(());
        }
        put_value(out, tag::SEQUENCE, octets)
    }

    /// Clones the entries.
    pub fn try_clone(&self, alloc: Global) -> Result<RevokedCertificates, AllocError>
        ensures { IfOk result (λ r. r ≡ self.now) }
    {
        let octets = self.octets.try_clone(alloc)?;
        Ok(RevokedCertificates { octets })
    }
}
