//! Names, kept as they are encoded.
ghost use Rattle.rpki_parts.specs.KeyNames.{digit, hexadecimal, name_of_digits};
ghost use Rattle.std.specs.Prelude.{◌≡◌, ◌≢◌, ◌<◌, ◌++◌, IfOk, IfErr, OnOk, is_ok, is_some};
ghost use Rattle.rpki_der.specs.Answers.{AnswersOrMemory};
ghost use Rattle.rpki_der.specs.Place.{remaining, Keeps, MeansOrMemory};
ghost use Rattle.rpki_der.specs.Place.Reading.{Took, TookBy, TookOrMemory};
ghost use Rattle.rpki_der.specs.Reading.{map_value};
ghost use Rattle.rpki_der.specs.Sequences.Reading.{sequence_of};
ghost use Rattle.rpki_der.specs.Skipping.{levels};
ghost use Rattle.rpki_der.specs.Values.{AreOctets};
ghost use Rattle.rpki_der.specs.Writers.{Writes};
ghost use Rattle.rpki_der.specs.declared.error.DecodeError.TheVariants as decoding;
ghost use Rattle.rpki_der.specs.declared.error.EncodeError.TheVariants.{Memory};
ghost use Rattle.rpki_parts.specs.Names.{IsName, attribute_format, is_name, name_format, name_part, relative_distinguished_name_format, tag_within};

use crate::key::KeyIdentifier;
use bytes::Bytes;
use rpki_der::{Cursor, DecodeError, EncodeError, Piece, tag};
use std::alloc::{AllocError, Global};
use std::marker::Model;
use thiserror::Error;

// What stands in the name of a key before the 40 digits of its identifier: SEQUENCE, SET, SEQUENCE,
// CommonName, and the identifier octet and the length of a PrintableString.
const BEFORE_DIGITS: [u8; 13] = [
    0x30, 0x33, 0x31, 0x31, 0x30, 0x2F, 0x06, 0x03, 0x55, 0x04, 0x03, 0x13, 0x28,
];

/// A name of an issuer or a subject, kept as it was read (RFC 5280 4.1.2.4).
#[derive(Drop)]
pub struct Name {
    pub(crate) octets: Piece,
}

impl Model for Name {
    ghost use Rattle.std.specs.Prelude.{◌≡◌, List, ℕ, true};
    ghost use Rattle.rpki_parts.specs.Names.{is_name};

    ghost Value = { List ℕ };

    ghost view = { λ n. n.octets };

    ghost invariant = { λ n. is_name n.octets ≡ true };
}

// The identifier octet of the value that stands next and is skipped.
#[tactic(auto, unfolding(rpki_der::specs::Skipping::Reading::skip_at))]
fn skip_tagged(cursor: &mut Cursor<'_>) -> Result<u8, DecodeError>
    ensures reads { Took (tag_within levels) cursor.old result cursor.new }
    ensures keeps { Keeps result cursor.old cursor.new }
{
    match cursor.rest() {
        [] => Err(DecodeError::Truncated),
        [tag, ..] => {
            cursor.skip_one()?;
            Ok(*tag)
        }
    }
}

// The type of the attribute that stands next, and the identifier octet of its value.
#[tactic(auto, unfolding(crate::specs::Names::attribute_format))]
pub(crate) fn take_attribute<'a>(cursor: &mut Cursor<'a>) -> Result<(&'a [u8], u8), DecodeError>
    ensures reads { TookBy (λ x. record { type_id = x.0.now; value_tag = x.1 })
        (attribute_format levels).read cursor.old result cursor.new }
    ensures keeps { Keeps result cursor.old cursor.new }
{
    let mut ahead = cursor.fork();
    let mut content = ahead.take_sequence()?;
    let type_id = content.take_oid()?;
    let tag = skip_tagged(&mut content)?;
    content.finish()?;
    *cursor = ahead;
    Ok((type_id, tag))
}

// Whether these are attributes.
#[tactic(auto, using(rpki_der::proofs::Walks::one_more, rpki_der::proofs::Walks::no_more, rpki_der::proofs::Walks::at_end, crate::proofs::NameReads::attribute_shrinks))]
fn check_attributes(mut elements: Cursor<'_>) -> Result<(), DecodeError>
    ensures elements { is_ok result
        ≡ is_some (sequence_of (attribute_format levels).read (remaining elements.entry)) }
    ensures rejected { IfErr result (λ e. e ≢ decoding.Memory) }
{
    while !elements.is_empty() {
        take_attribute(&mut elements)?;
    }
    Ok(())
}

// Past the SET of at least one attribute that stands next.
#[tactic(auto, unfolding(crate::specs::Names::relative_distinguished_name_format))]
fn skip_part(cursor: &mut Cursor<'_>) -> Result<(), DecodeError>
    ensures reads { Took (map_value (λ _. tt) (relative_distinguished_name_format levels).read)
        cursor.old result cursor.new }
    ensures keeps { Keeps result cursor.old cursor.new }
{
    let mut ahead = cursor.fork();
    let set = ahead.take_value(tag::SET)?;
    if set.is_empty() {
        return Err(DecodeError::BadValue);
    }
    check_attributes(set)?;
    *cursor = ahead;
    Ok(())
}

// Whether these are parts of a name.
#[tactic(auto, using(rpki_der::proofs::Walks::one_made, rpki_der::proofs::Walks::none_made, rpki_der::proofs::Walks::at_end, crate::proofs::NameReads::part_shrinks))]
fn check_parts(mut elements: Cursor<'_>) -> Result<(), DecodeError>
    ensures { is_ok result ≡ is_some
        (sequence_of (relative_distinguished_name_format levels).read (remaining elements.entry)) }
{
    while !elements.is_empty() {
        skip_part(&mut elements)?;
    }
    Ok(())
}

// Whether the octets are a name.
#[tactic(auto, using(crate::proofs::NameReads::no_sequence, crate::proofs::NameReads::name_ends))]
fn check_name(mut octets: Cursor<'_>) -> Result<(), DecodeError>
    ensures { is_ok result ≡ is_name (remaining octets.entry) }
{
    let parts = octets.take_sequence()?;
    octets.finish()?;
    check_parts(parts)
}

// An upper-case hexadecimal digit.
fn digit(n: u8) -> u8
    requires { n < 16 }
    ensures { result ≡ digit n }
{
    if n < 10 { b'0' + n } else { b'A' + (n - 10) }
}

// Appends the digits of these octets.
fn put_digits(out: &mut Vec<u8>, octets: &[u8]) -> Result<(), AllocError>
    ensures { OnOk result (out.new.items ≡ out.old.items ++ hexadecimal octets.now) }
{
    for octet in octets {
        out.push(digit(*octet / 16))?;
        out.push(digit(*octet % 16))?;
    }
    Ok(())
}

impl Name {
    // The name of the key with this identifier.
    #[tactic(auto, using(crate::proofs::KeyNames::key_name))]
    pub(crate) fn of_key(alloc: Global, identifier: &KeyIdentifier) -> Result<Name, AllocError>
        ensures { IfOk result (λ n. n ≡ name_of_digits (hexadecimal identifier.now)) }
    {
        let mut octets = Vec::from_slice(alloc, &BEFORE_DIGITS)?;
        put_digits(&mut octets, identifier.as_octets())?;
        let octets = Piece::from(Bytes::from_vec(octets)?);
        Ok(Name { octets })
    }

    // The name that stands next, by the reading function.
    #[tactic(auto, using(crate::proofs::NameReads::name_none, rpki_der::proofs::Answering::took_none_or_memory), unfolding(crate::specs::Names::name_format))]
    fn read(alloc: Global, cursor: &mut Cursor<'_>) -> Result<Name, DecodeError>
        ensures reads { TookOrMemory (name_format levels).read cursor.old result cursor.new }
        ensures keeps { Keeps result cursor.old cursor.new }
        ensures octets { AreOctets (remaining cursor.old) }
    {
        let mut ahead = cursor.fork();
        // Another identifier is rejected as such, before its length is read.
        ahead.fork().take_sequence()?;
        let octets = ahead.capture_one(alloc)?;
        check_name(octets.cursor())?;
        *cursor = ahead;
        Ok(Name { octets })
    }

    /// Reads the name at the cursor: a SEQUENCE of SETs, each of at least one SEQUENCE of an OBJECT
    /// IDENTIFIER and a value (RFC 5280 4.1.2.4).
    ///
    /// # Errors
    ///
    /// Returns an error if the bytes at the cursor don't begin with a name, or if a value can't be
    /// skipped; which error is unspecified. Returns `Memory` if memory ran out. The cursor then
    /// stays where it was.
    ///
    /// # Not checked
    ///
    /// The contents of the values, the order of the attributes in a SET, and the form that the
    /// profile requires ([`Name::inspect_rpki`]).
    pub fn take_from(alloc: Global, cursor: &mut Cursor<'_>) -> Result<Name, DecodeError>
        ensures { AnswersOrMemory (name_format levels) cursor.old result cursor.new }
    {
        Name::read(alloc, cursor)
    }

    /// Reads the name that these bytes are, all of them. The name shares the buffer.
    ///
    /// # Errors
    ///
    /// Returns an error if they aren't one, as [`Name::take_from`] says, also if bytes follow it;
    /// which error is unspecified. Returns `Memory` if memory ran out.
    ///
    /// # Not checked
    ///
    /// The contents of the values, the order of the attributes in a SET, and the form that the
    /// profile requires ([`Name::inspect_rpki`]).
    #[tactic(auto, using(rpki_der::proofs::Answering::all_rejected))]
    pub fn from_bytes(alloc: Global, octets: Bytes) -> Result<Name, DecodeError>
        ensures { MeansOrMemory IsName result octets }
    {
        let mut cursor = Cursor::new(&octets);
        let name = Name::take_from(alloc, &mut cursor)?;
        if !cursor.is_empty() {
            drop(name);
            return Err(DecodeError::Trailing);
        }
        Ok(name)
    }

    /// Returns the bytes of the SEQUENCE.
    #[tactic(auto, using(crate::proofs::NameReads::name_is))]
    pub fn as_bytes(&self) -> &[u8]
        ensures octets { result.now ≡ self.now }
        ensures valid { IsName self.now self.now }
    {
        // Called for what it ensures alone.
        let _octets = self.octets.cursor();
        self.octets.as_bytes()
    }

    /// Appends the name as it was read or made.
    ///
    /// # Errors
    ///
    /// Returns `Memory` if memory ran out. `out` is then unchanged.
    #[tactic(auto, unfolding(crate::specs::Names::name_format))]
    pub fn encode_ref(&self, _alloc: Global, out: &mut Vec<u8>) -> Result<(), EncodeError>
        ensures writes { Writes (name_part self.now) out.old.items result out.new.items }
        ensures memory { IfErr result (λ e. e ≡ Memory) }
    {
        out.extend_from_slice(self.as_bytes())?;
        Ok(())
    }

    /// Clones the name.
    ///
    /// # Errors
    ///
    /// Returns an error if memory ran out.
    pub fn try_clone(&self, alloc: Global) -> Result<Name, AllocError>
        ensures { IfOk result (λ n. n ≡ self.now) }
    {
        let octets = self.octets.try_clone(alloc)?;
        Ok(Name { octets })
    }
}

/// A name isn't of the form that the profile requires (RFC 6487 4.4, 4.5, RFC 8209 3.1.1).
#[derive(Debug, Clone, Copy, PartialEq, Eq, Error)]
#[error("invalid name")]
pub struct InvalidName;

impl InvalidName {
    ghost use Rattle.std.specs.Prelude.{codes};

    /// Returns the type's name.
    pub fn name(&self) -> &'static str
        ensures { result.now ≡ codes "InvalidName" }
    {
        "InvalidName"
    }
}
