//! Public keys and their identifiers.
ghost use Rattle.std.specs.Prelude.{◌≡◌, ◌↔◌, ◌%◌, ◌^◌, ◌<◌, ◌++◌, length, take, IfOk, IfErr, IfSome, IsSome, IsTrue, OnErr, OnOk, Some};
ghost use Rattle.rpki_der.specs.Values.{AreOctets};
ghost use Rattle.rpki_der.specs.Answers.{Answers, AnswersOrMemory};
ghost use Rattle.rpki_der.specs.Formats.{part};
ghost use Rattle.rpki_der.specs.Writers.{SaysLong, Writes, value};
ghost use Rattle.rpki_der.specs.Place.{remaining, IsWithin, Keeps, MeansOrMemory};
ghost use Rattle.rpki_der.specs.Place.Reading.{Took, TookBy, TookOrMemory};
ghost use Rattle.rpki_parts.specs.Keys.{KeyFields, IsPublicKey, key_identifier};
ghost use Rattle.rpki_parts.specs.Keys.{key_algorithm_format, key_identifier_format, public_key_format, whole_bits_format};
ghost use Rattle.rpki_parts.specs.KeyNames.{hexadecimal, subject_name};
ghost use Rattle.rpki_der.specs.declared.error.EncodeError.TheVariants.{Memory};

use crate::algorithm::take_opt_null;
use crate::name::Name;
use bytes::Bytes;
use rpki_der::{
    Cursor, DecodeError, EncodeError, Piece, end_value, put_bits, put_value, tag, write_hexadecimal,
};
use sha1::Sha1;
use std::alloc::{AllocError, Global};
use std::fmt;
use std::marker::Model;

// The contents of identifiers.
const RSA_ENCRYPTION: &[u8] = &[0x2A, 0x86, 0x48, 0x86, 0xF7, 0x0D, 0x01, 0x01, 0x01];

const EC_PUBLIC_KEY: &[u8] = &[0x2A, 0x86, 0x48, 0xCE, 0x3D, 0x02, 0x01];

const PRIME256V1: &[u8] = &[0x2A, 0x86, 0x48, 0xCE, 0x3D, 0x03, 0x01, 0x07];

// What is written of the algorithm of an RSA key, and of a P-256 key.
const RSA: &[u8] = &[
    0x30, 0x0D, 0x06, 0x09, 0x2A, 0x86, 0x48, 0x86, 0xF7, 0x0D, 0x01, 0x01, 0x01, 0x05, 0x00,
];

const P256: &[u8] = &[
    0x30, 0x13, 0x06, 0x07, 0x2A, 0x86, 0x48, 0xCE, 0x3D, 0x02, 0x01, 0x06, 0x08, 0x2A, 0x86, 0x48,
    0xCE, 0x3D, 0x03, 0x01, 0x07,
];

/// The identifier of a key: the 20 bytes of the SHA-1 hash of its bits (RFC 5280 4.2.1.2, RFC 6487
/// 4.8.2).
#[derive(Clone, Copy)]
pub struct KeyIdentifier {
    octets: [u8; 20],
}

impl Model for KeyIdentifier {
    ghost use Rattle.std.specs.Prelude.{List, ℕ};

    ghost Value = { List ℕ };

    ghost view = { λ k. k.octets };

    ghost inverse = { λ b. record { octets = b } };
}

/// Writes the 40 upper-case hexadecimal digits of its bytes.
impl fmt::Display for KeyIdentifier {
    ghost output = { λ k. Some (hexadecimal k) };

    fn fmt<W: fmt::Write>(&self, f: &mut fmt::Formatter<W>) -> fmt::Result {
        write_hexadecimal(f, &self.octets)
    }
}

impl KeyIdentifier {
    /// Makes the identifier with these 20 bytes.
    pub fn from_octets(octets: [u8; 20]) -> KeyIdentifier
        ensures { result ≡ octets }
    {
        KeyIdentifier { octets }
    }

    /// Makes the identifier with these bytes. Returns `None` if there aren't 20.
    pub fn from_slice(octets: &[u8]) -> Option<KeyIdentifier>
        ensures twenty { IsSome result ↔ length octets.now ≡ 20 }
        ensures same { IfSome result (λ k. k ≡ octets.now) }
    {
        match <[u8; 20]>::try_from(octets) {
            Ok(octets) => Some(KeyIdentifier { octets }),
            Err(_) => None,
        }
    }

    /// Returns its 20 bytes.
    pub fn as_octets(&self) -> &[u8; 20]
        ensures same { result.now ≡ self.now }
        ensures size { length self.now ≡ 20 }
        ensures octets { AreOctets self.now }
    {
        let octets = self.octets.as_slice();
        // Called for what it ensures alone.
        let _all = &octets[0..20];
        &self.octets
    }

    // The identifier that stands next, by the reading function.
    #[tactic(auto, unfolding(crate::specs::Keys::key_identifier_format))]
    fn read(cursor: &mut Cursor<'_>) -> Result<KeyIdentifier, DecodeError>
        ensures reads { Took key_identifier_format.read cursor.old result cursor.new }
        ensures keeps { Keeps result cursor.old cursor.new }
        ensures octets { AreOctets (remaining cursor.old) }
    {
        let mut ahead = cursor.fork();
        let content = ahead.take_value(tag::OCTET_STRING)?;
        let Ok(octets) = <[u8; 20]>::try_from(content.rest()) else {
            return Err(DecodeError::BadValue);
        };
        *cursor = ahead;
        Ok(KeyIdentifier { octets })
    }

    /// Reads the identifier at the cursor, an OCTET STRING of 20 bytes.
    ///
    /// # Errors
    ///
    /// Returns an error if the bytes at the cursor don't begin with such an OCTET STRING; which
    /// error is unspecified. The cursor then stays where it was.
    #[tactic(auto, using(rpki_der::proofs::FormatAnswers::answers_alone, crate::proofs::PartFormats::key_identifier_alone))]
    pub fn take_from(cursor: &mut Cursor<'_>) -> Result<KeyIdentifier, DecodeError>
        ensures { Answers key_identifier_format cursor.old result cursor.new }
    {
        KeyIdentifier::read(cursor)
    }

    /// Appends the identifier as an OCTET STRING.
    ///
    /// # Errors
    ///
    /// Returns `Memory` if memory ran out. `out` is then unchanged.
    #[tactic(auto, unfolding(crate::specs::Keys::key_identifier_format))]
    pub fn encode_ref(&self, alloc: Global, out: &mut Vec<u8>) -> Result<(), EncodeError>
        ensures writes { Writes (part key_identifier_format self.now) out.old.items result out.new.items }
        ensures memory { IfErr result (λ e. e ≡ Memory) }
    {
        self.encode_ref_as(alloc, out, tag::OCTET_STRING)
    }

    /// Appends the identifier under another identifier octet, whose low five bits aren't all ones.
    ///
    /// # Errors
    ///
    /// Returns `Memory` if memory ran out. `out` is then unchanged.
    pub fn encode_ref_as(
        &self,
        _alloc: Global,
        out: &mut Vec<u8>,
        tag: u8,
    ) -> Result<(), EncodeError>
        requires { tag % 32 < 31 }
        ensures writes { Writes (value tag self.now) out.old.items result out.new.items }
        ensures memory { IfErr result (λ e. e ≡ Memory) }
    {
        put_value(out, tag, &self.octets)
    }
}

impl PartialEq for KeyIdentifier {
    ghost use Rattle.std.specs.Prelude.{bytes_eq};
    ghost use Rattle.std.proofs.Common.{rules};
    ghost use Rattle.std.specs.Cmp.Rules.{comparing};

    ghost eq = { bytes_eq };

    ghost laws = { Prim.search (comparing, rules) };

    fn eq(&self, other: &KeyIdentifier) -> bool {
        self.octets == other.octets
    }
}

impl Eq for KeyIdentifier {
    ghost use Rattle.std.proofs.Common.{rules};
    ghost use Rattle.std.specs.Cmp.Rules.{comparing};

    ghost laws = { Prim.search (comparing, rules) };
}

/// The kind of a public key: of a certificate (RFC 7935 3), or of a BGPsec router (RFC 8608 3).
#[derive(Debug, Clone, Copy, PartialEq, Eq)]
pub enum PublicKeyFormat {
    /// An RSA key.
    Rsa,
    /// An ECDSA key on the curve P-256.
    EcdsaP256,
}

impl PublicKeyFormat {
    // The AlgorithmIdentifier that is written of it.
    fn algorithm(self) -> &'static [u8]
        ensures { result.now ≡ key_algorithm_format.written self }
    {
        match self {
            PublicKeyFormat::Rsa => RSA,
            PublicKeyFormat::EcdsaP256 => P256,
        }
    }
}

// The algorithm of the key that stands next.
#[tactic(auto, unfolding(crate::specs::Keys::key_algorithm_format))]
#[inline(always)]
fn take_format(cursor: &mut Cursor<'_>) -> Result<PublicKeyFormat, DecodeError>
    ensures reads { Took key_algorithm_format.read cursor.old result cursor.new }
    ensures keeps { Keeps result cursor.old cursor.new }
{
    let mut ahead = cursor.fork();
    let mut content = ahead.take_sequence()?;
    let id = content.take_oid()?;
    let format = if id == RSA_ENCRYPTION {
        take_opt_null(&mut content)?;
        PublicKeyFormat::Rsa
    } else if id == EC_PUBLIC_KEY && content.take_oid()? == PRIME256V1 {
        PublicKeyFormat::EcdsaP256
    } else {
        return Err(DecodeError::BadValue);
    };
    content.finish()?;
    *cursor = ahead;
    Ok(format)
}

// A cursor over the octets of the BIT STRING that stands next, of which no bits are unused.
#[tactic(auto, unfolding(crate::specs::Keys::whole_bits_format))]
#[inline(always)]
pub(crate) fn take_whole_bits<'a>(cursor: &mut Cursor<'a>) -> Result<Cursor<'a>, DecodeError>
    ensures reads { TookBy remaining whole_bits_format.read cursor.old result cursor.new }
    ensures keeps { Keeps result cursor.old cursor.new }
    ensures inside { IfOk result (λ c. IsWithin c cursor.old) }
{
    let mut ahead = cursor.fork();
    let (unused, octets) = ahead.take_bits()?;
    if unused != 0 {
        return Err(DecodeError::BadValue);
    }
    *cursor = ahead;
    Ok(octets)
}

/// A public key: its kind and its bits, which aren't interpreted.
#[derive(Drop)]
pub struct PublicKey {
    format: PublicKeyFormat,
    bits: Piece,
}

impl Model for PublicKey {
    ghost use Rattle.rpki_parts.specs.Keys.{KeyFields};

    ghost Value = { KeyFields };

    ghost view = { λ k. record { format = k.format; bits = k.bits } };
}

impl PublicKey {
    ghost use Rattle.rpki_parts.specs.declared.key.PublicKeyFormat.TheVariants.{Rsa, EcdsaP256};

    /// Makes the key with these bits: the bytes of the BIT STRING, without the count of unused
    /// bits.
    ///
    /// # Not checked
    ///
    /// Whether the bits are those of a key of this kind.
    pub fn new(format: PublicKeyFormat, bits: Bytes) -> PublicKey
        ensures { result ≡ record { format = format; bits = bits } }
    {
        PublicKey {
            format,
            bits: Piece::from(bits),
        }
    }

    // The key that stands next, by the reading function.
    #[tactic(auto, unfolding(crate::specs::Keys::public_key_format))]
    fn read(alloc: Global, cursor: &mut Cursor<'_>) -> Result<PublicKey, DecodeError>
        ensures reads { TookOrMemory public_key_format.read cursor.old result cursor.new }
        ensures keeps { Keeps result cursor.old cursor.new }
        ensures octets { AreOctets (remaining cursor.old) }
    {
        let mut ahead = cursor.fork();
        let mut content = ahead.take_sequence()?;
        let format = take_format(&mut content)?;
        let mut bits = take_whole_bits(&mut content)?;
        content.finish()?;
        let bits = bits.capture_rest(alloc)?;
        *cursor = ahead;
        Ok(PublicKey { format, bits })
    }

    /// Reads the SubjectPublicKeyInfo at the cursor (RFC 5280 4.1.2.7).
    ///
    /// # Errors
    ///
    /// Returns an error if the bytes at the cursor don't begin with the SubjectPublicKeyInfo of an
    /// RSA key or a P-256 key without unused bits (own); which error is unspecified. Returns
    /// `Memory` if memory ran out. The cursor then stays where it was.
    ///
    /// # Not checked
    ///
    /// The bits: whether they are those of a key of this kind.
    pub fn take_from(alloc: Global, cursor: &mut Cursor<'_>) -> Result<PublicKey, DecodeError>
        ensures { AnswersOrMemory public_key_format cursor.old result cursor.new }
    {
        PublicKey::read(alloc, cursor)
    }

    /// Reads the SubjectPublicKeyInfo that these bytes are, all of them. The key shares the buffer.
    ///
    /// # Errors
    ///
    /// Returns an error if they aren't one, as [`PublicKey::take_from`] says, also if bytes follow
    /// it; which error is unspecified. Returns `Memory` if memory ran out.
    ///
    /// # Not checked
    ///
    /// The bits: whether they are those of a key of this kind.
    pub fn from_bytes(alloc: Global, octets: Bytes) -> Result<PublicKey, DecodeError>
        ensures { MeansOrMemory IsPublicKey result octets }
    {
        let mut cursor = Cursor::new(&octets);
        let key = PublicKey::take_from(alloc, &mut cursor)?;
        if !cursor.is_empty() {
            drop(key);
            return Err(DecodeError::Trailing);
        }
        Ok(key)
    }

    // Appends what stands inside the SEQUENCE, or a part of it where it errs.
    #[tactic(auto, unfolding(crate::specs::Keys::public_key_format, crate::specs::Keys::whole_bits_format))]
    fn append_content(&self, out: &mut Vec<u8>) -> Result<(), EncodeError>
        ensures ok { OnOk result
            (out.new.items ≡ out.old.items ++ (part public_key_format self.now).inside) }
        ensures err { OnErr result (take (length out.old.items) out.new.items ≡ out.old.items) }
        ensures too_long { SaysLong result (part public_key_format self.now).inside }
    {
        out.extend_from_slice(self.format.algorithm())?;
        put_bits(out, 0, self.bits())
    }

    /// Appends the SubjectPublicKeyInfo, of an RSA key with NULL behind rsaEncryption (RFC 5280
    /// 4.1.2.7, RFC 3279 2.3.1).
    ///
    /// # Errors
    ///
    /// Returns `TooLong` if the content would have 2^32 bytes or more, or `Memory`. `out` is then
    /// unchanged.
    #[tactic(auto, unfolding(crate::specs::Keys::public_key_format))]
    pub fn encode_ref(&self, _alloc: Global, out: &mut Vec<u8>) -> Result<(), EncodeError>
        ensures { Writes (part public_key_format self.now) out.old.items result out.new.items }
    {
        let start = out.len();
        let content = self.append_content(out);
        end_value(out, start, tag::SEQUENCE, content)
    }

    /// Returns the kind of the key.
    pub fn algorithm(&self) -> PublicKeyFormat
        ensures { result ≡ self.now.format }
    {
        self.format
    }

    /// Returns the key's bits: the bytes of the BIT STRING, without the count of unused bits.
    pub fn bits(&self) -> &[u8]
        ensures same { result.now ≡ self.now.bits }
        ensures octets { AreOctets self.now.bits }
    {
        // Called for what it ensures alone.
        let _octets = self.bits.cursor();
        self.bits.as_bytes()
    }

    /// Returns a cursor over the key's bits.
    pub fn bits_cursor(&self) -> Cursor<'_>
        ensures { remaining result ≡ self.now.bits }
    {
        self.bits.cursor()
    }

    /// Returns the SHA-1 hash of the key's bits (RFC 6487 4.8.2).
    pub fn key_identifier(&self) -> KeyIdentifier
        ensures { result ≡ key_identifier self.now }
    {
        KeyIdentifier::from_octets(Sha1::digest(self.bits()))
    }

    /// Makes the subject's name for a certificate of this key (RFC 6487 4.5): one CommonName, the
    /// 40 upper-case hexadecimal digits of the key identifier (own).
    ///
    /// # Errors
    ///
    /// Returns `Memory` if memory ran out.
    pub fn to_subject_name(&self, alloc: Global) -> Result<Name, EncodeError>
        ensures ok { IfOk result (λ n. n ≡ subject_name self.now) }
        ensures memory { IfErr result (λ e. e ≡ Memory) }
    {
        Ok(Name::of_key(alloc, &self.key_identifier())?)
    }

    /// Returns whether a certificate other than a router's may have the key: whether it is an RSA
    /// key (RFC 7935 3).
    pub fn allow_rpki_cert(&self) -> bool
        ensures { IsTrue result ↔ (self.now.format ≡ Rsa) }
    {
        self.format == PublicKeyFormat::Rsa
    }

    /// Returns whether a router's certificate may have the key: whether it is a P-256 key (RFC 8608
    /// 3).
    pub fn allow_router_cert(&self) -> bool
        ensures { IsTrue result ↔ (self.now.format ≡ EcdsaP256) }
    {
        self.format == PublicKeyFormat::EcdsaP256
    }

    /// Clones the key.
    ///
    /// # Errors
    ///
    /// Returns an error if memory ran out.
    pub fn try_clone(&self, alloc: Global) -> Result<PublicKey, AllocError>
        ensures { IfOk result (λ k. k ≡ self.now) }
    {
        let bits = self.bits.try_clone(alloc)?;
        Ok(PublicKey {
            format: self.format,
            bits,
        })
    }
}
