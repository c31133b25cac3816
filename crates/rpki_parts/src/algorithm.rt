//! The signature algorithm, read and written.
ghost use Rattle.std.specs.Prelude.{◌≡◌, IfErr};
ghost use Rattle.rpki_der.specs.declared.error.EncodeError.TheVariants.{Memory};
ghost use Rattle.rpki_der.specs.Answers.{Answers};
ghost use Rattle.rpki_der.specs.Formats.{part};
ghost use Rattle.rpki_der.specs.Place.{remaining, Keeps};
ghost use Rattle.rpki_der.specs.Place.Reading.{Took};
ghost use Rattle.rpki_der.specs.Values.{AreOctets};
ghost use Rattle.rpki_der.specs.Writers.{Writes};
ghost use Rattle.rpki_parts.specs.Algorithms.{algorithm_format, null_or_none, sha256_with_rsa};
ghost use Rattle.rpki_parts.specs.Algorithms.{with_null, without_null};

use rpki_der::{Cursor, DecodeError, EncodeError, put_value, tag};
use std::alloc::Global;
use std::marker::Model;

// What stands in the SEQUENCE: the identifier, and NULL.
const WITH_NULL: [u8; 13] = [
    0x06, 0x09, 0x2A, 0x86, 0x48, 0x86, 0xF7, 0x0D, 0x01, 0x01, 0x0B, 0x05, 0x00,
];

// The content of the identifier.
fn identifier() -> &'static [u8]
    ensures { result.now ≡ sha256_with_rsa }
{
    &WITH_NULL[2..11]
}

// Whether NULL stands next, which is then read.
#[inline(always)]
pub(crate) fn take_opt_null(cursor: &mut Cursor<'_>) -> Result<bool, DecodeError>
    ensures reads { Took null_or_none.read cursor.old result cursor.new }
    ensures keeps { Keeps result cursor.old cursor.new }
{
    match cursor.rest() {
        [tag::NULL, ..] => {
            cursor.take_null()?;
            Ok(true)
        }
        _ => Ok(false),
    }
}

/// The signature algorithm of the RPKI, sha256WithRSAEncryption (RFC 7935 2). Its parameters are
/// NULL or absent (RFC 4055 5), which is kept.
#[derive(Clone, Copy, PartialEq, Eq)]
pub struct RpkiSignatureAlgorithm {
    has_parameter: bool,
}

impl Model for RpkiSignatureAlgorithm {
    ghost use Rattle.rpki_parts.specs.Algorithms.{Algorithm};

    ghost Value = { Algorithm };

    ghost view = { λ a. record { has_null = a.has_parameter } };

    ghost inverse = { λ a. record { has_parameter = a.has_null } };
}

impl RpkiSignatureAlgorithm {
    /// Returns the algorithm with NULL as its parameters (RFC 4055 5).
    pub fn default() -> RpkiSignatureAlgorithm
        ensures { result ≡ with_null }
    {
        RpkiSignatureAlgorithm {
            has_parameter: true,
        }
    }

    /// Returns the algorithm with absent parameters (RFC 4055 5).
    pub fn without_parameter() -> RpkiSignatureAlgorithm
        ensures { result ≡ without_null }
    {
        RpkiSignatureAlgorithm {
            has_parameter: false,
        }
    }

    // The algorithm that stands next, by the reading function.
    #[tactic(auto, unfolding(crate::specs::Algorithms::algorithm_format))]
    fn read(cursor: &mut Cursor<'_>) -> Result<RpkiSignatureAlgorithm, DecodeError>
        ensures reads { Took algorithm_format.read cursor.old result cursor.new }
        ensures keeps { Keeps result cursor.old cursor.new }
        ensures octets { AreOctets (remaining cursor.old) }
    {
        let mut ahead = cursor.fork();
        let mut content = ahead.take_sequence()?;
        if content.take_oid()? != identifier() {
            return Err(DecodeError::BadValue);
        }
        let has_parameter = take_opt_null(&mut content)?;
        content.finish()?;
        *cursor = ahead;
        Ok(RpkiSignatureAlgorithm { has_parameter })
    }

    /// Reads the AlgorithmIdentifier at the cursor (RFC 5280 4.1.1.2).
    ///
    /// # Errors
    ///
    /// Returns an error if the bytes at the cursor don't begin with the AlgorithmIdentifier of
    /// sha256WithRSAEncryption; which error is unspecified. The cursor then stays where it was.
    #[tactic(auto, using(rpki_der::proofs::FormatAnswers::answers_alone, crate::proofs::PartFormats::algorithm_alone))]
    pub fn x509_take_from(cursor: &mut Cursor<'_>) -> Result<RpkiSignatureAlgorithm, DecodeError>
        ensures { Answers algorithm_format cursor.old result cursor.new }
    {
        RpkiSignatureAlgorithm::read(cursor)
    }

    /// Appends the AlgorithmIdentifier, with NULL if the algorithm has it (RFC 5280 4.1.1.2).
    ///
    /// # Errors
    ///
    /// Returns `Memory` if memory ran out. `out` is then unchanged.
    #[tactic(auto, unfolding(crate::specs::Algorithms::algorithm_format))]
    pub fn x509_encode(&self, _alloc: Global, out: &mut Vec<u8>) -> Result<(), EncodeError>
        ensures writes { Writes (part algorithm_format self.now) out.old.items result out.new.items }
        ensures memory { IfErr result (λ e. e ≡ Memory) }
    {
        if self.has_parameter {
            put_value(out, tag::SEQUENCE, &WITH_NULL)
        } else {
            put_value(out, tag::SEQUENCE, &WITH_NULL[..11])
        }
    }
}
