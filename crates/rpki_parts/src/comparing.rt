//! Copies and equality of values, each with its promise as a contract.

ghost use Rattle.std.specs.Prelude.{◌≡◌, ◌↔◌, IsTrue, IsOkAnd};

use crate::algorithm::RpkiSignatureAlgorithm;
use crate::key::{KeyIdentifier, PublicKeyFormat};
use crate::valid_at::ValidityError;
use crate::validity::Validity;
use std::alloc::AllocError;

/// Clones an algorithm. The copy is the same, with NULL if it has one.
pub fn copied_algorithm(
    algorithm: &RpkiSignatureAlgorithm,
) -> Result<RpkiSignatureAlgorithm, AllocError>
    ensures { IsOkAnd result (λ copy. copy ≡ algorithm.now) }
{
    algorithm.clone()
}

/// Compares algorithms: they are equal if and only if they are the same. Two that differ in their
/// NULL are unequal.
pub fn equal_algorithms(one: &RpkiSignatureAlgorithm, other: &RpkiSignatureAlgorithm) -> bool
    ensures { IsTrue result ↔ one.now ≡ other.now }
{
    one == other
}

/// Clones a format of keys. The copy is the same format.
pub fn copied_format(format: &PublicKeyFormat) -> Result<PublicKeyFormat, AllocError>
    ensures { IsOkAnd result (λ copy. copy ≡ format.now) }
{
    format.clone()
}

/// Compares formats of keys: they are equal if and only if they are the same.
pub fn equal_formats(one: &PublicKeyFormat, other: &PublicKeyFormat) -> bool
    ensures { IsTrue result ↔ one.now ≡ other.now }
{
    one == other
}

/// Clones a key identifier. The copy has its bytes.
pub fn copied_key_identifier(identifier: &KeyIdentifier) -> Result<KeyIdentifier, AllocError>
    ensures { IsOkAnd result (λ copy. copy ≡ identifier.now) }
{
    identifier.clone()
}

/// Compares key identifiers: they are equal if and only if their bytes are.
pub fn equal_key_identifiers(one: &KeyIdentifier, other: &KeyIdentifier) -> bool
    ensures { IsTrue result ↔ one.now ≡ other.now }
{
    one == other
}

/// Clones a validity period. The copy has its two times.
pub fn copied_validity(validity: &Validity) -> Result<Validity, AllocError>
    ensures { IsOkAnd result (λ copy. copy ≡ validity.now) }
{
    validity.clone()
}

/// Compares reasons why a time is outside a validity period: they are equal if and only if they are
/// the same.
pub fn equal_validity_errors(one: &ValidityError, other: &ValidityError) -> bool
    ensures { IsTrue result ↔ one.now ≡ other.now }
{
    one == other
}
