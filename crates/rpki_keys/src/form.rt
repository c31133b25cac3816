//! The form of a public key, and whether the RPKI uses such a key.
ghost use Rattle.std.specs.Prelude.{◌≡◌, ◌↔◌, IsTrue};
ghost use Rattle.rpki_keys.specs.KeyForms.{IsUsableKey, IsKeyForm, ArePointOf};

use crate::curve::{is_compressed, is_point, is_uncompressed};
use crate::key::is_rpki_key;
use crate::rsa::rsa_form;
use rpki_parts::{PublicKey, PublicKeyFormat};

/// The form of a public key's bits, by its algorithm.
#[derive(Debug, Clone, Copy, PartialEq, Eq)]
pub enum KeyForm {
    /// An RSAPublicKey (RFC 8017 A.1.1) with an odd modulus.
    RsaKey {
        /// How many binary digits the modulus has.
        bits: u64,
        /// The exponent, or `None` if it is 2^64 or more.
        exponent: Option<u64>,
    },
    /// An RSAPublicKey with an even modulus, which no product of odd primes is (RFC 8017 3.1).
    EvenModulus,
    /// Bits of an RSA key that aren't an RSAPublicKey in DER (RFC 8017 A.1.1).
    NoRsaKey,
    /// A point of P-256 in the uncompressed form (SEC 1 2.3.4).
    Point,
    /// The uncompressed form of a point that isn't on the curve (SEC 1 2.3.4).
    OffCurve,
    /// The compressed form of a point (SEC 1 2.3.4), whether it is on the curve or not.
    CompressedPoint,
    /// Bits of a P-256 key that have neither form of a point.
    NoPoint,
}

// What the bits of a P-256 key are.
fn point_form(bits: &[u8]) -> KeyForm
    ensures { ArePointOf result bits.now }
{
    if is_point(bits) {
        KeyForm::Point
    } else if is_uncompressed(bits) {
        KeyForm::OffCurve
    } else if is_compressed(bits) {
        KeyForm::CompressedPoint
    } else {
        KeyForm::NoPoint
    }
}

/// Returns the form of the key's bits: for RSA the size of the modulus and the exponent, for P-256
/// the form of the point and whether it is on the curve. Every key has exactly one form.
///
/// # Not checked
///
/// Whether the RPKI uses such a key ([`is_usable`] checks it), and whether a modulus is the product
/// of two primes.
pub fn form_of(key: &PublicKey) -> KeyForm
    ensures form { IsKeyForm result key.now }
    ensures only { (form : KeyForm) → IsKeyForm form key.now → form ≡ result }
{
    match key.algorithm() {
        PublicKeyFormat::Rsa => rsa_form(&key.bits_cursor()),
        PublicKeyFormat::EcdsaP256 => point_form(key.bits()),
    }
}

/// Returns whether the RPKI uses such a key: RSA with an odd modulus of 2048 bits and the exponent
/// 65537 (RFC 7935 3), or a point of P-256 in the uncompressed form (RFC 8608 3.1, RFC 5480 2.2,
/// SEC 1 2.3.4, SP 800-186 3.2.1.3).
///
/// # Not checked
///
/// Whether the modulus is the product of two primes, and whether the certificate's kind may have
/// such a key (`Cert::inspect_ca` and its siblings check that).
pub fn is_usable(key: &PublicKey) -> bool
    ensures { IsTrue result ↔ IsUsableKey key.now }
{
    match key.algorithm() {
        PublicKeyFormat::Rsa => is_rpki_key(key.bits()),
        PublicKeyFormat::EcdsaP256 => is_point(key.bits()),
    }
}
