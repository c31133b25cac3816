//! The verification of a signature.
ghost use Rattle.std.specs.Prelude.{◌≡◌, ◌<◌, ◌↔◌, IsTrue, MatchOption, length};
ghost use Rattle.rpki_keys.specs.Limbs.{limbs_value};
ghost use Rattle.rpki_keys.specs.Octets.{os2ip};
ghost use Rattle.rpki_keys.specs.RsaKeys.{IsRpkiSize};
ghost use Rattle.rpki_keys.specs.RsaSignatures.{IsRsaSignature, IsValidSignature};

use crate::encoding::encode;
use crate::key::modulus;
use crate::numbers::{is_equal, is_less, power};
use crate::octets::read;

// A number of 2048 bits, the lowest limb first.
type Number = [u64; 32];

// The number that a signature stands for, which has to be below the modulus (RFC 8017 8.2.2,
// 5.2.2).
fn representative(signature: &[u8], n: &Number) -> Option<Number>
    ensures { let is_one = (length signature.now ≡ 256) × (os2ip signature.now < limbs_value n.now) in
        MatchOption result (¬ is_one) (λ s. is_one × (limbs_value s ≡ os2ip signature.now)) }
{
    if signature.len() != 256 {
        return None;
    }
    let mut s = [0; 32];
    read(&mut s, signature);
    if is_less(&s, n) { Some(s) } else { None }
}

// Whether RSASSA-PKCS1-V1_5-VERIFY says "valid signature", of this modulus and the exponent 65537.
fn recovers(modulus: &[u8], message: &[u8], signature: &[u8]) -> bool
    requires long { length modulus.now ≡ 256 }
    requires size { IsRpkiSize (os2ip modulus.now) 65537 }
    ensures { let n = os2ip modulus.now in
        IsTrue result ↔ IsValidSignature n 65537 256 message.now signature.now }
{
    let mut n: Number = [0; 32];
    read(&mut n, modulus);
    let Some(s) = representative(signature, &n) else {
        return false;
    };
    let mut m: Number = [0; 32];
    let mut form: Number = [0; 32];
    let mut spare: Number = [0; 32];
    power(&mut m, &s, 65537, &n, &mut form, &mut spare);
    let mut wanted: Number = [0; 32];
    read(&mut wanted, &encode(message));
    is_equal(&m, &wanted)
}

/// Verifies a signature of the message by an RSA key with these bits (RFC 8017 8.2.2): returns
/// whether it is valid. The bits are the content of the BIT STRING of a SubjectPublicKeyInfo,
/// without the count of unused bits. Takes no memory, and runs in variable time: all of it is
/// public.
///
/// Returns `false` also if the key isn't one that the RPKI uses ([`crate::is_rpki_key`]).
pub fn verify(bits: &[u8], message: &[u8], signature: &[u8]) -> bool
    ensures { IsTrue result ↔ IsRsaSignature bits.now message.now signature.now }
{
    match modulus(bits) {
        Some(modulus) => recovers(modulus, message, signature),
        None => false,
    }
}
