//! Public keys.
ghost use Rattle.std.specs.Prelude.{ℕ, ◌↔◌, IsTrue, MatchOption};
ghost use Rattle.rpki_keys.specs.RsaKeys.{IsRpkiRsaKey, IsRpkiKey};
ghost use Rattle.rpki_keys.specs.Moduli.{IsOnlyModulus};

// What stands before the octets of a modulus of 2048 bits in the one DER of a key: the identifiers
// and lengths of the SEQUENCE and of the INTEGER, and the 0 before its highest bit.
const HEAD: [u8; 9] = [0x30, 0x82, 0x01, 0x0A, 0x02, 0x82, 0x01, 0x01, 0x00];

// What stands behind them: the INTEGER 65537.
const TAIL: [u8; 5] = [0x02, 0x03, 0x01, 0x00, 0x01];

// The octets of the modulus, where these are the bits of a key of the RPKI.
pub(crate) fn modulus(bits: &[u8]) -> Option<&[u8]>
    ensures { MatchOption result ((n e : ℕ) → ¬ IsRpkiRsaKey n e bits.now)
        (λ octets. IsOnlyModulus bits.now octets.now) }
{
    let Some(rest) = bits.strip_prefix(&HEAD) else {
        return None;
    };
    let Some(octets) = rest.strip_suffix(&TAIL) else {
        return None;
    };
    if octets.len() != 256 {
        return None;
    }
    if octets[0] < 128 {
        return None;
    }
    if octets[255] % 2 == 0 {
        return None;
    }
    Some(octets)
}

/// Returns whether these are the bits of an RSA key that the RPKI uses: an odd modulus of 2048
/// bits, and the exponent 65537 (RFC 7935 3), in DER (RFC 8017 A.1.1).
///
/// # Not checked
///
/// Whether the modulus is the product of two primes.
pub fn is_rpki_key(bits: &[u8]) -> bool
    ensures { IsTrue result ↔ IsRpkiKey bits.now }
{
    modulus(bits).is_some()
}
