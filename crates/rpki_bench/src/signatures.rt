//! Signatures that are verified.
ghost use Rattle.std.specs.Prelude.{◌≡◌, ◌↔◌};
ghost use Rattle.rpki_keys.specs.RsaSignatures.{IsRsaSignature};

/// Whether the signature is one of the message by a key of these bits: 1 if it is, 0 if it isn't.
#[unsafe(no_mangle)]
pub extern "C" fn rpki_signature(bits: &[u8], message: &[u8], signature: &[u8]) -> u32
    ensures { (result ≡ 1) ↔ IsRsaSignature bits.now message.now signature.now }
{
    if rpki_keys::verify(bits, message, signature) {
        1
    } else {
        0
    }
}
