//! What the public clauses give together: a certificate that was made is read again from its own
//! bytes.
ghost use Rattle.std.specs.Prelude.{◌≡◌, ◌^◌, ◌<◌, length, IfOk, IfErr};
ghost use Rattle.rpki_der.specs.declared.error.EncodeError.TheVariants.{Memory};
ghost use Rattle.rpki_parts.specs.SignedDatas.{signed_content};
ghost use Rattle.rpki_blocks.specs.Prefixes.{AreV4};
ghost use Rattle.rpki_ext.specs.CertificateExtensions.{HasResources};
ghost use Rattle.rpki_cert.specs.Certificates.{Fits, encoding};

use crate::cert::Cert;
use crate::laws;
use rpki_der::EncodeError;
use std::alloc::Global;

/// Writes a certificate that `into_cert` made, and reads it again: it is the same, with its fields,
/// if at least one kind of resources is there and the IPv4 resources are whole IPv4 addresses.
///
/// # Errors
///
/// Returns `Memory` if memory runs out, and no other error.
pub fn read_again(alloc: Global, made: &Cert) -> Result<Cert, EncodeError>
    requires written { Fits made.now.fields }
    requires message { made.now.signed_data.message ≡ encoding made.now.fields }
    requires fits { length (signed_content made.now.signed_data) < 2 ^ 32 }
    requires resources { HasResources made.now.fields.extensions }
    requires only_v4 { AreV4 made.now.fields.extensions.v4_resources }
    ensures same { IfOk result (λ c. c ≡ made.now) }
    ensures memory { IfErr result (λ e. e ≡ Memory) }
{
    let octets = made.to_captured(alloc)?;
    // Called for what they ensure alone.
    let _value = made.signed_data().signature().value();
    laws::written_is_read();
    laws::unambiguous();
    match Cert::decode_shared(alloc, octets) {
        Ok(read) => Ok(read),
        Err(error) => {
            if !error.is_memory() {
                unreachable!();
            }
            Err(EncodeError::Memory)
        }
    }
}
