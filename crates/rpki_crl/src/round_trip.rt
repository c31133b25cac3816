//! What the public clauses give together: a CRL that was made is read again from its own bytes.
ghost use Rattle.std.specs.Prelude.{◌≡◌, ◌^◌, ◌<◌, length, false, IfOk, IfErr};
ghost use Rattle.rpki_der.specs.declared.error.EncodeError.TheVariants.{Memory};
ghost use Rattle.rpki_parts.specs.SignedDatas.{signed_content};
ghost use Rattle.rpki_crl.specs.Lists.{ListFits, list_encoding};

use crate::crl::Crl;
use crate::laws;
use rpki_der::EncodeError;
use std::alloc::Global;

/// Writes a CRL that `into_crl` made and reads it again. The result has the same fields and
/// entries, if its signature names the requested algorithm, and has no table of serials (own).
///
/// # Errors
///
/// Returns `Memory` only.
pub fn read_again(alloc: Global, made: &Crl) -> Result<Crl, EncodeError>
    requires written { ListFits made.now.list.fields }
    requires message { made.now.list.signed_data.message ≡ list_encoding made.now.list.fields }
    requires algorithm { let list = made.now.list in
        list.fields.algorithm ≡ list.signed_data.signature.algorithm }
    requires fits { length (signed_content made.now.list.signed_data) < 2 ^ 32 }
    ensures same { IfOk result (λ c. c.list ≡ made.now.list) }
    ensures uncached { IfOk result (λ c. c.is_cached ≡ false) }
    ensures memory { IfErr result (λ e. e ≡ Memory) }
{
    let octets = made.to_captured(alloc)?;
    // Called for what they ensure alone.
    let _value = made.signed_data().signature().value();
    laws::written_is_read();
    laws::unambiguous();
    match Crl::decode_shared(alloc, octets) {
        Ok(read) => Ok(read),
        Err(error) => {
            if !error.is_memory() {
                unreachable!();
            }
            Err(EncodeError::Memory)
        }
    }
}
