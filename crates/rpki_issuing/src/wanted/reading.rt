//! To-be-signed parts, decoded from their bytes.
ghost use Rattle.std.specs.Prelude.{IfOk, MatchOption};
ghost use Rattle.rpki_cert.specs.Certificates.{TbsFields, IsTbsCertificate};

use bytes::Bytes;
use rpki_cert::{TbsCert, laws};
use rpki_der::Cursor;
use std::alloc::{AllocError, Global};

/// Decodes a TBSCertificate. Returns its fields, or `None` if the bytes aren't one, also if more
/// bytes follow it.
///
/// # Errors
///
/// Returns an error if memory runs out.
///
/// # Not checked
///
/// The profile of any kind.
pub fn read_tbs(alloc: Global, octets: &Bytes) -> Result<Option<TbsCert>, AllocError>
    ensures { IfOk result (λ found. MatchOption found
        ((f : TbsFields) → IsTbsCertificate f octets.now → ⊥)
        (λ f. IsTbsCertificate f octets.now)) }
{
    // Called for what it ensures alone.
    laws::unambiguous();
    let mut cursor = Cursor::new(octets);
    match TbsCert::from_constructed(alloc, &mut cursor) {
        Ok(tbs) => {
            if cursor.is_empty() {
                return Ok(Some(tbs));
            }
            drop(tbs);
            Ok(None)
        }
        Err(error) => {
            let is_memory = error.is_memory();
            drop(error);
            if is_memory { Err(AllocError) } else { Ok(None) }
        }
    }
}
