//! The keys in a request's files, which have to be keys that the RPKI uses.
ghost use Rattle.std.specs.Prelude.{◌≡◌, IfErr, IfOk};
ghost use Rattle.rpki_cert.specs.Certificates.{IsTbsCertificate};
ghost use Rattle.rpki_keys.specs.KeyForms.{IsUsableKey};
ghost use Rattle.rpki_parts.specs.Keys.{IsPublicKey};
ghost use Rattle.rpki_files.specs.Files.{contents};
ghost use Rattle.rpki_requests.specs.Refusals.{AnswersOnly};
ghost use Rattle.rpki_requests.specs.ToldRefusals.{IsDataFault, IsKeyFault, IsUnreadKey};
ghost use Rattle.rpki_requests.specs.RequestFiles.{IsKeyFile};
ghost use Rattle.rpki_issuing.specs.PreparedOctets.{IsToSign};

use crate::refusals::Refusal;
use bytes::Bytes;
use rpki_cert::{TbsCert, laws};
use rpki_der::Cursor;
use rpki_files::Object;
use rpki_keys::is_usable;
use rpki_parts::PublicKey;
use std::alloc::Global;

// The key, if the RPKI uses it.
fn used(key: PublicKey) -> Result<PublicKey, Refusal>
    ensures used { IfOk result (λ k. (k ≡ key) × IsUsableKey key) }
    ensures unused { IfErr result (λ why.
        (why ≡ Refusal.UnusedKey key.format) × (IsUsableKey key → ⊥)) }
{
    if is_usable(&key) {
        return Ok(key);
    }
    let format = key.algorithm();
    drop(key);
    Err(Refusal::UnusedKey(format))
}

// The key that the octets are.
fn read_key(alloc: Global, octets: &Bytes) -> Result<PublicKey, Refusal>
    ensures { AnswersOnly IsUnreadKey (λ key. IsPublicKey key octets.now) result }
{
    match PublicKey::from_bytes(alloc, octets.clone()?) {
        Ok(key) => Ok(key),
        Err(error) => {
            let is_memory = error.is_memory();
            drop(error);
            if is_memory {
                Err(Refusal::Memory)
            } else {
                Err(Refusal::NoKey)
            }
        }
    }
}

/// Returns the subject's key that the only file has, which has to be a key that the RPKI uses (RFC
/// 7935 3).
///
/// # Errors
///
/// Returns why there is no such key, and `Memory`.
pub(crate) fn subject_key(alloc: Global, files: &[Object<'_>]) -> Result<PublicKey, Refusal>
    ensures { let files = contents files.now in
        AnswersOnly (IsKeyFault files) (IsKeyFile files) result }
{
    if files.len() != 1 {
        return Err(Refusal::NoKey);
    }
    let key = read_key(alloc, files[0].octets())?;
    used(key)
}

// The fields of the TBSCertificate that the octets are.
fn read_data(alloc: Global, octets: &Bytes) -> Result<TbsCert, Refusal>
    ensures { AnswersOnly (IsDataFault octets.now) (λ f. IsTbsCertificate f octets.now) result }
{
    laws::unambiguous();
    let mut cursor = Cursor::new(octets);
    match TbsCert::from_constructed(alloc, &mut cursor) {
        Ok(tbs) => {
            if cursor.is_empty() {
                return Ok(tbs);
            }
            drop(tbs);
            Err(Refusal::NotToSign)
        }
        Err(error) => {
            let is_memory = error.is_memory();
            drop(error);
            if is_memory {
                Err(Refusal::Memory)
            } else {
                Err(Refusal::NotToSign)
            }
        }
    }
}

/// Returns the fields of the TBSCertificate in these bytes, whose key has to be one that the RPKI
/// uses (RFC 7935 3).
///
/// # Errors
///
/// Returns why there are no such fields, and `Memory`.
pub(crate) fn to_sign(alloc: Global, octets: &Bytes) -> Result<TbsCert, Refusal>
    ensures { AnswersOnly (IsDataFault octets.now) (λ f. IsToSign f octets.now) result }
{
    let tbs = read_data(alloc, octets)?;
    let key = tbs.subject_public_key_info();
    if is_usable(key) {
        return Ok(tbs);
    }
    let format = key.algorithm();
    drop(tbs);
    Err(Refusal::UnusedKey(format))
}
