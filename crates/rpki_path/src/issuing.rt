//! What the public clauses give together: a CA below the last certificate of a path is issued.
ghost use Rattle.std.specs.Prelude.{◌≡◌, ◌^◌, ◌<◌, ℕ, List, length, Option, Ok, Err, IfOk, IfErr};
ghost use Rattle.rpki_parts.specs.Signatures.{SignatureFields};
ghost use Rattle.rpki_parts.specs.SignedDatas.{signed_content};
ghost use Rattle.rpki_parts.specs.declared.signature.SigningError.{SigningError as Refusal};
ghost use Rattle.rpki_parts.specs.declared.signature.SigningError.TheVariants.{Memory};
ghost use Rattle.rpki_cert.specs.Certificates.{CanBeWritten, encoding};
ghost use Rattle.rpki_cert.specs.Issuing.{IsMemory, made_with};
ghost use Rattle.rpki_cert.specs.Profiles.{MeetsProfile};
ghost use Rattle.rpki_cert.specs.Verification.{context, CheckUnder, IsVerified, issued_checks};
ghost use Rattle.rpki_cert.specs.declared.inspect.Kind.TheVariants.{Authority};
ghost use Rattle.rpki_crl.specs.Stores.{Stored};
ghost use Rattle.rpki_path.specs.Asking.{IsUnrevokedBy};
ghost use Rattle.rpki_path.specs.Paths.{Path, member, longer, HasHeld, IsValidPath};
ghost use Rattle.rpki_path.specs.Routers.{by_uri_if_any};

use rpki_cert::{IssueCaError, ResourceCert, TbsCert, issue_ca};
use rpki_der::Time;
use rpki_parts::{Signer, Verifier};
use std::alloc::Global;

/// Issues a CA below this issuer if nothing but memory can prevent it (own).
///
/// The premises: the fields can be written, the signer fails only if memory runs out, and with each
/// signature that it may give the certificate isn't too long and is valid below the issuer. If the
/// issuer is the last certificate of a valid path, and no searched CRL revokes the new certificate,
/// the new certificate is the last of a valid path that is longer by one, and it holds exactly what
/// that path holds.
///
/// # Errors
///
/// Returns `Memory` only.
pub fn issue_below<S: Signer, V: Verifier>(
    alloc: Global,
    tbs: TbsCert,
    signer: &S,
    key: &S::KeyId,
    issuer: &ResourceCert,
    strict: bool,
    now: Time,
    verifier: &V,
) -> Result<ResourceCert, IssueCaError<S::Error>>
    requires written { CanBeWritten tbs }
    requires signs { (e : Refusal S.Error)
        → S.signs signer.now key.now tbs.algorithm (encoding tbs) (Err e) → e ≡ Memory }
    requires fits { (s : SignatureFields)
        → S.signs signer.now key.now tbs.algorithm (encoding tbs) (Ok s)
        → length (signed_content (made_with tbs s).signed_data) < 2 ^ 32 }
    requires profile { (s : SignatureFields)
        → S.signs signer.now key.now tbs.algorithm (encoding tbs) (Ok s)
        → MeetsProfile Authority strict (made_with tbs s) }
    requires checks { let x = context (V.verifies verifier.now) now strict in
        (s : SignatureFields)
        → S.signs signer.now key.now tbs.algorithm (encoding tbs) (Ok s)
        → IsVerified (CheckUnder x issuer.now (made_with tbs s)) issued_checks }
    ensures fields { IfOk result (λ r. r.cert.fields ≡ tbs) }
    ensures path { let x = context (V.verifies verifier.now) now strict in
        (lists : Option (List Stored)) (p : Path) (tal : List ℕ)
        → let asked = by_uri_if_any x lists in
        IsValidPath x asked p → HasHeld p tal issuer.now
        → IfOk result (λ r. IsUnrevokedBy asked issuer.now.cert.fields r.cert
        → IsValidPath x asked (longer p (member Authority r.cert))
        × HasHeld (longer p (member Authority r.cert)) tal r) }
    ensures memory { IfErr result IsMemory }
{
    issue_ca(alloc, tbs, signer, key, issuer, strict, now, verifier)
}
