//! Laws about issuing. Each is the contract of a function with no parameters and an empty body.
ghost use Rattle.std.specs.Prelude.{◌↔◌, ◌^◌, ◌<◌, ℕ, Bool, List};
ghost use Rattle.rpki_parts.specs.Conditions.{IsFirstFalse};
ghost use Rattle.rpki_der.specs.Times.{Moment};
ghost use Rattle.rpki_cert.specs.Certificates.{TbsFields};
ghost use Rattle.rpki_cert.specs.Verification.{context, IsVerified};
ghost use Rattle.rpki_crl.specs.Lists.{CrlFields, CrlState};
ghost use Rattle.rpki_crl.specs.Revocation.{IsUnderUri, RevocationCheck, revocation_checks};
ghost use Rattle.rpki_crl.specs.RevokedEntries.{IsRevoked};
ghost use Rattle.rpki_crl.specs.Stores.{Stored};
ghost use Rattle.rpki_crl.specs.declared.revocation_error.RevocationError.TheVariants.{Revoked};
ghost use Rattle.rpki_issuing.specs.Acceptance.{AnswersFor};
ghost use Rattle.rpki_issuing.specs.ListReadiness.{IsCurrentList, LeavesOthers, RevokesItsOwn};
ghost use Rattle.rpki_issuing.specs.NextLists.{HasAtMostTwentyOctets};
ghost use Rattle.rpki_issuing.specs.Readiness.{signed_with, IsReady, IsSignatureOf};
ghost use Rattle.rpki_issuing.specs.Roles.{IsValidAs};
ghost use Rattle.rpki_issuing.specs.declared.role.Role.{Role};

use rpki_parts::Verifier;

/// States that a ready certificate is valid once it is signed: with each signature of its bytes
/// that the verifier accepts by the issuer's key, it is a certificate that is valid in its role.
pub fn ready_once_signed<V: Verifier>()
    ensures { (verifier : V) (now : Moment) (strict : Bool) (role : Role) (f : TbsFields)
        (value : List ℕ) → IsReady now strict role f
        → IsSignatureOf (V.verifies verifier) role f value
        → IsValidAs (context (V.verifies verifier) now strict) role (signed_with f value) }
{}

/// States that a CRL which leaves others unrevoked and revokes its own (as [`crate::complete_list`]
/// promises) does so too if it is the first one of a store under its URI:
/// [`rpki_crl::CrlStore::check`] returns `Ok` for each serial number that isn't on it, and
/// `Revoked` for each other.
pub fn stored_list_answers<V: Verifier>()
    ensures unrevoked { (verifier : V) (now : Moment) (strict : Bool) (issuer : TbsFields)
        (pairs : List Stored) (uri : List ℕ) (crl : CrlState) (serial : ℕ)
        → let x = context (V.verifies verifier) now strict in
        IsUnderUri pairs uri crl → LeavesOthers x issuer crl.list
        → (IsRevoked serial crl.list.fields.revoked.entries → ⊥)
        → IsVerified (RevocationCheck x issuer serial (IsUnderUri pairs uri)) revocation_checks }
    ensures revoked { (verifier : V) (now : Moment) (strict : Bool) (issuer : TbsFields)
        (pairs : List Stored) (uri : List ℕ) (crl : CrlState) (serial : ℕ)
        → let x = context (V.verifies verifier) now strict in
        IsUnderUri pairs uri crl → RevokesItsOwn x issuer crl.list
        → IsRevoked serial crl.list.fields.revoked.entries
        → IsFirstFalse (RevocationCheck x issuer serial (IsUnderUri pairs uri))
        revocation_checks Revoked }
{}

/// States that a current CRL answers for its issuer ([`crate::complete_list`] promises that it is
/// current). If it is used for a certificate, whatever other CRLs are given, the certificate is
/// unrevoked if its serial number isn't on the CRL, and otherwise `Revoked` is the first check that
/// fails ([`rpki_path::revocation::GivenLists`]).
pub fn current_list_answers<V: Verifier>()
    ensures { (verifier : V) (now : Moment) (strict : Bool) (issuer : TbsFields)
        (list : CrlFields) → let x = context (V.verifies verifier) now strict in
        IsCurrentList x issuer list → AnswersFor x issuer list }
{}

/// States which numbers have at most 20 bytes as an INTEGER (RFC 5280 5.2.3, X.690 8.3): those
/// below 2^159, because the first bit is the sign's.
pub fn twenty_octets()
    ensures { (n : ℕ) → HasAtMostTwentyOctets n ↔ (n < 2 ^ 159) }
{}
