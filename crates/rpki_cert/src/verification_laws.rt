//! Laws about certificates that were verified. Each is the contract of a function with no
//! parameters and an empty body.
ghost use Rattle.std.specs.Prelude.{◌≡◌, ℕ, Bool, Result, List};
ghost use Rattle.rpki_der.specs.Times.{Moment};
ghost use Rattle.rpki_blocks.specs.Sets.{AreIn};
ghost use Rattle.rpki_parts.specs.Conditions.{Tests};
ghost use Rattle.rpki_cert.specs.Certificates.{CertFields};
ghost use Rattle.rpki_cert.specs.Verification.{context, CheckUnder, TrustAnchorCheck, TestsOrMemory, issued_checks, trust_anchor_checks};
ghost use Rattle.rpki_cert.specs.Verification.{AreAlike, IsAnswerOrMemory};
ghost use Rattle.rpki_cert.specs.Verification.{ResourceFields, HasListed, HasIssued, HasSets};
ghost use Rattle.rpki_cert.specs.declared.verification_error.VerificationError.{VerificationError};

use rpki_parts::Verifier;

/// Says that a certificate below an issuer holds only resources that the issuer holds (RFC 6487
/// 7.2).
pub fn issued_are_held()
    ensures v4 { (c : CertFields) (issuer r : ResourceFields)
        → HasIssued c issuer r → AreIn r.v4 issuer.v4 }
    ensures v6 { (c : CertFields) (issuer r : ResourceFields)
        → HasIssued c issuer r → AreIn r.v6 issuer.v6 }
    ensures as_numbers { (c : CertFields) (issuer r : ResourceFields)
        → HasIssued c issuer r → AreIn r.as_numbers issuer.as_numbers }
{}

/// Says that two calls return one answer for one certificate in one context, but for memory:
/// `Cert::verify_ca_at` and `Cert::verify_ee_at` below one issuer are both Ok, or both Err with one
/// error (`issued`), and `Cert::verify_ta_at` accepts a trust anchor if and only if
/// `Cert::verify_ta_ref_at` does, else with its error (`anchors`). The premises are what the calls
/// promise of their checks.
pub fn one_verdict<V: Verifier>()
    ensures issued { (verifier : V) (now : Moment) (strict : Bool) (issuer : ResourceFields)
        (c : CertFields) (r s : Result ResourceFields VerificationError)
        → let x = context (V.verifies verifier) now strict in
        TestsOrMemory (CheckUnder x issuer c) issued_checks r
        → TestsOrMemory (CheckUnder x issuer c) issued_checks s → AreAlike r s }
    ensures anchors { (verifier : V) (now : Moment) (strict : Bool) (c : CertFields)
        (r : Result (Unit {0}) VerificationError) (s : Result ResourceFields VerificationError)
        → let x = context (V.verifies verifier) now strict in
        Tests (TrustAnchorCheck x c) trust_anchor_checks r
        → TestsOrMemory (TrustAnchorCheck x c) trust_anchor_checks s → IsAnswerOrMemory r s }
{}

/// Says that verification has one result: two results for one certificate below one issuer are
/// equal, and so are two results for one trust anchor with one TAL's name. The premises are the
/// clauses `gives` of the calls, and that of `Chain::iter` on each set (`HasSets`).
pub fn one_result()
    ensures issued { (c : CertFields) (issuer r s : ResourceFields)
        → HasIssued c issuer r → HasIssued c issuer s → HasSets r → HasSets s → r ≡ s }
    ensures listed { (c : CertFields) (tal : List ℕ) (r s : ResourceFields)
        → HasListed c tal r → HasListed c tal s → HasSets r → HasSets s → r ≡ s }
{}
