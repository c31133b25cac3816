//! Laws about given CRLs.
ghost use Rattle.std.specs.Prelude.{◌↔◌, List, Bool, Any};
ghost use Rattle.rpki_der.specs.Times.{Moment};
ghost use Rattle.rpki_cert.specs.Certificates.{TbsFields, CertFields};
ghost use Rattle.rpki_cert.specs.Verification.{context};
ghost use Rattle.rpki_crl.specs.Lists.{CrlState};
ghost use Rattle.rpki_crl.specs.declared.revocation_error.RevocationError.{RevocationError};
ghost use Rattle.rpki_crl.specs.Stores.{Stored};
ghost use Rattle.rpki_path.specs.Asking.{IsUnrevokedBy, nobody, by_uri};
ghost use Rattle.rpki_path.specs.AskedLists.{AreSameLists, by_lists, by_named_lists, LeavesUnrevoked};
ghost use Rattle.rpki_path.specs.Repeats.{AsksByEntity};

use rpki_parts::Verifier;

/// States that a certificate which given CRLs leave unrevoked is left so by one CRL among them: it
/// names the issuer's key, that key signed it, it has the issuer's name if names are checked, the
/// time lies between its two updates, and it doesn't have the serial number (RFC 5280 6.3.3).
pub fn left_by_one<V: Verifier>()
    ensures { (v : V) (now : Moment) (strict names : Bool) (lists : List CrlState)
        (issuer : TbsFields) (c : CertFields) → let x = context (V.verifies v) now strict in
        IsUnrevokedBy (by_named_lists names x lists) issuer c
        → Any (λ l. LeavesUnrevoked names x issuer c l.list) lists }
{}

/// States that the answer of given CRLs depends neither on their order nor on how often each of
/// them is given: with the same CRLs each check of a certificate below its issuer has the same
/// result (`checks`). They leave the same certificates unrevoked (`unrevoked`), and the first check
/// that fails is the same.
pub fn blind_to_order<V: Verifier>()
    ensures checks { (v : V) (now : Moment) (strict names : Bool) (lists others : List CrlState)
        (issuer : TbsFields) (c : CertFields) (e : RevocationError)
        → let x = context (V.verifies v) now strict in AreSameLists lists others
        → by_named_lists names x lists issuer c e ↔ by_named_lists names x others issuer c e }
    ensures unrevoked { (v : V) (now : Moment) (strict names : Bool)
        (lists others : List CrlState) (issuer : TbsFields) (c : CertFields)
        → let x = context (V.verifies v) now strict in AreSameLists lists others
        → IsUnrevokedBy (by_named_lists names x lists) issuer c
        ↔ IsUnrevokedBy (by_named_lists names x others) issuer c }
{}

/// States that the sources of this crate (no check, the CRLs of a store, and given CRLs) read no
/// more of an issuer than its key and its identifier, and its subject if names are checked. Two
/// certificates of one CA's key therefore require the same of the certificates below
/// ([`crate::laws::cut_is_walkable`]).
pub fn asks_by_entity<V: Verifier>()
    ensures nobody { (names : Bool) → AsksByEntity names nobody }
    ensures uri { (v : V) (now : Moment) (strict names : Bool) (pairs : List Stored)
        → let x = context (V.verifies v) now strict in AsksByEntity names (by_uri x pairs) }
    ensures lists { (v : V) (now : Moment) (strict names : Bool) (lists : List CrlState)
        → let x = context (V.verifies v) now strict in AsksByEntity names (by_lists x lists) }
    ensures named { (v : V) (now : Moment) (strict names : Bool) (lists : List CrlState)
        → let x = context (V.verifies v) now strict in
        AsksByEntity names (by_named_lists names x lists) }
{}
