//! Laws about paths through a folder.
ghost use Rattle.std.specs.Prelude.{◌≡◌, ◌≢◌, ◌↔◌, ◌+◌, ◌++◌, ◌∷◌, ℕ, Bool, true, List, [], length, Contains, Ok, map, slice_get};
ghost use Rattle.rpki_der.specs.Times.{Moment};
ghost use Rattle.rpki_parts.specs.Keys.{KeyFields};
ghost use Rattle.rpki_ext.specs.Kinds.{Means};
ghost use Rattle.rpki_cert.specs.Certificates.{TbsFields, CertFields, IsCertificate};
ghost use Rattle.rpki_cert.specs.Profiles.{MeetsProfile};
ghost use Rattle.rpki_cert.specs.Verification.{TrustAnchorCheck, context, trust_anchor_checks, IsVerified};
ghost use Rattle.rpki_cert.specs.SaidKinds.{BeginsWithKind};
ghost use Rattle.rpki_cert.specs.declared.inspect.Kind.{Kind};
ghost use Rattle.rpki_keys.specs.Locators.{NamedTal};
ghost use Rattle.rpki_cert.specs.declared.inspect.Kind.TheVariants.{Anchor, Router};
ghost use Rattle.rpki_path.specs.Asking.{IsUnrevokedBy};
ghost use Rattle.rpki_path.specs.AskedLists.{AreSameLists, by_named_lists};
ghost use Rattle.rpki_folder.specs.Folders.{FolderFields, cas_at, string_at};
ghost use Rattle.rpki_folder.specs.Strangers.{AddsOnly, HasCertificate, IsFreeOf, LeadsThrough};
ghost use Rattle.rpki_folder.specs.Walks.{Root, AreAdmitted, Covers, IsLookedAt, IsReached, IsTold, LeadsBy, Told, TellsFrom, at_anchor};
ghost use Rattle.rpki_folder.specs.FirstPlaces.{first_place_of};
ghost use Rattle.rpki_folder.specs.KeptWalks.{IsAcceptedBy, IsKeptWalk};
ghost use Rattle.rpki_folder.specs.declared.firsts.Firsts.{Firsts};
ghost use Rattle.rpki_folder.specs.declared.limits.LimitTable.{LimitTable};
ghost use Rattle.rpki_folder.specs.declared.lines.Line.{Line};
ghost use Rattle.rpki_path.specs.NameChains.{IsSelfNamed, NamesChain};
ghost use Rattle.rpki_path.specs.Paths.{IsPathOf, Path, candidate};
ghost use Rattle.rpki_path.specs.Repeats.{AsksByEntity};
ghost use Rattle.rpki_folder.specs.declared.bounds.Ended.{Ended};
ghost use Rattle.rpki_folder.specs.declared.walk_error.WalkError.{WalkError};

use crate::Admission;
use rpki_parts::Verifier;
use rpki_path::revocation::RevocationSource;

/// States that the order in which certificates and CRLs are added to a folder doesn't matter: which
/// certificates a valid path leads to depends neither on their places nor on the order of the CRLs.
///
/// The premises: a second folder has each certificate of the first at the place `moved`, and both
/// have the same CRLs. Then a path that leads to a certificate in the first folder leads to it in
/// the second, by the moved places of the CAs above it (`reached`). If a walk judges the
/// certificates of a path in the first folder, it judges them in the second (`looked_at`). By
/// [`crate::Walk::from_anchor`] walks that end `Whole` accept the same certificates in both.
pub fn blind_to_order<V: Verifier>()
    ensures reached { (verifier : V) (now : Moment) (strict names : Bool) (root : Root)
        (folder other : FolderFields) (moved : ℕ → ℕ)
        → let x = context (V.verifies verifier) now strict in
        AreSameLists folder.lists other.lists
        → ((place : ℕ) → string_at other.certs (moved place) ≡ string_at folder.certs place)
        → (above : List ℕ) (place : ℕ)
        → IsReached x (by_named_lists names x folder.lists) root folder.certs above place
        → IsReached x (by_named_lists names x other.lists) root other.certs (map moved above)
        (moved place) }
    ensures looked_at { (names : Bool) (top : CertFields) (folder other : FolderFields)
        (moved : ℕ → ℕ)
        → ((place : ℕ) → string_at other.certs (moved place) ≡ string_at folder.certs place)
        → (places : List ℕ)
        → AreAdmitted (IsLookedAt names (λ l p. Unit {0}) top folder.certs) [] places
        → AreAdmitted (IsLookedAt names (λ l p. Unit {0}) top other.certs) [] (map moved places) }
{}

/// States what added files can't change. Each added file is signed by one of some keys or by no
/// key, or is a copy of a file of the folder ([`AddsOnly`]). A path on which no issuer has one of
/// these keys is valid with the certificates and CRLs of the one folder if and only if it is valid
/// with those of the other, with the same resources (`paths`). Below an issuer without such a key
/// the same certificates are unrevoked (`revocation`). A valid trust anchor without such a key is
/// in both folders or in neither (`anchors`).
///
/// [`AddsOnly`]: ../specs/Strangers.antt
pub fn isolated<V: Verifier>()
    ensures paths { (verifier : V) (now : Moment) (strict names : Bool) (keys : List KeyFields)
        (old new : FolderFields) → let x = context (V.verifies verifier) now strict in
        AddsOnly x.verifies keys old new → (p : Path) → IsFreeOf keys p
        → LeadsThrough names x old p ↔ LeadsThrough names x new p }
    ensures revocation { (verifier : V) (now : Moment) (strict names : Bool)
        (keys : List KeyFields) (old new : FolderFields)
        → let x = context (V.verifies verifier) now strict in
        AddsOnly x.verifies keys old new → (issuer : TbsFields)
        → (Contains keys issuer.key → ⊥) → (c : CertFields)
        → IsUnrevokedBy (by_named_lists names x old.lists) issuer c
        ↔ IsUnrevokedBy (by_named_lists names x new.lists) issuer c }
    ensures anchors { (verifier : V) (now : Moment) (strict : Bool) (keys : List KeyFields)
        (old new : FolderFields) → let x = context (V.verifies verifier) now strict in
        AddsOnly x.verifies keys old new → (c : CertFields) → (Contains keys c.fields.key → ⊥)
        → MeetsProfile Anchor x.strict c → IsVerified (TrustAnchorCheck x c) trust_anchor_checks
        → HasCertificate old c ↔ HasCertificate new c }
{}

/// States that a path's names chain (RFC 6487 7.2) if a walk that checks names judged each of its
/// certificates below the trust anchor, and the trust anchor's issuer is its own subject.
pub fn looked_at_chains<A: Admission>()
    ensures { (admission : A) (anchor : List ℕ) (certs : List (List ℕ)) (above : List ℕ)
        (place : ℕ) (kind : Kind) (p : Path)
        → let end = candidate kind (string_at certs place) in
        IsPathOf anchor (cas_at certs above ++ end ∷ []) p → IsSelfNamed p.anchor
        → AreAdmitted (IsLookedAt true (A.admits admission) p.anchor certs) []
        (above ++ place ∷ [])
        → NamesChain p }
{}

/// States that a walk loses nothing by never going below an entity a second time. If a valid path
/// leads to a certificate that isn't a router's, and the walk's end covers the path's length, the
/// walk accepted the certificate, by that path or by one that isn't longer. The first premise is
/// about the source of revocation ([`rpki_path::revocation::laws::asks_by_entity`]).
pub fn nothing_is_lost<R: RevocationSource, V: Verifier>()
    ensures { (verifier : V) (source : R) (now : Moment) (strict names : Bool) (t : NamedTal)
        (anchor : List ℕ) (certs : List (List ℕ)) (depth steps : ℕ) (ended : Ended)
        (ts : List Told) (kind : Kind) (place : ℕ) (above : List ℕ)
        → let x = context (V.verifies verifier) now strict in
        let asked = R.asks source x in
        AsksByEntity names asked
        → TellsFrom {E = WalkError} x asked names (λ l p. Unit {0}) t anchor certs depth steps
        (Ok ended) ts → BeginsWithKind kind (string_at certs place) → kind ≢ Router
        → Covers ended depth (length above + 1)
        → LeadsBy x asked names t anchor certs kind place above
        → (other : List ℕ) × IsTold ts other place }
{
    rpki_cert::laws::unambiguous();
}

/// States that the lines that are kept of a walk from a trust anchor miss no certificate, whichever
/// copies a path leads by. If a valid path on which no entity is twice leads to a certificate, its
/// names chain where names are checked, and the walk's end covers its length, the line of the
/// certificate's first place accepts it.
pub fn lines_are_complete<V: Verifier>()
    ensures { (verifier : V) (now : Moment) (strict names : Bool) (t : NamedTal)
        (f : FolderFields) (depth steps anchor : ℕ) (firsts : Firsts) (lines : List Line)
        (limits : LimitTable) (ended : Ended) (top : CertFields) (above : List ℕ) (place : ℕ)
        → let x = context (V.verifies verifier) now strict in
        let root = at_anchor t (string_at f.certs anchor) in
        IsKeptWalk x names t f depth steps anchor firsts lines limits ended
        → Means IsCertificate top root.anchor → Covers ended depth (length above + 1)
        → AreAdmitted (IsLookedAt names (λ l p. Unit {0}) top f.certs) [] (above ++ place ∷ [])
        → IsReached x (by_named_lists names x f.lists) root f.certs above place
        → IsAcceptedBy (slice_get lines (first_place_of firsts place)) }
{
    rpki_cert::laws::unambiguous();
}
