//! Laws about paths. Each is the contract of a function with no parameters, whose body names at
//! most the law that it uses.
ghost use Rattle.std.specs.Prelude.{◌≡◌, ◌+◌, ◌-◌, ◌<◌, ◌≤◌, ◌↔◌, ℕ, Bool, List, [], ◌∷◌, ◌++◌};
ghost use Rattle.rpki_der.specs.Times.{Moment};
ghost use Rattle.rpki_cert.specs.Certificates.{CertFields, IsCertificate};
ghost use Rattle.rpki_cert.specs.Validation.{IsValidBelow};
ghost use Rattle.rpki_cert.specs.Verification.{HeldCheck, ResourceFields, context};
ghost use Rattle.rpki_cert.specs.declared.inspect.Kind.{Kind};
ghost use Rattle.rpki_cert.specs.declared.verification_error.VerificationError.{VerificationError};
ghost use Rattle.rpki_path.specs.Asking.{IsUnrevokedBy};
ghost use Rattle.rpki_path.specs.NameChains.{IsNamedBelow, IsSelfNamed, NamesChain};
ghost use Rattle.rpki_path.specs.Paths.{Member, member, longer, certificate_at, candidate, HasHeld, IsValidPath, IsAccepted};
ghost use Rattle.rpki_path.specs.Paths.{Path, last, NumberKind, greatest_number, Holds, HeldAt, Candidate, IsPathOf, PassesMore};
ghost use Rattle.rpki_path.specs.Repeats.{AreOneEntity, AsksByEntity, HasNoRepeat, IsShortened, IsWalkable, without};

use crate::revocation::RevocationSource;
use rpki_cert::laws;
use rpki_parts::Verifier;

/// States that strings of bytes start with the certificates of at most one path.
pub fn one_path()
    ensures { (anchor : List ℕ) (below : List Candidate) (p q : Path)
        → IsPathOf anchor below p → IsPathOf anchor below q → p ≡ q }
{
    laws::unambiguous();
}

/// States that if the certificates of a path pass on more, those below them hold more: a number
/// that is held stays held, and a certificate that doesn't overclaim stays so.
pub fn monotone()
    ensures holds { (p q : Path) → PassesMore p q → (i : ℕ) → i ≤ last p
        → (k : NumberKind) (n : ℕ) → n ≤ greatest_number k → Holds p i k n → Holds q i k n }
    ensures checks { (p q : Path) → PassesMore p q → (i : ℕ) → i ≤ last p
        → (c : CertFields) (e : VerificationError)
        → HeldCheck (HeldAt p i) c e → HeldCheck (HeldAt q i) c e }
{}

/// States that a valid path can be issued below: a certificate that is valid below the last one,
/// with its part of the resources that the last one holds, is the last certificate of a valid path
/// that is longer by one, and has exactly what that path holds (`path`). If strings are accepted,
/// they and the bytes of the new certificate are accepted with what was issued (`strings`). The
/// premises are what [`crate::judge`], [`crate::validate_path`] and [`rpki_cert::issue_ca`]
/// promise, and what the source of revocation does ([`RevocationSource::ask`]).
pub fn issued_below<R: RevocationSource, V: Verifier>()
    ensures path { (verifier : V) (source : R) (now : Moment) (strict : Bool)
        (p : Path) (tal : List ℕ) (issuer r : ResourceFields) (kind : Kind)
        → let x = context (V.verifies verifier) now strict in
        let asked = R.asks source x in
        IsValidPath x asked p → HasHeld p tal issuer → IsValidBelow x issuer kind r.cert r
        → IsUnrevokedBy asked issuer.cert.fields r.cert
        → IsValidPath x asked (longer p (member kind r.cert))
        × HasHeld (longer p (member kind r.cert)) tal r }
    ensures strings { (verifier : V) (source : R) (now : Moment) (strict : Bool)
        (anchor : List ℕ) (below : List Candidate) (tal : List ℕ) (issuer r : ResourceFields)
        (kind : Kind) (octets : List ℕ)
        → let x = context (V.verifies verifier) now strict in
        let asked = R.asks source x in
        IsAccepted x asked anchor below tal issuer → IsValidBelow x issuer kind r.cert r
        → IsUnrevokedBy asked issuer.cert.fields r.cert → IsCertificate r.cert octets
        → IsAccepted x asked anchor (below ++ candidate kind octets ∷ []) tal r }
{}

/// States name chaining step by step: a path's names chain if and only if [`crate::is_self_named`]
/// is true for the trust anchor, and [`crate::names_chain`] for each later certificate below the
/// one above it. `anchor` states it for a trust anchor alone, `below` for a path that is longer by
/// one certificate. A caller who validates step by step checks the same as
/// [`crate::first_unchained`].
pub fn names_step_by_step()
    ensures anchor { (c : CertFields)
        → NamesChain (record { anchor = c; below = [] }) ↔ IsSelfNamed c }
    ensures below { (p : Path) (m : Member) → NamesChain (longer p m)
        ↔ (NamesChain p × IsNamedBelow (certificate_at p (last p)) m.cert) }
{}

/// States that a walkable path on which one entity appears twice stays walkable without the
/// certificates between (`walkable`), is shorter by these (`shorter`), holds at least as much
/// (`holds`), and ends in the same certificate, unless that is the second of the two (`end`). The
/// first premise is about the source of revocation
/// ([`crate::revocation::laws::asks_by_entity`]).
pub fn cut_is_walkable<R: RevocationSource, V: Verifier>()
    ensures walkable { (verifier : V) (source : R) (now : Moment) (strict names : Bool)
        (p : Path) (i j : ℕ)
        → let x = context (V.verifies verifier) now strict in
        let asked = R.asks source x in
        AsksByEntity names asked → IsWalkable x asked names p → i < j → j ≤ last p
        → AreOneEntity names (certificate_at p i) (certificate_at p j)
        → IsWalkable x asked names (without p i j) }
    ensures shorter { (p : Path) (i j : ℕ) → i < j → j ≤ last p
        → last (without p i j) + (j - i) ≡ last p }
    ensures holds { (p : Path) (i j : ℕ) → i < j → j ≤ last p → (k : NumberKind) (n : ℕ)
        → Holds p (last p) k n → Holds (without p i j) (last (without p i j)) k n }
    ensures end { (p : Path) (i j : ℕ) → i < j → j < last p
        → certificate_at (without p i j) (last (without p i j)) ≡ certificate_at p (last p) }
{}

/// States that each certificate to which a walkable path leads has a walkable path on which no
/// issuer appears twice. It is made of certificates of the first path, isn't longer, and its last
/// certificate holds at least as much. A walk that never goes below an entity a second time
/// therefore loses nothing.
pub fn has_no_repeat<R: RevocationSource, V: Verifier>()
    ensures { (verifier : V) (source : R) (now : Moment) (strict names : Bool) (p : Path)
        → let x = context (V.verifies verifier) now strict in
        let asked = R.asks source x in
        AsksByEntity names asked → IsWalkable x asked names p
        → (q : Path) × IsWalkable x asked names q × HasNoRepeat names q × IsShortened p q }
{}
