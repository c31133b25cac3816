//! Laws about two walks from one trust anchor: over a directory, and over the same directory with
//! added files.
ghost use Rattle.std.specs.Prelude.{◌≡◌, ◌↔◌, ◌+◌, ◌++◌, ℕ, Bool, List, Contains, Result};
ghost use Rattle.rpki_der.specs.Times.{Moment};
ghost use Rattle.rpki_parts.specs.Keys.{KeyFields};
ghost use Rattle.rpki_ext.specs.Kinds.{Means};
ghost use Rattle.rpki_cert.specs.Certificates.{CertFields, IsCertificate};
ghost use Rattle.rpki_cert.specs.Verification.{context};
ghost use Rattle.rpki_crl.specs.Lists.{CrlState};
ghost use Rattle.rpki_keys.specs.Locators.{NamedTal};
ghost use Rattle.rpki_path.specs.AskedLists.{by_named_lists};
ghost use Rattle.rpki_path.specs.Paths.{Path, last};
ghost use Rattle.rpki_path.specs.declared.judging.Judged.{Judged};
ghost use Rattle.rpki_path.specs.declared.path_fault.PathFault.{PathFault};
ghost use Rattle.rpki_folder.specs.FirstPlaces.{AreFirstsIn, IsFirstIn};
ghost use Rattle.rpki_folder.specs.Folders.{FolderFields, string_at, with_cert, with_list};
ghost use Rattle.rpki_folder.specs.FoundAnchors.{IsAnchorAt};
ghost use Rattle.rpki_folder.specs.declared.firsts.Firsts.{Firsts};
ghost use Rattle.rpki_folder.specs.Strangers.{AddsOnly, IsFreeOf, IsSignedByOnly};
ghost use Rattle.rpki_folder.specs.Walks.{Covers};
ghost use Rattle.rpki_isolation.specs.PathShares.{HasEnoughOn, HasOthersOnce, HasShareOn, IsChildOn, LetsIn, LetsInEach, ReachesLimit};
ghost use Rattle.rpki_isolation.specs.ToldWalks.{BeginAlike, HasLookedBelow, IsToldAccepted, IsAllFreeOf, IsAnchorIn, HasToldVerdict, SayAlike, Walked};

use rpki_folder::Admission;
use rpki_parts::Verifier;

/// States that files of strangers change no valid trust anchor of a TAL whose key is none of theirs
/// (`valid`), and not which of them is chosen: in both directories the chosen file starts with one
/// certificate (`chosen`). Added files are as in [`rpki_folder::laws::isolated`].
pub fn isolated_anchors<V: Verifier>()
    ensures valid { (verifier : V) (now : Moment) (strict names : Bool) (keys : List KeyFields)
        (old new : FolderFields) → let x = context (V.verifies verifier) now strict in
        AddsOnly x.verifies keys old new → (t : NamedTal) → (Contains keys t.tal.key → ⊥)
        → (c : CertFields) → IsAnchorIn x names t old c ↔ IsAnchorIn x names t new c }
    ensures chosen { (verifier : V) (now : Moment) (strict names : Bool) (keys : List KeyFields)
        (old new : FolderFields) → let x = context (V.verifies verifier) now strict in
        AddsOnly x.verifies keys old new → (t : NamedTal) → (Contains keys t.tal.key → ⊥)
        → (place other : ℕ)
        → IsAnchorAt x (by_named_lists names x old.lists) names t old.certs place
        → IsAnchorAt x (by_named_lists names x new.lists) names t new.certs other
        → BeginAlike (string_at old.certs place) (string_at new.certs other) }
{
    rpki_cert::laws::unambiguous();
}

/// States that files of strangers change nothing about how far a walk goes on a path of others.
///
/// Take a directory, and the same one with added files. Each added file was signed by one of some
/// keys, or by none, or is a copy, as in [`rpki_folder::laws::isolated`]. Take a trust anchor, whose
/// file may be a copy in one of them, and a path below it on which no CA has one of these keys. Take
/// walks that admit each certificate of other keys, as those by [`rpki_folder::AllAdmitted`] do.
/// They look at the same certificates below the path, the children of its last CA (`children`).
///
/// Let the walks admit each certificate of other keys at one place only, so that copies don't count.
/// For every number of steps, the path's last CA has the same share in both directories (`shares`),
/// also if its own key is one of these keys. It has one share in a directory (`one_share`). For
/// every depth and number of steps, the share is enough for the CA's children in both directories or
/// in neither (`enough`). A walk reaches a limit below the CA in both or in neither, with the same
/// number of children and the same share (`limits`).
pub fn isolated_shares<A: Admission, B: Admission, V: Verifier>()
    ensures children { (verifier : V) (now : Moment) (strict names : Bool) (keys : List KeyFields)
        (old new : FolderFields) (t : NamedTal) (anchor other : List ℕ) (a : A) (b : B)
        → let x = context (V.verifies verifier) now strict in
        AddsOnly x.verifies keys old new → BeginAlike anchor other
        → LetsIn x.verifies keys old.certs (A.admits a)
        → LetsIn x.verifies keys new.certs (B.admits b)
        → (p : Path) → IsAllFreeOf keys p → (c : CertFields)
        → IsChildOn x names (A.admits a) t anchor old p c
        ↔ IsChildOn x names (B.admits b) t other new p c }
    ensures shares { (verifier : V) (now : Moment) (strict names : Bool) (keys : List KeyFields)
        (old new : FolderFields) (t : NamedTal) (anchor other : List ℕ) (a : A) (b : B)
        → let x = context (V.verifies verifier) now strict in
        AddsOnly x.verifies keys old new → BeginAlike anchor other
        → LetsInEach x.verifies keys old.certs (A.admits a)
        → LetsInEach x.verifies keys new.certs (B.admits b)
        → (p : Path) → IsFreeOf keys p → (steps share : ℕ)
        → HasShareOn x names (A.admits a) t anchor old steps p share
        ↔ HasShareOn x names (B.admits b) t other new steps p share }
    ensures one_share { (verifier : V) (now : Moment) (strict names : Bool) (keys : List KeyFields)
        (folder : FolderFields) (t : NamedTal) (anchor : List ℕ) (a : A)
        → let x = context (V.verifies verifier) now strict in
        LetsInEach x.verifies keys folder.certs (A.admits a)
        → (p : Path) → IsFreeOf keys p → (steps share other : ℕ)
        → HasShareOn x names (A.admits a) t anchor folder steps p share
        → HasShareOn x names (A.admits a) t anchor folder steps p other → share ≡ other }
    ensures enough { (verifier : V) (now : Moment) (strict names : Bool) (keys : List KeyFields)
        (old new : FolderFields) (t : NamedTal) (anchor other : List ℕ) (a : A) (b : B)
        → let x = context (V.verifies verifier) now strict in
        AddsOnly x.verifies keys old new → BeginAlike anchor other
        → LetsInEach x.verifies keys old.certs (A.admits a)
        → LetsInEach x.verifies keys new.certs (B.admits b)
        → (p : Path) → IsAllFreeOf keys p → (depth steps : ℕ)
        → HasEnoughOn x names (A.admits a) t anchor old depth steps p
        ↔ HasEnoughOn x names (B.admits b) t other new depth steps p }
    ensures limits { (verifier : V) (now : Moment) (strict names : Bool) (keys : List KeyFields)
        (old new : FolderFields) (t : NamedTal) (anchor other : List ℕ) (a : A) (b : B)
        → let x = context (V.verifies verifier) now strict in
        AddsOnly x.verifies keys old new → BeginAlike anchor other
        → LetsInEach x.verifies keys old.certs (A.admits a)
        → LetsInEach x.verifies keys new.certs (B.admits b)
        → (p : Path) → IsAllFreeOf keys p → (depth steps children share : ℕ)
        → ReachesLimit x names (A.admits a) t anchor old depth steps p children share
        ↔ ReachesLimit x names (B.admits b) t other new depth steps p children share }
{
    rpki_cert::laws::unambiguous();
}

/// States that files of strangers change no verdict of a walk below CAs that have no key of theirs.
///
/// Take a directory, and the same one with added files. Each added file was signed by one of some
/// keys, or by none, or is a copy, as in [`rpki_folder::laws::isolated`]. Take a walk through each
/// of the two from one trust anchor, whose file may be a copy in one of them. Take a path on which
/// no CA, the trust anchor included, has one of these keys.
///
/// Two verdicts on one certificate below the path, one of each walk, are the same (`alike`): both
/// accept it, with the same resources, or both reject it, for the same reason. The reasons may
/// differ only if no CRL can be used: a forged CRL turns a missing CRL into a bad signature. The
/// walk with the added files accepts what the other accepted, if it admits the certificates of other
/// keys and looked below the path (`stays`), and the other way round (`only`).
///
/// Take two walks with the same limits that admit each certificate of other keys at one place only.
/// If the path's CAs have enough steps in one directory, they have enough in the other
/// ([`isolated_shares`]), and the walks accept the same certificates below the path, however they
/// ended (`bounded`). So do they if the walk without the added files ended `Whole`, or `TooDeep` and
/// the path is within its depth, however the other one ended (`unharmed`).
pub fn isolated_walks<A: Admission, B: Admission, V: Verifier>()
    ensures alike { (verifier : V) (now : Moment) (strict names : Bool) (keys : List KeyFields)
        (old new : FolderFields) (t : NamedTal) (anchor other : List ℕ) (a : A) (b : B)
        → let x = context (V.verifies verifier) now strict in
        AddsOnly x.verifies keys old new → BeginAlike anchor other
        → (w : Walked x names (A.admits a) t anchor old)
        (v : Walked x names (B.admits b) t other new)
        → (p : Path) → IsAllFreeOf keys p → (c : CertFields) (one two : Result Judged PathFault)
        → HasToldVerdict anchor old.certs w.verdicts p c one
        → HasToldVerdict other new.certs v.verdicts p c two → SayAlike names x old p c one two }
    ensures stays { (verifier : V) (now : Moment) (strict names : Bool) (keys : List KeyFields)
        (old new : FolderFields) (t : NamedTal) (anchor other : List ℕ) (a : A) (b : B)
        → let x = context (V.verifies verifier) now strict in
        AddsOnly x.verifies keys old new → BeginAlike anchor other
        → LetsIn x.verifies keys new.certs (B.admits b)
        → (w : Walked x names (A.admits a) t anchor old)
        (v : Walked x names (B.admits b) t other new)
        → (p : Path) → IsAllFreeOf keys p → (c : CertFields) → HasLookedBelow p v
        → IsToldAccepted anchor old.certs w.verdicts p c
        → IsToldAccepted other new.certs v.verdicts p c }
    ensures only { (verifier : V) (now : Moment) (strict names : Bool) (keys : List KeyFields)
        (old new : FolderFields) (t : NamedTal) (anchor other : List ℕ) (a : A) (b : B)
        → let x = context (V.verifies verifier) now strict in
        AddsOnly x.verifies keys old new → BeginAlike anchor other
        → LetsIn x.verifies keys old.certs (A.admits a)
        → (w : Walked x names (A.admits a) t anchor old)
        (v : Walked x names (B.admits b) t other new)
        → (p : Path) → IsAllFreeOf keys p → (c : CertFields) → HasLookedBelow p w
        → IsToldAccepted other new.certs v.verdicts p c
        → IsToldAccepted anchor old.certs w.verdicts p c }
    ensures bounded { (verifier : V) (now : Moment) (strict names : Bool) (keys : List KeyFields)
        (old new : FolderFields) (t : NamedTal) (anchor other : List ℕ) (a : A) (b : B)
        → let x = context (V.verifies verifier) now strict in
        AddsOnly x.verifies keys old new → BeginAlike anchor other
        → LetsInEach x.verifies keys old.certs (A.admits a)
        → LetsInEach x.verifies keys new.certs (B.admits b)
        → (w : Walked x names (A.admits a) t anchor old)
        (v : Walked x names (B.admits b) t other new)
        → w.depth ≡ v.depth → w.steps ≡ v.steps → (p : Path) → IsAllFreeOf keys p
        → HasEnoughOn x names (A.admits a) t anchor old w.depth w.steps p → (c : CertFields)
        → IsToldAccepted anchor old.certs w.verdicts p c
        ↔ IsToldAccepted other new.certs v.verdicts p c }
    ensures unharmed { (verifier : V) (now : Moment) (strict names : Bool) (keys : List KeyFields)
        (old new : FolderFields) (t : NamedTal) (anchor other : List ℕ) (a : A) (b : B)
        → let x = context (V.verifies verifier) now strict in
        AddsOnly x.verifies keys old new → BeginAlike anchor other
        → LetsInEach x.verifies keys old.certs (A.admits a)
        → LetsInEach x.verifies keys new.certs (B.admits b)
        → (w : Walked x names (A.admits a) t anchor old)
        (v : Walked x names (B.admits b) t other new)
        → w.depth ≡ v.depth → w.steps ≡ v.steps → (p : Path) → IsAllFreeOf keys p
        → Covers w.ended w.depth (last p + 1) → (c : CertFields)
        → IsToldAccepted anchor old.certs w.verdicts p c
        ↔ IsToldAccepted other new.certs v.verdicts p c }
{
    rpki_cert::laws::unambiguous();
}

/// States which walks admit each certificate of other keys at one place only, as
/// [`isolated_shares`] supposes: those by [`rpki_folder::Firsts`] (`firsts`), and those that admit
/// all, if no such certificate has a copy (`all_once`). Those that admit all admit it somewhere
/// (`all`).
pub fn admitted_once<V: Verifier>()
    ensures firsts { (verifier : V) (keys : List KeyFields) (certs : List (List ℕ))
        (table : Firsts) → AreFirstsIn certs table
        → LetsInEach (V.verifies verifier) keys certs (IsFirstIn table) }
    ensures all { (verifier : V) (keys : List KeyFields) (certs : List (List ℕ))
        → LetsIn (V.verifies verifier) keys certs (λ above place. Unit {0}) }
    ensures all_once { (verifier : V) (keys : List KeyFields) (certs : List (List ℕ))
        → HasOthersOnce (V.verifies verifier) keys certs
        → LetsInEach (V.verifies verifier) keys certs (λ above place. Unit {0}) }
{
    rpki_cert::laws::unambiguous();
}

/// States that three kinds of files add no more than [`isolated_walks`] supposes: a copy of a
/// certificate's file, followed by any bytes (`copy`); a certificate that no key but these signed
/// (`own`); and a CRL that no key but these signed (`own_list`).
pub fn added_files<V: Verifier>()
    ensures copy { (verifier : V) (keys : List KeyFields) (old : FolderFields)
        (octets more : List ℕ) → Contains old.certs octets
        → (c : CertFields) → Means IsCertificate c octets
        → AddsOnly (V.verifies verifier) keys old (with_cert old (octets ++ more)) }
    ensures own { (verifier : V) (keys : List KeyFields) (old : FolderFields) (octets : List ℕ)
        (c : CertFields) → Means IsCertificate c octets
        → IsSignedByOnly (V.verifies verifier) keys c.signed_data
        → AddsOnly (V.verifies verifier) keys old (with_cert old octets) }
    ensures own_list { (verifier : V) (keys : List KeyFields) (old : FolderFields) (l : CrlState)
        → IsSignedByOnly (V.verifies verifier) keys l.list.signed_data
        → AddsOnly (V.verifies verifier) keys old (with_list old l) }
{
    rpki_cert::laws::unambiguous();
}
