//! What follows from the definitions of URIs alone. Each law is the contract of an empty function.
ghost use Rattle.std.specs.Prelude.{◌≡◌, List, ℕ, codes};
ghost use Rattle.rpki_parts.specs.Uris.{IsRsync, IsHttps, AreEqual, AreIdentical, HasNoPath, IsParent};
ghost use Rattle.rpki_parts.specs.UriLaws.{IsEquivalence};

/// Says that equality of URIs is an equivalence, and so is identity of rsync URIs.
pub fn equivalences()
    ensures rsync { IsEquivalence IsRsync (AreEqual (codes "rsync://")) }
    ensures https { IsEquivalence IsHttps (AreEqual (codes "https://")) }
    ensures identical { IsEquivalence IsRsync AreIdentical }
{}

/// Says that a URI has one parent, which is a URI, if its path isn't empty, and none if it is.
pub fn one_parent()
    ensures parent { (uri p q : List ℕ) → IsParent uri p → IsParent uri q → p ≡ q }
    ensures valid { (uri p : List ℕ) → IsRsync uri → IsParent uri p → IsRsync p }
    ensures none { (uri p : List ℕ) → HasNoPath uri → IsParent uri p → ⊥ }
{}
