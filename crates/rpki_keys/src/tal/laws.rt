//! Laws about the definitions of TALs. Each is the contract of an empty function.
ghost use Rattle.std.specs.Prelude.{◌≡◌, ℕ, List, Bool, true, false};
ghost use Rattle.rpki_keys.specs.Locators.{IsLocator, TalFields};

/// States that a file is at most one TAL: it has one sequence of URIs, and one key.
pub fn unambiguous()
    ensures { (strict other : Bool) (t u : TalFields) (file : List ℕ)
        → IsLocator strict t file → IsLocator other u file → t ≡ u }
{}

/// States that a file that is a TAL in strict mode is the same TAL without strict mode.
pub fn lenient()
    ensures { (t : TalFields) (file : List ℕ) → IsLocator true t file → IsLocator false t file }
{}
