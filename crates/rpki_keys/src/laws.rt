//! Laws about the definitions of keys. Each is the contract of an empty function.
ghost use Rattle.std.specs.Prelude.{◌≡◌, ◌↔◌};
ghost use Rattle.rpki_parts.specs.Keys.{KeyFields};
ghost use Rattle.rpki_keys.specs.KeyForms.{IsKeyForm, IsUsableForm, IsUsableKey};
ghost use Rattle.rpki_keys.specs.declared.form.KeyForm.{KeyForm};

/// States that a key has at most one form.
pub fn one_form()
    ensures { (one other : KeyForm) (key : KeyFields)
        → IsKeyForm one key → IsKeyForm other key → one ≡ other }
{}

/// States that the form of a key decides whether the RPKI uses it.
pub fn usable_forms()
    ensures { (form : KeyForm) (key : KeyFields)
        → IsKeyForm form key → IsUsableKey key ↔ IsUsableForm form }
{}
