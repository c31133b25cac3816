//! Which certificates a walk admits.
ghost use Rattle.std.specs.Prelude.{◌↔◌, IsTrue};

/// Decides which certificates a walk judges.
///
/// A caller who reads manifests restricts the walk by it to the certificates whose hash the
/// manifest of the CA above them lists. The relation is a fact about places, so the decision
/// doesn't depend on what the walk has found.
pub trait Admission {
    ghost use Rattle.std.specs.Prelude.{ℕ, List};

    /// The walk judges the certificate at this place below the CAs at these places, from the top
    /// down.
    ghost admits: { Self → List ℕ → ℕ → Type 0 };

    /// Returns whether the walk judges the certificate at `place` below the CAs at the places
    /// `above`, from the top down.
    fn is_admitted(&self, above: &[usize], place: usize) -> bool
        ensures { IsTrue result ↔ admits self.now above.now place };
}

/// Admits every certificate.
///
/// # Not checked
///
/// Whether a manifest lists the certificate.
#[derive(Clone, Copy)]
pub struct AllAdmitted;

impl Admission for AllAdmitted {
    ghost admits = { λ _ _ _. Unit {0} };

    fn is_admitted(&self, _above: &[usize], _place: usize) -> bool {
        true
    }
}
