//! Visitors, which a walk calls with each verdict.
ghost use Rattle.std.specs.Prelude.{◌≡◌, None, Some, ◌++◌, ◌∷◌, [], List, OnOk, OnErr};
ghost use Rattle.rpki_folder.specs.Walks.{Told, told_at};

use rpki_cert::{Cert, ResourceCert};
use rpki_path::PathFault;
use std::alloc::AllocError;
use std::marker::Model;

/// An accepted certificate: for a router's certificate, with the CA above it.
#[derive(Drop)]
pub struct Accepted<'w> {
    /// The accepted certificate with the resources that it holds; for a router's certificate, the
    /// CA above it with its resources.
    pub holder: &'w ResourceCert,
    /// The accepted router's certificate, which holds no resources itself (RFC 8209).
    pub router: Option<&'w Cert>,
}

impl<'w> Model for Accepted<'w> {
    ghost use Rattle.std.specs.Prelude.{option_copied};
    ghost use Rattle.rpki_path.specs.declared.judging.Judged.{Judged};

    ghost Value = { Judged };

    ghost view = { λ a. record { holder = a.holder.now; router = option_copied a.router } };
}

impl<'w> Accepted<'w> {
    // A certificate of a path that isn't a router's.
    pub(crate) fn member(holder: &'w ResourceCert) -> Accepted<'w>
        ensures { result ≡ record { holder = holder.now; router = None } }
    {
        let router = None;
        Accepted { holder, router }
    }

    // A router below a CA that holds resources.
    pub(crate) fn router(holder: &'w ResourceCert, cert: &'w Cert) -> Accepted<'w>
        ensures { result ≡ record { holder = holder.now; router = Some cert.now } }
    {
        let router = Some(cert);
        Accepted { holder, router }
    }
}

/// Receives the verdicts of a walk, certificate by certificate.
///
/// An implementation states by the relation `became` what it keeps of the verdicts: a visitor that
/// received these verdicts, in this order, is this one now. It may keep all of them, or a line for
/// each place ([`crate::Lines`]), or nothing.
pub trait Visitor {
    ghost use Rattle.std.specs.Prelude.{List, []};
    ghost use Rattle.rpki_folder.specs.Walks.{Told};

    /// The first visitor is the second one after it received these verdicts, the earliest in front.
    ghost became: { Self → List Told → Self → Type 0 };

    /// Receives the verdict on the certificate at a place, below the CAs at the places `above`,
    /// from the top down.
    ///
    /// # Errors
    ///
    /// Returns an error if memory runs out. The visitor is then as if it had not received the
    /// verdict.
    fn tell(
        &mut self,
        above: &[usize],
        place: usize,
        verdict: Result<Accepted<'_>, PathFault>,
    ) -> Result<(), AllocError>
        ensures ok { (v : Self) (ts : List Told) → became v ts self.old
            → OnOk result (became v (ts ++ told_at above.now place verdict.entry ∷ []) self.new) }
        ensures err { (v : Self) (ts : List Told) → became v ts self.old
            → OnErr result (became v ts self.new) };

    /// A visitor that received no verdict is unchanged.
    ghost begins: { (v : Self) → became v [] v };
}
