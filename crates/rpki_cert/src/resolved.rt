//! The numbers of one kind that a verified certificate has.
ghost use Rattle.std.specs.Prelude.{◌≡◌, IfOk};
ghost use Rattle.rpki_blocks.specs.Resources.{Resources as Listed};
ghost use Rattle.rpki_cert.specs.Verification.{ListsNumbers};
ghost use Rattle.rpki_cert.specs.Verification.Views.{set_of};

use rpki_blocks::{Bound, Chain, Resources};
use std::alloc::{AllocError, Global};

// The numbers that a certificate has once what it inherits is resolved: those of the set that it
// lists, of which no copy is kept, or those of a set of its own.
#[derive(Drop)]
pub(crate) struct Resolved<B: Bound> {
    is_listed: bool,
    own: Chain<B>,
}

impl<B: Bound> Resolved<B> {
    // The numbers that are listed; none where no set is listed.
    pub(crate) fn listed(alloc: Global) -> Resolved<B>
        ensures { (r : Listed) → ListsNumbers r (set_of result r) }
    {
        Resolved {
            is_listed: true,
            own: Chain::empty(alloc),
        }
    }

    // The numbers of this set, whatever is listed.
    pub(crate) fn owned(set: Chain<B>) -> Resolved<B>
        ensures { (r : Listed) → set_of result r ≡ set }
    {
        Resolved {
            is_listed: false,
            own: set,
        }
    }

    // The set of a certificate that lists this.
    pub(crate) fn set<'a>(&'a self, listed: &'a Resources<B>) -> &'a Chain<B>
        ensures { result.now ≡ set_of self.now listed.now }
    {
        match listed.as_blocks() {
            Some(set) if self.is_listed => set,
            _ => &self.own,
        }
    }

    // Clones what is kept.
    pub(crate) fn try_clone(&self, alloc: Global) -> Result<Resolved<B>, AllocError>
        ensures { IfOk result (λ copy. copy ≡ self.now) }
    {
        let own = self.own.try_clone(alloc)?;
        Ok(Resolved {
            is_listed: self.is_listed,
            own,
        })
    }
}
