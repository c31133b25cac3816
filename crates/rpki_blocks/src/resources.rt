//! The resources of one kind of numbers that a certificate lists, and the set that it gets.
ghost use Rattle.std.specs.Prelude.{◌≡◌, ◌≢◌, ℕ, ◌↔◌, IsTrue, IfOk, OnOk, MatchResult, MatchOption};
ghost use Rattle.rpki_blocks.specs.Sets.{IsSet, Has};

use crate::addr::Addr;
use crate::asn::Asn;
use crate::bound::Bound;
use crate::chain::Chain;
use crate::overclaim::Overclaim;
use std::alloc::{AllocError, Global};
use std::marker::Model;
use thiserror::Error;

/// Why a certificate gets no set of numbers.
#[derive(Debug, Drop, Error)]
pub enum IssueError {
    /// The certificate lists a number that its issuer does not have, and the mode is
    /// [`Overclaim::Refuse`] (RFC 6487 7.2).
    #[error("resources overclaimed")]
    Overclaimed,
    /// Memory ran out.
    #[error("out of memory")]
    Memory,
}

impl IssueError {
    ghost use Rattle.std.specs.Prelude.{◌≡◌, ◌↔◌, IsTrue};
    ghost use Rattle.rpki_blocks.specs.IssueErrorNames.{issue_error_name};
    ghost use Rattle.rpki_blocks.specs.declared.resources.IssueError.TheVariants as error;

    /// Returns the variant's name.
    pub fn name(&self) -> &'static str
        ensures { result.now ≡ issue_error_name self.now }
    {
        match self {
            IssueError::Overclaimed => "Overclaimed",
            IssueError::Memory => "Memory",
        }
    }

    /// Returns whether the error is `Memory`.
    pub fn is_memory(&self) -> bool
        ensures { IsTrue result ↔ self.now ≡ error.Memory }
    {
        match self {
            IssueError::Overclaimed => false,
            IssueError::Memory => true,
        }
    }
}

impl From<AllocError> for IssueError {
    ghost use Rattle.std.specs.Prelude.{◌≡◌};
    ghost use Rattle.rpki_blocks.specs.declared.resources.IssueError.TheVariants.{Memory};

    ghost from_gives = { λ _ e. e ≡ Memory };

    fn from(_refused: AllocError) -> IssueError {
        IssueError::Memory
    }
}

/// The error of inherited resources: their set is that of the issuer, and is not known without it
/// (RFC 3779 2.2.3.5, 3.2.3.3).
#[derive(Debug, Drop, Error)]
#[error("resources are inherited")]
pub struct Inherited;

impl Inherited {
    ghost use Rattle.std.specs.Prelude.{◌≡◌, codes};

    /// Returns the type's name.
    pub fn name(&self) -> &'static str
        ensures { result.now ≡ codes "Inherited" }
    {
        "Inherited"
    }
}

#[derive(Drop)]
enum Choice<B: Bound> {
    Missing,
    Inherit,
    Blocks(Chain<B>),
}

/// The resources of one kind of numbers that a certificate lists: none, those of its issuer, or a
/// set that is not empty (RFC 3779 2.2.3.4, 3.2.3.2).
#[derive(Drop)]
pub struct Resources<B: Bound> {
    choice: Choice<B>,
}

/// The IPv4 or the IPv6 resources that a certificate lists.
pub type IpResources = Resources<Addr>;

/// The AS resources that a certificate lists.
pub type AsResources = Resources<Asn>;

impl<B: Bound> Model for Resources<B> {
    ghost use Rattle.rpki_blocks.specs.Resources.{Resources as Listed, IsResources};

    ghost Value = { Listed };

    ghost use Rattle.rpki_blocks.specs.Resources.Views.{resources_of};

    ghost view = { λ r. resources_of r.choice };

    ghost invariant = { λ r. IsResources B.greatest (resources_of r.choice) };
}

impl<B: Bound> Resources<B> {
    ghost use Rattle.rpki_blocks.specs.Resources.{missing, inherit, blocks as listed_blocks, listed, IsResources, HasNoBlocks};

    /// Makes missing resources: the certificate lists nothing of this kind.
    pub fn missing() -> Resources<B>
        ensures { result ≡ missing }
    {
        Resources {
            choice: Choice::Missing,
        }
    }

    /// Makes inherited resources: those of the issuer (RFC 3779 2.2.3.5, 3.2.3.3).
    pub fn inherit() -> Resources<B>
        ensures { result ≡ inherit }
    {
        Resources {
            choice: Choice::Inherit,
        }
    }

    /// Makes resources that are a set. The empty set counts as missing (own).
    pub fn blocks(chain: Chain<B>) -> Resources<B>
        ensures { result ≡ listed chain }
    {
        if chain.is_empty() {
            Resources::missing()
        } else {
            Resources {
                choice: Choice::Blocks(chain),
            }
        }
    }

    /// Clones the resources. The copy is equal.
    ///
    /// # Errors
    ///
    /// Returns an error if memory runs out.
    pub fn try_clone(&self, alloc: Global) -> Result<Resources<B>, AllocError>
        ensures same { IfOk result (λ copy. copy ≡ self.now) }
    {
        let choice = match &self.choice {
            Choice::Missing => Choice::Missing,
            Choice::Inherit => Choice::Inherit,
            Choice::Blocks(chain) => Choice::Blocks(chain.try_clone(alloc)?),
        };
        Ok(Resources { choice })
    }

    /// Returns whether the resources are not missing: they are a set, or inherited.
    pub fn is_present(&self) -> bool
        ensures present { IsTrue result ↔ self.now ≢ missing }
        ensures fits { IsResources B.greatest self.now }
    {
        !matches!(&self.choice, Choice::Missing)
    }

    /// Returns whether the resources are inherited.
    pub fn is_inherited(&self) -> bool
        ensures { IsTrue result ↔ self.now ≡ inherit }
    {
        matches!(&self.choice, Choice::Inherit)
    }

    /// Returns the set, or `None` if the resources are missing or inherited.
    pub fn as_blocks(&self) -> Option<&Chain<B>>
        ensures { MatchOption result (HasNoBlocks self.now)
            (λ chain. self.now ≡ listed_blocks chain.now) }
    {
        match &self.choice {
            Choice::Blocks(chain) => Some(chain),
            _ => None,
        }
    }
}

impl<B: Bound> Chain<B> {
    ghost use Rattle.rpki_blocks.specs.Resources.{inherit, ListsSet};
    ghost use Rattle.rpki_blocks.specs.IssuedSets.{IsIssued, IsListed, IsOverclaim};

    /// Returns the set that resources list: the empty set if they are missing.
    ///
    /// # Errors
    ///
    /// Returns an error if and only if the resources are inherited.
    pub fn from_resources(alloc: Global, resources: Resources<B>) -> Result<Chain<B>, Inherited>
        ensures listed { MatchResult result (ListsSet resources) (λ _. resources ≡ inherit) }
        ensures set { IfOk result (IsSet B.greatest) }
    {
        match resources.choice {
            Choice::Missing => Ok(Self::empty(alloc)),
            Choice::Inherit => Err(Inherited),
            Choice::Blocks(chain) => Ok(chain),
        }
    }

    /// Returns the set that a certificate gets from the resources that it lists. `self` is the set
    /// of the issuer (RFC 6487 7.2, RFC 8360 4.2).
    ///
    /// - Missing resources: the empty set.
    /// - Inherited resources: the set of the issuer.
    /// - A set, and `mode` is [`Overclaim::Refuse`]: that set.
    /// - A set, and `mode` is [`Overclaim::Trim`]: the numbers in that set that the issuer has.
    ///
    /// # Errors
    ///
    /// Returns `Overclaimed` if and only if `mode` is [`Overclaim::Refuse`] and a listed number is
    /// not in the issuer's set. Returns `Memory` if memory runs out.
    pub fn verify_issued(
        &self,
        alloc: Global,
        listed: &Resources<B>,
        mode: Overclaim,
    ) -> Result<Chain<B>, IssueError>
        ensures issued { IfOk result (IsIssued self.now listed.now) }
        ensures set { IfOk result (IsSet B.greatest) }
        ensures held { OnOk result
            (mode ≡ Overclaim.Refuse → (n : ℕ) → IsListed n listed.now → Has self.now n) }
        ensures overclaimed { (result ≡ Err IssueError.Overclaimed)
            ↔ ((mode ≡ Overclaim.Refuse) × IsOverclaim B.greatest (Has self.now) listed.now) }
    {
        match &listed.choice {
            Choice::Missing => Ok(Chain::empty(alloc)),
            Choice::Inherit => Ok(self.try_clone(alloc)?),
            Choice::Blocks(chain) => match mode {
                Overclaim::Refuse => {
                    if chain.is_encompassed(self) {
                        Ok(chain.try_clone(alloc)?)
                    } else {
                        Err(IssueError::Overclaimed)
                    }
                }
                Overclaim::Trim => Ok(chain.intersection(alloc, self)?),
            },
        }
    }
}
