//! The share of the steps that a CA has, and what a share costs.
ghost use Rattle.std.specs.Prelude.{◌≡◌, ◌+◌, ◌-◌, ◌*◌, ◌/◌, ◌<◌, ◌≤◌, ℕ};
ghost use Rattle.rpki_folder.specs.ReachedLimits.{IsToldNumber};
ghost use Rattle.rpki_folder.specs.ReachedLimits.Steps.{CostIs};

/// What a share costs: a walk of `base + factor * share` steps hands down this share.
#[derive(Clone, Copy)]
pub(crate) struct Cost {
    base: usize,
    factor: usize,
}

/// The share of a CA.
#[derive(Clone, Copy)]
pub(crate) struct Share {
    /// Its steps.
    pub(crate) steps: usize,
    /// What such a share costs; `None` if a share of one step costs more steps than a `usize` has.
    pub(crate) cost: Option<Cost>,
}

impl Cost {
    // The steps that a share costs, if a `usize` has so many.
    fn of(self, share: usize) -> Option<usize>
        ensures { IsToldNumber result (self.base + self.factor * share) }
    {
        let more = self.factor.checked_mul(share)?;
        self.base.checked_add(more)
    }

    // What a share costs below a CA with so many children, of which so many are CAs.
    fn below(self, children: usize, cas: usize) -> Option<Cost>
        ensures { CostIs result (self.base + self.factor * children) (self.factor * cas) }
    {
        let base = self.of(children)?;
        let factor = self.factor.checked_mul(cas)?;
        Some(Cost { base, factor })
    }
}

impl Share {
    /// Returns the share of the certificate below which a walk of so many steps starts.
    pub(crate) fn whole(steps: usize) -> Share
        ensures steps { result.steps ≡ steps }
        ensures cost { CostIs result.cost 0 1 }
    {
        let cost = Some(Cost { base: 0, factor: 1 });
        Share { steps, cost }
    }

    /// Returns the steps of a walk in which this share would be so many, if a `usize` has that
    /// number.
    pub(crate) fn needed(self, children: usize) -> Option<usize>
        requires { 0 < children }
        ensures { (base factor : ℕ) → CostIs self.cost base factor
            → IsToldNumber result (base + factor * children) }
    {
        self.cost?.of(children)
    }

    /// Returns the share of each CA below this one, if it has so many children, of which so many
    /// are CAs.
    pub(crate) fn below(self, children: usize, cas: usize) -> Share
        requires enough { children ≤ self.steps }
        requires some { 0 < cas }
        ensures steps { result.steps ≡ (self.steps - children) / cas }
        ensures cost { (base factor : ℕ) → CostIs self.cost base factor
            → CostIs result.cost (base + factor * children) (factor * cas) }
    {
        let steps = (self.steps - children) / cas;
        let cost = match self.cost {
            Some(cost) => cost.below(children, cas),
            None => None,
        };
        Share { steps, cost }
    }
}
