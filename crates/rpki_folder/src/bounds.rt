//! The limits of a walk, and how it ended.
ghost use Rattle.std.specs.Prelude.{◌≡◌};
ghost use Rattle.rpki_folder.specs.Walks.{worse};

use crate::limits::LimitTable;

/// The steps of a walk below one trust anchor, if the user doesn't say how many. They depend on
/// nothing in the folder: so no file changes how far a walk goes below other CAs.
pub const USUAL_STEPS: usize = 10_000_000;

/// The limits of a walk.
#[derive(Clone, Copy)]
pub struct Bounds {
    /// The most certificates that a path may have below the certificate at which the walk starts.
    pub depth: usize,
    /// The steps of the walk. A verdict on a child of a CA takes one, once for each path that leads
    /// to the child. They are divided evenly among the CAs below each CA; what is left over below
    /// one CA goes to no other.
    pub steps: usize,
}

/// How a walk ended.
#[derive(Clone, Copy, Debug, PartialEq, Eq)]
pub enum Ended {
    /// Every certificate that a path leads to was judged.
    Whole,
    /// Every certificate within the depth was judged. Below a CA at the greatest depth more may be
    /// valid.
    TooDeep,
    /// The share of a CA is less than its children, so none of these was judged. Below every other
    /// CA the walk went on.
    OutOfSteps,
}

/// The limit that a walk reached at a CA.
#[derive(Clone, Copy, Debug, PartialEq, Eq)]
pub enum Limit {
    /// The CA is at the greatest depth, and has a child.
    Depth,
    /// The share of the CA is less than its children. A walk of the same depth judges them if and
    /// only if it has at least this number of steps; `None` if a `usize` has no such number.
    Steps(Option<usize>),
}

/// How a walk ended, and the limits that it reached at each CA.
#[derive(Drop)]
pub struct Walked {
    /// How the walk ended: `Whole` if and only if no CA is limited, `OutOfSteps` if and only if the
    /// limit of one is [`Limit::Steps`].
    pub ended: Ended,
    /// The limits that the walk reached, by the certificates of the CAs. If it reached one, it judged
    /// none of the children of the CA there, on that path.
    pub limits: LimitTable,
}

impl Ended {
    /// Returns how two walks ended together: as the one that judged less, `OutOfSteps` before
    /// `TooDeep` before `Whole`.
    pub fn and(self, other: Ended) -> Ended
        ensures { result ≡ worse self other }
    {
        match (self, other) {
            (Ended::OutOfSteps, _) | (_, Ended::OutOfSteps) => Ended::OutOfSteps,
            (Ended::TooDeep, _) | (_, Ended::TooDeep) => Ended::TooDeep,
            (Ended::Whole, Ended::Whole) => Ended::Whole,
        }
    }
}
