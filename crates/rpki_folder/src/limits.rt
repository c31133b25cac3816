//! The limits that a walk reached, by the certificates of the CAs at which it reached them.
ghost use Rattle.std.specs.Prelude.{◌≡◌, ◌∷◌, [], IfOk};
ghost use Rattle.rpki_folder.specs.LimitTables.{both_reached, ca_at, least, lesser, nothing, of_limit, reached_at};
ghost use Rattle.rpki_folder.specs.ReachedLimits.{limited_ca};
ghost use Rattle.rpki_folder.specs.ReachedLimits.Steps.{AreCounted, IsEmpty};

use crate::bounds::Limit;
use std::alloc::{AllocError, Global};

/// The limits that a walk reached at one certificate: at the CA, by each of the paths to it.
#[derive(Clone, Copy, Debug, PartialEq, Eq)]
pub struct Reached {
    /// The number of paths to the certificate at whose end the walk reached a limit.
    pub paths: usize,
    /// Whether one of these was the limit of depth.
    pub deep: bool,
    /// Whether one of these was a limit of steps.
    pub short: bool,
    /// The least number of steps with which a walk judges the children on such a path, if one is
    /// known.
    pub needed: Option<usize>,
}

/// The limits that a walk reached, by the places of the certificates.
#[derive(Drop)]
pub struct LimitTable {
    // The place of the certificate below which the walk started.
    pub(crate) start: usize,
    // At each place what was reached there, and once more behind them.
    pub(crate) reached: Vec<Reached>,
}

// The lesser of two numbers, if they are known.
fn lesser(one: Option<usize>, other: Option<usize>) -> Option<usize>
    ensures { result ≡ lesser one other }
{
    match (one, other) {
        (Some(one), Some(other)) => Some(one.min(other)),
        (Some(one), None) => Some(one),
        (None, other) => other,
    }
}

impl Reached {
    /// The walk reached no limit.
    pub fn nothing() -> Reached
        ensures { result ≡ nothing }
    {
        Reached {
            paths: 0,
            deep: false,
            short: false,
            needed: None,
        }
    }

    // This limit was reached at one path.
    fn of(limit: Limit) -> Reached
        ensures { result ≡ of_limit limit }
    {
        match limit {
            Limit::Depth => Reached {
                paths: 1,
                deep: true,
                short: false,
                needed: None,
            },
            Limit::Steps(needed) => Reached {
                paths: 1,
                deep: false,
                short: true,
                needed,
            },
        }
    }

    /// Returns the limits that were reached, if these were and the others.
    pub fn and(self, other: Reached) -> Reached
        ensures { result ≡ both_reached self other }
    {
        Reached {
            paths: self.paths.saturating_add(other.paths),
            deep: self.deep || other.deep,
            short: self.short || other.short,
            needed: lesser(self.needed, other.needed),
        }
    }

    /// Returns the limit at which the least has to be changed: the least number of steps, if one is
    /// known, or else the depth. `None` if the walk reached no limit at the certificate.
    pub fn least(self) -> Option<Limit>
        ensures { result ≡ least self }
    {
        match (self.needed, self.deep, self.short) {
            (Some(steps), _, _) => Some(Limit::Steps(Some(steps))),
            (None, true, _) => Some(Limit::Depth),
            (None, false, true) => Some(Limit::Steps(None)),
            (None, false, false) => None,
        }
    }
}

impl LimitTable {
    /// Makes the table of a walk that reached no limit yet, below the certificate at this place.
    pub(crate) fn new(alloc: Global, start: usize, count: usize) -> Result<LimitTable, AllocError>
        ensures { IfOk result (IsEmpty start count) }
    {
        let mut reached = vec![in alloc; Reached::nothing(); count]?;
        reached.push(Reached::nothing())?;
        Ok(LimitTable { start, reached })
    }

    // The place of the last of these CAs, or that at which the walk started.
    fn ca_at(&self, above: &[usize]) -> usize
        ensures { result ≡ ca_at self.now.start above.now }
    {
        match above.last() {
            Some(place) => *place,
            None => self.start,
        }
    }

    /// Counts a limit that was reached at the last of these CAs.
    pub(crate) fn reach(&mut self, above: &[usize], limit: Limit)
        ensures { AreCounted self.old (limited_ca above.now limit ∷ []) self.new }
    {
        let place = self.ca_at(above);
        if place < self.reached.len() {
            self.reached[place] = Reached::of(limit).and(self.reached[place]);
        }
    }

    /// Returns the limits that the walk reached at the certificate at a place.
    pub fn at(&self, place: usize) -> Reached
        ensures { result ≡ reached_at self.now place }
    {
        match self.reached.get(place) {
            Some(reached) => *reached,
            None => Reached::nothing(),
        }
    }

    /// Returns the limits that the walk reached at the certificate below which it started.
    pub fn at_start(&self) -> Reached
        ensures { result ≡ reached_at self.now self.now.start }
    {
        self.at(self.start)
    }
}
