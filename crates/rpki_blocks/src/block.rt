//! Blocks of numbers.
ghost use Rattle.std.specs.Prelude.{◌≡◌, ◌+◌, ◌<◌, ◌≤◌, ◌↔◌, IsTrue, ◌⊎◌, MatchOption, min, max};
ghost use Rattle.std.specs.Ordering.{nat_cmp};
ghost use Rattle.std.specs.Bool.{MatchBool};

use crate::addr::Addr;
use crate::asn::Asn;
use crate::bound::{Bound, greater, is_below, lesser, order};
use std::alloc::AllocError;
use std::cmp::Ordering;
use std::marker::Model;

/// The numbers from a lower end to an upper end, both included. The upper end is not below the
/// lower end.
#[derive(Copy)]
pub struct Block<B: Bound> {
    min: B,
    max: B,
}

/// A block of IP addresses.
pub type IpBlock = Block<Addr>;

/// A block of AS numbers.
pub type AsBlock = Block<Asn>;

impl<B: Bound> Model for Block<B> {
    ghost use Rattle.std.specs.Prelude.{◌≤◌};
    ghost use Rattle.rpki_blocks.specs.Sets.{Block as Span};

    ghost Value = { Span };

    ghost view = { λ b. record { min = B.number b.min; max = B.number b.max } };

    ghost invariant = { λ b. B.number b.min ≤ B.number b.max };

    ghost inverse = { λ s. record { min = B.value s.min; max = B.value s.max } };

    ghost inverse_ok = { λ a h i.
        record { min = B.has_number a.min i; max = B.has_number a.max i } };
}

impl<B: Bound> Block<B> {
    ghost use Rattle.rpki_blocks.specs.Pairs.{IsMeet, AreApart, IsJoin};

    /// Returns the lower end.
    pub fn min(self) -> B
        ensures { B.number result ≡ self.min }
    {
        self.min
    }

    /// Returns the upper end.
    pub fn max(self) -> B
        ensures { B.number result ≡ self.max }
    {
        self.max
    }

    /// Does nothing. Its contract says that the lower end is not above the upper end, and that the
    /// upper end is a number of the type.
    pub fn known(self)
        ensures ordered { self.min ≤ self.max }
        ensures small { self.max ≤ B.greatest }
    {
        // Called for what it ensures alone.
        self.max.known();
    }

    // The numbers between the two, in either order.
    pub(crate) fn between(x: B, y: B) -> Block<B>
        ensures lower { result.min ≡ min (B.number x) (B.number y) }
        ensures upper { result.max ≡ max (B.number x) (B.number y) }
    {
        if is_below(y, x) {
            Block { min: y, max: x }
        } else {
            Block { min: x, max: y }
        }
    }

    // The numbers from the first end to the second.
    #[inline(always)]
    pub(crate) fn of_ends(min: B, max: B) -> Block<B>
        requires { B.number min ≤ B.number max }
        ensures { result ≡ record { min = B.number min; max = B.number max } }
    {
        Block { min, max }
    }

    // The numbers that are in both, if there are any.
    pub(crate) fn meet(self, other: Block<B>) -> Option<Block<B>>
        ensures { MatchOption result (AreApart self other) (IsMeet self other) }
    {
        let low = greater(self.min, other.min);
        let high = lesser(self.max, other.max);
        if is_below(high, low) {
            None
        } else {
            Some(Block {
                min: low,
                max: high,
            })
        }
    }

    // How the lower ends compare.
    pub(crate) fn order(&self, other: &Block<B>) -> Ordering
        ensures { result ≡ nat_cmp self.now.min other.now.min }
    {
        order(self.min, other.min)
    }

    // Whether the other begins in it, right behind it or before it.
    pub(crate) fn reaches(self, other: Block<B>) -> bool
        ensures reaches { IsTrue result ↔ other.min ≤ self.max + 1 }
        ensures ordered { other.min ≤ other.max }
        ensures small { other.max ≤ B.greatest }
    {
        // Called for what it ensures alone.
        other.min.known();
        other.max.known();
        match self.max.next() {
            Some(after) => !is_below(after, other.min),
            None => true,
        }
    }

    // From its lower end to the greater of both upper ends.
    pub(crate) fn join(self, other: Block<B>) -> Block<B>
        ensures { IsJoin self other result }
    {
        Block {
            min: self.min,
            max: greater(self.max, other.max),
        }
    }

    // Whether its numbers are all below the other's.
    pub(crate) fn is_before(self, other: Block<B>) -> bool
        ensures { IsTrue result ↔ self.max < other.min }
    {
        is_below(self.max, other.min)
    }

    // Whether its numbers are all in the other.
    pub(crate) fn is_within(self, other: Block<B>) -> bool
        ensures { MatchBool result
            ((other.min ≤ self.min) × (self.max ≤ other.max))
            ((self.min < other.min) ⊎ (other.max < self.max)) }
    {
        !is_below(self.min, other.min) && !is_below(other.max, self.max)
    }

    // Whether it ends before the other does.
    pub(crate) fn ends_before(self, other: Block<B>) -> bool
        ensures { IsTrue result ↔ self.max < other.max }
    {
        is_below(self.max, other.max)
    }
}

impl<B: Bound> Clone for Block<B> {
    ghost use Rattle.std.specs.Prelude.{◌≡◌};

    ghost is_clone = { λ x y. y ≡ x };

    ghost is_infallible = { λ _. Unit {0} };

    fn clone(&self) -> Result<Self, AllocError> {
        Ok(*self)
    }
}

/// Makes the block of the numbers between the two ends, both included, given in either order.
impl<B: Bound> From<(B, B)> for Block<B> {
    ghost use Rattle.std.specs.Prelude.{◌≡◌, min, max};

    ghost from_gives = { λ ends b.
        (b.min ≡ min (B.number ends.0) (B.number ends.1))
        × (b.max ≡ max (B.number ends.0) (B.number ends.1)) };

    fn from((x, y): (B, B)) -> Block<B> {
        Block::between(x, y)
    }
}
