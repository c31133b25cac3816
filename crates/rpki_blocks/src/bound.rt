//! The kinds of numbers that blocks have as ends.
ghost use Rattle.std.specs.Prelude.{◌≡◌, ℕ, ◌+◌, ◌<◌, ◌≤◌, ◌↔◌, IsTrue, IsNone, IfSome, min, max};
ghost use Rattle.std.specs.Ordering.{nat_cmp};

use std::cmp::Ordering;

/// An end of a block: a value with a whole number, from 0 to the greatest of its type.
pub trait Bound: Copy + Ord {
    /// The number of a value.
    ghost number: { Self → ℕ };

    /// The value of a number.
    ghost value: { ℕ → Self };

    /// The value of a value's number is that value. So two values are equal if their numbers are.
    ghost has_number: { (x : Self) → value (number x) ≡ x };

    /// The greatest number of the type.
    ghost greatest: { ℕ };

    /// Does nothing. Its contract says that the number of a value is at most the greatest.
    fn known(self)
        ensures { number self ≤ greatest };

    /// Returns the value with the next number, or `None` for the greatest.
    fn next(self) -> Option<Self>
        ensures last { IsNone result ↔ number self ≡ greatest }
        ensures more { IfSome result (λ after. number after ≡ number self + 1) };

    /// Values are ordered by their numbers.
    ghost ordered: { (x y : Self) → Self.cmp x y ≡ nat_cmp (number x) (number y) };
}

/// Returns whether the first number is below the second.
pub fn is_below<B: Bound>(x: B, y: B) -> bool
    ensures { IsTrue result ↔ B.number x < B.number y }
{
    x.cmp(&y).is_lt()
}

/// Compares the numbers.
pub fn order<B: Bound>(x: B, y: B) -> Ordering
    ensures { result ≡ nat_cmp (B.number x) (B.number y) }
{
    x.cmp(&y)
}

/// Returns the one with the lesser number.
pub fn lesser<B: Bound>(x: B, y: B) -> B
    ensures { B.number result ≡ min (B.number x) (B.number y) }
{
    if is_below(y, x) { y } else { x }
}

/// Returns the one with the greater number.
pub fn greater<B: Bound>(x: B, y: B) -> B
    ensures { B.number result ≡ max (B.number x) (B.number y) }
{
    if is_below(x, y) { y } else { x }
}
