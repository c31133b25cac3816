//! How sets of numbers are printed.
ghost use Rattle.std.specs.Prelude.{◌≡◌, ℕ, List, [], ◌∷◌, ◌++◌, OnOk, IfOk, map, decimal, string_bytes};
ghost use Rattle.std.specs.List.{concat};
ghost use Rattle.rpki_lines.specs.TextLines.{space};
ghost use Rattle.rpki_lines.specs.PrintedSets.{v4_end, v6_end, range, ranges, name_and_words};
ghost use Rattle.rpki_lines.specs.Program.{output_of};
ghost use Rattle.rpki_blocks.specs.Sets.{between, IsChain};

use rpki_blocks::{Addr, Asn, Bound, Chain};
use std::alloc::{AllocError, Global};

/// A kind of numbers, by how the ends of its ranges are printed.
pub(crate) trait Ends {
    ghost use Rattle.std.specs.Prelude.{ℕ, List};

    type Number: Bound;

    /// The printed text of a number.
    ghost text: { ℕ → List ℕ };

    /// Writes the number as it is printed.
    fn end(alloc: Global, at: Self::Number) -> Result<String, AllocError>
        ensures { IfOk result (λ end. string_bytes end ≡ text (Self.Number.number at)) };
}

/// IPv4 addresses.
pub(crate) struct V4;

impl Ends for V4 {
    type Number = Addr;

    ghost text = { v4_end };

    fn end(alloc: Global, at: Addr) -> Result<String, AllocError>
        ensures { IfOk result (λ end. string_bytes end ≡ v4_end at) }
    {
        let upper = (at.to_bits() >> 96) as u32;
        hex::encode(alloc, upper.to_be_bytes())
    }
}

/// IPv6 addresses.
pub(crate) struct V6;

impl Ends for V6 {
    type Number = Addr;

    ghost text = { v6_end };

    fn end(alloc: Global, at: Addr) -> Result<String, AllocError>
        ensures { IfOk result (λ end. string_bytes end ≡ v6_end at) }
    {
        hex::encode(alloc, at.to_bits().to_be_bytes())
    }
}

/// AS numbers.
pub(crate) struct As;

impl Ends for As {
    type Number = Asn;

    ghost text = { decimal };

    fn end(alloc: Global, at: Asn) -> Result<String, AllocError>
        ensures { IfOk result (λ end. string_bytes end ≡ decimal at) }
    {
        let number = at.into_u32();
        format!(in alloc; "{number}")
    }
}

// Appends a range behind a space.
fn put_range<E: Ends>(
    alloc: Global,
    out: &mut String,
    min: E::Number,
    max: E::Number,
) -> Result<(), AllocError>
    ensures { OnOk result (string_bytes out.new ≡ string_bytes out.old
        ++ space ∷ range E.text (between (E.Number.number min) (E.Number.number max))) }
{
    let low = E::end(alloc, min)?;
    let high = E::end(alloc, max)?;
    out.push_str(" ")?;
    out.push_str(&low)?;
    out.push_str("-")?;
    out.push_str(&high)
}

// Appends the ranges of a set, each behind a space.
fn put_ranges<E: Ends>(
    alloc: Global,
    out: &mut String,
    chain: &Chain<E::Number>,
) -> Result<(), AllocError>
    ensures put { OnOk result (string_bytes out.new ≡ string_bytes out.old
        ++ concat (map (λ block. space ∷ range E.text block) chain.now)) }
    ensures sorted { OnOk result (IsChain chain.now) }
{
    for block in chain.iter() {
        put_range::<E>(alloc, out, block.min(), block.max())?;
    }
    Ok(())
}

// Appends the ranges of a set, or `none`.
#[tactic(auto, using(crate::proofs::PrintedRanges::ranges_none))]
fn put_words<E: Ends>(
    alloc: Global,
    out: &mut String,
    chain: &Chain<E::Number>,
) -> Result<(), AllocError>
    ensures put { OnOk result (string_bytes out.new
        ≡ name_and_words (string_bytes out.old) (ranges E.text chain.now)) }
    ensures sorted { OnOk result (IsChain chain.now) }
{
    if chain.is_empty() {
        return out.push_str(" none");
    }
    put_ranges::<E>(alloc, out, chain)
}

/// Writes the line of a set: its name, and its ranges or `none`.
#[tactic(auto, using(crate::proofs::PrintedRanges::whole_line))]
pub(crate) fn set_line<E: Ends>(
    alloc: Global,
    name: &str,
    chain: &Chain<E::Number>,
) -> Result<String, AllocError>
    ensures line { IfOk result (λ text. string_bytes text
        ≡ output_of (name_and_words name.now (ranges E.text chain.now) ∷ [])) }
    ensures sorted { OnOk result (IsChain chain.now) }
{
    let mut line = String::from_str(alloc, name)?;
    put_words::<E>(alloc, &mut line, chain)?;
    line.push_str("\n")?;
    Ok(line)
}
