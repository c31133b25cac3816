//! The AS numbers that a certificate lists (RFC 3779 3.2.3).
ghost use Rattle.std.specs.Prelude.{◌^◌, Some};
ghost use Rattle.rpki_der.proofs.Choices.{choice_shrinks, conversion_shrinks, content_shrinks, inside_shrinks};
ghost use Rattle.rpki_der.specs.Primitives.Reading.{number_below, u32_at};
ghost use Rattle.rpki_der.specs.Tags.{INTEGER, SEQUENCE};
ghost use Rattle.rpki_der.specs.Answers.{AnswersOrMemory};
ghost use Rattle.rpki_der.specs.Place.{remaining, Keeps};
ghost use Rattle.rpki_der.specs.Place.Reading.{Took, TookOrMemory};
ghost use Rattle.rpki_der.specs.Values.{AreOctets};
ghost use Rattle.rpki_blocks.specs.Sets.{between};
ghost use Rattle.rpki_blocks.specs.Systems.{as_id_format, as_ends_format, as_range_format, as_id_or_range_format, as_identifiers_format};

use crate::asn::Asn;
use crate::block::AsBlock;
use crate::elements::{Elements, take_choice};
use crate::resources::AsResources;
use rpki_der::{Cursor, DecodeError, tag};
use std::alloc::Global;

// The kind of AS numbers.
struct AsNumbers;

// The range that stands next.
#[tactic(auto, unfolding(crate::specs::Systems::as_range_format))]
#[inline(always)]
fn take_range(cursor: &mut Cursor<'_>) -> Result<AsBlock, DecodeError>
    ensures reads { Took as_range_format.read cursor.old result cursor.new }
    ensures keeps { Keeps result cursor.old cursor.new }
{
    let mut ahead = cursor.fork();
    let mut content = ahead.take_sequence()?;
    let low = content.take_u32()?;
    let high = content.take_u32()?;
    if high < low {
        return Err(DecodeError::BadValue);
    }
    content.finish()?;
    *cursor = ahead;
    Ok(AsBlock::of_ends(Asn::from(low), Asn::from(high)))
}

// The number or the range that stands next.
#[tactic(auto, unfolding(crate::specs::Systems::as_id_or_range_format))]
#[inline(always)]
fn take_element(cursor: &mut Cursor<'_>) -> Result<AsBlock, DecodeError>
    ensures reads { Took as_id_or_range_format.read cursor.old result cursor.new }
    ensures keeps { Keeps result cursor.old cursor.new }
{
    match cursor.rest() {
        [tag::SEQUENCE, ..] => take_range(cursor),
        _ => {
            let number = Asn::from(cursor.take_u32()?);
            Ok(AsBlock::of_ends(number, number))
        }
    }
}

impl Elements for AsNumbers {
    type End = Asn;

    ghost element = { λ _. as_id_or_range_format };

    #[inline(always)]
    fn take_element(&self, cursor: &mut Cursor<'_>) -> Result<AsBlock, DecodeError> {
        take_element(cursor)
    }

    // No element is shorter than three octets.
    fn room(&self, octets: usize) -> usize {
        octets / 3 + 1
    }

    ghost shrinks = { λ _. unfold as_id_or_range_format as_range_format u32_at in
        choice_shrinks SEQUENCE as_range_format.read as_id_format.read
        (inside_shrinks SEQUENCE as_ends_format.read)
        (conversion_shrinks (λ n. Some (between n n)) u32_at
        (content_shrinks INTEGER (number_below (2 ^ 32)))) };
}

impl AsResources {
    // ASIdentifiers, by their format.
    #[tactic(auto, unfolding(crate::specs::Systems::as_identifiers_format))]
    fn read_from(alloc: Global, cursor: &mut Cursor<'_>) -> Result<AsResources, DecodeError>
        ensures reads { TookOrMemory as_identifiers_format.read cursor.old result cursor.new }
        ensures keeps { Keeps result cursor.old cursor.new }
        ensures octets { AreOctets (remaining cursor.old) }
    {
        let mut ahead = cursor.fork();
        let mut content = ahead.take_sequence()?;
        let mut numbers = content.take_value(tag::CONTEXT_CONSTRUCTED)?;
        let resources = take_choice(alloc, &AsNumbers, &mut numbers)?;
        numbers.finish()?;
        content.finish()?;
        *cursor = ahead;
        Ok(resources)
    }

    /// Reads the next value, which must be an ASIdentifiers with AS numbers and without routing
    /// domain identifiers (RFC 3779 3.2.3, RFC 6487 4.8.11). An empty list counts as missing (own).
    /// Elements may be in any order, overlap and touch (own).
    ///
    /// # Errors
    ///
    /// Returns an error as [`Cursor::take_value`], [`Cursor::take_null`] and [`Cursor::take_u32`]
    /// do, for each value inside too. Returns these errors as well:
    ///
    /// - `BadTag`: routing domain identifiers appear without AS numbers.
    /// - `BadValue`: a lower end is above its upper end.
    /// - `Trailing`: routing domain identifiers follow the AS numbers, or bytes remain inside a
    ///   value.
    /// - `Memory`: memory runs out.
    ///
    /// # Not checked
    ///
    /// Whether the issuer has the numbers.
    #[tactic(auto, using(rpki_der::proofs::FormatAnswers::answers_or_memory_alone, crate::proofs::SystemReads::as_alone))]
    pub fn take_from(alloc: Global, cursor: &mut Cursor<'_>) -> Result<AsResources, DecodeError>
        ensures { AnswersOrMemory as_identifiers_format cursor.old result cursor.new }
    {
        AsResources::read_from(alloc, cursor)
    }
}
