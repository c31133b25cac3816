//! AS numbers as texts.
ghost use Rattle.std.specs.Prelude.{◌≡◌, ◌==◌, IfSome, IfNone};
ghost use Rattle.std.specs.List.{position};
ghost use Rattle.rpki_issuing.specs.BlockTexts.{IsAsRange, IsAsText, IsNumberText, IsParted, LacksOctet};
ghost use Rattle.rpki_issuing.specs.OnlyValues.{FindsOnly};

use crate::values::listing::BlockText;
use rpki_blocks::{AsBlock, Asn, Block};

// Where the octet stands first.
fn position_of(octet: u8, text: &[u8]) -> Option<usize>
    ensures { result ≡ position (λ other. other == octet) text.now }
{
    text.iter().position(|other| *other == octet)
}

// What stands before the first such octet, and what behind it.
pub(crate) fn parted(octet: u8, text: &[u8]) -> Option<(&[u8], &[u8])>
    ensures some { IfSome result (λ parts. IsParted octet text.now parts.0.now parts.1.now) }
    ensures none { IfNone result (LacksOctet octet text.now) }
{
    let at = position_of(octet, text)?;
    Some((&text[..at], &text[at + 1..]))
}

// The number that decimal digits write.
pub(crate) fn number(text: &[u8]) -> Option<u32>
    ensures { FindsOnly (λ n. IsNumberText n text.now) result }
{
    let Ok(digits) = str::from_utf8(text) else {
        return None;
    };
    if digits.starts_with('+') {
        return None;
    }
    digits.parse::<u32>().ok()
}

// The AS numbers from one to another, by their texts.
fn as_range(before: &[u8], behind: &[u8]) -> Option<AsBlock>
    ensures { FindsOnly (λ b. IsAsRange before.now behind.now b) result }
{
    let min = number(before)?;
    let max = number(behind)?;
    if min > max {
        return None;
    }
    Some(Block::from((Asn::from(min), Asn::from(max))))
}

/// Parses AS numbers: one, as `64496`, or a range, as `64496-64511`. Returns `None` if the text has
/// another form.
pub fn as_numbers(text: &[u8]) -> Option<AsBlock>
    ensures { FindsOnly (λ b. IsAsText b text.now) result }
{
    if let Some(parts) = parted(b'-', text) {
        return as_range(parts.0, parts.1);
    }
    let number = Asn::from(number(text)?);
    Some(Block::from((number, number)))
}

/// The texts of AS numbers.
pub struct AsTexts;

impl BlockText<Asn> for AsTexts {
    ghost is_text = { IsAsText };

    fn block(text: &[u8]) -> Option<AsBlock> {
        as_numbers(text)
    }
}
