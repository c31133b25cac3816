//! Lists of addresses or AS numbers as texts.
ghost use Rattle.std.specs.Prelude.{◌≡◌, ◌↔◌, ℕ, List, IsTrue, IfOk, map};
ghost use Rattle.std.specs.List.{AllZip};
ghost use Rattle.rpki_blocks.specs.Sets.{Block as Span};
ghost use Rattle.rpki_issuing.specs.BlockTexts.{AreListed, inherit_texts};
ghost use Rattle.rpki_issuing.specs.OnlyValues.{FindsOnly};

use rpki_blocks::{Block, BlocksBuilder, Bound, Resources, laws};
use std::alloc::{AllocError, Global};

/// How blocks of addresses or of AS numbers are written.
pub trait BlockText<B: Bound> {
    ghost is_text: { Span → List ℕ → Type 0 };

    /// Parses a text. Returns its one block, or `None` if it has none.
    fn block(text: &[u8]) -> Option<Block<B>>
        ensures { FindsOnly (λ b. is_text b text.now) result };
}

// Whether the texts say that the issuer's numbers are meant.
fn inherits(texts: &[&[u8]]) -> bool
    ensures { IsTrue result ↔ (map (λ t. t.now) texts.now ≡ inherit_texts) }
{
    match texts {
        [text] => *text == b"inherit".as_slice(),
        _ => false,
    }
}

// The blocks that the texts say.
fn blocks_of<B: Bound, T: BlockText<B>>(
    alloc: Global,
    texts: &[&[u8]],
) -> Result<Option<BlocksBuilder<B>>, AllocError>
    ensures { IfOk result (λ found.
        FindsOnly (λ bs. AllZip T.is_text bs (map (λ t. t.now) texts.now)) found) }
{
    let mut blocks = BlocksBuilder::new(alloc);
    for text in texts {
        let Some(block) = T::block(*text) else {
            return Ok(None);
        };
        blocks.push(block)?;
    }
    Ok(Some(blocks))
}

/// Parses the resources that the texts list: a block each, or `inherit` alone. Returns `None` if a
/// text has another form.
///
/// # Errors
///
/// Returns an error if memory runs out.
pub fn listed<B: Bound, T: BlockText<B>>(
    alloc: Global,
    texts: &[&[u8]],
) -> Result<Option<Resources<B>>, AllocError>
    ensures { IfOk result (λ found.
        FindsOnly (λ r. AreListed T.is_text r (map (λ t. t.now) texts.now)) found) }
{
    if inherits(texts) {
        return Ok(Some(Resources::inherit()));
    }
    // Called for what it ensures alone.
    laws::one_chain();
    let Some(blocks) = blocks_of::<B, T>(alloc, texts)? else {
        return Ok(None);
    };
    Ok(Some(Resources::blocks(blocks.finalize()?)))
}
