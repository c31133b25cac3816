//! Sets that are built block by block.
ghost use Rattle.std.specs.Prelude.{◌≡◌, ◌++◌, [], ◌∷◌, IfOk, IsOk, OnOk, OnErr};
ghost use Rattle.rpki_blocks.specs.Sets.{Block as Span, IsSet, HaveSameNumbers};

use crate::addr::Addr;
use crate::asn::Asn;
use crate::block::Block;
use crate::bound::Bound;
use crate::chain::Chain;
use std::alloc::{AllocError, Global};
use std::marker::Model;

/// A builder of a set: the blocks that were pushed, in their order. They may overlap and touch.
#[derive(Drop)]
pub struct BlocksBuilder<B: Bound> {
    blocks: Vec<Block<B>>,
}

/// A builder of a set of IP addresses.
pub type IpBlocksBuilder = BlocksBuilder<Addr>;

/// A builder of a set of AS numbers.
pub type AsBlocksBuilder = BlocksBuilder<Asn>;

impl<B: Bound> Model for BlocksBuilder<B> {
    ghost use Rattle.std.specs.Prelude.{List};
    ghost use Rattle.rpki_blocks.specs.Sets.{Block as Span};

    ghost Value = { List Span };

    ghost view = { λ b. b.blocks.items };
}

impl<B: Bound> BlocksBuilder<B> {
    /// Makes a builder without blocks, which allocates from `alloc`.
    pub fn new(alloc: Global) -> BlocksBuilder<B>
        ensures { result ≡ [] }
    {
        BlocksBuilder {
            blocks: Vec::new(alloc),
        }
    }

    /// Adds a block, given as a block, as its two ends in either order, or as a prefix.
    ///
    /// # Errors
    ///
    /// Returns an error if memory runs out. The builder is then unchanged.
    pub fn push<T: Into<Block<B>>>(&mut self, block: T) -> Result<(), AllocError>
        ensures ok { OnOk result
            ((b : Span) × T.converts block b × (self.new ≡ self.old ++ b ∷ [])) }
        ensures err { OnErr result (self.new ≡ self.old) }
    {
        self.blocks.push(block.into())?;
        Ok(())
    }

    /// Makes the set of the numbers of all blocks that were pushed. Sorts and merges the blocks in
    /// place, in time n log n for n blocks.
    ///
    /// # Errors
    ///
    /// Never returns an error.
    pub fn finalize(self) -> Result<Chain<B>, AllocError>
        ensures ok { IsOk result }
        ensures union { IfOk result (λ chain. HaveSameNumbers chain self) }
        ensures set { IfOk result (IsSet B.greatest) }
    {
        Ok(Chain::from_blocks(self.blocks))
    }
}
