//! A level of the lineage and its blocks.
ghost use Rattle.std.specs.Prelude.{◌≡◌, ◌<◌, length};
ghost use Rattle.std.specs.Int.{div_ceil};
ghost use Rattle.herd_lineage.specs.Lineage.{level_of};
ghost use Rattle.herd_pool.specs.Levels.{block_of};

use herd_lineage::Lineage;
use std::alloc::{AllocError, Allocator};

/// The animals of a depth, cut into blocks.
pub struct Level<'a, F: Allocator> {
    pub lineage: &'a Lineage<F>,
    /// The steps of the longest path of parents of each of its animals.
    pub depth: u8,
    /// How many animals a block has. The last may have fewer.
    pub block: u32,
    pub ghost some: { 0 < block },
}

impl<'a, F: Allocator> Clone for Level<'a, F> {
    ghost use Rattle.std.specs.Prelude.{◌≡◌};

    ghost is_clone = { λ level copy. copy ≡ level };

    fn clone(&self) -> Result<Level<'a, F>, AllocError> {
        Ok(*self)
    }
}

impl<'a, F: Allocator> Copy for Level<'a, F> {}

impl<'a, F: Allocator> Level<'a, F> {
    /// How many blocks there are.
    pub fn blocks(&self) -> u32
        ensures { result ≡ div_ceil (length (level_of self.now.depth self.now.lineage.now)) self.now.block }
    {
        let ranks = self.lineage.level(self.depth).len();
        ranks.div_ceil(self.block as usize) as u32
    }

    /// The ranks of a block, ascending; none past the last block.
    pub fn ranks(&self, number: u32) -> &'a [u32]
        ensures { result.now ≡ block_of self.now.block number (level_of self.now.depth self.now.lineage.now) }
    {
        let ranks = self.lineage.level(self.depth);
        let block = self.block as usize;
        let rest = &ranks[ranks.len().min(number as usize * block)..];
        &rest[..rest.len().min(block)]
    }
}
