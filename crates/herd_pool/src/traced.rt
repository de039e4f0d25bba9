//! A level whose animals are traced, each by the coefficients of its ancestors.

use crate::gate::Gate;
use crate::level::Level;
use crate::work::{ComputedBlock, Work};
use herd_kinship::inbred;
use std::alloc::{AllocError, Allocator};

/// The animals of a level, to be traced.
#[derive_where(Clone, Copy)]
pub struct TracedLevel<'a, 'k, F: Allocator, G> {
    pub level: Level<'a, F>,
    /// A numerator for each animal, right at all of less depth.
    pub known: &'k [u128],
    pub gate: &'k G,
}

impl<F: Allocator + Sync, G: Gate, A: Allocator + Copy + Send + Sync> Work<A>
    for TracedLevel<'_, '_, F, G> {
    ghost use Rattle.herd_lineage.specs.declared.TheConstants.{DEPTH_LIMIT, MOST_ANIMALS};
    ghost use Rattle.herd_pool.specs.Levels.{AreTraced, KnowsBelow};

    /// Nothing.
    type Scratch = ();

    /// The numerators of a block's animals, in the order of the ranks.
    type Output = Vec<u128, A>;

    ghost knows = { λ traced. KnowsBelow DEPTH_LIMIT MOST_ANIMALS traced.level.lineage.now traced.known.now
        traced.level.depth };

    ghost is_ready = { λ _ _. Unit {0} };

    ghost is_computed = { λ traced block. AreTraced DEPTH_LIMIT traced.level.lineage.now traced.level.depth
        traced.level.block block.number block.output.items };

    fn scratch(&self, _alloc: A) -> Result<(), AllocError> {
        Ok(())
    }

    fn compute(
        &self,
        alloc: A,
        _scratch: &mut (),
        number: u32,
    ) -> Result<ComputedBlock<Vec<u128, A>>, AllocError> {
        self.gate.enter(self.level.depth, number);
        let mut output = Vec::new(alloc);
        for rank in self.level.ranks(number) {
            let value = self
                .gate
                .trace(alloc, self.level.lineage, self.known, *rank)?;
            output.push(inbred(value))?;
        }
        Ok(ComputedBlock { number, output })
    }
}
