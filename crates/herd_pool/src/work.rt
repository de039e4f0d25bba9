//! What the threads of a level compute.
ghost use Rattle.std.specs.Prelude.{◌≡◌, IfOk};

use std::alloc::{AllocError, Allocator};

/// What is computed of a block.
#[derive(Drop)]
pub struct ComputedBlock<O> {
    /// The number of the block in its level, counted from 0.
    pub number: u32,
    pub output: O,
}

/// A kind of work on the blocks of a level.
pub trait Work<A: Allocator>: Sync {
    ghost use Rattle.herd_pool.specs.declared.work.ComputedBlock.{ComputedBlock};

    /// What a worker keeps from block to block and from level to level.
    type Scratch: Drop + Send;

    /// What a block gives.
    type Output: Drop + Send;

    /// What has to be known before a block is computed.
    ghost knows: { Self → Type 0 };

    /// The scratch serves for a block.
    ghost is_ready: { Self → Self.Scratch → Type 0 };

    /// What holds of a block once it is computed.
    ghost is_computed: { Self → ComputedBlock Self.Output → Type 0 };

    /// The scratch of one more worker.
    fn scratch(&self, alloc: A) -> Result<Self::Scratch, AllocError>
        ensures { IfOk result (is_ready self.now) };

    /// Computes the block of this number.
    fn compute(
        &self,
        alloc: A,
        scratch: &mut Self::Scratch,
        number: u32,
    ) -> Result<ComputedBlock<Self::Output>, AllocError>
        requires knows { knows self.now }
        requires ready { is_ready self.now scratch.old }
        ensures ready { IfOk result (λ _. is_ready self.now scratch.new) }
        ensures number { IfOk result (λ block. block.number ≡ number) }
        ensures computed { IfOk result (is_computed self.now) };
}
