//! What the workers of a level do.
ghost use Rattle.std.specs.Prelude.{◌≡◌, ◌++◌, All, IfOk, OnOk, [], ◌∷◌};
ghost use Rattle.herd_pool.specs.Workers.{IsWorkerOutput, IsBlockPass, numbers};

use crate::queue::{BlockPass, BlockStealer, Stolen};
use crate::work::{ComputedBlock, Work};
use crossbeam_deque::Steal;
use std::alloc::{AllocError, Allocator};
use std::sync::Wait;

/// A worker's task: to take blocks of a level, and to compute them.
#[derive_where(Clone, Copy)]
pub struct Task<'a, W, A: Allocator> {
    pub work: &'a W,
    pub stealer: &'a BlockStealer<A>,
}

/// What a worker brings back: its pass, the blocks that it took, and its scratch.
#[derive(Drop)]
pub struct WorkerOutput<S, O, A: Allocator> {
    pub pass: BlockPass<A>,
    pub blocks: Vec<ComputedBlock<O>, A>,
    pub scratch: S,
}

/// Takes blocks until the queue is empty, and computes each.
pub fn steal_blocks<R: Wait, A: Allocator + Copy, W: Work<A>>(
    rt: &R,
    alloc: A,
    work: &W,
    stealer: &BlockStealer<A>,
    mut pass: BlockPass<A>,
    mut scratch: W::Scratch,
) -> Result<WorkerOutput<W::Scratch, W::Output, A>, AllocError>
    requires knows { W.knows work.now }
    requires pass { IsBlockPass stealer.now pass [] }
    requires ready { W.is_ready work.now scratch }
    ensures { IfOk result (IsWorkerOutput W.Work work.now stealer.now) }
{
    let mut blocks = Vec::new(alloc);
    for _ in rt.forever() {
        match stealer.steal_as::<Stolen>(&mut pass) {
            Steal::Success(number) => add_block(alloc, work, &mut scratch, number, &mut blocks)?,
            Steal::Empty => break,
            Steal::Retry => {}
        }
    }
    Ok(WorkerOutput {
        pass,
        blocks,
        scratch,
    })
}

/// Computes a block, and adds it to those that were computed.
pub fn add_block<A: Allocator + Copy, W: Work<A>>(
    alloc: A,
    work: &W,
    scratch: &mut W::Scratch,
    number: u32,
    blocks: &mut Vec<ComputedBlock<W::Output>, A>,
) -> Result<(), AllocError>
    requires knows { W.knows work.now }
    requires ready { W.is_ready work.now scratch.old }
    requires computed { All (W.is_computed work.now) blocks.old.items }
    ensures ready { OnOk result (W.is_ready work.now scratch.new) }
    ensures number { OnOk result (numbers blocks.new.items ≡ numbers blocks.old.items ++ number ∷ []) }
    ensures computed { OnOk result (All (W.is_computed work.now) blocks.new.items) }
{
    let block = work.compute(alloc, scratch, number)?;
    Ok(blocks.push(block)?)
}
