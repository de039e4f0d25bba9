//! The thread that starts the others of a level, and works beside them.
ghost use Rattle.std.specs.Prelude.{◌≡◌, ◌==◌, ℕ, All, IfOk, OnOk, count_by};
ghost use Rattle.crossbeam_deque.specs.Handles.{worker_deque, worker_view};
ghost use Rattle.herd_pool.specs.Blocks.{once_below};
ghost use Rattle.herd_pool.specs.Workers.{IsStarter, numbers};

use crate::queue::{BlockQueue, Popped};
use crate::work::{ComputedBlock, Work};
use crate::worker::add_block;
use std::alloc::{AllocError, Allocator};
use std::sync::Wait;

/// What the starter of a level has.
#[derive(Drop)]
pub struct Starter<S, O, A: Allocator> {
    pub queue: BlockQueue<A>,
    /// The blocks that it took, and those of the workers who are back.
    pub blocks: Vec<ComputedBlock<O>, A>,
    /// The scratch of workers who aren't at work.
    pub idle: Vec<S, A>,
}

/// The scratch for one more worker.
pub fn hire<A: Allocator, W: Work<A>>(
    alloc: A,
    work: &W,
    idle: &mut Vec<W::Scratch, A>,
) -> Result<W::Scratch, AllocError>
    requires { All (W.is_ready work.now) idle.old.items }
    ensures ready { IfOk result (W.is_ready work.now) }
    ensures idle { All (W.is_ready work.now) idle.new.items }
{
    match idle.pop() {
        Some(scratch) => Ok(scratch),
        None => work.scratch(alloc),
    }
}

/// Computes blocks until the queue is empty. Where no worker is out, each has then been computed once.
pub fn take_blocks<R: Wait, A: Allocator + Copy, W: Work<A>>(
    rt: &R,
    alloc: A,
    work: &W,
    starter: &mut Starter<W::Scratch, W::Output, A>,
) -> Result<(), AllocError>
    requires knows { W.knows work.now }
    requires starter { IsStarter W.Work work.now (worker_view starter.old.queue).out
        (worker_view starter.old.queue).pushed starter.old }
    ensures deque { OnOk result (worker_deque starter.new.queue ≡ worker_deque starter.old.queue) }
    ensures starter { OnOk result (IsStarter W.Work work.now (worker_view starter.old.queue).out
        (worker_view starter.old.queue).pushed starter.new) }
    ensures each_once { OnOk result ((worker_view starter.old.queue).out ≡ 0 → (number : ℕ)
        → count_by (λ n. n == number) (numbers starter.new.blocks.items)
        ≡ once_below number (worker_view starter.old.queue).pushed) }
{
    let mut scratch = hire(alloc, work, &mut starter.idle)?;
    for _ in rt.forever() {
        match starter.queue.pop_as::<Popped>() {
            Some(number) => add_block(alloc, work, &mut scratch, number, &mut starter.blocks)?,
            None => break,
        }
    }
    Ok(starter.idle.push(scratch)?)
}
