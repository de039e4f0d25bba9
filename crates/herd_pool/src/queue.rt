//! The queue of a level's blocks, and what each thread knows of it.
ghost use Rattle.std.specs.Prelude.{◌≡◌, ◌==◌, ℕ, ◌+◌, [], ◌++◌, IfOk, count_by};
ghost use Rattle.crossbeam_deque.specs.Handles.{worker_flavor, worker_port, worker_view};
ghost use Rattle.herd_pool.specs.Blocks.{pass_view, once_below};

use crossbeam_deque::protocol::{Join, Outcome, Protocol, Split};
use crossbeam_deque::{Pass, Stealer, Worker};
use std::alloc::{AllocError, Allocator};
use std::collections::LinkedList;

/// What a pass knows: how many passes are out, how many blocks were pushed, and the numbers of the blocks that it
/// took. A worker's own pass is out until it is spent. No value of it is made.
pub struct PassView {
    pub out: u64,
    pub pushed: u64,
    pub taken: LinkedList<u32>,
}

/// The rule of the queue: each block is taken once.
pub struct EachBlockOnce;

impl Protocol<u32, PassView> for EachBlockOnce {
    ghost use Rattle.std.specs.Prelude.{[]};
    ghost use Rattle.herd_pool.specs.Blocks.{pass_view, EachOnce};

    ghost holds = { EachOnce };

    ghost first = { pass_view 0 0 [] };

    ghost guest = { pass_view 0 0 [] };
}

/// A block is pushed.
pub struct Pushed;

impl Outcome<u32, PassView> for Pushed {
    ghost then = { λ v xs w. w ≡ pass_view v.out (v.pushed + 1) v.taken };
}

/// A block is stolen by a worker.
pub struct Stolen;

impl Outcome<u32, PassView> for Stolen {
    ghost then = { λ v xs w. w ≡ pass_view v.out v.pushed (v.taken ++ xs) };
}

/// A block is popped by the starter. Where none is left and all passes are back, each block was taken once.
pub struct Popped;

impl Outcome<u32, PassView> for Popped {
    ghost then = { λ v xs w. w ≡ pass_view v.out v.pushed (v.taken ++ xs) };

    ghost empty = { λ v. v.out ≡ 0 → (x : ℕ) → count_by (λ n. n == x) v.taken ≡ once_below x v.pushed };
}

/// A pass goes out to a worker, and comes back.
pub struct ForWorker;

impl Split<PassView> for ForWorker {
    ghost use Rattle.std.specs.Prelude.{◌+◌, []};
    ghost use Rattle.herd_pool.specs.Blocks.{pass_view};

    ghost left = { λ v. pass_view (v.out + 1) v.pushed v.taken };

    ghost right = { λ v. pass_view 1 0 [] };
}

impl Join<PassView> for ForWorker {
    ghost use Rattle.std.specs.Prelude.{◌-◌, ◌++◌, []};
    ghost use Rattle.herd_pool.specs.Blocks.{pass_view};

    ghost both = { λ v w. pass_view (v.out - 1) v.pushed (v.taken ++ w.taken) };

    ghost spent = { pass_view 0 0 [] };
}

/// The starter's end of the queue.
pub type BlockQueue<A> = Worker<u32, A, PassView, EachBlockOnce>;

/// What the workers steal from.
pub type BlockStealer<A> = Stealer<u32, A, PassView, EachBlockOnce>;

/// What a worker shows to steal.
pub type BlockPass<A> = Pass<u32, PassView, A>;

/// A queue with the blocks below `count`, in ascending order.
pub fn filled<A: Allocator + Copy>(alloc: A, count: u32) -> Result<BlockQueue<A>, AllocError>
    ensures flavor { IfOk result (λ queue. worker_flavor queue ≡ 0) }
    ensures port { IfOk result (λ queue. worker_port queue ≡ 0) }
    ensures view { IfOk result (λ queue. worker_view queue ≡ pass_view 0 count []) }
{
    let mut queue = BlockQueue::<A>::fifo_as(alloc, count as usize)?;
    for block in 0..count {
        queue.push_as::<Pushed>(block).unwrap();
    }
    Ok(queue)
}
