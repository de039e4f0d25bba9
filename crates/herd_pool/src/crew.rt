//! The threads of a level.
ghost use Rattle.std.specs.Prelude.{◌≡◌, ℕ, ◌<◌, All, IfOk, IfErr, OnOk, [], vec_len, get_or, vec_items};
ghost use Rattle.crossbeam_deque.specs.Handles.{worker_view};
ghost use Rattle.herd_pool.specs.Workers.{AreBlocks, CanShare, IsBlockPass, IsStarterOf, IsWorkerOutput};
ghost use Rattle.herd_pool.specs.declared.pool_fault.PoolFault.{PoolFault};

use crate::pool_fault::PoolFault;
use crate::queue::{BlockPass, BlockStealer, ForWorker, filled};
use crate::starter::{Starter, hire, take_blocks};
use crate::work::{ComputedBlock, Work};
use crate::worker::{Task, WorkerOutput, steal_blocks};
use std::alloc::{AllocError, Allocator};
use std::sync::Wait;
use std::thread;
use std::thread::{Promise, PromisedHandle, Scope, Threads};

impl<'a, A: Allocator, W: Work<A>> Promise<
    Result<WorkerOutput<W::Scratch, W::Output, A>, AllocError>,
> for Task<'a, W, A> {
    ghost use Rattle.std.specs.Prelude.{IfOk};
    ghost use Rattle.herd_pool.specs.Workers.{IsWorkerOutput};

    ghost kept_by = { λ task result. IfOk result (IsWorkerOutput W.Work task.work.now task.stealer.now) };
}

/// A worker's thread, which promises to bring back what its task asks for.
pub type WorkerThread<'a, W, S, O, A> = PromisedHandle<
    Result<WorkerOutput<S, O, A>, AllocError>,
    Task<'a, W, A>,
>;

/// Computes so many blocks, each once, by this many workers. Who has no scratch that lies idle gets a new one.
pub fn compute_blocks<R: Threads + Wait + Sync, A: Allocator + Copy + Send + Sync, W: Work<A>>(
    rt: &R,
    alloc: A,
    work: &W,
    count: u32,
    workers: u32,
    idle: Vec<W::Scratch, A>,
) -> Result<(Vec<ComputedBlock<W::Output>, A>, Vec<W::Scratch, A>), PoolFault>
    requires knows { W.knows work.now }
    requires idle { All (W.is_ready work.now) idle.items }
    ensures blocks { IfOk result (λ r. AreBlocks (W.is_computed work.now) count r.0.items) }
    ensures idle { IfOk result (λ r. All (W.is_ready work.now) r.1.items) }
    ensures no_thread { result ≡ Err PoolFault.NoThread → 1 < workers }
{
    let blocks = Vec::new(alloc);
    if count == 0 {
        return Ok((blocks, idle));
    }
    let queue = filled(alloc, count)?;
    let stealer = queue.stealer()?;
    let starter = Starter {
        queue,
        blocks,
        idle,
    };
    let mut starter = share(rt, work, &stealer, starter, workers)?;
    take_blocks(rt, alloc, work, &mut starter)?;
    let Starter { blocks, idle, .. } = starter;
    Ok((blocks, idle))
}

// Shares the blocks of the queue with one worker less than these, which is the starter itself. All are back when it
// returns. Closures, here and in `start_one`, take the references one by one: nothing is known of one that takes a
// struct of references.
fn share<R: Threads + Wait + Sync, A: Allocator + Copy + Send + Sync, W: Work<A>>(
    rt: &R,
    work: &W,
    stealer: &BlockStealer<A>,
    starter: Starter<W::Scratch, W::Output, A>,
    workers: u32,
) -> Result<Starter<W::Scratch, W::Output, A>, PoolFault>
    requires { CanShare W.Work work.now stealer.now starter }
    ensures starter { IfOk result (IsStarterOf W.Work work.now stealer.now 0 (worker_view starter.queue).pushed) }
    ensures no_thread { result ≡ Err PoolFault.NoThread → 1 < workers }
{
    if workers <= 1 {
        return Ok(starter);
    }
    let threads = workers as usize - 1;
    thread::scope(
        thread::scope_env(),
        rt,
        |scope| -> Result<Starter<W::Scratch, W::Output, A>, PoolFault>
            requires { CanShare W.Work work.now stealer.now starter }
            ensures { IfOk result
                (IsStarterOf W.Work work.entry.now stealer.entry.now 0 (worker_view starter.queue).pushed) }
        { starter_once_joined(scope, rt, work, stealer, starter, threads) },
    )
}

// The starter, once so many workers beside it are back.
fn starter_once_joined<
    's,
    E,
    R: Threads + Wait + Sync,
    A: Allocator + Copy + Send + Sync,
    W: Work<A>,
>(
    scope: &'s Scope<'s, E>,
    rt: &'s R,
    work: &'s W,
    stealer: &'s BlockStealer<A>,
    starter: Starter<W::Scratch, W::Output, A>,
    threads: usize,
) -> Result<Starter<W::Scratch, W::Output, A>, PoolFault>
    requires { CanShare W.Work work.now stealer.now starter }
    ensures { IfOk result (IsStarterOf W.Work work.now stealer.now 0 (worker_view starter.queue).pushed) }
{
    let task = Task { work, stealer };
    let mut starter = starter;
    let alloc = *starter.blocks.allocator();
    work_beside(scope, rt, alloc, task, &mut starter, threads)?;
    Ok(starter)
}

// Takes blocks beside so many workers, and joins them.
fn work_beside<'s, E, R: Threads + Wait + Sync, A: Allocator + Copy + Send + Sync, W: Work<A>>(
    scope: &'s Scope<'s, E>,
    rt: &'s R,
    alloc: A,
    task: Task<'s, W, A>,
    starter: &mut Starter<W::Scratch, W::Output, A>,
    threads: usize,
) -> Result<(), PoolFault>
    requires { CanShare W.Work task.work.now task.stealer.now starter.old }
    ensures { OnOk result (IsStarterOf W.Work task.entry.work.now task.entry.stealer.now 0
        (worker_view starter.old.queue).pushed starter.new) }
{
    let started = start_all(scope, rt, alloc, task, starter, threads)?;
    take_blocks(rt, alloc, task.work, starter)?;
    Ok(join_all(rt, task, started, starter)?)
}

// Starts so many workers, each with a pass of the queue's.
fn start_all<'s, E, R: Wait + Sync, A: Allocator + Copy + Send + Sync, W: Work<A>>(
    scope: &'s Scope<'s, E>,
    rt: &'s R,
    alloc: A,
    task: Task<'s, W, A>,
    starter: &mut Starter<W::Scratch, W::Output, A>,
    threads: usize,
) -> Result<Vec<WorkerThread<'s, W, W::Scratch, W::Output, A>, A>, PoolFault>
    requires knows { W.knows task.work.now }
    requires starter { IsStarterOf W.Work task.work.now task.stealer.now 0 (worker_view starter.old.queue).pushed
        starter.old }
    ensures starter { IfOk result (λ workers. IsStarterOf W.Work task.entry.work.now task.entry.stealer.now
        (vec_len workers) (worker_view starter.old.queue).pushed starter.new) }
    ensures count { IfOk result (λ workers. vec_len workers ≡ threads) }
    ensures task { IfOk result
        (λ workers. (k : ℕ) (d : _) → k < vec_len workers → (get_or (vec_items workers) k d).promise ≡ task.entry) }
    ensures no_thread { result ≡ Err PoolFault.NoThread → 0 < threads }
{
    let mut workers = Vec::with_capacity(alloc, threads)?;
    for _ in 0..threads {
        let scratch = hire(alloc, task.work, &mut starter.idle)?;
        let pass = starter.queue.another::<ForWorker>();
        workers.push_reserved(start_one(scope, rt, alloc, task, pass, scratch)?);
    }
    Ok(workers)
}

// Starts a worker.
fn start_one<'s, E, R: Wait + Sync, A: Allocator + Copy + Send + Sync, W: Work<A>>(
    scope: &'s Scope<'s, E>,
    rt: &'s R,
    alloc: A,
    task: Task<'s, W, A>,
    pass: BlockPass<A>,
    scratch: W::Scratch,
) -> Result<WorkerThread<'s, W, W::Scratch, W::Output, A>, PoolFault>
    requires knows { W.knows task.work.now }
    requires pass { IsBlockPass task.stealer.now pass [] }
    requires ready { W.is_ready task.work.now scratch }
    ensures task { IfOk result (λ worker. worker.promise ≡ task.entry) }
    ensures fault { IfErr result (λ fault. fault ≡ PoolFault.NoThread) }
{
    let Task { work, stealer } = task;
    let started = scope.spawn_with(
        task,
        move || -> Result<WorkerOutput<W::Scratch, W::Output, A>, AllocError>
            requires knows { W.knows work.now }
            requires pass { IsBlockPass stealer.now pass [] }
            requires ready { W.is_ready work.now scratch }
            ensures { IfOk result (IsWorkerOutput W.Work work.entry.now stealer.entry.now) }
        { steal_blocks(rt, alloc, work, stealer, pass, scratch) },
    );
    started.or(Err(PoolFault::NoThread))
}

// Joins each worker of this task, and takes its pass back.
fn join_all<'s, R: Threads, A: Allocator + Copy, W: Work<A>>(
    rt: &R,
    task: Task<'s, W, A>,
    started: Vec<WorkerThread<'s, W, W::Scratch, W::Output, A>, A>,
    starter: &mut Starter<W::Scratch, W::Output, A>,
) -> Result<(), AllocError>
    requires task { (k : ℕ) (d : _) → k < vec_len started → (get_or (vec_items started) k d).promise ≡ task }
    requires starter { IsStarterOf W.Work task.work.now task.stealer.now (vec_len started)
        (worker_view starter.old.queue).pushed starter.old }
    ensures { OnOk result (IsStarterOf W.Work task.entry.work.now task.entry.stealer.now 0
        (worker_view starter.old.queue).pushed starter.new) }
{
    for worker in started {
        let WorkerOutput {
            pass,
            mut blocks,
            scratch,
        } = worker.join(rt)?;
        starter.queue.absorb::<ForWorker>(pass);
        starter.blocks.append(&mut blocks)?;
        starter.idle.push(scratch)?;
    }
    Ok(())
}
