ghost use Rattle.std.specs.Prelude.{◌≡◌, ◌<◌, ◌≤◌, IfOk};
ghost use Rattle.herd_lineage.specs.declared.TheConstants.{DEPTH_LIMIT};
ghost use Rattle.herd_kinship.specs.Coefficients.{AreCoefficients};
ghost use Rattle.herd_pool.specs.Levels.{HasLongLevel};
ghost use Rattle.herd_pool.specs.Sires.{HasLevelToShare};
ghost use Rattle.herd_pool.specs.declared.limits.TheConstants.{MOST_WORKERS};
ghost use Rattle.herd_pool.specs.declared.pool_fault.PoolFault.{PoolFault};

use crate::crew::compute_blocks;
use crate::gate::Gate;
use crate::level::Level;
use crate::merge::{write_calves_of, write_traced};
use crate::pool_fault::PoolFault;
use crate::sires::SireLevel;
use crate::traced::TracedLevel;
use herd_kinship::{Calves, Coefficients};
use herd_lineage::{DEPTH_LIMIT, Lineage};
use std::alloc::Allocator;
use std::sync::Wait;
use std::thread::Threads;

/// The coefficients of a lineage, by this many workers, who take the blocks of each level from a queue.
///
/// They are the same as those of `herd_kinship::coefficients_plain`, whatever the number of workers and the length of a
/// block; a block has `block` animals. One worker is the calling thread itself, and so it is for a level of one block.
/// The threads of a level end with it, and all have ended when the call returns, also with an error: a growth of memory
/// that is refused, or a thread that can't be started, for a level of more than one block with more than one worker.
pub fn coefficients<
    R: Threads + Wait + Sync,
    F: Allocator + Sync,
    A: Allocator + Copy + Send + Sync,
    G: Gate,
>(
    rt: &R,
    alloc: A,
    lineage: &Lineage<F>,
    workers: u32,
    block: u32,
    gate: &G,
) -> Result<Coefficients<A>, PoolFault>
    requires workers { (1 ≤ workers) × (workers ≤ MOST_WORKERS) }
    requires block { 1 ≤ block }
    ensures list { IfOk result (AreCoefficients DEPTH_LIMIT lineage.now) }
    ensures no_thread { result ≡ Err PoolFault.NoThread → (1 < workers) × HasLongLevel lineage.now block }
{
    let mut known = vec![in alloc; 0u128; lineage.len() as usize]?;
    for depth in 0..=DEPTH_LIMIT {
        let level = Level {
            lineage,
            depth,
            block,
        };
        let traced = TracedLevel {
            level,
            known: &known,
            gate,
        };
        let count = level.blocks();
        let idle = Vec::new(alloc);
        let (blocks, _) = compute_blocks(rt, alloc, &traced, count, workers.min(count), idle)?;
        write_traced(&mut known, level, &blocks);
    }
    Ok(Coefficients::from_list(known))
}

/// The coefficients of a lineage, sire by sire, by this many workers, who take the blocks of each level from a queue.
///
/// They are the same as those of `herd_kinship::coefficients_plain`, whatever the number of workers and the length of a
/// block; a block has `block` animals, and who takes it goes through the sires among them. The calling thread is one of
/// the workers, and the only one of a level in which fewer than two blocks have a sire with calves, or whose sires have
/// so few calves that a thread isn't worth its start. The threads of a level end with it, and all have ended when the
/// call returns, also with an error: a growth of memory that is refused, or a thread that can't be started, for a level
/// that is worth more than one worker.
pub fn coefficients_by_sires<
    R: Threads + Wait + Sync,
    F: Allocator + Sync,
    A: Allocator + Copy + Send + Sync,
>(
    rt: &R,
    alloc: A,
    lineage: &Lineage<F>,
    workers: u32,
    block: u32,
) -> Result<Coefficients<A>, PoolFault>
    requires workers { (1 ≤ workers) × (workers ≤ MOST_WORKERS) }
    requires block { 1 ≤ block }
    ensures list { IfOk result (AreCoefficients DEPTH_LIMIT lineage.now) }
    ensures no_thread { result ≡ Err PoolFault.NoThread → HasLevelToShare lineage.now block workers }
{
    let mut known = vec![in alloc; 0u128; lineage.len() as usize]?;
    let calves = Calves::of(alloc, lineage)?;
    let mut idle = Vec::new(alloc);
    for depth in 0..=DEPTH_LIMIT {
        let level = Level {
            lineage,
            depth,
            block,
        };
        let sires = SireLevel {
            level,
            known: &known,
            calves: &calves,
        };
        let count = level.blocks();
        let worth = sires.worth(count, workers);
        let (blocks, scratches) = compute_blocks(rt, alloc, &sires, count, worth, idle)?;
        write_calves_of(&mut known, &blocks);
        idle = scratches;
    }
    Ok(Coefficients::from_list(known))
}
