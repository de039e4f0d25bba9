//! Coefficients of inbreeding of a frozen book's animals, by workers.
ghost use Rattle.std.specs.Prelude.{◌≡◌, ◌<◌, ◌≤◌, map, IfOk};
ghost use Rattle.herd_frozen.specs.declared.TheConstants.{DEPTH_LIMIT};
ghost use Rattle.herd_frozen.specs.freezing.Frozen.{parents_of};
ghost use Rattle.herd_pool.specs.Levels.{HasLongLevel};
ghost use Rattle.herd_pool.specs.Sires.{HasLevelToShare};
ghost use Rattle.herd_pool.specs.declared.limits.TheConstants.{MOST_WORKERS};
ghost use Rattle.herd_pool.specs.declared.pool_fault.PoolFault.{PoolFault};
ghost use Rattle.herd_advice.specs.BookCoefficients.{AreBookCoefficients};

use herd_frozen::Frozen;
use herd_kinship::Coefficients;
use herd_pool::{Gate, PoolFault};
use std::alloc::Allocator;
use std::sync::Wait;
use std::thread::Threads;

/// The coefficients of a book, by this many workers, who trace animal by animal.
///
/// As `herd_pool::coefficients` of the book's lineage.
pub fn coefficients<
    R: Threads + Wait + Sync,
    F: Allocator + Sync,
    A: Allocator + Copy + Send + Sync,
    G: Gate,
>(
    rt: &R,
    alloc: A,
    frozen: &Frozen<F>,
    workers: u32,
    block: u32,
    gate: &G,
) -> Result<Coefficients<A>, PoolFault>
    requires workers { (1 ≤ workers) × (workers ≤ MOST_WORKERS) }
    requires block { 1 ≤ block }
    ensures list { IfOk result (AreBookCoefficients DEPTH_LIMIT frozen.now) }
    ensures no_thread { result ≡ Err PoolFault.NoThread
        → (1 < workers) × HasLongLevel (map parents_of frozen.now) block }
{
    herd_pool::coefficients(rt, alloc, frozen.lineage(), workers, block, gate)
}

/// The coefficients of a book, by this many workers, who go through the sires of each level.
///
/// As `herd_pool::coefficients_by_sires` of the book's lineage.
pub fn coefficients_by_sires<
    R: Threads + Wait + Sync,
    F: Allocator + Sync,
    A: Allocator + Copy + Send + Sync,
>(
    rt: &R,
    alloc: A,
    frozen: &Frozen<F>,
    workers: u32,
    block: u32,
) -> Result<Coefficients<A>, PoolFault>
    requires workers { (1 ≤ workers) × (workers ≤ MOST_WORKERS) }
    requires block { 1 ≤ block }
    ensures list { IfOk result (AreBookCoefficients DEPTH_LIMIT frozen.now) }
    ensures no_thread { result ≡ Err PoolFault.NoThread
        → HasLevelToShare (map parents_of frozen.now) block workers }
{
    herd_pool::coefficients_by_sires(rt, alloc, frozen.lineage(), workers, block)
}
