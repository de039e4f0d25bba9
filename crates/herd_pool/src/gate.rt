//! What a caller may do where a block begins, and in place of tracing an animal.
ghost use Rattle.std.specs.Prelude.{◌≡◌, ◌<◌, length, IfOk};
ghost use Rattle.herd_lineage.specs.declared.TheConstants.{DEPTH_LIMIT};
ghost use Rattle.herd_kinship.specs.Coefficients.{KnowsAncestors, own_relationship};

use herd_lineage::Lineage;
use std::alloc::{AllocError, Allocator};

/// A caller's part in the pool.
///
/// The list of coefficients is proved, whatever the gate does. That `enter` is called for each block of a level once,
/// before the first of its animals, and `trace` for each animal once, on the thread that took its block, is not:
/// nor is it that several threads take blocks. Tests try it with gates that count blocks by level and animals by
/// rank, on founders and on full sibs of sixty-one generations, with gates that wait for one another, among founders
/// and at depths 1 and 4, and with gates that hold one of two workers until the other has traced the animals of its
/// block, among founders and at depth 1.
pub trait Gate: Sync {
    /// A thread has taken this block of the level, both counted from 0, and begins with it. A gate that leaves this out
    /// does nothing there.
    fn enter(&self, _level: u8, _block: u32) {}

    /// Traces the animal at a rank: its relationship with itself in units of 2^-120, as `herd_kinship::trace`. The
    /// only error is a growth of memory that is refused.
    fn trace<F: Allocator, A: Allocator + Clone>(
        &self,
        alloc: A,
        lineage: &Lineage<F>,
        known: &[u128],
        rank: u32,
    ) -> Result<u128, AllocError>
        requires rank { rank < length lineage.now }
        requires known { KnowsAncestors DEPTH_LIMIT lineage.now known.now rank }
        ensures { IfOk result (λ value. value ≡ own_relationship DEPTH_LIMIT lineage.now rank) }
    {
        herd_kinship::trace(alloc, lineage, known, rank)
    }
}

/// The gate that lets all pass.
#[derive(Clone, Copy, Debug, Default)]
pub struct NoGate;

impl Gate for NoGate {}
