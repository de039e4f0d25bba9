//! What a pruned lineage tells of the whole. The calls do nothing: who calls one has its `ensures` as a fact.
ghost use Rattle.std.specs.Prelude.{◌<◌, length};
ghost use Rattle.herd_pruned.specs.Pruned.{HaveSameEntries, IsPrunedOf};

use crate::pruned_lineage::PrunedLineage;
use herd_lineage::Lineage;
use std::alloc::Allocator;

/// Two animals that are kept have the same entry in the table of the pruned lineage as in that of the whole.
pub fn entries<F: Allocator, A: Allocator>(
    whole: &Lineage<F>,
    pruned: &PrunedLineage<A>,
    x: u32,
    y: u32,
)
    requires pruned { IsPrunedOf whole.now pruned.now }
    requires first { x < length pruned.now.lineage }
    requires second { y < length pruned.now.lineage }
    ensures { HaveSameEntries whole.now pruned.now x y }
{
    prove!(x < pruned.lineage().len());
}
