//! The animals of each depth.
ghost use Rattle.std.specs.Prelude.{◌≡◌, [], map, IfOk};
ghost use Rattle.herd_lineage.specs.Lineage.{levels_of};
ghost use Rattle.herd_lineage.specs.declared.TheConstants.{DEPTH_LIMIT};

use crate::DEPTH_LIMIT;
use std::alloc::{AllocError, Allocator};

/// An empty level for each depth up to the limit.
pub(crate) fn empty_levels<A: Allocator + Clone>(
    alloc: A,
) -> Result<Vec<Vec<u32, A>, A>, AllocError>
    ensures { IfOk result (λ levels. map (λ level. level.items) levels.items ≡ levels_of DEPTH_LIMIT []) }
{
    let mut levels = Vec::with_capacity(alloc.clone()?, usize::from(DEPTH_LIMIT) + 1)?;
    for _ in 0..=DEPTH_LIMIT {
        levels.push_reserved(Vec::new(alloc.clone()?));
    }
    Ok(levels)
}
