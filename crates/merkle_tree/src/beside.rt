ghost use Rattle.std.specs.Prelude.{◌≡◌, ◌≤◌, ◌<◌, ◌+◌, ◌++◌, ◌^◌, length, OnOk, IfOk};
ghost use Rattle.merkle_tree.specs.Shown.{beside, beside_at, count_before};

use crate::tree::{half_of, tree_at};
use std::alloc::{AllocError, Allocator};

/// The digests of the largest subtrees that have none of some ascending places, in the tree's order. The only error is
/// a growth of memory that is refused.
pub fn digests_beside<A: Allocator>(
    alloc: A,
    leaves: &[[u8; 32]],
    places: &[u64],
) -> Result<Vec<[u8; 32], A>, AllocError>
    ensures { IfOk result (λ digests. digests.items ≡ beside leaves.now places.now) }
{
    let mut digests = Vec::new(alloc);
    push_beside(&mut digests, 64, 0, leaves, places)?;
    Ok(digests)
}

// Adds the digests of a part of at most 2 ^ level leaves from the place base on.
fn push_beside<A: Allocator>(
    digests: &mut Vec<[u8; 32], A>,
    level: u32,
    base: u64,
    leaves: &[[u8; 32]],
    places: &[u64],
) -> Result<(), AllocError>
    requires level { level ≤ 64 }
    requires end { base + length leaves.now < 2 ^ 64 }
    ensures { OnOk result (digests.new.items ≡ digests.old.items ++ beside_at level base leaves.now places.now) }
{
    if places.is_empty() {
        digests.push(tree_at(level, leaves))?;
        return Ok(());
    }
    if level == 0 {
        return Ok(());
    }
    let half = half_of(level - 1);
    if leaves.len() as u64 <= half {
        return push_beside(digests, level - 1, base, leaves, places);
    }
    let (left, right) = leaves.split_at(half as usize);
    let (before, behind) = places.split_at(count_before(places, base + half));
    push_beside(digests, level - 1, base, left, before)?;
    push_beside(digests, level - 1, base + half, right, behind)
}

// How many of the places are before a place.
fn count_before(places: &[u64], end: u64) -> usize
    ensures count { result ≡ count_before end places.now }
    ensures within { result ≤ length places.now }
{
    places.iter().take_while(|place| **place < end).count()
}
