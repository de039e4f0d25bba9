ghost use Rattle.std.specs.Prelude.{◌≡◌, ◌<◌, length, map, slice_get, IfOk, IfSome};
ghost use Rattle.std.specs.Option.{option_and_then, option_map};
ghost use Rattle.herd_frozen.specs.freezing.Frozen.{IsFrozenFrom, depth_at, numbers_of, parents_of};
ghost use Rattle.herd_lineage.specs.Lineage.{IsNextOf};
ghost use Rattle.herd_frozen.specs.freezing.Freeze.{AreRows, IsRanked, IsRowOf};
ghost use Rattle.herd_frozen.specs.freezing.Rows.{row_kept};
ghost use Rattle.herd_frozen.specs.rules.Lawful.{IsLawful};
ghost use Rattle.herd_frozen.specs.declared.TheConstants.{DEPTH_LIMIT, MOST_ANIMALS};

use crate::freezing::age_order::{AgeKey, by_age, ranks_of};
use crate::freezing::frozen::Frozen;
use crate::freezing::hinted::{Hinted, are_right};
use crate::freezing::listed::{Listed, places_by_number};
use crate::freezing::registered::Registered;
use crate::freezing::rows::{RowRecord, Rows};
use crate::places::links::LinkHint;
use crate::rules::animal::Animal;
use herd_animal::AnimalNumber;
use herd_lineage::{Parents, depth_of_calf};
use std::alloc::{AllocError, Allocator};

/// The book of a list of records, in age order. The only error is a growth of memory that is refused.
pub fn freeze_list<A: Allocator + Clone>(
    alloc: A,
    records: &[(AnimalNumber, Animal)],
) -> Result<Frozen<A>, AllocError>
    requires { IsLawful DEPTH_LIMIT MOST_ANIMALS records.now }
    ensures { IfOk result (IsFrozenFrom DEPTH_LIMIT MOST_ANIMALS records.now) }
{
    let places = places_by_number(alloc.clone()?, records)?;
    let listed = Listed {
        records,
        places: &places,
    };
    frozen_from(alloc, &listed)
}

/// The same, with the places where the parents of each record are expected. Where each known parent stands there, none
/// is looked up by its number. Where one doesn't, or there isn't one hint for each record, all are looked up.
pub fn freeze_hinted<A: Allocator + Clone>(
    alloc: A,
    records: &[(AnimalNumber, Animal)],
    hints: &[LinkHint],
) -> Result<Frozen<A>, AllocError>
    requires { IsLawful DEPTH_LIMIT MOST_ANIMALS records.now }
    ensures { IfOk result (IsFrozenFrom DEPTH_LIMIT MOST_ANIMALS records.now) }
{
    if !are_right(records, hints) {
        return freeze_list(alloc, records);
    }
    frozen_from(alloc, &Hinted { records, hints })
}

/// The book of what is registered, in age order. The only error is a growth of memory that is refused.
pub fn frozen_from<A: Allocator + Clone, S: Registered>(
    alloc: A,
    records: &S,
) -> Result<Frozen<A>, AllocError>
    requires lawful { IsLawful DEPTH_LIMIT MOST_ANIMALS (S.book records.now) }
    requires parents { S.knows_parents records.now }
    ensures { IfOk result (IsFrozenFrom DEPTH_LIMIT MOST_ANIMALS (S.book records.now)) }
{
    let keys = by_age(alloc.clone()?, records)?;
    let ranks = ranks_of(alloc.clone()?, &keys)?;
    let rows = rows_of(alloc.clone()?, records, &keys, &ranks)?;
    // Their memory is given back before the index takes its own.
    drop(keys);
    drop(ranks);
    Frozen::from_rows(alloc, rows)
}

// The rank of a parent that is known.
fn rank_of(ranks: &[u32], parent: Option<u32>) -> Option<u32>
    requires { IfSome parent (λ place. place < length ranks.now) }
    ensures { result ≡ option_and_then (slice_get ranks.now) parent }
{
    let place = parent?;
    Some(ranks[place as usize])
}

// The depth of a parent that is known.
fn depth_of<A: Allocator>(rows: &Rows<A>, parent: Option<u32>) -> Option<u8>
    requires { IfSome parent (λ rank. rank < length rows.now) }
    ensures { result ≡ option_map (depth_at rows.now) parent }
{
    let rank = parent?;
    Some(rows.depth(rank))
}

// The row of the animal whose turn it is, once those of all the older ones are made: what is kept of it, and its
// parents.
// Inlined: what is kept of an animal isn't copied on its way.
#[inline(always)]
fn next_row<A: Allocator, S: Registered>(
    records: &S,
    keys: &[AgeKey],
    ranks: &[u32],
    rows: &Rows<A>,
) -> (RowRecord, Parents)
    requires ranked { IsRanked DEPTH_LIMIT MOST_ANIMALS (S.book records.now) keys.now ranks.now }
    requires parents { S.knows_parents records.now }
    requires rows { AreRows (S.book records.now) keys.now rows.now }
    requires more { length rows.now < length keys.now }
    ensures row { IfSome (slice_get keys.now (length rows.now))
        (λ key. IsRowOf (S.book records.now) keys.now key (row_kept (numbers_of rows.now) result.0 result.1)) }
    ensures next { IsNextOf DEPTH_LIMIT MOST_ANIMALS (map parents_of rows.now) result.1 }
{
    let key = keys[rows.len()];
    let place = key.place as usize;
    let kept = records.kept_at(place);
    let link = records.link_at(place);
    let sire = rank_of(ranks, link.sire);
    let dam = rank_of(ranks, link.dam);
    let depth = depth_of_calf(depth_of(rows, sire), depth_of(rows, dam));
    let parents = Parents {
        sire,
        dam,
        depth: depth as u8,
    };
    (kept, parents)
}

// The rows of the animals, in age order.
fn rows_of<A: Allocator + Clone, S: Registered>(
    alloc: A,
    records: &S,
    keys: &[AgeKey],
    ranks: &[u32],
) -> Result<Rows<A>, AllocError>
    requires ranked { IsRanked DEPTH_LIMIT MOST_ANIMALS (S.book records.now) keys.now ranks.now }
    requires parents { S.knows_parents records.now }
    ensures long { IfOk result (λ rows. length rows ≡ length keys.now) }
    ensures rows { IfOk result (λ rows. AreRows (S.book records.now) keys.now rows) }
{
    let mut rows = Rows::with_capacity(alloc, keys.len())?;
    for _ in 0..keys.len() {
        let (kept, parents) = next_row(records, keys, ranks, &rows);
        rows.push(kept, parents)?;
    }
    Ok(rows)
}
