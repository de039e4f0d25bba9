//! Some animals of a lineage and all their ancestors, as a lineage of their own.
ghost use Rattle.std.specs.Prelude.{◌≡◌, ◌<◌, ◌++◌, ◌∷◌, [], All, Contains, length, slice_get, slice_index, slice_set};
ghost use Rattle.std.specs.Prelude.{IfOk, OnOk, Some};
ghost use Rattle.std.specs.Option.{ForSome, option_map};
ghost use Rattle.herd_lineage.specs.Lineage.{IsLineage, IsNextOf};
ghost use Rattle.herd_lineage.specs.declared.TheConstants.{DEPTH_LIMIT, MOST_ANIMALS};
ghost use Rattle.herd_pruned.specs.Pruned.{IsPrunedOf, KeepsAncestorsOf, renamed_parents};

use crate::marked::mark_ancestors;
use herd_lineage::{Lineage, Parents};
use std::alloc::{AllocError, Allocator};
use std::marker::Model;

/// Some animals of a lineage and all their ancestors, in the lineage's order. An animal that is kept has a place here,
/// which counts from 0, beside its rank in the whole.
#[derive(Drop)]
pub struct PrunedLineage<A: Allocator> {
    lineage: Lineage<A>,
    ranks: Vec<u32, A>,
    // By ranks in the whole. What stands at an animal that isn't kept doesn't count.
    places: Vec<u32, A>,
}

impl<A: Allocator> Model for PrunedLineage<A> {
    ghost use Rattle.herd_lineage.specs.Lineage.{IsLineage};
    ghost use Rattle.herd_lineage.specs.declared.TheConstants.{DEPTH_LIMIT, MOST_ANIMALS};
    ghost use Rattle.herd_pruned.specs.Pruned.{ArePlaces, Pruned};

    ghost Value = { Pruned };

    ghost view = { λ pruned. record { lineage = pruned.lineage; ranks = pruned.ranks.items } };

    ghost invariant = { λ pruned. IsLineage DEPTH_LIMIT MOST_ANIMALS pruned.lineage
        × ArePlaces pruned.ranks.items pruned.places.items };
}

impl<A: Allocator + Clone> PrunedLineage<A> {
    /// Of some animals, by their ranks, and all their ancestors. It goes through the whole lineage twice, and takes
    /// five bytes for each animal of it. The only error is a growth of memory that is refused.
    pub fn of<F: Allocator>(
        alloc: A,
        lineage: &Lineage<F>,
        animals: &[u32],
    ) -> Result<PrunedLineage<A>, AllocError>
        requires { All (λ rank. rank < length lineage.now) animals.now }
        ensures pruned { IfOk result (IsPrunedOf lineage.now) }
        ensures kept { IfOk result (KeepsAncestorsOf lineage.now animals.now) }
    {
        let marks = mark_ancestors(alloc.clone()?, lineage, animals)?;
        let mut places = vec![in alloc.clone()?; 0u32; lineage.len() as usize]?;
        let mut ranks = Vec::new(alloc.clone()?);
        let mut kept = Lineage::with_capacity(alloc, 0)?;
        for rank in 0..lineage.len() {
            if marks[rank as usize] {
                keep(
                    &mut kept,
                    &mut ranks,
                    &mut places,
                    lineage.parents(rank),
                    rank,
                )?;
            }
        }
        Ok(PrunedLineage {
            lineage: kept,
            ranks,
            places,
        })
    }
}

impl<A: Allocator> PrunedLineage<A> {
    /// The animals that are kept, by their places.
    pub fn lineage(&self) -> &Lineage<A>
        ensures value { result.now ≡ self.now.lineage }
        ensures lineage { IsLineage DEPTH_LIMIT MOST_ANIMALS result.now }
    {
        &self.lineage
    }

    /// The ranks in the whole of the animals that are kept, by their places, ascending.
    pub fn ranks(&self) -> &[u32]
        ensures { result.now ≡ self.now.ranks }
    {
        self.ranks.as_slice()
    }

    /// The place of an animal that is kept, by its rank in the whole.
    pub fn place(&self, rank: u32) -> u32
        requires { Contains self.now.ranks rank }
        ensures { slice_get self.now.ranks result ≡ Some rank }
    {
        self.places[rank as usize]
    }
}

// Keeps the animal at a rank, whose parents are kept.
fn keep<A: Allocator>(
    kept: &mut Lineage<A>,
    ranks: &mut Vec<u32, A>,
    places: &mut Vec<u32, A>,
    parents: Parents,
    rank: u32,
) -> Result<(), AllocError>
    requires rank { rank < length places.old.items }
    requires sire { ForSome parents.sire (λ rank. rank < length places.old.items) }
    requires dam { ForSome parents.dam (λ rank. rank < length places.old.items) }
    requires next { IsNextOf DEPTH_LIMIT MOST_ANIMALS kept.old
        (renamed_parents (slice_index places.old.items) parents) }
    ensures kept { OnOk result
        (kept.new ≡ kept.old ++ renamed_parents (slice_index places.old.items) parents ∷ []) }
    ensures lineage { OnOk result (IsLineage DEPTH_LIMIT MOST_ANIMALS kept.new) }
    ensures ranks { OnOk result (ranks.new.items ≡ ranks.old.items ++ rank ∷ []) }
    ensures places { OnOk result (places.new.items ≡ slice_set places.old.items rank (length kept.old)) }
{
    let parents = placed(parents, places);
    places[rank as usize] = kept.len();
    kept.push_known(parents)?;
    ranks.push(rank)?;
    Ok(())
}

// The parents, which are kept, by their places.
fn placed(parents: Parents, places: &[u32]) -> Parents
    requires sire { ForSome parents.sire (λ rank. rank < length places.now) }
    requires dam { ForSome parents.dam (λ rank. rank < length places.now) }
    ensures { result ≡ renamed_parents (slice_index places.now) parents }
{
    Parents {
        sire: place_of(parents.sire, places),
        dam: place_of(parents.dam, places),
        depth: parents.depth,
    }
}

fn place_of(parent: Option<u32>, places: &[u32]) -> Option<u32>
    requires { ForSome parent (λ rank. rank < length places.now) }
    ensures { result ≡ option_map (slice_index places.now) parent }
{
    match parent {
        Some(rank) => Some(places[rank as usize]),
        None => None,
    }
}
