//! The known parents of each animal, which come before it, its depth, and the animals of each depth.
ghost use Rattle.std.specs.Prelude.{◌≡◌, ◌<◌, ◌++◌, ◌∷◌, [], length, slice_get, Some, IfOk, IfSome, OnErr, OnOk};
ghost use Rattle.herd_lineage.specs.Lineage.{IsLineage, IsNextOf, depth_at, level_of, packed_parents};
ghost use Rattle.herd_lineage.specs.PackedIndex.{nowhere};
ghost use Rattle.herd_lineage.specs.declared.TheConstants.{DEPTH_LIMIT, MOST_ANIMALS};

use crate::levels::empty_levels;
use crate::packed_index::PackedIndex;
use std::alloc::{AllocError, Allocator};
use std::marker::Model;

/// The known parents of an animal by their ranks, and its depth.
#[derive(Clone, Copy, Debug, PartialEq, Eq)]
pub struct Parents {
    /// The rank of the sire, where it is known.
    pub sire: Option<u32>,
    /// The rank of the dam, where it is known.
    pub dam: Option<u32>,
    /// The number of parent steps on the longest known path.
    pub depth: u8,
}

/// What is kept of an animal's parents, in twelve bytes.
#[derive(Clone, Copy)]
pub struct PackedParents {
    sire: PackedIndex,
    dam: PackedIndex,
    depth: u8,
}

/// From whom animals come. An animal is named by its rank, which counts from 0. Both parents may be the same animal,
/// and an animal may be sire of one and dam of another.
#[derive(Drop)]
pub struct Lineage<A: Allocator> {
    parents: Vec<PackedParents, A>,
    levels: Vec<Vec<u32, A>, A>,
}

impl<A: Allocator> Model for Lineage<A> {
    ghost use Rattle.std.specs.Prelude.{◌≡◌, List, map};
    ghost use Rattle.herd_lineage.specs.declared.lineage.Parents.{Parents};
    ghost use Rattle.herd_lineage.specs.Lineage.{IsLineage, levels_of, parents_kept};
    ghost use Rattle.herd_lineage.specs.declared.TheConstants.{DEPTH_LIMIT, MOST_ANIMALS};

    ghost Value = { List Parents };

    ghost view = { λ l. map parents_kept l.parents.items };

    ghost invariant = { λ l. IsLineage DEPTH_LIMIT MOST_ANIMALS (map parents_kept l.parents.items)
        × (map (λ level. level.items) l.levels.items ≡ levels_of DEPTH_LIMIT (map parents_kept l.parents.items)) };
}

impl PackedParents {
    // What is kept of these parents.
    #[inline(always)]
    fn of(parents: Parents) -> PackedParents
        requires sire { IfSome parents.sire (λ rank. rank < nowhere) }
        requires dam { IfSome parents.dam (λ rank. rank < nowhere) }
        ensures { result ≡ packed_parents parents }
    {
        PackedParents {
            sire: PackedIndex::of(parents.sire),
            dam: PackedIndex::of(parents.dam),
            depth: parents.depth,
        }
    }
}

impl<A: Allocator + Clone> Lineage<A> {
    /// Of no animals, with room for so many. The only error is memory that is refused.
    pub fn with_capacity(alloc: A, animals: usize) -> Result<Lineage<A>, AllocError>
        ensures { IfOk result (λ made. made ≡ []) }
    {
        Ok(Lineage {
            parents: Vec::with_capacity(alloc.clone()?, animals)?,
            levels: empty_levels(alloc)?,
        })
    }
}

impl<A: Allocator> Lineage<A> {
    /// How many animals there are.
    pub fn len(&self) -> u32
        ensures value { result ≡ length self.now }
        ensures lineage { IsLineage DEPTH_LIMIT MOST_ANIMALS self.now }
    {
        self.parents.len() as u32
    }

    /// The parents and the depth of the animal at a rank.
    #[inline(always)]
    pub fn parents(&self, rank: u32) -> Parents
        requires { rank < length self.now }
        ensures parents { slice_get self.now rank ≡ Some result }
        ensures lineage { IsLineage DEPTH_LIMIT MOST_ANIMALS self.now }
    {
        let packed = &self.parents[rank as usize];
        Parents {
            sire: packed.sire.get(),
            dam: packed.dam.get(),
            depth: packed.depth,
        }
    }

    /// The depth of the animal at a rank.
    #[inline(always)]
    pub fn depth(&self, rank: u32) -> u8
        requires { rank < length self.now }
        ensures { result ≡ depth_at self.now rank }
    {
        self.parents[rank as usize].depth
    }

    /// The ranks of the animals of a depth, ascending; none beyond the limit.
    pub fn level(&self, depth: u8) -> &[u32]
        ensures level { result.now ≡ level_of depth self.now }
        ensures lineage { IsLineage DEPTH_LIMIT MOST_ANIMALS self.now }
    {
        match self.levels.get(depth as usize) {
            Some(level) => level.as_slice(),
            None => &[],
        }
    }

    /// Adds an animal whose parents and depth are known to be right. The only error is a growth of memory that is
    /// refused; then all is as it was.
    #[inline(always)]
    pub fn push_known(&mut self, parents: Parents) -> Result<(), AllocError>
        requires { IsNextOf DEPTH_LIMIT MOST_ANIMALS self.old parents }
        ensures ok { OnOk result (self.new ≡ self.old ++ parents ∷ []) }
        ensures err { OnErr result (self.new ≡ self.old) }
        ensures lineage { IsLineage DEPTH_LIMIT MOST_ANIMALS self.new }
    {
        let rank = self.len();
        self.parents.reserve(1)?;
        self.levels[usize::from(parents.depth)].push(rank)?;
        self.parents.push_reserved(PackedParents::of(parents));
        Ok(())
    }
}
