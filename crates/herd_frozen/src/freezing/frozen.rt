ghost use Rattle.std.specs.Prelude.{◌≡◌, ◌==◌, ◌<◌, false, length, map, slice_get, Some, IfOk, IfSome, IfNone};
ghost use Rattle.herd_frozen.specs.rules.Book.{is_there};
ghost use Rattle.herd_frozen.specs.freezing.Frozen.{IsFrozen, book_of, numbers_of, parents_of};
ghost use Rattle.herd_frozen.specs.declared.TheConstants.{DEPTH_LIMIT, MOST_ANIMALS};
ghost use Rattle.herd_lineage.specs.Lineage.{IsLineage};

use crate::freezing::number_index::NumberIndex;
use crate::freezing::rows::Rows;
use crate::rules::animal::Animal;
use herd_animal::AnimalNumber;
use herd_lineage::{Lineage, Parents};
use std::alloc::{AllocError, Allocator};
use std::marker::Model;

/// An animal of a frozen book. Ranks count from 0.
#[derive(Clone, Copy, Debug, PartialEq, Eq)]
pub struct Row {
    /// Its number.
    pub number: AnimalNumber,
    /// Its record.
    pub animal: Animal,
    /// The rank of the sire, where it is known.
    pub sire: Option<u32>,
    /// The rank of the dam, where it is known.
    pub dam: Option<u32>,
    /// The number of parent steps on the longest known path.
    pub depth: u8,
}

/// A book in age order, which doesn't change any more.
#[derive(Drop)]
pub struct Frozen<A: Allocator> {
    rows: Rows<A>,
    index: NumberIndex<A>,
}

impl<A: Allocator> Model for Frozen<A> {
    ghost use Rattle.std.specs.Prelude.{List};
    ghost use Rattle.herd_frozen.specs.declared.freezing.frozen.Row.{Row};
    ghost use Rattle.herd_frozen.specs.freezing.Frozen.{IsFrozen};
    ghost use Rattle.herd_frozen.specs.freezing.NumberIndex.{IsIndexOf};
    ghost use Rattle.herd_frozen.specs.declared.TheConstants.{DEPTH_LIMIT, MOST_ANIMALS};

    ghost Value = { List Row };

    ghost view = { λ f. f.rows };

    ghost invariant = { λ f. IsFrozen DEPTH_LIMIT MOST_ANIMALS f.rows × IsIndexOf f.rows f.index };
}

impl<A: Allocator> Frozen<A> {
    /// How many animals there are.
    pub fn len(&self) -> u32
        ensures value { result ≡ length self.now }
        ensures frozen { IsFrozen DEPTH_LIMIT MOST_ANIMALS self.now }
    {
        self.rows.len() as u32
    }

    /// Whether there are no animals.
    pub fn is_empty(&self) -> bool
        ensures { result ≡ (length self.now == 0) }
    {
        self.rows.len() == 0
    }

    /// The row at a rank.
    // Inlined: a caller reads no more of a row than it uses.
    #[inline(always)]
    pub fn row(&self, rank: u32) -> Row
        requires { rank < length self.now }
        ensures row { slice_get self.now rank ≡ Some result }
        ensures frozen { IsFrozen DEPTH_LIMIT MOST_ANIMALS self.now }
    {
        self.rows.row(rank)
    }

    /// The number at a rank. It reads less memory than `row`.
    #[inline(always)]
    pub fn number(&self, rank: u32) -> AnimalNumber
        requires { rank < length self.now }
        ensures number { slice_get (numbers_of self.now) rank ≡ Some result }
        ensures frozen { IsFrozen DEPTH_LIMIT MOST_ANIMALS self.now }
    {
        *self.rows.number(rank)
    }

    /// The rank of an animal. It reads an index, and takes no memory.
    pub fn rank(&self, number: &AnimalNumber) -> Option<u32>
        ensures rank { IfSome result (λ rank. slice_get (numbers_of self.now) rank ≡ Some number.now) }
        ensures within { IfSome result (λ rank. rank < length self.now) }
        ensures absent { IfNone result (is_there (book_of self.now) number.now ≡ false) }
        ensures frozen { IsFrozen DEPTH_LIMIT MOST_ANIMALS self.now }
    {
        self.index.rank(&self.rows, number)
    }

    /// The parents and the depth of the row at a rank. It reads less memory than `row`.
    pub fn parents(&self, rank: u32) -> Parents
        requires { rank < length self.now }
        ensures parents { slice_get (map parents_of self.now) rank ≡ Some result }
        ensures frozen { IsFrozen DEPTH_LIMIT MOST_ANIMALS self.now }
    {
        self.rows.parents(rank)
    }

    /// From whom its animals come, by their ranks.
    #[inline(always)]
    pub fn lineage(&self) -> &Lineage<A>
        ensures value { result.now ≡ map parents_of self.now }
        ensures lineage { IsLineage DEPTH_LIMIT MOST_ANIMALS result.now }
        ensures frozen { IsFrozen DEPTH_LIMIT MOST_ANIMALS self.now }
    {
        self.rows.lineage()
    }
}

impl<A: Allocator + Clone> Frozen<A> {
    /// The frozen book of these rows.
    pub(crate) fn from_rows(alloc: A, rows: Rows<A>) -> Result<Frozen<A>, AllocError>
        requires { IsFrozen DEPTH_LIMIT MOST_ANIMALS rows }
        ensures { IfOk result (λ frozen. frozen ≡ rows) }
    {
        let index = NumberIndex::of(alloc, &rows)?;
        Ok(Frozen { rows, index })
    }
}
