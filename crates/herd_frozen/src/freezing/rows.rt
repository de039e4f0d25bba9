//! The rows of a frozen book, which keep the ranks of the parents for their numbers.
ghost use Rattle.std.specs.Prelude.{◌≡◌, ◌<◌, [], ◌++◌, ◌∷◌, length, map, slice_get, Some, IfOk, IfSome, OnErr, OnOk};
ghost use Rattle.herd_frozen.specs.freezing.Frozen.{depth_at, numbers_of, parents_of};
ghost use Rattle.herd_lineage.specs.Lineage.{IsLineage, IsNextOf};
ghost use Rattle.herd_lineage.specs.declared.TheConstants.{DEPTH_LIMIT, MOST_ANIMALS};
ghost use Rattle.herd_frozen.specs.places.Places.{number_at};
ghost use Rattle.herd_frozen.specs.freezing.Rows.{kept_of, row_kept};

use crate::freezing::frozen::Row;
use crate::rules::animal::Animal;
use herd_animal::{AnimalNumber, Day, Herd};
use herd_lineage::{Lineage, Parents};
use std::alloc::{AllocError, Allocator};
use std::marker::Model;

/// What a row keeps of an animal beside its parents and its depth, in forty bytes.
#[derive(Clone, Copy)]
pub struct RowRecord {
    /// Its number.
    pub number: AnimalNumber,
    /// Whether it was born from a stored embryo.
    pub embryo: bool,
    /// Its birth day.
    pub birth: Day,
    /// The herd that owns it, or owned it when it left.
    pub herd: Herd,
    /// The day from which this herd owns it.
    pub since: Day,
    /// The day on which it left, where it has.
    pub left: Option<Day>,
}

/// Rows by rank, which counts from 0.
#[derive(Drop)]
pub struct Rows<A: Allocator> {
    records: Vec<RowRecord, A>,
    lineage: Lineage<A>,
}

impl<A: Allocator> Model for Rows<A> {
    ghost use Rattle.std.specs.Prelude.{List};
    ghost use Rattle.herd_frozen.specs.declared.freezing.frozen.Row.{Row};
    ghost use Rattle.herd_frozen.specs.freezing.Rows.{AreKept, rows_kept};

    ghost Value = { List Row };

    ghost view = { λ r. rows_kept r.records.items r.lineage };

    ghost invariant = { λ r. AreKept r.records.items r.lineage };
}

impl RowRecord {
    /// What a row keeps of an animal that has this number.
    #[inline(always)]
    pub(crate) fn of(number: &AnimalNumber, animal: &Animal) -> RowRecord
        ensures { result ≡ kept_of (number.now, animal.now) }
    {
        RowRecord {
            number: *number,
            embryo: animal.embryo,
            birth: animal.birth,
            herd: animal.herd,
            since: animal.since,
            left: animal.left,
        }
    }
}

impl<A: Allocator + Clone> Rows<A> {
    /// No rows, with room for so many.
    pub fn with_capacity(alloc: A, rows: usize) -> Result<Rows<A>, AllocError>
        ensures { IfOk result (λ made. made ≡ []) }
    {
        Ok(Rows {
            records: Vec::with_capacity(alloc.clone()?, rows)?,
            lineage: Lineage::with_capacity(alloc, rows)?,
        })
    }
}

// Look-ups are inlined: a caller reads no more of a row, and of the numbers of its parents, than it uses.
impl<A: Allocator> Rows<A> {
    /// How many rows there are.
    #[inline(always)]
    pub fn len(&self) -> usize
        ensures { result ≡ length self.now }
    {
        self.records.len()
    }

    /// The number of the row at a rank.
    #[inline(always)]
    pub fn number(&self, rank: u32) -> &AnimalNumber
        requires { rank < length self.now }
        ensures { slice_get (numbers_of self.now) rank ≡ Some result.now }
    {
        &self.records[rank as usize].number
    }

    /// The parents and the depth of the row at a rank.
    #[inline(always)]
    pub fn parents(&self, rank: u32) -> Parents
        requires { rank < length self.now }
        ensures { slice_get (map parents_of self.now) rank ≡ Some result }
    {
        self.lineage.parents(rank)
    }

    /// The lineage of the rows.
    #[inline(always)]
    pub fn lineage(&self) -> &Lineage<A>
        ensures value { result.now ≡ map parents_of self.now }
        ensures lineage { IsLineage DEPTH_LIMIT MOST_ANIMALS result.now }
    {
        &self.lineage
    }

    /// The depth of the row at a rank.
    #[inline(always)]
    pub fn depth(&self, rank: u32) -> u8
        requires { rank < length self.now }
        ensures { result ≡ depth_at self.now rank }
    {
        self.lineage.depth(rank)
    }

    /// The row at a rank.
    #[inline(always)]
    pub fn row(&self, rank: u32) -> Row
        requires { rank < length self.now }
        ensures { slice_get self.now rank ≡ Some result }
    {
        let kept = &self.records[rank as usize];
        let parents = self.parents(rank);
        Row {
            number: kept.number,
            animal: Animal {
                birth: kept.birth,
                sire: self.number_at(parents.sire),
                dam: self.number_at(parents.dam),
                embryo: kept.embryo,
                herd: kept.herd,
                since: kept.since,
                left: kept.left,
            },
            sire: parents.sire,
            dam: parents.dam,
            depth: parents.depth,
        }
    }

    // The number of the row at a rank.
    #[inline(always)]
    fn number_at(&self, rank: Option<u32>) -> Option<AnimalNumber>
        ensures { result ≡ number_at (numbers_of self.now) rank }
    {
        let kept = self.records.get(rank? as usize)?;
        Some(kept.number)
    }

    /// Adds the row of what is kept of an animal, with parents that stand among the rows before it. The numbers of the
    /// parents are read from these rows. The only error is a growth of memory that is refused; then all is as it was.
    #[inline(always)]
    pub(crate) fn push(&mut self, kept: RowRecord, parents: Parents) -> Result<(), AllocError>
        requires { IsNextOf DEPTH_LIMIT MOST_ANIMALS (map parents_of self.old) parents }
        ensures ok { OnOk result (self.new ≡ self.old ++ row_kept (numbers_of self.old) kept parents ∷ []) }
        ensures err { OnErr result (self.new ≡ self.old) }
    {
        self.records.reserve(1)?;
        self.lineage.push_known(parents)?;
        self.records.push_reserved(kept);
        Ok(())
    }
}
