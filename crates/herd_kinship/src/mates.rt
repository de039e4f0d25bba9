ghost use Rattle.std.specs.Prelude.{◌≡◌, ℕ, ◌+◌, ◌-◌, ◌*◌, ◌/◌, ◌<◌, ◌≤◌, ◌++◌, All, length, map, vec_capacity};
ghost use Rattle.std.specs.Prelude.{vec_len, IfOk, OnErr, Some};
ghost use Rattle.herd_lineage.specs.declared.TheConstants.{DEPTH_LIMIT};
ghost use Rattle.herd_lineage.specs.Lineage.{dam_rank};
ghost use Rattle.herd_kinship.specs.CalfCoefficients.{GoesOnWith, with_half};
ghost use Rattle.herd_kinship.specs.CalfLinks.{AreCalvesOf, IsCalf, calves_of_sire};
ghost use Rattle.herd_kinship.specs.Coefficients.{KnowsAncestors, coefficient_at};
ghost use Rattle.herd_kinship.specs.Columns.{at_parent};
ghost use Rattle.herd_kinship.specs.Mates.{IsReady};
ghost use Rattle.herd_kinship.specs.Pending.{mark};

use crate::calves::{CalfCoefficient, Calves, SireCalves};
use crate::columns::{collect, mark_parent, relate, with_parent};
use crate::pending::Pending;
use crate::tracing::Tracing;
use crate::variances::Variances;
use herd_lineage::Lineage;
use std::alloc::{AllocError, Allocator};

/// The mates of a sire and all their ancestors, and its relationships with them: scratch that is kept from one sire to
/// the next.
#[derive(Drop)]
pub struct Mates<A: Allocator> {
    marked: Pending<A>,
    tracing: Tracing<A>,
    variances: Variances<A>,
    // From the youngest to the oldest.
    collected: Vec<u32, A>,
    // By ranks. What stands at a rank that isn't collected doesn't count.
    column: Vec<u128, A>,
}

impl<A: Allocator + Clone> Mates<A> {
    /// Of no sire yet, for the animals of a lineage: 44 bytes and two bits for each, the bits in words of 64. The
    /// only error is a growth of memory that is refused.
    pub fn with_room<F: Allocator>(alloc: A, lineage: &Lineage<F>) -> Result<Mates<A>, AllocError>
        ensures { IfOk result (IsReady lineage.now) }
    {
        let animals = lineage.len();
        Ok(Mates {
            marked: Pending::with_room(alloc.clone()?, animals)?,
            tracing: Tracing::with_room(alloc.clone()?, animals)?,
            variances: Variances::of(alloc.clone()?, lineage)?,
            column: vec![in alloc.clone()?; 0u128; animals as usize]?,
            collected: Vec::with_capacity(alloc, animals as usize)?,
        })
    }
}

impl<A: Allocator> Mates<A> {
    // Makes the relationships of a sire with its mates, by the coefficients of its ancestors. Half of that with its
    // dam is a calf's coefficient.
    fn relate_to<F: Allocator>(
        &mut self,
        lineage: &Lineage<F>,
        calves: SireCalves<'_>,
        known: &[u128],
        sire: u32,
    )
        requires ready { IsReady lineage.now self.old }
        requires calves { calves ≡ calves_of_sire lineage.now sire }
        requires known { KnowsAncestors DEPTH_LIMIT lineage.now known.now sire }
        requires sire { sire < length lineage.now }
        ensures ready { IsReady lineage.now self.new }
        ensures halves { (calf : ℕ) → IsCalf lineage.now sire calf
            → at_parent self.new.column.items (dam_rank lineage.now calf) / 2
            ≡ coefficient_at DEPTH_LIMIT lineage.now calf }
    {
        let last = lineage.len() - 1;
        mark_mates(lineage, calves, last, &mut self.marked);
        collect(
            lineage,
            last,
            &mut self.marked,
            &mut self.collected,
            &mut self.column,
        );
        relate(
            &mut self.tracing,
            &mut self.variances,
            lineage,
            known,
            sire,
            &self.collected,
            &mut self.column,
        );
    }

    /// Appends the coefficients of a sire's calves by known dams to a list, in no promised order, if it has any.
    ///
    /// Each is half the sire's relationship with the calf's dam (Colleau 2002). Only the numerators of the sire's
    /// ancestors need be right in `known`. The only error is a growth of memory that is refused; then the list is as
    /// it was, and the scratch as ready as before.
    pub fn append_calves<F: Allocator, C: Allocator, L: Allocator>(
        &mut self,
        lineage: &Lineage<F>,
        calves: &Calves<C>,
        known: &[u128],
        sire: u32,
        list: &mut Vec<CalfCoefficient, L>,
    ) -> Result<(), AllocError>
        requires ready { IsReady lineage.now self.old }
        requires calves { AreCalvesOf lineage.now calves.now }
        requires known { KnowsAncestors DEPTH_LIMIT lineage.now known.now sire }
        requires sire { sire < length lineage.now }
        ensures ready { IsReady lineage.now self.new }
        ensures calves { IfOk result (λ _. GoesOnWith lineage.now (λ s. s ≡ sire)
            (coefficient_at DEPTH_LIMIT lineage.now) list.old.items list.new.items) }
        ensures err { OnErr result (list.new.items ≡ list.old.items) }
    {
        let count = calves.count(lineage, sire) as usize;
        if count == 0 {
            return Ok(());
        }
        list.reserve(count)?;
        self.relate_to(lineage, calves.of_sire(lineage, sire), known, sire);
        append_halves(lineage, calves.of_sire(lineage, sire), &self.column, list);
        Ok(())
    }
}

// Marks the dams of calves by their distances from the last rank.
fn mark_mates<F: Allocator, P: Allocator>(
    lineage: &Lineage<F>,
    calves: SireCalves<'_>,
    last: u32,
    marked: &mut Pending<P>,
)
    requires calves { All (λ calf. calf < length lineage.now) calves }
    requires last { last + 1 ≡ length lineage.now }
    requires room { last < 64 * length marked.old.chunks.items }
    requires empty { (distance : ℕ) → mark marked.old.chunks.items distance ≡ 0 }
    ensures room { last < 64 * length marked.new.chunks.items }
    ensures near { (distance : ℕ) → mark marked.new.chunks.items distance ≡ 1 → distance ≤ last }
    ensures mates { All (λ calf. (dam : ℕ) → dam_rank lineage.now calf ≡ Some dam
        → mark marked.new.chunks.items (last - dam) ≡ 1) calves.entry }
{
    for calf in calves {
        mark_parent(marked, last, lineage.parents(calf).dam);
    }
}

// Appends calves, each with half the number that its dam has in the column, to a list with room for them.
fn append_halves<F: Allocator, L: Allocator>(
    lineage: &Lineage<F>,
    calves: SireCalves<'_>,
    column: &[u128],
    list: &mut Vec<CalfCoefficient, L>,
)
    requires calves { All (λ calf. calf < length lineage.now) calves }
    requires column { length column.now ≡ length lineage.now }
    requires room { vec_len list.old + length calves ≤ vec_capacity list.old }
    ensures { list.new.items ≡ list.old.items ++ map (with_half lineage.now column.now) calves.entry }
{
    for rank in calves {
        let numerator = with_parent(column, lineage.parents(rank).dam) / 2;
        list.push_reserved(CalfCoefficient { rank, numerator });
    }
}
