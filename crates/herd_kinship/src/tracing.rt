ghost use Rattle.std.specs.Prelude.{◌≡◌, ℕ, ◌+◌, ◌*◌, ◌-◌, ◌/◌, ◌^◌, ◌<◌, ◌≤◌, length, min, IfOk, IfSome, IfNone, Some};
ghost use Rattle.std.specs.Option.{ForSome};
ghost use Rattle.herd_lineage.specs.declared.TheConstants.{DEPTH_LIMIT};
ghost use Rattle.herd_lineage.specs.Lineage.{depth_at};
ghost use Rattle.herd_kinship.specs.Coefficients.{IsKnownParent, KnowsAncestors, own_relationship, quarter_of};
ghost use Rattle.herd_kinship.specs.Ranks.{HasUnknownParent, ranked};
ghost use Rattle.herd_kinship.specs.Shares.{share};
ghost use Rattle.herd_kinship.specs.Table.{mendelian as mendelian_variance};
ghost use Rattle.herd_kinship.specs.Tracing.{given, GivesMark, HasRoom, IsIdle, IsMetAs, IsNext, IsUnderWay};

use crate::ONE;
use crate::calves::sire_of_pair;
use crate::pending::Pending;
use herd_lineage::{Lineage, Parents};
use std::alloc::{AllocError, Allocator};

/// An ancestor that is met, and the share that the traced animal has of it, in the unit of their depths' difference.
#[derive(Clone, Copy)]
pub struct Met {
    pub rank: u32,
    pub depth: u8,
    /// By how many steps the traced animal is deeper.
    pub steps: u8,
    pub share: u64,
}

/// The ancestors of an animal, itself among them, as they are met from the youngest to the oldest.
#[derive(Drop)]
pub struct Tracing<A: Allocator> {
    rank: u32,
    depth: u8,
    /// All ancestors from this rank on are met.
    border: u32,
    /// By distance from the animal, in units of their own; 0 again once an ancestor is met.
    shares: Vec<u64, A>,
    pending: Pending<A>,
}

impl<A: Allocator + Clone> Tracing<A> {
    /// Of no animal yet, with room for so many.
    pub fn with_room(alloc: A, animals: u32) -> Result<Tracing<A>, AllocError>
        ensures { IfOk result (IsIdle animals) }
    {
        let shares = vec![in alloc.clone()?; 0u64; animals as usize]?;
        let pending = Pending::with_room(alloc, animals)?;
        Ok(Tracing {
            rank: 0,
            depth: 0,
            border: 0,
            shares,
            pending,
        })
    }
}

impl<A: Allocator> Tracing<A> {
    /// Starts at the animal at a rank: nobody is met yet.
    pub fn start<F: Allocator>(&mut self, lineage: &Lineage<F>, rank: u32)
        requires rank { rank < length lineage.now }
        requires idle { IsIdle (rank + 1) self.old }
        ensures rank { self.new.rank ≡ rank }
        ensures border { self.new.border ≡ rank + 1 }
        ensures shares { length self.new.shares.items ≡ length self.old.shares.items }
        ensures marks { length self.new.pending.chunks.items ≡ length self.old.pending.chunks.items }
        ensures tracing { IsUnderWay DEPTH_LIMIT lineage.now self.new }
    {
        self.rank = rank;
        self.depth = lineage.parents(rank).depth;
        self.border = rank + 1;
        self.shares[0] = 1;
        self.pending.insert(0);
    }

    /// Meets the next ancestor, and passes its share on to its parents.
    pub fn meet_next<F: Allocator>(&mut self, lineage: &Lineage<F>) -> Option<Met>
        requires { IsUnderWay DEPTH_LIMIT lineage.now self.old }
        ensures same { self.new.rank ≡ self.old.rank }
        ensures shares { length self.new.shares.items ≡ length self.old.shares.items }
        ensures marks { length self.new.pending.chunks.items ≡ length self.old.pending.chunks.items }
        ensures tracing { IsUnderWay DEPTH_LIMIT lineage.now self.new }
        ensures next { IfSome result
            (λ met. IsNext DEPTH_LIMIT lineage.now self.old.rank self.old.border met.rank met.share) }
        ensures met { IfSome result (IsMetAs lineage.now self.old.rank) }
        ensures border { IfSome result (λ met. self.new.border ≡ met.rank) }
        ensures ended { IfNone result (self.new.border ≡ 0) }
        ensures all { IfNone result
            ((j : ℕ) → j < self.old.border → share (ranked lineage.now) DEPTH_LIMIT (Some self.old.rank) j ≡ 0) }
    {
        let Some(distance) = self.pending.take_nearest() else {
            self.border = 0;
            return None;
        };
        let rank = self.rank - distance as u32;
        let parents = lineage.parents(rank);
        let share = self.shares[distance];
        let met = Met {
            rank,
            depth: parents.depth,
            steps: self.depth - parents.depth,
            share,
        };
        self.shares[distance] = 0;
        self.border = rank;
        self.give(lineage, met, parents.sire);
        self.give(lineage, met, parents.dam);
        Some(met)
    }

    // Gives half of an animal's share to its parent, in the parent's unit.
    fn give<F: Allocator>(&mut self, lineage: &Lineage<F>, met: Met, parent: Option<u32>)
        requires depth { met.depth ≡ depth_at lineage.now met.rank }
        requires room { ForSome parent
            (HasRoom DEPTH_LIMIT lineage.now self.old.rank self.old.shares.items met.rank met.share) }
        requires marks { self.old.rank < 64 * length self.old.pending.chunks.items }
        requires ahead { 64 * self.old.pending.first ≤ self.old.rank - met.rank }
        ensures first { self.new.pending.first ≡ self.old.pending.first }
        ensures rank { self.new.rank ≡ self.old.rank }
        ensures depth { self.new.depth ≡ self.old.depth }
        ensures border { self.new.border ≡ self.old.border }
        ensures shares { self.new.shares.items
            ≡ given lineage.now self.old.rank self.old.shares.items met.rank met.share parent }
        ensures marks { GivesMark self.old.rank self.old.pending.chunks.items self.new.pending.chunks.items parent }
    {
        if let Some(rank) = parent {
            let steps = met.depth - lineage.parents(rank).depth;
            let distance = (self.rank - rank) as usize;
            let gift = met.share << (steps - 1);
            self.shares[distance] += gift;
            self.pending.insert_ahead(distance);
        }
    }
}

// A quarter of a parent's relationship with itself.
fn quarter(known: &[u128], parent: Option<u32>) -> u128
    requires { ForSome parent (IsKnownParent DEPTH_LIMIT known.now) }
    ensures value { result ≡ quarter_of DEPTH_LIMIT known.now parent }
    ensures half { result ≤ 2 ^ (2 * DEPTH_LIMIT - 1) }
{
    match parent {
        Some(rank) => (ONE + known[rank as usize]) / 4,
        None => 0,
    }
}

// The whole less a quarter of each parent's relationship with itself.
fn variance_by(known: &[u128], parents: Parents) -> u128
    requires sire { ForSome parents.sire (IsKnownParent DEPTH_LIMIT known.now) }
    requires dam { ForSome parents.dam (IsKnownParent DEPTH_LIMIT known.now) }
    ensures { result ≡ 2 ^ (2 * DEPTH_LIMIT) - quarter_of DEPTH_LIMIT known.now parents.sire
        - quarter_of DEPTH_LIMIT known.now parents.dam }
{
    ONE - quarter(known, parents.sire) - quarter(known, parents.dam)
}

/// The Mendelian sampling variance of the animal at a rank, by the coefficients of its parents.
///
/// It is a whole number of units of 2^-120 of the additive variance: 1 less a quarter of each known parent's
/// relationship with itself (Henderson 1976; Meuwissen and Luo 1992). So it is `ONE` of a founder, and never 0. Only
/// the numerators of the animal's ancestors need be right in `known`.
pub fn mendelian<F: Allocator>(lineage: &Lineage<F>, known: &[u128], rank: u32) -> u128
    requires rank { rank < length lineage.now }
    requires known { KnowsAncestors DEPTH_LIMIT lineage.now known.now rank }
    ensures value { result ≡ mendelian_variance (ranked lineage.now) DEPTH_LIMIT rank }
    ensures positive { 0 < result }
    ensures at_most_one { result ≤ 2 ^ (2 * DEPTH_LIMIT) }
{
    variance_by(known, lineage.parents(rank))
}

/// What an ancestor adds to a relationship: its Mendelian sampling variance times the two shares, which are in units
/// that leave so many steps to take.
pub fn term(variance: u128, steps: u8, share: u64, other: u64) -> u128
    requires shift { steps < 128 }
    requires fits { variance / 2 ^ steps * (share * other) < 2 ^ 128 }
    ensures { result ≡ variance / 2 ^ steps * (share * other) }
{
    (variance >> steps) * (u128::from(share) * u128::from(other))
}

/// The relationship of the animal at a rank with itself, by the coefficients of its ancestors (Meuwissen and Luo
/// 1992).
///
/// It is a whole number of units of 2^-120, below 2 * `ONE` by `laws::bound`; `inbred` makes the coefficient of it.
/// Only the numerators of the animal's ancestors need be right in `known`. The only error is a growth of memory that
/// is refused; none is taken where a parent is unknown.
pub fn trace<F: Allocator, A: Allocator + Clone>(
    alloc: A,
    lineage: &Lineage<F>,
    known: &[u128],
    rank: u32,
) -> Result<u128, AllocError>
    requires rank { rank < length lineage.now }
    requires known { KnowsAncestors DEPTH_LIMIT lineage.now known.now rank }
    ensures value { IfOk result (λ value. value ≡ own_relationship DEPTH_LIMIT lineage.now rank) }
    ensures unknown { HasUnknownParent lineage.now rank → result ≡ Ok (2 ^ (2 * DEPTH_LIMIT)) }
{
    if sire_of_pair(lineage.parents(rank)).is_none() {
        return Ok(ONE);
    }
    let mut tracing = Tracing::with_room(alloc, rank + 1)?;
    tracing.start(lineage, rank);
    let mut sum = 0;
    while let Some(met) = tracing.meet_next(lineage) {
        let variance = mendelian(lineage, known, met.rank);
        sum += term(variance, 2 * met.steps, met.share, met.share);
    }
    Ok(sum)
}

/// The coefficient of an animal in units of 2^-120, by its relationship with itself, as `trace` gives it: less `ONE`.
///
/// What isn't a relationship of an animal with itself is held between 0 and `ONE` - 1.
pub fn inbred(value: u128) -> u128
    ensures value { result ≡ min (value - 2 ^ (2 * DEPTH_LIMIT)) (2 ^ (2 * DEPTH_LIMIT) - 1) }
    ensures below_one { result < 2 ^ (2 * DEPTH_LIMIT) }
{
    value.saturating_sub(ONE).min(ONE - 1)
}
