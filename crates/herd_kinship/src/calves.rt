ghost use Rattle.std.specs.Prelude.{◌≡◌, ℕ, ◌<◌, ◌⊎◌, All, is_some, length, true, IsTrue, IsFalse, IfOk, IfSome};
ghost use Rattle.std.specs.Prelude.{IfNone, None, Some};
ghost use Rattle.std.specs.Iterator.{YieldsFirst, item_count};
ghost use Rattle.herd_kinship.specs.CalfCoefficients.{HasWritten, HaveValues};
ghost use Rattle.herd_kinship.specs.CalfLinks.{AreCalvesOf, IsCalf, calf_count, calves_of_sire};

use herd_lineage::{Lineage, PackedIndex, Parents};
use std::alloc::{AllocError, Allocator};
use std::marker::Model;

/// The calves of each sire of a lineage, those of which the dam is known too.
///
/// They are linked from the youngest to the oldest, and may be lent to several threads.
#[derive(Drop)]
pub struct Calves<A: Allocator> {
    // By the sire's rank, its youngest calf.
    latest: Vec<PackedIndex, A>,
    // By the calf's rank, the next older calf of its sire.
    earlier: Vec<PackedIndex, A>,
}

/// The calves of one sire by their ranks, from the youngest to the oldest.
#[derive(Drop)]
pub(crate) struct SireCalves<'a> {
    // By the calf's rank, the next older calf of its sire.
    earlier: &'a [PackedIndex],
    next: Option<u32>,
}

impl<'a> Model for SireCalves<'a> {
    ghost use Rattle.std.specs.Prelude.{ℕ, List, ◌<◌, length};
    ghost use Rattle.std.specs.Option.{ForSome};
    ghost use Rattle.herd_kinship.specs.CalfLinks.{LeadToOlder, chain};

    ghost Value = { List ℕ };

    ghost view = { λ c. chain c.earlier.now (length c.earlier.now) c.next };

    ghost invariant = { λ c. LeadToOlder c.earlier.now × ForSome c.next (λ calf. calf < length c.earlier.now) };
}

impl<'a> Iterator for SireCalves<'a> {
    type Item = u32;

    ghost next_gives = { YieldsFirst (λ rest. rest) };

    ghost remaining = { item_count (λ rest. rest) };

    #[inline(always)]
    fn next(&mut self) -> Option<u32> {
        let calf = self.next?;
        self.next = self.earlier[calf as usize].get();
        Some(calf)
    }
}

/// The sire, where both parents are known.
pub(crate) fn sire_of_pair(parents: Parents) -> Option<u32>
    ensures sire { IfSome result (λ sire. parents.sire ≡ Some sire) }
    ensures dam { IfSome result (λ _. is_some parents.dam ≡ true) }
    ensures unknown { IfNone result ((parents.sire ≡ None) ⊎ (parents.dam ≡ None)) }
{
    match parents.dam {
        Some(_) => parents.sire,
        None => None,
    }
}

/// Whether there is an animal of which both parents are known.
pub(crate) fn has_calves<F: Allocator>(lineage: &Lineage<F>) -> bool
    ensures yes { IsTrue result → (sire : ℕ) × (calf : ℕ) × IsCalf lineage.now sire calf }
    ensures no { IsFalse result → (sire calf : ℕ) → IsCalf lineage.now sire calf → ⊥ }
{
    for calf in 0..lineage.len() {
        if sire_of_pair(lineage.parents(calf)).is_some() {
            return true;
        }
    }
    false
}

impl<A: Allocator + Clone> Calves<A> {
    /// The calves of a lineage. The only error is a growth of memory that is refused.
    pub fn of<F: Allocator>(alloc: A, lineage: &Lineage<F>) -> Result<Calves<A>, AllocError>
        ensures { IfOk result (AreCalvesOf lineage.now) }
    {
        let animals = lineage.len() as usize;
        let mut latest = vec![in alloc.clone()?; PackedIndex::none(); animals]?;
        let mut earlier = vec![in alloc; PackedIndex::none(); animals]?;
        for calf in 0..lineage.len() {
            if let Some(sire) = sire_of_pair(lineage.parents(calf)) {
                earlier[calf as usize] = latest[sire as usize];
                latest[sire as usize] = PackedIndex::at(calf);
            }
        }
        Ok(Calves { latest, earlier })
    }
}

impl<A: Allocator> Calves<A> {
    /// The calves of known dams that the sire at a rank has.
    #[inline(always)]
    pub(crate) fn of_sire<F: Allocator>(&self, lineage: &Lineage<F>, sire: u32) -> SireCalves<'_>
        requires calves { AreCalvesOf lineage.now self.now }
        requires sire { sire < length lineage.now }
        ensures { result ≡ calves_of_sire lineage.now sire }
    {
        SireCalves {
            earlier: self.earlier.as_slice(),
            next: self.latest[sire as usize].get(),
        }
    }

    /// How many calves of known dams the sire at a rank has.
    pub fn count<F: Allocator>(&self, lineage: &Lineage<F>, sire: u32) -> u32
        requires calves { AreCalvesOf lineage.now self.now }
        requires sire { sire < length lineage.now }
        ensures { result ≡ calf_count lineage.now sire }
    {
        self.of_sire(lineage, sire).count() as u32
    }
}

/// A calf and its coefficient of inbreeding.
#[derive(Clone, Copy)]
pub struct CalfCoefficient {
    /// The calf's rank.
    pub rank: u32,
    /// In units of 2^-120.
    pub numerator: u128,
}

/// Writes the coefficients of calves at their ranks.
pub fn write_calves(calves: &[CalfCoefficient], known: &mut [u128])
    requires { All (λ calf. calf.rank < length known.old) calves.now }
    ensures each { length known.new ≡ length known.old }
    ensures written { (f : ℕ → ℕ) → HaveValues f calves.now → HasWritten f calves.now known.old known.new }
{
    for calf in calves {
        known[calf.rank as usize] = calf.numerator;
    }
}
