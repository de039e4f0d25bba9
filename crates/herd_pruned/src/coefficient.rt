//! The coefficients of inbreeding of some animals, by their ancestors alone.
ghost use Rattle.std.specs.Prelude.{◌≡◌, ℕ, ◌*◌, ◌^◌, ◌<◌, All, Contains, length, slice_index, IfOk};
ghost use Rattle.herd_lineage.specs.declared.TheConstants.{DEPTH_LIMIT};
ghost use Rattle.herd_kinship.specs.Coefficients.{AreCoefficients, coefficient_at};
ghost use Rattle.herd_pruned.specs.Known.{AreCoefficientsOf};

use crate::pruned_lineage::PrunedLineage;
use crate::window::{coefficients_in_window, span_of};
use herd_kinship::{Coefficients, coefficients_plain};
use herd_lineage::Lineage;
use std::alloc::{AllocError, Allocator};

// How many entries of a matrix are computed at most.
const MOST_ENTRIES: u64 = 1 << 20;

/// The coefficient of inbreeding of the animal at a rank, in units of 2^-120. The only error is a growth of memory that
/// is refused.
pub fn coefficient_of<F: Allocator, A: Allocator + Clone>(
    alloc: A,
    lineage: &Lineage<F>,
    rank: u32,
) -> Result<u128, AllocError>
    requires { rank < length lineage.now }
    ensures { IfOk result (λ numerator. numerator ≡ coefficient_at DEPTH_LIMIT lineage.now rank) }
{
    let coefficients = coefficients_of(alloc, lineage, &[rank])?;
    Ok(coefficients.numerator(rank))
}

/// A list with the coefficients of inbreeding of some animals and of all their ancestors, at their ranks. What it has
/// of others doesn't count. The only error is a growth of memory that is refused.
pub fn coefficients_of<F: Allocator, A: Allocator + Clone>(
    alloc: A,
    lineage: &Lineage<F>,
    animals: &[u32],
) -> Result<Coefficients<A>, AllocError>
    requires { All (λ rank. rank < length lineage.now) animals.now }
    ensures { IfOk result (AreCoefficientsOf DEPTH_LIMIT lineage.now (Contains animals.now)) }
{
    let pruned = PrunedLineage::of(alloc.clone()?, lineage, animals)?;
    let coefficients = coefficients(alloc.clone()?, pruned.lineage())?;
    let mut known = vec![in alloc; 0u128; lineage.len() as usize]?;
    spread(coefficients.list(), pruned.ranks(), &mut known);
    Ok(Coefficients::from_list(known))
}

/// The coefficients of inbreeding of all animals of a lineage that is small, as that of one animal's ancestors mostly
/// is.
///
/// They are computed row by row of the matrix by the tabular method, where the rows of all animals, each as long as the
/// distance of the furthest parent, have no more than a million entries; else sire by sire. The only error is a growth
/// of memory that is refused.
pub fn coefficients<F: Allocator, A: Allocator + Clone>(
    alloc: A,
    lineage: &Lineage<F>,
) -> Result<Coefficients<A>, AllocError>
    ensures { IfOk result (AreCoefficients DEPTH_LIMIT lineage.now) }
{
    let animals = u64::from(lineage.len());
    let span = span_of(lineage);
    if animals.max(u64::from(span)) * u64::from(span) <= MOST_ENTRIES {
        coefficients_in_window(alloc, lineage, span)
    } else {
        coefficients_plain(alloc, lineage)
    }
}

// Writes each coefficient at its rank in the whole.
fn spread(coefficients: &[u128], ranks: &[u32], known: &mut [u128])
    requires each { length ranks.now ≡ length coefficients.now }
    requires within { All (λ rank. rank < length known.old) ranks.now }
    requires apart { (i j : ℕ) → i < j → j < length ranks.now → slice_index ranks.now i < slice_index ranks.now j }
    requires new_below_one { All (λ n. n < 2 ^ (2 * DEPTH_LIMIT)) coefficients.now }
    requires old_below_one { All (λ n. n < 2 ^ (2 * DEPTH_LIMIT)) known.old }
    ensures long { length known.new ≡ length known.old }
    ensures written { (i : ℕ) → i < length ranks.now
        → slice_index known.new (slice_index ranks.now i) ≡ slice_index coefficients.now i }
    ensures below_one { All (λ n. n < 2 ^ (2 * DEPTH_LIMIT)) known.new }
{
    for place in 0..ranks.len() {
        known[ranks[place] as usize] = coefficients[place];
    }
}
