//! Coefficients of inbreeding of a frozen book's animals.
ghost use Rattle.std.specs.Prelude.{◌≡◌, ℕ, ◌*◌, ◌^◌, ◌<◌, ◌≤◌, ◌++◌, ◌∷◌, [], List, Some, length, map, IfOk, OnOk};
ghost use Rattle.herd_frozen.specs.declared.TheConstants.{DEPTH_LIMIT};
ghost use Rattle.herd_frozen.specs.freezing.Frozen.{parents_of};
ghost use Rattle.herd_kinship.specs.Ranks.{HasUnknownParent};
ghost use Rattle.herd_kinship.specs.Table.{entry, mendelian as mendelian_variance};
ghost use Rattle.herd_advice.specs.BookCoefficients.{AreBookCoefficients, AreBookCoefficientsOf, AreRanksOf};
ghost use Rattle.herd_advice.specs.BookCoefficients.{KnowsBookAncestors};
ghost use Rattle.herd_advice.specs.FrozenAncestry.{ancestry_of, number_of_row};

use herd_animal::AnimalNumber;
use herd_frozen::Frozen;
use herd_kinship::Coefficients;
use std::alloc::{AllocError, Allocator};

/// The coefficients of inbreeding of all animals, on the calling thread.
///
/// An animal with an unknown parent has 0. The only error is a growth of memory that is refused; none is taken but for
/// the list where no animal has two known parents.
pub fn coefficients_plain<F: Allocator, A: Allocator + Clone>(
    alloc: A,
    frozen: &Frozen<F>,
) -> Result<Coefficients<A>, AllocError>
    ensures { IfOk result (AreBookCoefficients DEPTH_LIMIT frozen.now) }
{
    herd_kinship::coefficients_plain(alloc, frozen.lineage())
}

/// A list with the coefficients of inbreeding of some animals and of all their ancestors, at their ranks, by these
/// alone.
///
/// A number that isn't in the book is passed over. What the list has of other animals doesn't count. The only error is
/// a growth of memory that is refused.
pub fn coefficients_of<F: Allocator, A: Allocator + Clone>(
    alloc: A,
    frozen: &Frozen<F>,
    numbers: &[AnimalNumber],
) -> Result<Coefficients<A>, AllocError>
    ensures { IfOk result (AreBookCoefficientsOf DEPTH_LIMIT frozen.now numbers.now) }
{
    let ranks = ranks_of(alloc.clone()?, frozen, numbers)?;
    herd_pruned::coefficients_of(alloc, frozen.lineage(), &ranks)
}

// The ranks of those of some numbers that are in the book.
fn ranks_of<F: Allocator, A: Allocator>(
    alloc: A,
    frozen: &Frozen<F>,
    numbers: &[AnimalNumber],
) -> Result<Vec<u32, A>, AllocError>
    ensures { IfOk result (λ ranks. AreRanksOf frozen.now numbers.now ranks.items) }
{
    let mut ranks = Vec::new(alloc);
    for number in numbers {
        push_rank(frozen, *number, &mut ranks)?;
    }
    Ok(ranks)
}

// Adds the rank of a number that is in the book.
fn push_rank<F: Allocator, A: Allocator>(
    frozen: &Frozen<F>,
    number: AnimalNumber,
    ranks: &mut Vec<u32, A>,
) -> Result<(), AllocError>
    ensures { OnOk result ((numbers : List (List ℕ)) → AreRanksOf frozen.now numbers ranks.old.items
        → AreRanksOf frozen.now (numbers ++ number ∷ []) ranks.new.items) }
{
    match frozen.rank(&number) {
        Some(rank) => {
            ranks.push(rank)?;
            Ok(())
        }
        None => Ok(()),
    }
}

/// The Mendelian sampling variance of the animal at a rank, by the coefficients of its ancestors, as
/// `herd_kinship::mendelian` of the book's lineage.
pub fn mendelian<F: Allocator>(frozen: &Frozen<F>, known: &[u128], rank: u32) -> u128
    requires rank { rank < length frozen.now }
    requires known { KnowsBookAncestors DEPTH_LIMIT frozen.now known.now rank }
    ensures value { result ≡ mendelian_variance (ancestry_of frozen.now) DEPTH_LIMIT (number_of_row frozen.now rank) }
    ensures positive { 0 < result }
    ensures at_most_one { result ≤ 2 ^ (2 * DEPTH_LIMIT) }
{
    herd_kinship::mendelian(frozen.lineage(), known, rank)
}

/// The relationship of the animal at a rank with itself, by the coefficients of its ancestors, as `herd_kinship::trace`
/// of the book's lineage.
pub fn trace<F: Allocator, A: Allocator + Clone>(
    alloc: A,
    frozen: &Frozen<F>,
    known: &[u128],
    rank: u32,
) -> Result<u128, AllocError>
    requires rank { rank < length frozen.now }
    requires known { KnowsBookAncestors DEPTH_LIMIT frozen.now known.now rank }
    ensures value { IfOk result (λ value. value ≡ entry (ancestry_of frozen.now) (2 * DEPTH_LIMIT)
        (Some (number_of_row frozen.now rank)) (Some (number_of_row frozen.now rank))) }
    ensures unknown { HasUnknownParent (map parents_of frozen.now) rank → result ≡ Ok (2 ^ (2 * DEPTH_LIMIT)) }
{
    herd_kinship::trace(alloc, frozen.lineage(), known, rank)
}
