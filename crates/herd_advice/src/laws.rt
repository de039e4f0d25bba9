//! The laws of the numerator relationship matrix A for the animals at two ranks of a frozen book, as
//! `herd_kinship::laws` has them of any lineage.

ghost use Rattle.std.specs.Prelude.{ℕ, ◌+◌, ◌<◌, Some, length, map};
ghost use Rattle.herd_frozen.specs.declared.TheConstants.{DEPTH_LIMIT};
ghost use Rattle.herd_frozen.specs.freezing.Frozen.{book_of, parents_of};
ghost use Rattle.herd_frozen.specs.rules.Book.{IsDepthOf};
ghost use Rattle.herd_kinship.specs.Columns.{IsColumn};
ghost use Rattle.herd_kinship.specs.Laws.{KeepsHalves, IsSymmetric, IsBounded, IsDecomposed, IsDiagonalised};
ghost use Rattle.herd_advice.specs.FrozenAncestry.{ancestry_of, number_of_row};

use herd_frozen::Frozen;
use std::alloc::Allocator;

/// Nothing is lost in halves: from unit 2^-k on, where k is the sum of the two depths, half the unit doubles the entry.
pub fn unit<A: Allocator>(frozen: &Frozen<A>, x: u32, y: u32)
    requires first { x < length frozen.now }
    requires second { y < length frozen.now }
    ensures { (g e : ℕ) → IsDepthOf (book_of frozen.now) (number_of_row frozen.now x) g
        → IsDepthOf (book_of frozen.now) (number_of_row frozen.now y) e
        → KeepsHalves (ancestry_of frozen.now) (g + e) (number_of_row frozen.now x) (number_of_row frozen.now y) }
{
    prove!(x < frozen.len());
}

/// A is symmetric, in every unit.
pub fn symmetry<A: Allocator>(frozen: &Frozen<A>, x: u32, y: u32)
    requires first { x < length frozen.now }
    requires second { y < length frozen.now }
    ensures { IsSymmetric (ancestry_of frozen.now) (number_of_row frozen.now x) (number_of_row frozen.now y) }
{
    prove!(x < frozen.len());
}

/// Entries are below 2, coefficients below 1, and Mendelian sampling variances above 0 and at most 1.
pub fn bound<A: Allocator>(frozen: &Frozen<A>, x: u32, y: u32)
    requires first { x < length frozen.now }
    requires second { y < length frozen.now }
    ensures { IsBounded (ancestry_of frozen.now) DEPTH_LIMIT
        (number_of_row frozen.now x) (number_of_row frozen.now y) }
{
    prove!(x < frozen.len());
}

/// A = T D T': the matrix is the shares and the Mendelian sampling variances multiplied (Henderson 1976).
pub fn decomposition<A: Allocator>(frozen: &Frozen<A>, x: u32, y: u32)
    requires first { x < length frozen.now }
    requires second { y < length frozen.now }
    ensures { IsDecomposed (ancestry_of frozen.now) DEPTH_LIMIT
        (Some (number_of_row frozen.now x)) (Some (number_of_row frozen.now y)) }
{
    prove!(x < frozen.len());
}

/// The rows by which the inverse is made diagonalise A (Henderson 1976). From this it follows that the contributions
/// add up to its inverse; the sum itself isn't formed or proved.
pub fn inverse_rows<A: Allocator>(frozen: &Frozen<A>, x: u32, y: u32)
    requires first { x < length frozen.now }
    requires second { y < length frozen.now }
    ensures { IsDiagonalised (ancestry_of frozen.now) DEPTH_LIMIT
        (number_of_row frozen.now x) (number_of_row frozen.now y) }
{
    prove!(x < frozen.len());
}

/// The relationships of an animal s with all others are passed on from parents to offspring: with j by half of those
/// with j's parents, and what s has of j's Mendelian sampling variance (Colleau 2002).
pub fn column<A: Allocator>(frozen: &Frozen<A>, s: u32, j: u32)
    requires first { s < length frozen.now }
    requires second { j < length frozen.now }
    ensures { IsColumn DEPTH_LIMIT (map parents_of frozen.now) s j }
{
    herd_kinship::laws::column(frozen.lineage(), s, j);
}
