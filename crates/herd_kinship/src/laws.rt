//! The laws of the numerator relationship matrix A, each promised for the animals at two ranks of a lineage. The
//! calls do nothing: who calls one has its `ensures` as a fact.

ghost use Rattle.std.specs.Prelude.{◌+◌, ◌<◌, Some, length};
ghost use Rattle.herd_lineage.specs.declared.TheConstants.{DEPTH_LIMIT};
ghost use Rattle.herd_lineage.specs.Lineage.{depth_at};
ghost use Rattle.herd_kinship.specs.Columns.{IsColumn};
ghost use Rattle.herd_kinship.specs.Laws.{KeepsHalves, IsSymmetric, IsBounded, IsDecomposed, IsDiagonalised};
ghost use Rattle.herd_kinship.specs.Ranks.{ranked};

use herd_lineage::Lineage;
use std::alloc::Allocator;

/// Nothing is lost in halves: from unit 2^-k on, where k is the sum of the two depths, half the unit doubles the entry.
pub fn unit<A: Allocator>(lineage: &Lineage<A>, x: u32, y: u32)
    requires first { x < length lineage.now }
    requires second { y < length lineage.now }
    ensures { KeepsHalves (ranked lineage.now) (depth_at lineage.now x + depth_at lineage.now y) x y }
{
    prove!(x < lineage.len());
}

/// A is symmetric, in every unit.
pub fn symmetry<A: Allocator>(lineage: &Lineage<A>, x: u32, y: u32)
    requires first { x < length lineage.now }
    requires second { y < length lineage.now }
    ensures { IsSymmetric (ranked lineage.now) x y }
{
    prove!(x < lineage.len());
}

/// Entries are below 2, coefficients below 1, and Mendelian sampling variances above 0 and at most 1.
pub fn bound<A: Allocator>(lineage: &Lineage<A>, x: u32, y: u32)
    requires first { x < length lineage.now }
    requires second { y < length lineage.now }
    ensures { IsBounded (ranked lineage.now) DEPTH_LIMIT x y }
{
    prove!(x < lineage.len());
}

/// A = T D T': the matrix is the shares and the Mendelian sampling variances multiplied (Henderson 1976).
pub fn decomposition<A: Allocator>(lineage: &Lineage<A>, x: u32, y: u32)
    requires first { x < length lineage.now }
    requires second { y < length lineage.now }
    ensures { IsDecomposed (ranked lineage.now) DEPTH_LIMIT (Some x) (Some y) }
{
    prove!(x < lineage.len());
}

/// The rows by which the inverse is made diagonalise A (Henderson 1976). From this it follows that the contributions
/// add up to its inverse; the sum itself isn't formed or proved.
pub fn inverse_rows<A: Allocator>(lineage: &Lineage<A>, x: u32, y: u32)
    requires first { x < length lineage.now }
    requires second { y < length lineage.now }
    ensures { IsDiagonalised (ranked lineage.now) DEPTH_LIMIT x y }
{
    prove!(x < lineage.len());
}

/// The relationships of an animal s with all others are passed on from parents to offspring: with j by half of those
/// with j's parents, and what s has of j's Mendelian sampling variance (Colleau 2002).
pub fn column<A: Allocator>(lineage: &Lineage<A>, s: u32, j: u32)
    requires first { s < length lineage.now }
    requires second { j < length lineage.now }
    ensures { IsColumn DEPTH_LIMIT lineage.now s j }
{
    prove!(s < lineage.len());
}
