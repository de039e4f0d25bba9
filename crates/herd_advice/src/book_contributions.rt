ghost use Rattle.std.specs.Prelude.{◌≡◌, ◌*◌, ◌^◌, ◌<◌, All, false, length};
ghost use Rattle.std.specs.Int.{IsGcd};
ghost use Rattle.herd_frozen.specs.declared.TheConstants.{DEPTH_LIMIT};
ghost use Rattle.herd_kinship.specs.Contributions.{filled};
ghost use Rattle.herd_kinship.specs.Fraction.{halved};
ghost use Rattle.herd_kinship.specs.Table.{mendelian};
ghost use Rattle.herd_advice.specs.BookCoefficients.{AreBookCoefficients};
ghost use Rattle.herd_advice.specs.BookContributions.{book_contributions_of};
ghost use Rattle.herd_advice.specs.FrozenAncestry.{ancestry_of, number_of_row};

use herd_frozen::Frozen;
use herd_kinship::{Coefficients, Contributions};
use std::alloc::Allocator;

/// What the animal at a rank contributes to the inverse of the numerator relationship matrix, by Henderson's rules
/// with inbreeding (Henderson 1976): with the Mendelian sampling variance d, 1/d at itself, -1/(2d) with each known
/// parent, and 1/(4d) at each known parent and between the two.
///
/// It takes no memory and traces nobody.
pub fn contributions<F: Allocator, C: Allocator>(
    frozen: &Frozen<F>,
    coefficients: &Coefficients<C>,
    rank: u32,
) -> Contributions
    requires rank { rank < length frozen.now }
    requires coefficients { AreBookCoefficients DEPTH_LIMIT frozen.now coefficients.now }
    ensures alpha { result.alpha ≡ halved false (2 ^ (2 * DEPTH_LIMIT))
        (mendelian (ancestry_of frozen.now) DEPTH_LIMIT (number_of_row frozen.now rank)) }
    ensures count { result.count ≡ length (book_contributions_of DEPTH_LIMIT frozen.now rank) }
    ensures list { result.list ≡ filled (book_contributions_of DEPTH_LIMIT frozen.now rank) }
    ensures lowest { All (λ one. IsGcd one.value.numerator one.value.denominator 1) result.list }
{
    herd_kinship::contributions(frozen.lineage(), coefficients, rank)
}
