ghost use Rattle.std.specs.Prelude.{◌≡◌, ◌*◌, ◌-◌, ◌^◌, ◌<◌, All, length, max, min, false, true, Some, None};
ghost use Rattle.std.specs.Int.{IsGcd};
ghost use Rattle.herd_lineage.specs.declared.TheConstants.{DEPTH_LIMIT};
ghost use Rattle.herd_kinship.specs.Ranks.{ranked};
ghost use Rattle.herd_kinship.specs.Coefficients.{AreCoefficients};
ghost use Rattle.herd_kinship.specs.Contributions.{contributions_of, crossed, filled, Lists, selfed, weighted};
ghost use Rattle.herd_kinship.specs.Fraction.{halved};
ghost use Rattle.herd_kinship.specs.Table.{mendelian as mendelian_variance};

use crate::ONE;
use crate::coefficients::Coefficients;
use crate::contribution::{Contribution, Contributions};
use crate::fractions::{Fraction, lowest};
use crate::tracing::mendelian;
use herd_lineage::Lineage;
use std::alloc::Allocator;

// The values that an animal contributes, by its Mendelian sampling variance.
#[derive(Clone, Copy)]
struct Weights {
    alpha: Fraction,
    minus_half: Fraction,
    quarter: Fraction,
    minus_whole: Fraction,
}

impl Weights {
    // The weights of an animal with this variance, in units of 2^-120.
    fn of(variance: u128) -> Weights
        requires { 0 < variance }
        ensures alpha { result.alpha ≡ halved false (2 ^ (2 * DEPTH_LIMIT)) variance }
        ensures minus_half { result.minus_half ≡ halved true (2 ^ (2 * DEPTH_LIMIT - 1)) variance }
        ensures quarter { result.quarter ≡ halved false (2 ^ (2 * DEPTH_LIMIT - 2)) variance }
        ensures minus_whole { result.minus_whole ≡ halved true (2 ^ (2 * DEPTH_LIMIT)) variance }
    {
        Weights {
            alpha: lowest(false, ONE, variance),
            minus_half: lowest(true, ONE / 2, variance),
            quarter: lowest(false, ONE / 4, variance),
            minus_whole: lowest(true, ONE, variance),
        }
    }

    // On the diagonal, at the animal itself.
    fn own(self, rank: u32) -> Contribution
        ensures { result ≡ record { row = rank; column = rank; value = self.alpha } }
    {
        Contribution {
            row: rank,
            column: rank,
            value: self.alpha,
        }
    }

    // Between the animal and a known parent, which is the older of the two.
    fn with_parent(self, rank: u32, parent: u32) -> Contribution
        ensures { result ≡ record { row = rank; column = parent; value = self.minus_half } }
    {
        Contribution {
            row: rank,
            column: parent,
            value: self.minus_half,
        }
    }

    // Between two parents, in the row of the younger, or at one parent where both ranks are its own.
    fn of_parents(self, first: u32, second: u32) -> Contribution
        ensures { result ≡ record { row = max first second; column = min first second; value = self.quarter } }
    {
        Contribution {
            row: first.max(second),
            column: first.min(second),
            value: self.quarter,
        }
    }

    // All that a founder contributes.
    fn without_parents(self, rank: u32) -> Contributions
        ensures { Lists result self.alpha
            (weighted self.alpha self.minus_half self.quarter self.minus_whole rank None None) }
    {
        Contributions {
            alpha: self.alpha,
            count: 1,
            list: [self.own(rank); 6],
        }
    }

    // All that an animal with one known parent contributes.
    fn with_one_parent(self, rank: u32, parent: u32) -> Contributions
        ensures { Lists result self.alpha
            (weighted self.alpha self.minus_half self.quarter self.minus_whole rank (Some parent) None) }
    {
        let own = self.own(rank);
        let between = self.with_parent(rank, parent);
        let within = self.of_parents(parent, parent);
        Contributions {
            alpha: self.alpha,
            count: 3,
            list: [own, between, within, own, own, own],
        }
    }

    // All that an animal contributes whose sire is its dam.
    fn with_selfed_parent(self, rank: u32, parent: u32) -> Contributions
        ensures { Lists result self.alpha (selfed self.alpha self.minus_whole rank parent) }
    {
        let own = self.own(rank);
        let between = Contribution {
            row: rank,
            column: parent,
            value: self.minus_whole,
        };
        let within = Contribution {
            row: parent,
            column: parent,
            value: self.alpha,
        };
        Contributions {
            alpha: self.alpha,
            count: 3,
            list: [own, between, within, own, own, own],
        }
    }

    // All that an animal with two known parents, which differ, contributes.
    fn with_both_parents(self, rank: u32, sire: u32, dam: u32) -> Contributions
        ensures { Lists result self.alpha (crossed self.alpha self.minus_half self.quarter rank sire dam) }
    {
        Contributions {
            alpha: self.alpha,
            count: 6,
            list: [
                self.own(rank),
                self.with_parent(rank, sire),
                self.with_parent(rank, dam),
                self.of_parents(sire, sire),
                self.of_parents(dam, dam),
                self.of_parents(sire, dam),
            ],
        }
    }
}

/// What the animal at a rank contributes to the inverse of the numerator relationship matrix, by Henderson's rules
/// with inbreeding (Henderson 1976): with the Mendelian sampling variance d, 1/d at itself, -1/(2d) with each known
/// parent, and 1/(4d) at each known parent and between the two. Where sire and dam are one animal: 1/d at itself, -1/d
/// with the parent, and 1/d at the parent.
///
/// It takes no memory and traces nobody.
pub fn contributions<F: Allocator, C: Allocator>(
    lineage: &Lineage<F>,
    coefficients: &Coefficients<C>,
    rank: u32,
) -> Contributions
    requires rank { rank < length lineage.now }
    requires coefficients { AreCoefficients DEPTH_LIMIT lineage.now coefficients.now }
    ensures alpha { result.alpha ≡ halved false (2 ^ (2 * DEPTH_LIMIT))
        (mendelian_variance (ranked lineage.now) DEPTH_LIMIT rank) }
    ensures count { result.count ≡ length (contributions_of DEPTH_LIMIT lineage.now rank) }
    ensures list { result.list ≡ filled (contributions_of DEPTH_LIMIT lineage.now rank) }
    ensures lowest { All (λ one. IsGcd one.value.numerator one.value.denominator 1) result.list }
{
    let parents = lineage.parents(rank);
    let weights = Weights::of(mendelian(lineage, coefficients.list(), rank));
    match (parents.sire, parents.dam) {
        (None, None) => weights.without_parents(rank),
        (Some(parent), None) => weights.with_one_parent(rank, parent),
        (None, Some(parent)) => weights.with_one_parent(rank, parent),
        (Some(sire), Some(dam)) => {
            if sire == dam {
                weights.with_selfed_parent(rank, sire)
            } else {
                weights.with_both_parents(rank, sire, dam)
            }
        }
    }
}
