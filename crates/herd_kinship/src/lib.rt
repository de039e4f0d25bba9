//! Relationships and coefficients of inbreeding of a lineage's animals, exact.
//!
//! The relationship of two animals is their entry in the numerator relationship matrix A, by the tabular method; the
//! coefficient of inbreeding of an animal is half the relationship of its parents (Wright 1922), also where both are
//! one animal. All are whole numbers of units of 2^-120, so that `ONE` is 1. A path of parents has at most 60 steps, so
//! from two animals the tabular method takes at most 120 steps, of which each halves the unit. So nothing is rounded,
//! which `laws::unit` proves.
//!
//! Two ways lead to the coefficients, and give the same numbers:
//!
//! - **Sire by sire** (`coefficients_plain`; Colleau 2002; Sargolzaei, Iwaisaki and Colleau 2005). For each sire, by
//!   rank, its mates and their ancestors are collected, what it has of their Mendelian sampling variances is traced,
//!   and its relationships are passed on from parents to offspring. Half of that with a mate is the coefficient of
//!   their calf. It is the faster way on one thread. `Calves` and `Mates` offer a sire by itself, which asks for no
//!   more than its ancestors' coefficients, so threads can share this way too.
//! - **Animal by animal** (`trace`, then `inbred`; Meuwissen and Luo 1992). An animal's ancestors are met from the
//!   youngest to the oldest; its relationship with itself is the sum of its squared shares in them times their
//!   Mendelian sampling variances. This needs no more than its ancestors' coefficients, so threads can share it.
//!
//! | | definition (`specs/`) | code (`src/`) | proof (`proofs/lemmas/`) |
//! |---|---|---|---|
//! | A, coefficients, Mendelian sampling variances | `Ancestry`, `Table`, `Coefficients` | | `ancestry` |
//! | shares, A = T D T', the laws | `Shares`, `InverseRows`, `Laws` | `laws` | `ancestry`, `laws` |
//! | a lineage as an ancestry | `Ranks` | | `lineages` |
//! | columns of A | `Columns`, `Variances` | `columns`, `variances` | `sires` |
//! | sire by sire | `Mates`, `CalfCoefficients` | `mates`, `coefficients` | `sires` |
//! | a sire's calves, and their coefficients | `CalfLinks`, `CalfCoefficients` | `calves` | `sires` |
//! | animal by animal | `Tracing`, `Pending` | `tracing`, `pending` | `tracing`, `numbers` |
//! | one animal's relationships | `Columns` | `relationships` | `sires` |
//! | A's inverse | `InverseRows`, `Contributions` | `inverse`, `contribution` | `laws` |
//! | fractions and percentages | `Fraction` | `numerators`, `fractions` | `numbers` |
//!
//! The folders of `proofs/lemmas/`, beside its lemmas of lists and options, from what is used to what uses it:
//!
//! - `numbers`: sums, products, whole numbers as differences, sets of distances as bits, and halving to lowest terms.
//! - `ancestry`: any lawful ancestry: entries, shares, depths, ancestors, bounds and units, and that names don't count.
//! - `laws`: A = T D T', the rows that diagonalise A, the columns of A, and the laws, in any lawful ancestry.
//! - `lineages`: a lineage is a lawful ancestry by ranks, and what its animals contribute to A's inverse.
//! - `tracing`: what pending shares bring, the steps and the end of a tracing, and what known coefficients give.
//! - `sires`: columns of a lineage, collecting and passing on, the calves of each sire, and all coefficients by them.
#![tactic(auto)]

mod calves;
mod coefficients;
mod columns;
mod contribution;
mod fractions;
mod inverse;
pub mod laws;
mod mates;
mod numerators;
mod pending;
mod relationships;
mod tracing;
mod variances;

pub use calves::{CalfCoefficient, Calves, write_calves};
pub use coefficients::{Coefficients, coefficients_plain};
pub use contribution::{Contribution, Contributions};
pub use fractions::Fraction;
use herd_lineage::DEPTH_LIMIT;
pub use inverse::contributions;
pub use mates::Mates;
pub use numerators::{fraction, hundredths};
pub use relationships::Relationships;
pub use tracing::{inbred, mendelian, trace};

/// The number 1 in the unit of all numerators, which is 2^-120.
pub const ONE: u128 = 1 << (2 * DEPTH_LIMIT);
