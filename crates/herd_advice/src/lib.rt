//! What a frozen book's owner is told of its animals: coefficients of inbreeding, relationships, advice on matings, and
//! contributions to A's inverse. Each call asks `herd_kinship` or `herd_pruned` of the book's lineage; here its answer
//! is that of the book, whose animals are named by their numbers.
//!
//! | | definition (`specs/`) | code (`src/`) | proof (`proofs/lemmas/`) |
//! |---|---|---|---|
//! | the ancestry that a book tells | `FrozenAncestry` | | `BookFacts`, `BookPaths`, `FrozenFacts` |
//! | coefficients | `BookCoefficients` | `book_coefficients` | `FrozenFacts` |
//! | relationships | `BookRelationships` | `book_relationships` | `FrozenFacts` |
//! | contributions | `BookContributions` | `book_contributions` | `ContributionFacts` |
//! | mating advice | `Mating` | `mating_advice`, `dam_matings` | `MatingFacts` |
//! | the laws | those of `herd_kinship` | `laws` | `FrozenFacts` |
#![tactic(auto)]

mod book_coefficients;
mod book_contributions;
mod book_relationships;
mod dam_matings;
pub mod laws;
mod mating_advice;

pub use book_coefficients::{coefficients_of, coefficients_plain, mendelian, trace};
pub use book_contributions::contributions;
pub use book_relationships::Relationships;
pub use dam_matings::DamMatings;
pub use herd_kinship::{
    Coefficients, Contribution, Contributions, Fraction, ONE, fraction, hundredths, inbred,
};
pub use mating_advice::{MatingFault, mating};
