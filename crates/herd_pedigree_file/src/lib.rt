//! Reading a pedigree file: a renumbered pedigree, in which an animal is the number of its record.
//!
//! The first record is the header `sire,dam`. Each other one has two fields: the parents of the next animal, as the
//! numbers of earlier records, each `0` or empty where it is unknown. The definitions speak of the bytes alone:
//! `lineage_in` says which lineage they hold, or their first fault. What the bytes don't show, a reader that fails or
//! memory that is refused, is an interruption, and told as such.
//!
//!     let lineage = read_lineage(alloc, reader, MOST_ANIMALS)?;
//!
//! | | definition (`specs/`) | code (`src/`) | proof (`proofs/`) |
//! |---|---|---|---|
//! | the number that a text writes | `Number` | `number` | `NumberFacts` |
//! | a record as an animal | `Grammar` | `animal` | `GrammarFacts` |
//! | the header | `PedigreeFile` | `reading` | `proofs/Header` |
//! | the pedigree in a file, and its first fault | `PedigreeFile` | `reading`, `pedigree_fault` | `ReadingFacts` |
#![tactic(auto)]

mod animal;
mod number;
mod pedigree_fault;
mod reading;

pub use number::rank_in;
pub use pedigree_fault::{PedigreeCause, PedigreeFault};
pub use reading::read_lineage;
