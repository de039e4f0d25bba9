//! A lineage that is pruned to some animals and all their ancestors, and what it tells of them.
//!
//! The tabular method asks of two animals for nothing but their ancestors. So relationships and coefficients of the
//! animals that are kept are those of the whole lineage (`laws::entries`), and one animal's coefficient is computed of
//! its ancestors alone. To mark them takes a pass over the ranks below it.
//!
//! | | definition (`specs/`) | code (`src/`) | proof (`proofs/lemmas/`) |
//! |---|---|---|---|
//! | some animals and all their ancestors | `Marked` | `marked` | `MarkedFacts` |
//! | the lineage of these | `Pruned` | `pruned_lineage` | `PruningFacts` |
//! | the entries are the same | `Pruned` | `laws` | `EntryFacts` |
//! | coefficients row by row of the matrix, its last animals | `Window` | `window` | `WindowFacts` |
//! | coefficients of some animals | `Known` | `coefficient` | `EntryFacts` |
#![tactic(auto)]

mod coefficient;
pub mod laws;
mod marked;
mod pruned_lineage;
mod window;

pub use coefficient::{coefficient_of, coefficients, coefficients_of};
pub use pruned_lineage::PrunedLineage;
