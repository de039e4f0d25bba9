//! Coefficients, relationships and contributions to A's inverse of any pedigree, as text.
//!
//! An animal is written as its number, which is that of its record in the pedigree file: the rank 0 has the number 1.
//! `answer_pedigree` reads a file and writes what is ordered of its lineage; `write_report` does the same with a
//! lineage, and each text is also written by a call of its own. What is written is the whole text, or where memory is
//! refused or a write fails a front of it (`herd_text`).
//!
//! | | definition (`specs/`) | code (`src/`) | proof (`proofs/`) |
//! |---|---|---|---|
//! | coefficients and relationships in either notation | `Notation` | `notation` | |
//! | the list of coefficients | `InbreedingList` | `inbreeding_list` | `ListFacts` |
//! | the inverse of A | `InverseList` | `inverse_list` | `ListFacts` |
//! | entries of A | `RelationshipList` | `relationship_list` | `PairFacts` |
//! | the animals that an order names | `Named` | `named` | `NamedFacts` |
//! | what an order writes | `PedigreeReport` | `pedigree_order`, `report` | `ReportFacts` |
//! | how that may end | `PedigreeReport` | `pedigree_report_fault` | |
#![tactic(auto)]

mod inbreeding_list;
mod inverse_list;
mod named;
mod notation;
mod pedigree_order;
mod pedigree_report_fault;
mod relationship_list;
mod report;

pub use inbreeding_list::write_inbreeding;
pub use inverse_list::write_inverse;
pub use pedigree_order::PedigreeOrder;
pub use pedigree_report_fault::PedigreeReportFault;
pub use relationship_list::write_relationships;
pub use report::{answer_pedigree, write_report};
