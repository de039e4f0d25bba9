//! Every text that the herd book prints, but for those under its seal (`herd_sealed_report`).
//!
//! Each text is written by a call of its own (`write_replies` and the others), from a journal or a frozen book. What is
//! written is the whole text, or where memory is refused or a write fails a front of it.
//!
//! The texts stand in `writing`, which has one name in `src/`, `specs/` and `proofs/lemmas/`. `PartFacts`, beside it in
//! `proofs/lemmas/`, says which texts of a part of a book are those of the whole.
//!
//! | | definition (`specs/`) | code (`src/`) | proof (`proofs/`) |
//! |---|---|---|---|
//! | replies | `Replies` | `replies` | `ReplyLines` |
//! | refusals, in replies and in advice | `RefusedText` | `refused_text` | |
//! | the list of coefficients | `InbreedingList` | `inbreeding_list` | `CoefficientFacts` |
//! | the line of one animal | `CoefficientLine` | `coefficient_line` | `CoefficientFacts` |
//! | records, of some numbers or of all | `RecordList`, `Registered` | `record_list`, `registered` | `RecordFacts` |
//! | certificates | `Certificate`, `Registered` | `certificate` | `CertificateFacts` |
//! | an animal's ancestors, as a certificate shows them | `Ancestors` | `ancestors` | `AncestorFacts` |
//! | mating advice | `MatingList` | `mating_list` | `MatingFacts` |
//! | the inverse of A | `InverseList` | `inverse_list` | `ContributionFacts` |
//! | entries of A | `RelationshipList` | `relationship_list` | `RelationshipFacts` |
//! | how a text of its own may end | | `named_animals_fault` | |
#![tactic(auto)]

mod writing;

pub use herd_text::{ReportFault, write_all};
pub use writing::certificate::write_certificates;
pub use writing::coefficient_line::write_coefficient;
pub use writing::inbreeding_list::write_inbreeding;
pub use writing::inverse_list::write_inverse;
pub use writing::mating_list::write_mating;
pub use writing::named_animals_fault::NamedAnimalsFault;
pub use writing::record_list::write_records;
pub use writing::registered::are_registered;
pub use writing::relationship_list::write_relationships;
pub use writing::replies::write_replies;
