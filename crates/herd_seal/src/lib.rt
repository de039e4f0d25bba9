//! The seal of a book, and the check of rows under it: a certificate that anyone can check who has the seal.
//!
//! A row of a book in age order is the places of its sire and its dam, each with a comma behind it, and its record as
//! `records` prints it; places count from 0, and an unknown one is empty. The seal is SHA-256 of the byte 2, the number
//! of animals, the steps of the journal (eight bytes each, the high one first) and the root of the tree over the rows,
//! which `merkle_tree` has. A certificate's text is a header, the rows of an animal and all its ancestors, and the
//! digests beside these.
//!
//! | | definition (`specs/`) | code (`src/`) | proof (`proofs/`) |
//! |---|---|---|---|
//! | rows as bytes, and the seal of a book | `Seal` | `row`, `book` | `RowFacts` |
//! | what a certificate shows and claims | `Certificate` | `certificate` | `FieldFacts` |
//! | a certificate's text | `CertificateText` | `fields`, `reading` | `TextFacts` |
//! | which texts are read, each in one form | `Reading` | `reading` | `ReadingFacts`, `FormFacts` |
//! | what is printed of a check | `Answer` | `answer` | `AnswerFacts` |
//! | why one is refused, and at which line | `CheckCause`, `CheckFaults` | `check_fault` | `FaultFacts`, `PartsFacts` |
//! | what it is good for that rows were checked | `Certificate` | `check` | `SoundFacts` |
#![tactic(auto)]

mod answer;
mod book;
mod certificate;
mod check;
mod check_fault;
mod fields;
mod reading;
mod row;

pub use answer::{MOST_BYTES, answer_certificate};
pub use book::{row_digests, seal_book, seal_of_digests};
pub use certificate::{Certificate, CertifiedRow, Claim};
pub use check::check_certificate;
pub use check_fault::{CheckCause, CheckFault};
pub use reading::read_certificate;
pub use row::push_row;
