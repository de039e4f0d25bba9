//! The seal of a book, and certificates under it, as text.
//!
//! A certificate shows an animal and all its known ancestors, as rows of the sealed book, with the digests that stand
//! for all other rows. `herd_seal` has the form of its text, and checks it. Here is written what a book's own seal and
//! certificates are: each is a function of the book and of the number of steps of its journal.
//!
//! | | definition (`specs/`) | code (`src/`) | proof (`proofs/`) |
//! |---|---|---|---|
//! | an animal and its ancestors | `Ancestors` | `ancestors` | `AncestorFacts` |
//! | the line of a seal | `Sealed` | `seal_line` | |
//! | what a certificate is made of | `Parts` | `parts` | `PartFacts` |
//! | a certificate as text | `Sealed` | `certificate`, `field` | `PartFacts` |
//! | nothing is wrong with it | `Faultless` | `laws` | `ShownFacts`, `FaultlessFacts`, `AcceptedFacts` |
//! | the check accepts its text | `Faultless` | `certificate` | `WrittenFacts` |
#![tactic(auto)]

mod ancestors;
mod certificate;
mod field;
pub mod laws;
mod parts;
mod seal_line;

pub use certificate::write_sealed_at;
pub use seal_line::write_seal;
