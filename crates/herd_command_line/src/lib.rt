//! What the words of the command line ask for.
//!
//! `clap` reads the words by a line that has all subcommands with their arguments (`command_line`), and `read_words`
//! makes a request of what it found, or says why they ask for nothing. A book's order and the clerks' plan are those
//! that `herd_orders` and `herd_clerks` take; a session's plan is the words' own, so that reading them waits for no
//! session.
//!
//!     let request = read_words(alloc, words, &mut numbers, &mut animals, &mut others)?;
//!
//! | | definition (`specs/`) | code (`src/`) | proof (`proofs/`) |
//! |---|---|---|---|
//! | the command line | `CommandLine`, `Subcommand` | `command_line`, `subcommand` | `CommandFacts` |
//! | what its words ask for | `Texts`, `Words` | `arguments`, `plans` | `WordsFacts` |
//! | the words behind `pedigree` | `PedigreeWords` | `pedigree_words` | `PedigreeFacts` |
//! | the limits where the words don't say them | | `limits` | |
//! | the texts of help and of the version | | `help` | |
#![tactic(auto)]

mod arguments;
mod command_line;
mod help;
mod limits;
mod pedigree_words;
mod plans;
mod subcommand;

pub use arguments::{Request, WordsFault, read_words};
pub use limits::{DEFAULT_ANIMALS, DEFAULT_STEPS};
pub use plans::{BookPlan, CheckPlan, OfficePlan, PedigreePlan};
