//! A command file is filed, and what is ordered of its book is written.
//!
//! `answer_file` files a command file and writes the reply to each command. `run` carries out an `Order`: it files a
//! command file, freezes the book, and writes one text of it:
//!
//!     run(&rt, alloc, limits, &Order::Inverse, reader, &mut writer)?;
//!
//! `write_report` does the same with a frozen book. The file is read and filed by `herd_command_file`, and each text is
//! that of `herd_report`, or under the book's seal of `herd_sealed_report`. What is written is the whole text, or where
//! memory is refused or a write fails a front of it.
//!
//! | | definition (`specs/`) | code (`src/`) | proof (`proofs/`) |
//! |---|---|---|---|
//! | what a run writes | `Run` | `orders` | `RunFacts` |
//! | how it may end | `Run`, `RunFault` | `run_fault` | `RunFacts` |
#![tactic(auto)]

mod orders;
mod run_fault;

pub use orders::{Order, answer_file, run, write_report};
pub use run_fault::RunFault;
