//! Reading a command file, and filing what it says.
//!
//! A command file is read record by record (`csv_records`), each record is one command or a fault, and each command
//! is filed as soon as it is read. The definitions speak of the bytes alone: `commands` says which commands they hold
//! before the first fault, and which fault that is. What the bytes don't show, a reader that fails or memory that is
//! refused, is an interruption, and told as such.
//!
//! `read_commands` gives the commands of a file as a value, and `command_behind` the command in a record of another
//! text. A `CommandReader` is a file that is filed while it is read:
//!
//!     let mut commands = CommandReader::open(alloc, reader, limits.steps)?;
//!     let fault = file_commands(&mut commands, &mut register)?;
//!
//! | | definition (`specs/`) | code (`src/`) | proof (`proofs/`) |
//! |---|---|---|---|
//! | the header | `Grammar`, `Columns` | `version`, `columns` | `HeaderFacts` |
//! | a record as a command | `Grammar`, `Field` | `columns`, `field` | `BehindFacts`, `FieldFacts`, `HerdFacts` |
//! | a command file, and where it goes wrong | `CommandFile`, `LineCause` | `command_file`, `line_fault` | |
//! | its commands, one at a time | `CommandReader` | `command_reader` | `CommandReaderFacts` |
//! | filing them | `Filing` | `command_filing` | `FilingFacts` |
#![tactic(auto)]

mod columns;
mod command_file;
mod command_filing;
mod command_reader;
mod field;
mod line_fault;
mod version;

pub use columns::command_behind;
#[doc(hidden)]
pub use command_file::list_commands;
pub use command_file::{Commands, read_commands};
pub use command_filing::{fault_of_rest, file_commands};
pub use command_reader::CommandReader;
pub use line_fault::{LineCause, LineFault};
