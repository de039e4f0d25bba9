//! The register of a breed society: commands, their refusals in order, and the journal of what was answered.
//!
//! `Register::file` answers a command: accepted, or the first refusal that holds. Book and replies are always those of
//! the journal's commands, filed one after the other into an empty book. `Register::withdraw` takes the last step back.
//! `Register::last_change` tells what that step made of the records. A `Copybook` takes such changes over, and so has
//! the same records, in a room that is made at once, and freezes as the register's book does.
//!
//!     let mut register = Register::new(alloc, limits);
//!     let reply = register.file(desk, command)?;
//!     let frozen = register.pedigree().freeze(alloc)?;
//!
//! `specs/Run` has the refusals of each kind of command, and the run of commands. The crate `library_example` files
//! some.
#![tactic(auto)]

mod change;
mod command;
mod copybook;
mod file_fault;
mod filing;
pub mod laws;
mod limits;
mod register;
mod reply;
mod step;

pub use change::Change;
pub use command::Command;
pub use copybook::Copybook;
pub use file_fault::FileFault;
pub use limits::{Limits, MOST_STEPS};
pub use register::Register;
pub use reply::{Refusal, Reply};
pub use step::Step;
