//! The line of an animal's record, as `records` prints it, written and read.
//!
//! A record has one line, and a line that is read is written again as it was.
#![tactic(auto)]

mod field;
mod reading;
mod writing;

pub use field::{push_field, push_number_field};
pub use reading::{Record, cut, read_record};
pub use writing::{push_record, push_record_line};
