//! The records of a file of comma-separated values, one at a time.
//!
//! `csv` splits the bytes. `Upcoming` says which records a reader has still to give, where its bytes are known.
#![tactic(auto)]

mod interruption;
mod records;

pub use interruption::Interruption;
pub use records::{field, open_records, read_record};
