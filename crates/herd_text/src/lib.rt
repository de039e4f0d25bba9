//! How a text goes to a writer, and coefficients and fractions in it.
//!
//! A text is made in memory and passed on a part at a time. What a writer gets is the whole text, or where memory is
//! refused or a write fails a front of it.
//!
//! | | definition (`specs/`) | code (`src/`) | proof (`proofs/lemmas/`) |
//! |---|---|---|---|
//! | a text, and what is written of it | `Text` | `text`, `report_fault` | `TextFacts`, `Pieces`, `Exits` |
//! | fractions and percentages | `CoefficientText` | `coefficient_text` | |
//! | the ends of lines, made once for equal values | | `line_end` | |
#![tactic(auto)]

mod coefficient_text;
mod line_end;
mod report_fault;
mod text;

pub use coefficient_text::{Coefficient, push_coefficient};
pub use line_end::{LastValue, LineEnd};
pub use report_fault::ReportFault;
pub use text::{Text, write_all};
