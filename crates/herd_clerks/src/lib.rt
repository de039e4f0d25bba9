//! Filing a command file at several desks of an office, each with a clerk in a thread of its own.
//!
//!     clerks(&rt, alloc, limits, DeskPlan { desks, base }, reader, &mut writer)?;
//!
//! The whole file is read first. Desk 1 files the first `base` commands before any other; the rest are dealt to the
//! desks in turn, and each desk files its own in their order. Then an inspector learns the desks' slips and freezes the
//! book, the office is closed, and a summary is written: how many calls of each desk were answered, how many steps and
//! animals there are, and how many steps the inspector has seen.
//!
//! In which order different desks file is left open. That each desk files just what is dealt to it, in its order, is
//! what its thread promises (`DeskTask`), and what the closed journal shows (`IsSummaryOf`).
//!
//! | | definition (`specs/`) | code (`src/`) | proof (`proofs/`) |
//! |---|---|---|---|
//! | the desk of each command, a desk's turn | `Deal` | `deal` | `DealFacts`, `Lists` |
//! | clerks, their threads, one at a desk | `Clerks`, `Deal` | `desks`, `crew`, `clerk` | `DealFacts`, `SummaryFacts` |
//! | how their work in the office ends early | `Clerks` | `office_fault` | |
//! | how clerks end early | `Clerks` | `clerks_fault` | `ClerksFacts` |
//! | what each desk answered, as text | `Summary` | `summary` | `SummaryFacts` |
#![tactic(auto)]

mod clerk;
mod clerks_fault;
mod crew;
mod deal;
mod desks;
mod office_fault;
mod summary;

pub use clerks_fault::ClerksFault;
pub use deal::DeskPlan;
pub use desks::clerks;
