//! Coefficients of inbreeding of a frozen book's animals by several workers: each call asks `herd_pool` of the book's
//! lineage, and here its answer is that of the book.
//!
//! The definitions are those of `herd_advice` (`BookCoefficients`) and of `herd_pool` (`Levels`, `Sires`).
#![tactic(auto)]

mod workers;

pub use workers::{coefficients, coefficients_by_sires};
