//! Tests of a book: days, command files, pedigrees, registers with their copies, and offices.
#![tactic(auto)]

#[cfg(test)]
mod tests;
