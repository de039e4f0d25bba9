//! Tests of what is computed of lineages and books: by which threads, with which memory; and of digests.
#![tactic(auto)]

#[cfg(test)]
mod tests;
