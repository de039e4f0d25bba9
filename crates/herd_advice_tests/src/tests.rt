//! What no clause says: that the threads work at the same time, that each block is entered and each animal traced
//! once, that memory suffices, and that the tree of digests is the one that is published.

mod digests;
mod gates;
mod memory;
mod workers;
