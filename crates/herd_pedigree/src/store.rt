//! How a pedigree keeps its book, changes it, and takes a change back.

pub(crate) mod ancestors;
pub(crate) mod correction;
pub(crate) mod depth;
pub(crate) mod progeny;
pub(crate) mod records;
pub(crate) mod searched;
pub(crate) mod undo;
