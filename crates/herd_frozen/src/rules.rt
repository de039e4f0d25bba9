//! What a record is, and why an animal can't have its parents.

pub(crate) mod animal;
pub(crate) mod parent_fault;
