//! The book in age order, with parents by their ranks.

pub(crate) mod age_order;
pub(crate) mod freeze;
pub(crate) mod frozen;
pub(crate) mod hinted;
pub(crate) mod listed;
pub(crate) mod number_index;
pub(crate) mod registered;
pub(crate) mod rows;
