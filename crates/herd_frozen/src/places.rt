//! Animals by their places, which count from 0 in the order of registration.

pub(crate) mod links;
