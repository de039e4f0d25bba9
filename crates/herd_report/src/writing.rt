//! The texts of replies, lists, certificates and advice.

pub(crate) mod ancestors;
pub(crate) mod certificate;
pub(crate) mod coefficient_line;
pub(crate) mod inbreeding_list;
pub(crate) mod inverse_list;
pub(crate) mod mating_list;
pub(crate) mod named_animals_fault;
pub(crate) mod record_list;
pub(crate) mod refused_text;
pub(crate) mod registered;
pub(crate) mod relationship_list;
pub(crate) mod replies;
