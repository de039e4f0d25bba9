//! A book of records, what it may be, and the book in age order.
//!
//! A book is a list of records by their numbers, in the order of registration. `Frozen` is one in age order, whose rows
//! have the ranks of the parents, for who reads the whole of it. `freeze_list` makes it of a list of records,
//! `freeze_hinted` sooner of one with the places where parents are expected, and `frozen_from` of whatever tells in the
//! order of registration what a row keeps of each animal, and the places of its parents (`Registered`), as
//! `herd_pedigree`'s book.
//!
//!     let frozen = freeze_list(alloc, &records)?;
//!     let row = frozen.row(0);
//!
//! Three folders have the same names in `src/` and `specs/`, with their lemmas in `proofs/lemmas/`.
//!
//! - **`rules`**: what may be. `Lawful` and `ParentFault` say it, `Paths` says what a depth is.
//! - **`places`**: animals by their places in the order of registration.
//! - **`freezing`**: the book in age order. `Frozen` says what that is.
#![tactic(auto)]

mod freezing;
mod places;
mod rules;

pub use freezing::freeze::{freeze_hinted, freeze_list, frozen_from};
pub use freezing::frozen::{Frozen, Row};
pub use freezing::registered::Registered;
pub use freezing::rows::RowRecord;
pub use herd_lineage::{Lineage, Parents};
pub use places::links::{Link, LinkHint};
pub use rules::animal::Animal;
pub use rules::parent_fault::ParentFault;
// A crate can name a frozen book in a contract only if the types of its fields are exported.
#[doc(hidden)]
pub use freezing::number_index::NumberIndex;
#[doc(hidden)]
pub use freezing::rows::Rows;
// `herd_pedigree` uses them too.
#[doc(hidden)]
pub use herd_lineage::{PackedIndex, depth_of_calf};

/// The number of steps that the longest path of known parents may have.
pub const DEPTH_LIMIT: u8 = herd_lineage::DEPTH_LIMIT;

/// The number of animals that a book may have.
pub const MOST_ANIMALS: u32 = herd_lineage::MOST_ANIMALS;
