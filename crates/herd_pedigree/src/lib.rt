//! The book of a breed society: one record for each number, and what a change of it may be.
//!
//! `Pedigree` is the book, and always lawful. A birth and a correction of parents are checked and made by one call,
//! which tells the first fault of the parents, if they have one; an owner and an exit are set by calls of their own.
//! Who asks for more than one thing of an animal finds it once, by `Pedigree::find`, and passes on what was `Found`.
//! The last change can be taken back. `Pedigree::freeze` gives the book in age order, as `herd_frozen` has it, and
//! `freeze_ancestors` some animals with all known ancestors, which `Ancestors` finds in any book that is `Searched`.
//!
//!     let mut pedigree = Pedigree::new(alloc);
//!     let outcome = pedigree.add_if_new(number, newborn)?;
//!     let frozen = pedigree.freeze(alloc)?;
//!
//! What a book may be stands in `herd_frozen` (`rules`). The folder **`store`** says how the book is kept, changed and
//! taken back, by places; it names no fault of parents.
//!
//! The tests in `herd_office_tests` have whole calls.
#![tactic(auto)]

mod found;
mod parents;
mod pedigree;
mod registration;
mod store;

pub use found::Found;
pub use pedigree::Pedigree;
pub use registration::{Newborn, Registration};
pub use store::ancestors::Ancestors;
pub use store::searched::Searched;
// A crate can name a pedigree in a contract only if the types of its fields are exported.
#[doc(hidden)]
pub use store::progeny::{ChainNode, Progeny};
#[doc(hidden)]
pub use store::records::{Records, StoredRecord};
#[doc(hidden)]
pub use store::undo::Undo;
