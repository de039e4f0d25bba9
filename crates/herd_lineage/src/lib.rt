//! From whom animals come, and nothing else of them: for each animal its known parents, which come before it.
//!
//! Relationship and inbreeding need no more. `herd_frozen`'s book has a lineage, its animals by their ranks. Any other
//! is built animal by animal, each after its parents:
//!
//!     let mut builder = Lineage::builder(alloc)?;
//!     builder.push(None, None)?;
//!     builder.push(Some(0), None)?;
//!     let lineage = builder.build();
#![tactic(auto)]

mod builder;
mod depth;
mod levels;
mod lineage;
mod lineage_fault;
mod packed_index;

pub use builder::LineageBuilder;
pub use depth::depth_of_calf;
pub use lineage::{Lineage, Parents};
pub use lineage_fault::LineageFault;
pub use packed_index::PackedIndex;
// A crate can name a lineage in a contract only if the types of its fields are exported.
#[doc(hidden)]
pub use lineage::PackedParents;

/// The number of steps that the longest path of known parents may have.
///
/// More than 60 can't be had: a coefficient is a whole number of halves of halves, two for each step, so of units of
/// 2^-120, and a hundred times such a number has to fit 128 bits for its percentage.
pub const DEPTH_LIMIT: u8 = 60;

/// The number of animals that a lineage may have.
pub const MOST_ANIMALS: u32 = 16_000_000;
