//! A Merkle tree over rows of bytes, as in RFC 6962, and some of its leaves with what stands for the others.
//!
//! A row's digest is SHA-256 of the byte 0 and the row, a node's of the byte 1 and the two digests below it. Who has
//! the number of rows, some of the rows, and the digests of the largest subtrees without one of these, has the root:
//!
//!     let root = tree_root(&digests);
//!     let beside = digests_beside(alloc, &digests, &[2, 5])?;
//!     let found = root_from(7, &[third, sixth], beside.as_slice());
//!
//! | | definition (`specs/`) | code (`src/`) | proof (`proofs/lemmas/`) |
//! |---|---|---|---|
//! | digests, and the tree over them | `Tree` | `tree` | `Steps`, `Digests` |
//! | leaves that are shown, and the digests beside them | `Shown` | `shown`, `beside` | `Complete` |
//! | what a right root says | `Collision` | | `Sound`, `Whole` |
#![tactic(auto)]

mod beside;
mod shown;
mod tree;

pub use beside::digests_beside;
pub use shown::{Part, Shown, root_from};
pub use tree::{row_digest, tree_root};
