//! What a record of a session's input asks for, and of whom: a command for a desk, or a question for an inspector; and
//! why a request isn't answered.
//!
//!     match request_in(alloc, desks, inspectors, &row) {
//!         Request::Desk(place, asked) => ...,
//!         Request::Inspector(place, asked) => ...,
//!         Request::Nobody(tag, fault) => ...,
//!     }
//!
//! | | definition (`specs/`) | code (`src/`) | proof (`proofs/`) |
//! |---|---|---|---|
//! | requests | `Requests`, `Addressees` | `request` | |
//! | tags | `Tag` | `tag` | |
//! | questions | `Questions` | `question`, `word` | `FieldFacts` |
//! | faults | `Faults` | `fault` | |
#![tactic(auto)]

mod fault;
mod question;
mod request;
mod tag;
mod word;

pub use fault::Fault;
pub use question::Question;
pub use request::{Asked, Request, request_in};
pub use tag::{LONGEST_TAG, Tag};
