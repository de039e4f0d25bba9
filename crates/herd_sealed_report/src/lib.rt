//! The seal of a book and certificates under it, of animals that are named by their numbers: apart from other reports,
//! which wait for no seal.
//!
//! | | definition (`specs/`) | code (`src/`) | proof (`proofs/`) |
//! |---|---|---|---|
//! | the book's seal | that of `herd_certificate` | | |
//! | a certificate under it | `SealedCertificate` | `sealed_certificate` | `SealedFacts` |
#![tactic(auto)]

mod sealed_certificate;

pub use herd_certificate::write_seal;
pub use sealed_certificate::write_sealed;
