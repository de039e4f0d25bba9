//! Animals that a book has found.

use herd_animal::AnimalNumber;

/// An animal that a pedigree has found: its number, with its place in the order of registration, which counts from 0.
///
/// It stays good until a birth is taken back: an animal of a book keeps its place.
#[derive(Clone, Copy, Debug, PartialEq, Eq)]
pub struct Found {
    pub number: AnimalNumber,
    pub place: u32,
}
