use herd_animal::AnimalNumber;
use herd_record_line::Record;
use std::alloc::Allocator;

/// What a certificate claims: how many steps the sealed book's journal has, how many animals the book has, and which
/// number stands at which place.
#[derive(Clone, Copy, Debug, PartialEq, Eq)]
pub struct Claim {
    pub steps: u64,
    pub animals: u32,
    pub place: u32,
    pub number: AnimalNumber,
}

/// A row that is shown: its place in the book, the places of its known parents, and its record.
#[derive(Clone, Copy, Debug, PartialEq, Eq)]
pub struct CertifiedRow {
    pub place: u32,
    pub sire: Option<u32>,
    pub dam: Option<u32>,
    pub record: Record,
}

/// A certificate as its text has it: the seal, what is claimed, the coefficient as a fraction and as a percentage, the
/// rows that are shown, and the digests of the largest subtrees without one of them, in the tree's order.
#[derive(Drop)]
pub struct Certificate<'a, A: Allocator> {
    pub seal: [u8; 32],
    pub claim: Claim,
    pub coefficient: &'a [u8],
    pub rows: Vec<CertifiedRow, A>,
    pub digests: Vec<[u8; 32], A>,
}
