//! An index of rows by number: each rank stands in the bucket of its number's hash.
ghost use Rattle.std.specs.Prelude.{◌≡◌, ◌<◌, ◌≤◌, ℕ, Some, IfNone, IfOk, IfSome, length, slice_get};
ghost use Rattle.herd_animal.specs.Pieces.{piece};
ghost use Rattle.herd_frozen.specs.freezing.Frozen.{numbers_of};
ghost use Rattle.herd_frozen.specs.freezing.NumberIndex.{IsIndexOf, bucket_of, hash_of, mixed};
ghost use Rattle.herd_frozen.specs.declared.TheConstants.{MOST_ANIMALS};

use crate::freezing::rows::Rows;
use herd_animal::AnimalNumber;
use std::alloc::{AllocError, Allocator};

// By which a hash is multiplied: the odd number next to 2^64 divided by the golden ratio.
const MULTIPLIER: u64 = 0x9e37_79b9_7f4a_7c15;

/// The ranks of rows by the buckets of their numbers, which are followed from the last rank to the first.
#[derive(Drop)]
pub struct NumberIndex<A: Allocator> {
    // One more than the last rank of each bucket, 0 where it has none.
    pub(crate) lasts: Vec<u32, A>,
    // By rank one more than the rank before it in its bucket, 0 where there is none.
    pub(crate) earlier: Vec<u32, A>,
}

impl<A: Allocator + Clone> NumberIndex<A> {
    /// The index of the rows. There is a bucket for each row, and one more.
    pub fn of<B: Allocator>(alloc: A, rows: &Rows<B>) -> Result<NumberIndex<A>, AllocError>
        requires { length rows.now ≤ MOST_ANIMALS }
        ensures { IfOk result (IsIndexOf rows.now) }
    {
        let mut lasts = vec![in alloc.clone()?; 0u32; rows.len() + 1]?;
        let mut earlier = Vec::with_capacity(alloc, rows.len())?;
        for rank in 0..rows.len() as u32 {
            let bucket = bucket_of(rows.number(rank), lasts.len());
            earlier.push_reserved(lasts[bucket]);
            lasts[bucket] = rank + 1;
        }
        Ok(NumberIndex { lasts, earlier })
    }
}

impl<A: Allocator> NumberIndex<A> {
    /// The rank of a number among the rows that were indexed.
    pub fn rank<B: Allocator>(&self, rows: &Rows<B>, number: &AnimalNumber) -> Option<u32>
        requires few { length rows.now ≤ MOST_ANIMALS }
        requires index { IsIndexOf rows.now self.now }
        ensures found { IfSome result (λ rank. slice_get (numbers_of rows.now) rank ≡ Some number.now) }
        ensures absent { IfNone result ((rank : ℕ) → slice_get (numbers_of rows.now) rank ≡ Some number.now → ⊥) }
    {
        let mut after = self.lasts[bucket_of(number, self.lasts.len())];
        while after > 0 {
            let rank = after - 1;
            if *rows.number(rank) == *number {
                return Some(rank);
            }
            after = self.earlier[rank as usize];
        }
        None
    }
}

// The bucket of a number: as far among the buckets as its hash is among all hashes, which takes no division.
fn bucket_of(number: &AnimalNumber, buckets: usize) -> usize
    requires { 0 < buckets }
    ensures bucket { result ≡ bucket_of buckets number.now }
    ensures within { result < buckets }
{
    let hash = u128::from(hash_of(number));
    (hash * buckets as u128 / (1 << 64)) as usize
}

// The hash of a number: its first eight characters, the next eight and the last eight, mixed one after the other.
// Eight characters are read at once, which takes a fraction of what a hasher of bytes does.
fn hash_of(number: &AnimalNumber) -> u64
    ensures { result ≡ hash_of number.now }
{
    let text = number.bytes();
    let first = mixed(0, piece(&text, 0));
    let both = mixed(first, piece(&text, 8));
    mixed(both, piece(&text, 11))
}

// A hash with one more piece.
fn mixed(hash: u64, piece: u64) -> u64
    ensures { result ≡ mixed hash piece }
{
    hash.wrapping_add(piece).wrapping_mul(MULTIPLIER)
}

// Eight characters from a place on, as one number.
fn piece(text: &[u8; 19], place: usize) -> u64
    requires { place ≤ 11 }
    ensures { result ≡ piece place text.now }
{
    let mut eight = [0; 8];
    eight.copy_from_slice(&text[place..place + 8]);
    u64::from_le_bytes(eight)
}
