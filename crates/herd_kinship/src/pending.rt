ghost use Rattle.std.specs.Prelude.{◌≡◌, ℕ, ◌+◌, ◌*◌, ◌/◌, ◌^◌, ◌<◌, ◌≤◌, length, IfOk, IfSome, IfNone};
ghost use Rattle.herd_kinship.specs.Pending.{IsCleared, mark, Marks};

use std::alloc::{AllocError, Allocator};

/// The distances at which ancestors are pending, as bits: the nearest is the lowest bit.
#[derive(Drop)]
pub struct Pending<A: Allocator> {
    pub chunks: Vec<u64, A>,
    /// No chunk before it has a bit set.
    pub first: usize,
    /// Neither has this one, nor any behind it.
    end: usize,
    ghost few_chunks: { length chunks.items ≤ 2 ^ 32 },
    ghost end_within: { end ≤ length chunks.items },
    ghost none_before: { (distance : ℕ) → distance < 64 * first → mark chunks.items distance ≡ 0 },
    ghost none_behind: { (distance : ℕ) → 64 * end ≤ distance → mark chunks.items distance ≡ 0 },
}

impl<A: Allocator> Pending<A> {
    /// The empty set, with room for the distances below a number.
    pub fn with_room(alloc: A, distances: u32) -> Result<Pending<A>, AllocError>
        ensures room { IfOk result (λ pending. distances ≤ 64 * length pending.chunks.items) }
        ensures empty { IfOk result (λ pending. (distance : ℕ) → mark pending.chunks.items distance ≡ 0) }
    {
        let chunks = vec![in alloc; 0u64; distances.div_ceil(64) as usize]?;
        let first = chunks.len();
        Ok(Pending {
            chunks,
            first,
            end: 0,
        })
    }

    /// Puts a distance in.
    pub fn insert(&mut self, distance: usize)
        requires { distance < 64 * length self.old.chunks.items }
        ensures { Marks self.old.chunks.items self.new.chunks.items distance 1 }
    {
        self.first = self.first.min(distance / 64);
        self.insert_ahead(distance);
    }

    /// Puts a distance in, which isn't before the first chunk.
    pub fn insert_ahead(&mut self, distance: usize)
        requires room { distance < 64 * length self.old.chunks.items }
        requires ahead { 64 * self.old.first ≤ distance }
        ensures first { self.new.first ≡ self.old.first }
        ensures put { Marks self.old.chunks.items self.new.chunks.items distance 1 }
    {
        let chunk = distance / 64;
        if self.end <= chunk {
            self.end = chunk + 1;
        }
        self.chunks[chunk] |= 1 << (distance % 64);
    }

    /// Takes the nearest distance out. No chunk behind the farthest one's is looked at.
    #[inline(always)]
    pub fn take_nearest(&mut self) -> Option<usize>
        ensures found { IfSome result (λ distance. mark self.old.chunks.items distance ≡ 1) }
        ensures nearest { IfSome result
            (λ distance. (nearer : ℕ) → nearer < distance → mark self.old.chunks.items nearer ≡ 0) }
        ensures taken { IfSome result (λ distance. Marks self.old.chunks.items self.new.chunks.items distance 0) }
        ensures behind { IfSome result (λ distance. 64 * self.new.first ≤ distance) }
        ensures empty { IfNone result ((distance : ℕ) → mark self.old.chunks.items distance ≡ 0) }
        ensures same { IfNone result (self.new.chunks.items ≡ self.old.chunks.items) }
    {
        while self.first < self.end {
            let chunk = self.chunks[self.first];
            if chunk > 0 {
                let (lowest, rest) = without_lowest(chunk);
                self.chunks[self.first] = rest;
                return Some(64 * self.first + lowest as usize);
            }
            self.first += 1;
        }
        self.first = self.chunks.len();
        self.end = 0;
        None
    }
}

// The place of a chunk's lowest bit, and the chunk without it.
fn without_lowest(chunk: u64) -> (u32, u64)
    requires { 0 < chunk }
    ensures { IsCleared chunk result.1 result.0 }
{
    (chunk.trailing_zeros(), chunk & (chunk - 1))
}
