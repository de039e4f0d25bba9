//! Small heaps, and what takes them up until it is given back.

use linked_list_allocator::LocalHeap;
use std::alloc::{AllocError, Global};

/// More than the blocks that a small heap has.
pub const MOST_BLOCKS: u32 = 4_096;

/// A heap of 1,024 small blocks.
pub fn small_heap(alloc: Global) -> Result<LocalHeap, AllocError> {
    LocalHeap::new(alloc, 16_384)
}

/// What takes up a heap by small blocks of 16 bytes.
#[derive(Drop)]
pub struct Crowd<'a> {
    heap: &'a LocalHeap,
    blocks: Vec<Vec<u8, &'a LocalHeap>, Global>,
}

impl<'a> Crowd<'a> {
    /// It takes up nothing yet.
    pub fn of(alloc: Global, heap: &'a LocalHeap) -> Crowd<'a> {
        Crowd {
            heap,
            blocks: Vec::new(alloc),
        }
    }

    /// Takes up all that is left.
    pub fn fill(&mut self) -> Result<(), AllocError> {
        for _ in 0..MOST_BLOCKS {
            match Vec::with_capacity(self.heap, 16) {
                Ok(block) => self.blocks.push(block)?,
                Err(AllocError) => break,
            }
        }
        Ok(())
    }

    /// Gives back the block that was taken last.
    pub fn give_back(&mut self) {
        drop(self.blocks.pop());
    }
}
