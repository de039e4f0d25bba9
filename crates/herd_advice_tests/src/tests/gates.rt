//! Gates that hold a thread until another has come, and gates that count.
use herd_fixtures::Meeting;
use herd_lineage::Lineage;
use herd_pool::Gate;
use std::alloc::{AllocError, Allocator, Global};
use std::sync::atomic::{AtomicU64, Ordering};

/// A meeting where blocks begin.
#[derive(Drop)]
pub struct AtBlocks(pub Meeting);

impl Gate for AtBlocks {
    fn enter(&self, _level: u8, _block: u32) {
        self.0.arrive();
        self.0.wait();
    }
}

/// A meeting where animals from a rank on are traced.
#[derive(Drop)]
pub struct AtAnimals {
    pub first: u32,
    pub meeting: Meeting,
}

impl Gate for AtAnimals {
    fn trace<F: Allocator, A: Allocator + Clone>(
        &self,
        alloc: A,
        lineage: &Lineage<F>,
        known: &[u128],
        rank: u32,
    ) -> Result<u128, AllocError> {
        if rank >= self.first {
            self.meeting.arrive();
            self.meeting.wait();
        }
        herd_kinship::trace(alloc, lineage, known, rank)
    }
}

/// A meeting for which the animal at rank 0 waits, until the one at rank 2 has come.
#[derive(Drop)]
pub struct ThirdFirst(pub Meeting);

impl Gate for ThirdFirst {
    fn trace<F: Allocator, A: Allocator + Clone>(
        &self,
        alloc: A,
        lineage: &Lineage<F>,
        known: &[u128],
        rank: u32,
    ) -> Result<u128, AllocError> {
        match rank {
            0 => self.0.wait(),
            2 => self.0.arrive(),
            _ => {}
        }
        herd_kinship::trace(alloc, lineage, known, rank)
    }
}

/// Holds whoever enters the other block of a level until the animals of one block were traced. Both must have been
/// entered before, so where two workers share the level, only the thread that entered the one can trace its animals.
#[derive(Drop)]
pub struct OtherHeld {
    level: u8,
    block: u32,
    first: u32,
    end: u32,
    entered: Meeting,
    traced: Meeting,
}

impl OtherHeld {
    /// For a book whose levels follow one another by rank, each of two blocks of this length.
    pub(crate) fn of(level: u8, block: u32, length: u32, turns: u32) -> OtherHeld {
        let blocks_before = 2u32.wrapping_mul(u32::from(level)).wrapping_add(block);
        let first = blocks_before.wrapping_mul(length);
        OtherHeld {
            level,
            block,
            first,
            end: first.wrapping_add(length),
            entered: Meeting::of(2, turns),
            traced: Meeting::of(u64::from(length), turns),
        }
    }

    /// Both blocks were entered and all animals of the one traced, and nobody has waited in vain.
    pub(crate) fn is_met(&self) -> bool {
        self.entered.is_met() && self.traced.is_met()
    }
}

impl Gate for OtherHeld {
    fn enter(&self, level: u8, block: u32) {
        if level == self.level {
            self.entered.arrive();
            self.entered.wait();
            if block != self.block {
                self.traced.wait();
            }
        }
    }

    fn trace<F: Allocator, A: Allocator + Clone>(
        &self,
        alloc: A,
        lineage: &Lineage<F>,
        known: &[u128],
        rank: u32,
    ) -> Result<u128, AllocError> {
        let value = herd_kinship::trace(alloc, lineage, known, rank)?;
        if self.first <= rank && rank < self.end {
            self.traced.arrive();
        }
        Ok(value)
    }
}

/// Counts how often each block begins and each animal is traced.
///
/// It serves for books whose levels follow one another by rank and have as many blocks each, all of them full but the
/// last of a book of one level.
#[derive(Drop)]
pub struct Counts {
    blocks_of_level: u32,
    block: u32,
    entered: Vec<AtomicU64>,
    traced: Vec<AtomicU64>,
    /// Blocks beyond those of their level, animals beyond these, and animals of blocks that hadn't begun.
    others: AtomicU64,
}

impl Counts {
    pub(crate) fn of(
        alloc: Global,
        blocks: u32,
        blocks_of_level: u32,
        block: u32,
        animals: u32,
    ) -> Result<Counts, AllocError> {
        Ok(Counts {
            blocks_of_level,
            block,
            entered: zeros(alloc, blocks)?,
            traced: zeros(alloc, animals)?,
            others: AtomicU64::new(0),
        })
    }

    /// Each block and each animal has come once, each animal after its block, and no other.
    pub(crate) fn are_once(&self) -> bool {
        are_ones(&self.entered) && are_ones(&self.traced) && self.others.load(Ordering::SeqCst) == 0
    }

    fn count(&self, counts: &[AtomicU64], at: u32) {
        match counts.get(at as usize) {
            Some(count) => count.fetch_add(1, Ordering::SeqCst),
            None => self.others.fetch_add(1, Ordering::SeqCst),
        };
    }

    fn has_begun(&self, rank: u32) -> bool {
        match self.entered.get((rank / self.block.max(1)) as usize) {
            Some(count) => count.load(Ordering::SeqCst) == 1,
            None => false,
        }
    }
}

impl Gate for Counts {
    fn enter(&self, level: u8, block: u32) {
        if block >= self.blocks_of_level {
            self.others.fetch_add(1, Ordering::SeqCst);
            return;
        }
        let before = self.blocks_of_level.wrapping_mul(u32::from(level));
        self.count(&self.entered, before.wrapping_add(block));
    }

    fn trace<F: Allocator, A: Allocator + Clone>(
        &self,
        alloc: A,
        lineage: &Lineage<F>,
        known: &[u128],
        rank: u32,
    ) -> Result<u128, AllocError> {
        if !self.has_begun(rank) {
            self.others.fetch_add(1, Ordering::SeqCst);
        }
        self.count(&self.traced, rank);
        herd_kinship::trace(alloc, lineage, known, rank)
    }
}

fn zeros(alloc: Global, count: u32) -> Result<Vec<AtomicU64>, AllocError> {
    let mut counts = Vec::new(alloc);
    for _ in 0..count {
        counts.push(AtomicU64::new(0))?;
    }
    Ok(counts)
}

fn are_ones(counts: &[AtomicU64]) -> bool {
    counts.iter().all(|count| count.load(Ordering::SeqCst) == 1)
}
