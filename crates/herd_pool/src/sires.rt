//! A level whose sires are gone through: each has its relationships with its mates, half of which their calves have for
//! coefficient.
ghost use Rattle.std.specs.Prelude.{◌≡◌};
ghost use Rattle.herd_kinship.specs.CalfLinks.{AreCalvesOf};
ghost use Rattle.herd_pool.specs.Sires.{calves_of, worth_of};

use crate::level::Level;
use crate::limits::CALVES_FOR_A_WORKER;
use crate::work::{ComputedBlock, Work};
use herd_kinship::{CalfCoefficient, Calves, Mates};
use std::alloc::{AllocError, Allocator};

/// The sires of a level.
#[derive_where(Clone, Copy)]
pub struct SireLevel<'a, 'k, F: Allocator, A: Allocator> {
    pub level: Level<'a, F>,
    /// A numerator for each animal, right at all calves of sires of less depth.
    pub known: &'k [u128],
    pub calves: &'k Calves<A>,
}

impl<F: Allocator, A: Allocator> SireLevel<'_, '_, F, A> {
    /// How many of these workers the first blocks of the level, so many, are worth: at most one for each block in which
    /// a sire has calves, and at most one more than their calves divided by `CALVES_FOR_A_WORKER`.
    pub fn worth(&self, blocks: u32, workers: u32) -> u32
        requires { AreCalvesOf self.now.level.lineage.now self.now.calves.now }
        ensures { result
            ≡ worth_of self.now.level.lineage.now self.now.level.depth self.now.level.block blocks workers }
    {
        let mut busy = 0;
        let mut calves = 0;
        for number in 0..blocks {
            let more = self.count_calves(number);
            if more > 0 {
                busy += 1;
            }
            calves += u64::from(more);
        }
        let worth = 1 + calves / u64::from(CALVES_FOR_A_WORKER);
        u64::from(workers.min(busy)).min(worth) as u32
    }

    // How many calves the sires of a block have.
    fn count_calves(&self, number: u32) -> u32
        requires { AreCalvesOf self.now.level.lineage.now self.now.calves.now }
        ensures { result ≡ calves_of self.now.level.lineage.now self.now.level.depth self.now.level.block number }
    {
        let mut calves = 0;
        for sire in self.level.ranks(number) {
            calves += self.calves.count(self.level.lineage, *sire);
        }
        calves
    }
}

impl<F: Allocator + Sync, A: Allocator + Copy + Send + Sync> Work<A> for SireLevel<'_, '_, F, A> {
    ghost use Rattle.herd_lineage.specs.declared.TheConstants.{DEPTH_LIMIT};
    ghost use Rattle.herd_kinship.specs.Mates.{IsReady};
    ghost use Rattle.herd_pool.specs.Sires.{HasCalvesOf, KnowsCalvesBelow};

    type Scratch = Mates<A>;

    /// The calves of a block's sires.
    type Output = Vec<CalfCoefficient, A>;

    ghost knows = { λ sires. KnowsCalvesBelow DEPTH_LIMIT sires.level.lineage.now sires.calves.now sires.known.now
        sires.level.depth };

    ghost is_ready = { λ sires mates. IsReady sires.level.lineage.now mates };

    ghost is_computed = { λ sires block. HasCalvesOf DEPTH_LIMIT sires.level.lineage.now sires.level.depth
        sires.level.block block.number block.output.items };

    fn scratch(&self, alloc: A) -> Result<Mates<A>, AllocError> {
        Mates::with_room(alloc, self.level.lineage)
    }

    fn compute(
        &self,
        alloc: A,
        mates: &mut Mates<A>,
        number: u32,
    ) -> Result<ComputedBlock<Vec<CalfCoefficient, A>>, AllocError> {
        let mut output = Vec::new(alloc);
        for sire in self.level.ranks(number) {
            mates.append_calves(
                self.level.lineage,
                self.calves,
                self.known,
                *sire,
                &mut output,
            )?;
        }
        Ok(ComputedBlock { number, output })
    }
}
