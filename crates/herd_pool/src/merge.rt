//! The blocks of a level, written into the list of all numerators.
ghost use Rattle.std.specs.Prelude.{◌≡◌, ℕ, ◌<◌, All, length, map};
ghost use Rattle.herd_lineage.specs.Lineage.{level_of};
ghost use Rattle.herd_lineage.specs.declared.TheConstants.{DEPTH_LIMIT};
ghost use Rattle.herd_kinship.specs.CalfCoefficients.{AreWritten, HaveValues, Keeps};
ghost use Rattle.herd_kinship.specs.Coefficients.{coefficient_at};
ghost use Rattle.herd_pool.specs.Levels.{AreTraced, block_of, HasAt};

use crate::level::Level;
use crate::work::ComputedBlock;
use herd_kinship::{CalfCoefficient, write_calves};
use std::alloc::Allocator;

/// Writes the numerators of these blocks of a level.
pub fn write_traced<F: Allocator, A: Allocator>(
    known: &mut [u128],
    level: Level<'_, F>,
    blocks: &[ComputedBlock<Vec<u128, A>>],
)
    requires known { length known.old ≡ length level.lineage.now }
    requires traced { All
        (λ block. AreTraced DEPTH_LIMIT level.lineage.now level.depth level.block block.number block.output.items)
        blocks.now }
    ensures kept { Keeps (coefficient_at DEPTH_LIMIT level.entry.lineage.now) known.old known.new }
    ensures written { All (λ block. HasAt (coefficient_at DEPTH_LIMIT level.entry.lineage.now) known.new
        (block_of level.entry.block block.number (level_of level.entry.depth level.entry.lineage.now))) blocks.now }
{
    for block in blocks {
        write_block(known, level.ranks(block.number), &block.output);
    }
}

// Writes the numerators of these ranks.
fn write_block(known: &mut [u128], ranks: &[u32], numerators: &[u128])
    requires { All (λ rank. rank < length known.old) ranks.now }
    ensures { (f : ℕ → ℕ) → numerators.now ≡ map f ranks.now → Keeps f known.old known.new
        × HasAt f known.new ranks.now }
{
    for (rank, numerator) in ranks.iter().zip(numerators) {
        known[*rank as usize] = *numerator;
    }
}

/// Writes the numerators of the calves of these blocks.
pub fn write_calves_of<A: Allocator>(
    known: &mut [u128],
    blocks: &[ComputedBlock<Vec<CalfCoefficient, A>>],
)
    requires { All (λ block. All (λ calf. calf.rank < length known.old) block.output.items) blocks.now }
    ensures { (f : ℕ → ℕ) → All (λ block. HaveValues f block.output.items) blocks.now → Keeps f known.old known.new
        × All (λ block. AreWritten f known.new block.output.items) blocks.now }
{
    for block in blocks {
        write_calves(&block.output, known);
    }
}
