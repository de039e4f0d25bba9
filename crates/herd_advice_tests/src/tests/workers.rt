//! Workers that meet at gates, and gates that count.

ghost use Rattle.std.specs.Prelude.{◌≤◌};
ghost use Rattle.herd_pool.specs.declared.limits.TheConstants.{MOST_WORKERS};

use super::gates::{AtAnimals, AtBlocks, Counts, OtherHeld, ThirdFirst};
use herd_book_pool::coefficients;
use herd_fixtures::{Meeting, founders, generations};
use herd_frozen::Frozen;
use herd_pool::Gate;
use std::alloc::{AllocError, Global};
use std::process::Abort;
use std::sync::Wait;
use std::test::Fail;
use std::thread::Threads;

// How many turns a gate waits for a thread that is running.
const LONG: u32 = 1_000_000_000;

// So many workers compute the coefficients of a book, through a gate.
fn compute<R: Threads + Wait + Abort + Sync, G: Gate>(
    rt: &R,
    alloc: Global,
    frozen: &Frozen<Global>,
    workers: u32,
    block: u32,
    gate: &G,
)
    requires workers { (1 ≤ workers) × (workers ≤ MOST_WORKERS) }
    requires block { 1 ≤ block }
{
    let found = coefficients(rt, alloc, frozen, workers, block, gate);
    assert!(rt; found.is_ok());
}

// Three workers enter before any leaves; and of two workers and three blocks, whoever is free takes the third.
#[test]
fn founders_are_shared(rt: HostRuntime) -> Result<(), Fail> {
    let three = founders(rt.alloc(), 3)?;
    let all = AtBlocks(Meeting::of(3, LONG));
    compute(&rt, rt.alloc(), &three, 3, 1, &all);
    assert!(rt; all.0.is_met());
    let third = ThirdFirst(Meeting::of(1, LONG));
    compute(&rt, rt.alloc(), &three, 2, 1, &third);
    assert!(rt; third.0.is_met());
    Ok(())
}

// Whether animals from a rank on are traced at once by two workers. The meeting tells workers that run one after
// another.
fn are_traced_at_once<R: Threads + Wait + Abort + Sync>(
    rt: &R,
    alloc: Global,
    frozen: &Frozen<Global>,
    workers: u32,
    first: u32,
    turns: u32,
) -> bool
    requires { (1 ≤ workers) × (workers ≤ MOST_WORKERS) }
{
    let gate = AtAnimals {
        first,
        meeting: Meeting::of(2, turns),
    };
    compute(rt, alloc, frozen, workers, 1, &gate);
    gate.meeting.is_met()
}

// Whoever enters a block traces its animals, in a level of two blocks of this length.
fn expect_traced_where_entered<R: Threads + Wait + Abort + Sync>(
    rt: &R,
    alloc: Global,
    frozen: &Frozen<Global>,
    level: u8,
    length: u32,
)
    requires { 1 ≤ length }
{
    for block in 0..2 {
        let gate = OtherHeld::of(level, block, length, LONG);
        compute(rt, alloc, frozen, 2, length, &gate);
        assert!(rt; gate.is_met(), "level {level}, block {block}");
    }
}

// Among the founders, and among the full sibs of depth 1 and of depth 4.
#[test]
fn full_sibs_are_shared(rt: HostRuntime) -> Result<(), Fail> {
    let frozen = generations(rt.alloc(), 5)?;
    for first in [0, 2, 8] {
        assert!(rt;
            are_traced_at_once(&rt, rt.alloc(), &frozen, 2, first, LONG),
            "{first}"
        );
    }
    assert!(rt; !are_traced_at_once(&rt, rt.alloc(), &frozen, 1, 0, 1000));
    expect_traced_where_entered(&rt, rt.alloc(), &frozen, 0, 1);
    expect_traced_where_entered(&rt, rt.alloc(), &frozen, 1, 1);
    Ok(())
}

#[test]
fn blocks_of_founders_are_traced_where_they_are_entered(rt: HostRuntime) -> Result<(), Fail> {
    let frozen = founders(rt.alloc(), 6)?;
    expect_traced_where_entered(&rt, rt.alloc(), &frozen, 0, 3);
    Ok(())
}

// Whether each block is entered and each animal traced once, where each level has so many blocks of this length.
fn come_once<R: Threads + Wait + Abort + Sync>(
    rt: &R,
    alloc: Global,
    frozen: &Frozen<Global>,
    blocks: u32,
    blocks_of_level: u32,
    workers: u32,
    block: u32,
) -> Result<bool, AllocError>
    requires workers { (1 ≤ workers) × (workers ≤ MOST_WORKERS) }
    requires block { 1 ≤ block }
{
    let gate = Counts::of(alloc, blocks, blocks_of_level, block, frozen.len())?;
    compute(rt, alloc, frozen, workers, block, &gate);
    Ok(gate.are_once())
}

#[test]
fn each_founder_comes_once(rt: HostRuntime) -> Result<(), Fail> {
    let frozen = founders(rt.alloc(), 1000)?;
    assert!(rt; come_once(&rt, rt.alloc(), &frozen, 143, 143, 16, 7)?);
    Ok(())
}

// The full sibs of each depth are two blocks.
#[test]
fn each_full_sib_comes_once(rt: HostRuntime) -> Result<(), Fail> {
    let frozen = generations(rt.alloc(), 61)?;
    assert!(rt; come_once(&rt, rt.alloc(), &frozen, 122, 2, 2, 1)?);
    Ok(())
}
