//! Files births and transfers into an office from threads, so that the time and the memory that it takes are measured
//! from outside. It prints how many were accepted, and how many steps there are at the end.
#![tactic(auto)]

mod beside;
mod crowd;
mod task;
mod work;

use anyhow::Result;
use beside::{Times, file_beside};
use crowd::file_crowded;
use herd_office::OfficeParts;
use herd_register::Limits;
use std::alloc::Global;
use std::marker::Brand;
use std::rt::Clock;
use std::sync::Wait;
use std::thread::Threads;
use task::{Crowd, Paced, Task};
use work::{FOUNDERS, Told};

const LIMITS: Limits = Limits {
    animals: FOUNDERS,
    steps: 10_000_000,
};

fn main(rt: HostRuntime) -> Result<()> {
    let words: Vec<String> = std::env::args(&rt)?.collect(rt.alloc())?;
    let told = match Task::read(words.as_slice())? {
        Task::Births(crowd) => crowded(&rt, rt.alloc(), crowd)?,
        Task::Beside(paced) => {
            let (told, times) = timed(&rt, rt.alloc(), paced)?;
            eprintln!(rt;
                "{} ns longest, {} ns in all, {} books frozen",
                times.longest, times.total, times.books
            )?;
            told
        }
    };
    println!(rt; "{} accepted, {} steps", told.accepted, told.steps)?;
    Ok(())
}

// Births at many desks, while inspectors freeze.
fn crowded<R: Threads + Wait + Sync>(rt: &R, alloc: Global, crowd: Crowd) -> Result<Told> {
    let inspectors = crowd.inspectors.max(1);
    let parts = OfficeParts::new(rt, alloc, LIMITS, crowd.desks, inspectors)?;
    file_crowded::<Brand, _>(rt, alloc, parts, crowd.births, crowd.inspectors > 0)
}

// Births at one desk, and then timed transfers.
fn timed<R: Threads + Wait + Clock + Sync>(
    rt: &R,
    alloc: Global,
    paced: Paced,
) -> Result<(Told, Times)> {
    let parts = OfficeParts::new(rt, alloc, LIMITS, 1, 1)?;
    file_beside::<Brand, _>(rt, alloc, parts, paced)
}
