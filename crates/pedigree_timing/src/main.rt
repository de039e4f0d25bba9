//! Fills a pedigree by its own calls, so that the time and the memory that they take are measured from outside. It
//! prints how many animals there are at the end.
#![tactic(auto)]

mod animals;
mod filling;
mod task;

use anyhow::Result;
use task::Task;

fn main(rt: HostRuntime) -> Result<()> {
    let words: Vec<String> = std::env::args(&rt)?.collect(rt.alloc())?;
    let animals = Task::read(words.as_slice())?.done(rt.alloc())?;
    println!(rt; "{animals}")?;
    Ok(())
}
