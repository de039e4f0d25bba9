//! What the words of the command line ask for.

ghost use Rattle.std.specs.Prelude.{◌≤◌, IfOk};
ghost use Rattle.herd_office.specs.declared.limits.TheConstants.{MOST_DESKS, MOST_INSPECTORS};

use anyhow::{Context, Result, bail};
use herd_office::MOST_DESKS;

/// The most inspectors that freeze beside births at many desks.
pub const MOST_FREEZING: u16 = 15;

/// What is done.
#[derive(Clone, Copy, Debug, PartialEq, Eq)]
pub enum Task {
    /// Births at many desks.
    Births(Crowd),
    /// Births at one desk, and then transfers that are timed.
    Beside(Paced),
}

/// Births at so many desks, while so many inspectors freeze.
#[derive(Clone, Copy, Debug, PartialEq, Eq)]
pub struct Crowd {
    pub births: u32,
    pub desks: u16,
    pub inspectors: u16,
    pub ghost some: { 1 ≤ desks },
    pub ghost most: { desks ≤ MOST_DESKS },
    pub ghost freezing: { inspectors ≤ MOST_INSPECTORS },
}

/// So many births, and then transfers with a pause before each, while an inspector freezes or none does.
#[derive(Clone, Copy, Debug, PartialEq, Eq)]
pub struct Paced {
    pub births: u32,
    pub transfers: u32,
    pub freezing: bool,
}

impl Task {
    /// Reads the words, the program's own name first.
    pub fn read(words: &[String]) -> Result<Task> {
        let task = words.get(1).context("births or beside?")?;
        match task.as_str() {
            "births" => Ok(Task::Births(Crowd {
                births: number(words, 2)?,
                desks: within(words, 3, 1, MOST_DESKS)?,
                inspectors: within(words, 4, 0, MOST_FREEZING)?,
            })),
            "beside" => Ok(Task::Beside(Paced {
                births: number(words, 2)?,
                transfers: number(words, 3)?,
                freezing: within(words, 4, 0, 1)? == 1,
            })),
            _ => bail!("births or beside?"),
        }
    }
}

fn within(words: &[String], place: usize, least: u16, most: u16) -> Result<u16>
    ensures { IfOk result (λ number. (least ≤ number) × (number ≤ most)) }
{
    let number = number(words, place)?;
    if number < u32::from(least) || u32::from(most) < number {
        bail!(
            "1 to {MOST_DESKS} desks, 0 to {MOST_FREEZING} inspectors, and 0 or 1 beside timed transfers"
        )
    }
    Ok(number as u16)
}

fn number(words: &[String], place: usize) -> Result<u32> {
    let word = words.get(place).context("how many?")?;
    Ok(word.as_str().parse::<u32>()?)
}
