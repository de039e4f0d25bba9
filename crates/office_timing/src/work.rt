//! What a desk files, how an inspector freezes, and what is told of all in the end.

ghost use Rattle.std.specs.Prelude.{◌≡◌, IfOk};
ghost use Rattle.std.specs.List.{sum_by};

use anyhow::{Result, bail};
use herd_animal::{Day, Herd};
use herd_fixtures::Name::Bull;
use herd_fixtures::{Name, herd_of};
use herd_office::{Desk, FreezeFault, Inspector, Office, OfficeName};
use herd_register::{Command, FileFault, Reply};
use std::alloc::Global;
use std::sync::Wait;
use std::sync::atomic::{AtomicBool, Ordering};

/// How many founders there are, and how many animals a run's book may have.
pub const FOUNDERS: u32 = 1_000_000;

// More than a run freezes.
const MOST_READINGS: u64 = 1_000_000_000;

/// Bulls without parents, all of one day and of one herd.
#[derive(Clone, Copy)]
pub struct Founders {
    day: Day,
    herd: Herd,
}

impl Founders {
    /// Those of 2000-01-01 in herd 1.
    pub fn new() -> Result<Founders> {
        Founders::born(b"2000-01-01")
    }

    fn born(day: &[u8]) -> Result<Founders> {
        Ok(Founders {
            day: Day::parse(day)?,
            herd: herd_of(1),
        })
    }

    /// The birth at this place. After a million they are the same again.
    pub fn birth(&self, place: u64) -> Command {
        Command::Birth {
            animal: founder(place).number(),
            day: self.day,
            sire: None,
            dam: None,
            herd: self.herd,
            embryo: false,
        }
    }

    /// The transfer of the animal whose birth is at this place to herd 2. A second one of the same animal is refused.
    pub fn transfer(&self, place: u64) -> Command {
        Command::Transfer {
            animal: founder(place).number(),
            day: self.day,
            giver: self.herd,
            taker: herd_of(2),
        }
    }
}

fn founder(place: u64) -> Name {
    Bull((place % u64::from(FOUNDERS)) as u32)
}

/// How many commands were accepted, and how many steps the journal of the closed office has.
#[derive(Clone, Copy, Debug, PartialEq, Eq)]
pub struct Told {
    pub accepted: u64,
    pub steps: u64,
}

/// Files the births from one place to before another. The desk, and how many were accepted.
pub fn file_births<N: OfficeName, R: Wait>(
    rt: &R,
    office: &Office<N, &R>,
    mut desk: Desk<N>,
    founders: Founders,
    (from, to): (u64, u64),
) -> Result<(Desk<N>, u64), FileFault> {
    let mut accepted = 0_u64;
    for place in from..to {
        let filed = desk.file(rt, office, founders.birth(place))?;
        if filed.reply == Reply::Accepted {
            accepted = accepted.saturating_add(1);
        }
    }
    Ok((desk, accepted))
}

/// Freezes until the desks are done, or a thousand million times. The inspector, and how many books it froze.
pub fn freeze_until<N: OfficeName>(
    alloc: Global,
    mut inspector: Inspector<N>,
    done: &AtomicBool,
) -> Result<(Inspector<N>, u64), FreezeFault> {
    let mut books = 0_u64;
    for _reading in 0..MOST_READINGS {
        if done.load(Ordering::SeqCst) {
            break;
        }
        let _frozen = inspector.freeze(alloc)?;
        books = books.saturating_add(1);
    }
    Ok((inspector, books))
}

/// Closes an office, and tells of so many commands, where each was answered once.
pub fn told_at_close<N: OfficeName, R: Wait>(
    rt: &R,
    office: Office<N, &R>,
    desks: Vec<Desk<N>>,
    inspectors: Vec<Inspector<N>>,
    commands: u64,
    accepted: u64,
) -> Result<Told>
    ensures steps { IfOk result (λ told. told.steps ≡ commands) }
    ensures answered { IfOk result (λ told. told.steps ≡ sum_by (λ d. d.answered) desks.items) }
    ensures accepted { IfOk result (λ told. told.accepted ≡ accepted) }
{
    match office.close(rt, desks, inspectors) {
        Ok(register) => {
            let steps = register.journal().len() as u64;
            if steps != commands {
                bail!("commands that weren't answered once each");
            }
            Ok(Told { accepted, steps })
        }
        Err(_unclosed) => bail!("the office isn't closed"),
    }
}
