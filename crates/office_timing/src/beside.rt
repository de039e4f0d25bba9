//! Births at one desk, and then transfers, each of them timed, while an inspector freezes or not.

ghost use Rattle.std.specs.Prelude.{◌≡◌, ◌+◌, IfOk, max};
ghost use Rattle.herd_office.specs.Parts.{AreNamed};

use crate::task::Paced;
use crate::work::{Founders, Told, file_births, freeze_until, told_at_close};
use anyhow::{Context, Result};
use herd_office::{Desk, Inspector, Office, OfficeName, OfficeParts};
use herd_register::{FileFault, Reply};
use std::alloc::Global;
use std::rt::Clock;
use std::sync::Wait;
use std::sync::atomic::{AtomicBool, Ordering};
use std::thread::{Threads, join, sleep};
use std::time::{Duration, Instant};

// How long a desk pauses before each transfer, in microseconds; with what the system takes to wake it, some sixty.
const PAUSE: u64 = 10;

/// What the transfers took, in nanoseconds, and how many books were frozen meanwhile.
#[derive(Clone, Copy, Debug, PartialEq, Eq)]
pub struct Times {
    pub longest: u128,
    pub total: u128,
    pub books: u64,
}

/// Births by the calling thread, and then transfers while an inspector freezes, or none. Each was answered.
pub fn file_beside<N: OfficeName + Send + Sync, R: Threads + Wait + Clock + Sync>(
    rt: &R,
    alloc: Global,
    parts: OfficeParts<&R>,
    paced: Paced,
) -> Result<(Told, Times)>
    requires { AreNamed N.OfficeName parts }
    ensures { IfOk result (λ r. r.0.steps ≡ paced.births + paced.transfers) }
{
    let (office, mut desks, mut inspectors) = Office::<N, &R>::open(alloc, parts)?;
    let staff = (&mut desks, &mut inspectors);
    let (accepted, times) = use_staff(rt, alloc, &office, staff, paced)?;
    let commands = u64::from(paced.births) + u64::from(paced.transfers);
    let told = told_at_close(rt, office, desks, inspectors, commands, accepted)?;
    Ok((told, times))
}

// Has a desk and an inspector work, and puts them back. How many commands were accepted, and what the transfers took.
fn use_staff<N: OfficeName + Send + Sync, R: Threads + Wait + Clock + Sync>(
    rt: &R,
    alloc: Global,
    office: &Office<N, &R>,
    (desks, inspectors): (&mut Vec<Desk<N>>, &mut Vec<Inspector<N>>),
    paced: Paced,
) -> Result<(u64, Times)> {
    let desk = desks.pop().context("no desk")?;
    let inspector = inspectors.pop().context("no inspector")?;
    let (desk, inspector, accepted, times) = work_beside(
        rt, alloc, office, desk, inspector, paced,
    )?;
    desks.push(desk)?;
    inspectors.push(inspector)?;
    Ok((accepted, times))
}

// Files the births, and then the transfers while the inspector freezes, if it is to. Both, how many commands were
// accepted, and what the transfers took.
fn work_beside<N: OfficeName + Send + Sync, R: Threads + Wait + Clock + Sync>(
    rt: &R,
    alloc: Global,
    office: &Office<N, &R>,
    desk: Desk<N>,
    inspector: Inspector<N>,
    paced: Paced,
) -> Result<(Desk<N>, Inspector<N>, u64, Times)> {
    let founders = Founders::new()?;
    let done = &AtomicBool::new(!paced.freezing);
    let (desk, early) = file_births(rt, office, desk, founders, (0, u64::from(paced.births)))?;
    let transfers = u64::from(paced.transfers);
    // Made anew: the prover takes the others as given away by the call.
    let founders = Founders::new()?;
    // Where no thread can be made, the second closure runs before the first.
    let (frozen, filed) = join(
        rt,
        move || freeze_until(alloc, inspector, done),
        move || {
            let filed = file_timed(rt, office, desk, founders, transfers);
            done.store(true, Ordering::SeqCst);
            filed
        },
    );
    let (desk, late, mut times) = filed?;
    let (inspector, books) = frozen?;
    times.books = books;
    Ok((desk, inspector, early.saturating_add(late), times))
}

// Files so many transfers, with a pause before each, and times each call. The desk, how many were accepted, and what
// the calls took.
fn file_timed<N: OfficeName, R: Wait + Clock>(
    rt: &R,
    office: &Office<N, &R>,
    mut desk: Desk<N>,
    founders: Founders,
    transfers: u64,
) -> Result<(Desk<N>, u64, Times), FileFault> {
    let mut accepted = 0_u64;
    let mut times = Times {
        longest: 0,
        total: 0,
        books: 0,
    };
    for place in 0..transfers {
        sleep(rt, Duration::from_micros(PAUSE));
        let transfer = founders.transfer(place);
        let start = Instant::now(rt);
        let filed = desk.file(rt, office, transfer)?;
        times.count(nanoseconds_since(rt, start));
        if filed.reply == Reply::Accepted {
            accepted = accepted.saturating_add(1);
        }
    }
    Ok((desk, accepted, times))
}

// A call that the clock doesn't tell of counts as none.
fn nanoseconds_since(rt: &impl Clock, start: std::io::Result<Instant>) -> u128 {
    match start.and_then(|start| start.elapsed(rt)) {
        Ok(time) => time.as_nanos(),
        Err(_) => 0,
    }
}

impl Times {
    // Counts a call.
    fn count(&mut self, time: u128)
        ensures longest { self.new.longest ≡ max self.old.longest time }
    {
        self.longest = self.longest.max(time);
        self.total = self.total.saturating_add(time);
    }
}
