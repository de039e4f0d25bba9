//! How a program builds on an office. Two clerks file births at desks, each on a thread of its own, while an inspector
//! freezes the book beside them. Then one more birth is filed, the inspector learns of it and prints its coefficient of
//! inbreeding, and the office is closed.
//!
//! `library_example` comes first: it has one register and one thread. What is new here is who works beside whom. `rt`
//! is lent to all that may wait: to clerks, who wait for the office's lock, and to the end of the office. An inspector
//! isn't given it, so that it waits for nobody.
#![tactic(auto)]

ghost use Rattle.std.specs.Prelude.{◌≡◌, ◌+◌, length, IfOk};
ghost use Rattle.std.specs.List.{sum_by};
ghost use mathlib.Core.List.{IsPrefix};
ghost use Rattle.herd_office.specs.Parts.{AreNamed};

use anyhow::{Context, Result, bail};
use herd_advice::{coefficients_plain, fraction};
use herd_animal::Herd;
use herd_frozen::Frozen;
use herd_office::{Desk, FreezeFault, Inspector, Office, OfficeName, OfficeParts};
use herd_register::{Command, FileFault, Limits};
use std::alloc::{AllocError, Global};
use std::marker::Brand;
use std::sync::Wait;
use std::thread::{Threads, join};

const FOUNDERS: [&str; 2] = ["HOLGBRM000000000001", "HOLGBRF000000000002"];

const SONS: [&str; 2] = ["HOLGBRM000000000003", "HOLGBRM000000000004"];

const DAUGHTERS: [&str; 2] = ["HOLGBRF000000000005", "HOLGBRF000000000006"];

const CALF: &str = "HOLGBRF000000000007";

// How often the inspector freezes the book beside the clerks.
const READINGS: u16 = 100;

// The births that are filed before the calf's.
#[derive(Drop)]
struct Births {
    founders: [Command; 2],
    sons: [Command; 2],
    daughters: [Command; 2],
}

impl Births {
    // The founders are unrelated, and the others are full sibs.
    fn new() -> Result<Births> {
        let parents = Some((FOUNDERS[0], FOUNDERS[1]));
        Ok(Births {
            founders: births_of(FOUNDERS, "2015-03-01", None)?,
            sons: births_of(SONS, "2018-02-20", parents)?,
            daughters: births_of(DAUGHTERS, "2019-06-08", parents)?,
        })
    }
}

fn main(rt: HostRuntime) -> Result<()> {
    // They may be as wide as `MOST_ANIMALS` and `MOST_STEPS`: memory is taken for what is filed alone.
    let limits = Limits {
        animals: 1_000,
        steps: 10_000,
    };
    // The parts of an office with two desks and one inspector.
    let parts = OfficeParts::new(&rt, rt.alloc(), limits, 2, 1)?;
    // An office has a name in its type, so that no desk or inspector is used with another office. Here it is `Brand`,
    // of which the file `proofs/main/Invariants.antt` says that it names these parts.
    keep_office::<Brand, _>(&rt, rt.alloc(), parts)
}

// Opens the office, lets its staff work, and closes it.
fn keep_office<N: OfficeName + Send + Sync, R: Threads + Wait + Print + Sync>(
    rt: &R,
    alloc: Global,
    parts: OfficeParts<&R>,
) -> Result<()>
    // A caller has to show that N is the name of these parts.
    requires { AreNamed N.OfficeName parts }
{
    // Each desk and each inspector is a value of its own, which moves to the thread that works with it.
    let (office, mut desks, mut inspectors) = Office::<N, &R>::open(alloc, parts)?;
    let staff = staff_of(&mut desks, &mut inspectors)?;
    let staff = work(rt, alloc, &office, staff)?;
    // The office is closed with all that it was opened with.
    hand_back(&mut desks, &mut inspectors, staff)?;
    let steps = steps_at_close(rt, office, desks, inspectors)?;
    println!(rt; "the journal has {steps} steps")?;
    Ok(())
}

type Staff<N> = (Desk<N>, Desk<N>, Inspector<N>);

// Two desks and the inspector, each a value of its own.
fn staff_of<N: OfficeName>(
    desks: &mut Vec<Desk<N>>,
    inspectors: &mut Vec<Inspector<N>>,
) -> Result<Staff<N>> {
    let second = desks.pop().context("no second desk")?;
    let first = desks.pop().context("no first desk")?;
    let inspector = inspectors.pop().context("no inspector")?;
    Ok((first, second, inspector))
}

// The two desks and the inspector go back to the others.
fn hand_back<N: OfficeName>(
    desks: &mut Vec<Desk<N>>,
    inspectors: &mut Vec<Inspector<N>>,
    (first, second, inspector): Staff<N>,
) -> Result<(), AllocError> {
    desks.push(first)?;
    desks.push(second)?;
    inspectors.push(inspector)?;
    Ok(())
}

// All that is done while the office is open.
fn work<N: OfficeName + Send + Sync, R: Threads + Wait + Print + Sync>(
    rt: &R,
    alloc: Global,
    office: &Office<N, &R>,
    staff: Staff<N>,
) -> Result<Staff<N>> {
    let births = Births::new()?;
    let mut staff = file_parents(rt, alloc, office, staff, &births)?;
    let (_, desk, inspector) = &mut staff;
    print_calf(rt, alloc, office, desk, inspector)?;
    Ok(staff)
}

// The founders are filed at the first desk, and then their calves.
fn file_parents<N: OfficeName + Send + Sync, R: Threads + Wait + Sync>(
    rt: &R,
    alloc: Global,
    office: &Office<N, &R>,
    (first, second, inspector): Staff<N>,
    births: &Births,
) -> Result<Staff<N>> {
    let first = file_births(rt, office, first, &births.founders)?;
    work_side_by_side(rt, alloc, office, (first, second, inspector), births)
}

// The sons are filed at the first desk and the daughters at the second, in whatever order the threads run.
fn work_side_by_side<N: OfficeName + Send + Sync, R: Threads + Wait + Sync>(
    rt: &R,
    alloc: Global,
    office: &Office<N, &R>,
    (first, second, inspector): Staff<N>,
    births: &Births,
) -> Result<Staff<N>> {
    let sons = &births.sons;
    let daughters = &births.daughters;
    // `join` runs two closures at once, each with what was moved into it, and gives what both return.
    let (filed, inspector) = join(
        rt,
        move || {
            join(
                rt,
                move || file_births(rt, office, first, sons),
                move || file_births(rt, office, second, daughters),
            )
        },
        move || freeze_beside(alloc, inspector),
    );
    gathered(filed, inspector)
}

// All three, unless one of them met a fault.
fn gathered<N: OfficeName>(
    (first, second): (Result<Desk<N>, FileFault>, Result<Desk<N>, FileFault>),
    inspector: Result<Inspector<N>, FreezeFault>,
) -> Result<Staff<N>> {
    Ok((first?, second?, inspector?))
}

// Files births one after the other, and gives the desk back, which has counted each call that was answered. `file`
// waits for the lock, files the command, and shows its step to the inspectors. Any thread may call it.
fn file_births<N: OfficeName, R: Wait>(
    rt: &R,
    office: &Office<N, &R>,
    mut desk: Desk<N>,
    births: &[Command],
) -> Result<Desk<N>, FileFault>
    ensures { IfOk result (λ after. after.answered ≡ desk.answered + length births.now) }
{
    for birth in births {
        desk.file(rt, office, *birth)?;
    }
    Ok(desk)
}

// Freezes the book again and again. How many animals a reading has depends on the clerks, but none has fewer than the
// one before: `freeze` promises that the inspector's history only gets longer.
fn freeze_beside<N: OfficeName>(
    alloc: Global,
    mut inspector: Inspector<N>,
) -> Result<Inspector<N>, FreezeFault>
    ensures { IfOk result (λ after. IsPrefix inspector.history after.history) }
{
    for _reading in 0..READINGS {
        let _frozen = inspector.freeze(alloc)?;
    }
    Ok(inspector)
}

// Files the calf's birth, and prints its coefficient of inbreeding.
fn print_calf<N: OfficeName, R: Wait + Print>(
    rt: &R,
    alloc: Global,
    office: &Office<N, &R>,
    desk: &mut Desk<N>,
    inspector: &mut Inspector<N>,
) -> Result<()> {
    let frozen = file_calf(rt, alloc, office, desk, inspector)?;
    print_coefficient(rt, alloc, &frozen, CALF)
}

// Files the last birth and freezes the book. Who learns the slip of a call has seen all steps up to the one it made.
fn file_calf<N: OfficeName, R: Wait + Print>(
    rt: &R,
    alloc: Global,
    office: &Office<N, &R>,
    desk: &mut Desk<N>,
    inspector: &mut Inspector<N>,
) -> Result<Frozen<Global>> {
    let calf = birth(CALF, "2021-05-03", Some((SONS[0], DAUGHTERS[0])))?;
    let filed = desk.file(rt, office, calf)?;
    inspector.learn(&filed.slip);
    println!(rt; "the inspector has seen {} steps", inspector.steps_seen())?;
    Ok(inspector.freeze(alloc)?)
}

// Coefficients are counted in units of 2^-120. `fraction` gives one in lowest terms, which prints itself.
fn print_coefficient(
    rt: &impl Print,
    alloc: Global,
    frozen: &Frozen<Global>,
    animal: &str,
) -> Result<()> {
    let coefficients = coefficients_plain(alloc, frozen)?;
    let rank = frozen.rank(&animal.parse()?).context("no such animal")?;
    let value = fraction(coefficients.numerator(rank));
    println!(rt; "{animal} {value}")?;
    Ok(())
}

// Closes the office. Its journal has a step for each call that was answered at a desk, and no other.
fn steps_at_close<N: OfficeName, R: Wait>(
    rt: &R,
    office: Office<N, &R>,
    desks: Vec<Desk<N>>,
    inspectors: Vec<Inspector<N>>,
) -> Result<u64>
    ensures { IfOk result (λ steps. steps ≡ sum_by (λ d. d.answered) desks.items) }
{
    match office.close(rt, desks, inspectors) {
        Ok(register) => Ok(register.journal().len() as u64),
        Err(_unclosed) => bail!("the office isn't closed"),
    }
}

type Parents<'a> = Option<(&'a str, &'a str)>;

// Births of two animals with the same parents on one day.
fn births_of(animals: [&str; 2], day: &str, parents: Parents<'_>) -> Result<[Command; 2]> {
    let [one, other] = animals;
    Ok([birth(one, day, parents)?, birth(other, day, parents)?])
}

// The command for a birth in herd 1, of texts that are parsed.
fn birth(animal: &str, day: &str, parents: Parents<'_>) -> Result<Command> {
    let (sire, dam) = match parents {
        Some((sire, dam)) => (Some(sire.parse()?), Some(dam.parse()?)),
        None => (None, None),
    };
    Ok(Command::Birth {
        animal: animal.parse()?,
        day: day.parse()?,
        sire,
        dam,
        herd: Herd::parse(b"1")?,
        embryo: false,
    })
}
