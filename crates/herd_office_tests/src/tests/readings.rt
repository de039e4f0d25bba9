//! What inspectors see of an office, and of one that is gone.
ghost use Rattle.herd_office.specs.Parts.{AreNamed};

use super::commands::{LIMITS, founder};
use herd_fixtures::Name::Bull;
use herd_office::*;
use herd_register::Command;
use std::alloc::{Allocator, Global};
use std::marker::Brand;
use std::process::Abort;
use std::sync::Wait;
use std::test::*;
use std::thread::{Threads, join};

/// How many animals the book has that an inspector freezes.
pub(super) fn frozen_length<N: OfficeName, A: Allocator + Copy>(
    inspector: &mut Inspector<N>,
    alloc: A,
) -> Result<u32, FreezeFault> {
    inspector.freeze(alloc).map(|frozen| frozen.len())
}

#[test]
fn an_inspector_sees_what_it_was_not_told(rt: HostRuntime) -> Result<(), Fail> {
    let parts = OfficeParts::new(&rt, rt.alloc(), LIMITS, 1, 1)?;
    see_and_outlive::<Brand, _>(&rt, rt.alloc(), parts)
}

fn see_and_outlive<N: OfficeName + Send + Sync, R: Threads + Wait + Abort + Sync>(
    rt: &R,
    alloc: Global,
    parts: OfficeParts<&R>,
) -> Result<(), Fail>
    requires { AreNamed N.OfficeName parts }
{
    let mut inspector = last_inspector::<N, _>(rt, alloc, parts)?;
    expect_seen(rt, alloc, &mut inspector, Err(FreezeFault::NoReading));
    Ok(())
}

// The inspector of an office that is gone. It saw the two steps of the one desk.
fn last_inspector<N: OfficeName + Send + Sync, R: Threads + Wait + Abort + Sync>(
    rt: &R,
    alloc: Global,
    parts: OfficeParts<&R>,
) -> Result<Inspector<N>, OpenFault>
    requires { AreNamed N.OfficeName parts }
{
    let (office, mut desks, mut inspectors) = Office::<N, &R>::open(alloc, parts)?;
    let desk = desks.pop().expect(rt, "a desk");
    let mut inspector = inspectors.pop().expect(rt, "an inspector");
    file_twice(rt, &office, desk);
    expect_seen(rt, alloc, &mut inspector, Ok(1));
    Ok(inspector)
}

// A thread that is joined files a birth twice, of which the second is refused.
fn file_twice<N: OfficeName + Send + Sync, R: Threads + Wait + Abort + Sync>(
    rt: &R,
    office: &Office<N, &R>,
    desk: Desk<N>,
) {
    let birth = &founder(rt, Bull(1));
    let (is_filed, ()) = join(rt, move || files_twice(rt, office, desk, birth), || ());
    assert!(rt; is_filed);
}

fn files_twice<N: OfficeName, R: Wait>(
    rt: &R,
    office: &Office<N, &R>,
    mut desk: Desk<N>,
    birth: &Command,
) -> bool {
    let is_first = desk.file(rt, office, *birth).is_ok();
    is_first && desk.file(rt, office, *birth).is_ok()
}

// The inspector, who was told nothing, has seen two steps, and freezes as many animals.
fn expect_seen<N: OfficeName>(
    rt: &impl Abort,
    alloc: Global,
    inspector: &mut Inspector<N>,
    animals: Result<u32, FreezeFault>,
) {
    let found = frozen_length(inspector, alloc);
    assert_eq!(rt; (found, inspector.steps_seen()), (animals, 2));
}
