//! An office in a heap that is full.
ghost use Rattle.herd_office.specs.Parts.{AreNamed};

use super::commands::{LIMITS, founder};
use super::readings::frozen_length;
use herd_fixtures::Name::Bull;
use herd_fixtures::{Crowd, small_heap};
use herd_office::*;
use linked_list_allocator::LocalHeap;
use std::marker::Brand;
use std::process::Abort;
use std::sync::Wait;
use std::test::*;

// An office whose desks, inspectors and journal are in the heap.
fn fill_and_close<N: OfficeName, R: Wait + Abort>(
    rt: &R,
    heap: &LocalHeap,
    parts: OfficeParts<&R>,
    crowd: &mut Crowd<'_>,
) -> Result<(), Fail>
    requires { AreNamed N.OfficeName parts }
{
    let (office, desks, inspectors) = Office::<N, &R, &LocalHeap>::open(heap, parts)?;
    assert!(rt; closes_when_full(rt, heap, office, (desks, inspectors), crowd));
    Ok(())
}

// Whether the office takes a birth, refuses to freeze it once the heap is full, and is closed all the same.
fn closes_when_full<'r, 'h, N: OfficeName, R: Wait + Abort>(
    rt: &'r R,
    heap: &'h LocalHeap,
    office: Office<N, &'r R, &'h LocalHeap>,
    (mut desks, mut inspectors): (
        Vec<Desk<N>, &'h LocalHeap>,
        Vec<Inspector<N>, &'h LocalHeap>,
    ),
    crowd: &mut Crowd<'_>,
) -> bool {
    let is_filed = files_birth(rt, &office, desks.as_mut_slice());
    let is_refused = crowd.fill().is_ok() && is_refused_memory(heap, inspectors.as_mut_slice());
    office.close(rt, desks, inspectors).is_ok() && is_filed && is_refused
}

fn files_birth<N: OfficeName, R: Wait + Abort>(
    rt: &R,
    office: &Office<N, &R, &LocalHeap>,
    desks: &mut [Desk<N>],
) -> bool {
    let birth = founder(rt, Bull(1));
    match desks.first_mut() {
        Some(desk) => desk.file(rt, office, birth).is_ok(),
        None => false,
    }
}

fn is_refused_memory<N: OfficeName>(heap: &LocalHeap, inspectors: &mut [Inspector<N>]) -> bool {
    match inspectors.first_mut() {
        Some(inspector) => frozen_length(inspector, heap) == Err(FreezeFault::Memory),
        None => false,
    }
}

#[test]
fn closing_takes_no_memory(rt: HostRuntime) -> Result<(), Fail> {
    let heap = small_heap(rt.alloc())?;
    let mut crowd = Crowd::of(rt.alloc(), &heap);
    let parts = OfficeParts::new(&rt, rt.alloc(), LIMITS, 1, 1)?;
    fill_and_close::<Brand, _>(&rt, &heap, parts, &mut crowd)
}
