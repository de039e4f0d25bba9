//! Copies of a register: memory is taken for no step once there is room, and to freeze one no parent is looked up.
ghost use Rattle.std.specs.Prelude.{◌≡◌, IfOk, OnOk};
ghost use Rattle.herd_register.specs.Copybook.{HasRunBook, copy_of};

use super::commands::{LIMITS, birth, exit, founder, parents, transfer};
use herd_fixtures::Name::{Bull, Cow};
use herd_fixtures::{Birth, Pair};
use herd_frozen::{LinkHint, freeze_hinted};
use herd_register::{Command, Copybook, FileFault, Register};
use linked_list_allocator::LocalHeap;
use std::alloc::{AllocError, Allocator, Global};
use std::process::Abort;
use std::test::Fail;

// Two founders, and a calf whose dam is told later.
fn family(rt: &impl Abort) -> [Command; 4] {
    [
        founder(rt, Bull(1)),
        founder(rt, Cow(2)),
        birth(rt, Birth(Bull(3), *b"2002-01-01", Pair::of_sire(Bull(1)))),
        parents(Bull(3), Pair::of(Bull(1), Cow(2))),
    ]
}

// Files a command, and lets the register's copy take over what it made of the records.
fn file_and_copy<A: Allocator>(
    register: &mut Register<Global>,
    copybook: &mut Copybook<A>,
    command: Command,
) -> Result<(), FileFault>
    requires { copybook.old ≡ copy_of register.old.limits register.old.journal }
    ensures { OnOk result (copybook.new ≡ copy_of register.new.limits register.new.journal) }
{
    register.file(7, command)?;
    // The journal shows that the step had room.
    prove!(register.journal().len() <= register.limits().steps as usize);
    copybook.take_over(&register.last_change())?;
    Ok(())
}

// The copy of a register that filed a family.
fn family_copy(alloc: Global, family: &[Command; 4]) -> Result<Copybook<Global>, FileFault>
    ensures { IfOk result HasRunBook }
{
    let limits = LIMITS;
    let mut register = Register::new(alloc, limits);
    let mut copybook = Copybook::new(alloc, limits);
    for command in family {
        file_and_copy(&mut register, &mut copybook, *command)?;
    }
    Ok(copybook)
}

// Whether there is room for the frozen book of a copy, whose parents are expected where its own changes told, or where
// these hints do.
fn is_frozen(heap: &LocalHeap, copybook: &Copybook<Global>, hints: Option<LinkHint>) -> bool
    requires { HasRunBook copybook.now }
{
    match hints {
        // The founders' parents aren't known, so nobody looks there.
        Some(of_calf) => {
            let unused = LinkHint { sire: 9, dam: 9 };
            let hints = [unused, unused, of_calf];
            freeze_hinted(heap, copybook.records(), &hints).is_ok()
        }
        None => copybook.freeze(heap).is_ok(),
    }
}

// In how many heaps of up to 400 blocks there is no room.
fn refusals(
    alloc: Global,
    copybook: &Copybook<Global>,
    hints: Option<LinkHint>,
) -> Result<u32, AllocError>
    requires { HasRunBook copybook.now }
{
    let mut refused = 0u32;
    for blocks in 1..400 {
        let heap = LocalHeap::new(alloc, 16 * blocks)?;
        if !is_frozen(&heap, copybook, hints) {
            refused = refused.saturating_add(1);
        }
    }
    Ok(refused)
}

// Where the hints are right no index of the numbers is made, which would need memory. Wrong ones, and of places that
// aren't there, need more.
fn expect_frozen_in_time(
    rt: &(impl Abort + AllocGlobal),
    copybook: &Copybook<Global>,
) -> Result<(), Fail>
    requires { HasRunBook copybook.now }
{
    let own = refusals(rt.alloc(), copybook, None)?;
    let right = refusals(rt.alloc(), copybook, Some(LinkHint { sire: 0, dam: 1 }))?;
    assert!(rt; 0 < own && own == right);
    for (sire, dam) in [(1, 0), (0, 0), (2, 1), (0, 3), (u32::MAX, 1)] {
        let looked_up = refusals(rt.alloc(), copybook, Some(LinkHint { sire, dam }))?;
        assert!(rt; right < looked_up && looked_up < 399, "{sire}, {dam}");
    }
    Ok(())
}

#[test]
fn no_parent_is_looked_up_where_it_is_expected(rt: HostRuntime) -> Result<(), Fail> {
    let copybook = family_copy(rt.alloc(), &family(&rt))?;
    expect_frozen_in_time(&rt, &copybook)
}

// Steps of each kind that are accepted, and a refused one.
fn of_each_kind(rt: &impl Abort) -> [Command; 7] {
    [
        founder(rt, Bull(1)),
        founder(rt, Cow(2)),
        birth(rt, Birth(Bull(3), *b"2002-01-01", Pair::of_sire(Bull(1)))),
        parents(Bull(3), Pair::of(Bull(1), Cow(2))),
        transfer(rt, Bull(3), b"2005-01-01"),
        exit(rt, Cow(2), b"2003-01-01"),
        exit(rt, Cow(2), b"2003-01-01"),
    ]
}

// Files a command, and lets a copy take over what it made of the records.
fn file_and_take_over(
    register: &mut Register<Global>,
    copybook: &mut Copybook<&LocalHeap>,
    command: Command,
) -> Result<(), FileFault> {
    register.file(7, command)?;
    copybook.take_over(&register.last_change())?;
    Ok(())
}

fn file_and_take_over_all(
    register: &mut Register<Global>,
    copybook: &mut Copybook<&LocalHeap>,
    commands: &[Command],
) -> Result<(), FileFault> {
    for command in commands {
        file_and_take_over(register, copybook, *command)?;
    }
    Ok(())
}

// Lets a copy take over what a register makes of commands.
fn take_over_all(
    alloc: Global,
    copybook: &mut Copybook<&LocalHeap>,
    commands: &[Command],
) -> Result<(), FileFault> {
    let mut register = Register::new(alloc, LIMITS);
    file_and_take_over_all(&mut register, copybook, commands)
}

// Whether a heap has room for a copy, which then takes no more memory for steps.
fn is_copied(
    rt: &(impl Abort + AllocGlobal),
    heap: &LocalHeap,
    commands: &[Command],
) -> Result<bool, Fail> {
    let mut copybook = Copybook::new(heap, LIMITS);
    if copybook.make_room().is_err() {
        assert_eq!(rt; copybook.room(), 0);
        return Ok(false);
    }
    assert_eq!(rt; copybook.room(), 8);
    let used = heap.used();
    take_over_all(rt.alloc(), &mut copybook, commands)?;
    assert_eq!(rt; (copybook.steps(), heap.used()), (7, used));
    Ok(true)
}

// Each growth of a copy is refused in turn: the heap is a little larger each time.
#[test]
fn steps_are_taken_over_without_memory(rt: HostRuntime) -> Result<(), Fail> {
    let commands = of_each_kind(&rt);
    let mut refused = 0u32;
    for size in 1..64 {
        let heap = LocalHeap::new(rt.alloc(), 16 * size)?;
        if !is_copied(&rt, &heap, &commands)? {
            refused = refused.saturating_add(1);
        }
    }
    assert!(rt; 1 < refused && refused < 63);
    Ok(())
}
