//! A register whose heap is filled up before each command, so that every growth is refused in turn.

use super::commands::{LIMITS, birth, exit, founder, parents, transfer};
use herd_fixtures::Name::{Bull, Cow};
use herd_fixtures::{Birth, Crowd, MOST_BLOCKS, Pair, UNKNOWN, small_heap};
use herd_frozen::ParentFault;
use herd_pedigree::Pedigree;
use herd_register::{Command, Register, Reply};
use linked_list_allocator::LocalHeap;
use std::alloc::AllocError;
use std::process::Abort;
use std::test::Fail;

fn is_accepted(register: &mut Register<&LocalHeap>, command: &Command) -> bool {
    register.file(7, *command) == Ok(Reply::Accepted)
}

// Fills the heap and files a command, with one more free block each time, until it is accepted. How often it wasn't.
fn refusals(
    crowd: &mut Crowd<'_>,
    register: &mut Register<&LocalHeap>,
    command: &Command,
) -> Result<u32, AllocError> {
    crowd.fill()?;
    for refused in 0..MOST_BLOCKS {
        if is_accepted(register, command) {
            return Ok(refused);
        }
        crowd.give_back();
    }
    Ok(MOST_BLOCKS)
}

// Two founders, a calf of the first, and a line of bulls of which the calf is the first sire.
fn line(rt: &impl Abort) -> [Command; 7] {
    [
        founder(rt, Bull(1)),
        founder(rt, Cow(2)),
        birth(rt, Birth(Bull(3), *b"2002-01-01", Pair::of_sire(Bull(1)))),
        birth(rt, Birth(Bull(4), *b"2004-01-01", Pair::of_sire(Bull(3)))),
        birth(rt, Birth(Bull(5), *b"2006-01-01", Pair::of_sire(Bull(4)))),
        birth(rt, Birth(Bull(6), *b"2008-01-01", Pair::of_sire(Bull(5)))),
        birth(rt, Birth(Bull(7), *b"2010-01-01", Pair::of_sire(Bull(6)))),
    ]
}

// What is filed after the line, and whether memory is refused for it at first: the calf's sire is unknown, for which
// depths alone ask for memory, and then both its parents are known, at which the journal grows. No other takes memory.
// Last, whether a check of both parents of the calf is refused memory before: it takes some where they make it deeper.
fn later(rt: &impl Abort) -> [(Command, bool, bool); 4] {
    [
        (parents(Bull(3), UNKNOWN), true, false),
        (parents(Bull(3), Pair::of(Bull(1), Cow(2))), true, true),
        (transfer(rt, Bull(3), b"2003-01-01"), false, false),
        (exit(rt, Bull(3), b"2003-01-01"), false, false),
    ]
}

// The fault of both parents of the calf.
fn fault_of_parents(
    rt: &impl Abort,
    pedigree: &Pedigree<&LocalHeap>,
) -> Result<Option<ParentFault>, AllocError> {
    let number = Bull(3).number();
    let calf = pedigree.get(&number).expect(rt, "an animal");
    let (sire, dam) = (Some(Bull(1).number()), Some(Cow(2).number()));
    pedigree.check_parents(number, calf.birth, sire, dam, calf.embryo)
}

// How often the commands of the line weren't accepted.
fn refusals_of_line(
    rt: &impl Abort,
    crowd: &mut Crowd<'_>,
    register: &mut Register<&LocalHeap>,
) -> Result<u32, AllocError> {
    let mut refused: u32 = 0;
    for command in line(rt) {
        refused = refused.wrapping_add(refusals(crowd, register, &command)?);
    }
    Ok(refused)
}

fn file_all(
    rt: &impl Abort,
    crowd: &mut Crowd<'_>,
    register: &mut Register<&LocalHeap>,
) -> Result<(), Fail> {
    let of_line = refusals_of_line(rt, crowd, register)?;
    assert!(rt; 0 < of_line && of_line < MOST_BLOCKS);
    for (command, is_refused, is_check_refused) in later(rt) {
        crowd.fill()?;
        let checked = fault_of_parents(rt, register.pedigree());
        assert_eq!(rt; checked.is_err(), is_check_refused, "{command:?}");
        let refused = refusals(crowd, register, &command)?;
        assert!(rt; refused < MOST_BLOCKS);
        assert_eq!(rt; 0 < refused, is_refused, "{command:?}");
    }
    Ok(())
}

// The last step, an exit, is taken out again.
fn expect_withdrawn(rt: &impl Abort, register: &mut Register<&LocalHeap>) {
    assert!(rt; register.can_withdraw() && register.step(11).is_some());
    register.withdraw();
    assert!(rt; !register.can_withdraw() && register.step(11).is_none());
    assert_eq!(rt; register.step(10), register.journal().last());
    let calf = register.pedigree().get(&Bull(3).number());
    assert!(rt; calf.expect(rt, "an animal").left.is_none());
}

#[test]
fn commands_are_accepted_in_time(rt: HostRuntime) -> Result<(), Fail> {
    let heap = small_heap(rt.alloc())?;
    let mut crowd = Crowd::of(rt.alloc(), &heap);
    let mut register = Register::new(&heap, LIMITS);
    file_all(&rt, &mut crowd, &mut register)?;
    expect_withdrawn(&rt, &mut register);
    Ok(())
}
