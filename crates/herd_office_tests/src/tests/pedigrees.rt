//! Changes of a pedigree that are checked first.

use super::commands::day;
use herd_animal::{AnimalNumber, Day};
use herd_fixtures::Name::{Bull, Cow};
use herd_fixtures::{Birth, BirthFault, UNKNOWN, herd_of};
use herd_frozen::{Animal, MOST_ANIMALS, ParentFault};
use herd_pedigree::{Newborn, Pedigree};
use std::alloc::{AllocError, Allocator, Global};
use std::process::Abort;

// Adds an animal, where nothing speaks against it. Whether it was added.
fn is_added(
    pedigree: &mut Pedigree<Global>,
    number: AnimalNumber,
    newborn: Newborn,
) -> Result<bool, AllocError> {
    let Newborn {
        birth,
        sire,
        dam,
        embryo,
        ..
    } = newborn;
    let fault = pedigree.check_parents(number, birth, sire, dam, embryo)?;
    if fault.is_some() || pedigree.get(&number).is_some() || pedigree.len() >= MOST_ANIMALS {
        return Ok(false);
    }
    pedigree.add(number, newborn)?;
    Ok(true)
}

// Sets the parents of an animal of the book, where they have no fault. Where they have one, they are told to be set
// all the same, and it is told again.
fn file_correction<A: Allocator + Copy>(
    rt: &impl Abort,
    pedigree: &mut Pedigree<A>,
    number: AnimalNumber,
    sire: Option<AnimalNumber>,
    dam: Option<AnimalNumber>,
) -> Result<Option<ParentFault>, AllocError> {
    let Animal { birth, embryo, .. } = pedigree.get(&number).expect(rt, "an animal");
    let fault = pedigree.check_parents(number, birth, sire, dam, embryo)?;
    if fault.is_none() {
        pedigree.set_parents(number, sire, dam)?;
    } else {
        let found = pedigree.find(&number).expect(rt, "an animal");
        assert_eq!(rt; pedigree.set_parents_at_if_sound(&found, sire, dam)?, fault);
    }
    Ok(fault)
}

// Whether the cow and her calf are added, and the cow becomes its dam, as it itself can't.
fn is_filed(rt: &impl Abort, pedigree: &mut Pedigree<Global>) -> Result<bool, BirthFault> {
    let (cow, calf) = (Cow(1), Bull(2));
    let births = [
        Birth(cow, *b"2000-01-01", UNKNOWN),
        Birth(calf, *b"2002-01-01", UNKNOWN),
    ];
    for birth in births {
        if !is_added(pedigree, birth.0.number(), birth.newborn()?)? {
            return Ok(false);
        }
    }
    let (calf, cow) = (calf.number(), cow.number());
    let wrong = file_correction(rt, pedigree, calf, None, Some(calf))?;
    let right = file_correction(rt, pedigree, calf, None, Some(cow))?;
    Ok(wrong == Some(ParentFault::DamNotFemale) && right.is_none())
}

// Gives an animal that is present to herd 2.
fn file_transfer<A: Allocator>(
    rt: &impl Abort,
    pedigree: &mut Pedigree<A>,
    number: AnimalNumber,
    day: Day,
) {
    let animal = pedigree.get(&number).expect(rt, "an animal");
    assert!(rt; animal.left.is_none() && animal.since <= day);
    pedigree.set_owner(number, herd_of(2), day);
}

// Notes the exit of an animal that may leave.
fn file_exit<A: Allocator>(
    rt: &impl Abort,
    pedigree: &mut Pedigree<A>,
    number: AnimalNumber,
    day: Day,
) {
    let animal = pedigree.get(&number).expect(rt, "an animal");
    assert!(rt; animal.left.is_none() && animal.since <= day);
    assert!(rt; !pedigree.calved_after(&number, day));
    pedigree.set_left(number, day);
}

// Takes the last change back. Then there is none.
fn take_back<A: Allocator>(rt: &impl Abort, pedigree: &mut Pedigree<A>) {
    assert!(rt; pedigree.can_take_back());
    pedigree.take_back();
    assert!(rt; !pedigree.can_take_back());
}

// The cow is given away and leaves on the day on which her calf was born, and the exit is taken back.
fn expect_exit_taken_back<A: Allocator>(rt: &impl Abort, pedigree: &mut Pedigree<A>) {
    let cow = Cow(1).number();
    let on = day(rt, b"2002-01-01");
    assert!(rt; pedigree.calved_after(&cow, day(rt, b"2001-12-31")));
    file_transfer(rt, pedigree, cow, on);
    let given = pedigree.get(&cow).expect(rt, "an animal");
    file_exit(rt, pedigree, cow, on);
    let gone = pedigree.get(&cow).expect(rt, "an animal");
    assert_eq!(rt; (given.herd, gone.left), (herd_of(2), Some(on)));
    take_back(rt, pedigree);
    assert_eq!(rt; pedigree.get(&cow), Some(given));
}

#[test]
fn changes_are_made_where_memory_suffices(rt: HostRuntime) {
    let mut pedigree = Pedigree::new(rt.alloc());
    assert!(rt; pedigree.is_empty() && !pedigree.can_take_back());
    let empty = pedigree.freeze(rt.alloc()).map(|frozen| frozen.is_empty());
    assert_eq!(rt; empty, Ok(true));
    assert!(rt; matches!(is_filed(&rt, &mut pedigree), Ok(true)));
    expect_exit_taken_back(&rt, &mut pedigree);
}
