//! Parents that are named, and the first fault that their records show.
ghost use Rattle.std.specs.Prelude.{◌≡◌, ◌<◌, ◌≤◌, false, length, IfErr, IfOk, IfSome, None, Some};
ghost use Rattle.std.specs.Map.{keys_of};
ghost use Rattle.herd_frozen.specs.rules.ParentFault.{fault_by_records, first_that_holds, has_sex, is_found_gone};
ghost use Rattle.herd_frozen.specs.rules.ParentFault.{is_found_not_older, is_missing, is_named, record_faults};
ghost use Rattle.herd_frozen.specs.rules.ParentFault.{record_named};
ghost use Rattle.herd_frozen.specs.places.Places.{IsIndexIn};
ghost use Rattle.herd_frozen.specs.declared.TheConstants.{MOST_ANIMALS};

use crate::store::records::Records;
use herd_animal::{AnimalNumber, Day, Sex};
use herd_frozen::{Animal, Link, ParentFault};
use std::alloc::Allocator;

// A parent that is named, or none, with its place and its record where the book has it.
#[derive(Clone, Copy)]
struct Named {
    number: Option<AnimalNumber>,
    place: Option<u32>,
    animal: Option<Animal>,
}

// What the book has of a parent. Inlined: a caller copies no more of the record than it reads.
#[inline(always)]
fn find<A: Allocator>(records: &Records<A>, parent: &Option<AnimalNumber>) -> Named
    requires { length records.now.book ≤ MOST_ANIMALS }
    ensures number { result.number ≡ parent.now }
    ensures record { result.animal ≡ record_named records.now.book parent.now }
    ensures within { IfSome result.place (λ place. place < length records.now.book) }
    ensures place { is_missing parent.now result.animal ≡ false
        → IsIndexIn (keys_of records.now.book) result.place parent.now }
{
    if let Some(number) = parent {
        if let Some(place) = records.place_of(number) {
            return Named {
                number: *parent,
                place: Some(place as u32),
                animal: Some(records.animal_at(place)),
            };
        }
    }
    Named {
        number: *parent,
        place: None,
        animal: None,
    }
}

impl Named {
    fn is_missing(&self) -> bool
        ensures { result ≡ is_missing self.now.number self.now.animal }
    {
        self.number.is_some() && self.animal.is_none()
    }

    fn has_sex(&self, sex: Sex) -> bool
        ensures { result ≡ is_named self.now.number (has_sex sex) }
    {
        match self.number {
            Some(number) => number.sex() == sex,
            None => false,
        }
    }

    fn is_not_older(&self, birth: Day) -> bool
        ensures { result ≡ is_found_not_older birth self.now.animal }
    {
        match self.animal {
            Some(animal) => birth <= animal.birth,
            None => false,
        }
    }

    fn has_left_before(&self, day: Day) -> bool
        ensures { result ≡ is_found_gone day self.now.animal }
    {
        match self.animal {
            Some(
                Animal {
                    left: Some(left),
                    ..
                },
            ) => left < day,
            _ => false,
        }
    }
}

// The first fault of an animal with this birth day and these parents that their records show.
fn record_fault(birth: Day, sire: &Named, dam: &Named, embryo: bool) -> Option<ParentFault>
    ensures { result
        ≡ first_that_holds (record_faults birth sire.now.number sire.now.animal dam.now.number dam.now.animal embryo) }
{
    if sire.is_missing() {
        Some(ParentFault::SireMissing)
    } else if dam.is_missing() {
        Some(ParentFault::DamMissing)
    } else if sire.has_sex(Sex::Female) {
        Some(ParentFault::SireNotMale)
    } else if dam.has_sex(Sex::Male) {
        Some(ParentFault::DamNotFemale)
    } else if sire.is_not_older(birth) {
        Some(ParentFault::SireNotOlder)
    } else if dam.is_not_older(birth) {
        Some(ParentFault::DamNotOlder)
    } else if !embryo && dam.has_left_before(birth) {
        Some(ParentFault::DamGone)
    } else {
        None
    }
}

/// The places of the parents of an animal with this birth day, or the first fault that their records show.
// Inlined, as `find` is.
#[inline(always)]
pub fn sound_parents<A: Allocator>(
    records: &Records<A>,
    birth: Day,
    sire: &Option<AnimalNumber>,
    dam: &Option<AnimalNumber>,
    embryo: bool,
) -> Result<Link, ParentFault>
    requires { length records.now.book ≤ MOST_ANIMALS }
    ensures fault { IfErr result
        (λ fault. fault_by_records records.now.book birth sire.now dam.now embryo ≡ Some fault) }
    ensures sound { IfOk result (λ _. fault_by_records records.now.book birth sire.now dam.now embryo ≡ None) }
    ensures sire { IfOk result (λ parents. IsIndexIn (keys_of records.now.book) parents.sire sire.now) }
    ensures dam { IfOk result (λ parents. IsIndexIn (keys_of records.now.book) parents.dam dam.now) }
    ensures sire_within { IfOk result (λ parents. IfSome parents.sire (λ place. place < length records.now.book)) }
    ensures dam_within { IfOk result (λ parents. IfSome parents.dam (λ place. place < length records.now.book)) }
{
    let sire = find(records, sire);
    let dam = find(records, dam);
    match record_fault(birth, &sire, &dam, embryo) {
        Some(fault) => Err(fault),
        None => Ok(Link {
            sire: sire.place,
            dam: dam.place,
        }),
    }
}
