//! What a step makes of the records.
ghost use Rattle.std.specs.Prelude.{◌≡◌, ℕ, None};
ghost use Rattle.herd_frozen.specs.declared.rules.animal.Animal.{Animal};
ghost use Rattle.herd_frozen.specs.rules.Book.{Book, changed};
ghost use Rattle.herd_register.specs.Change.{changed_by};
ghost use Rattle.herd_register.specs.Limits.{Limits};
ghost use Rattle.herd_register.specs.Run.{fault, set};

use crate::command::{Command, newborn};
use herd_animal::AnimalNumber;
use herd_frozen::{Animal, Link, LinkHint};
use herd_pedigree::Pedigree;
use std::alloc::Allocator;

/// What a step makes of the records in the order of registration.
#[derive(Clone, Copy, Debug, PartialEq, Eq)]
pub enum Change {
    /// Nothing.
    Nothing,
    /// A record more, at the end, and where its parents are expected.
    Added(AnimalNumber, Animal, LinkHint),
    /// Another record of the animal at a place, which counts from 0, and where its parents are expected.
    Set(u32, Animal, LinkHint),
}

impl Command {
    /// What it made of the book before it, where nothing refused it.
    pub(crate) fn change_made<A: Allocator>(&self, pedigree: &Pedigree<A>) -> Change
        ensures { (limits : Limits) (before : Book) → fault limits before self.now ≡ None
            → pedigree.now.book ≡ set before self.now → changed_by limits.animals before result ≡ pedigree.now.book }
    {
        match *self {
            Command::Birth {
                animal,
                day,
                sire,
                dam,
                herd,
                embryo,
            } => {
                let last = pedigree.len().wrapping_sub(1);
                let born = newborn(day, sire, dam, herd, embryo).animal();
                Change::Added(animal, born, hint_at(pedigree, last))
            }
            Command::Parents {
                animal,
                sire: _,
                dam: _,
            } => record_set(pedigree, &animal),
            Command::Transfer {
                animal,
                day: _,
                giver: _,
                taker: _,
            } => record_set(pedigree, &animal),
            Command::Exit { animal, day: _ } => record_set(pedigree, &animal),
        }
    }
}

// The record of an animal that was changed, if it is there.
fn record_set<A: Allocator>(pedigree: &Pedigree<A>, number: &AnimalNumber) -> Change
    ensures { (most : ℕ) (before : Book) (becomes : Animal → Animal)
        → pedigree.now.book ≡ changed before number.now becomes → changed_by most before result ≡ pedigree.now.book }
{
    match pedigree.find(number) {
        Some(found) => {
            let hint = hint_at(pedigree, found.place);
            Change::Set(found.place, pedigree.animal_at(&found), hint)
        }
        None => Change::Nothing,
    }
}

// Where the parents of the animal at a place stand.
fn hint_at<A: Allocator>(pedigree: &Pedigree<A>, place: u32) -> LinkHint {
    let no_parents = Link {
        sire: None,
        dam: None,
    };
    LinkHint::from(pedigree.link_at(place).unwrap_or(no_parents))
}
