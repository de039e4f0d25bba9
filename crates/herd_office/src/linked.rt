//! A copy's records, as a search for ancestors reads them.
ghost use Rattle.std.specs.Prelude.{◌≡◌, ◌<◌, ◌≤◌, false, IfNone, IfSome, IsTrue, length, slice_get, Some};
ghost use Rattle.std.specs.Map.{keys_of};
ghost use Rattle.herd_frozen.specs.places.Places.{IsIndexIn};
ghost use Rattle.herd_frozen.specs.rules.Book.{is_there};
ghost use Rattle.herd_frozen.specs.declared.TheConstants.{MOST_ANIMALS};

use herd_animal::AnimalNumber;
use herd_frozen::{Animal, Link, LinkHint};
use herd_pedigree::Searched;

/// The records of a copy, and where the parents of each are expected.
#[derive(Drop)]
pub(crate) struct Linked<'a> {
    pub(crate) records: &'a [(AnimalNumber, Animal)],
    pub(crate) hints: &'a [LinkHint],
}

impl Searched for Linked<'_> {
    ghost use Rattle.std.specs.Prelude.{◌≡◌, length};
    ghost use Rattle.herd_frozen.specs.rules.Lawful.{IsLawful};
    ghost use Rattle.herd_frozen.specs.declared.TheConstants.{DEPTH_LIMIT, MOST_ANIMALS};

    ghost book = { λ linked. linked.records.now };

    ghost knows_parents = { λ linked. IsLawful DEPTH_LIMIT MOST_ANIMALS linked.records.now
        × (length linked.hints.now ≡ length linked.records.now) };

    fn count(&self) -> usize {
        self.records.len()
    }

    fn place_of(&self, number: &AnimalNumber) -> Option<usize> {
        place_of(self.records, number)
    }

    fn link_at(&self, place: usize) -> Link {
        let (_, animal) = &self.records[place];
        let hint = self.hints[place];
        Link {
            sire: parent_place(self.records, &animal.sire, hint.sire),
            dam: parent_place(self.records, &animal.dam, hint.dam),
        }
    }

    fn entry_at(&self, place: usize) -> (AnimalNumber, Animal) {
        self.records[place]
    }
}

// The place of an animal. The one that was registered last is looked at first: it is mostly the young that are asked
// for.
fn place_of(records: &[(AnimalNumber, Animal)], number: &AnimalNumber) -> Option<usize>
    ensures place { IfSome result (λ place. slice_get (keys_of records.now) place ≡ Some number.now) }
    ensures within { IfSome result (λ place. place < length records.now) }
    ensures absent { IfNone result (is_there records.now number.now ≡ false) }
{
    let mut place = records.len();
    while 0 < place {
        place -= 1;
        if records[place].0 == *number {
            return Some(place);
        }
    }
    None
}

// The place of a parent, if it is known: where it is expected, or else where its number stands.
fn parent_place(
    records: &[(AnimalNumber, Animal)],
    parent: &Option<AnimalNumber>,
    hint: u32,
) -> Option<u32>
    requires few { length records.now ≤ MOST_ANIMALS }
    requires there { IfSome parent.now (λ number. IsTrue (is_there records.now number)) }
    ensures { IsIndexIn (keys_of records.now) result parent.now }
{
    let number = (*parent)?;
    if stands_at(records, &number, hint) {
        return Some(hint);
    }
    match place_of(records, &number) {
        Some(place) => Some(place as u32),
        None => unreachable!(),
    }
}

// Whether an animal stands at the place.
#[inline(always)]
fn stands_at(records: &[(AnimalNumber, Animal)], number: &AnimalNumber, place: u32) -> bool
    ensures { IsTrue result → slice_get (keys_of records.now) place ≡ Some number.now }
{
    match records.get(place as usize) {
        Some((other, _)) => *other == *number,
        None => false,
    }
}
