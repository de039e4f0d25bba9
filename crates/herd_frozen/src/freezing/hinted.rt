//! A list of records, with the places where their parents are expected.
ghost use Rattle.std.specs.Prelude.{◌≡◌, IsTrue};
ghost use Rattle.std.specs.Map.{keys_of};
ghost use Rattle.herd_frozen.specs.places.Places.{IsIndexIn};
ghost use Rattle.herd_frozen.specs.freezing.Hinted.{AreHinted, if_known};

use crate::freezing::registered::Registered;
use crate::freezing::rows::RowRecord;
use crate::places::links::{Link, LinkHint};
use crate::rules::animal::Animal;
use herd_animal::AnimalNumber;

/// The records in order of registration, and where the parents of each stand.
#[derive(Drop)]
pub(crate) struct Hinted<'a> {
    pub(crate) records: &'a [(AnimalNumber, Animal)],
    pub(crate) hints: &'a [LinkHint],
}

impl Registered for Hinted<'_> {
    ghost use Rattle.herd_frozen.specs.freezing.Hinted.{AreHinted};

    ghost book = { λ hinted. hinted.records.now };

    ghost knows_parents = { λ hinted. AreHinted hinted.records.now hinted.hints.now };

    #[inline(always)]
    fn count(&self) -> usize {
        self.records.len()
    }

    #[inline(always)]
    fn kept_at(&self, place: usize) -> RowRecord {
        let (number, animal) = &self.records[place];
        RowRecord::of(number, animal)
    }

    #[inline(always)]
    fn link_at(&self, place: usize) -> Link {
        let (_, animal) = &self.records[place];
        let hint = self.hints[place];
        Link {
            sire: if_known(&animal.sire, hint.sire),
            dam: if_known(&animal.dam, hint.dam),
        }
    }
}

/// Whether each known parent stands where it is expected.
pub(crate) fn are_right(records: &[(AnimalNumber, Animal)], hints: &[LinkHint]) -> bool
    ensures { IsTrue result → AreHinted records.now hints.now }
{
    if records.len() != hints.len() {
        return false;
    }
    for (place, (_, animal)) in records.iter().enumerate() {
        let hint = hints[place];
        if !stands_at(records, &animal.sire, hint.sire)
            || !stands_at(records, &animal.dam, hint.dam)
        {
            return false;
        }
    }
    true
}

// Whether a parent that is known stands at the place.
#[inline(always)]
fn stands_at(records: &[(AnimalNumber, Animal)], parent: &Option<AnimalNumber>, place: u32) -> bool
    ensures { IsTrue result → IsIndexIn (keys_of records.now) (if_known parent.now place) parent.now }
{
    let Some(parent) = parent else {
        return true;
    };
    match records.get(place as usize) {
        Some((number, _)) => *number == *parent,
        None => false,
    }
}

// The place of a parent that is known.
#[inline(always)]
fn if_known(parent: &Option<AnimalNumber>, place: u32) -> Option<u32>
    ensures { result ≡ if_known parent.now place }
{
    match parent {
        Some(_) => Some(place),
        None => None,
    }
}
