//! A list of records, with the places of their numbers.
ghost use Rattle.std.specs.Prelude.{◌≡◌, ◌≤◌, length, IfOk};
ghost use Rattle.std.specs.HashMap.{get};
ghost use Rattle.std.specs.List.{IsDistinct};
ghost use Rattle.std.specs.Map.{keys_of};
ghost use Rattle.std.specs.Option.{option_and_then};
ghost use Rattle.std.specs.Str.{bytes_eq};
ghost use Rattle.herd_frozen.specs.freezing.Freeze.{FindsPlaces, link_by};
ghost use Rattle.herd_frozen.specs.declared.TheConstants.{MOST_ANIMALS};

use crate::freezing::registered::Registered;
use crate::freezing::rows::RowRecord;
use crate::places::links::Link;
use crate::rules::animal::Animal;
use herd_animal::AnimalNumber;
use std::alloc::{AllocError, Allocator};
use std::collections::HashMap;
use std::hash::{BuildHasherDefault, FoldHasher};

pub(crate) type Places<A> = HashMap<AnimalNumber, u32, BuildHasherDefault<FoldHasher>, A>;

/// The records in order of registration, and the place of each number.
#[derive(Drop)]
pub(crate) struct Listed<'a, A: Allocator> {
    pub(crate) records: &'a [(AnimalNumber, Animal)],
    pub(crate) places: &'a Places<A>,
}

impl<A: Allocator> Registered for Listed<'_, A> {
    ghost use Rattle.herd_frozen.specs.freezing.Listed.{IsListed};
    ghost use Rattle.herd_frozen.specs.declared.TheConstants.{DEPTH_LIMIT, MOST_ANIMALS};

    ghost book = { λ listed. listed.records.now };

    ghost knows_parents = { λ listed. IsListed DEPTH_LIMIT MOST_ANIMALS listed.records.now
        (get bytes_eq listed.places.now) };

    fn count(&self) -> usize {
        self.records.len()
    }

    fn kept_at(&self, place: usize) -> RowRecord {
        let (number, animal) = &self.records[place];
        RowRecord::of(number, animal)
    }

    fn link_at(&self, place: usize) -> Link {
        link_of(self.places, &self.records[place].1)
    }
}

/// The place of registration of each number.
pub(crate) fn places_by_number<A: Allocator + Clone>(
    alloc: A,
    records: &[(AnimalNumber, Animal)],
) -> Result<Places<A>, AllocError>
    requires once { IsDistinct bytes_eq (keys_of records.now) }
    requires few { length records.now ≤ MOST_ANIMALS }
    ensures { IfOk result (λ places. FindsPlaces (keys_of records.now) (get bytes_eq places)) }
{
    let mut places = HashMap::with_capacity(alloc, records.len())?;
    for (place, (number, _)) in records.iter().enumerate() {
        places.insert(*number, place as u32)?;
    }
    Ok(places)
}

fn link_of<A: Allocator>(places: &Places<A>, animal: &Animal) -> Link
    ensures { result ≡ link_by (get bytes_eq places.now) animal.now }
{
    Link {
        sire: place_of(places, animal.sire),
        dam: place_of(places, animal.dam),
    }
}

fn place_of<A: Allocator>(places: &Places<A>, parent: Option<AnimalNumber>) -> Option<u32>
    ensures { result ≡ option_and_then (get bytes_eq places.now) parent }
{
    let parent = parent?;
    places.get(&parent).copied()
}
