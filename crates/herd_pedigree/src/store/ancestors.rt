//! Some animals of a book and all their known ancestors, by places.
ghost use Rattle.std.specs.Prelude.{◌≡◌, ◌<◌, [], Contains, IfOk, IfSome, OnOk, length};
ghost use Rattle.std.specs.List.{IsDistinct};
ghost use Rattle.std.specs.Map.{keys_of};
ghost use Rattle.std.specs.Str.{bytes_eq};
ghost use Rattle.herd_pedigree.specs.store.Ancestors.{BeginsWith, HasAncestors, HasNamed, HasParents, records_at};

use crate::store::searched::Searched;
use herd_animal::AnimalNumber;
use herd_frozen::Animal;
use std::alloc::{AllocError, Allocator};
use std::marker::Model;

/// Animals that were found, by their places, each once.
#[derive(Drop)]
pub struct Ancestors<A: Allocator> {
    // In the order in which they were found.
    places: Vec<usize, A>,
    // By the places of the book: whether the animal was found.
    marks: Vec<bool, A>,
}

impl<A: Allocator> Model for Ancestors<A> {
    ghost use Rattle.std.specs.Prelude.{length};
    ghost use Rattle.herd_pedigree.specs.store.Ancestors.{AreMarked, Found};

    ghost Value = { Found };

    ghost view = { λ found. record { places = found.places.items; animals = length found.marks.items } };

    ghost invariant = { λ found. AreMarked found.places.items found.marks.items };
}

impl<A: Allocator + Clone> Ancestors<A> {
    /// None yet, with room for a search among so many animals.
    pub fn with_room(alloc: A, animals: usize) -> Result<Ancestors<A>, AllocError>
        ensures animals { IfOk result (λ found. found.animals ≡ animals) }
        ensures none { IfOk result (λ found. found.places ≡ []) }
    {
        Ok(Ancestors {
            places: Vec::with_capacity(alloc.clone()?, animals)?,
            marks: vec![in alloc; false; animals]?,
        })
    }
}

impl<A: Allocator> Ancestors<A> {
    /// The animals of these numbers that are in the book, and all their known ancestors, in the place of those that
    /// were found before. It takes memory only where there was room for fewer animals than the book has. The only error
    /// is a growth of memory that is refused.
    pub fn search<S: Searched>(
        self,
        records: &S,
        numbers: &[AnimalNumber],
    ) -> Result<Ancestors<A>, AllocError>
        requires once { IsDistinct bytes_eq (keys_of (S.book records.now)) }
        requires parents { S.knows_parents records.now }
        ensures animals { IfOk result (λ found. found.animals ≡ length (S.book records.now)) }
        ensures found { IfOk result (λ found. HasAncestors (S.book records.now) numbers.now found.places) }
    {
        let mut found = self.emptied(records.count())?;
        found.add_named(records, numbers)?;
        found.add_ancestors(records)?;
        Ok(found)
    }

    // None of so many animals, in the room that was there.
    fn emptied(self, animals: usize) -> Result<Ancestors<A>, AllocError>
        ensures animals { IfOk result (λ found. found.animals ≡ animals) }
        ensures none { IfOk result (λ found. found.places ≡ []) }
    {
        let Ancestors {
            mut places,
            mut marks,
        } = self;
        places.clear();
        marks.clear();
        marks.resize(animals, false)?;
        Ok(Ancestors { places, marks })
    }

    // Adds the animals of these numbers that are in the book.
    fn add_named<S: Searched>(
        &mut self,
        records: &S,
        numbers: &[AnimalNumber],
    ) -> Result<(), AllocError>
        requires once { IsDistinct bytes_eq (keys_of (S.book records.now)) }
        requires animals { self.old.animals ≡ length (S.book records.now) }
        ensures animals { OnOk result (self.new.animals ≡ self.old.animals) }
        ensures named { OnOk result (HasNamed (S.book records.now) numbers.now self.new.places) }
    {
        for number in numbers {
            if let Some(place) = records.place_of(number) {
                self.add(place)?;
            }
        }
        Ok(())
    }

    // Adds the known ancestors of those that were found, parents first found first.
    fn add_ancestors<S: Searched>(&mut self, records: &S) -> Result<(), AllocError>
        requires once { IsDistinct bytes_eq (keys_of (S.book records.now)) }
        requires parents { S.knows_parents records.now }
        requires animals { self.old.animals ≡ length (S.book records.now) }
        ensures animals { OnOk result (self.new.animals ≡ self.old.animals) }
        ensures kept { OnOk result (BeginsWith self.old.places self.new.places) }
        ensures closed { OnOk result (HasParents (S.book records.now) self.new.places) }
    {
        let mut next = 0;
        while next < self.places.len() {
            let link = records.link_at(self.places[next]);
            self.add_known(link.sire)?;
            self.add_known(link.dam)?;
            next += 1;
        }
        Ok(())
    }

    // Adds the animal at a place, where one is known.
    fn add_known(&mut self, place: Option<u32>) -> Result<(), AllocError>
        requires { IfSome place (λ p. p < self.old.animals) }
        ensures animals { OnOk result (self.new.animals ≡ self.old.animals) }
        ensures kept { OnOk result (BeginsWith self.old.places self.new.places) }
        ensures added { OnOk result (IfSome place (Contains self.new.places)) }
    {
        match place {
            Some(place) => self.add(place as usize),
            None => Ok(()),
        }
    }

    // Adds the animal at a place, unless it was found before.
    fn add(&mut self, place: usize) -> Result<(), AllocError>
        requires { place < self.old.animals }
        ensures animals { OnOk result (self.new.animals ≡ self.old.animals) }
        ensures kept { OnOk result (BeginsWith self.old.places self.new.places) }
        ensures added { OnOk result (Contains self.new.places place) }
    {
        if !self.marks[place] {
            self.places.push(place)?;
            self.marks[place] = true;
        }
        Ok(())
    }

    /// Adds their records to an empty list, in the order in which they were found. It takes memory only where the list
    /// has room for fewer. The only error is a growth of memory that is refused.
    pub fn records<S: Searched, C: Allocator>(
        &self,
        mut list: Vec<(AnimalNumber, Animal), C>,
        records: &S,
    ) -> Result<Vec<(AnimalNumber, Animal), C>, AllocError>
        requires animals { self.now.animals ≡ length (S.book records.now) }
        requires empty { list.items ≡ [] }
        ensures { IfOk result (λ list. list.items ≡ records_at (S.book records.now) self.now.places) }
    {
        list.reserve(self.places.len())?;
        for place in &self.places {
            list.push_reserved(records.entry_at(*place));
        }
        Ok(list)
    }
}
