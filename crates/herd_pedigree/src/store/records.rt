//! The records of a book, which keep the places of the parents for their numbers.
ghost use Rattle.std.specs.Prelude.{◌≡◌, ◌<◌, ◌^◌, [], ◌++◌, ◌∷◌, length, not, position, slice_get, true, false, None};
ghost use Rattle.std.specs.Prelude.{Some, IfOk, IfSome, OnErr, is_some};
ghost use Rattle.std.specs.List.{IsDistinct};
ghost use Rattle.std.specs.Map.{keys_of, values_of};
ghost use Rattle.std.specs.Str.{bytes_eq};
ghost use Rattle.herd_frozen.specs.rules.Book.{is_there, record_of};
ghost use Rattle.herd_frozen.specs.places.PackedIndex.{nowhere};
ghost use Rattle.herd_frozen.specs.places.Places.{IsIndexIn, number_at};
ghost use Rattle.herd_pedigree.specs.Pedigree.{birth_record};
ghost use Rattle.herd_pedigree.specs.store.Records.{IsStoredAt, NamesItsOwn, animal_of, set_value_at, stored_of};
ghost use Rattle.herd_pedigree.specs.store.Undo.{without_last};

use crate::registration::Newborn;
use crate::store::searched::Searched;
use herd_animal::{AnimalNumber, Day, Herd};
use herd_frozen::{Animal, Link, PackedIndex, Registered, RowRecord};
use indexmap::IndexMap;
use indexmap::map::Entry;
use std::alloc::{AllocError, Allocator};
use std::hash::{BuildHasherDefault, FoldHasher};
use std::marker::Model;

/// What is kept of an animal under its number: its record, with the places of the parents that are known.
#[derive(Clone, Copy)]
pub struct StoredRecord {
    pub(crate) birth: Day,
    sire: PackedIndex,
    dam: PackedIndex,
    pub(crate) embryo: bool,
    herd: Herd,
    since: Day,
    left: Option<Day>,
}

/// The records in the order of registration, found by their numbers. A place counts from 0 in this order.
#[derive(Drop)]
pub struct Records<A: Allocator> {
    entries: IndexMap<AnimalNumber, StoredRecord, BuildHasherDefault<FoldHasher>, A>,
}

impl<A: Allocator> Model for Records<A> {
    ghost use Rattle.herd_pedigree.specs.store.Records.{AreClosed, Records, stored_book};

    ghost Value = { Records };

    ghost view = { λ r. record { book = stored_book r.entries.entries } };

    ghost invariant = { λ r. AreClosed r.entries.entries };
}

impl StoredRecord {
    // What is kept of a newborn animal whose parents stand at these places.
    fn new(newborn: Newborn, sire: Option<u32>, dam: Option<u32>) -> StoredRecord
        requires sire { IfSome sire (λ place. place < nowhere) }
        requires dam { IfSome dam (λ place. place < nowhere) }
        ensures { result ≡ stored_of (birth_record newborn) sire dam }
    {
        StoredRecord {
            birth: newborn.birth,
            sire: PackedIndex::of(sire),
            dam: PackedIndex::of(dam),
            embryo: newborn.embryo,
            herd: newborn.herd,
            since: newborn.birth,
            left: None,
        }
    }

    /// The places of the parents.
    #[inline(always)]
    pub(crate) fn parents(&self) -> Link
        ensures sire { result.sire ≡ self.now.sire }
        ensures dam { result.dam ≡ self.now.dam }
    {
        Link {
            sire: self.sire.get(),
            dam: self.dam.get(),
        }
    }

    /// The same with parents that stand at these places.
    pub(crate) fn with_parents(&self, sire: Option<u32>, dam: Option<u32>) -> StoredRecord
        requires sire { IfSome sire (λ place. place < nowhere) }
        requires dam { IfSome dam (λ place. place < nowhere) }
        ensures { result ≡ record self.now { sire = sire; dam = dam } }
    {
        let dam = PackedIndex::of(dam);
        let sire = PackedIndex::of(sire);
        StoredRecord { sire, dam, ..*self }
    }

    /// The same, owned by the herd from the day on.
    pub(crate) fn with_owner(&self, herd: Herd, day: Day) -> StoredRecord
        ensures { result ≡ record self.now { herd = herd; since = day } }
    {
        StoredRecord {
            herd,
            since: day,
            ..*self
        }
    }

    /// The same, gone on the day.
    pub(crate) fn with_left(&self, day: Day) -> StoredRecord
        ensures { result ≡ record self.now { left = Some day } }
    {
        StoredRecord {
            left: Some(day),
            ..*self
        }
    }
}

impl<A: Allocator + Copy> Records<A> {
    /// No records. It takes no memory.
    pub fn new(alloc: A) -> Self
        ensures { result.book ≡ [] }
    {
        Records {
            entries: IndexMap::new(alloc),
        }
    }
}

// Look-ups are inlined: a caller reads no more of a record, and of the numbers of its parents, than it uses.
impl<A: Allocator> Records<A> {
    /// What the records take memory from.
    pub fn allocator(&self) -> &A {
        self.entries.allocator()
    }

    /// How many records there are.
    pub fn len(&self) -> usize
        ensures { result ≡ length self.now.book }
    {
        self.entries.len()
    }

    /// The place of an animal.
    #[inline(always)]
    pub fn place_of(&self, number: &AnimalNumber) -> Option<usize>
        ensures index { result ≡ position (bytes_eq number.now) (keys_of self.now.book) }
        ensures found { is_some result ≡ is_there self.now.book number.now }
        ensures within { IfSome result (λ place. place < length self.now.book) }
        ensures value { IfSome result
            (λ place. slice_get (values_of self.now.book) place ≡ record_of self.now.book number.now) }
    {
        self.entries.get_index_of(number)
    }

    /// The record at a place.
    #[inline(always)]
    pub fn animal_at(&self, place: usize) -> Animal
        requires { place < length self.now.book }
        ensures { slice_get (values_of self.now.book) place ≡ Some result }
    {
        self.animal_of(&self.entries[place])
    }

    /// The record of an animal.
    #[inline(always)]
    pub fn get(&self, number: &AnimalNumber) -> Option<Animal>
        ensures { result ≡ record_of self.now.book number.now }
    {
        let stored = self.entries.get(number)?;
        Some(self.animal_of(stored))
    }

    /// What is kept at a place.
    #[inline(always)]
    pub(crate) fn stored_at(&self, place: usize) -> StoredRecord
        requires { place < length self.now.book }
        ensures { IsStoredAt self.now.book place result }
    {
        self.entries[place]
    }

    // The animal of which this is kept.
    #[inline(always)]
    fn animal_of(&self, stored: &StoredRecord) -> Animal
        ensures { result ≡ animal_of (keys_of self.now.book) stored.now }
    {
        Animal {
            birth: stored.birth,
            sire: self.number_at(stored.sire.get()),
            dam: self.number_at(stored.dam.get()),
            embryo: stored.embryo,
            herd: stored.herd,
            since: stored.since,
            left: stored.left,
        }
    }

    // The number of the animal at a place.
    #[inline(always)]
    fn number_at(&self, place: Option<u32>) -> Option<AnimalNumber>
        ensures { result ≡ number_at (keys_of self.now.book) place }
    {
        let place = place?;
        let (number, _) = self.entries.get_index(place as usize)?;
        Some(*number)
    }

    /// Adds an animal whose parents stand at these places, unless its number is there, and returns whether it was new.
    /// The only error is a growth of memory that is refused; a number that is there needs none.
    pub(crate) fn push_if_new(
        &mut self,
        number: AnimalNumber,
        newborn: Newborn,
        sire: Option<u32>,
        dam: Option<u32>,
    ) -> Result<bool, AllocError>
        requires few { length self.old.book < 2 ^ 32 }
        requires sire { IsIndexIn (keys_of self.old.book) sire newborn.sire }
        requires dam { IsIndexIn (keys_of self.old.book) dam newborn.dam }
        ensures new { IfOk result (λ new. new ≡ not (is_there self.old.book number)) }
        ensures added { result ≡ Ok true → self.new.book ≡ self.old.book ++ (number, birth_record newborn) ∷ [] }
        ensures there { result ≡ Ok false → self.new.book ≡ self.old.book }
        ensures err { OnErr result (self.new.book ≡ self.old.book) }
        ensures absent { OnErr result (record_of self.old.book number ≡ None) }
    {
        let stored = StoredRecord::new(newborn, sire, dam);
        let Entry::Vacant(entry) = self.entries.entry(number)? else {
            return Ok(false);
        };
        entry.insert(stored);
        Ok(true)
    }

    /// Writes what is kept at a place. It takes no memory.
    pub(crate) fn write(&mut self, place: usize, stored: StoredRecord)
        requires within { place < length self.old.book }
        requires sire { IfSome stored.sire (λ p. p < length self.old.book) }
        requires dam { IfSome stored.dam (λ p. p < length self.old.book) }
        ensures { self.new.book ≡ set_value_at self.old.book place (animal_of (keys_of self.old.book) stored) }
    {
        self.entries[place] = stored;
    }

    /// Takes the last animal away, which is nobody's parent. It takes no memory.
    pub(crate) fn pop(&mut self)
        requires once { IsDistinct bytes_eq (keys_of self.old.book) }
        requires childless { NamesItsOwn (without_last self.old.book) }
        ensures { self.new.book ≡ without_last self.old.book }
    {
        let _ = self.entries.pop();
    }
}

// The records as freezing reads them.
impl<A: Allocator> Registered for Records<A> {
    ghost book = { λ records. records.book };

    ghost knows_parents = { λ _. Unit {0} };

    #[inline(always)]
    fn count(&self) -> usize {
        self.len()
    }

    #[inline(always)]
    fn kept_at(&self, place: usize) -> RowRecord {
        let stored = &self.entries[place];
        RowRecord {
            number: self.entries.keys()[place],
            embryo: stored.embryo,
            birth: stored.birth,
            herd: stored.herd,
            since: stored.since,
            left: stored.left,
        }
    }

    #[inline(always)]
    fn link_at(&self, place: usize) -> Link {
        self.entries[place].parents()
    }
}

// The records as a search for ancestors reads them.
impl<A: Allocator> Searched for Records<A> {
    ghost book = { λ records. records.book };

    ghost knows_parents = { λ _. Unit {0} };

    fn count(&self) -> usize {
        self.len()
    }

    fn place_of(&self, number: &AnimalNumber) -> Option<usize> {
        self.place_of(number)
    }

    fn link_at(&self, place: usize) -> Link {
        Registered::link_at(self, place)
    }

    fn entry_at(&self, place: usize) -> (AnimalNumber, Animal) {
        (self.entries.keys()[place], self.animal_at(place))
    }
}
