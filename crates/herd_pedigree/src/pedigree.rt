ghost use Rattle.std.specs.Prelude.{◌≡◌, ◌≢◌, ◌==◌, ◌<◌, ◌≤◌, [], ◌++◌, ◌∷◌, length, Option, None, Some, IfNone, IfOk};
ghost use Rattle.std.specs.Prelude.{IfSome, IsTrue, OnOk, OnErr, IsSome, is_some, not, vec_capacity, vec_len};
ghost use Rattle.std.specs.Map.{keys_of};
ghost use Rattle.herd_frozen.specs.rules.Book.{IsDepthOf, changed, has_calved_after, is_there, record_of, with_left};
ghost use Rattle.herd_frozen.specs.rules.Book.{with_owner, with_parents};
ghost use Rattle.herd_frozen.specs.freezing.Frozen.{IsFrozenFrom};
ghost use Rattle.herd_frozen.specs.rules.Lawful.{IsLawful};
ghost use Rattle.herd_frozen.specs.rules.ParentFault.{fault_by_records, parent_fault};
ghost use Rattle.herd_frozen.specs.places.Links.{IsLinkAt};
ghost use Rattle.herd_frozen.specs.places.Places.{AreParents, IsIndexIn};
ghost use Rattle.herd_pedigree.specs.Pedigree.{IfShownWith, IsBirth, IsCorrection, IsExit, IsFaultWith, IsFound};
ghost use Rattle.herd_pedigree.specs.Pedigree.{IsPresentOn, TellsTooDeep, birth_record, changed_to, registration};
ghost use Rattle.herd_pedigree.specs.Part.{IsFrozenPart};
ghost use Rattle.herd_pedigree.specs.Pedigree.{unsound};
ghost use Rattle.herd_pedigree.specs.store.Kept.{pushed_if};
ghost use Rattle.herd_pedigree.specs.store.Records.{IsStoredAt, animal_of, set_value_at};
ghost use Rattle.herd_frozen.specs.declared.TheConstants.{DEPTH_LIMIT, MOST_ANIMALS};

use crate::found::Found;
use crate::parents::sound_parents;
use crate::registration::{Newborn, Registration};
use crate::store::ancestors::Ancestors;
use crate::store::correction::Correction;
use crate::store::depth::depth_with;
use crate::store::progeny::Progeny;
use crate::store::records::{Records, StoredRecord};
use crate::store::undo::{Undo, undo_writes};
use herd_animal::{AnimalNumber, Day, Herd};
use herd_frozen::{
    Animal, DEPTH_LIMIT, Frozen, Link, ParentFault, Registered, freeze_list, frozen_from,
};
use std::alloc::{AllocError, Allocator};
use std::marker::Model;

/// The book of a society. It is always lawful.
#[derive(Drop)]
pub struct Pedigree<A: Allocator> {
    // The book itself.
    records: Records<A>,
    sires: Progeny<A>,
    dams: Progeny<A>,
    depths: Vec<u8, A>,
    undo: Undo,
    // The places whose depths the last correction wrote over, with what they were.
    old_depths: Vec<(u32, u8), A>,
}

impl<A: Allocator> Model for Pedigree<A> {
    ghost use Rattle.herd_pedigree.specs.Pedigree.{Pedigree};
    ghost use Rattle.herd_pedigree.specs.store.Undo.{IsHeld, undone_book};
    ghost use Rattle.herd_frozen.specs.declared.TheConstants.{DEPTH_LIMIT, MOST_ANIMALS};

    ghost Value = { Pedigree };

    ghost view = { λ p. record { book = p.records.book; before = undone_book p.undo p.records.book } };

    ghost invariant = { λ p. IsHeld DEPTH_LIMIT MOST_ANIMALS p.records.book p.sires.parents p.dams.parents
        p.depths.items p.old_depths.items p.undo };
}

impl<A: Allocator + Copy> Pedigree<A> {
    /// The empty book. It takes no memory.
    pub fn new(alloc: A) -> Self
        ensures empty { result.book ≡ [] }
        ensures before { result.before ≡ None }
    {
        Pedigree {
            records: Records::new(alloc),
            sires: Progeny::new(alloc),
            dams: Progeny::new(alloc),
            depths: Vec::new(alloc),
            undo: Undo::Nothing,
            old_depths: Vec::new(alloc),
        }
    }

    /// The first fault that an animal with this number, birth day and parents would have, whether it is in the
    /// book or not. The only error is a growth of memory that is refused.
    pub fn check_parents(
        &self,
        number: AnimalNumber,
        birth: Day,
        sire: Option<AnimalNumber>,
        dam: Option<AnimalNumber>,
        embryo: bool,
    ) -> Result<Option<ParentFault>, AllocError>
        ensures fault { IfOk result
            (λ fault. fault ≡ parent_fault DEPTH_LIMIT self.now.book number birth sire dam embryo) }
        // What the parents' records show needs no memory.
        ensures by_records { IfSome (fault_by_records self.now.book birth sire dam embryo)
            (λ fault. result ≡ Ok (Some fault)) }
    {
        let parents = match sound_parents(&self.records, birth, &sire, &dam, embryo) {
            Ok(parents) => parents,
            Err(fault) => return Ok(Some(fault)),
        };
        if self.is_too_deep(&number, parents.sire, parents.dam)? {
            Ok(Some(ParentFault::TooDeep))
        } else {
            Ok(None)
        }
    }

    // Whether some path would be too long, once the animal of the number has the parents at these places.
    fn is_too_deep(
        &self,
        number: &AnimalNumber,
        sire: Option<u32>,
        dam: Option<u32>,
    ) -> Result<bool, AllocError>
        requires sire { IfSome sire (λ place. place < length self.now.book) }
        requires dam { IfSome dam (λ place. place < length self.now.book) }
        ensures { IfOk result (TellsTooDeep DEPTH_LIMIT self.now.book number.now sire dam) }
    {
        let depth = depth_with(&self.depths, sire, dam);
        let Some(place) = self.records.place_of(number) else {
            return Ok(depth > u16::from(DEPTH_LIMIT));
        };
        if depth <= u16::from(self.depths[place]) {
            return Ok(false);
        }
        let correction = Correction {
            sires: &self.sires,
            dams: &self.dams,
            place: place as u32,
            sire,
            dam,
        };
        if correction.has_no_calves() {
            return Ok(depth > u16::from(DEPTH_LIMIT));
        }
        correction.is_too_deep(*self.records.allocator(), &self.depths)
    }

    /// Adds an animal that isn't in the book. The only error is a growth of memory that is refused; then all is as it
    /// was.
    pub fn add(&mut self, number: AnimalNumber, newborn: Newborn) -> Result<(), AllocError>
        requires { IsBirth DEPTH_LIMIT MOST_ANIMALS self.old.book number newborn }
        ensures added { OnOk result
            (self.new ≡ changed_to self.old (self.old.book ++ (number, birth_record newborn) ∷ [])) }
        ensures err { OnErr result (self.new ≡ self.old) }
    {
        // It is added: what is required leaves no other outcome.
        self.add_if_new(number, newborn)?;
        Ok(())
    }

    /// Adds an animal, unless its number is in the book, or its parents have a fault. Its number is looked up once.
    /// The only error is a growth of memory that is refused; then all is as it was.
    pub fn add_if_new(
        &mut self,
        number: AnimalNumber,
        newborn: Newborn,
    ) -> Result<Registration, AllocError>
        requires { length self.old.book < MOST_ANIMALS }
        ensures outcome { IfOk result (λ outcome. outcome ≡ registration DEPTH_LIMIT self.old.book number newborn) }
        // What the records of the number and of the parents show needs no memory.
        ensures there { IsTrue (is_there self.old.book number) → result ≡ Ok Registration.AlreadyThere }
        ensures by_records { IfSome
            (fault_by_records self.old.book newborn.birth newborn.sire newborn.dam newborn.embryo)
            (λ fault. result ≡ Ok (unsound self.old.book number fault)) }
        ensures added { result ≡ Ok Registration.Added
            → self.new ≡ changed_to self.old (self.old.book ++ (number, birth_record newborn) ∷ []) }
        ensures refused { IfOk result (λ outcome. outcome ≢ Registration.Added → self.new ≡ self.old) }
        ensures err { OnErr result (self.new ≡ self.old) }
    {
        let parents = match sound_parents(
            &self.records,
            newborn.birth,
            &newborn.sire,
            &newborn.dam,
            newborn.embryo,
        ) {
            Ok(parents) => parents,
            Err(fault) => return Ok(self.unsound(&number, fault)),
        };
        let depth = depth_with(&self.depths, parents.sire, parents.dam);
        if depth > u16::from(DEPTH_LIMIT) {
            return Ok(self.unsound(&number, ParentFault::TooDeep));
        }
        let new = push_all_if_new(
            &mut self.records,
            &mut self.sires,
            &mut self.dams,
            &mut self.depths,
            (number, newborn),
            parents,
            depth as u8,
        )?;
        if !new {
            return Ok(Registration::AlreadyThere);
        }
        self.undo = Undo::Birth;
        Ok(Registration::Added)
    }

    // What becomes of a birth whose parents have a fault.
    fn unsound(&self, number: &AnimalNumber, fault: ParentFault) -> Registration
        ensures { result ≡ unsound self.now.book number.now fault }
    {
        if self.records.place_of(number).is_some() {
            Registration::AlreadyThere
        } else {
            Registration::Unsound(fault)
        }
    }

    /// Sets both parents of an animal, also to unknown, and carries depths on to its descendants. The only error is a
    /// growth of memory that is refused; then all is as it was.
    pub fn set_parents(
        &mut self,
        number: AnimalNumber,
        sire: Option<AnimalNumber>,
        dam: Option<AnimalNumber>,
    ) -> Result<(), AllocError>
        requires { IsCorrection DEPTH_LIMIT self.old.book number sire dam }
        ensures set { OnOk result
            (self.new ≡ changed_to self.old (changed self.old.book number (with_parents sire dam))) }
        ensures err { OnErr result (self.new ≡ self.old) }
    {
        let found = self.found(&number);
        // They are set: what is required leaves no fault.
        self.set_parents_at_if_sound(&found, sire, dam)?;
        Ok(())
    }

    /// Sets both parents of an animal that was found, also to unknown, unless they have a fault: the first that
    /// `check_parents` tells, asked with the animal's own birth day and embryo flag. The only error is a growth of
    /// memory that is refused; then all is as it was.
    pub fn set_parents_at_if_sound(
        &mut self,
        found: &Found,
        sire: Option<AnimalNumber>,
        dam: Option<AnimalNumber>,
    ) -> Result<Option<ParentFault>, AllocError>
        requires { IsFound self.old.book found.now }
        ensures fault { IfOk result (IsFaultWith DEPTH_LIMIT self.old.book found.now.number sire dam) }
        // What the parents' records show needs no memory.
        ensures by_records { IfShownWith self.old.book found.now.number sire dam (λ fault. result ≡ Ok (Some fault)) }
        ensures set { result ≡ Ok None
            → self.new ≡ changed_to self.old (changed self.old.book found.now.number (with_parents sire dam)) }
        ensures refused { IfOk result (λ fault. IsSome fault → self.new ≡ self.old) }
        ensures err { OnErr result (self.new ≡ self.old) }
    {
        let was = self.records.stored_at(found.place as usize);
        match sound_parents(&self.records, was.birth, &sire, &dam, was.embryo) {
            Ok(parents) => self.set_parents_unless_too_deep(found, was, &sire, &dam, parents),
            Err(fault) => Ok(Some(fault)),
        }
    }

    // Sets the parents of an animal that was found, unless some path would be too long. `was` is what is kept of it,
    // and `parents` has the places of the two.
    fn set_parents_unless_too_deep(
        &mut self,
        found: &Found,
        was: StoredRecord,
        sire: &Option<AnimalNumber>,
        dam: &Option<AnimalNumber>,
        parents: Link,
    ) -> Result<Option<ParentFault>, AllocError>
        requires found { IsFound self.old.book found.now }
        requires stored { IsStoredAt self.old.book found.now.place was }
        requires sound { fault_by_records self.old.book was.birth sire.now dam.now was.embryo ≡ None }
        requires sire { IsIndexIn (keys_of self.old.book) parents.sire sire.now }
        requires dam { IsIndexIn (keys_of self.old.book) parents.dam dam.now }
        ensures fault { IfOk result (IsFaultWith DEPTH_LIMIT self.old.book found.now.number sire.now dam.now) }
        ensures set { result ≡ Ok None
            → self.new ≡ changed_to self.old (changed self.old.book found.now.number (with_parents sire.now dam.now)) }
        ensures refused { IfOk result (λ fault. IsSome fault → self.new ≡ self.old) }
        ensures err { OnErr result (self.new ≡ self.old) }
    {
        let place = found.place;
        let correction = Correction {
            sires: &self.sires,
            dams: &self.dams,
            place,
            sire: parents.sire,
            dam: parents.dam,
        };
        let alloc = *self.records.allocator();
        let Some(log) = correction.carry_if_shallow(alloc, &mut self.depths)? else {
            return Ok(Some(ParentFault::TooDeep));
        };
        self.old_depths = log;
        self.records.write(place as usize, was.with_parents(parents.sire, parents.dam));
        self.sires.set(place, parents.sire);
        self.dams.set(place, parents.dam);
        self.undo = Undo::Record { place, was };
        Ok(None)
    }
}

impl<A: Allocator> Pedigree<A> {
    /// The record of an animal.
    #[inline(always)]
    pub fn get(&self, number: &AnimalNumber) -> Option<Animal>
        ensures { result ≡ record_of self.now.book number.now }
    {
        self.records.get(number)
    }

    /// How many animals are in the book.
    pub fn len(&self) -> u32
        ensures { result ≡ length self.now.book }
    {
        self.records.len() as u32
    }

    /// Whether no animal is in the book.
    pub fn is_empty(&self) -> bool
        ensures { result ≡ (length self.now.book == 0) }
    {
        self.records.len() == 0
    }

    /// The number of parent steps on an animal's longest known path. It also tells that the book is lawful, so that
    /// no depth is above the limit.
    pub fn depth(&self, number: &AnimalNumber) -> Option<u8>
        ensures lawful { IsLawful DEPTH_LIMIT MOST_ANIMALS self.now.book }
        ensures absent { IfNone result (record_of self.now.book number.now ≡ None) }
        ensures there { IfSome result (λ _. IsSome (record_of self.now.book number.now)) }
        ensures depth { IfSome result (IsDepthOf self.now.book number.now) }
    {
        let place = self.records.place_of(number)?;
        Some(self.depths[place])
    }

    /// The animal of a number, for the calls that end in `_at`: they don't look the number up again. It also tells
    /// that the book is lawful, as `depth` does.
    #[inline(always)]
    pub fn find(&self, number: &AnimalNumber) -> Option<Found>
        ensures lawful { IsLawful DEPTH_LIMIT MOST_ANIMALS self.now.book }
        ensures absent { IfNone result (record_of self.now.book number.now ≡ None) }
        ensures number { IfSome result (λ found. found.number ≡ number.now) }
        ensures found { IfSome result (IsFound self.now.book) }
    {
        let place = self.records.place_of(number)?;
        Some(Found {
            number: *number,
            place: place as u32,
        })
    }

    // The animal of a number that is in the book.
    fn found(&self, number: &AnimalNumber) -> Found
        requires { IsSome (record_of self.now.book number.now) }
        ensures number { result.number ≡ number.now }
        ensures found { IsFound self.now.book result }
    {
        match self.find(number) {
            Some(found) => found,
            None => unreachable!(),
        }
    }

    /// The record of an animal that was found.
    #[inline(always)]
    pub fn animal_at(&self, found: &Found) -> Animal
        requires { IsFound self.now.book found.now }
        ensures { record_of self.now.book found.now.number ≡ Some result }
    {
        self.records.animal_at(found.place as usize)
    }

    /// The places of the parents of the animal at a place, if there is one.
    #[inline(always)]
    pub fn link_at(&self, place: u32) -> Option<Link>
        ensures link { IfSome result (IsLinkAt self.now.book place) }
        ensures none { IfNone result (length self.now.book ≤ place) }
    {
        if (place as usize) < self.records.len() {
            Some(self.records.link_at(place as usize))
        } else {
            None
        }
    }

    /// Whether an animal is the dam of one born after the day. Calves from stored embryos don't count.
    pub fn calved_after(&self, number: &AnimalNumber, day: Day) -> bool
        ensures { result ≡ has_calved_after self.now.book number.now day }
    {
        match self.find(number) {
            Some(found) => self.calved_after_at(&found, day),
            None => false,
        }
    }

    /// Whether an animal that was found is the dam of one born after the day, as `calved_after` says.
    pub fn calved_after_at(&self, found: &Found, day: Day) -> bool
        requires { IsFound self.now.book found.now }
        ensures { result ≡ has_calved_after self.now.book found.now.number day }
    {
        for calf in self.dams.calves(found.place) {
            let calf = self.records.animal_at(calf as usize);
            if !calf.embryo && day < calf.birth {
                return true;
            }
        }
        false
    }

    /// Sets the herd that owns an animal, and the day from which it does. It takes no memory.
    pub fn set_owner(&mut self, number: AnimalNumber, herd: Herd, day: Day)
        requires { IsPresentOn self.old.book number day }
        ensures { self.new ≡ changed_to self.old (changed self.old.book number (with_owner herd day)) }
    {
        let found = self.found(&number);
        self.set_owner_at(&found, herd, day);
    }

    /// Sets the owner of an animal that was found, as `set_owner` does.
    pub fn set_owner_at(&mut self, found: &Found, herd: Herd, day: Day)
        requires found { IsFound self.old.book found.now }
        requires present { IsPresentOn self.old.book found.now.number day }
        ensures { self.new ≡ changed_to self.old (changed self.old.book found.now.number (with_owner herd day)) }
    {
        let was = self.records.stored_at(found.place as usize);
        self.set_record(found.place, was, was.with_owner(herd, day));
    }

    /// Sets the day on which an animal left. It takes no memory.
    pub fn set_left(&mut self, number: AnimalNumber, day: Day)
        requires { IsExit self.old.book number day }
        ensures { self.new ≡ changed_to self.old (changed self.old.book number (with_left day)) }
    {
        let found = self.found(&number);
        self.set_left_at(&found, day);
    }

    /// Sets the day on which an animal that was found left. It takes no memory.
    pub fn set_left_at(&mut self, found: &Found, day: Day)
        requires found { IsFound self.old.book found.now }
        requires exit { IsExit self.old.book found.now.number day }
        ensures { self.new ≡ changed_to self.old (changed self.old.book found.now.number (with_left day)) }
    {
        let was = self.records.stored_at(found.place as usize);
        self.set_record(found.place, was, was.with_left(day));
    }

    // Writes what is kept at a place, where the parents stay.
    fn set_record(&mut self, place: u32, was: StoredRecord, becomes: StoredRecord)
        requires within { place < length self.old.book }
        requires stored { IsStoredAt self.old.book place was }
        requires sire { becomes.sire ≡ was.sire }
        requires dam { becomes.dam ≡ was.dam }
        requires lawful { IsLawful DEPTH_LIMIT MOST_ANIMALS
            (set_value_at self.old.book place (animal_of (keys_of self.old.book) becomes)) }
        ensures { self.new
            ≡ changed_to self.old (set_value_at self.old.book place (animal_of (keys_of self.old.book) becomes)) }
    {
        self.records.write(place as usize, becomes);
        self.undo = Undo::Record { place, was };
        self.old_depths.clear();
    }

    /// Whether there is a change that can be taken back: true after each change, false after `new` and `take_back`.
    pub fn can_take_back(&self) -> bool
        ensures { result ≡ is_some self.now.before }
    {
        match self.undo {
            Undo::Nothing => false,
            Undo::Birth | Undo::Record { .. } => true,
        }
    }

    /// Takes the last change back. It takes no memory.
    pub fn take_back(&mut self)
        requires { IsSome self.old.before }
        ensures book { self.old.before ≡ Some self.new.book }
        ensures before { self.new.before ≡ None }
    {
        let undo = self.undo;
        self.undo = Undo::Nothing;
        match undo {
            Undo::Nothing => unreachable!(),
            Undo::Birth => {
                self.records.pop();
                self.sires.pop();
                self.dams.pop();
                let _ = self.depths.pop();
            }
            Undo::Record { place, was } => {
                let parents = was.parents();
                self.records.write(place as usize, was);
                self.sires.set(place, parents.sire);
                self.dams.set(place, parents.dam);
                undo_writes(&mut self.depths, &mut self.old_depths);
            }
        }
    }

    /// The book in age order. The only error is a growth of memory that is refused.
    pub fn freeze<B: Allocator + Clone>(&self, alloc: B) -> Result<Frozen<B>, AllocError>
        ensures { IfOk result (IsFrozenFrom DEPTH_LIMIT MOST_ANIMALS self.now.book) }
    {
        frozen_from(alloc, &self.records)
    }

    /// The book of some animals and of all their known ancestors, in age order: all that a certificate, a coefficient
    /// or a relationship of these animals needs. A number that isn't in the book is passed over. It goes through
    /// these animals alone, and takes nine bytes for each animal of the book. The only error is a growth of memory
    /// that is refused.
    pub fn freeze_ancestors<B: Allocator + Clone>(
        &self,
        alloc: B,
        numbers: &[AnimalNumber],
    ) -> Result<Frozen<B>, AllocError>
        ensures { IfOk result (IsFrozenPart DEPTH_LIMIT MOST_ANIMALS self.now.book numbers.now) }
    {
        let room = Ancestors::with_room(alloc.clone()?, self.records.len())?;
        let found = room.search(&self.records, numbers)?;
        let part = found.records(Vec::new(alloc.clone()?), &self.records)?;
        freeze_list(alloc, &part)
    }
}

// Adds an animal to the records, and its parents and its depth to what stands beside them, unless its number is there,
// and returns whether it was new. The only error is a growth of memory that is refused; then all is as it was, and the
// number isn't there.
// Inlined: a record isn't copied on its way.
#[inline(always)]
fn push_all_if_new<A: Allocator>(
    records: &mut Records<A>,
    sires: &mut Progeny<A>,
    dams: &mut Progeny<A>,
    depths: &mut Vec<u8, A>,
    entry: (AnimalNumber, Newborn),
    parents: Link,
    depth: u8,
) -> Result<bool, AllocError>
    requires few { length records.old.book < MOST_ANIMALS }
    requires sires { AreParents records.old.book (λ animal. animal.sire) sires.old.parents }
    requires dams { AreParents records.old.book (λ animal. animal.dam) dams.old.parents }
    requires sire { IsIndexIn (keys_of records.old.book) parents.sire entry.1.sire }
    requires dam { IsIndexIn (keys_of records.old.book) parents.dam entry.1.dam }
    ensures new { IfOk result (λ new. new ≡ not (is_there records.old.book entry.0)) }
    ensures absent { OnErr result (record_of records.old.book entry.0 ≡ None) }
    ensures records { records.new.book ≡ pushed_if result records.old.book (entry.0, birth_record entry.1) }
    ensures sires { sires.new.parents ≡ pushed_if result sires.old.parents parents.sire }
    ensures dams { dams.new.parents ≡ pushed_if result dams.old.parents parents.dam }
    ensures depths { depths.new.items ≡ pushed_if result depths.old.items depth }
{
    let (number, newborn) = entry;
    if let Err(refused) = make_room(depths, sires, dams) {
        return match records.place_of(&number) {
            Some(_) => Ok(false),
            None => Err(refused),
        };
    }
    let new = records.push_if_new(number, newborn, parents.sire, parents.dam)?;
    if new {
        depths.push_reserved(depth);
        sires.push(parents.sire);
        dams.push(parents.dam);
    }
    Ok(new)
}

// Makes room for one more animal beside its record.
fn make_room<A: Allocator>(
    depths: &mut Vec<u8, A>,
    sires: &mut Progeny<A>,
    dams: &mut Progeny<A>,
) -> Result<(), AllocError>
    ensures depths { depths.new.items ≡ depths.old.items }
    ensures sires { sires.new.parents ≡ sires.old.parents }
    ensures dams { dams.new.parents ≡ dams.old.parents }
    ensures depths_room { OnOk result (vec_len depths.new < vec_capacity depths.new) }
    ensures sires_room { OnOk result (0 < sires.new.room) }
    ensures dams_room { OnOk result (0 < dams.new.room) }
{
    depths.reserve(1)?;
    sires.reserve()?;
    dams.reserve()
}
