ghost use Rattle.std.specs.Prelude.{◌≡◌, ◌+◌, ◌<◌, ◌≤◌, ◌↔◌, ◌++◌, ◌∷◌, [], if◌then◌else◌, is_ok, length, max, min};
ghost use Rattle.std.specs.Prelude.{IfOk, IsOk, IsTrue, List, OnOk, vec_capacity, vec_len};
ghost use Rattle.herd_frozen.specs.freezing.Frozen.{IsFrozenFrom};
ghost use Rattle.herd_frozen.specs.rules.Lawful.{IsLawful};
ghost use Rattle.herd_frozen.specs.declared.TheConstants.{DEPTH_LIMIT, MOST_ANIMALS};
ghost use Rattle.herd_register.specs.Change.{IsLastChange, changed_by};
ghost use Rattle.herd_register.specs.Copybook.{HasRunBook, copy_of, copybook_of, taken_over};
ghost use Rattle.herd_register.specs.Limits.{Limits};
ghost use Rattle.herd_register.specs.Run.{run_book};
ghost use Rattle.herd_register.specs.declared.command.Command.{Command};
ghost use Rattle.herd_register.specs.declared.step.Step.{Step};
ghost use Rattle.herd_register.specs.declared.copybook.TheConstants.{FIRST_ROOM};

use crate::change::Change;
use crate::limits::Limits;
use herd_animal::AnimalNumber;
use herd_frozen::{Animal, Frozen, LinkHint, freeze_hinted};
use std::alloc::{AllocError, Allocator};
use std::marker::Model;

// For how many records a copy makes room at first.
const FIRST_ROOM: usize = 1024;

/// What readers see of a register: its records, and how many steps it has.
#[derive(Drop)]
pub struct Copybook<A: Allocator> {
    limits: Limits,
    records: Vec<(AnimalNumber, Animal), A>,
    // Where the parents of each record are expected.
    hints: Vec<LinkHint, A>,
    steps: u32,
}

impl<A: Allocator> Model for Copybook<A> {
    ghost use Rattle.std.specs.Prelude.{◌≡◌, length};
    ghost use Rattle.herd_register.specs.Copybook.{Copybook, IsCopybook, copybook_of};

    ghost Value = { Copybook };

    ghost view = { λ c. copybook_of c.limits c.records.items c.steps };

    ghost invariant = { λ c. IsCopybook (copybook_of c.limits c.records.items c.steps)
        × (length c.hints.items ≡ length c.records.items) };
}

impl<A: Allocator + Copy> Copybook<A> {
    /// A copy of a register in which nothing was filed. It takes no memory.
    pub fn new(alloc: A, limits: Limits) -> Self
        ensures { result ≡ copybook_of limits [] 0 }
    {
        Copybook {
            limits,
            records: Vec::new(alloc),
            hints: Vec::new(alloc),
            steps: 0,
        }
    }
}

impl<A: Allocator> Copybook<A> {
    /// Makes room for as many records again, as far as the limits allow them. Where that growth is refused it has the
    /// room that it had.
    pub fn make_room(&mut self) -> Result<(), AllocError>
        ensures { self.new ≡ self.old }
    {
        let most = self.limits.animals as usize;
        make_room_in(&mut self.records, most)?;
        make_room_in(&mut self.hints, most)
    }

    /// For how many records it has room in all.
    pub fn room(&self) -> usize
        ensures { length self.now.book ≤ result }
    {
        self.records.capacity().min(self.hints.capacity())
    }

    /// Whether it has as many records as the limits allow, and so takes over no more of them.
    pub fn is_full(&self) -> bool
        ensures { IsTrue result ↔ (self.now.limits.animals ≤ length self.now.book) }
    {
        self.limits.animals as usize <= self.records.len()
    }

    /// Takes over a step that made this change; a full copy takes none. It takes memory for a record more alone, and
    /// only where the room that was made is used up. Where that is refused, the copy is as it was.
    ///
    /// The copy of a register that takes over its last change is the copy of that register again (`laws::copies`).
    pub fn take_over(&mut self, change: &Change) -> Result<(), AllocError>
        ensures taken { self.new ≡ (if is_ok result then taken_over self.old change.now else self.old) }
        ensures copied { (limits : Limits) (earlier : List Step) (last : Step) → IsOk result
            → self.old ≡ copy_of limits earlier → length earlier < limits.steps
            → IsLastChange limits (earlier ++ last ∷ []) change.now → self.new ≡ copy_of limits (earlier ++ last ∷ []) }
    {
        let Copybook {
            limits,
            records,
            hints,
            steps,
        } = self;
        if limits.are_reached_by(*steps as usize) {
            return Ok(());
        }
        make(records, hints, limits.animals, change)?;
        *steps += 1;
        Ok(())
    }

    /// How many steps were taken over.
    pub fn steps(&self) -> u64
        ensures steps { result ≡ self.now.steps }
        ensures room { result ≤ self.now.limits.steps }
    {
        u64::from(self.steps)
    }

    /// The records in the order of registration. They are lawful where they are those of commands.
    pub fn records(&self) -> &[(AnimalNumber, Animal)]
        ensures value { result.now ≡ self.now.book }
        ensures lawful { (commands : List Command) → self.now.book ≡ run_book self.now.limits commands
            → IsLawful DEPTH_LIMIT MOST_ANIMALS result.now }
    {
        self.records.as_slice()
    }

    /// Where the parents of each record are expected, as the changes told. A register's own changes tell where they
    /// stand, by reading: no clause says so.
    pub fn hints(&self) -> &[LinkHint]
        ensures { length result.now ≡ length self.now.book }
    {
        self.hints.as_slice()
    }

    /// The book in age order. The only error is a growth of memory that is refused. Where a parent doesn't stand where
    /// it is expected, all are looked up by their numbers: never after a register's own changes, by reading.
    pub fn freeze<B: Allocator + Clone>(&self, alloc: B) -> Result<Frozen<B>, AllocError>
        requires { HasRunBook self.now }
        ensures { IfOk result (IsFrozenFrom DEPTH_LIMIT MOST_ANIMALS self.now.book) }
    {
        freeze_hinted(alloc, self.records(), self.hints())
    }
}

// Makes room for as many elements again as there are, at first for `FIRST_ROOM`, where there may be so many.
fn make_room_in<T, A: Allocator>(elements: &mut Vec<T, A>, most: usize) -> Result<(), AllocError>
    ensures items { elements.new.items ≡ elements.old.items }
    ensures room { OnOk result (min (length elements.old.items + max (length elements.old.items) FIRST_ROOM) most
        ≤ vec_capacity elements.new) }
{
    let count = elements.len();
    let rest = most.saturating_sub(count);
    elements.reserve_exact(count.max(FIRST_ROOM).min(rest))
}

// Makes a change of records, of which there may be so many, and of the hints beside them.
fn make<A: Allocator>(
    records: &mut Vec<(AnimalNumber, Animal), A>,
    hints: &mut Vec<LinkHint, A>,
    most: u32,
    change: &Change,
) -> Result<(), AllocError>
    requires { length hints.old.items ≡ length records.old.items }
    ensures items { records.new.items ≡ (if is_ok result then changed_by most records.old.items change.now
        else records.old.items) }
    ensures hints { length hints.new.items ≡ length records.new.items }
    ensures room { vec_len records.old < vec_capacity records.old → vec_len hints.old < vec_capacity hints.old
        → IsOk result }
{
    match *change {
        Change::Nothing => {}
        Change::Added(number, animal, hint) => {
            if records.len() < most as usize {
                records.reserve(1)?;
                hints.push(hint)?;
                records.push_reserved((number, animal));
            }
        }
        Change::Set(place, animal, hint) => {
            if let Some(record) = records.get_mut(place as usize) {
                record.1 = animal;
                hints[place as usize] = hint;
            }
        }
    }
    Ok(())
}
