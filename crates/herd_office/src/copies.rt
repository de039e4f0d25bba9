//! The writer of the readers' copies, as the office uses it.
ghost use Rattle.std.specs.Prelude.{◌≡◌, ◌<◌, ◌≤◌, ◌⊎◌, ◌↔◌, [], ◌∷◌, length, Some, IfErr, IfOk, IsTrue};
ghost use Rattle.left_right.specs.Sides.{view};
ghost use Rattle.herd_office.specs.Copies.{IsTold, absorbed, office_of};
ghost use Rattle.herd_office.specs.Shelves.{AreOf, after, pending, published};

use crate::faults::OpenFault;
use crate::history::Past;
use crate::shown::{CopyUpdate, Ours, Publishes, Shown, View};
use core::mem;
use herd_register::Change;
use left_right::reader::Reader;
use left_right::writer::Writer;
use std::alloc::{AllocError, Global};
use std::sync::Wait;

/// Who changes the copies and shows them: it lies under the office's lock, since there is one for all desks.
pub type Copies = Writer<Shown, CopyUpdate, View, Ours>;

/// A seat at the copies, from which an inspector reads: each inspector has one.
pub type Seat = Reader<Shown, View, Ours>;

/// The writer of an office, with the handle by which its drop waits for readers before it frees both copies.
pub struct Held<R: Wait + Drop> {
    pub writer: Copies,
    rt: R,
    // For how many records there is room in both copies.
    room: usize,
}

impl<R: Wait + Drop> Drop for Held<R> {
    fn drop(self) {
        let Self {
            writer,
            rt,
            room: _,
        } = self;
        drop(writer.take(&rt));
    }
}

impl<R: Wait + Drop> Held<R> {
    /// The handle is kept for the drop alone: calls that publish or free the copies take one of their own.
    pub fn new(rt: R, writer: Copies) -> Held<R>
        ensures { result.writer ≡ writer }
    {
        Held {
            writer,
            rt,
            room: 0,
        }
    }

    /// Frees both copies, and waits by this handle for readers that are in one.
    pub fn free<W: Wait>(self, rt: &W) {
        let Held {
            writer,
            rt: _own,
            room: _,
        } = self;
        drop(writer.take(rt));
    }

    /// Sees that both copies have room for a record more, so that they take no memory for it once a step is stored.
    /// Readers see what they saw. The only error is a growth of memory that is refused.
    pub fn make_room<W: Wait>(&mut self, rt: &W) -> Result<(), AllocError>
        requires { pending self.old.writer ≡ [] }
        ensures published { published self.new.writer ≡ published self.old.writer }
        ensures pending { pending self.new.writer ≡ [] }
    {
        if self.has_room() {
            return Ok(());
        }
        // Each publish shows the other copy.
        let first = room_of_next(rt, &mut self.writer)?;
        let second = room_of_next(rt, &mut self.writer)?;
        self.room = first.min(second);
        if self.has_room() {
            Ok(())
        } else {
            Err(AllocError)
        }
    }

    // Whether both copies have room for a record more, or the limits allow none.
    fn has_room(&self) -> bool
        ensures { IsTrue result ↔ ((published self.now.writer).copybook.limits.animals
            ≤ length (published self.now.writer).copybook.book)
            ⊎ (length (published self.now.writer).copybook.book < self.now.room) }
    {
        let copybook = &self.writer.published().copybook;
        copybook.is_full() || copybook.records().len() < self.room
    }
}

/// A pair of these copies, with so many seats for readers.
pub fn make_copies<R: Wait>(
    rt: &R,
    alloc: Global,
    first: Shown,
    second: Shown,
    readers: u16,
) -> Result<Copies, OpenFault>
    requires readers { 0 < readers }
    requires told { IsTold first }
    requires alike { first ≡ second }
    ensures published { IfOk result (λ c. published c ≡ first) }
    ensures pending { IfOk result (λ c. pending c ≡ []) }
    ensures view { IfOk result (λ c. view c.desk.place ≡ Some (office_of first.past)) }
    ensures fault { IfErr result (λ fault. fault ≡ OpenFault.Memory) }
{
    let copies = Writer::new(alloc, first, second, usize::from(readers))?;
    // By a publish of nothing the writer knows the office.
    Ok(publish(copies, rt).0)
}

// Has the copy that isn't shown make room, and shows it. For how many records it then has room.
fn room_of_next<R: Wait>(rt: &R, copies: &mut Copies) -> Result<usize, AllocError>
    requires { pending copies.old ≡ [] }
    ensures published { published copies.new ≡ published copies.old }
    ensures pending { pending copies.new ≡ [] }
{
    copies.append(CopyUpdate::Room).map_err(|_| AllocError)?;
    mem::replace_with(copies, rt, publish::<R>);
    Ok(copies.published().copybook.room())
}

/// Shows readers a copy to which every appended update was applied. Nothing is told beside the copies: a pair is what
/// `mem::replace_with` asks for.
///
/// An update fails only where a copy is refused memory for a record. Who appends one has made the room before
/// (`Held::make_room`), so that the first try succeeds, by reading: no clause says so.
pub fn publish<R: Wait>(copies: Copies, rt: &R) -> (Copies, ())
    requires office { office_of (after (published copies) (pending copies)).past ≡ office_of (published copies).past }
    requires told { IsTold (published copies) → IsTold (after (published copies) (pending copies)) }
    ensures published { published result.0 ≡ after (published copies) (pending copies) }
    ensures pending { pending result.0 ≡ [] }
    ensures view { view result.0.desk.place ≡ Some (office_of (published result.0).past) }
{
    let mut held = copies;
    for _ in rt.forever() {
        match held.publish_as::<Publishes, R>(rt) {
            (shown, Ok(())) => return (shown, ()),
            (unshown, Err(_)) => held = unshown,
        }
    }
    unreachable!()
}

/// Publishes the change that is pending, with the history that has its step.
pub fn show<R: Wait>(rt: &R, copies: &mut Copies, change: &Change, past: Past)
    requires pending { pending copies.old ≡ CopyUpdate.Filed change.now ∷ [] }
    requires shown { AreOf (absorbed (published copies.old) (CopyUpdate.Filed change.now)) past.seen.log past.limits
        past.seen.book }
    ensures shown { AreOf (published copies.new) past.seen.log past.limits past.seen.book }
    ensures pending { pending copies.new ≡ [] }
{
    // Where there is no memory for it, readers get no reading until a later history is told.
    let _ = copies.append(CopyUpdate::Told(past));
    mem::replace_with(copies, rt, publish::<R>);
}
