//! An office, and how it is opened and closed.
ghost use Rattle.std.specs.Prelude.{◌≡◌, ◌<◌, ◌≤◌, ◌↔◌, vec_len, IfOk, IfErr, IfSome, IsNone};
ghost use Rattle.herd_office.specs.Opening.{AreFresh, HaveSeenNothing};
ghost use Rattle.herd_office.specs.Parts.{AreNamed};

use crate::desk::Desk;
use crate::desks::{make_desks, share_of_all};
use crate::faults::{CloseFault, OpenFault};
use crate::inside::Inside;
use crate::inspector::{Inspector, make_inspectors};
use crate::keeper::Keeper;
use crate::name::OfficeName;
use crate::parts::OfficeParts;
use herd_register::Register;
use std::alloc::{Allocator, Global};
use std::marker::PhantomData;
use std::sync::{Mutex, Wait};

/// An office that is open.
#[derive(Drop)]
pub struct Office<N: OfficeName, R: Wait + Drop, A: Allocator = Global> {
    pub(crate) inside: Mutex<Inside<N, R, A>>,
    staff: Staff<N>,
}

impl<N: OfficeName, R: Wait + Drop, A: Allocator + Copy> Office<N, R, A> {
    ghost use Rattle.herd_office.specs.Closing.{IsClosed, IsUnclosed};

    /// Opens the office that has these parts.
    ///
    /// `Memory` is told where a growth of memory is refused, and `NoPlace` where the readers' copies have no seat for
    /// an inspector. They were made with one for each, and no office is known to meet it.
    pub fn open(
        alloc: A,
        parts: OfficeParts<R>,
    ) -> Result<(Office<N, R, A>, Vec<Desk<N>, A>, Vec<Inspector<N>, A>), OpenFault>
        requires named { AreNamed N.OfficeName parts }
        ensures desks_due { IfOk result (λ r. r.0.staff.desks ≡ parts.desks) }
        ensures inspectors_due { IfOk result (λ r. r.0.staff.inspectors ≡ parts.inspectors) }
        ensures desks { IfOk result (λ r. vec_len r.1 ≡ parts.desks) }
        ensures fresh { IfOk result (λ r. AreFresh r.1.items) }
        ensures inspectors { IfOk result (λ r. vec_len r.2 ≡ parts.inspectors) }
        ensures unseen { IfOk result (λ r. HaveSeenNothing r.2.items) }
    {
        let OfficeParts {
            blank,
            opened,
            mut copies,
            limits,
            desks: desk_count,
            inspectors: inspector_count,
        } = parts;
        let (ledger, mut rest) = blank.open::<N>();
        let keeper = Keeper::<N>::new(opened);
        let desks = make_desks(alloc, desk_count, &mut rest, &keeper.history)?;
        let inspectors = make_inspectors(
            alloc,
            inspector_count,
            &mut copies.writer,
            &keeper.history,
        )?;
        let inside = Inside {
            register: Register::new(alloc, limits),
            ledger,
            rest,
            keeper,
            copies,
        };
        let office = Office::of(inside, Staff::new(desk_count, inspector_count));
        Ok((office, desks, inspectors))
    }

    // The office of what lies under its lock.
    fn of(inside: Inside<N, R, A>, staff: Staff<N>) -> Office<N, R, A>
        ensures { result.staff ≡ staff }
    {
        Office {
            inside: Mutex::new(inside),
            staff,
        }
    }

    /// Gives the register back, once each desk and each inspector is handed in. Else it gives back what was handed in.
    ///
    /// `DeskMissing` is told exactly where there are fewer desks than were opened, and `InspectorMissing` where there
    /// are enough desks and fewer inspectors than were opened. `NoReading` is told where a history isn't a beginning of
    /// the journal, or two desks have one number: no office is known to meet it.
    pub fn close<W: Wait>(
        self,
        rt: &W,
        desks: Vec<Desk<N>, A>,
        inspectors: Vec<Inspector<N>, A>,
    ) -> Result<Register<A>, Unclosed<N, R, A>>
        ensures closed { IfOk result (IsClosed N.limits desks.items inspectors.items) }
        ensures all_in { IfOk result
            (λ _. (self.staff.desks ≤ vec_len desks) × (self.staff.inspectors ≤ vec_len inspectors)) }
        ensures unclosed { IfErr result (IsUnclosed self desks.items inspectors.items) }
    {
        if let Some(cause) = self.staff.missing(desks.len(), inspectors.len()) {
            return Err(Unclosed {
                cause,
                office: self,
                desks,
                inspectors,
            });
        }
        let Office { inside, staff } = self;
        let mut inside = inside.into_inner();
        if !inside.begins(desks.as_slice(), inspectors.as_slice()) {
            return Err(Unclosed {
                cause: CloseFault::NoReading,
                office: Office::of(inside, staff),
                desks,
                inspectors,
            });
        }
        let all = share_of_all(desks, &mut inside.rest);
        Ok(inside.end(rt, all))
    }
}

/// An office that was not closed, with all that was handed in.
#[derive(Drop)]
pub struct Unclosed<N: OfficeName, R: Wait + Drop, A: Allocator = Global> {
    /// Why it was not closed.
    pub cause: CloseFault,
    /// The office, which is still open.
    pub office: Office<N, R, A>,
    /// All desks that were handed in.
    pub desks: Vec<Desk<N>, A>,
    /// All inspectors that were handed in.
    pub inspectors: Vec<Inspector<N>, A>,
}

/// How many desks and inspectors an office was opened with. The ledger of its name has a part for each desk.
#[derive(Drop)]
pub(crate) struct Staff<N: OfficeName> {
    desks: u16,
    inspectors: u16,
    of: PhantomData<N>,
    pub ghost one_each: { desks ≡ N.parts },
}

impl<N: OfficeName> Staff<N> {
    /// The staff of an office that is opened with so many.
    pub fn new(desks: u16, inspectors: u16) -> Staff<N>
        requires { desks ≡ N.parts }
        ensures desks { result.desks ≡ desks }
        ensures inspectors { result.inspectors ≡ inspectors }
    {
        Staff {
            desks,
            inspectors,
            of: PhantomData,
        }
    }

    /// Who was opened and isn't among so many desks and inspectors: a desk is told before an inspector.
    pub fn missing(&self, desks: usize, inspectors: usize) -> Option<CloseFault>
        ensures none { IsNone result ↔ ((self.now.desks ≤ desks) × (self.now.inspectors ≤ inspectors)) }
        ensures desk { IfSome result (λ cause. (cause ≡ CloseFault.DeskMissing) ↔ (desks < self.now.desks)) }
        ensures inspector { IfSome result (λ cause. (cause ≡ CloseFault.InspectorMissing)
            ↔ ((self.now.desks ≤ desks) × (inspectors < self.now.inspectors))) }
    {
        if desks < usize::from(self.desks) {
            return Some(CloseFault::DeskMissing);
        }
        if inspectors < usize::from(self.inspectors) {
            return Some(CloseFault::InspectorMissing);
        }
        None
    }
}
