//! What an office has before it has a name.
ghost use Rattle.std.specs.Prelude.{◌≡◌, ◌<◌, ◌≤◌, [], Some, IfOk, IfErr};
ghost use Rattle.left_right.specs.Sides.{view as seat_view};
ghost use Rattle.herd_office.specs.Copies.{office_of};
ghost use Rattle.herd_office.specs.Shelves.{empty_copy, pending, published};
ghost use Rattle.herd_office.specs.declared.limits.TheConstants.{MOST_DESKS, MOST_INSPECTORS};

use crate::copies::{Held, make_copies};
use crate::faults::OpenFault;
use crate::history::Opened;
use crate::shown::Shown;
use herd_register::Limits;
use std::alloc::Global;
use std::marker::Model;
use std::sync::Wait;
use std::sync::ledger::Blank;

/// What an office has before it has a name: its ledger, its empty history, and empty copies for readers.
#[derive(Drop)]
pub struct OfficeParts<R: Wait + Drop> {
    pub(crate) blank: Blank,
    pub(crate) opened: Opened,
    pub(crate) copies: Held<R>,
    pub(crate) limits: Limits,
    pub(crate) desks: u16,
    pub(crate) inspectors: u16,
    ghost one_each: { blank.parts ≡ desks },
    ghost some: { 0 < inspectors },
    ghost same_limits: { opened.past.limits ≡ limits },
    ghost shown: { published copies.writer ≡ empty_copy limits opened.past },
    ghost settled: { pending copies.writer ≡ [] },
    ghost ours: { seat_view copies.writer.desk.place ≡ Some (office_of opened.past) },
}

impl<R: Wait + Drop> Model for OfficeParts<R> {
    ghost use Rattle.herd_office.specs.Parts.{Parts, parts_of};

    ghost Value = { Parts };

    ghost view = { λ p. parts_of p.blank.name p.opened.past.seen.book p.limits p.desks p.inspectors };
}

impl<R: Wait + Drop> OfficeParts<R> {
    /// Parts for an office of so many desks and inspectors. The only error is a growth of memory that is refused.
    pub fn new(
        rt: R,
        alloc: Global,
        limits: Limits,
        desks: u16,
        inspectors: u16,
    ) -> Result<OfficeParts<R>, OpenFault>
        requires desks { (1 ≤ desks) × (desks ≤ MOST_DESKS) }
        requires inspectors { (1 ≤ inspectors) × (inspectors ≤ MOST_INSPECTORS) }
        ensures limits { IfOk result (λ parts. parts.limits ≡ limits) }
        ensures desks { IfOk result (λ parts. parts.desks ≡ desks) }
        ensures inspectors { IfOk result (λ parts. parts.inspectors ≡ inspectors) }
        ensures fault { IfErr result (λ fault. fault ≡ OpenFault.Memory) }
    {
        let opened = Opened::new(limits);
        let first = Shown::new(alloc, limits, &opened.past);
        let second = Shown::new(alloc, limits, &opened.past);
        let writer = make_copies(&rt, alloc, first, second, inspectors)?;
        Ok(OfficeParts {
            blank: Blank::new(u64::from(desks)),
            opened,
            copies: Held::new(rt, writer),
            limits,
            desks,
            inspectors,
        })
    }
}
