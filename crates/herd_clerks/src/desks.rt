//! Filing a command file at several desks, each with a clerk in a thread of its own.
ghost use Rattle.std.specs.Prelude.{◌≡◌, ◌≤◌, All, IfErr, IfOk, IfSome, OnOk, drop, length, map, take, vec_len};
ghost use Rattle.std.specs.List.{range_with_len};
ghost use Rattle.std.specs.Io.KnownBytes.{Appends};
ghost use Rattle.herd_register.specs.Run.{IsLegal};
ghost use Rattle.herd_command_file.specs.CommandFile.{commands};
ghost use Rattle.herd_office.specs.Beginnings.{BeginsWithAll};
ghost use Rattle.herd_office.specs.Opening.{AreFresh};
ghost use Rattle.herd_office.specs.Parts.{AreNamed};
ghost use Rattle.herd_clerks.specs.Clerks.{CanEndClosing, EndsClerks, IsFiledBy, office_limits};
ghost use Rattle.herd_clerks.specs.Deal.{HasDone, numbers_of};
ghost use Rattle.herd_clerks.specs.Summary.{CountsOf, EndsTelling, IsSummaryOf, IsSummaryOfDeal, count_of};
ghost use Rattle.herd_clerks.specs.Summary.{summary_text};
ghost use Rattle.herd_clerks.specs.declared.deal.Deal.{Deal};

use crate::clerk::file_turn;
use crate::clerks_fault::ClerksFault;
use crate::crew::file_in_turn;
use crate::deal::{Deal, DeskPlan};
use crate::office_fault::OfficeFault;
use crate::summary::{DeskCount, Summary, text_of};
use herd_command_file::list_commands;
use herd_office::{Desk, Inspector, Office, OfficeName, OfficeParts};
use herd_register::{Command, Limits, Register};
use herd_text::{ReportFault, write_all};
use std::alloc::{AllocError, Global};
use std::io::{Read, Write};
use std::marker::Brand;
use std::sync::Wait;
use std::thread::Threads;

/// Reads a command file, has its commands filed at the plan's desks, and writes how many calls of each desk were
/// answered, how many steps and animals there are then, and how many steps an inspector has seen.
///
/// The first `base` commands are filed at desk 1 before any other; the rest are dealt to the desks in turn, from desk 1
/// on, and each desk files its own in their order. Nothing is written before the office is closed, and nothing where
/// it isn't.
pub fn clerks<H: Threads + Wait + Sync, R: Read + Drop, W: Write>(
    rt: &H,
    alloc: Global,
    limits: Limits,
    plan: DeskPlan,
    reader: R,
    writer: &mut W,
) -> Result<(), ClerksFault>
    ensures ok { OnOk result (IfSome (R.remaining reader)
        (λ bytes. IsFiledBy limits plan.desks plan.base (commands bytes limits.steps)
        (W.contents writer.old) (W.contents writer.new))) }
    ensures err { IfErr result (λ fault. IfSome (R.remaining reader)
        (λ bytes. EndsClerks limits plan.desks plan.base (commands bytes limits.steps)
        (W.contents writer.old) (W.contents writer.new) fault)) }
{
    let mut list = Vec::new(alloc);
    list_commands(alloc, reader, limits.steps, &mut list)?;
    let summary = summary_of(rt, alloc, limits, plan, list.as_slice())?;
    Ok(write_summary(alloc, &summary, writer)?)
}

// Writes a summary. Where memory is refused, nothing is written.
fn write_summary<W: Write>(
    alloc: Global,
    summary: &Summary,
    writer: &mut W,
) -> Result<(), ReportFault>
    ensures ok { OnOk result
        (Appends (W.contents writer.old) (W.contents writer.new) (summary_text summary.now)) }
    ensures err { IfErr result
        (EndsTelling (W.contents writer.old) (W.contents writer.new) (summary_text summary.now)) }
{
    let text = text_of(alloc, summary)?;
    write_all(writer, text.as_bytes())
}

// The summary of an office in which the commands were filed.
fn summary_of<H: Threads + Wait + Sync>(
    rt: &H,
    alloc: Global,
    limits: Limits,
    plan: DeskPlan,
    commands: &[Command],
) -> Result<Summary, OfficeFault>
    requires { length commands.now ≤ limits.steps }
    ensures { IfOk result (IsSummaryOf (office_limits limits.animals (length commands.now))
        plan.desks (take plan.base commands.now) (drop plan.base commands.now)) }
{
    let limits = Limits {
        animals: limits.animals,
        steps: (commands.len() as u32).max(1),
    };
    let parts = OfficeParts::new(rt, alloc, limits, plan.desks, 1)?;
    filed_in::<Brand, H>(rt, alloc, parts, Deal::of(plan, commands))
}

// The summary of the office that has these parts, once the commands are filed.
fn filed_in<N: OfficeName + Send + Sync, H: Threads + Wait + Sync>(
    rt: &H,
    alloc: Global,
    parts: OfficeParts<&H>,
    deal: Deal<'_>,
) -> Result<Summary, OfficeFault>
    requires named { AreNamed N.OfficeName parts }
    requires desks { parts.desks ≡ deal.desks }
    requires inspectors { 1 ≤ parts.inspectors }
    ensures { IfOk result (IsSummaryOfDeal N.limits deal.entry) }
{
    let (office, desks, inspectors) = Office::<N, &H>::open(alloc, parts)?;
    let filed = all_filed(rt, alloc, &office, desks, deal);
    closed_once_filed(rt, alloc, office, filed, inspectors)
}

// The desks, once the commands are filed.
fn all_filed<N: OfficeName + Send + Sync, H: Threads + Wait + Sync, R: Wait + Drop + Send + Sync>(
    rt: &H,
    alloc: Global,
    office: &Office<N, R>,
    mut desks: Vec<Desk<N>>,
    deal: Deal<'_>,
) -> Result<Vec<Desk<N>>, OfficeFault>
    requires desks { vec_len desks ≡ deal.desks }
    requires fresh { AreFresh desks.items }
    ensures numbers { IfOk result (λ done. numbers_of done.items ≡ numbers_of desks.items) }
    ensures filed { IfOk result (λ done. All (HasDone deal.entry) done.items) }
{
    file_turn(rt, office, &mut desks[0], deal.first_turn())?;
    file_in_turn(rt, alloc, office, desks, deal)
}

// Closes the office once the commands are filed. Where an office is open, a proof takes long that an early return drops
// it, so this one stands by itself.
fn closed_once_filed<N: OfficeName, H: Wait, R: Wait + Drop>(
    rt: &H,
    alloc: Global,
    office: Office<N, R>,
    filed: Result<Vec<Desk<N>>, OfficeFault>,
    inspectors: Vec<Inspector<N>>,
) -> Result<Summary, OfficeFault>
    requires numbers { IfOk filed (λ desks. numbers_of desks.items ≡ range_with_len 1 office.staff.desks) }
    requires inspectors { office.staff.inspectors ≤ vec_len inspectors }
    requires some { 1 ≤ vec_len inspectors }
    ensures { (deal : Deal) → office.staff.desks ≡ deal.desks
        → IfOk filed (λ desks. All (HasDone deal) desks.items) → IfOk result (IsSummaryOfDeal N.limits deal) }
{
    let desks = filed?;
    closed(rt, alloc, office, desks, inspectors)
}

// Lets the first inspector learn the desks' slips and freeze the book, closes the office, and gives its summary. No
// desk and no inspector is missing.
fn closed<N: OfficeName, H: Wait, R: Wait + Drop>(
    rt: &H,
    alloc: Global,
    office: Office<N, R>,
    desks: Vec<Desk<N>>,
    mut inspectors: Vec<Inspector<N>>,
) -> Result<Summary, OfficeFault>
    requires numbers { numbers_of desks.items ≡ range_with_len 1 office.staff.desks }
    requires inspectors { office.staff.inspectors ≤ vec_len inspectors }
    requires some { 1 ≤ vec_len inspectors }
    ensures ok { (deal : Deal) → office.staff.desks ≡ deal.desks → All (HasDone deal) desks.items
        → IfOk result (IsSummaryOfDeal N.limits deal) }
    ensures fault { IfErr result CanEndClosing }
{
    let counts = counts_of(alloc, desks.as_slice())?;
    let seen = steps_seen(alloc, desks.as_slice(), &mut inspectors[0])?;
    match office.close(rt, desks, inspectors) {
        Ok(register) => Ok(counted(&register, counts, seen)),
        Err(unclosed) => Err(OfficeFault::of_closing(unclosed.cause)),
    }
}

// How many calls of each desk were answered.
fn counts_of<N: OfficeName>(alloc: Global, desks: &[Desk<N>]) -> Result<Vec<DeskCount>, AllocError>
    ensures { IfOk result (λ counts. counts.items ≡ map (λ d. count_of d.number d.answered) desks.now) }
{
    let mut counts = Vec::new(alloc);
    for desk in desks {
        let count = DeskCount {
            number: desk.number(),
            answered: desk.answered(),
        };
        counts.push(count)?;
    }
    Ok(counts)
}

// How many steps the inspector has seen, once it has learnt the desks' slips and frozen the book.
fn steps_seen<N: OfficeName>(
    alloc: Global,
    desks: &[Desk<N>],
    inspector: &mut Inspector<N>,
) -> Result<u64, OfficeFault>
    ensures seen { IfOk result (λ seen. seen ≡ length inspector.new.history) }
    ensures learnt { IfOk result (λ _. BeginsWithAll (λ d. d.history) desks.now inspector.new.history) }
    ensures fault { IfErr result CanEndClosing }
{
    for desk in desks {
        inspector.learn(&desk.slip());
    }
    let _frozen = inspector.freeze(alloc)?;
    Ok(inspector.steps_seen())
}

// The summary of a closed office, whose inspector has seen every step.
fn counted(register: &Register<Global>, desks: Vec<DeskCount>, seen: u64) -> Summary
    requires { seen ≡ length register.now.journal }
    ensures legal { IsLegal register.now.limits register.now.journal }
    ensures counts { CountsOf register.now desks.items result }
{
    Summary {
        desks,
        steps: register.journal().len(),
        animals: register.pedigree().len(),
        seen,
    }
}
