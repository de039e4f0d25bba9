//! A session from its beginning to its end.
ghost use Rattle.std.specs.Prelude.{◌≡◌, ◌≤◌, All, IfOk};
ghost use Rattle.herd_office.specs.Opening.{AreFresh};
ghost use Rattle.herd_office.specs.Parts.{AreNamed};
ghost use Rattle.herd_session.specs.Closing.{Ends};
ghost use Rattle.herd_session.specs.Filed.{HasFiledInTurn};
ghost use Rattle.herd_requests.specs.Requests.{records_in};

use crate::backlog::Backlog;
use crate::closing::end;
use crate::intake::take_requests;
use crate::name::SessionName;
use crate::output::Output;
use crate::plan::SessionPlan;
use crate::queue::queue;
use crate::session_fault::SessionFault;
use crate::shared::Shared;
use crate::staff::{
    Queues, Staff, join_desks, join_inspectors, start_desks, start_inspectors, start_on_faults,
};
use crate::stop::Stop;
use core::mem;
use herd_office::{Office, OfficeParts};
use std::alloc::Global;
use std::io::{Read, Write};
use std::marker::Brand;
use std::sync::{Mutex, Wait};
use std::thread;
use std::thread::{Scope, Threads};

/// Opens an office, answers requests up to the end of the input, closes the office, and tells how many steps and
/// animals there are.
///
/// Each desk and each inspector has a thread and a queue, and is asked by the requests that name it. Answers are
/// written one at a time, each whole, and flushed; a reply may wait for the next one of its desk where that was asked
/// already. Where the input ends by a fault all requests before it are answered. Once a write has failed nothing more
/// is written; that is told at the next request or at the end of the input.
pub fn session<H: Threads + Wait + Sync, I: Read + Drop, W: Write + Send + Drop>(
    rt: &H,
    alloc: Global,
    plan: SessionPlan,
    reader: I,
    writer: &mut W,
) -> Result<(), SessionFault>
    ensures { ∥ Ends plan.limits (records_in (I.remaining reader))
        (W.contents writer.old) (W.contents writer.new) result ∥₁ }
{
    let parts = OfficeParts::new(rt, alloc, plan.limits, plan.desks, plan.inspectors)?;
    let given = Given {
        rt,
        alloc,
        parts,
        reader,
    };
    mem::replace_with(
        writer,
        given,
        |writer, given|
            requires { 1 ≤ given.parts.desks }
        { run_with(writer, given) },
    )
}

// What a session runs with, but for its writer.
#[derive(Drop)]
struct Given<'a, H: Wait, I> {
    rt: &'a H,
    alloc: Global,
    parts: OfficeParts<&'a H>,
    reader: I,
}

// Runs a session, and gives its writer back.
fn run_with<H: Threads + Wait + Sync, I: Read + Drop, W: Write + Send + Drop>(
    writer: W,
    given: Given<'_, H, I>,
) -> (W, Result<(), SessionFault>)
    requires { 1 ≤ given.parts.desks }
    ensures { ∥ Ends given.entry.parts.limits (records_in (I.remaining given.entry.reader))
        (W.contents writer) (W.contents result.0) result.1 ∥₁ }
{
    run_under_name::<Brand, H, I, W>(writer, given)
}

// Runs a session that has a name.
fn run_under_name<
    N: SessionName + Send + Sync,
    H: Threads + Wait + Sync,
    I: Read + Drop,
    W: Write + Send + Drop,
>(writer: W, given: Given<'_, H, I>) -> (W, Result<(), SessionFault>)
    requires named { AreNamed N.OfficeName given.parts }
    requires records { records_in (I.remaining given.reader) ≡ N.records }
    requires before { N.before ≡ W.contents writer }
    requires desks { 1 ≤ given.parts.desks }
    ensures { ∥ Ends N.limits N.records N.before (W.contents result.0) result.1 ∥₁ }
{
    let Given {
        rt,
        alloc,
        parts,
        reader,
    } = given;
    let (office, desks, inspectors) = match Office::<N, &H>::open(alloc, parts) {
        Ok(opened) => opened,
        Err(fault) => return (writer, Err(SessionFault::from(fault))),
    };
    let staff = Staff { desks, inspectors };
    let first = staff.desks[0].slip();
    let shared = Shared {
        office,
        longest_answered: Mutex::new(first.again()),
        output: Mutex::new(Output::new(alloc, writer, first)),
        backlog: Backlog::new(),
    };
    let worked = work(rt, alloc, &shared, staff, reader);
    let Shared { office, output, .. } = shared;
    end(rt, office, worked, output.into_inner())
}

// Answers requests up to the end of the input, and gives the staff back. When it returns, all threads have ended.
fn work<
    N: SessionName + Send + Sync,
    H: Threads + Wait + Sync,
    R: Wait + Drop + Send + Sync,
    I: Read + Drop,
    W: Write + Send + Drop,
>(
    rt: &H,
    alloc: Global,
    shared: &Shared<N, R, W>,
    staff: Staff<N>,
    reader: I,
) -> Result<Staff<N>, Stop<N>>
    requires records { records_in (I.remaining reader) ≡ N.records }
    requires fresh { AreFresh staff.desks.items }
    ensures { IfOk result (λ back. All (λ desk. ∥ HasFiledInTurn N.records desk ∥₁) back.desks.items) }
{
    thread::scope(
        thread::scope_env(),
        rt,
        |scope| -> Result<Staff<N>, Stop<N>>
            requires records { records_in (I.remaining reader) ≡ N.records }
            requires fresh { AreFresh staff.desks.items }
            ensures { IfOk result (λ back. All (λ desk. ∥ HasFiledInTurn N.records desk ∥₁) back.desks.items) }
        { work_in(scope, rt, alloc, shared, staff, reader) },
    )
}

fn work_in<
    's,
    N: SessionName + Send + Sync,
    E,
    H: Threads + Wait + Sync,
    R: Wait + Drop + Send + Sync,
    I: Read + Drop,
    W: Write + Send + Drop,
>(
    scope: &'s Scope<'s, E>,
    rt: &'s H,
    alloc: Global,
    shared: &'s Shared<N, R, W>,
    staff: Staff<N>,
    reader: I,
) -> Result<Staff<N>, Stop<N>>
    requires records { records_in (I.remaining reader) ≡ N.records }
    requires fresh { AreFresh staff.desks.items }
    ensures { IfOk result (λ back. All (λ desk. ∥ HasFiledInTurn N.records desk ∥₁) back.desks.items) }
{
    let Staff { desks, inspectors } = staff;
    // The room for those who come back is made while nobody waits for an answer.
    let mut back = Staff {
        desks: Vec::with_capacity(alloc, desks.len())?,
        inspectors: Vec::with_capacity(alloc, inspectors.len())?,
    };
    let (faults, fault_tasks) = queue(alloc)?;
    let mut queues = Queues {
        desks: Vec::new(alloc),
        inspectors: Vec::new(alloc),
        faults,
    };
    let faults_thread = start_on_faults(scope, rt, alloc, shared, fault_tasks)?;
    let desks = start_desks(scope, rt, alloc, shared, desks, &mut queues)?;
    let inspectors = start_inspectors(scope, rt, alloc, shared, inspectors, &mut queues)?;
    let taken = take_requests(rt, alloc, shared, &queues, reader);
    drop(queues);
    join_desks(rt, desks, &mut back.desks)?;
    join_inspectors(rt, inspectors, &mut back.inspectors)?;
    faults_thread.join(rt)?;
    taken?;
    Ok(back)
}
