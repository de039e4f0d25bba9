//! The threads of a session, each with its queue.
ghost use Rattle.std.specs.Prelude.{◌≡◌, ◌++◌, [], All, List, OnOk};
ghost use Rattle.herd_session.specs.Filed.{HasFiledInTurn};

use crate::desk_work::{Clerk, work_at_desk};
use crate::fault_work::work_on_faults;
use crate::inspector_work::work_as_inspector;
use crate::name::SessionName;
use crate::queue::{Inlet, Outlet, queue};
use crate::shared::Shared;
use crate::stop::Stop;
use crate::tasks::{FaultTask, Task};
use herd_office::{Desk, Inspector};
use herd_register::Command;
use herd_report::ReportFault;
use herd_requests::Question;
use std::alloc::Global;
use std::io::Write;
use std::sync::Wait;
use std::thread::{JoinHandle, Scope, Threads};

/// All desks and inspectors of a session.
#[derive(Drop)]
pub(crate) struct Staff<N: SessionName> {
    pub(crate) desks: Vec<Desk<N>>,
    pub(crate) inspectors: Vec<Inspector<N>>,
}

/// The queues of a session, by the places of desks and inspectors, and that of what nobody of them answers.
#[derive(Drop)]
pub(crate) struct Queues<N: SessionName> {
    pub(crate) desks: Vec<Inlet<Task<N, Command>>>,
    pub(crate) inspectors: Vec<Inlet<Task<N, Question>>>,
    pub(crate) faults: Inlet<FaultTask<N>>,
}

type DeskThread<N> = JoinHandle<Result<Clerk<N>, ReportFault>>;

type InspectorThread<N> = JoinHandle<Result<Inspector<N>, ReportFault>>;

/// Starts a thread for each desk, at which nothing was filed.
pub(crate) fn start_desks<
    's,
    N: SessionName + Send + Sync,
    E,
    H: Wait + Sync,
    R: Wait + Drop + Send + Sync,
    W: Write + Send,
>(
    scope: &'s Scope<'s, E>,
    rt: &'s H,
    alloc: Global,
    shared: &'s Shared<N, R, W>,
    desks: Vec<Desk<N>>,
    queues: &mut Queues<N>,
) -> Result<Vec<DeskThread<N>>, Stop<N>>
    requires { All (λ desk. (desk.answered ≡ 0) × (desk.history ≡ [])) desks.items }
{
    start_each(
        scope,
        alloc,
        desks,
        &mut queues.desks,
        move |desk, tasks| -> Result<Clerk<N>, ReportFault>
            requires { (desk.answered ≡ 0) × (desk.history ≡ []) }
        { work_at_desk(rt, alloc, shared, desk, tasks) },
    )
}

/// Starts a thread for each inspector.
pub(crate) fn start_inspectors<
    's,
    N: SessionName + Send + Sync,
    E,
    H: Wait + Sync,
    R: Wait + Drop + Send + Sync,
    W: Write + Send,
>(
    scope: &'s Scope<'s, E>,
    rt: &'s H,
    alloc: Global,
    shared: &'s Shared<N, R, W>,
    inspectors: Vec<Inspector<N>>,
    queues: &mut Queues<N>,
) -> Result<Vec<InspectorThread<N>>, Stop<N>> {
    start_each(
        scope,
        alloc,
        inspectors,
        &mut queues.inspectors,
        move |inspector, tasks| work_as_inspector(rt, alloc, shared, inspector, tasks),
    )
}

// Starts a thread for each member of the staff, at work on a queue of its own, and keeps the end of that queue to which
// tasks are added.
fn start_each<
    's,
    N: SessionName,
    E,
    M: Send + Drop + 's,
    T: Send + Drop + 's,
    B: Send + Drop + 's,
    F: Fn(M, Outlet<T>) -> Result<B, ReportFault> + Copy + Send + 's,
>(
    scope: &'s Scope<'s, E>,
    alloc: Global,
    members: Vec<M>,
    inlets: &mut Vec<Inlet<T>>,
    work: F,
) -> Result<Vec<JoinHandle<Result<B, ReportFault>>>, Stop<N>>
    requires { All (λ member. (tasks : _) → F.pre work member tasks) members.items }
{
    let mut started = Vec::new(alloc);
    for member in members {
        let (inlet, outlet) = queue(alloc)?;
        let thread = scope.spawn(
            move || -> Result<B, ReportFault>
                requires { F.pre work member outlet }
            { work(member, outlet) },
        );
        started.push(thread.or(Err(Stop::no_thread()))?)?;
        inlets.push(inlet)?;
    }
    Ok(started)
}

/// Starts the thread that tells faults.
pub(crate) fn start_on_faults<
    's,
    N: SessionName + Send + Sync,
    E,
    H: Wait + Sync,
    R: Wait + Drop + Send + Sync,
    W: Write + Send,
>(
    scope: &'s Scope<'s, E>,
    rt: &'s H,
    alloc: Global,
    shared: &'s Shared<N, R, W>,
    tasks: Outlet<FaultTask<N>>,
) -> Result<JoinHandle<Result<(), ReportFault>>, Stop<N>> {
    let started = scope.spawn(move || work_on_faults(rt, alloc, shared, tasks));
    started.or(Err(Stop::no_thread()))
}

/// Waits for the desks.
pub(crate) fn join_desks<N: SessionName, H: Threads>(
    rt: &H,
    started: Vec<DeskThread<N>>,
    desks: &mut Vec<Desk<N>>,
) -> Result<(), Stop<N>>
    requires { All (λ desk. ∥ HasFiledInTurn N.records desk ∥₁) desks.old.items }
    ensures { OnOk result (All (λ desk. ∥ HasFiledInTurn N.records desk ∥₁) desks.new.items) }
{
    join_each(rt, started, desks, |clerk: Clerk<N>| clerk.desk)
}

/// Waits for the inspectors.
pub(crate) fn join_inspectors<N: SessionName, H: Threads>(
    rt: &H,
    started: Vec<InspectorThread<N>>,
    inspectors: &mut Vec<Inspector<N>>,
) -> Result<(), Stop<N>> {
    join_each(rt, started, inspectors, |inspector: Inspector<N>| inspector)
}

// Waits for threads, and keeps the member of the staff that each gives back.
fn join_each<N: SessionName, H: Threads, B: Drop, M: Drop, F: Fn(B) -> M>(
    rt: &H,
    started: Vec<JoinHandle<Result<B, ReportFault>>>,
    members: &mut Vec<M>,
    member_of: F,
) -> Result<(), Stop<N>>
    requires { F.IsAlwaysCallable member_of }
    ensures { OnOk result ((joined : List M) × (members.new.items ≡ members.old.items ++ joined)
        × All (λ member. (given_back : B) × F.post member_of given_back member) joined) }
{
    for thread in started {
        members.push(member_of(thread.join(rt)?))?;
    }
    Ok(())
}
