//! The thread of an inspector.
ghost use Rattle.std.specs.Prelude.{◌≡◌, IfOk};
ghost use mathlib.Core.List.{IsPrefix};
ghost use Rattle.herd_session.specs.Answers.{IsAnswered};

use crate::name::SessionName;
use crate::queue::{Batch, Outlet};
use crate::reporting_inspector::{Answer, ReportingInspector};
use crate::shared::Shared;
use crate::tasks::Task;
use herd_office::Inspector;
use herd_report::ReportFault;
use herd_requests::{Fault, Question};
use std::alloc::Global;
use std::io::Write;
use std::sync::Wait;

/// Answers what an inspector is asked, until nobody can ask it any more or a write fails.
pub(crate) fn work_as_inspector<N: SessionName, H: Wait, R: Wait + Drop, W: Write>(
    rt: &H,
    alloc: Global,
    shared: &Shared<N, R, W>,
    inspector: Inspector<N>,
    queue: Outlet<Task<N, Question>>,
) -> Result<Inspector<N>, ReportFault>
    ensures { IfOk result (λ back. IsPrefix inspector.history back.history) }
{
    let mut reporting = ReportingInspector {
        inspector,
        kept: None,
    };
    answer_batches(rt, alloc, shared, &mut reporting, &queue)?;
    Ok(reporting.inspector)
}

// Answers batches of tasks, until none can be added any more or a write fails. It borrows what `work_as_inspector`
// owns, since the two together take the prover longer.
fn answer_batches<N: SessionName, H: Wait, R: Wait + Drop, W: Write>(
    rt: &H,
    alloc: Global,
    shared: &Shared<N, R, W>,
    reporting: &mut ReportingInspector<N>,
    queue: &Outlet<Task<N, Question>>,
) -> Result<(), ReportFault>
    ensures { IsPrefix reporting.old.inspector.history reporting.new.inspector.history }
{
    let mut batch = Batch::new(alloc);
    for _ in rt.forever() {
        if !queue.take(rt, &mut batch) {
            break;
        }
        answer_each(rt, alloc, shared, reporting, batch.tasks())?;
        shared.backlog.leave(rt, batch.empty());
    }
    Ok(())
}

// Answers tasks that were taken from a queue.
fn answer_each<N: SessionName, H: Wait, R: Wait + Drop, W: Write>(
    rt: &H,
    alloc: Global,
    shared: &Shared<N, R, W>,
    reporting: &mut ReportingInspector<N>,
    tasks: &[Task<N, Question>],
) -> Result<(), ReportFault>
    ensures { IsPrefix reporting.old.inspector.history reporting.new.inspector.history }
{
    for task in tasks {
        answer_question(rt, alloc, shared, reporting, task)?;
    }
    Ok(())
}

// Writes the answer to what an inspector is asked, or why there is none.
fn answer_question<N: SessionName, H: Wait, R: Wait + Drop, W: Write>(
    rt: &H,
    alloc: Global,
    shared: &Shared<N, R, W>,
    reporting: &mut ReportingInspector<N>,
    task: &Task<N, Question>,
) -> Result<(), ReportFault>
    ensures { IsPrefix reporting.old.inspector.history reporting.new.inspector.history }
{
    match answer(rt, alloc, shared, reporting, task) {
        Ok(answer) => shared.answer(rt, &answer),
        Err(fault) => shared.fault(rt, task.tag().text(), fault),
    }
}

// The answer to a task's question, from a history that begins with each that was answered before.
#[tactic(auto, using(herd_office::proofs::Fronts::prefix_self))]
fn answer<N: SessionName, H: Wait, R: Wait + Drop, W: Write>(
    rt: &H,
    alloc: Global,
    shared: &Shared<N, R, W>,
    reporting: &mut ReportingInspector<N>,
    task: &Task<N, Question>,
) -> Result<Answer<N>, Fault>
    ensures seen { IsPrefix reporting.old.inspector.history reporting.new.inspector.history }
    ensures of { IfOk result (λ answer. answer.of.history ≡ reporting.new.inspector.history) }
    ensures answer { IfOk result (λ answer. IfOk task.now.wanted
        (λ question. ∥ IsAnswered N.limits answer.of.history task.now.tag question answer.text.items ∥₁)) }
{
    match &task.wanted {
        Ok(question) => {
            let longest = shared.longest_answered.lock(rt).again();
            reporting.answer(alloc, &longest, task, question)
        }
        Err(fault) => Err(*fault),
    }
}
