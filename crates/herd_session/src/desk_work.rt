//! The thread of a desk.
ghost use Rattle.std.specs.Prelude.{◌≡◌, ◌+◌, ◌<◌, [], IfOk, IsOk, OnErr, OnOk, length};
ghost use mathlib.Core.List.{IsPrefix};
ghost use Rattle.herd_office.specs.Filing.{EndsWith};
ghost use Rattle.herd_register.specs.Run.{IsLegal};
ghost use Rattle.herd_session.specs.Filed.{HasFiledBelow};

use crate::name::SessionName;
use crate::queue::{Batch, Outlet};
use crate::shared::Shared;
use crate::tasks::Task;
use herd_office::{Desk, Filed};
use herd_register::Command;
use herd_report::ReportFault;
use herd_requests::Fault;
use std::alloc::Global;
use std::io::Write;
use std::sync::Wait;

/// A desk at work, and how many records there are up to the last for whose command it filed.
#[derive(Drop)]
pub(crate) struct Clerk<N: SessionName> {
    pub(crate) desk: Desk<N>,
    next: u64,
    pub ghost filed: { ∥ HasFiledBelow N.records next desk ∥₁ },
}

/// Answers what a desk is asked, until nobody can ask it any more or a write fails.
pub(crate) fn work_at_desk<N: SessionName, H: Wait, R: Wait + Drop, W: Write>(
    rt: &H,
    alloc: Global,
    shared: &Shared<N, R, W>,
    desk: Desk<N>,
    queue: Outlet<Task<N, Command>>,
) -> Result<Clerk<N>, ReportFault>
    requires { (desk.answered ≡ 0) × (desk.history ≡ []) }
{
    let mut clerk = Clerk::new(desk);
    let mut batch = Batch::new(alloc);
    for _ in rt.forever() {
        if !queue.take(rt, &mut batch) {
            break;
        }
        clerk.answer_each(rt, shared, batch.tasks(), &queue)?;
        shared.backlog.leave(rt, batch.empty());
    }
    Ok(clerk)
}

impl<N: SessionName> Clerk<N> {
    // At a desk where nothing was filed.
    fn new(desk: Desk<N>) -> Clerk<N>
        requires { (desk.answered ≡ 0) × (desk.history ≡ []) }
    {
        Clerk { desk, next: 0 }
    }

    // Answers tasks that were taken from a queue.
    fn answer_each<H: Wait, R: Wait + Drop, W: Write>(
        &mut self,
        rt: &H,
        shared: &Shared<N, R, W>,
        tasks: &[Task<N, Command>],
        queue: &Outlet<Task<N, Command>>,
    ) -> Result<(), ReportFault> {
        for place in 0..tasks.len() {
            let goes_on = place + 1 < tasks.len() || !queue.is_empty();
            self.answer(rt, shared, &tasks[place], goes_on)?;
        }
        Ok(())
    }

    // Files what the desk is asked, and writes the reply, or why there is none. A reply may wait where the clerk goes
    // on with another task.
    fn answer<H: Wait, R: Wait + Drop, W: Write>(
        &mut self,
        rt: &H,
        shared: &Shared<N, R, W>,
        task: &Task<N, Command>,
        goes_on: bool,
    ) -> Result<(), ReportFault> {
        match self.file_wanted(rt, shared, task) {
            Ok(filed) => shared.reply(rt, task, &filed, goes_on),
            Err(fault) => shared.fault(rt, task.tag().text(), fault),
        }
    }

    // Files the command of a task.
    fn file_wanted<H: Wait, R: Wait + Drop, W: Write>(
        &mut self,
        rt: &H,
        shared: &Shared<N, R, W>,
        task: &Task<N, Command>,
    ) -> Result<Filed<N>, Fault>
        ensures ends { IfOk result (λ f. IfOk task.now.wanted
            (λ command. EndsWith f.slip.history task.now.number command f.reply)) }
        ensures wanted { OnOk result (IsOk task.now.wanted) }
        ensures serial { IfOk result (λ f. f.serial ≡ length f.slip.history) }
        ensures legal { IfOk result (λ f. IsLegal N.limits f.slip.history) }
    {
        // The queue has no others, though no clause follows a queue.
        if task.number != usize::from(self.desk.number()) || task.before < self.next {
            return Err(Fault::NoDesk);
        }
        let command = task.wanted?;
        let Clerk { desk, next } = self;
        let filed = file(rt, shared, desk, command)?;
        *next = task.before + 1;
        Ok(filed)
    }
}

// Files a command, and lets inspectors know.
fn file<N: SessionName, H: Wait, R: Wait + Drop, W: Write>(
    rt: &H,
    shared: &Shared<N, R, W>,
    desk: &mut Desk<N>,
    command: Command,
) -> Result<Filed<N>, Fault>
    ensures ends { IfOk result (λ f. EndsWith f.slip.history desk.old.number command f.reply) }
    ensures serial { IfOk result (λ f. f.serial ≡ length f.slip.history) }
    ensures legal { IfOk result (λ f. IsLegal N.limits f.slip.history) }
    ensures begins { OnOk result (IsPrefix desk.old.history desk.new.history) }
    ensures longer { OnOk result (length desk.old.history < length desk.new.history) }
    ensures answered { OnOk result (desk.new.answered ≡ desk.old.answered + 1) }
    ensures held { IfOk result (λ f. desk.new.history ≡ f.slip.history) }
    ensures number { desk.new.number ≡ desk.old.number }
    ensures not_answered { OnErr result (desk.new.answered ≡ desk.old.answered) }
    ensures not_held { OnErr result (desk.new.history ≡ desk.old.history) }
{
    let filed = desk.file(rt, &shared.office, command)?;
    shared.longest_answered.lock(rt).learn(&filed.slip);
    Ok(filed)
}
