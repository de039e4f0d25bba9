//! The thread that tells why requests aren't answered which nobody else answers.

use crate::name::SessionName;
use crate::queue::{Batch, Outlet};
use crate::shared::Shared;
use crate::tasks::FaultTask;
use herd_report::ReportFault;
use std::alloc::Global;
use std::io::Write;
use std::sync::Wait;

/// Tells faults, until no more can come or a write fails.
pub(crate) fn work_on_faults<N: SessionName, H: Wait, R: Wait + Drop, W: Write>(
    rt: &H,
    alloc: Global,
    shared: &Shared<N, R, W>,
    queue: Outlet<FaultTask<N>>,
) -> Result<(), ReportFault> {
    let mut batch = Batch::new(alloc);
    for _ in rt.forever() {
        if !queue.take(rt, &mut batch) {
            break;
        }
        tell_each(rt, shared, batch.tasks())?;
        shared.backlog.leave(rt, batch.empty());
    }
    Ok(())
}

// Tells the faults that were taken from the queue.
fn tell_each<N: SessionName, H: Wait, R: Wait + Drop, W: Write>(
    rt: &H,
    shared: &Shared<N, R, W>,
    tasks: &[FaultTask<N>],
) -> Result<(), ReportFault> {
    for task in tasks {
        shared.fault(rt, task.tag(), task.fault)?;
    }
    Ok(())
}
