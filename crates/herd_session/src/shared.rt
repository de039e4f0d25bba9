//! What all threads of a session share.
ghost use Rattle.std.specs.Prelude.{◌≡◌, IfOk, IsOk, length};
ghost use Rattle.herd_office.specs.Filing.{EndsWith};
ghost use Rattle.herd_register.specs.Run.{IsLegal};
ghost use Rattle.herd_requests.specs.Requests.{IsTagThere};

use crate::backlog::Backlog;
use crate::name::SessionName;
use crate::output::Output;
use crate::reporting_inspector::Answer;
use crate::tasks::Task;
use herd_office::{Filed, Office, Slip};
use herd_register::Command;
use herd_report::ReportFault;
use herd_requests::Fault;
use std::io::Write;
use std::sync::{Mutex, Wait};

/// What all threads of a session share: the office, the longest history that a call was answered with, the writer, and
/// the room for requests that wait.
#[derive(Drop)]
pub(crate) struct Shared<N: SessionName, R: Wait + Drop, W: Write> {
    pub(crate) office: Office<N, R>,
    pub(crate) longest_answered: Mutex<Slip<N>>,
    pub(crate) output: Mutex<Output<N, W>>,
    pub(crate) backlog: Backlog,
}

impl<N: SessionName, R: Wait + Drop, W: Write> Shared<N, R, W> {
    /// Writes the reply to a task's command, or lets it wait where the desk goes on with another task.
    pub(crate) fn reply<H: Wait>(
        &self,
        rt: &H,
        task: &Task<N, Command>,
        filed: &Filed<N>,
        goes_on: bool,
    ) -> Result<(), ReportFault>
        requires ends { IfOk task.now.wanted
            (λ command. EndsWith filed.now.slip.history task.now.number command filed.now.reply) }
        requires wanted { IsOk task.now.wanted }
        requires serial { filed.now.serial ≡ length filed.now.slip.history }
        requires legal { IsLegal N.limits filed.now.slip.history }
    {
        let written = self.output.lock(rt).reply(task, filed, goes_on);
        self.noted(rt, written)
    }

    /// Writes the answer to a question.
    pub(crate) fn answer<H: Wait>(&self, rt: &H, answer: &Answer<N>) -> Result<(), ReportFault> {
        let written = self.output.lock(rt).answer(answer);
        self.noted(rt, written)
    }

    /// Tells why a request isn't answered.
    pub(crate) fn fault<H: Wait>(&self, rt: &H, tag: &[u8], fault: Fault) -> Result<(), ReportFault>
        requires { ∥ IsTagThere N.records tag.now ∥₁ }
    {
        let written = self.output.lock(rt).fault(tag, fault);
        self.noted(rt, written)
    }

    // Notes how a write ended. Once one has failed no more requests are taken in.
    fn noted<H: Wait>(&self, rt: &H, written: Result<(), ReportFault>) -> Result<(), ReportFault>
        ensures { result ≡ written }
    {
        if written.is_err() {
            self.backlog.close(rt);
        }
        written
    }
}
