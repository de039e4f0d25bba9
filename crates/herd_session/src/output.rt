//! The writer that all answers go to, one at a time.
ghost use Rattle.std.specs.Prelude.{◌≡◌, ◌++◌, IfOk, IsOk, OnOk, flat_map, length};
ghost use Rattle.herd_office.specs.Filing.{EndsWith};
ghost use Rattle.herd_register.specs.Run.{IsLegal};
ghost use Rattle.herd_text.specs.Text.{PassesOn};
ghost use Rattle.herd_session.specs.Answers.{IsAnswer, fault_text, reply_text};
ghost use Rattle.herd_requests.specs.Faults.{fault_name};
ghost use Rattle.herd_session.specs.Output.{HasAnswers};
ghost use Rattle.herd_requests.specs.Requests.{IsTagThere};

use crate::name::SessionName;
use crate::pieces::write_pieces;
use crate::reporting_inspector::Answer;
use crate::tasks::Task;
use herd_office::{Filed, Slip};
use herd_register::{Command, Reply};
use herd_report::ReportFault;
use herd_requests::Fault;
use itoa::Buffer;
use std::alloc::Global;
use std::io::Write;

/// The writer that all answers go to. After a write that failed nothing more is written.
#[derive(Drop)]
pub(crate) struct Output<N: SessionName, W: Write> {
    pub(crate) writer: W,
    /// Answers that wait to be written by whoever added the last of them.
    pub(crate) waiting: Vec<u8>,
    /// The longest history that an answer was made of.
    pub(crate) longest_written: Slip<N>,
    pub(crate) has_failed: bool,
    pub ghost answers: { ∥ HasAnswers N.limits N.records longest_written.history has_failed N.before (W.contents writer)
        waiting.items ∥₁ },
}

impl<N: SessionName, W: Write> Output<N, W> {
    /// A writer to which no answer was written.
    pub(crate) fn new(alloc: Global, writer: W, longest_written: Slip<N>) -> Output<N, W>
        requires { N.before ≡ W.contents writer }
    {
        Output {
            writer,
            waiting: Vec::new(alloc),
            longest_written,
            has_failed: false,
        }
    }

    /// Writes the reply to a task's command, or lets it wait where the desk goes on with another task.
    pub(crate) fn reply(
        &mut self,
        task: &Task<N, Command>,
        filed: &Filed<N>,
        goes_on: bool,
    ) -> Result<(), ReportFault>
        requires ends { IfOk task.now.wanted
            (λ command. EndsWith filed.now.slip.history task.now.number command filed.now.reply) }
        requires wanted { IsOk task.now.wanted }
        requires serial { filed.now.serial ≡ length filed.now.slip.history }
        requires legal { IsLegal N.limits filed.now.slip.history }
        ensures { OnOk result (PassesOn (W.contents self.old.writer) (W.contents self.new.writer)
            (self.old.waiting.items ++ reply_text task.now.tag filed.now.serial filed.now.reply)
            self.new.waiting.items) }
    {
        let mut serial_text = Buffer::new();
        let serial = serial_text.format(filed.serial).as_bytes();
        match filed.reply {
            Reply::Accepted => {
                let pieces = [task.tag.text(), b",", serial, b",accepted\n"];
                self.write(&filed.slip, &pieces, goes_on)
            }
            Reply::Refused(refusal) => {
                let mut number_text = Buffer::new();
                let number = number_text.format(refusal.number()).as_bytes();
                let pieces = [task.tag.text(), b",", serial, b",refused,", number, b"\n"];
                self.write(&filed.slip, &pieces, goes_on)
            }
        }
    }

    /// Writes the answer to a question.
    pub(crate) fn answer(&mut self, answer: &Answer<N>) -> Result<(), ReportFault>
        ensures { OnOk result (PassesOn (W.contents self.old.writer) (W.contents self.new.writer)
            (self.old.waiting.items ++ answer.now.text.items) self.new.waiting.items) }
    {
        self.write(&answer.of, &[answer.text.as_slice()], false)
    }

    /// Tells why a request isn't answered.
    pub(crate) fn fault(&mut self, tag: &[u8], fault: Fault) -> Result<(), ReportFault>
        requires { ∥ IsTagThere N.records tag.now ∥₁ }
        ensures { OnOk result (PassesOn (W.contents self.old.writer) (W.contents self.new.writer)
            (self.old.waiting.items ++ fault_text tag.now fault) self.new.waiting.items) }
    {
        let name = name_bytes(&fault);
        let pieces = [tag, b",fault,", name, b"\n"];
        let longest_written = self.longest_written.again();
        self.write(&longest_written, &pieces, false)
    }

    // Writes an answer of a history, in pieces, or lets it wait.
    fn write(&mut self, of: &Slip<N>, pieces: &[&[u8]], goes_on: bool) -> Result<(), ReportFault>
        requires { ∥ IsAnswer N.limits N.records of.now.history (flat_map (λ piece. piece.now) pieces.now) ∥₁ }
        ensures { OnOk result (PassesOn (W.contents self.old.writer) (W.contents self.new.writer)
            (self.old.waiting.items ++ flat_map (λ piece. piece.now) pieces.now) self.new.waiting.items) }
    {
        let Output {
            writer,
            waiting,
            longest_written,
            has_failed,
        } = self;
        longest_written.learn(of);
        if *has_failed {
            return Err(ReportFault::Write);
        }
        let written = write_pieces(writer, waiting, pieces, goes_on);
        *has_failed = written.is_err();
        written
    }
}

// The name of a fault.
fn name_bytes(fault: &Fault) -> &[u8]
    ensures { result.now ≡ fault_name fault.now }
{
    fault.name().as_bytes()
}
