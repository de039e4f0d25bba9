//! An inspector who reports.
ghost use Rattle.std.specs.Prelude.{◌≡◌, ◌≢◌, IfErr, IfOk, Ok, length};
ghost use mathlib.Core.List.{IsPrefix};
ghost use Rattle.herd_session.specs.Answers.{IsAnswer, IsAnswered, IsReport, end_line};
ghost use Rattle.herd_session.specs.Texts.{CanBeUnanswered, IsReadyFor};
ghost use Rattle.herd_session.specs.Scopes.{SufficesFor};

use crate::answers::{push_behind, push_end};
use crate::name::SessionName;
use crate::reading::{Reading, current};
use crate::tasks::Task;
use herd_office::{Inspector, Slip};
use herd_requests::{Fault, Question};
use std::alloc::Global;

/// An inspector, and what was frozen last.
#[derive(Drop)]
pub(crate) struct ReportingInspector<N: SessionName> {
    pub(crate) inspector: Inspector<N>,
    pub(crate) kept: Option<Reading<N>>,
}

/// The answer to a question, and the history that it is made of.
#[derive(Drop)]
pub(crate) struct Answer<N: SessionName> {
    pub(crate) text: Vec<u8>,
    pub(crate) of: Slip<N>,
    pub ghost answers: { ∥ IsAnswer N.limits N.records of.history text.items ∥₁ },
}

impl<N: SessionName> ReportingInspector<N> {
    /// Learns the longest history that a call was answered with, and answers a task's question from a history that
    /// begins with it and with all that was seen before.
    pub(crate) fn answer(
        &mut self,
        alloc: Global,
        longest_answered: &Slip<N>,
        task: &Task<N, Question>,
        question: &Question,
    ) -> Result<Answer<N>, Fault>
        requires { task.now.wanted ≡ Ok question.now }
        ensures seen { IsPrefix self.old.inspector.history self.new.inspector.history }
        ensures longest { IsPrefix longest_answered.now.history self.new.inspector.history }
        ensures of { IfOk result (λ answer. answer.of.history ≡ self.new.inspector.history) }
        ensures answer { IfOk result
            (λ answer. ∥ IsAnswered N.limits answer.of.history task.now.tag question.now answer.text.items ∥₁) }
    {
        self.inspector.learn(longest_answered);
        let of = self.inspector.slip();
        match question {
            Question::Seen => length_answer(alloc, of, task),
            question => self.report(alloc, task, question),
        }
    }

    // A report on the book of all that was seen.
    fn report(
        &mut self,
        alloc: Global,
        task: &Task<N, Question>,
        question: &Question,
    ) -> Result<Answer<N>, Fault>
        requires wanted { task.now.wanted ≡ Ok question.now }
        requires other { question.now ≢ Question.Seen }
        ensures seen { IsPrefix self.old.inspector.history self.new.inspector.history }
        ensures of { IfOk result (λ answer. answer.of.history ≡ self.new.inspector.history) }
        ensures answer { IfOk result
            (λ answer. ∥ IsReport N.limits answer.of.history task.now.tag question.now answer.text.items ∥₁) }
    {
        let kept = self.kept.take();
        let reading = current(alloc, &mut self.inspector, kept, question)?;
        let reading = reading.ready_for(alloc, question)?;
        let answer = report_answer(alloc, &reading, task, question);
        self.kept = Some(reading);
        answer
    }
}

// The answer that tells how many steps a history has.
fn length_answer<N: SessionName>(
    alloc: Global,
    of: Slip<N>,
    task: &Task<N, Question>,
) -> Result<Answer<N>, Fault>
    requires { task.now.wanted ≡ Ok Question.Seen }
    ensures of { IfOk result (λ answer. answer.of.history ≡ of.history) }
    ensures text { IfOk result (λ answer. answer.text.items ≡ end_line task.now.tag (length of.history)) }
{
    let mut text = Vec::new(alloc);
    push_end(&mut text, &task.tag, of.steps())?;
    Ok(Answer { text, of })
}

// The answer that a reading gives to a question.
fn report_answer<N: SessionName>(
    alloc: Global,
    reading: &Reading<N>,
    task: &Task<N, Question>,
    question: &Question,
) -> Result<Answer<N>, Fault>
    requires wanted { task.now.wanted ≡ Ok question.now }
    requires other { question.now ≢ Question.Seen }
    requires suffices { SufficesFor question.now reading.now.scope }
    requires ready { IsReadyFor question.now reading.now.all }
    ensures of { IfOk result (λ answer. answer.of.history ≡ reading.now.of.history) }
    ensures answer { IfOk result
        (λ answer. ∥ IsReport N.limits answer.of.history task.now.tag question.now answer.text.items ∥₁) }
    ensures fault { IfErr result
        (CanBeUnanswered question.now (length reading.now.of.history) reading.now.frozen) }
{
    let report = reading.report(alloc, question)?;
    let mut text = Vec::new(alloc);
    push_behind(&mut text, &task.tag, report.as_slice())?;
    push_end(&mut text, &task.tag, reading.of.steps())?;
    Ok(Answer {
        text,
        of: reading.of.again(),
    })
}
