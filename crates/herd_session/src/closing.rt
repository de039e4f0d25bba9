//! The end of a session.
ghost use Rattle.std.specs.Prelude.{◌≡◌, ◌++◌, [], All, IfOk, List, OnErr, OnOk, ℕ};
ghost use mathlib.Core.List.{IsPrefix};
ghost use Rattle.herd_register.specs.Run.{IsLegal};
ghost use Rattle.herd_session.specs.Closing.{Ends, IsOfDesks, last_line};
ghost use Rattle.herd_session.specs.Filed.{HasFiledInTurn};
ghost use Rattle.herd_session.specs.Output.{HasAnswers};
ghost use Rattle.herd_text.specs.Text.{PassesOn};

use crate::name::SessionName;
use crate::output::Output;
use crate::pieces::{write_pieces, write_waiting};
use crate::session_fault::SessionFault;
use crate::staff::Staff;
use crate::stop::Stop;
use herd_office::{Office, Slip};
use herd_register::Register;
use herd_report::ReportFault;
use itoa::Buffer;
use std::alloc::Global;
use std::io::Write;
use std::sync::Wait;

/// Closes the office and writes the last line, unless the work ended early: then it writes the answers that wait.
/// Once a write has failed it writes nothing.
pub(crate) fn end<N: SessionName, H: Wait, R: Wait + Drop, W: Write + Drop>(
    rt: &H,
    office: Office<N, R>,
    worked: Result<Staff<N>, Stop<N>>,
    output: Output<N, W>,
) -> (W, Result<(), SessionFault>)
    requires { IfOk worked (λ back. All (λ desk. ∥ HasFiledInTurn N.records desk ∥₁) back.desks.items) }
    ensures { ∥ Ends N.limits N.records N.before (W.contents result.0) result.1 ∥₁ }
{
    let Output {
        mut writer,
        mut waiting,
        longest_written,
        has_failed,
    } = output;
    let closed = closed(rt, office, worked, &longest_written);
    let ended = write_end(
        &mut writer,
        &mut waiting,
        &longest_written,
        has_failed,
        &closed,
    );
    (writer, ended)
}

// Writes the last line of a session whose office was closed, or else the answers that wait. It borrows what `end` owns,
// since the two together take the prover longer.
fn write_end<N: SessionName, W: Write>(
    writer: &mut W,
    waiting: &mut Vec<u8>,
    longest_written: &Slip<N>,
    has_failed: bool,
    closed: &Result<Register<Global>, Stop<N>>,
) -> Result<(), SessionFault>
    requires answers { ∥ HasAnswers N.limits N.records longest_written.now.history has_failed N.before
        (W.contents writer.old) waiting.old.items ∥₁ }
    requires limits { IfOk closed.now (λ register. register.limits ≡ N.limits) }
    requires begins { IfOk closed.now (λ register. IsPrefix longest_written.now.history register.journal) }
    requires desks { IfOk closed.now
        (λ register. (numbers : List ℕ) × IsOfDesks N.records register.journal numbers) }
    ensures { ∥ Ends N.limits N.records N.before (W.contents writer.new) result ∥₁ }
{
    // A slip's history is legal.
    let _steps = longest_written.steps();
    if has_failed {
        return Err(SessionFault::Write);
    }
    match closed {
        Ok(register) => match write_last_line(writer, waiting, register) {
            Ok(()) => Ok(()),
            Err(_) => Err(SessionFault::Write),
        },
        Err(stop) => match write_waiting(writer, waiting) {
            Ok(()) => Err(stop.fault),
            Err(_) => Err(SessionFault::Write),
        },
    }
}

// Closes the office, once an inspector has learnt the longest history that an answer was written of.
fn closed<N: SessionName, H: Wait, R: Wait + Drop>(
    rt: &H,
    office: Office<N, R>,
    worked: Result<Staff<N>, Stop<N>>,
    longest_written: &Slip<N>,
) -> Result<Register<Global>, Stop<N>>
    requires { IfOk worked (λ back. All (λ desk. ∥ HasFiledInTurn N.records desk ∥₁) back.desks.items) }
    ensures limits { IfOk result (λ register. register.limits ≡ N.limits) }
    ensures begins { IfOk result (λ register. IsPrefix longest_written.now.history register.journal) }
    ensures desks { IfOk result
        (λ register. (numbers : List ℕ) × IsOfDesks N.records register.journal numbers) }
{
    let Staff {
        desks,
        mut inspectors,
    } = worked?;
    if inspectors.is_empty() {
        return Err(Stop::unclosed());
    }
    inspectors[0].learn(longest_written);
    match office.close(rt, desks, inspectors) {
        Ok(register) => Ok(register),
        Err(_) => Err(Stop::unclosed()),
    }
}

// Writes how many steps and animals there are.
fn write_last_line<W: Write>(
    writer: &mut W,
    waiting: &mut Vec<u8>,
    register: &Register<Global>,
) -> Result<(), ReportFault>
    ensures legal { IsLegal register.now.limits register.now.journal }
    ensures ok { OnOk result (PassesOn (W.contents writer.old) (W.contents writer.new)
        (waiting.old.items ++ last_line register.now) []) }
    ensures err { OnErr result ((rest : List ℕ) × PassesOn (W.contents writer.old) (W.contents writer.new)
        (waiting.old.items ++ last_line register.now) rest) }
{
    let mut steps_text = Buffer::new();
    let mut animals_text = Buffer::new();
    let steps = steps_text.format(register.journal().len()).as_bytes();
    let animals = animals_text.format(register.pedigree().len()).as_bytes();
    write_pieces(
        writer,
        waiting,
        &[b"closed,", steps, b",", animals, b"\n"],
        false,
    )
}
