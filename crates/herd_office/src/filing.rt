//! How a command is filed, on the value under the lock.
ghost use Rattle.std.specs.Prelude.{◌≡◌, ◌+◌, ◌<◌, ◌↔◌, ◌≢◌, [], ◌∷◌, ◌++◌, length, IfOk, IfErr, IsSome, OnErr};
ghost use mathlib.Core.List.{IsPrefix};
ghost use Rattle.herd_register.specs.Run.{IsLegal, step_of};
ghost use Rattle.herd_register.specs.Change.{changed_by};
ghost use Rattle.herd_register.specs.Register.{register_book};
ghost use Rattle.herd_register.specs.declared.limits.TheConstants.{MOST_STEPS};
ghost use Rattle.herd_office.specs.Filing.{answer_after};
ghost use Rattle.herd_office.specs.Shelves.{pending};
ghost use Rattle.herd_office.specs.Standing.{IsFiled, Refuses, standing};

use crate::copies::{Copies, show};
use crate::desk::{Desk, Filed};
use crate::inside::Inside;
use crate::name::OfficeName;
use crate::shown::CopyUpdate;
use herd_register::{Change, Command, FileFault, Register, Step};
use std::alloc::Allocator;
use std::sync::Wait;

/// Files a command at a desk, on the value under the lock. After a fault nothing was filed.
pub fn file_on<N: OfficeName, W: Wait, R: Wait + Drop, A: Allocator + Copy>(
    rt: &W,
    inside: &mut Inside<N, R, A>,
    desk: &mut Desk<N>,
    command: Command,
) -> Result<Filed<N>, FileFault>
    ensures filed { IfOk result
        (IsFiled N.limits command (standing inside.old desk.old) (standing inside.new desk.new)) }
    ensures number { desk.new.number ≡ desk.old.number }
    ensures full { (result ≡ Err FileFault.JournalFull) ↔ (length inside.old.register.journal ≡ N.limits.steps) }
    ensures unfiled { OnErr result (standing inside.new desk.new ≡ standing inside.old desk.old) }
    ensures fault { IfErr result (Refuses N.limits.steps (standing inside.old desk.old) inside.new.keeper.claim) }
{
    if inside.register.is_full() {
        return Err(FileFault::JournalFull);
    }
    if !desk.history.begins(&inside.keeper.history) {
        return Err(FileFault::NoReading);
    }
    inside.keeper.claim_next()?;
    file_claimed(rt, inside, desk, command)
}

// Files a command, once its step is claimed. It stands apart from `file_on`, since the two together take the prover
// twice as long.
fn file_claimed<N: OfficeName, W: Wait, R: Wait + Drop, A: Allocator + Copy>(
    rt: &W,
    inside: &mut Inside<N, R, A>,
    desk: &mut Desk<N>,
    command: Command,
) -> Result<Filed<N>, FileFault>
    requires claim { IsSome inside.old.keeper.claim }
    requires begins { IsPrefix desk.old.history inside.old.keeper.history }
    requires not_full { length inside.old.register.journal ≢ N.limits.steps }
    requires room { length inside.old.register.journal < MOST_STEPS }
    ensures filed { IfOk result
        (IsFiled N.limits command (standing inside.old desk.old) (standing inside.new desk.new)) }
    ensures number { desk.new.number ≡ desk.old.number }
    ensures unfiled { OnErr result (standing inside.new desk.new ≡ standing inside.old desk.old) }
    ensures claim { OnErr result (IsSome inside.new.keeper.claim) }
    ensures fault { IfErr result (λ fault. fault ≡ FileFault.Memory) }
{
    let Inside {
        register,
        ledger,
        rest: _,
        keeper,
        copies,
    } = inside;
    copies.make_room(rt)?;
    let steps = register.journal().len();
    let (step, change) = file_in(register, &mut copies.writer, desk.number, &command)?;
    keeper.add(&step);
    show(rt, &mut copies.writer, &change, keeper.history.past());
    desk.answer(ledger, keeper.history.again());
    Ok(Filed {
        serial: steps as u32 + 1,
        reply: step.reply,
        slip: desk.slip(),
    })
}

// Files a command in the register, and appends what it made of the records for the copies; or does neither.
fn file_in<A: Allocator + Copy>(
    register: &mut Register<A>,
    copies: &mut Copies,
    desk: u16,
    command: &Command,
) -> Result<(Step, Change), FileFault>
    requires { pending copies.old ≡ [] }
    ensures step { IfOk result (λ r. r.0 ≡ step_of desk command.now r.0.reply) }
    ensures reply { IfOk result
        (λ r. r.0.reply ≡ answer_after register.old.limits register.old.journal command.now) }
    ensures stored { IfOk result (λ r. register.new.journal ≡ register.old.journal ++ r.0 ∷ []) }
    ensures change { IfOk result (λ r. changed_by register.old.limits.animals (register_book register.old) r.1
        ≡ register_book register.new) }
    ensures pending { IfOk result (λ r. pending copies.new ≡ CopyUpdate.Filed r.1 ∷ []) }
    ensures legal { IfOk result (λ _. IsLegal register.new.limits register.new.journal) }
    ensures limits { register.new.limits ≡ register.old.limits }
    ensures shown { copies.new.desk ≡ copies.old.desk }
    ensures full { (result ≡ Err FileFault.JournalFull) ↔ (length register.old.journal ≡ register.old.limits.steps) }
    ensures not_stored { OnErr result (register.new.journal ≡ register.old.journal) }
    ensures not_pending { OnErr result (pending copies.new ≡ []) }
    ensures faults { IfErr result (λ fault. fault ≢ FileFault.NoReading) }
{
    let reply = register.file(desk, *command)?;
    let step = Step {
        command: *command,
        desk,
        reply,
    };
    let change = register.last_change();
    if copies.append(CopyUpdate::of_change(&change)).is_err() {
        register.withdraw();
        return Err(FileFault::Memory);
    }
    Ok((step, change))
}
