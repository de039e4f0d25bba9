ghost use Rattle.std.specs.Prelude.{◌≡◌, ◌<◌, [], IfErr, IfOk, IfSome, List, None, OnOk, Option, ℕ};
ghost use Rattle.herd_frozen.specs.declared.TheConstants.{DEPTH_LIMIT};
ghost use Rattle.herd_advice.specs.BookCoefficients.{AreBookCoefficients};
ghost use Rattle.herd_register.specs.Run.{commands_of};
ghost use Rattle.herd_command_file.specs.CommandFile.{CommandFile, IsRead, commands};
ghost use Rattle.herd_command_file.specs.CommandReader.{HasGiven, IsReady};
ghost use Rattle.herd_command_file.specs.Filing.{HasFiled};
ghost use Rattle.herd_orders.specs.Run.{AnswersIfKnown, CanEndBy, CanEndReplying, EndsIfKnown};
ghost use Rattle.herd_orders.specs.Run.{EndsReplying, EndsReporting, EndsUnwritten, IsFrozenFile, IsReplied};
ghost use Rattle.herd_orders.specs.Run.{IsReported};
ghost use Rattle.herd_orders.specs.Run.{SufficeFor};
ghost use Rattle.herd_orders.specs.declared.orders.Order.{Order};

use crate::run_fault::RunFault;
use herd_advice::{Coefficients, coefficients_of, coefficients_plain};
use herd_animal::AnimalNumber;
use herd_command_file::{CommandReader, fault_of_rest, file_commands};
use herd_frozen::Frozen;
use herd_pedigree::Pedigree;
use herd_pool::{PoolFault, WorkPlan};
use herd_register::{Limits, Register};
use herd_report::{
    are_registered, write_certificates, write_inbreeding, write_inverse, write_mating,
    write_records, write_relationships, write_replies,
};
use herd_sealed_report::{write_seal, write_sealed};
use std::alloc::{AllocError, Global};
use std::io::{Read, Write};
use std::sync::Wait;
use std::thread::Threads;

/// What is asked of a frozen book.
#[derive(Clone, Copy, Debug, PartialEq, Eq)]
pub enum Order<'a> {
    /// The coefficient of inbreeding of each animal.
    Inbreeding(WorkPlan),
    /// The certificates of some animals, each of which must be in the book.
    Certificates(&'a [AnimalNumber]),
    /// For each sire the coefficient that a calf of it and the dam would have.
    Mating {
        dam: AnimalNumber,
        sires: &'a [AnimalNumber],
    },
    /// What each animal contributes to the inverse of A, the numerator relationship matrix.
    Inverse,
    /// The entries of A of some animals with others, or where there are no others with one another.
    Relationships {
        numbers: &'a [AnimalNumber],
        others: &'a [AnimalNumber],
    },
    /// The records of some animals, each of which must be in the book, and where none are named of all.
    Records(&'a [AnimalNumber]),
    /// The seal of the book.
    Seal,
    /// The certificate of an animal, which must be in the book, under the seal of the book.
    Sealed(AnimalNumber),
}

/// Files a command file, and writes the reply to each command.
///
/// After a line fault the replies to the commands before it are written. A write that fails then is told as `Write`.
pub fn answer_file<R: Read + Drop, W: Write>(
    alloc: Global,
    limits: Limits,
    reader: R,
    writer: &mut W,
) -> Result<(), RunFault>
    ensures ok { OnOk result (IfSome (R.remaining reader)
        (λ bytes. IsReplied limits (commands bytes limits.steps) (W.contents writer.old) (W.contents writer.new))) }
    ensures err { IfErr result (λ fault. IfSome (R.remaining reader) (λ bytes. EndsReplying limits
        (commands bytes limits.steps) (W.contents writer.old) (W.contents writer.new) fault)) }
    ensures fault { IfErr result CanEndReplying }
{
    let mut commands = CommandReader::open(alloc, reader, limits.steps)?;
    let mut register = Register::new(alloc, limits);
    answer_commands(alloc, &mut commands, &mut register, writer)
}

// Files what a reader gives in an empty register, and writes the reply to each command. It borrows what `answer_file`
// owns, since the two together take the prover several times as long.
fn answer_commands<R: Read, W: Write>(
    alloc: Global,
    commands: &mut CommandReader<R>,
    register: &mut Register<Global>,
    writer: &mut W,
) -> Result<(), RunFault>
    requires ready { IsReady register.old.limits.steps 0 commands.old }
    requires empty { register.old.journal ≡ [] }
    ensures ok { OnOk result ((file : CommandFile) → HasGiven R.remaining file [] commands.old
        → IsReplied register.old.limits file (W.contents writer.old) (W.contents writer.new)) }
    ensures err { IfErr result (λ fault. (file : CommandFile) → HasGiven R.remaining file [] commands.old
        → EndsReplying register.old.limits file (W.contents writer.old) (W.contents writer.new) fault) }
    ensures fault { IfErr result CanEndReplying }
{
    let fault = file_commands(commands, register)?;
    write_replies(alloc, register.journal(), writer)?;
    match fault {
        None => Ok(()),
        Some(fault) => Err(RunFault::Line(fault)),
    }
}

/// Files a command file, and writes what is ordered of its book.
///
/// A fault of the file is told before a want of memory: once memory is refused, the rest is read and not filed. After
/// either nothing is written.
pub fn run<H: Threads + Wait + Sync, R: Read + Drop, W: Write>(
    rt: &H,
    alloc: Global,
    limits: Limits,
    order: &Order<'_>,
    reader: R,
    writer: &mut W,
) -> Result<(), RunFault>
    ensures ok { OnOk result (AnswersIfKnown limits order.now
        (R.remaining reader) (W.contents writer.old) (W.contents writer.new)) }
    ensures err { IfErr result (EndsIfKnown limits order.now
        (R.remaining reader) (W.contents writer.old) (W.contents writer.new)) }
    ensures fault { IfErr result (CanEndBy order.now) }
{
    let (frozen, steps) = frozen_of_file(alloc, limits, order, reader)?;
    write_report(rt, alloc, &frozen, steps, order, writer)
}

// Files a command file, freezes as much of its book as an order asks for, and counts the steps of its journal. Where
// there is none, nothing is written, whatever is ordered.
fn frozen_of_file<R: Read + Drop>(
    alloc: Global,
    limits: Limits,
    order: &Order<'_>,
    reader: R,
) -> Result<(Frozen<Global>, u64), RunFault>
    ensures ok { IfOk result (λ made. IfSome (R.remaining reader)
        (λ bytes. IsFrozenFile limits order.now (commands bytes limits.steps) made.1 made.0)) }
    ensures err { IfErr result (λ fault. (order : Order) → (text : Option (List ℕ))
        → EndsIfKnown limits order (R.remaining reader) text text fault) }
    ensures fault { IfErr result (λ fault. (order : Order) → CanEndBy order fault) }
{
    let mut commands = CommandReader::open(alloc, reader, limits.steps)?;
    let mut register = Register::new(alloc, limits);
    frozen_of_commands(alloc, order, &mut commands, &mut register)
}

// Files what a reader gives in an empty register, freezes as much of its book as an order asks for, and counts the
// steps of its journal. It borrows what `frozen_of_file` owns, since the two together take the prover several times as
// long.
fn frozen_of_commands<R: Read>(
    alloc: Global,
    order: &Order<'_>,
    commands: &mut CommandReader<R>,
    register: &mut Register<Global>,
) -> Result<(Frozen<Global>, u64), RunFault>
    requires ready { IsReady register.old.limits.steps 0 commands.old }
    requires empty { register.old.journal ≡ [] }
    ensures ok { IfOk result (λ made. (file : CommandFile) → HasGiven R.remaining file [] commands.old
        → IsFrozenFile register.old.limits order.now file made.1 made.0) }
    ensures err { IfErr result (λ fault. (file : CommandFile) → HasGiven R.remaining file [] commands.old
        → EndsUnwritten register.old.limits file fault) }
    ensures fault { IfErr result (λ fault. (order : Order) → CanEndBy order fault) }
{
    file_all(commands, register)?;
    let frozen = freeze_for(alloc, register.pedigree(), order)?;
    Ok((frozen, register.journal().len() as u64))
}

// Files what a reader gives in an empty register. After a want of memory the rest is read, for a fault of the file is
// told before it.
fn file_all<R: Read>(
    commands: &mut CommandReader<R>,
    register: &mut Register<Global>,
) -> Result<(), RunFault>
    requires ready { IsReady register.old.limits.steps 0 commands.old }
    requires empty { register.old.journal ≡ [] }
    ensures read { OnOk result ((file : CommandFile) → HasGiven R.remaining file [] commands.old
        → IsRead register.old.limits.steps file (commands_of register.new.journal) None) }
    ensures filed { OnOk result (HasFiled register.old.limits (commands_of register.new.journal) register.new) }
    ensures err { IfErr result (λ fault. (file : CommandFile) → HasGiven R.remaining file [] commands.old
        → EndsUnwritten register.old.limits file fault) }
    ensures fault { IfErr result (λ fault. (order : Order) → CanEndBy order fault) }
{
    match file_commands(commands, register) {
        Ok(None) => Ok(()),
        Ok(Some(fault)) => Err(RunFault::Line(fault)),
        Err(AllocError) => match fault_of_rest(commands) {
            None => Err(RunFault::Memory),
            Some(line) => Err(RunFault::Line(line)),
        },
    }
}

// As much of a book as an order asks for, in age order: certificates ask for no animal but those that are named and
// their ancestors.
fn freeze_for(
    alloc: Global,
    pedigree: &Pedigree<Global>,
    order: &Order<'_>,
) -> Result<Frozen<Global>, AllocError>
    ensures { IfOk result (SufficeFor order.now pedigree.now.book) }
{
    match *order {
        Order::Certificates(numbers) => pedigree.freeze_ancestors(alloc, numbers),
        _ => pedigree.freeze(alloc),
    }
}

/// Writes what is ordered of a frozen book, whose journal has so many steps.
// The order is lent: no proof is had of a function that hands one on and may return before.
pub fn write_report<H: Threads + Wait + Sync, W: Write>(
    rt: &H,
    alloc: Global,
    frozen: &Frozen<Global>,
    steps: u64,
    order: &Order<'_>,
    writer: &mut W,
) -> Result<(), RunFault>
    ensures ok { OnOk result (IsReported order.now steps frozen.now (W.contents writer.old) (W.contents writer.new)) }
    ensures err { IfErr result
        (EndsReporting order.now steps frozen.now (W.contents writer.old) (W.contents writer.new)) }
{
    match *order {
        Order::Inbreeding(plan) => {
            let coefficients = shared_coefficients(rt, alloc, frozen, plan)?;
            write_inbreeding(alloc, frozen, &coefficients, writer).map_err(RunFault::from)
        }
        Order::Certificates(numbers) => {
            if !are_registered(frozen, numbers) {
                return Err(RunFault::NotRegistered);
            }
            let coefficients = coefficients_of(alloc, frozen, numbers)?;
            write_certificates(alloc, frozen, &coefficients, numbers, writer).map_err(
                RunFault::from,
            )
        }
        Order::Mating { dam, sires } => {
            let coefficients = coefficients_of(alloc, frozen, &[dam])?;
            write_mating(alloc, frozen, &coefficients, dam, sires, writer).map_err(RunFault::from)
        }
        Order::Inverse => {
            let coefficients = coefficients_plain(alloc, frozen)?;
            write_inverse(alloc, frozen, &coefficients, writer).map_err(RunFault::from)
        }
        Order::Relationships { numbers, others } => {
            let coefficients = coefficients_of(alloc, frozen, numbers)?;
            write_relationships(alloc, frozen, &coefficients, numbers, others, writer).map_err(
                RunFault::from,
            )
        }
        Order::Records(numbers) => write_records(alloc, frozen, numbers, writer).map_err(
            RunFault::from,
        ),
        Order::Seal => write_seal(alloc, frozen, steps, writer).map_err(RunFault::from),
        Order::Sealed(number) => write_sealed(alloc, frozen, steps, number, writer).map_err(
            RunFault::from,
        ),
    }
}

// The coefficients of a book's animals, sire by sire. One worker computes them without a pool.
fn shared_coefficients<H: Threads + Wait + Sync>(
    rt: &H,
    alloc: Global,
    frozen: &Frozen<Global>,
    plan: WorkPlan,
) -> Result<Coefficients<Global>, PoolFault>
    ensures list { IfOk result (AreBookCoefficients DEPTH_LIMIT frozen.now) }
    ensures fault { IfErr result (λ fault. fault ≡ PoolFault.NoThread → 1 < plan.workers) }
{
    if plan.workers == 1 {
        Ok(coefficients_plain(alloc, frozen)?)
    } else {
        herd_book_pool::coefficients_by_sires(rt, alloc, frozen, plan.workers, plan.block)
    }
}
