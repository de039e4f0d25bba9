//! Filing commands in a register, one after the other at desk 0.
ghost use Rattle.std.specs.Prelude.{◌≡◌, ◌+◌, ◌<◌, List, [], IfOk, IfSome, OnErr, OnOk, length};
ghost use Rattle.csv.specs.Reading.{has_failed};
ghost use Rattle.herd_register.specs.Run.{commands_of};
ghost use Rattle.herd_register.specs.declared.command.Command.{Command};
ghost use Rattle.herd_command_file.specs.CommandFile.{CommandFile, IsRead, IsReadUpTo};
ghost use Rattle.herd_command_file.specs.CommandReader.{HasGiven, IsOpen, IsReady};
ghost use Rattle.herd_command_file.specs.LineCause.{is_interruption};
ghost use Rattle.herd_command_file.specs.Filing.{HasFiled};

use crate::command_reader::CommandReader;
use crate::line_fault::LineFault;
use herd_register::{FileFault, Register};
use std::alloc::{AllocError, Global};
use std::io::Read;

/// Files what a reader gives in an empty register, up to the end of the file, its first fault, or a want of memory.
///
/// After a want of memory the command that found none is read and not filed; `fault_of_rest` reads on. No clause says
/// then what the register holds: by reading, the commands before that one.
pub fn file_commands<R: Read>(
    commands: &mut CommandReader<R>,
    register: &mut Register<Global>,
) -> Result<Option<LineFault>, AllocError>
    requires ready { IsReady register.old.limits.steps 0 commands.old }
    requires empty { register.old.journal ≡ [] }
    ensures file { IfOk result (λ fault. (file : CommandFile) → HasGiven R.remaining file [] commands.old
        → IsRead register.old.limits.steps file (commands_of register.new.journal) fault) }
    ensures record_number { IfOk result (λ told. IfSome told
        (λ fault. fault.record_number ≡ length register.new.journal + 1)) }
    ensures interrupted { IfOk result (λ told. IfSome told
        (λ fault. is_interruption fault.cause ≡ has_failed commands.new.records)) }
    ensures filed { OnOk result (HasFiled register.old.limits (commands_of register.new.journal) register.new) }
    ensures some { OnErr result
        ((file : CommandFile) → HasGiven R.remaining file [] commands.old → 0 < length file.commands) }
    ensures ready { OnErr result (IsReady register.old.limits.steps commands.new.given commands.new) }
    ensures rest { OnErr result ((file : CommandFile) → HasGiven R.remaining file [] commands.old
        → (list : List Command) × HasGiven R.remaining file list commands.new) }
{
    loop {
        match commands.next_command() {
            Ok(Some(command)) => match register.file(0, command) {
                Ok(_) => {}
                Err(fault) => {
                    // The journal has room.
                    prove!(matches!(fault, FileFault::Memory));
                    return Err(AllocError);
                }
            },
            Ok(None) => return Ok(None),
            Err(fault) => return Ok(Some(fault)),
        }
    }
}

/// The first fault in the rest of a file, which is read and not filed.
pub fn fault_of_rest<R: Read>(commands: &mut CommandReader<R>) -> Option<LineFault>
    requires { IsOpen commands.old }
    ensures file { (file : CommandFile) → (list : List Command) → HasGiven R.remaining file list commands.old
        → IsReadUpTo commands.old.most file result }
    ensures record_number { IfSome result (λ fault. fault.record_number ≡ commands.new.given + 1) }
    ensures interrupted { IfSome result (λ fault. is_interruption fault.cause ≡ has_failed commands.new.records) }
{
    loop {
        match commands.next_command() {
            Ok(Some(_)) => {}
            Ok(None) => return None,
            Err(fault) => return Some(fault),
        }
    }
}
