//! Reading a command file.
ghost use Rattle.std.specs.Prelude.{◌≡◌, ◌≤◌, ◌+◌, [], IfErr, IfSome, length};
ghost use Rattle.std.specs.Result.{result_err};
ghost use Rattle.herd_register.specs.declared.limits.TheConstants.{MOST_STEPS};
ghost use Rattle.herd_command_file.specs.CommandFile.{IsNextRecord, IsRead, commands};

use crate::command_reader::CommandReader;
use crate::line_fault::{LineCause, LineFault};
use herd_register::Command;
use std::alloc::Global;
use std::io::Read;

/// The commands of a file before its first fault, and that fault.
#[derive(Debug, Drop)]
pub struct Commands {
    /// In their order: the first is that of record 1.
    pub list: Vec<Command>,
    /// None where the whole file was read.
    pub fault: Option<LineFault>,
}

/// Reads a command file of either version, up to its first fault.
///
/// The faults `Read` and `Memory` don't stand in the file: they tell the number of the record that was being read.
pub fn read_commands<R: Read + Drop>(alloc: Global, reader: R, most: u32) -> Commands
    requires { most ≤ MOST_STEPS }
    ensures file { IfSome (R.remaining reader)
        (λ bytes. IsRead most (commands bytes most) result.list.items result.fault) }
    ensures most { length result.list.items ≤ most }
    ensures record_number { IfSome result.fault (λ fault. IsNextRecord result.list.items fault.record_number) }
    ensures last { IfSome result.fault (λ fault. fault.record_number ≤ most + 1) }
{
    let mut list = Vec::new(alloc);
    let fault = list_commands(alloc, reader, most, &mut list).err();
    Commands { list, fault }
}

/// Adds the commands of a file to an empty list, up to its first fault. `read_commands` gives both as a value.
pub fn list_commands<R: Read + Drop>(
    alloc: Global,
    reader: R,
    most: u32,
    list: &mut Vec<Command>,
) -> Result<(), LineFault>
    requires most { most ≤ MOST_STEPS }
    requires empty { list.old.items ≡ [] }
    ensures file { IfSome (R.remaining reader)
        (λ bytes. IsRead most (commands bytes most) list.new.items (result_err result)) }
    ensures most { length list.new.items ≤ most }
    ensures record_number { IfErr result (λ fault. IsNextRecord list.new.items fault.record_number) }
{
    let mut commands = CommandReader::open(alloc, reader, most)?;
    while let Some(command) = commands.next_command()? {
        if list.push(command).is_err() {
            return Err(LineCause::Memory.at(commands.record_number()));
        }
    }
    Ok(())
}
