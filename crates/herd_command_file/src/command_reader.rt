//! The commands of a file, one at a time.
ghost use Rattle.std.specs.Prelude.{◌≡◌, ◌<◌, ◌≤◌, ◌+◌, List, IfErr, IfOk, IfSome, false, true};
ghost use Rattle.csv.specs.Reading.{has_failed};
ghost use Rattle.herd_register.specs.declared.command.Command.{Command};
ghost use Rattle.herd_register.specs.declared.limits.TheConstants.{MOST_STEPS};
ghost use Rattle.herd_command_file.specs.CommandFile.{CommandFile, TakesHeader, commands};
ghost use Rattle.herd_command_file.specs.CommandReader.{Gives, HasGiven, IsOpen, IsReady, Opens, TakesNext};
ghost use Rattle.herd_command_file.specs.LineCause.{is_interruption};
ghost use Rattle.csv_records.specs.Upcoming.{IsSetUp, ReadsOne, upcoming};

use crate::columns::parse_command;
use crate::line_fault::{LineCause, LineFault};
use crate::version::Version;
use csv::{ByteRecord, Reader};
use csv_records::{open_records, read_record};
use herd_register::Command;
use std::alloc::Global;
use std::io::Read;

/// Reads a command file of either version, and no record after its first fault.
///
/// `file_commands` files the commands that it gives, and `fault_of_rest` asks for those that it has still to give.
#[derive(Drop)]
pub struct CommandReader<R> {
    records: Reader<R>,
    row: ByteRecord,
    version: Version,
    most: u32,
    given: u32,
}

impl<R: Read + Drop> CommandReader<R> {
    /// Reads the header. At most so many commands are given; a file with more has a fault.
    pub fn open(alloc: Global, reader: R, most: u32) -> Result<CommandReader<R>, LineFault>
        requires { most ≤ MOST_STEPS }
        ensures ready { IfOk result (λ commands. IsReady most 0 commands) }
        ensures opens { IfSome (R.remaining reader) (λ bytes. Opens R.remaining most (commands bytes most) result) }
        ensures record_number { IfErr result (λ fault. fault.record_number ≡ 0) }
    {
        let mut records = open_records(alloc, reader);
        let mut row = ByteRecord::new(alloc);
        match read_header(&mut records, &mut row) {
            Ok(Some(version)) => Ok(CommandReader {
                records,
                row,
                version,
                most,
                given: 0,
            }),
            Ok(None) => Err(LineCause::Header.at(0)),
            Err(cause) => Err(cause.at(0)),
        }
    }
}

impl<R: Read> CommandReader<R> {
    /// The number of the record that was given last as a command.
    pub(crate) fn record_number(&self) -> u32
        ensures { result ≡ self.now.given }
    {
        self.given
    }

    /// The next command, or none at the end of the file. After the end or a fault nothing more may be asked.
    // Inlined: the command is moved once.
    #[inline(always)]
    pub(crate) fn next_command(&mut self) -> Result<Option<Command>, LineFault>
        requires { IsOpen self.old }
        ensures ready { IfOk result (λ given. IfSome given (λ _. IsReady self.old.most (self.old.given + 1) self.new)) }
        ensures gives { (file : CommandFile) → (list : List Command) → HasGiven R.remaining file list self.old
            → Gives R.remaining self.old.most file list self.new result }
        ensures record_number { IfErr result (λ fault. fault.record_number ≡ self.old.given + 1) }
        ensures given { IfErr result (λ _. self.new.given ≡ self.old.given) }
        ensures interrupted { IfErr result (λ fault. is_interruption fault.cause ≡ has_failed self.new.records) }
        ensures one { IfErr result (λ fault. is_interruption fault.cause ≡ false
            → ReadsOne (upcoming R.remaining self.old.records) (upcoming R.remaining self.new.records)) }
    {
        let record_number = self.given + 1;
        match self.read_command() {
            Ok(Some(command)) => {
                self.given = record_number;
                Ok(Some(command))
            }
            Ok(None) => Ok(None),
            Err(cause) => Err(cause.at(record_number)),
        }
    }

    // The command of the next record, if there is one.
    #[inline(always)]
    fn read_command(&mut self) -> Result<Option<Command>, LineCause>
        requires { IsOpen self.old }
        ensures version { self.new.version ≡ self.old.version }
        ensures most { self.new.most ≡ self.old.most }
        ensures given { self.new.given ≡ self.old.given }
        ensures set_up { IfOk result (λ next. IfSome next (λ _. IsSetUp self.new.records)) }
        ensures room { IfOk result (λ next. IfSome next (λ _. self.old.given < self.old.most)) }
        ensures takes { TakesNext self.old.version self.old.most (self.old.given + 1)
            (upcoming R.remaining self.old.records) (upcoming R.remaining self.new.records) result }
        ensures interrupted { IfErr result (λ cause. is_interruption cause ≡ has_failed self.new.records) }
        ensures one { IfErr result (λ cause. is_interruption cause ≡ false
            → ReadsOne (upcoming R.remaining self.old.records) (upcoming R.remaining self.new.records)) }
    {
        if !read_record(&mut self.records, &mut self.row)? {
            return Ok(None);
        }
        if self.given == self.most {
            return Err(LineCause::TooMany);
        }
        let command = parse_command(self.version, &self.row)?;
        Ok(Some(command))
    }
}

// The version that the first record tells, if there is one and it is a header.
fn read_header<R: Read>(
    reader: &mut Reader<R>,
    row: &mut ByteRecord,
) -> Result<Option<Version>, LineCause>
    requires { IsSetUp reader.old }
    ensures set_up { IfOk result (λ version. IfSome version (λ _. IsSetUp reader.new)) }
    ensures takes { IfOk result (TakesHeader (upcoming R.remaining reader.old) (upcoming R.remaining reader.new)) }
    ensures interrupted { IfErr result (λ cause. is_interruption cause ≡ true) }
{
    if read_record(reader, row)? {
        Ok(Version::of(row))
    } else {
        Ok(None)
    }
}
