ghost use Rattle.std.specs.Prelude.{◌≡◌};
ghost use Rattle.herd_command_file.specs.LineCause.{cause_name, cause_number};

use csv_records::Interruption;
use thiserror::Error;

/// What is wrong with a record of a command file. Of its fields the first faulty one from the left decides.
#[derive(Clone, Copy, Debug, PartialEq, Eq, Error)]
pub enum LineCause {
    /// It is neither of the two headers, or the file has no record.
    #[error("the first record is no header")]
    Header,
    /// It is asked before any field.
    #[error("the record hasn't as many fields as the header")]
    Fields,
    /// It is told of a record of empty fields too.
    #[error("there is no such kind of command")]
    Kind,
    #[error("the animal is no animal number")]
    Animal,
    /// It is no day at all, or not of the years 1900 to 2199.
    #[error("the day is no day of the book")]
    Day,
    /// Unknown is an empty field or `0`.
    #[error("the sire is neither unknown nor an animal number")]
    Sire,
    /// Unknown is an empty field or `0`.
    #[error("the dam is neither unknown nor an animal number")]
    Dam,
    /// Of a transfer.
    #[error("the giver is no herd")]
    FromHerd,
    /// Of a transfer, or of a birth, whose owner stands there.
    #[error("the taker is no herd")]
    ToHerd,
    #[error("a field that this kind of command doesn't use isn't empty")]
    FieldNotUsed,
    /// It doesn't stand in the file: it is told of the record that was being read.
    #[error("the reader failed")]
    Read,
    /// It is told of the first record too many, before its fields are asked.
    #[error("there are more commands than may be read")]
    TooMany,
    /// It doesn't stand in the file: it is told of the record that was being read.
    #[error("memory ran out")]
    Memory,
    /// Of a birth.
    #[error("the embryo field is neither empty nor 1")]
    Embryo,
}

impl LineCause {
    /// The number that the program prints, from 1 to 14.
    pub fn number(self) -> u8
        ensures { result ≡ cause_number self }
    {
        match self {
            LineCause::Header => 1,
            LineCause::Fields => 2,
            LineCause::Kind => 3,
            LineCause::Animal => 4,
            LineCause::Day => 5,
            LineCause::Sire => 6,
            LineCause::Dam => 7,
            LineCause::FromHerd => 8,
            LineCause::ToHerd => 9,
            LineCause::FieldNotUsed => 10,
            LineCause::Read => 11,
            LineCause::TooMany => 12,
            LineCause::Memory => 13,
            LineCause::Embryo => 14,
        }
    }

    /// The name that the program prints.
    pub fn name(self) -> &'static str
        ensures { result.now ≡ cause_name self }
    {
        match self {
            LineCause::Header => "Header",
            LineCause::Fields => "Fields",
            LineCause::Kind => "Kind",
            LineCause::Animal => "Animal",
            LineCause::Day => "Day",
            LineCause::Sire => "Sire",
            LineCause::Dam => "Dam",
            LineCause::FromHerd => "FromHerd",
            LineCause::ToHerd => "ToHerd",
            LineCause::FieldNotUsed => "FieldNotUsed",
            LineCause::Read => "Read",
            LineCause::TooMany => "TooMany",
            LineCause::Memory => "Memory",
            LineCause::Embryo => "Embryo",
        }
    }

    /// This cause at the record of a number.
    pub fn at(self, record_number: u32) -> LineFault
        ensures { result ≡ record { record_number = record_number; cause = self } }
    {
        LineFault {
            record_number,
            cause: self,
        }
    }
}

impl From<Interruption> for LineCause {
    ghost use Rattle.herd_command_file.specs.LineCause.{interrupted};

    ghost from_gives = { λ interruption cause. cause ≡ interrupted interruption };

    fn from(interruption: Interruption) -> LineCause {
        match interruption {
            Interruption::Read => LineCause::Read,
            Interruption::Memory => LineCause::Memory,
        }
    }
}

/// The first fault of a command file.
#[derive(Clone, Copy, Debug, PartialEq, Eq, Error)]
#[error("record {record_number}: {cause}")]
pub struct LineFault {
    /// The number of the record: the header is 0, the first command 1. Blank lines don't count.
    pub record_number: u32,
    /// What is wrong with it.
    pub cause: LineCause,
}
