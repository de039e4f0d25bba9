ghost use Rattle.std.specs.Prelude.{◌≡◌};
ghost use Rattle.herd_pedigree_file.specs.PedigreeCause.{cause_name, cause_number};

use csv_records::Interruption;
use herd_lineage::LineageFault;
use thiserror::Error;

/// What is wrong with a record of a pedigree file. The first that holds, in this order, is told.
#[derive(Clone, Copy, Debug, PartialEq, Eq, Error)]
pub enum PedigreeCause {
    /// It isn't the header, or the file has no record.
    #[error("the first record is no header")]
    Header,
    /// It doesn't stand in the file: it is told of the record that was being read.
    #[error("the reader failed")]
    Read,
    /// It doesn't stand in the file: it is told of the record that was being read.
    #[error("memory ran out")]
    Memory,
    /// It is told of the first record too many, before its fields are asked.
    #[error("there are more animals than may be read")]
    TooMany,
    #[error("the record hasn't two fields")]
    Fields,
    /// Unknown is an empty field or `0`.
    #[error("the sire is neither unknown nor the number of an earlier record")]
    Sire,
    /// Unknown is an empty field or `0`.
    #[error("the dam is neither unknown nor the number of an earlier record")]
    Dam,
    #[error("the longest path of known parents has too many steps")]
    TooDeep,
}

impl PedigreeCause {
    /// The number that the program prints, from 1 to 8.
    pub fn number(self) -> u8
        ensures { result ≡ cause_number self }
    {
        match self {
            PedigreeCause::Header => 1,
            PedigreeCause::Read => 2,
            PedigreeCause::Memory => 3,
            PedigreeCause::TooMany => 4,
            PedigreeCause::Fields => 5,
            PedigreeCause::Sire => 6,
            PedigreeCause::Dam => 7,
            PedigreeCause::TooDeep => 8,
        }
    }

    /// The name that the program prints.
    pub fn name(self) -> &'static str
        ensures { result.now ≡ cause_name self }
    {
        match self {
            PedigreeCause::Header => "Header",
            PedigreeCause::Read => "Read",
            PedigreeCause::Memory => "Memory",
            PedigreeCause::TooMany => "TooMany",
            PedigreeCause::Fields => "Fields",
            PedigreeCause::Sire => "Sire",
            PedigreeCause::Dam => "Dam",
            PedigreeCause::TooDeep => "TooDeep",
        }
    }

    /// This cause at the record of a number.
    pub(crate) fn at(self, record_number: u32) -> PedigreeFault
        ensures { result ≡ record { record_number = record_number; cause = self } }
    {
        PedigreeFault {
            record_number,
            cause: self,
        }
    }
}

impl From<LineageFault> for PedigreeCause {
    ghost use Rattle.herd_pedigree_file.specs.PedigreeCause.{cause_of};

    ghost from_gives = { λ fault cause. cause ≡ cause_of fault };

    fn from(fault: LineageFault) -> PedigreeCause {
        match fault {
            LineageFault::Full => PedigreeCause::TooMany,
            LineageFault::Sire => PedigreeCause::Sire,
            LineageFault::Dam => PedigreeCause::Dam,
            LineageFault::TooDeep => PedigreeCause::TooDeep,
            LineageFault::Memory => PedigreeCause::Memory,
        }
    }
}

impl From<Interruption> for PedigreeCause {
    ghost use Rattle.herd_pedigree_file.specs.PedigreeCause.{interrupted};

    ghost from_gives = { λ interruption cause. cause ≡ interrupted interruption };

    fn from(interruption: Interruption) -> PedigreeCause {
        match interruption {
            Interruption::Read => PedigreeCause::Read,
            Interruption::Memory => PedigreeCause::Memory,
        }
    }
}

/// The first fault of a pedigree file.
#[derive(Clone, Copy, Debug, PartialEq, Eq, Error)]
#[error("record {record_number}: {cause}")]
pub struct PedigreeFault {
    /// The number of the record: the header is 0, the first animal 1. Blank lines don't count.
    pub record_number: u32,
    /// What is wrong with it.
    pub cause: PedigreeCause,
}
