ghost use Rattle.std.specs.Prelude.{◌≡◌, ◌+◌, ◌<◌, ◌^◌};
ghost use Rattle.herd_seal.specs.CheckCause.{cause_name, no_memory};
ghost use Rattle.herd_seal.specs.CheckFaults.{at_row};

use std::alloc::{AllocError, AllocFailed};

/// What is wrong with a certificate. The first that holds is told, in this order: of the bytes (`Read`, `TooMany`), of
/// the text line by line (`Header`, `Row`, `Digests`), of the rows together (`TooMany`, `Order`), row by row of its
/// parents (`ParentLacks`, `ParentNumber`, `TooDeep`), of the animal (`Number`), of rows of others (`Row`), of too few
/// or too many digests (`Digests`), `Seal`, and last `Coefficient`. `Memory` may come at any step.
#[derive(Clone, Copy, Debug, PartialEq, Eq)]
pub enum CheckCause {
    /// The reader failed.
    Read,
    /// The text is longer than may be read, or has too many rows.
    TooMany,
    /// There is no memory. Any step may find it.
    Memory,
    /// The first line isn't a header.
    Header,
    /// A line behind the header that has a comma isn't a row; or a row isn't the animal's or an ancestor's.
    Row,
    /// A line behind the rows isn't a digest or has no end; or there are too few or too many digests, or the place of a
    /// row isn't one of the book's.
    Digests,
    /// The row's place isn't above that of the row before.
    Order,
    /// A known parent of the row isn't shown before it, or has a place and no number, or a number and no place.
    ParentLacks,
    /// A parent's row has another number than the row names.
    ParentNumber,
    /// More than 60 steps lead from the row to an ancestor.
    TooDeep,
    /// No row at the animal's place has its number.
    Number,
    /// The seal that is asked for isn't that of the header, or not that of the rows and digests.
    Seal,
    /// The coefficient or its percentage is another.
    Coefficient,
}

impl CheckCause {
    /// The name that the program prints.
    pub fn name(self) -> &'static str
        ensures { result.now ≡ cause_name self }
    {
        match self {
            CheckCause::Read => "Read",
            CheckCause::TooMany => "TooMany",
            CheckCause::Memory => "Memory",
            CheckCause::Header => "Header",
            CheckCause::Row => "Row",
            CheckCause::Digests => "Digests",
            CheckCause::Order => "Order",
            CheckCause::ParentLacks => "ParentLacks",
            CheckCause::ParentNumber => "ParentNumber",
            CheckCause::TooDeep => "TooDeep",
            CheckCause::Number => "Number",
            CheckCause::Seal => "Seal",
            CheckCause::Coefficient => "Coefficient",
        }
    }

    /// This cause at a line.
    pub(crate) fn at(self, line: usize) -> CheckFault
        ensures { result ≡ record { cause = self; line = line } }
    {
        CheckFault { cause: self, line }
    }

    /// This cause at a row, which count from 0 and stand behind the header.
    pub(crate) fn at_row(self, row: usize) -> CheckFault
        ensures cause { result.cause ≡ self }
        ensures line { row + 2 < 2 ^ 64 → result.line ≡ row + 2 }
        ensures fault { row + 2 < 2 ^ 64 → result ≡ at_row self row }
    {
        self.at(row.saturating_add(2))
    }
}

/// Why a certificate is refused, and the line where, which counts from 1. What is of no line has line 0: `Read`,
/// `TooMany` and `Memory`. What is of the whole has line 1: `Number`, `Seal`, `Coefficient`, and `Digests` where they
/// are too few or too many.
#[derive(Clone, Copy, Debug, PartialEq, Eq)]
pub struct CheckFault {
    pub cause: CheckCause,
    pub line: usize,
}

impl From<AllocError> for CheckFault {
    ghost from_gives = { λ _ fault. fault ≡ no_memory };

    fn from(_refused: AllocError) -> CheckFault {
        CheckCause::Memory.at(0)
    }
}

impl<T: Drop> From<AllocFailed<T>> for CheckFault {
    ghost from_gives = { λ _ fault. fault ≡ no_memory };

    fn from(_refused: AllocFailed<T>) -> CheckFault {
        CheckCause::Memory.at(0)
    }
}
