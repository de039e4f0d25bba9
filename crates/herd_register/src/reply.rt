ghost use Rattle.std.specs.Prelude.{◌≡◌};
ghost use Rattle.herd_register.specs.Refusal.{refusal_number, refusal_of};

use herd_frozen::ParentFault;
use thiserror::Error;

/// Why a command was refused. The first that holds, in the order of the command's kind, is told.
///
/// The order is that of the variants, but that `NotRegistered` comes first, and of a transfer `SameHerd` before
/// `DayTooEarly`. Those from `SireMissing` to `TooDeep` are the faults of parents (`ParentFault`), of a birth or of a
/// correction of parents.
#[derive(Clone, Copy, Debug, PartialEq, Eq, Error)]
pub enum Refusal {
    /// Of a birth, also where the animal has left.
    #[error("the number is in the book already")]
    AlreadyThere,
    /// Of a birth.
    #[error("the book has as many animals as the limits allow")]
    BookFull,
    #[error("the sire isn't in the book")]
    SireMissing,
    #[error("the dam isn't in the book")]
    DamMissing,
    #[error("the sire isn't male")]
    SireNotMale,
    #[error("the dam isn't female")]
    DamNotFemale,
    #[error("the sire isn't older")]
    SireNotOlder,
    #[error("the dam isn't older")]
    DamNotOlder,
    #[error("the dam has left")]
    DamGone,
    #[error("a path would be too long")]
    TooDeep,
    /// Of any command but a birth.
    #[error("the number isn't in the book")]
    NotRegistered,
    /// Of a transfer or an exit.
    #[error("the animal has left")]
    Gone,
    /// Of a transfer.
    #[error("the giver isn't the owner")]
    NotOwner,
    /// Of a transfer or an exit.
    #[error("the day is before the owner's first")]
    DayTooEarly,
    /// Of a transfer.
    #[error("giver and taker are the same herd")]
    SameHerd,
    /// Of an exit. Calves from stored embryos don't count.
    #[error("the animal has a calf born after the day")]
    CalvedLater,
}

impl Refusal {
    /// The number that replies print, from 1 to 16.
    pub fn number(self) -> u8
        ensures { result ≡ refusal_number self }
    {
        match self {
            Refusal::AlreadyThere => 1,
            Refusal::BookFull => 2,
            Refusal::SireMissing => 3,
            Refusal::DamMissing => 4,
            Refusal::SireNotMale => 5,
            Refusal::DamNotFemale => 6,
            Refusal::SireNotOlder => 7,
            Refusal::DamNotOlder => 8,
            Refusal::DamGone => 9,
            Refusal::TooDeep => 10,
            Refusal::NotRegistered => 11,
            Refusal::Gone => 12,
            Refusal::NotOwner => 13,
            Refusal::DayTooEarly => 14,
            Refusal::SameHerd => 15,
            Refusal::CalvedLater => 16,
        }
    }
}

impl From<ParentFault> for Refusal {
    ghost from_gives = { λ fault refusal. refusal ≡ refusal_of fault };

    fn from(fault: ParentFault) -> Self {
        match fault {
            ParentFault::SireMissing => Refusal::SireMissing,
            ParentFault::DamMissing => Refusal::DamMissing,
            ParentFault::SireNotMale => Refusal::SireNotMale,
            ParentFault::DamNotFemale => Refusal::DamNotFemale,
            ParentFault::SireNotOlder => Refusal::SireNotOlder,
            ParentFault::DamNotOlder => Refusal::DamNotOlder,
            ParentFault::DamGone => Refusal::DamGone,
            ParentFault::TooDeep => Refusal::TooDeep,
        }
    }
}

/// What the register answers to a command.
#[derive(Clone, Copy, Debug, PartialEq, Eq)]
pub enum Reply {
    Accepted,
    Refused(Refusal),
}
