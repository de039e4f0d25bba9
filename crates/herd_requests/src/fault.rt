//! Why a request isn't answered.
ghost use Rattle.std.specs.Prelude.{◌≡◌};
ghost use Rattle.herd_requests.specs.Faults.{fault_name, fault_of_filing, fault_of_freezing};
ghost use Rattle.herd_requests.specs.declared.fault.Fault.TheVariants.{Fields, Memory};

use herd_command_file::LineCause;
use herd_office::FreezeFault;
use herd_register::FileFault;
use std::alloc::{AllocError, AllocFailed};

/// Why a request isn't answered. Nothing was filed then.
#[derive(Clone, Copy, Debug, PartialEq, Eq, Drop)]
pub enum Fault {
    /// The tag isn't 1 to `LONGEST_TAG` letters, digits and hyphens, or it is `closed`.
    Tag,
    /// It is neither for a desk nor for an inspector.
    Addressee,
    /// There is no desk of this number.
    NoDesk,
    /// There is no inspector of this number.
    NoInspector,
    /// A command's fields, or a question's, can't be read.
    Fields(LineCause),
    /// There is no such question.
    Question,
    /// An animal of a certificate, a coefficient or a record isn't in the book.
    NotRegistered,
    /// The report has more bytes, without tags, than a session gives (`LONGEST_REPORT` of `herd_session`).
    TooLong,
    /// The journal has as many steps as the limits allow.
    JournalFull,
    /// A growth of memory was refused.
    Memory,
    /// The office gave no reading. No office is known to meet it.
    NoReading,
}

impl Fault {
    /// The name that is printed.
    pub fn name(self) -> &'static str
        ensures { result.now ≡ fault_name self }
    {
        match self {
            Fault::Tag => "Tag",
            Fault::Addressee => "Addressee",
            Fault::NoDesk => "NoDesk",
            Fault::NoInspector => "NoInspector",
            Fault::Fields(cause) => cause.name(),
            Fault::Question => "Question",
            Fault::NotRegistered => "NotRegistered",
            Fault::TooLong => "TooLong",
            Fault::JournalFull => "JournalFull",
            Fault::Memory => "Memory",
            Fault::NoReading => "NoReading",
        }
    }
}

impl From<LineCause> for Fault {
    ghost from_gives = { λ cause fault. fault ≡ Fields cause };

    fn from(cause: LineCause) -> Fault {
        Fault::Fields(cause)
    }
}

impl From<FileFault> for Fault {
    ghost from_gives = { λ cause fault. fault ≡ fault_of_filing cause };

    fn from(fault: FileFault) -> Fault {
        match fault {
            FileFault::JournalFull => Fault::JournalFull,
            FileFault::Memory => Fault::Memory,
            FileFault::NoReading => Fault::NoReading,
        }
    }
}

impl From<FreezeFault> for Fault {
    ghost from_gives = { λ cause fault. fault ≡ fault_of_freezing cause };

    fn from(fault: FreezeFault) -> Fault {
        match fault {
            FreezeFault::Memory => Fault::Memory,
            FreezeFault::NoReading => Fault::NoReading,
        }
    }
}

impl From<AllocError> for Fault {
    ghost from_gives = { λ _ fault. fault ≡ Memory };

    fn from(_refused: AllocError) -> Fault {
        Fault::Memory
    }
}

impl<T: Drop> From<AllocFailed<T>> for Fault {
    ghost from_gives = { λ _ fault. fault ≡ Memory };

    fn from(_refused: AllocFailed<T>) -> Fault {
        Fault::Memory
    }
}
