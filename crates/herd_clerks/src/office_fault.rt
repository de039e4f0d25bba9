//! Why the work in an office ends early.
ghost use Rattle.std.specs.Prelude.{◌≡◌, ◌≢◌};
ghost use Rattle.herd_clerks.specs.Clerks.{fault_of_filing, fault_of_freezing, fault_of_opening};
ghost use Rattle.herd_clerks.specs.declared.office_fault.OfficeFault.TheVariants.{Memory};

use herd_office::{CloseFault, FreezeFault, OpenFault};
use herd_register::FileFault;
use std::alloc::{AllocError, AllocFailed};

/// Why the work in an office ends early.
#[derive(Clone, Copy, Debug, PartialEq, Eq, Drop)]
pub enum OfficeFault {
    /// A thread couldn't be started.
    NoThread,
    /// A growth of memory was refused.
    Memory,
    /// An office lacks a seat for a reader or room for a step.
    NoRoom,
    /// An office gives no reading, or isn't closed: a history that was handed in isn't a beginning of its journal, or
    /// two desks have one number.
    NoReading,
}

impl OfficeFault {
    /// Why the work ends where the office isn't closed, though no desk and no inspector is missing.
    pub fn of_closing(cause: CloseFault) -> OfficeFault
        requires desks { cause ≢ CloseFault.DeskMissing }
        requires inspectors { cause ≢ CloseFault.InspectorMissing }
        ensures { result ≡ OfficeFault.NoReading }
    {
        match cause {
            CloseFault::NoReading => OfficeFault::NoReading,
            CloseFault::DeskMissing | CloseFault::InspectorMissing => unreachable!(),
        }
    }
}

impl From<AllocError> for OfficeFault {
    ghost from_gives = { λ _ fault. fault ≡ Memory };

    fn from(_refused: AllocError) -> OfficeFault {
        OfficeFault::Memory
    }
}

impl<T: Drop> From<AllocFailed<T>> for OfficeFault {
    ghost from_gives = { λ _ fault. fault ≡ Memory };

    fn from(_refused: AllocFailed<T>) -> OfficeFault {
        OfficeFault::Memory
    }
}

impl From<OpenFault> for OfficeFault {
    ghost from_gives = { λ cause fault. fault ≡ fault_of_opening cause };

    fn from(fault: OpenFault) -> OfficeFault {
        match fault {
            OpenFault::Memory => OfficeFault::Memory,
            OpenFault::NoPlace => OfficeFault::NoRoom,
        }
    }
}

impl From<FileFault> for OfficeFault {
    ghost from_gives = { λ cause fault. fault ≡ fault_of_filing cause };

    fn from(fault: FileFault) -> OfficeFault {
        match fault {
            FileFault::Memory => OfficeFault::Memory,
            FileFault::JournalFull => OfficeFault::NoRoom,
            FileFault::NoReading => OfficeFault::NoReading,
        }
    }
}

impl From<FreezeFault> for OfficeFault {
    ghost from_gives = { λ cause fault. fault ≡ fault_of_freezing cause };

    fn from(fault: FreezeFault) -> OfficeFault {
        match fault {
            FreezeFault::Memory => OfficeFault::Memory,
            FreezeFault::NoReading => OfficeFault::NoReading,
        }
    }
}
