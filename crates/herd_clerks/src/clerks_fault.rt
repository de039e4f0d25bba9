//! Why clerks end early.
ghost use Rattle.std.specs.Prelude.{◌≡◌};
ghost use Rattle.herd_clerks.specs.Clerks.{fault_of_office, fault_of_telling};
ghost use Rattle.herd_clerks.specs.declared.clerks_fault.ClerksFault.TheVariants.{Line};

use crate::office_fault::OfficeFault;
use herd_command_file::LineFault;
use herd_text::ReportFault;

/// Why clerks end early.
#[derive(Clone, Copy, Debug, PartialEq, Eq, Drop)]
pub enum ClerksFault {
    /// The command file has a fault. Nothing was written.
    Line(LineFault),
    /// A thread couldn't be started. Nothing was written.
    NoThread,
    /// A growth of memory was refused. Nothing was written.
    Memory,
    /// A write failed or took no byte.
    Write,
    /// The office lacked a seat for a reader or room for a step, gave no reading, or wasn't closed. Nothing was
    /// written.
    NoPlace,
}

impl From<LineFault> for ClerksFault {
    ghost from_gives = { λ cause fault. fault ≡ Line cause };

    fn from(fault: LineFault) -> ClerksFault {
        ClerksFault::Line(fault)
    }
}

impl From<OfficeFault> for ClerksFault {
    ghost from_gives = { λ cause fault. fault ≡ fault_of_office cause };

    fn from(fault: OfficeFault) -> ClerksFault {
        match fault {
            OfficeFault::NoThread => ClerksFault::NoThread,
            OfficeFault::Memory => ClerksFault::Memory,
            OfficeFault::NoRoom | OfficeFault::NoReading => ClerksFault::NoPlace,
        }
    }
}

impl From<ReportFault> for ClerksFault {
    ghost from_gives = { λ cause fault. fault ≡ fault_of_telling cause };

    fn from(fault: ReportFault) -> ClerksFault {
        match fault {
            ReportFault::Memory => ClerksFault::Memory,
            ReportFault::Write => ClerksFault::Write,
        }
    }
}
