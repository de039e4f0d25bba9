use herd_pedigree_file::PedigreeFault;
use herd_pool::PoolFault;
use herd_text::ReportFault;
use std::alloc::AllocError;
use thiserror::Error;

/// Why what is ordered of a pedigree wasn't written to its end.
#[derive(Clone, Copy, Debug, PartialEq, Eq, Error)]
pub enum PedigreeReportFault {
    /// The file has a fault. Nothing was written.
    #[error("{0}")]
    Record(PedigreeFault),
    /// An animal that was asked for isn't in the pedigree. Nothing was written.
    #[error("not registered")]
    NotRegistered,
    /// A thread couldn't be started. Nothing was written.
    #[error("no thread")]
    NoThread,
    /// A growth of memory was refused.
    #[error("no memory")]
    Memory,
    /// A write failed or took no byte.
    #[error("write fault")]
    Write,
}

impl From<PedigreeFault> for PedigreeReportFault {
    ghost use Rattle.std.specs.Prelude.{◌≡◌};
    ghost use Rattle.herd_pedigree_report.specs.declared.pedigree_report_fault.PedigreeReportFault.TheVariants.{Record};

    ghost from_gives = { λ fault told. told ≡ Record fault };

    fn from(fault: PedigreeFault) -> PedigreeReportFault {
        PedigreeReportFault::Record(fault)
    }
}

impl From<AllocError> for PedigreeReportFault {
    ghost use Rattle.std.specs.Prelude.{◌≡◌};
    ghost use Rattle.herd_pedigree_report.specs.declared.pedigree_report_fault.PedigreeReportFault.TheVariants.{Memory};

    ghost from_gives = { λ _ told. told ≡ Memory };

    fn from(_refused: AllocError) -> PedigreeReportFault {
        PedigreeReportFault::Memory
    }
}

impl From<ReportFault> for PedigreeReportFault {
    ghost use Rattle.std.specs.Prelude.{◌≡◌};
    ghost use Rattle.herd_pedigree_report.specs.PedigreeReport.{fault_of_report};

    ghost from_gives = { λ fault told. told ≡ fault_of_report fault };

    fn from(fault: ReportFault) -> PedigreeReportFault {
        match fault {
            ReportFault::Write => PedigreeReportFault::Write,
            ReportFault::Memory => PedigreeReportFault::Memory,
        }
    }
}

impl From<PoolFault> for PedigreeReportFault {
    ghost use Rattle.std.specs.Prelude.{◌≡◌};
    ghost use Rattle.herd_pedigree_report.specs.PedigreeReport.{fault_of_pool};

    ghost from_gives = { λ fault told. told ≡ fault_of_pool fault };

    fn from(fault: PoolFault) -> PedigreeReportFault {
        match fault {
            PoolFault::NoThread => PedigreeReportFault::NoThread,
            PoolFault::Memory => PedigreeReportFault::Memory,
        }
    }
}
