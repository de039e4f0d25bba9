ghost use Rattle.std.specs.Prelude.{◌≡◌};
ghost use Rattle.herd_text.specs.declared.report_fault.ReportFault.TheVariants.{Memory};

use std::alloc::AllocError;
use thiserror::Error;

/// Why a report wasn't written to its end.
#[derive(Clone, Copy, Debug, PartialEq, Eq, Error)]
pub enum ReportFault {
    /// A write failed or took no byte.
    #[error("write fault")]
    Write,
    /// A growth of memory was refused.
    #[error("no memory")]
    Memory,
}

impl From<AllocError> for ReportFault {
    ghost from_gives = { λ _ fault. fault ≡ Memory };

    fn from(_refused: AllocError) -> ReportFault {
        ReportFault::Memory
    }
}
