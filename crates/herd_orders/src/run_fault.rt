ghost use Rattle.std.specs.Prelude.{◌≡◌};

use herd_command_file::LineFault;
use herd_pool::PoolFault;
use herd_report::NamedAnimalsFault;
use herd_text::ReportFault;
use std::alloc::AllocError;
use thiserror::Error;

/// Why a run ended early.
#[derive(Clone, Copy, Debug, PartialEq, Eq, Error)]
pub enum RunFault {
    /// The command file has a fault. Where replies are asked for, those to the commands before it were written, and
    /// nothing else; of an order nothing was.
    #[error("{0}")]
    Line(LineFault),
    /// One of the animals that certificates or records were asked of isn't in the book. Nothing was written.
    #[error("not registered")]
    NotRegistered,
    /// A thread couldn't be started. Nothing was written.
    #[error("no thread")]
    NoThread,
    /// A growth of memory was refused.
    #[error("no memory")]
    Memory,
    /// A write failed or took no byte.
    #[error("write fault")]
    Write,
}

impl From<LineFault> for RunFault {
    ghost use Rattle.herd_orders.specs.declared.run_fault.RunFault.TheVariants.{Line};

    ghost from_gives = { λ fault told. told ≡ Line fault };

    fn from(fault: LineFault) -> RunFault {
        RunFault::Line(fault)
    }
}

impl From<AllocError> for RunFault {
    ghost use Rattle.herd_orders.specs.declared.run_fault.RunFault.TheVariants.{Memory};

    ghost from_gives = { λ _ told. told ≡ Memory };

    fn from(_refused: AllocError) -> RunFault {
        RunFault::Memory
    }
}

impl From<ReportFault> for RunFault {
    ghost use Rattle.herd_orders.specs.RunFault.{run_fault_of};

    ghost from_gives = { λ fault told. told ≡ run_fault_of fault };

    fn from(fault: ReportFault) -> RunFault {
        match fault {
            ReportFault::Write => RunFault::Write,
            ReportFault::Memory => RunFault::Memory,
        }
    }
}

impl From<NamedAnimalsFault> for RunFault {
    ghost use Rattle.herd_orders.specs.RunFault.{run_fault_of_named};

    ghost from_gives = { λ fault told. told ≡ run_fault_of_named fault };

    fn from(fault: NamedAnimalsFault) -> RunFault {
        match fault {
            NamedAnimalsFault::NotRegistered => RunFault::NotRegistered,
            NamedAnimalsFault::Report(fault) => RunFault::from(fault),
        }
    }
}

impl From<PoolFault> for RunFault {
    ghost use Rattle.herd_orders.specs.RunFault.{run_fault_of_pool};

    ghost from_gives = { λ fault told. told ≡ run_fault_of_pool fault };

    fn from(fault: PoolFault) -> RunFault {
        match fault {
            PoolFault::NoThread => RunFault::NoThread,
            PoolFault::Memory => RunFault::Memory,
        }
    }
}
