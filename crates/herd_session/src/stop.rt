//! Why the work of a session stops.
ghost use Rattle.std.specs.Prelude.{◌≡◌};
ghost use Rattle.herd_session.specs.Closing.{CanStop};

use crate::name::SessionName;
use crate::session_fault::SessionFault;
use herd_command_file::LineFault;
use herd_report::ReportFault;
use std::alloc::{AllocError, AllocFailed};
use std::marker::PhantomData;

/// Why the work of a session stops. A record is named only where the input breaks off there.
#[derive(Drop)]
pub(crate) struct Stop<N: SessionName> {
    pub(crate) fault: SessionFault,
    pub(crate) of: PhantomData<N>,
    pub ghost can: { ∥ CanStop N.records fault ∥₁ },
}

impl<N: SessionName> Stop<N> {
    /// The input breaks off.
    pub(crate) fn at_line(fault: LineFault) -> Stop<N>
        requires { ∥ CanStop N.records (SessionFault.Line fault) ∥₁ }
    {
        Stop {
            fault: SessionFault::Line(fault),
            of: PhantomData,
        }
    }

    /// A thread couldn't be started.
    pub(crate) fn no_thread() -> Stop<N> {
        Stop {
            fault: SessionFault::NoThread,
            of: PhantomData,
        }
    }

    /// The office wasn't closed.
    pub(crate) fn unclosed() -> Stop<N> {
        Stop {
            fault: SessionFault::NoPlace,
            of: PhantomData,
        }
    }
}

impl<N: SessionName> From<AllocError> for Stop<N> {
    ghost use Rattle.herd_session.specs.declared.session_fault.SessionFault.TheVariants.{Memory};

    ghost from_gives = { λ _ stop. stop.fault ≡ Memory };

    fn from(_refused: AllocError) -> Stop<N> {
        Stop {
            fault: SessionFault::Memory,
            of: PhantomData,
        }
    }
}

impl<N: SessionName, T: Drop> From<AllocFailed<T>> for Stop<N> {
    ghost use Rattle.herd_session.specs.declared.session_fault.SessionFault.TheVariants.{Memory};

    ghost from_gives = { λ _ stop. stop.fault ≡ Memory };

    fn from(_refused: AllocFailed<T>) -> Stop<N> {
        Stop {
            fault: SessionFault::Memory,
            of: PhantomData,
        }
    }
}

impl<N: SessionName> From<ReportFault> for Stop<N> {
    ghost use Rattle.herd_session.specs.declared.session_fault.SessionFault.TheVariants.{Write};

    ghost from_gives = { λ _ stop. stop.fault ≡ Write };

    fn from(_fault: ReportFault) -> Stop<N> {
        Stop {
            fault: SessionFault::Write,
            of: PhantomData,
        }
    }
}
