//! Why a session ends early.
ghost use Rattle.std.specs.Prelude.{◌≡◌};
ghost use Rattle.herd_session.specs.Closing.{fault_of_opening};

use herd_command_file::LineFault;
use herd_office::OpenFault;

/// Why a session ends early.
#[derive(Clone, Copy, Debug, PartialEq, Eq, Drop)]
pub enum SessionFault {
    /// The reader failed, there was no memory to read a request, or one has more than `LONGEST_RECORD` bytes (as a
    /// fault of the reader). All requests before it were answered.
    Line(LineFault),
    /// A thread couldn't be started. Nothing was read.
    NoThread,
    /// A growth of memory was refused. Nothing was read.
    Memory,
    /// A write failed or took no byte. All that was written are answers, but for the last one's end.
    Write,
    /// The office gave no seat for an inspector, or wasn't closed. No office is known to meet it.
    NoPlace,
}

impl From<OpenFault> for SessionFault {
    ghost from_gives = { λ cause fault. fault ≡ fault_of_opening cause };

    fn from(fault: OpenFault) -> SessionFault {
        match fault {
            OpenFault::Memory => SessionFault::Memory,
            OpenFault::NoPlace => SessionFault::NoPlace,
        }
    }
}
