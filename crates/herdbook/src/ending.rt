//! How the program ends: with which status, and what it tells on standard error.

ghost use Rattle.std.specs.Prelude.{◌≡◌};
ghost use Rattle.herdbook.specs.Ending.{Explains, end_of_check, end_of_clerks, end_of_pedigree, end_of_run};
ghost use Rattle.herdbook.specs.Ending.{end_of_session, end_of_shown, end_of_unread, status_of};

use crate::fault_text::{NumberFaultText, RequestFaultText};
use crate::request_fault::RequestFault;
use clap::error::ErrorKind;
use herd_animal::NumberFault;
use herd_clerks::ClerksFault;
use herd_command_line::WordsFault;
use herd_orders::RunFault;
use herd_pedigree_report::PedigreeReportFault;
use herd_session::SessionFault;
use herd_text::ReportFault;
use std::fmt;

// What is told of words that no report of a pedigree takes.
const MISPLACED: &str = "\
herdbook: pedigree takes `inbreeding [--workers N] [--block N] [--units]`, `inverse`, or
`relationships ANIMAL.. [--with ANIMAL..] [--units]`, each with [--limit-animals N]
";

/// How the program ends, once it has written what it writes to standard output.
#[derive(Drop)]
pub enum Ending {
    /// What was asked for is written.
    Done,
    /// The words ask for help or for the version, which `clap` has as a text for standard output.
    Shown(clap::Error),
    /// The words aren't a command line. `clap` says why.
    Usage(clap::Error),
    /// A word isn't UTF-8.
    NotText,
    /// A word is no animal number.
    Number(NumberFault),
    /// The words behind `pedigree` ask for no report, or have some that don't belong to it.
    Misplaced,
    /// The word behind `check` is no seal.
    NotSeal,
    /// The certificate is refused, which is written.
    Refused,
    /// What was asked for ended early, or the words couldn't be read or answered for want of memory or a failed write.
    Early(RequestFault),
}

impl Ending {
    /// The end after words that can't be read: memory ran out, or one isn't UTF-8.
    pub fn of_unread(is_memory: bool) -> Ending
        ensures { result ≡ end_of_unread is_memory }
    {
        if is_memory {
            Ending::Early(RequestFault::Run(RunFault::Memory))
        } else {
            Ending::NotText
        }
    }

    /// The end after words that ask for nothing.
    pub fn of_words(fault: WordsFault) -> Ending
        ensures { Explains fault result }
    {
        match fault {
            WordsFault::Words(error) => match error.kind() {
                ErrorKind::OutOfMemory => Ending::Early(RequestFault::Run(RunFault::Memory)),
                ErrorKind::DisplayHelp | ErrorKind::DisplayVersion => Ending::Shown(error),
                _ => Ending::Usage(error),
            },
            WordsFault::Number(fault) => Ending::Number(fault),
            WordsFault::Misplaced => Ending::Misplaced,
            WordsFault::NoSeal => Ending::NotSeal,
        }
    }

    /// The end of a run.
    pub fn of_run(ended: Result<(), RunFault>) -> Ending
        ensures { result ≡ end_of_run ended }
    {
        match ended {
            Ok(()) => Ending::Done,
            Err(fault) => Ending::Early(RequestFault::Run(fault)),
        }
    }

    /// The end of a check, which accepted the certificate or didn't.
    pub fn of_check(ended: Result<bool, ReportFault>) -> Ending
        ensures { result ≡ end_of_check ended }
    {
        match ended {
            Ok(true) => Ending::Done,
            Ok(false) => Ending::Refused,
            Err(fault) => Ending::Early(RequestFault::from(fault)),
        }
    }

    /// The end of an order of a pedigree.
    pub fn of_pedigree(ended: Result<(), PedigreeReportFault>) -> Ending
        ensures { result ≡ end_of_pedigree ended }
    {
        match ended {
            Ok(()) => Ending::Done,
            Err(fault) => Ending::Early(RequestFault::from(fault)),
        }
    }

    /// The end of the clerks' work.
    pub fn of_clerks(ended: Result<(), ClerksFault>) -> Ending
        ensures { result ≡ end_of_clerks ended }
    {
        match ended {
            Ok(()) => Ending::Done,
            Err(fault) => Ending::Early(RequestFault::from(fault)),
        }
    }

    /// The end of a session.
    pub fn of_session(ended: Result<(), SessionFault>) -> Ending
        ensures { result ≡ end_of_session ended }
    {
        match ended {
            Ok(()) => Ending::Done,
            Err(fault) => Ending::Early(RequestFault::from(fault)),
        }
    }

    /// The end after what the words ask to be shown was printed, or couldn't be.
    pub fn of_shown(is_printed: bool) -> Ending
        ensures { result ≡ end_of_shown is_printed }
    {
        if is_printed {
            Ending::Done
        } else {
            Ending::Early(RequestFault::Run(RunFault::Write))
        }
    }

    /// The status of the process.
    pub fn status(&self) -> u8
        ensures { result ≡ status_of self.now }
    {
        match self {
            Ending::Done | Ending::Shown(_) => 0,
            Ending::Early(_) => 1,
            Ending::Usage(_) | Ending::NotText | Ending::Number(_) => 2,
            Ending::Misplaced | Ending::NotSeal => 2,
            Ending::Refused => 3,
        }
    }
}

/// What is told on standard error: nothing, `clap`'s text, or a line.
impl fmt::Display for Ending {
    ghost use Rattle.herdbook.specs.Ending.{told};

    ghost output = { told };

    fn fmt<W: fmt::Write>(&self, f: &mut fmt::Formatter<W>) -> fmt::Result {
        match self {
            Ending::Done | Ending::Shown(_) | Ending::Refused => Ok(()),
            Ending::Usage(error) => write!(f, "{error}"),
            Ending::NotText => f.write_str("herdbook: a word isn't UTF-8 text\n"),
            Ending::Number(fault) => {
                let text = NumberFaultText(*fault);
                write!(f, "herdbook: {text}\n")
            }
            Ending::Misplaced => f.write_str(MISPLACED),
            Ending::NotSeal => f.write_str("herdbook: a seal has 64 hexadecimal digits\n"),
            Ending::Early(fault) => {
                let text = RequestFaultText(*fault);
                write!(f, "herdbook: {text}\n")
            }
        }
    }
}
