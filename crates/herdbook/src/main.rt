//! The herd book of a breed society, as a program over standard input and output.
//!
//! The words of the command line are read first (`herd_command_line`). They ask for help or the version, for the
//! replies to a command file or an order of its book, which `herd_orders` carries out; for a report of a pedigree,
//! which `herd_pedigree_report` writes; for the check of a certificate, which `herd_seal` makes; for `clerks`: the
//! commands of a file, filed at the desks of an office by clerks side by side, as `herd_clerks` has them do; or for a
//! session, which `herd_session` holds. How the program ends is a value, made from what was asked and what came of it
//! (`Ending`); only `main` prints it, or tells it on standard error.
//!
//! | | definition (`specs/`) | code (`src/`) | proof (`proofs/`) |
//! |---|---|---|---|
//! | what the program does for its words | `Program` | `program` | `ProgramFacts` |
//! | what it does for a request of the words | `Serving` | `serving` | |
//! | how it ends, what is told on standard error | `Ending`, `FaultText` | `ending`, `request_fault`, `fault_text` | |
//! | the faults that may end it, by what they come of | `Telling` | | |
//! | those of reports of a pedigree | `Pedigrees` | `ending`, `request_fault` | |
//! | those of clerks | `Clerks` | `ending`, `request_fault` | |
//! | those of a session | `Sessions` | `ending`, `request_fault` | |
#![tactic(auto)]

mod ending;
mod fault_text;
mod program;
mod request_fault;
mod serving;

use ending::Ending;
use program::carry_out;
use std::env::Env;
use std::io;
use std::process::ExitCode;

fn main(rt: HostRuntime) -> ExitCode {
    let ending = match words(&rt) {
        Ok(words) => carry_out(
            &rt,
            rt.alloc(),
            words.as_slice(),
            rt.reader(),
            &mut io::writer(&rt),
        ),
        Err(error) => Ending::of_unread(error.kind() == io::ErrorKind::OutOfMemory),
    };
    tell(&rt, ending)
}

fn words<R: Env + Alloc>(rt: &R) -> io::Result<Vec<String<R::A>, R::A>> {
    Ok(std::env::args(rt)?.collect(rt.alloc())?)
}

// Prints help or the version, or tells on standard error how the program ends. What standard error can't take changes
// nothing.
fn tell<R: Print + Eprint>(rt: &R, ending: Ending) -> ExitCode {
    let ending = match ending {
        Ending::Shown(text) => Ending::of_shown(rt.print(&text).is_ok()),
        ending => ending,
    };
    let status = ending.status();
    if status != 0 {
        let _ = rt.eprint(&ending);
    }
    ExitCode::from(status)
}
