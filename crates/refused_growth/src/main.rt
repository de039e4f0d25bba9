//! Calls that are to be refused memory or a thread from outside, each growth in turn (`tests/outside/`): reading a
//! command file and a pedigree file, opening an office, filing in it and freezing its book, and computing coefficients
//! with two workers. A call that is refused tells it in a line, and is made again; so a run that meets one refusal
//! prints one fault more. The workers come last: how many growths there are from them on differs from run to run.
#![tactic(auto)]

mod founder;
mod office;
mod pedigree;
mod pool;
mod reading;

use std::alloc::Global;
use std::io;
use std::sync::Wait;
use std::thread::Threads;

// How often a call is made until it is granted what it asks for.
const TIMES: u8 = 2;

#[derive(Clone, Copy)]
enum Call {
    Reading,
    Pedigree,
    Office,
    Pool,
}

impl Call {
    // Makes the call, tells what it answers, and whether it was granted.
    fn tell<R: Threads + Wait + Print + Sync>(self, rt: &R, alloc: Global) -> io::Result<bool> {
        match self {
            Call::Reading => reading::tell(rt, alloc),
            Call::Pedigree => pedigree::tell(rt, alloc),
            Call::Office => office::tell(rt, alloc),
            Call::Pool => pool::tell(rt, alloc),
        }
    }
}

fn main(rt: HostRuntime) -> io::Result<()> {
    for call in [Call::Reading, Call::Pedigree, Call::Office, Call::Pool] {
        tell_until_granted(&rt, rt.alloc(), call)?;
    }
    Ok(())
}

fn tell_until_granted<R: Threads + Wait + Print + Sync>(
    rt: &R,
    alloc: Global,
    call: Call,
) -> io::Result<()> {
    for _ in 0..TIMES {
        if call.tell(rt, alloc)? {
            break;
        }
    }
    Ok(())
}
