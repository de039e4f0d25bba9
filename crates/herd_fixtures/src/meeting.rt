//! Where threads wait for one another.
use std::sync::atomic::{AtomicBool, AtomicU64, Ordering};
use std::thread;

/// Waits until so many have come, without sleeping, so that all go on at once. It ends after so many turns, since no
/// thread is promised to run.
#[derive(Drop)]
pub struct Meeting {
    expected: u64,
    turns: u32,
    arrived: AtomicU64,
    late: AtomicBool,
}

impl Meeting {
    /// A meeting of as many as are expected, each of whom waits for at most so many turns.
    pub fn of(expected: u64, turns: u32) -> Meeting {
        Meeting {
            expected,
            turns,
            arrived: AtomicU64::new(0),
            late: AtomicBool::new(false),
        }
    }

    /// So many have come, and nobody has waited for all turns before.
    pub fn is_met(&self) -> bool {
        self.arrived.load(Ordering::SeqCst) >= self.expected && !self.late.load(Ordering::SeqCst)
    }

    /// One more has come.
    pub fn arrive(&self) {
        self.arrived.fetch_add(1, Ordering::SeqCst);
    }

    /// Waits for the others.
    pub fn wait(&self) {
        for _ in 0..self.turns {
            if self.arrived.load(Ordering::SeqCst) >= self.expected {
                return;
            }
            thread::yield_now();
        }
        self.late.store(true, Ordering::SeqCst);
    }
}
