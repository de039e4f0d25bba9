//! How much memory the requests take that wait.
ghost use Rattle.std.specs.Prelude.{◌≡◌, ◌+◌, ◌-◌, ◌<◌, ◌≤◌, ◌↔◌, false, if◌then◌else◌, IsTrue};
ghost use Rattle.herd_session.specs.declared.backlog.TheConstants.{MOST_WAITING};

use csv::ByteRecord;
use std::sync::{Condvar, Mutex, Wait};

/// Requests that wait count so many bytes together at most.
pub const MOST_WAITING: u64 = 268_435_456;

// What a request counts beside its fields: about what its task takes in a queue.
const REQUEST: u64 = 256;

/// The room for requests that wait. It is closed once a write has failed: then none is answered any more.
#[derive(Drop)]
pub(crate) struct Backlog {
    count: Mutex<Count>,
    changed: Condvar,
}

// How many bytes wait.
#[derive(Drop)]
struct Count {
    bytes: u64,
    is_closed: bool,
    ghost bounded: { bytes ≤ MOST_WAITING },
}

/// How many bytes the request of a record counts.
pub(crate) fn request_bytes(row: &ByteRecord) -> u64
    ensures { result ≤ MOST_WAITING }
{
    let fields = row.as_slice().len() as u64;
    fields.min(MOST_WAITING - REQUEST) + REQUEST
}

impl Backlog {
    /// Nothing waits.
    pub(crate) fn new() -> Backlog {
        Backlog {
            count: Mutex::new(Count {
                bytes: 0,
                is_closed: false,
            }),
            changed: Condvar::new(),
        }
    }

    /// Waits until there is room for so many bytes, and counts them. False once it is closed.
    pub(crate) fn enter<H: Wait>(&self, rt: &H, bytes: u64) -> bool {
        let waiting = self.count.lock(rt);
        let mut count = self
            .changed
            .wait_while(rt, waiting, |count| count.has_to_wait(bytes));
        count.add(bytes)
    }

    /// Gives back the bytes of requests that were answered.
    pub(crate) fn leave<H: Wait>(&self, rt: &H, bytes: u64) {
        self.count.lock(rt).take_away(bytes);
        self.changed.notify_one();
    }

    /// Lets nothing enter any more.
    pub(crate) fn close<H: Wait>(&self, rt: &H) {
        self.count.lock(rt).is_closed = true;
        self.changed.notify_one();
    }
}

impl Count {
    // Whether so many bytes have no room yet.
    fn has_to_wait(&self, bytes: u64) -> bool
        ensures { IsTrue result ↔ (self.now.is_closed ≡ false) × (MOST_WAITING < self.now.bytes + bytes) }
    {
        !self.is_closed && MOST_WAITING - self.bytes < bytes
    }

    // Counts bytes for which there is room.
    fn add(&mut self, bytes: u64) -> bool
        ensures room { IsTrue result ↔ (self.old.is_closed ≡ false) × (self.old.bytes + bytes ≤ MOST_WAITING) }
        ensures added { self.new.bytes ≡ (if result then self.old.bytes + bytes else self.old.bytes) }
        ensures closed { self.new.is_closed ≡ self.old.is_closed }
    {
        if self.is_closed || MOST_WAITING - self.bytes < bytes {
            return false;
        }
        self.bytes += bytes;
        true
    }

    fn take_away(&mut self, bytes: u64)
        ensures taken { self.new.bytes ≡ self.old.bytes - bytes }
        ensures closed { self.new.is_closed ≡ self.old.is_closed }
    {
        self.bytes = self.bytes.saturating_sub(bytes);
    }
}
