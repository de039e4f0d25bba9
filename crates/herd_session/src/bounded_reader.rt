//! The input, of which no record is read that is too long.

use std::cell::Cell;
use std::io;
use std::io::Read;

/// How many bytes a record may have, with the blank lines before it. Some 16,000 more may pass, since the input is read
/// in parts.
pub const LONGEST_RECORD: usize = 1_048_576;

/// How many bytes may still be read for a record.
#[derive(Drop)]
pub(crate) struct Allowance {
    left: Cell<usize>,
}

/// A reader that fails where a record is too long. It gives the bytes of the reader underneath.
#[derive(Drop)]
pub(crate) struct BoundedReader<'a, I> {
    pub(crate) inner: I,
    pub(crate) allowance: &'a Allowance,
}

impl Allowance {
    /// For no record yet.
    pub(crate) fn new() -> Allowance {
        Allowance { left: Cell::new(0) }
    }

    /// Another record begins.
    pub(crate) fn renew(&self) {
        // The end of the input is seen by a read of its own.
        self.left.set(LONGEST_RECORD + 1);
    }

    fn use_up(&self, count: usize) {
        self.left.set(self.left.get().saturating_sub(count));
    }
}

impl<I: Read> Read for BoundedReader<'_, I> {
    ghost remaining = { λ reader. I.remaining reader.inner };

    fn read(&mut self, buf: &mut [u8]) -> io::Result<usize> {
        if self.allowance.left.get() == 0 {
            return Err(io::Error::from(io::ErrorKind::InvalidData));
        }
        let count = self.inner.read(buf)?;
        self.allowance.use_up(count);
        Ok(count)
    }
}
