//! The text of a report, as long as one may be.
ghost use Rattle.std.specs.Prelude.{◌≡◌, ◌==◌, ◌≤◌, [], length};
ghost use Rattle.herd_session.specs.declared.report_text.TheConstants.{LONGEST_REPORT};

use std::alloc::Global;
use std::io;
use std::io::Write;

/// How many bytes the text of a report may have, without tags.
pub const LONGEST_REPORT: usize = 67_108_864;

/// The text of a report in memory. It takes no more than a report may have.
#[derive(Drop)]
pub(crate) struct ReportText {
    pub(crate) bytes: Vec<u8>,
    pub ghost bounded: { length bytes.items ≤ LONGEST_REPORT },
}

impl ReportText {
    /// No text yet.
    pub(crate) fn new(alloc: Global) -> ReportText
        ensures { result.bytes.items ≡ [] }
    {
        ReportText {
            bytes: Vec::new(alloc),
        }
    }

    /// Whether it takes no more.
    pub(crate) fn is_full(&self) -> bool
        ensures { result ≡ (length self.now.bytes.items == LONGEST_REPORT) }
    {
        self.bytes.len() == LONGEST_REPORT
    }
}

impl Write for ReportText {
    ghost use Rattle.std.specs.Prelude.{Some};

    ghost contents = { λ text. Some text.bytes.items };

    fn write(&mut self, buf: &[u8]) -> io::Result<usize> {
        let count = buf.len().min(LONGEST_REPORT - self.bytes.len());
        self.bytes.extend_from_slice(&buf[..count])?;
        Ok(count)
    }

    fn flush(&mut self) -> io::Result<()> {
        Ok(())
    }
}
