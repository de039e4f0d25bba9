ghost use Rattle.std.specs.Prelude.{◌≡◌, [], ◌++◌, IfErr, OnErr, OnOk};
ghost use Rattle.std.specs.Io.KnownBytes.{Appends};
ghost use Rattle.herd_text.specs.Text.{AppendsFront, PassesOn};

use crate::report_fault::ReportFault;
use itoa::{Buffer, Integer};
use std::alloc::{AllocError, Allocator};
use std::io::Write;
use std::marker::Model;

// Text is written once it has so many bytes.
const PART: usize = 65_536;

/// Text in memory: the end of a report that still waits to be written, or a piece that is made once for several lines.
#[derive(Drop)]
pub struct Text<A: Allocator> {
    bytes: Vec<u8, A>,
}

impl<A: Allocator> Model for Text<A> {
    ghost use Rattle.std.specs.Prelude.{List, ℕ};

    ghost Value = { List ℕ };

    ghost view = { λ text. text.bytes.items };
}

impl<A: Allocator> Text<A> {
    /// No text yet.
    pub fn new(alloc: A) -> Self
        ensures { result ≡ [] }
    {
        Text {
            bytes: Vec::new(alloc),
        }
    }

    /// The text.
    pub fn bytes(&self) -> &[u8]
        ensures { result.now ≡ self.now }
    {
        self.bytes.as_slice()
    }

    /// Lets the text go.
    pub fn clear(&mut self)
        ensures { self.new ≡ [] }
    {
        self.bytes.clear();
    }

    /// Adds bytes at the end.
    pub fn push(&mut self, bytes: &[u8]) -> Result<(), AllocError>
        ensures { OnOk result (self.new ≡ self.old ++ bytes.now) }
    {
        self.bytes.extend_from_slice(bytes)
    }

    /// Adds a number at the end, in decimal.
    pub fn push_number<N: Integer>(&mut self, number: N) -> Result<(), AllocError>
        ensures { OnOk result (self.new ≡ self.old ++ N.text number) }
    {
        self.push(Buffer::new().format(number).as_bytes())
    }

    /// Writes the text, where it is long enough for a write of its own.
    pub fn pass_on<W: Write>(&mut self, writer: &mut W) -> Result<(), ReportFault>
        ensures ok { OnOk result (PassesOn (W.contents writer.old) (W.contents writer.new) self.old self.new) }
        ensures err { OnErr result (AppendsFront (W.contents writer.old) (W.contents writer.new) self.old) }
        ensures fault { IfErr result (λ fault. fault ≡ ReportFault.Write) }
    {
        if self.bytes.len() >= PART {
            write_all(writer, self.bytes())?;
            self.clear();
        }
        Ok(())
    }

    /// Writes the text.
    pub fn finish<W: Write>(self, writer: &mut W) -> Result<(), ReportFault>
        ensures ok { OnOk result (Appends (W.contents writer.old) (W.contents writer.new) self) }
        ensures err { OnErr result (AppendsFront (W.contents writer.old) (W.contents writer.new) self) }
        ensures fault { IfErr result (λ fault. fault ≡ ReportFault.Write) }
    {
        write_all(writer, self.bytes.as_slice())
    }
}

/// Writes bytes until the writer has them all, or a write fails or takes none. The only error is `Write`.
pub fn write_all<W: Write>(writer: &mut W, bytes: &[u8]) -> Result<(), ReportFault>
    ensures ok { OnOk result (Appends (W.contents writer.old) (W.contents writer.new) bytes.now) }
    ensures err { OnErr result (AppendsFront (W.contents writer.old) (W.contents writer.new) bytes.now) }
    ensures fault { IfErr result (λ fault. fault ≡ ReportFault.Write) }
{
    let mut rest = bytes;
    while !rest.is_empty() {
        match writer.write(rest) {
            Ok(0) | Err(_) => return Err(ReportFault::Write),
            Ok(count) => rest = &rest[count..],
        }
    }
    Ok(())
}
