//! What the program does, but for printing help and what it tells on standard error.

ghost use Rattle.std.specs.Prelude.{◌≡◌, IfSome, map, string_bytes};
ghost use Rattle.herdbook.specs.Program.{CanEnd, IsEnded, IsUntouchedUnlessAsked};

use crate::ending::Ending;
use crate::serving::serve;
use herd_command_line::read_words;
use std::alloc::Global;
use std::io::{Read, Write};
use std::sync::Wait;
use std::thread::Threads;

/// Reads the words of the command line, the program's own name first, and does what they ask for. Where they ask for
/// nothing, nothing is read or written.
pub fn carry_out<H: Threads + Wait + Sync, R: Read + Drop, W: Write + Send + Drop>(
    rt: &H,
    alloc: Global,
    words: &[String],
    reader: R,
    writer: &mut W,
) -> Ending
    ensures ended { IfSome (R.remaining reader)
        (λ bytes. IsEnded (map string_bytes words.now) bytes
        (W.contents writer.old) (W.contents writer.new) result) }
    ensures possible { CanEnd (map string_bytes words.now) result }
    ensures unasked { IsUntouchedUnlessAsked (writer.new ≡ writer.old) result }
{
    let mut list = Vec::new(alloc);
    let mut animals = Vec::new(alloc);
    let mut others = Vec::new(alloc);
    match read_words(alloc, words, &mut list, &mut animals, &mut others) {
        Ok(request) => serve(rt, alloc, &request, reader, writer),
        Err(fault) => Ending::of_words(fault),
    }
}
