ghost use Rattle.std.specs.Prelude.{◌≡◌, ◌++◌, OnErr, OnOk};
ghost use Rattle.std.specs.Io.KnownBytes.{Appends};
ghost use Rattle.herd_text.specs.Text.{AppendsFront};
ghost use Rattle.herd_report.specs.writing.Replies.{reply_line, replies_text};

use crate::writing::refused_text::push_refused_line_end;
use herd_register::{Reply, Step};
use herd_text::{ReportFault, Text};
use std::alloc::{AllocError, Allocator};
use std::io::Write;

/// Writes a line for each step of a journal, numbered from 1.
pub fn write_replies<W: Write, A: Allocator>(
    alloc: A,
    steps: &[Step],
    writer: &mut W,
) -> Result<(), ReportFault>
    ensures ok { OnOk result (Appends (W.contents writer.old) (W.contents writer.new) (replies_text steps.now)) }
    ensures err { OnErr result (AppendsFront (W.contents writer.old) (W.contents writer.new) (replies_text steps.now)) }
{
    let mut text = Text::new(alloc);
    for (place, step) in steps.iter().enumerate() {
        text.pass_on(writer)?;
        push_reply(&mut text, place + 1, step.reply)?;
    }
    text.finish(writer)
}

fn push_reply<A: Allocator>(
    text: &mut Text<A>,
    serial: usize,
    reply: Reply,
) -> Result<(), AllocError>
    ensures { OnOk result (text.new ≡ text.old ++ reply_line serial reply) }
{
    text.push_number(serial)?;
    match reply {
        Reply::Accepted => text.push(b",accepted\n"),
        Reply::Refused(refusal) => push_refused_line_end(text, refusal.number()),
    }
}
