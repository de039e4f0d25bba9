ghost use Rattle.std.specs.Prelude.{◌≡◌, ◌++◌, ◌<◌, false, length, IfErr, OnErr, OnOk};
ghost use Rattle.std.specs.Io.KnownBytes.{Appends};
ghost use Rattle.std.specs.List.{flat_map};
ghost use Rattle.herd_frozen.specs.freezing.Frozen.{book_of};
ghost use Rattle.herd_report.specs.writing.RecordList.{every_record, line_under, records_text};
ghost use Rattle.herd_report.specs.writing.Registered.{EndsWritingOf, IsWrittenOf, are_there};
ghost use Rattle.herd_text.specs.Text.{AppendsFront};

use crate::writing::named_animals_fault::NamedAnimalsFault;
use crate::writing::registered::are_registered;
use herd_animal::AnimalNumber;
use herd_frozen::Frozen;
use herd_record_line::push_record_line;
use herd_text::{ReportFault, Text};
use std::alloc::{AllocError, Allocator};
use std::io::Write;

/// Writes what the book keeps of some animals, as they are given, and where none are given of all, in age order.
pub fn write_records<W: Write, A: Allocator, F: Allocator>(
    alloc: A,
    frozen: &Frozen<F>,
    numbers: &[AnimalNumber],
    writer: &mut W,
) -> Result<(), NamedAnimalsFault>
    ensures ok { OnOk result (IsWrittenOf (book_of frozen.now) numbers.now (records_text frozen.now numbers.now)
        (W.contents writer.old) (W.contents writer.new)) }
    ensures err { IfErr result (EndsWritingOf (book_of frozen.now) numbers.now (records_text frozen.now numbers.now)
        (W.contents writer.old) (W.contents writer.new)) }
    ensures untouched { are_there (book_of frozen.now) numbers.now ≡ false → writer.new ≡ writer.old }
{
    if !are_registered(frozen, numbers) {
        return Err(NamedAnimalsFault::NotRegistered);
    }
    if numbers.is_empty() {
        Ok(write_every_record(alloc, frozen, writer)?)
    } else {
        Ok(write_lines(alloc, frozen, numbers, writer)?)
    }
}

// Writes the lines of all animals.
fn write_every_record<W: Write, A: Allocator, F: Allocator>(
    alloc: A,
    frozen: &Frozen<F>,
    writer: &mut W,
) -> Result<(), ReportFault>
    ensures ok { OnOk result (Appends (W.contents writer.old) (W.contents writer.new) (every_record frozen.now)) }
    ensures err { OnErr result
        (AppendsFront (W.contents writer.old) (W.contents writer.new) (every_record frozen.now)) }
{
    let mut text = Text::new(alloc);
    for rank in 0..frozen.len() {
        text.pass_on(writer)?;
        let row = frozen.row(rank);
        push_record_line(&mut text, row.number, &row.animal)?;
    }
    text.finish(writer)
}

// Writes the lines of some numbers of the book.
fn write_lines<W: Write, A: Allocator, F: Allocator>(
    alloc: A,
    frozen: &Frozen<F>,
    numbers: &[AnimalNumber],
    writer: &mut W,
) -> Result<(), ReportFault>
    ensures ok { OnOk result (Appends (W.contents writer.old) (W.contents writer.new)
        (flat_map (line_under (book_of frozen.now)) numbers.now)) }
    ensures err { OnErr result (AppendsFront (W.contents writer.old) (W.contents writer.new)
        (flat_map (line_under (book_of frozen.now)) numbers.now)) }
{
    let mut text = Text::new(alloc);
    for number in numbers {
        text.pass_on(writer)?;
        push_line_under(&mut text, frozen, *number)?;
    }
    text.finish(writer)
}

// Adds the line of a number, where it is in the book.
fn push_line_under<A: Allocator, F: Allocator>(
    text: &mut Text<A>,
    frozen: &Frozen<F>,
    number: AnimalNumber,
) -> Result<(), AllocError>
    ensures made { OnOk result (text.new ≡ text.old ++ line_under (book_of frozen.now) number) }
    ensures some { OnErr result (0 < length (line_under (book_of frozen.now) number)) }
{
    match frozen.rank(&number) {
        Some(rank) => push_record_line(text, number, &frozen.row(rank).animal),
        None => Ok(()),
    }
}
