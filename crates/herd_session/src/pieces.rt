//! Writing answers, of several pieces each.
ghost use Rattle.std.specs.Prelude.{◌≡◌, ◌++◌, [], List, OnErr, OnOk, false, flat_map, ℕ};
ghost use Rattle.std.specs.Io.KnownBytes.{Appends, Keeps};
ghost use Rattle.herd_text.specs.Text.{PassesOn};

use herd_report::{ReportFault, write_all};
use std::alloc::AllocError;
use std::io::Write;

// What waits is written once it has so many bytes.
const PART: usize = 8_192;

/// Adds the pieces of an answer to what waits, and writes all and flushes, unless the caller goes on at once with
/// another answer. A piece alone isn't copied, and where there is no memory to let pieces wait they are written by
/// themselves.
pub(crate) fn write_pieces<W: Write>(
    writer: &mut W,
    waiting: &mut Vec<u8>,
    pieces: &[&[u8]],
    goes_on: bool,
) -> Result<(), ReportFault>
    ensures ok { OnOk result (PassesOn (W.contents writer.old) (W.contents writer.new)
        (waiting.old.items ++ flat_map (λ piece. piece.now) pieces.now) waiting.new.items) }
    ensures none_waits { OnOk result (goes_on ≡ false → waiting.new.items ≡ []) }
    ensures err { OnErr result ((rest : List ℕ) × PassesOn (W.contents writer.old) (W.contents writer.new)
        (waiting.old.items ++ flat_map (λ piece. piece.now) pieces.now) rest) }
{
    if pieces.len() == 1 && !goes_on {
        return write_apart(writer, waiting, pieces);
    }
    match push_pieces(waiting, pieces) {
        Ok(()) => {
            if goes_on && waiting.len() < PART {
                return Ok(());
            }
            write_waiting(writer, waiting)
        }
        Err(AllocError) => write_apart(writer, waiting, pieces),
    }
}

// Writes what waits and then pieces, each by itself, and flushes.
fn write_apart<W: Write>(
    writer: &mut W,
    waiting: &mut Vec<u8>,
    pieces: &[&[u8]],
) -> Result<(), ReportFault>
    ensures ok { OnOk result (PassesOn (W.contents writer.old) (W.contents writer.new)
        (waiting.old.items ++ flat_map (λ piece. piece.now) pieces.now) waiting.new.items) }
    ensures none_waits { OnOk result (waiting.new.items ≡ []) }
    ensures err { OnErr result ((rest : List ℕ) × PassesOn (W.contents writer.old) (W.contents writer.new)
        (waiting.old.items ++ flat_map (λ piece. piece.now) pieces.now) rest) }
{
    write_waiting(writer, waiting)?;
    write_each(writer, pieces)?;
    flush(writer)
}

/// Writes what waits, and flushes.
pub(crate) fn write_waiting<W: Write>(
    writer: &mut W,
    waiting: &mut Vec<u8>,
) -> Result<(), ReportFault>
    ensures ok { OnOk result (Appends (W.contents writer.old) (W.contents writer.new) waiting.old.items) }
    ensures none_waits { OnOk result (waiting.new.items ≡ []) }
    ensures err { OnErr result ((rest : List ℕ)
        × PassesOn (W.contents writer.old) (W.contents writer.new) waiting.old.items rest) }
{
    if waiting.is_empty() {
        return Ok(());
    }
    write_all(writer, waiting.as_slice())?;
    waiting.clear();
    flush(writer)
}

// Flushes.
fn flush<W: Write>(writer: &mut W) -> Result<(), ReportFault>
    ensures { Keeps (W.contents writer.old) (W.contents writer.new) }
{
    match writer.flush() {
        Ok(()) => Ok(()),
        Err(_) => Err(ReportFault::Write),
    }
}

// Adds all pieces, or none of them.
fn push_pieces(waiting: &mut Vec<u8>, pieces: &[&[u8]]) -> Result<(), AllocError>
    ensures ok { OnOk result
        (waiting.new.items ≡ waiting.old.items ++ flat_map (λ piece. piece.now) pieces.now) }
    ensures err { OnErr result (waiting.new.items ≡ waiting.old.items) }
{
    let before = waiting.len();
    for piece in pieces {
        if waiting.extend_from_slice(piece).is_err() {
            waiting.truncate(before);
            return Err(AllocError);
        }
    }
    Ok(())
}

// Writes pieces one after the other.
fn write_each<W: Write>(writer: &mut W, pieces: &[&[u8]]) -> Result<(), ReportFault>
    ensures ok { OnOk result
        (Appends (W.contents writer.old) (W.contents writer.new) (flat_map (λ piece. piece.now) pieces.now)) }
    ensures err { OnErr result ((rest : List ℕ)
        × PassesOn (W.contents writer.old) (W.contents writer.new) (flat_map (λ piece. piece.now) pieces.now) rest) }
{
    for piece in pieces {
        write_all(writer, piece)?;
    }
    Ok(())
}
