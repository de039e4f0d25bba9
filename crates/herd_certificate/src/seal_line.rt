ghost use Rattle.std.specs.Prelude.{◌≡◌, ◌++◌, OnErr, OnOk};
ghost use Rattle.std.specs.Io.KnownBytes.{Appends};
ghost use Rattle.herd_certificate.specs.Sealed.{seal_line, seal_text};
ghost use Rattle.herd_text.specs.Text.{AppendsFront};

use crate::field::push_digest_field;
use herd_frozen::Frozen;
use herd_record_line::push_number_field;
use herd_seal::seal_book;
use herd_text::{ReportFault, Text};
use std::alloc::{AllocError, Allocator};
use std::io::Write;

/// Writes the seal of a book whose journal has so many steps, these, and the number of its animals.
pub fn write_seal<W: Write, F: Allocator, A: Allocator + Clone>(
    alloc: A,
    frozen: &Frozen<F>,
    steps: u64,
    writer: &mut W,
) -> Result<(), ReportFault>
    ensures ok { OnOk result
        (Appends (W.contents writer.old) (W.contents writer.new) (seal_text frozen.now steps)) }
    ensures err { OnErr result
        (AppendsFront (W.contents writer.old) (W.contents writer.new) (seal_text frozen.now steps)) }
{
    let seal = seal_book(alloc.clone()?, frozen, steps)?;
    let mut text = Text::new(alloc);
    push_seal_line(&mut text, &seal, steps, frozen.len())?;
    text.finish(writer)
}

// Adds the line of a book's seal.
#[tactic(auto, using(std::proofs::Common::append_assoc), unfolding(crate::specs::Sealed::seal_line))]
fn push_seal_line<A: Allocator>(
    text: &mut Text<A>,
    seal: &[u8; 32],
    steps: u64,
    animals: u32,
) -> Result<(), AllocError>
    ensures { OnOk result (text.new ≡ text.old ++ seal_line seal.now steps animals) }
{
    push_digest_field(text, seal)?;
    push_number_field(text, steps)?;
    text.push_number(animals)?;
    text.push(b"\n")
}
