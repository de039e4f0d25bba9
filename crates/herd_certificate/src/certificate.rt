ghost use Rattle.std.specs.Prelude.{◌≡◌, ◌<◌, ◌*◌, ◌^◌, ◌++◌, All, codes, length, OnErr, OnOk};
ghost use Rattle.std.specs.Io.KnownBytes.{Appends};
ghost use Rattle.std.specs.List.{flat_map};
ghost use Rattle.herd_animal.specs.AnimalNumber.{IsAnimalNumber};
ghost use Rattle.herd_lineage.specs.declared.TheConstants.{DEPTH_LIMIT};
ghost use Rattle.herd_text.specs.CoefficientText.{coefficient_text};
ghost use Rattle.herd_text.specs.Text.{AppendsFront, PassesOn};
ghost use Rattle.herd_seal.specs.CertificateText.{digest_line, header_line, row_line};
ghost use Rattle.herd_seal.specs.Reading.{IsWrittenRow};
ghost use Rattle.herd_seal.specs.Seal.{rows_of, seal_of};
ghost use Rattle.herd_certificate.specs.Faultless.{IsFaultlessText};
ghost use Rattle.herd_certificate.specs.Sealed.{certified, line_at, rows_at, sealed_at};

use crate::field::{push_digest, push_digest_field};
use crate::laws::faultless;
use crate::parts::Parts;
use herd_frozen::{Frozen, Row};
use herd_record_line::{push_field, push_number_field};
use herd_seal::push_row;
use herd_text::{ReportFault, Text, push_coefficient};
use std::alloc::{AllocError, Allocator};
use std::io::Write;

/// Writes the certificate of the animal at a place, in a book whose journal has so many steps: what it claims, the rows
/// of the animal and all its known ancestors, and the digests that stand for all other rows. Under the seal of the book
/// the check (`herd_seal::check_certificate`) refuses none, but where its memory runs out.
pub fn write_sealed_at<W: Write, F: Allocator, A: Allocator + Clone>(
    alloc: A,
    frozen: &Frozen<F>,
    steps: u64,
    place: u32,
    writer: &mut W,
) -> Result<(), ReportFault>
    requires { place < length frozen.now }
    ensures ok { OnOk result
        (Appends (W.contents writer.old) (W.contents writer.new) (sealed_at frozen.now steps place)) }
    ensures err { OnErr result
        (AppendsFront (W.contents writer.old) (W.contents writer.new) (sealed_at frozen.now steps place)) }
    ensures accepted { OnOk result
        (IsFaultlessText (seal_of steps (rows_of frozen.now)) (sealed_at frozen.now steps place)) }
{
    faultless(frozen, steps, place);
    let parts = Parts::at(alloc.clone()?, frozen, steps, place)?;
    let mut text = Text::new(alloc);
    push_header(&mut text, &parts)?;
    write_rows(&mut text, frozen, parts.places.as_slice(), writer)?;
    write_digests(&mut text, parts.beside.as_slice(), writer)?;
    text.finish(writer)
}

// Adds the first line.
#[tactic(auto, using(std::proofs::Common::append_assoc), unfolding(herd_seal::specs::CertificateText::header_line))]
fn push_header<A: Allocator, P: Allocator>(
    text: &mut Text<A>,
    parts: &Parts<P>,
) -> Result<(), AllocError>
    ensures text { OnOk result (text.new ≡ text.old ++ header_line parts.now.seal parts.now.claim
        (coefficient_text (codes ",") parts.now.coefficient.numerator)) }
    ensures steps { OnOk result (parts.now.claim.steps < 2 ^ 64) }
    ensures animals { OnOk result (parts.now.claim.animals < 2 ^ 32) }
    ensures place { OnOk result (parts.now.claim.place < 2 ^ 32) }
    ensures number { OnOk result (IsAnimalNumber parts.now.claim.number) }
    ensures below_one { OnOk result (parts.now.coefficient.numerator < 2 ^ (2 * DEPTH_LIMIT)) }
{
    push_field(text, b"herdbook-certificate-1")?;
    push_digest_field(text, &parts.seal)?;
    push_number_field(text, parts.claim.steps)?;
    push_number_field(text, u64::from(parts.claim.animals))?;
    push_number_field(text, u64::from(parts.claim.place))?;
    push_field(text, &parts.claim.number.bytes())?;
    push_coefficient(text, parts.coefficient, b",")?;
    text.push(b"\n")
}

// Adds the lines of the rows at some places.
fn write_rows<W: Write, F: Allocator, A: Allocator>(
    text: &mut Text<A>,
    frozen: &Frozen<F>,
    places: &[u32],
    writer: &mut W,
) -> Result<(), ReportFault>
    requires { All (λ place. place < length frozen.now) places.now }
    ensures ok { OnOk result (PassesOn (W.contents writer.old) (W.contents writer.new)
        (text.old ++ flat_map (line_at frozen.now) places.now) text.new) }
    ensures err { OnErr result (AppendsFront (W.contents writer.old) (W.contents writer.new)
        (text.old ++ flat_map (line_at frozen.now) places.now)) }
    ensures told { OnOk result (All IsWrittenRow (rows_at frozen.now places.now)) }
{
    for place in places {
        text.pass_on(writer)?;
        push_row_line(text, *place, &frozen.row(*place))?;
    }
    Ok(())
}

// Adds the line of the row at a place.
#[tactic(auto, using(std::proofs::Common::append_assoc), unfolding(herd_seal::specs::CertificateText::place_line))]
fn push_row_line<A: Allocator>(text: &mut Text<A>, place: u32, row: &Row) -> Result<(), AllocError>
    ensures text { OnOk result (text.new ≡ text.old ++ row_line (certified place row.now)) }
    ensures told { OnOk result (IsWrittenRow (certified place row.now)) }
{
    push_number_field(text, u64::from(place))?;
    push_row(text, row.sire, row.dam, row.number, &row.animal)?;
    text.push(b"\n")
}

// Adds the lines of some digests.
fn write_digests<W: Write, A: Allocator>(
    text: &mut Text<A>,
    digests: &[[u8; 32]],
    writer: &mut W,
) -> Result<(), ReportFault>
    ensures ok { OnOk result (PassesOn (W.contents writer.old) (W.contents writer.new)
        (text.old ++ flat_map digest_line digests.now) text.new) }
    ensures err { OnErr result (AppendsFront (W.contents writer.old) (W.contents writer.new)
        (text.old ++ flat_map digest_line digests.now)) }
{
    for digest in digests {
        text.pass_on(writer)?;
        push_digest_line(text, digest)?;
    }
    Ok(())
}

// Adds the line of a digest.
#[tactic(auto, using(std::proofs::Common::append_assoc), unfolding(herd_seal::specs::CertificateText::digest_line))]
fn push_digest_line<A: Allocator>(text: &mut Text<A>, digest: &[u8; 32]) -> Result<(), AllocError>
    ensures { OnOk result (text.new ≡ text.old ++ digest_line digest.now) }
{
    push_digest(text, digest)?;
    text.push(b"\n")
}
