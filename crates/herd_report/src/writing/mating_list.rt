ghost use Rattle.std.specs.Prelude.{◌≡◌, ◌∷◌, [], ◌++◌, OnErr, OnOk};
ghost use Rattle.std.specs.Io.KnownBytes.{Appends};
ghost use Rattle.herd_frozen.specs.declared.TheConstants.{DEPTH_LIMIT};
ghost use Rattle.herd_frozen.specs.freezing.Frozen.{book_of};
ghost use Rattle.herd_advice.specs.BookCoefficients.{AreBookCoefficientsOf};
ghost use Rattle.herd_report.specs.writing.MatingList.{mating_line, mating_text, refused_line};
ghost use Rattle.herd_text.specs.Text.{AppendsFront};

use crate::writing::coefficient_line::push_coefficient_line;
use crate::writing::refused_text::push_refused_line_end;
use herd_advice::{Coefficients, DamMatings, MatingFault};
use herd_animal::AnimalNumber;
use herd_frozen::Frozen;
use herd_text::{Coefficient, ReportFault, Text};
use std::alloc::{AllocError, Allocator};
use std::io::Write;

/// Writes for each sire the coefficient that a calf of it and the dam would have, or why there is none.
///
/// The dam's relationships with all animals are computed once for all sires, by one tracing and one pass over the book.
/// Only the coefficients of the dam and of its ancestors need be right.
pub fn write_mating<W: Write, A: Allocator, F: Allocator, C: Allocator>(
    alloc: A,
    frozen: &Frozen<F>,
    coefficients: &Coefficients<C>,
    dam: AnimalNumber,
    sires: &[AnimalNumber],
    writer: &mut W,
) -> Result<(), ReportFault>
    requires { AreBookCoefficientsOf DEPTH_LIMIT frozen.now (dam ∷ []) coefficients.now }
    ensures ok { OnOk result
        (Appends (W.contents writer.old) (W.contents writer.new) (mating_text (book_of frozen.now) dam sires.now)) }
    ensures err { OnErr result (AppendsFront (W.contents writer.old) (W.contents writer.new)
        (mating_text (book_of frozen.now) dam sires.now)) }
{
    if sires.is_empty() {
        return Ok(());
    }
    let matings = DamMatings::of(&alloc, frozen, coefficients, dam)?;
    write_advice(&alloc, &matings, sires, writer)
}

// Writes the line of each sire.
fn write_advice<W: Write, A: Allocator, F: Allocator, M: Allocator>(
    alloc: A,
    matings: &DamMatings<'_, F, M>,
    sires: &[AnimalNumber],
    writer: &mut W,
) -> Result<(), ReportFault>
    ensures ok { OnOk result (Appends (W.contents writer.old) (W.contents writer.new)
        (mating_text matings.now.book matings.now.dam sires.now)) }
    ensures err { OnErr result (AppendsFront (W.contents writer.old) (W.contents writer.new)
        (mating_text matings.now.book matings.now.dam sires.now)) }
{
    let mut text = Text::new(alloc);
    for sire in sires {
        text.pass_on(writer)?;
        push_advice(&mut text, matings, *sire)?;
    }
    text.finish(writer)
}

// Adds the line of a sire.
fn push_advice<A: Allocator, F: Allocator, M: Allocator>(
    text: &mut Text<A>,
    matings: &DamMatings<'_, F, M>,
    sire: AnimalNumber,
) -> Result<(), AllocError>
    ensures { OnOk result (text.new ≡ text.old ++ mating_line matings.now.book matings.now.dam sire) }
{
    match matings.with(&sire) {
        Ok(numerator) => push_coefficient_line(text, sire, Coefficient { numerator }),
        Err(fault) => push_refused(text, sire, fault),
    }
}

fn push_refused<A: Allocator>(
    text: &mut Text<A>,
    sire: AnimalNumber,
    fault: MatingFault,
) -> Result<(), AllocError>
    ensures { OnOk result (text.new ≡ text.old ++ refused_line sire fault) }
{
    text.push(&sire.bytes())?;
    push_refused_line_end(text, fault.number())
}
