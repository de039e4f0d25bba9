ghost use Rattle.std.specs.Prelude.{◌≡◌, ◌<◌, ◌++◌, All, codes, length, OnErr, OnOk};
ghost use Rattle.std.specs.Io.KnownBytes.{Appends};
ghost use Rattle.std.specs.List.{flat_map};
ghost use Rattle.herd_frozen.specs.declared.TheConstants.{DEPTH_LIMIT};
ghost use Rattle.herd_advice.specs.BookCoefficients.{AreBookCoefficients};
ghost use Rattle.herd_advice.specs.FrozenAncestry.{number_of_row};
ghost use Rattle.herd_report.specs.writing.InverseList.{contribution_line, contributions_text, inverse_text, IsWithin};
ghost use Rattle.herd_text.specs.Text.{AppendsFront};

use herd_advice::{Coefficients, Contribution, Fraction, contributions};
use herd_animal::AnimalNumber;
use herd_frozen::Frozen;
use herd_text::{LineEnd, ReportFault, Text};
use std::alloc::{AllocError, Allocator};
use std::io::Write;

/// Writes what each animal of a book contributes to the inverse of A, the numerator relationship matrix, in age order.
pub fn write_inverse<W: Write, A: Allocator, F: Allocator, C: Allocator>(
    alloc: A,
    frozen: &Frozen<F>,
    coefficients: &Coefficients<C>,
    writer: &mut W,
) -> Result<(), ReportFault>
    requires { AreBookCoefficients DEPTH_LIMIT frozen.now coefficients.now }
    ensures ok { OnOk result (Appends (W.contents writer.old) (W.contents writer.new) (inverse_text frozen.now)) }
    ensures err { OnErr result
        (AppendsFront (W.contents writer.old) (W.contents writer.new) (inverse_text frozen.now)) }
{
    let mut text = Text::new(&alloc);
    let mut end = LineEnd::new(&alloc);
    for rank in 0..frozen.len() {
        text.pass_on(writer)?;
        push_contributions(&mut text, &mut end, frozen, coefficients, rank)?;
    }
    text.finish(writer)
}

// Adds the lines of what the animal at a rank contributes.
fn push_contributions<A: Allocator, F: Allocator, C: Allocator>(
    text: &mut Text<A>,
    end: &mut LineEnd<Fraction, A>,
    frozen: &Frozen<F>,
    coefficients: &Coefficients<C>,
    rank: u32,
) -> Result<(), AllocError>
    requires rank { rank < length frozen.now }
    requires coefficients { AreBookCoefficients DEPTH_LIMIT frozen.now coefficients.now }
    ensures { OnOk result (text.new ≡ text.old ++ contributions_text frozen.now rank) }
{
    let number = frozen.number(rank);
    let listed = contributions(frozen, coefficients, rank);
    let elements = &listed.list[..listed.count as usize];
    push_elements(text, end, frozen, number, elements)
}

// Adds the lines of some elements of an animal.
fn push_elements<A: Allocator, F: Allocator>(
    text: &mut Text<A>,
    end: &mut LineEnd<Fraction, A>,
    frozen: &Frozen<F>,
    number: AnimalNumber,
    elements: &[Contribution],
) -> Result<(), AllocError>
    requires { All (IsWithin frozen.now) elements.now }
    ensures { OnOk result (text.new ≡ text.old ++ flat_map (contribution_line frozen.now number) elements.now) }
{
    for element in elements {
        push_element(text, end, frozen, number, *element)?;
    }
    Ok(())
}

fn push_element<A: Allocator, F: Allocator>(
    text: &mut Text<A>,
    end: &mut LineEnd<Fraction, A>,
    frozen: &Frozen<F>,
    number: AnimalNumber,
    element: Contribution,
) -> Result<(), AllocError>
    requires { IsWithin frozen.now element }
    ensures { OnOk result (text.new ≡ text.old ++ contribution_line frozen.now number element) }
{
    text.push(&with_comma(number))?;
    push_number_at(text, frozen, element.row)?;
    push_number_at(text, frozen, element.column)?;
    end.push_to(text, element.value)
}

// Adds the number of the animal at a rank, and a comma.
fn push_number_at<A: Allocator, F: Allocator>(
    text: &mut Text<A>,
    frozen: &Frozen<F>,
    rank: u32,
) -> Result<(), AllocError>
    requires { rank < length frozen.now }
    ensures { OnOk result (text.new ≡ text.old ++ number_of_row frozen.now rank ++ codes ",") }
{
    text.push(&with_comma(frozen.number(rank)))
}

/// A number and a comma.
pub(crate) fn with_comma(number: AnimalNumber) -> [u8; 20]
    ensures { result ≡ number ++ codes "," }
{
    let mut text = [b','; 20];
    text[..19].copy_from_slice(&number.bytes());
    text
}
