ghost use Rattle.std.specs.Prelude.{◌≡◌, ◌<◌, ◌++◌, length, OnErr, OnOk};
ghost use Rattle.std.specs.Io.KnownBytes.{Appends};
ghost use Rattle.std.specs.List.{flat_map};
ghost use Rattle.herd_lineage.specs.declared.TheConstants.{DEPTH_LIMIT};
ghost use Rattle.herd_kinship.specs.Coefficients.{AreCoefficients};
ghost use Rattle.herd_pedigree_report.specs.InverseList.{contribution_line, contributions_text, inverse_text};
ghost use Rattle.herd_text.specs.Text.{AppendsFront};

use crate::notation::push_animal_field;
use herd_kinship::{Coefficients, Contribution, Fraction, contributions};
use herd_lineage::Lineage;
use herd_text::{LineEnd, ReportFault, Text};
use std::alloc::{AllocError, Allocator};
use std::io::Write;

/// Writes what each animal of a lineage contributes to the inverse of A, the numerator relationship matrix, by rank.
pub fn write_inverse<W: Write, A: Allocator, F: Allocator, C: Allocator>(
    alloc: A,
    lineage: &Lineage<F>,
    coefficients: &Coefficients<C>,
    writer: &mut W,
) -> Result<(), ReportFault>
    requires { AreCoefficients DEPTH_LIMIT lineage.now coefficients.now }
    ensures ok { OnOk result (Appends (W.contents writer.old) (W.contents writer.new) (inverse_text lineage.now)) }
    ensures err { OnErr result
        (AppendsFront (W.contents writer.old) (W.contents writer.new) (inverse_text lineage.now)) }
{
    let mut text = Text::new(&alloc);
    let mut end = LineEnd::new(&alloc);
    for rank in 0..lineage.len() {
        text.pass_on(writer)?;
        push_contributions(&mut text, &mut end, lineage, coefficients, rank)?;
    }
    text.finish(writer)
}

// Adds the lines of what the animal at a rank contributes.
fn push_contributions<A: Allocator, F: Allocator, C: Allocator>(
    text: &mut Text<A>,
    end: &mut LineEnd<Fraction, A>,
    lineage: &Lineage<F>,
    coefficients: &Coefficients<C>,
    rank: u32,
) -> Result<(), AllocError>
    requires rank { rank < length lineage.now }
    requires coefficients { AreCoefficients DEPTH_LIMIT lineage.now coefficients.now }
    ensures { OnOk result (text.new ≡ text.old ++ contributions_text lineage.now rank) }
{
    let listed = contributions(lineage, coefficients, rank);
    let elements = &listed.list[..listed.count as usize];
    push_elements(text, end, rank, elements)
}

// Adds the lines of some elements that the animal at a rank adds to.
fn push_elements<A: Allocator>(
    text: &mut Text<A>,
    end: &mut LineEnd<Fraction, A>,
    rank: u32,
    elements: &[Contribution],
) -> Result<(), AllocError>
    ensures { OnOk result (text.new ≡ text.old ++ flat_map (contribution_line rank) elements.now) }
{
    for element in elements {
        push_element(text, end, rank, *element)?;
    }
    Ok(())
}

fn push_element<A: Allocator>(
    text: &mut Text<A>,
    end: &mut LineEnd<Fraction, A>,
    rank: u32,
    element: Contribution,
) -> Result<(), AllocError>
    ensures { OnOk result (text.new ≡ text.old ++ contribution_line rank element) }
{
    push_animal_field(text, rank)?;
    push_animal_field(text, element.row)?;
    push_animal_field(text, element.column)?;
    end.push_to(text, element.value)
}
