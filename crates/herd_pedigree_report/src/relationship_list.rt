ghost use Rattle.std.specs.Prelude.{◌≡◌, ◌<◌, ◌++◌, All, IfErr, OnErr, OnOk, length};
ghost use Rattle.std.specs.Io.KnownBytes.{Appends};
ghost use Rattle.herd_lineage.specs.declared.TheConstants.{DEPTH_LIMIT};
ghost use Rattle.herd_kinship.specs.Coefficients.{AreCoefficients};
ghost use Rattle.herd_pedigree_report.specs.RelationshipList.{lines_with, pair_line};
ghost use Rattle.herd_pedigree_report.specs.RelationshipList.{partners_of as partners_in, relationships_text};
ghost use Rattle.herd_text.specs.Text.{EndsReport};
ghost use Rattle.herd_text.specs.Text.{AppendsFront, PassesOn};

use crate::notation::{push_animal_field, push_relationship_end};
use herd_kinship::{Coefficients, Relationships};
use herd_lineage::Lineage;
use herd_text::{ReportFault, Text};
use std::alloc::{AllocError, Allocator};
use std::io::Write;

/// Writes the relationship of each of some animals with each of others, or where no others are given of each with
/// itself and those after it. All are named by their ranks.
///
/// It makes a column of the numerator relationship matrix for each of the first, one at a time.
pub fn write_relationships<W: Write, A: Allocator, F: Allocator, C: Allocator>(
    alloc: A,
    lineage: &Lineage<F>,
    coefficients: &Coefficients<C>,
    animals: &[u32],
    others: &[u32],
    in_units: bool,
    writer: &mut W,
) -> Result<(), ReportFault>
    requires coefficients { AreCoefficients DEPTH_LIMIT lineage.now coefficients.now }
    requires animals { All (λ rank. rank < length lineage.now) animals.now }
    requires others { All (λ rank. rank < length lineage.now) others.now }
    ensures ok { OnOk result (Appends (W.contents writer.old) (W.contents writer.new)
        (relationships_text in_units lineage.now animals.now others.now)) }
    ensures err { IfErr result (EndsReport (W.contents writer.old) (W.contents writer.new)
        (relationships_text in_units lineage.now animals.now others.now)) }
{
    let mut text = Text::new(&alloc);
    for place in 0..animals.len() {
        let partners = partners_of(others.is_empty(), others, &animals[place..]);
        write_lines(
            &alloc,
            &mut text,
            lineage,
            coefficients,
            animals[place],
            partners,
            in_units,
            writer,
        )?;
    }
    text.finish(writer)
}

// The partners of the first of some animals.
fn partners_of<'a>(among: bool, others: &'a [u32], animals: &'a [u32]) -> &'a [u32]
    ensures { result.now ≡ partners_in among others.now animals.now }
{
    if among { animals } else { others }
}

// Writes the lines of an animal with its partners, by its column.
fn write_lines<W: Write, T: Allocator, A: Allocator, F: Allocator, C: Allocator>(
    alloc: &A,
    text: &mut Text<T>,
    lineage: &Lineage<F>,
    coefficients: &Coefficients<C>,
    first: u32,
    partners: &[u32],
    in_units: bool,
    writer: &mut W,
) -> Result<(), ReportFault>
    requires coefficients { AreCoefficients DEPTH_LIMIT lineage.now coefficients.now }
    requires first { first < length lineage.now }
    requires partners { All (λ rank. rank < length lineage.now) partners.now }
    ensures ok { OnOk result (PassesOn (W.contents writer.old) (W.contents writer.new)
        (text.old ++ lines_with in_units lineage.now first partners.now) text.new) }
    ensures err { OnErr result (AppendsFront (W.contents writer.old) (W.contents writer.new)
        (text.old ++ lines_with in_units lineage.now first partners.now)) }
{
    if partners.is_empty() {
        return Ok(());
    }
    let column = Relationships::of(alloc, lineage, coefficients, first)?;
    write_column(text, &column, partners, in_units, writer)
}

// Writes the lines of an animal with some others, as its column has them.
fn write_column<W: Write, A: Allocator, F: Allocator, C: Allocator>(
    text: &mut Text<A>,
    column: &Relationships<F, C>,
    partners: &[u32],
    in_units: bool,
    writer: &mut W,
) -> Result<(), ReportFault>
    requires { All (λ rank. rank < length column.now.rows) partners.now }
    ensures ok { OnOk result (PassesOn (W.contents writer.old) (W.contents writer.new)
        (text.old ++ lines_with in_units column.now.rows column.now.rank partners.now) text.new) }
    ensures err { OnErr result (AppendsFront (W.contents writer.old) (W.contents writer.new)
        (text.old ++ lines_with in_units column.now.rows column.now.rank partners.now)) }
{
    let first = column.rank();
    for partner in partners {
        text.pass_on(writer)?;
        push_pair(text, first, *partner, in_units, column.with(*partner))?;
    }
    Ok(())
}

// Adds the line of two animals with this numerator.
fn push_pair<A: Allocator>(
    text: &mut Text<A>,
    x: u32,
    y: u32,
    in_units: bool,
    numerator: u128,
) -> Result<(), AllocError>
    ensures { OnOk result (text.new ≡ text.old ++ pair_line in_units x y numerator) }
{
    push_animal_field(text, x)?;
    push_animal_field(text, y)?;
    push_relationship_end(text, in_units, numerator)
}
