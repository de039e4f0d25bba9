ghost use Rattle.std.specs.Prelude.{◌≡◌, ◌++◌, ◌∷◌, [], ℕ, All, IfErr, IfOk, List, OnErr, OnOk};
ghost use Rattle.std.specs.Io.KnownBytes.{Appends};
ghost use Rattle.std.specs.List.{flat_map};
ghost use Rattle.herd_frozen.specs.declared.TheConstants.{DEPTH_LIMIT};
ghost use Rattle.herd_frozen.specs.freezing.Frozen.{book_of};
ghost use Rattle.herd_advice.specs.BookCoefficients.{AreBookCoefficientsOf, KnowsBookAncestors};
ghost use Rattle.herd_advice.specs.FrozenAncestry.{number_of_row};
ghost use Rattle.herd_text.specs.Text.{EndsReport};
ghost use Rattle.herd_report.specs.writing.RefusedText.{refused_line_end};
ghost use Rattle.herd_report.specs.writing.RelationshipList.{AreAsked, IsAsked, absent_line, lines_with, names_of};
ghost use Rattle.herd_report.specs.writing.RelationshipList.{partners_of as partners_in, relationship_line};
ghost use Rattle.herd_report.specs.writing.RelationshipList.{relationships_text};
ghost use Rattle.herd_text.specs.Text.{AppendsFront, PassesOn};

use crate::writing::inverse_list::with_comma;
use crate::writing::refused_text::push_refused_line_end;
use herd_advice::{Coefficients, Relationships, fraction};
use herd_animal::AnimalNumber;
use herd_frozen::Frozen;
use herd_text::{LastValue, ReportFault, Text};
use std::alloc::{AllocError, Allocator};
use std::io::Write;

/// An animal of the book that is asked about.
#[derive(Clone, Copy)]
struct Asked {
    number: AnimalNumber,
    rank: u32,
}

/// Writes the relationship of each of some animals with each of others, or where no others are given of each with
/// itself and those after it. First come the numbers that aren't in the book.
///
/// It makes a column of the numerator relationship matrix for each of the first, one at a time, by one tracing and one
/// pass over the book. Only the coefficients of the first and of their ancestors need be right. Sexes, ages and exits
/// aren't asked.
pub fn write_relationships<W: Write, A: Allocator, F: Allocator, C: Allocator>(
    alloc: A,
    frozen: &Frozen<F>,
    coefficients: &Coefficients<C>,
    numbers: &[AnimalNumber],
    others: &[AnimalNumber],
    writer: &mut W,
) -> Result<(), ReportFault>
    requires { AreBookCoefficientsOf DEPTH_LIMIT frozen.now numbers.now coefficients.now }
    ensures ok { OnOk result (Appends (W.contents writer.old) (W.contents writer.new)
        (relationships_text (book_of frozen.now) numbers.now others.now)) }
    ensures err { IfErr result (EndsReport (W.contents writer.old) (W.contents writer.new)
        (relationships_text (book_of frozen.now) numbers.now others.now)) }
{
    let mut text = Text::new(&alloc);
    let asked = sort_out(&alloc, &mut text, frozen, numbers)?;
    let named = sort_out(&alloc, &mut text, frozen, others)?;
    for place in 0..asked.len() {
        let partners = partners_of(others.is_empty(), &named, &asked[place..]);
        write_lines(
            &alloc,
            &mut text,
            frozen,
            coefficients,
            asked[place],
            partners,
            writer,
        )?;
    }
    text.finish(writer)
}

// Lists those of some numbers that are in the book, and adds the lines of the others.
fn sort_out<A: Allocator, F: Allocator>(
    alloc: A,
    text: &mut Text<A>,
    frozen: &Frozen<F>,
    numbers: &[AnimalNumber],
) -> Result<Vec<Asked, A>, AllocError>
    ensures text { OnOk result (text.new ≡ text.old ++ flat_map (absent_line (book_of frozen.now)) numbers.now) }
    ensures asked { IfOk result (λ asked. AreAsked frozen.now numbers.now asked.items) }
{
    let mut asked = Vec::new(alloc);
    for number in numbers {
        sort_one(text, frozen, *number, &mut asked)?;
    }
    Ok(asked)
}

// Lists a number that is in the book, and adds the line of one that isn't.
fn sort_one<A: Allocator, F: Allocator>(
    text: &mut Text<A>,
    frozen: &Frozen<F>,
    number: AnimalNumber,
    asked: &mut Vec<Asked, A>,
) -> Result<(), AllocError>
    ensures text { OnOk result (text.new ≡ text.old ++ absent_line (book_of frozen.now) number) }
    ensures asked { OnOk result ((numbers : List (List ℕ)) → AreAsked frozen.now numbers asked.old.items
        → AreAsked frozen.now (numbers ++ number ∷ []) asked.new.items) }
{
    match frozen.rank(&number) {
        Some(rank) => {
            asked.push(Asked { number, rank })?;
            Ok(())
        }
        None => push_absent(text, number),
    }
}

fn push_absent<A: Allocator>(text: &mut Text<A>, number: AnimalNumber) -> Result<(), AllocError>
    ensures { OnOk result (text.new ≡ text.old ++ number ++ refused_line_end 1) }
{
    text.push(&number.bytes())?;
    push_refused_line_end(text, 1)
}

// The partners of the first of some animals.
fn partners_of<'a>(among: bool, others: &'a [Asked], animals: &'a [Asked]) -> &'a [Asked]
    ensures { result.now ≡ partners_in among others.now animals.now }
{
    if among { animals } else { others }
}

// Writes the lines of an animal with its partners, by its column.
fn write_lines<W: Write, T: Allocator, A: Allocator, F: Allocator, C: Allocator>(
    alloc: &A,
    text: &mut Text<T>,
    frozen: &Frozen<F>,
    coefficients: &Coefficients<C>,
    first: Asked,
    partners: &[Asked],
    writer: &mut W,
) -> Result<(), ReportFault>
    requires coefficients { KnowsBookAncestors DEPTH_LIMIT frozen.now coefficients.now first.rank }
    requires first { IsAsked frozen.now first }
    requires partners { All (IsAsked frozen.now) partners.now }
    ensures ok { OnOk result (PassesOn (W.contents writer.old) (W.contents writer.new)
        (text.old ++ lines_with (book_of frozen.now) first.number (names_of partners.now)) text.new) }
    ensures err { OnErr result (AppendsFront (W.contents writer.old) (W.contents writer.new)
        (text.old ++ lines_with (book_of frozen.now) first.number (names_of partners.now))) }
{
    if partners.is_empty() {
        return Ok(());
    }
    let column = Relationships::of(alloc, frozen, coefficients, first.rank)?;
    write_column(text, &column, partners, writer)
}

// Writes the lines of an animal with some others, as its column has them.
fn write_column<W: Write, A: Allocator, F: Allocator, C: Allocator>(
    text: &mut Text<A>,
    column: &Relationships<F, C>,
    partners: &[Asked],
    writer: &mut W,
) -> Result<(), ReportFault>
    requires { All (IsAsked column.now.rows) partners.now }
    ensures ok { OnOk result (PassesOn (W.contents writer.old) (W.contents writer.new)
        (text.old ++ lines_with (book_of column.now.rows) (number_of_row column.now.rows column.now.rank)
        (names_of partners.now)) text.new) }
    ensures err { OnErr result (AppendsFront (W.contents writer.old) (W.contents writer.new)
        (text.old ++ lines_with (book_of column.now.rows) (number_of_row column.now.rows column.now.rank)
        (names_of partners.now))) }
{
    let number = column.number();
    for partner in partners {
        text.pass_on(writer)?;
        push_relationship(text, number, partner.number, column.with(partner.rank))?;
    }
    Ok(())
}

// Adds the line of two animals with this numerator.
fn push_relationship<A: Allocator>(
    text: &mut Text<A>,
    x: AnimalNumber,
    y: AnimalNumber,
    numerator: u128,
) -> Result<(), AllocError>
    ensures { OnOk result (text.new ≡ text.old ++ relationship_line x y numerator) }
{
    text.push(&with_comma(x))?;
    text.push(&with_comma(y))?;
    fraction(numerator).push_line_end(text)
}
