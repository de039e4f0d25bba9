ghost use Rattle.std.specs.Prelude.{◌≡◌, ◌<◌, ◌∷◌, [], ◌++◌, false, codes, length, IfErr, OnErr, OnOk};
ghost use Rattle.std.specs.Io.KnownBytes.{Appends};
ghost use Rattle.herd_frozen.specs.freezing.Frozen.{book_of};
ghost use Rattle.herd_frozen.specs.declared.TheConstants.{DEPTH_LIMIT};
ghost use Rattle.herd_advice.specs.BookCoefficients.{AreBookCoefficientsOf};
ghost use Rattle.herd_advice.specs.FrozenAncestry.{ancestry_of, number_of_row};
ghost use Rattle.herd_kinship.specs.Table.{coefficient};
ghost use Rattle.herd_report.specs.writing.Certificate.{animal_text, certificate_of, certificates_of, labelled_line};
ghost use Rattle.herd_report.specs.writing.Certificate.{sex_text};
ghost use Rattle.herd_text.specs.CoefficientText.{coefficient_text};
ghost use Rattle.herd_record_line.specs.RecordLine.{left_text};
ghost use Rattle.herd_report.specs.writing.Registered.{EndsWritingOf, IsWrittenOf, are_there};
ghost use Rattle.herd_text.specs.Text.{AppendsFront};

use crate::writing::ancestors::push_ancestors;
use crate::writing::named_animals_fault::NamedAnimalsFault;
use crate::writing::registered::are_registered;
use herd_advice::Coefficients;
use herd_animal::{AnimalNumber, Day, Sex};
use herd_frozen::{Frozen, Row};
use herd_text::{Coefficient, ReportFault, Text, push_coefficient};
use itoa::Buffer;
use std::alloc::{AllocError, Allocator};
use std::io::Write;

/// Writes the certificates of some animals as they are given: of each its record, its coefficient, and its ancestors up
/// to three parents away. Only the coefficients of these animals and of their ancestors need be right.
pub fn write_certificates<W: Write, A: Allocator, F: Allocator, C: Allocator>(
    alloc: A,
    frozen: &Frozen<F>,
    coefficients: &Coefficients<C>,
    numbers: &[AnimalNumber],
    writer: &mut W,
) -> Result<(), NamedAnimalsFault>
    requires { AreBookCoefficientsOf DEPTH_LIMIT frozen.now numbers.now coefficients.now }
    ensures ok { OnOk result (IsWrittenOf (book_of frozen.now) numbers.now (certificates_of frozen.now numbers.now)
        (W.contents writer.old) (W.contents writer.new)) }
    ensures err { IfErr result (EndsWritingOf (book_of frozen.now) numbers.now (certificates_of frozen.now numbers.now)
        (W.contents writer.old) (W.contents writer.new)) }
    ensures untouched { are_there (book_of frozen.now) numbers.now ≡ false → writer.new ≡ writer.old }
{
    if !are_registered(frozen, numbers) {
        return Err(NamedAnimalsFault::NotRegistered);
    }
    Ok(write_each(alloc, frozen, coefficients, numbers, writer)?)
}

// Writes the certificates of some numbers of the book.
fn write_each<W: Write, A: Allocator, F: Allocator, C: Allocator>(
    alloc: A,
    frozen: &Frozen<F>,
    coefficients: &Coefficients<C>,
    numbers: &[AnimalNumber],
    writer: &mut W,
) -> Result<(), ReportFault>
    requires { AreBookCoefficientsOf DEPTH_LIMIT frozen.now numbers.now coefficients.now }
    ensures ok { OnOk result
        (Appends (W.contents writer.old) (W.contents writer.new) (certificates_of frozen.now numbers.now)) }
    ensures err { OnErr result
        (AppendsFront (W.contents writer.old) (W.contents writer.new) (certificates_of frozen.now numbers.now)) }
{
    let mut text = Text::new(alloc);
    for number in numbers {
        text.pass_on(writer)?;
        push_certificate_under(&mut text, frozen, coefficients, *number)?;
    }
    text.finish(writer)
}

// Adds the certificate of a number, where it is in the book.
fn push_certificate_under<A: Allocator, F: Allocator, C: Allocator>(
    text: &mut Text<A>,
    frozen: &Frozen<F>,
    coefficients: &Coefficients<C>,
    number: AnimalNumber,
) -> Result<(), AllocError>
    requires { AreBookCoefficientsOf DEPTH_LIMIT frozen.now (number ∷ []) coefficients.now }
    ensures made { OnOk result (text.new ≡ text.old ++ certificate_of frozen.now number) }
    ensures some { OnErr result (0 < length (certificate_of frozen.now number)) }
{
    let Some(rank) = frozen.rank(&number) else {
        return Ok(());
    };
    let own = Coefficient {
        numerator: coefficients.numerator(rank),
    };
    push_certificate(text, frozen, own, rank)
}

// Adds the certificate of the animal at a rank.
fn push_certificate<A: Allocator, F: Allocator>(
    text: &mut Text<A>,
    frozen: &Frozen<F>,
    own: Coefficient,
    rank: u32,
) -> Result<(), AllocError>
    requires rank { rank < length frozen.now }
    requires own { own.numerator ≡ coefficient (ancestry_of frozen.now) DEPTH_LIMIT (number_of_row frozen.now rank) }
    ensures { OnOk result (text.new ≡ text.old ++ certificate_of frozen.now (number_of_row frozen.now rank)) }
{
    push_animal(text, &frozen.row(rank), own)?;
    push_ancestors(text, frozen, rank)
}

// Adds the lines on the animal itself.
#[tactic(auto, using(std::proofs::Common::append_assoc))]
fn push_animal<A: Allocator>(
    text: &mut Text<A>,
    row: &Row,
    coefficient: Coefficient,
) -> Result<(), AllocError>
    ensures { OnOk result
        (text.new ≡ text.old ++ animal_text row.now.number row.now.animal coefficient.numerator) }
{
    let animal = row.animal;
    push_entry(text, b"animal", &row.number.bytes())?;
    push_entry(text, b"sex", sex_word(row.number.sex()))?;
    push_entry(text, b"born", &animal.birth.text())?;
    push_entry(
        text,
        b"herd",
        Buffer::new().format(animal.herd.number()).as_bytes(),
    )?;
    push_entry(text, b"since", &animal.since.text())?;
    push_left(text, animal.left)?;
    push_inbreeding(text, coefficient)
}

fn push_left<A: Allocator>(text: &mut Text<A>, left: Option<Day>) -> Result<(), AllocError>
    ensures { OnOk result (text.new ≡ text.old ++ labelled_line (codes "left") (left_text left)) }
{
    match left {
        Some(day) => push_entry(text, b"left", &day.text()),
        None => push_entry(text, b"left", b"-"),
    }
}

fn push_inbreeding<A: Allocator>(
    text: &mut Text<A>,
    coefficient: Coefficient,
) -> Result<(), AllocError>
    ensures { let value = coefficient_text (codes " ") coefficient.numerator in
        OnOk result (text.new ≡ text.old ++ labelled_line (codes "inbreeding") value) }
{
    text.push(b"inbreeding ")?;
    push_coefficient(text, coefficient, b" ")?;
    text.push(b"\n")
}

fn sex_word(sex: Sex) -> &'static [u8]
    ensures { result.now ≡ sex_text sex }
{
    match sex {
        Sex::Male => b"male",
        Sex::Female => b"female",
    }
}

// Adds a line of a name and a value.
fn push_entry<A: Allocator>(text: &mut Text<A>, name: &[u8], value: &[u8]) -> Result<(), AllocError>
    ensures { OnOk result (text.new ≡ text.old ++ labelled_line name.now value.now) }
{
    text.push(name)?;
    text.push(b" ")?;
    text.push(value)?;
    text.push(b"\n")
}
