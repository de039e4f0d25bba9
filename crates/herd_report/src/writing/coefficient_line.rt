ghost use Rattle.std.specs.Prelude.{◌≡◌, ◌∷◌, [], ◌++◌, false, IfErr, OnOk};
ghost use Rattle.herd_frozen.specs.rules.Book.{is_there};
ghost use Rattle.herd_frozen.specs.freezing.Frozen.{book_of};
ghost use Rattle.herd_frozen.specs.declared.TheConstants.{DEPTH_LIMIT};
ghost use Rattle.herd_advice.specs.BookCoefficients.{AreBookCoefficientsOf};
ghost use Rattle.herd_report.specs.writing.CoefficientLine.{EndsCoefficient, IsCoefficientTold, coefficient_line};

use crate::writing::named_animals_fault::NamedAnimalsFault;
use herd_advice::Coefficients;
use herd_animal::AnimalNumber;
use herd_frozen::Frozen;
use herd_text::{Coefficient, LastValue, Text};
use std::alloc::{AllocError, Allocator};
use std::io::Write;

/// Adds the line of an animal and its coefficient.
pub(crate) fn push_coefficient_line<A: Allocator>(
    text: &mut Text<A>,
    number: AnimalNumber,
    coefficient: Coefficient,
) -> Result<(), AllocError>
    ensures { OnOk result (text.new ≡ text.old ++ coefficient_line number coefficient.numerator) }
{
    text.push(&number.bytes())?;
    coefficient.push_line_end(text)
}

/// Writes the line of one animal, as the list of coefficients has it. Only the coefficients of the animal and of its
/// ancestors need be right.
pub fn write_coefficient<W: Write, A: Allocator, F: Allocator, C: Allocator>(
    alloc: A,
    frozen: &Frozen<F>,
    coefficients: &Coefficients<C>,
    number: AnimalNumber,
    writer: &mut W,
) -> Result<(), NamedAnimalsFault>
    requires { AreBookCoefficientsOf DEPTH_LIMIT frozen.now (number ∷ []) coefficients.now }
    ensures ok { OnOk result (IsCoefficientTold frozen.now number (W.contents writer.old) (W.contents writer.new)) }
    ensures err { IfErr result (EndsCoefficient frozen.now number (W.contents writer.old) (W.contents writer.new)) }
    ensures untouched { is_there (book_of frozen.now) number ≡ false → writer.new ≡ writer.old }
{
    let Some(rank) = frozen.rank(&number) else {
        return Err(NamedAnimalsFault::NotRegistered);
    };
    let coefficient = Coefficient {
        numerator: coefficients.numerator(rank),
    };
    let mut text = Text::new(alloc);
    push_coefficient_line(&mut text, number, coefficient)?;
    Ok(text.finish(writer)?)
}
