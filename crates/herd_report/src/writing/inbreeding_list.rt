ghost use Rattle.std.specs.Prelude.{◌≡◌, ◌++◌, OnErr, OnOk};
ghost use Rattle.std.specs.Io.KnownBytes.{Appends};
ghost use Rattle.herd_frozen.specs.declared.TheConstants.{DEPTH_LIMIT};
ghost use Rattle.herd_advice.specs.BookCoefficients.{AreBookCoefficients};
ghost use Rattle.herd_advice.specs.FrozenAncestry.{ancestry_of};
ghost use Rattle.herd_kinship.specs.Table.{coefficient};
ghost use Rattle.herd_report.specs.writing.CoefficientLine.{coefficient_line};
ghost use Rattle.herd_report.specs.writing.InbreedingList.{inbreeding_text};
ghost use Rattle.herd_text.specs.Text.{AppendsFront};

use herd_advice::Coefficients;
use herd_animal::AnimalNumber;
use herd_frozen::Frozen;
use herd_text::{Coefficient, LineEnd, ReportFault, Text};
use std::alloc::{AllocError, Allocator};
use std::io::Write;

/// Writes the coefficient of inbreeding of each animal of a book, in age order.
pub fn write_inbreeding<W: Write, A: Allocator, F: Allocator, C: Allocator>(
    alloc: A,
    frozen: &Frozen<F>,
    coefficients: &Coefficients<C>,
    writer: &mut W,
) -> Result<(), ReportFault>
    requires { AreBookCoefficients DEPTH_LIMIT frozen.now coefficients.now }
    ensures ok { OnOk result (Appends (W.contents writer.old) (W.contents writer.new)
        (inbreeding_text (coefficient (ancestry_of frozen.now) DEPTH_LIMIT) frozen.now)) }
    ensures err { OnErr result (AppendsFront (W.contents writer.old) (W.contents writer.new)
        (inbreeding_text (coefficient (ancestry_of frozen.now) DEPTH_LIMIT) frozen.now)) }
{
    let mut text = Text::new(&alloc);
    let mut end = LineEnd::new(&alloc);
    for rank in 0..frozen.len() {
        text.pass_on(writer)?;
        let coefficient = Coefficient {
            numerator: coefficients.numerator(rank),
        };
        push_line(&mut text, &mut end, frozen.number(rank), coefficient)?;
    }
    text.finish(writer)
}

// Adds the line of an animal.
fn push_line<A: Allocator>(
    text: &mut Text<A>,
    end: &mut LineEnd<Coefficient, A>,
    number: AnimalNumber,
    coefficient: Coefficient,
) -> Result<(), AllocError>
    ensures { OnOk result (text.new ≡ text.old ++ coefficient_line number coefficient.numerator) }
{
    text.push(&number.bytes())?;
    end.push_to(text, coefficient)
}
