ghost use Rattle.std.specs.Prelude.{◌≡◌, ◌++◌, OnErr, OnOk};
ghost use Rattle.std.specs.Io.KnownBytes.{Appends};
ghost use Rattle.herd_lineage.specs.declared.TheConstants.{DEPTH_LIMIT};
ghost use Rattle.herd_kinship.specs.Coefficients.{AreCoefficients};
ghost use Rattle.herd_pedigree_report.specs.InbreedingList.{inbreeding_text, line_with};
ghost use Rattle.herd_text.specs.Text.{AppendsFront};

use crate::notation::{ToldCoefficient, push_animal};
use herd_kinship::Coefficients;
use herd_lineage::Lineage;
use herd_text::{Coefficient, LineEnd, ReportFault, Text};
use std::alloc::{AllocError, Allocator};
use std::io::Write;

/// Writes the coefficient of inbreeding of each animal of a lineage, by rank.
pub fn write_inbreeding<W: Write, A: Allocator, F: Allocator, C: Allocator>(
    alloc: A,
    lineage: &Lineage<F>,
    coefficients: &Coefficients<C>,
    in_units: bool,
    writer: &mut W,
) -> Result<(), ReportFault>
    requires { AreCoefficients DEPTH_LIMIT lineage.now coefficients.now }
    ensures ok { OnOk result (Appends (W.contents writer.old) (W.contents writer.new)
        (inbreeding_text in_units lineage.now)) }
    ensures err { OnErr result (AppendsFront (W.contents writer.old) (W.contents writer.new)
        (inbreeding_text in_units lineage.now)) }
{
    let mut text = Text::new(&alloc);
    let mut end = LineEnd::new(&alloc);
    for rank in 0..lineage.len() {
        text.pass_on(writer)?;
        let coefficient = Coefficient {
            numerator: coefficients.numerator(rank),
        };
        let told = ToldCoefficient {
            coefficient,
            in_units,
        };
        push_line(&mut text, &mut end, rank, told)?;
    }
    text.finish(writer)
}

// Adds the line of the animal at a rank.
fn push_line<A: Allocator>(
    text: &mut Text<A>,
    end: &mut LineEnd<ToldCoefficient, A>,
    rank: u32,
    told: ToldCoefficient,
) -> Result<(), AllocError>
    ensures { OnOk result (text.new ≡ text.old ++ line_with told.in_units rank told.coefficient.numerator) }
{
    push_animal(text, rank)?;
    end.push_to(text, told)
}
