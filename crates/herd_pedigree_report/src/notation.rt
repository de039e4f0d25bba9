//! Numbers of animals, coefficients and relationships as text.
ghost use Rattle.std.specs.Prelude.{◌≡◌, ◌++◌, codes, decimal, OnOk};
ghost use Rattle.herd_pedigree_file.specs.Number.{number_text};
ghost use Rattle.herd_pedigree_report.specs.Notation.{relationship_line_end};

use herd_kinship::fraction;
use herd_text::{Coefficient, LastValue, Text};
use std::alloc::{AllocError, Allocator};

/// A coefficient, and whether it is written in units of 2^-120.
#[derive(Clone, Copy, PartialEq, Eq)]
pub(crate) struct ToldCoefficient {
    pub(crate) coefficient: Coefficient,
    pub(crate) in_units: bool,
}

impl LastValue for ToldCoefficient {
    ghost use Rattle.std.proofs.Common.{rules};
    ghost use Rattle.herd_pedigree_report.specs.Notation.{coefficient_line_end};

    ghost line_end = { λ told. coefficient_line_end told.in_units told.coefficient.numerator };

    ghost alike = { Prim.search rules };

    fn push_line_end<A: Allocator>(self, text: &mut Text<A>) -> Result<(), AllocError> {
        if self.in_units {
            text.push(b",")?;
            push_units(text, self.coefficient.numerator)
        } else {
            self.coefficient.push_line_end(text)
        }
    }
}

/// Adds the end of the line of two animals with a relationship of this numerator.
pub(crate) fn push_relationship_end<A: Allocator>(
    text: &mut Text<A>,
    in_units: bool,
    numerator: u128,
) -> Result<(), AllocError>
    ensures { OnOk result (text.new ≡ text.old ++ relationship_line_end in_units numerator) }
{
    if in_units {
        push_units(text, numerator)
    } else {
        fraction(numerator).push_line_end(text)
    }
}

/// Adds the number of the animal at a rank.
pub(crate) fn push_animal<A: Allocator>(text: &mut Text<A>, rank: u32) -> Result<(), AllocError>
    ensures { OnOk result (text.new ≡ text.old ++ number_text rank) }
{
    text.push_number(u64::from(rank) + 1)
}

/// Adds the number of the animal at a rank, and a comma.
pub(crate) fn push_animal_field<A: Allocator>(
    text: &mut Text<A>,
    rank: u32,
) -> Result<(), AllocError>
    ensures { OnOk result (text.new ≡ text.old ++ number_text rank ++ codes ",") }
{
    push_animal(text, rank)?;
    text.push(b",")
}

// Adds units and the end of the line.
fn push_units<A: Allocator>(text: &mut Text<A>, numerator: u128) -> Result<(), AllocError>
    ensures { OnOk result (text.new ≡ text.old ++ decimal numerator ++ codes "\n") }
{
    text.push_number(numerator)?;
    text.push(b"\n")
}
