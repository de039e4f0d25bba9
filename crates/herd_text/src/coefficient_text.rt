ghost use Rattle.std.specs.Prelude.{◌≡◌, ◌<◌, ◌*◌, ◌^◌, ◌++◌, OnOk};
ghost use Rattle.herd_lineage.specs.declared.TheConstants.{DEPTH_LIMIT};
ghost use Rattle.herd_kinship.specs.Fraction.{fraction_text};
ghost use Rattle.herd_text.specs.CoefficientText.{coefficient_text, percentage_text};

use crate::line_end::LastValue;
use crate::text::Text;
use herd_kinship::{Fraction, fraction, hundredths};
use std::alloc::{AllocError, Allocator};

/// A coefficient in units of 2^-120.
#[derive(Clone, Copy, PartialEq, Eq)]
pub struct Coefficient {
    pub numerator: u128,
    pub ghost below_one: { numerator < 2 ^ (2 * DEPTH_LIMIT) },
}

impl LastValue for Coefficient {
    ghost use Rattle.std.proofs.Common.{rules};
    ghost use Rattle.herd_text.specs.CoefficientText.{coefficient_line_end};

    ghost line_end = { λ coefficient. coefficient_line_end coefficient.numerator };

    ghost alike = { Prim.search rules };

    fn push_line_end<A: Allocator>(self, text: &mut Text<A>) -> Result<(), AllocError> {
        text.push(b",")?;
        push_coefficient(text, self, b",")?;
        text.push(b"\n")
    }
}

impl LastValue for Fraction {
    ghost use Rattle.std.proofs.Common.{rules};
    ghost use Rattle.herd_text.specs.CoefficientText.{value_line_end};

    ghost line_end = { value_line_end };

    ghost alike = { Prim.search rules };

    fn push_line_end<A: Allocator>(self, text: &mut Text<A>) -> Result<(), AllocError> {
        push_fraction(text, self)?;
        text.push(b"\n")
    }
}

/// Adds a coefficient: the fraction, a separator, and the percentage.
#[tactic(auto, unfolding(crate::specs::CoefficientText::coefficient_text))]
pub fn push_coefficient<A: Allocator>(
    text: &mut Text<A>,
    coefficient: Coefficient,
    separator: &[u8],
) -> Result<(), AllocError>
    ensures { OnOk result (text.new ≡ text.old ++ coefficient_text separator.now coefficient.numerator) }
{
    push_fraction(text, fraction(coefficient.numerator))?;
    text.push(separator)?;
    push_percentage(text, hundredths(coefficient.numerator))
}

// Adds a fraction that is in lowest terms.
// Inlined: a fraction isn't stored on its way.
#[inline(always)]
fn push_fraction<A: Allocator>(text: &mut Text<A>, fraction: Fraction) -> Result<(), AllocError>
    ensures { OnOk result (text.new ≡ text.old ++ fraction_text fraction) }
{
    if fraction.negative {
        text.push(b"-")?;
    }
    text.push_number(fraction.numerator)?;
    if fraction.denominator != 1 {
        text.push(b"/")?;
        text.push_number(fraction.denominator)?;
    }
    Ok(())
}

// Adds hundredths of a percent.
fn push_percentage<A: Allocator>(text: &mut Text<A>, hundredths: u32) -> Result<(), AllocError>
    ensures { OnOk result (text.new ≡ text.old ++ percentage_text hundredths) }
{
    let part = (hundredths % 100) as u8;
    text.push_number(hundredths / 100)?;
    text.push(&[b'.', b'0' + part / 10, b'0' + part % 10])
}
