ghost use Rattle.std.specs.Prelude.{◌≡◌, ◌<◌, ◌⊎◌};
ghost use Rattle.std.specs.Int.{IsPowerOfTwo};
ghost use Rattle.herd_kinship.specs.Fraction.{halved, IsLowest};

use std::fmt;

/// As `fraction` and `contributions` give it: a number in lowest terms, of which one is a power of two. Zero isn't
/// negative and has the denominator 1.
#[derive(Clone, Copy, Debug, PartialEq, Eq)]
pub struct Fraction {
    /// Whether the number is below 0.
    pub negative: bool,
    /// What stands above the line, without the sign.
    pub numerator: u128,
    /// What stands below the line, never 0; 1 for a whole number.
    pub denominator: u128,
}

/// As in `-3/8`, and without the line where the denominator is 1.
impl fmt::Display for Fraction {
    ghost use Rattle.std.specs.Prelude.{Some};
    ghost use Rattle.herd_kinship.specs.Fraction.{fraction_text};

    ghost output = { λ fraction. Some (fraction_text fraction) };

    fn fmt<W: fmt::Write>(&self, f: &mut fmt::Formatter<W>) -> fmt::Result {
        if self.negative {
            f.write_str("-")?;
        }
        write!(f, "{}", self.numerator)?;
        if self.denominator != 1 {
            write!(f, "/{}", self.denominator)?;
        }
        Ok(())
    }
}

/// The fraction of two numbers of which one is a power of two.
pub fn lowest(negative: bool, numerator: u128, denominator: u128) -> Fraction
    requires positive { 0 < denominator }
    requires power { IsPowerOfTwo numerator ⊎ IsPowerOfTwo denominator }
    ensures value { result ≡ halved negative numerator denominator }
    ensures lowest { IsLowest negative numerator denominator result }
{
    let halvings = numerator.trailing_zeros().min(denominator.trailing_zeros());
    Fraction {
        negative,
        numerator: numerator >> halvings,
        denominator: denominator >> halvings,
    }
}
