ghost use Rattle.std.specs.Prelude.{◌≡◌, ◌*◌, ◌^◌, ◌<◌, ◌≤◌, false};
ghost use Rattle.herd_lineage.specs.declared.TheConstants.{DEPTH_LIMIT};
ghost use Rattle.herd_kinship.specs.Fraction.{halved, hundredths_of, IsLowest};

use crate::ONE;
use crate::fractions::{Fraction, lowest};

/// So many units of 2^-120 as a fraction in lowest terms: a coefficient, a relationship or a Mendelian sampling
/// variance.
pub fn fraction(numerator: u128) -> Fraction
    ensures value { result ≡ halved false numerator (2 ^ (2 * DEPTH_LIMIT)) }
    ensures lowest { IsLowest false numerator (2 ^ (2 * DEPTH_LIMIT)) result }
{
    lowest(false, numerator, ONE)
}

/// A coefficient in units of 2^-120 as hundredths of a percent, from 0 to 10000: rounded to the nearest, halves up.
pub fn hundredths(numerator: u128) -> u32
    requires { numerator < 2 ^ (2 * DEPTH_LIMIT) }
    ensures value { result ≡ hundredths_of DEPTH_LIMIT numerator }
    ensures at_most { result ≤ 10000 }
{
    let percents = numerator * 100;
    let rest = percents % ONE * 100 + ONE / 2;
    (percents / ONE * 100 + rest / ONE) as u32
}
