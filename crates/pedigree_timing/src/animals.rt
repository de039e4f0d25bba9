//! Births of made animals.

ghost use Rattle.std.specs.Prelude.{◌≡◌, ◌<◌};
ghost use Rattle.herd_animal.specs.Day.{text_of, two_digits_of};
ghost use Rattle.pedigree_timing.specs.Animals.{birth_in, calf_birth};

use herd_fixtures::Name::Bull;
use herd_fixtures::{Birth, DayText, Name, Pair};

// How many birth days the calves have: the first 28 days of each month of 250 years.
const BIRTH_DAYS: u64 = 250 * 12 * 28;

/// The birth of an animal on the first day of the year, whose dam isn't known.
pub fn born_in(year: u32, name: Name, sire: Option<Name>) -> Birth
    requires { year < 10_000 }
    ensures { result ≡ birth_in year name sire }
{
    Birth(name, day(year, 1, 1), Pair { sire, dam: None })
}

/// The birth of a bull calf. Its day tells nothing of its place.
pub fn calf(place: u32, parents: Pair) -> Birth
    ensures { result ≡ calf_birth place parents }
{
    let shuffled = (u64::from(place) * 7_919 % BIRTH_DAYS) as u32;
    let month = shuffled / 28;
    let birth = day(1910 + month / 12, 1 + month % 12, 1 + shuffled % 28);
    Birth(Bull(place), birth, parents)
}

fn day(year: u32, month: u32, day: u32) -> DayText
    requires year { year < 10_000 }
    requires month { month < 100 }
    requires day { day < 100 }
    ensures { result ≡ text_of year month day }
{
    let [y0, y1] = two_digits(year / 100);
    let [y2, y3] = two_digits(year % 100);
    let [m0, m1] = two_digits(month);
    let [d0, d1] = two_digits(day);
    [y0, y1, y2, y3, b'-', m0, m1, b'-', d0, d1]
}

// A number below 100 in two digits.
fn two_digits(number: u32) -> [u8; 2]
    requires { number < 100 }
    ensures { result ≡ two_digits_of number }
{
    [b'0' + (number / 10) as u8, b'0' + (number % 10) as u8]
}
