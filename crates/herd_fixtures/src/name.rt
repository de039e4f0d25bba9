//! Animals, written short.

ghost use Rattle.std.specs.Prelude.{◌≡◌, length};
ghost use Rattle.herd_animal.specs.Sex.{sex_of};
ghost use Rattle.herd_fixtures.specs.Name.{digits, letter_of, number_named, number_with, sex_named};

use herd_animal::{AnimalNumber, Sex};

/// An animal by its sex and the digits at the end of its number: `Bull(5)` is `HOLGBRM000000000005`.
#[derive(Clone, Copy, Debug, PartialEq, Eq)]
pub enum Name {
    Bull(u32),
    Cow(u32),
}

impl Name {
    /// The whole number.
    pub fn number(self) -> AnimalNumber
        ensures number { result ≡ number_named self }
        ensures sex { sex_of result ≡ sex_named self }
    {
        match self {
            Name::Bull(serial) => animal_number(Sex::Male, serial),
            Name::Cow(serial) => animal_number(Sex::Female, serial),
        }
    }
}

fn animal_number(sex: Sex, serial: u32) -> AnimalNumber
    ensures { result ≡ number_with sex serial }
{
    let mut text = *b"HOLGBR?000000000000";
    text[6] = letter(sex);
    write_digits(&mut text[7..], serial);
    let Ok(number) = AnimalNumber::parse(&text) else {
        unreachable!();
    };
    number
}

fn letter(sex: Sex) -> u8
    ensures { result ≡ letter_of sex }
{
    match sex {
        Sex::Male => b'M',
        Sex::Female => b'F',
    }
}

// Writes the last digits of a number.
fn write_digits(text: &mut [u8], number: u32)
    ensures { text.new ≡ digits (length text.old) number }
{
    let mut rest = number;
    for place in (0..text.len()).rev() {
        text[place] = b'0' + (rest % 10) as u8;
        rest /= 10;
    }
}
