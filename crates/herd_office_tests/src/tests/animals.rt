//! Days whose numbers are known; and numbers, days and herds by the traits that read and show a text.

use herd_animal::{AnimalNumber, Day, Herd, NumberFault};
use std::alloc::{AllocError, Global};
use std::fmt::Display;
use std::test::Fail;

// Days, and how many lie between each and the first day of 1970.
const DAYS: [(&str, i32); 6] = [
    ("1970-01-01", 0),
    ("1969-12-31", -1),
    ("1900-01-01", -25567),
    ("2000-02-29", 11016),
    ("2015-08-12", 16659),
    ("2199-12-31", 84005),
];

#[test]
fn days_have_their_numbers(rt: HostRuntime) -> Result<(), Fail> {
    for (text, number) in DAYS {
        let day: Day = text.parse()?;
        assert_eq!(rt; day.number(), number, "{text}");
        assert!(rt; is_shown(rt.alloc(), &day, text)?, "{text}");
    }
    Ok(())
}

fn is_shown(alloc: Global, value: &impl Display, text: &str) -> Result<bool, AllocError> {
    let shown = format!(in alloc; "{value}")?;
    Ok(shown.as_str() == text)
}

#[test]
fn texts_are_read_and_shown(rt: HostRuntime) -> Result<(), Fail> {
    let number: AnimalNumber = "AYRGBRF201500000404".parse()?;
    assert!(rt; is_shown(rt.alloc(), &number, "AYRGBRF201500000404")?);
    let herd: Herd = "1180".parse()?;
    assert!(rt; is_shown(rt.alloc(), &herd, "1180")?);
    let fault = NumberFault::NumberCharacter(18);
    let words = "neither a letter A to Z nor a digit at place 18";
    assert!(rt; is_shown(rt.alloc(), &fault, words)?);
    Ok(())
}
