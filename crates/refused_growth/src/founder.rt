//! The births that are read and filed.

use herd_animal::{Day, DayFault};
use herd_fixtures::Name::Bull;
use herd_fixtures::herd_of;
use herd_register::Command;

/// The birth of a bull of unknown parents.
pub fn founder(serial: u32) -> Result<Command, DayFault> {
    Ok(Command::Birth {
        animal: Bull(serial).number(),
        day: Day::parse(b"2000-01-01")?,
        sire: None,
        dam: None,
        herd: herd_of(1),
        embryo: false,
    })
}
