//! Commands, written short. Births of founders are on the first day of 2000, and all are in herd 1.

use herd_animal::Day;
use herd_fixtures::{Birth, Name, Pair, UNKNOWN, herd_of};
use herd_register::{Command, Limits};
use std::process::Abort;

/// Limits that no test passes.
pub(super) const LIMITS: Limits = Limits {
    animals: 8,
    steps: 11,
};

pub(super) fn founder(rt: &impl Abort, name: Name) -> Command {
    birth(rt, Birth(name, *b"2000-01-01", UNKNOWN))
}

pub(super) fn birth(rt: &impl Abort, birth: Birth) -> Command {
    let (number, animal) = birth.entry().expect(rt, "a day");
    Command::Birth {
        animal: number,
        day: animal.birth,
        sire: animal.sire,
        dam: animal.dam,
        herd: animal.herd,
        embryo: animal.embryo,
    }
}

pub(super) fn parents(name: Name, pair: Pair) -> Command {
    Command::Parents {
        animal: name.number(),
        sire: pair.sire_number(),
        dam: pair.dam_number(),
    }
}

/// A transfer from herd 1 to herd 2.
pub(super) fn transfer(rt: &impl Abort, name: Name, on: &[u8]) -> Command {
    Command::Transfer {
        animal: name.number(),
        day: day(rt, on),
        giver: herd_of(1),
        taker: herd_of(2),
    }
}

pub(super) fn exit(rt: &impl Abort, name: Name, on: &[u8]) -> Command {
    Command::Exit {
        animal: name.number(),
        day: day(rt, on),
    }
}

pub(super) fn day(rt: &impl Abort, text: &[u8]) -> Day {
    Day::parse(text).expect(rt, "a day")
}
