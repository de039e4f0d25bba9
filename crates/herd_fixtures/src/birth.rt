//! Births, written short.

ghost use Rattle.std.specs.Prelude.{◌≡◌, ◌↔◌, None, Some, IfOk, IsOk};
ghost use Rattle.herd_animal.specs.Day.{IsDay};
ghost use Rattle.herd_fixtures.specs.Birth.{entry, named, newborn};

use crate::herd::herd_of;
use crate::name::Name;
use herd_animal::{AnimalNumber, Day, DayFault};
use herd_frozen::Animal;
use herd_pedigree::Newborn;

/// The text of a day, `dddd-dd-dd`.
pub type DayText = [u8; 10];

/// Parents that are named, or not known.
#[derive(Clone, Copy, Debug, PartialEq, Eq)]
pub struct Pair {
    /// The sire, where he is known.
    pub sire: Option<Name>,
    /// The dam, where she is known.
    pub dam: Option<Name>,
}

/// Neither parent is known.
pub const UNKNOWN: Pair = Pair {
    sire: None,
    dam: None,
};

impl Pair {
    /// Both parents are known.
    pub fn of(sire: Name, dam: Name) -> Pair
        ensures sire { result.sire ≡ Some sire }
        ensures dam { result.dam ≡ Some dam }
    {
        Pair {
            sire: Some(sire),
            dam: Some(dam),
        }
    }

    /// The sire alone is known.
    pub fn of_sire(sire: Name) -> Pair
        ensures sire { result.sire ≡ Some sire }
        ensures dam { result.dam ≡ None }
    {
        Pair {
            sire: Some(sire),
            dam: None,
        }
    }

    /// The sire's number, where he is known.
    pub fn sire_number(self) -> Option<AnimalNumber>
        ensures { result ≡ named self.sire }
    {
        parent_number(self.sire)
    }

    /// The dam's number, where she is known.
    pub fn dam_number(self) -> Option<AnimalNumber>
        ensures { result ≡ named self.dam }
    {
        parent_number(self.dam)
    }
}

fn parent_number(parent: Option<Name>) -> Option<AnimalNumber>
    ensures { result ≡ named parent }
{
    match parent {
        Some(name) => Some(name.number()),
        None => None,
    }
}

/// A birth in herd 1: who is born, the day, and the parents.
#[derive(Clone, Copy, Debug, PartialEq, Eq)]
pub struct Birth(pub Name, pub DayText, pub Pair);

impl Birth {
    /// The animal's number, and what a book keeps of it.
    pub fn entry(self) -> Result<(AnimalNumber, Animal), DayFault>
        ensures accepted { IsOk result ↔ IsDay self.1 }
        ensures kept { IfOk result (λ kept. kept ≡ entry self) }
    {
        Ok((self.0.number(), self.newborn()?.animal()))
    }

    /// The animal that is to be born.
    pub fn newborn(self) -> Result<Newborn, DayFault>
        ensures accepted { IsOk result ↔ IsDay self.1 }
        ensures value { IfOk result (λ animal. animal ≡ newborn self) }
    {
        let Birth(_, text, parents) = self;
        Ok(Newborn {
            birth: Day::parse(&text)?,
            sire: parents.sire_number(),
            dam: parents.dam_number(),
            embryo: false,
            herd: herd_of(1),
        })
    }
}
