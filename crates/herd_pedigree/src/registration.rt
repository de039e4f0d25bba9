//! Births that are asked for, and what becomes of them.
ghost use Rattle.std.specs.Prelude.{◌≡◌};

use herd_animal::{AnimalNumber, Day, Herd};
use herd_frozen::{Animal, ParentFault};

/// An animal that is to be born, or to enter the book as a founder, whose parents are unknown.
#[derive(Clone, Copy, Debug, PartialEq, Eq)]
pub struct Newborn {
    pub birth: Day,
    /// The number of its sire, where he is known.
    pub sire: Option<AnimalNumber>,
    /// The number of its dam, where she is known.
    pub dam: Option<AnimalNumber>,
    /// Whether it is born from a stored embryo.
    pub embryo: bool,
    /// The herd that owns it from its birth day on.
    pub herd: Herd,
}

impl Newborn {
    ghost use Rattle.herd_pedigree.specs.Pedigree.{birth_record};

    /// The record that its birth makes.
    pub fn animal(&self) -> Animal
        ensures { result ≡ birth_record self.now }
    {
        Animal {
            birth: self.birth,
            sire: self.sire,
            dam: self.dam,
            embryo: self.embryo,
            herd: self.herd,
            since: self.birth,
            left: None,
        }
    }
}

/// What became of a birth that was asked for.
#[derive(Clone, Copy, Debug, PartialEq, Eq)]
pub enum Registration {
    /// The animal is in the book now.
    Added,
    /// The number was in the book already.
    AlreadyThere,
    /// The number is free, and the parents have this fault: the first that `Pedigree::check_parents` tells.
    Unsound(ParentFault),
}
