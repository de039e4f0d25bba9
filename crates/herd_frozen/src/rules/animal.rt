ghost use Rattle.std.specs.Prelude.{◌≡◌};
ghost use Rattle.herd_frozen.specs.rules.Book.{with_left, with_owner, with_parents};

use herd_animal::{AnimalNumber, Day, Herd};

/// What the book keeps of an animal.
#[derive(Clone, Copy, Debug, PartialEq, Eq)]
pub struct Animal {
    /// Its birth day.
    pub birth: Day,
    /// The number of its sire, where he is known.
    pub sire: Option<AnimalNumber>,
    /// The number of its dam, where she is known.
    pub dam: Option<AnimalNumber>,
    /// Whether it was born from a stored embryo: then its dam may have left before.
    pub embryo: bool,
    /// The herd that owns it, or owned it when it left.
    pub herd: Herd,
    /// The day from which this herd owns it, at first its birth day.
    pub since: Day,
    /// The day on which it left, where it has.
    pub left: Option<Day>,
}

impl Animal {
    /// The same with other parents.
    pub fn with_parents(&self, sire: Option<AnimalNumber>, dam: Option<AnimalNumber>) -> Animal
        ensures { result ≡ with_parents sire dam self.now }
    {
        Animal { sire, dam, ..*self }
    }

    /// The same, owned by the herd from the day on.
    pub fn with_owner(&self, herd: Herd, day: Day) -> Animal
        ensures { result ≡ with_owner herd day self.now }
    {
        Animal {
            herd,
            since: day,
            ..*self
        }
    }

    /// The same, gone on the day.
    pub fn with_left(&self, day: Day) -> Animal
        ensures { result ≡ with_left day self.now }
    {
        Animal {
            left: Some(day),
            ..*self
        }
    }
}
