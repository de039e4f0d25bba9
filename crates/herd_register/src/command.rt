ghost use Rattle.std.specs.Prelude.{◌≡◌};
ghost use Rattle.herd_register.specs.Run.{newborn};

use herd_animal::{AnimalNumber, Day, Herd};
use herd_pedigree::Newborn;

/// What a clerk files.
#[derive(Clone, Copy, Debug, PartialEq, Eq)]
pub enum Command {
    /// An animal is born, or enters the book as a founder, whose parents are unknown.
    Birth {
        /// The number that it gets.
        animal: AnimalNumber,
        /// Its birth day.
        day: Day,
        /// The number of its sire, where he is known.
        sire: Option<AnimalNumber>,
        /// The number of its dam, where she is known.
        dam: Option<AnimalNumber>,
        /// The herd that owns it from its birth day on.
        herd: Herd,
        /// Whether it was born from a stored embryo.
        embryo: bool,
    },
    /// The parents of an animal are corrected, also to unknown.
    Parents {
        /// The number of the animal whose parents they are.
        animal: AnimalNumber,
        /// The number of the right sire; none sets him to unknown.
        sire: Option<AnimalNumber>,
        /// The number of the right dam; none sets her to unknown.
        dam: Option<AnimalNumber>,
    },
    /// An animal goes from one herd to another.
    Transfer {
        /// The number of the animal that goes.
        animal: AnimalNumber,
        /// The first day on which the taker owns it.
        day: Day,
        /// The herd that owned it before.
        giver: Herd,
        /// The herd that owns it from the day on.
        taker: Herd,
    },
    /// An animal leaves.
    Exit {
        /// The number of the animal that leaves.
        animal: AnimalNumber,
        /// The day on which it left.
        day: Day,
    },
}

/// The animal whose birth a command files.
pub(crate) fn newborn(
    day: Day,
    sire: Option<AnimalNumber>,
    dam: Option<AnimalNumber>,
    herd: Herd,
    embryo: bool,
) -> Newborn
    ensures { result ≡ newborn day sire dam herd embryo }
{
    Newborn {
        birth: day,
        sire,
        dam,
        embryo,
        herd,
    }
}
