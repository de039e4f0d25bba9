//! Books of births.

ghost use Rattle.std.specs.Prelude.{◌≡◌, [], ◌++◌, ◌∷◌, map, IfOk, OnErr, OnOk};
ghost use Rattle.herd_frozen.specs.freezing.Frozen.{IsFrozenFrom};
ghost use Rattle.herd_pedigree.specs.Pedigree.{changed_to};
ghost use Rattle.herd_frozen.specs.declared.TheConstants.{DEPTH_LIMIT, MOST_ANIMALS};
ghost use Rattle.herd_fixtures.specs.Birth.{entry};

use crate::birth::{Birth, DayText, Pair, UNKNOWN};
use crate::name::Name::{Bull, Cow};
use herd_animal::DayFault;
use herd_frozen::{Frozen, MOST_ANIMALS, ParentFault};
use herd_pedigree::{Pedigree, Registration};
use std::alloc::{AllocError, Allocator};
use thiserror::Error;

/// Why a birth isn't filed.
#[derive(Clone, Copy, Debug, PartialEq, Eq, Error)]
pub enum BirthFault {
    #[error("the birth day: {0}")]
    Day(DayFault),
    #[error("the animal is in the book already")]
    Registered,
    #[error("the book is full")]
    BookFull,
    #[error("the parents: {0}")]
    Parents(ParentFault),
    #[error("memory ran out")]
    Memory,
}

impl From<DayFault> for BirthFault {
    fn from(fault: DayFault) -> BirthFault {
        BirthFault::Day(fault)
    }
}

impl From<AllocError> for BirthFault {
    fn from(_refused: AllocError) -> BirthFault {
        BirthFault::Memory
    }
}

/// Files a birth.
pub fn file_birth<A: Allocator + Copy>(
    pedigree: &mut Pedigree<A>,
    birth: Birth,
) -> Result<(), BirthFault>
    ensures filed { OnOk result (pedigree.new ≡ changed_to pedigree.old (pedigree.old.book ++ entry birth ∷ [])) }
    ensures err { OnErr result (pedigree.new ≡ pedigree.old) }
{
    let number = birth.0.number();
    let newborn = birth.newborn()?;
    if pedigree.len() >= MOST_ANIMALS {
        return match pedigree.get(&number) {
            Some(_) => Err(BirthFault::Registered),
            None => Err(BirthFault::BookFull),
        };
    }
    match pedigree.add_if_new(number, newborn)? {
        Registration::Added => Ok(()),
        Registration::AlreadyThere => Err(BirthFault::Registered),
        Registration::Unsound(fault) => Err(BirthFault::Parents(fault)),
    }
}

// Files births one after another, up to the first that isn't filed.
fn file_births<A: Allocator + Copy>(
    pedigree: &mut Pedigree<A>,
    births: &[Birth],
) -> Result<(), BirthFault>
    ensures { OnOk result (pedigree.new.book ≡ pedigree.old.book ++ map entry births.now) }
{
    for birth in births {
        file_birth(pedigree, *birth)?;
    }
    Ok(())
}

// What is frozen of a pedigree.
fn frozen_pedigree<A: Allocator + Copy>(
    alloc: A,
    pedigree: &Pedigree<A>,
) -> Result<Frozen<A>, BirthFault>
    ensures { IfOk result (IsFrozenFrom DEPTH_LIMIT MOST_ANIMALS pedigree.now.book) }
{
    pedigree.freeze(alloc).map_err(BirthFault::from)
}

/// The frozen book of these births.
pub fn frozen_of<A: Allocator + Copy>(alloc: A, births: &[Birth]) -> Result<Frozen<A>, BirthFault>
    ensures { IfOk result (IsFrozenFrom DEPTH_LIMIT MOST_ANIMALS (map entry births.now)) }
{
    let mut pedigree = Pedigree::new(alloc);
    file_births(&mut pedigree, births)?;
    frozen_pedigree(alloc, &pedigree)
}

fn file_founders<A: Allocator + Copy>(
    pedigree: &mut Pedigree<A>,
    count: u16,
) -> Result<(), BirthFault> {
    for before in 0..count {
        let name = Bull(u32::from(before) + 1);
        file_birth(pedigree, Birth(name, *b"2000-01-01", UNKNOWN))?;
    }
    Ok(())
}

/// The frozen book of so many bulls of unknown parents, numbered from 1.
pub fn founders<A: Allocator + Copy>(alloc: A, count: u16) -> Result<Frozen<A>, BirthFault> {
    let mut pedigree = Pedigree::new(alloc);
    file_founders(&mut pedigree, count)?;
    frozen_pedigree(alloc, &pedigree)
}

fn file_pairs<A: Allocator + Copy>(
    pedigree: &mut Pedigree<A>,
    count: u8,
) -> Result<(), BirthFault> {
    for generation in 0..count {
        file_births(pedigree, &pair_of(generation))?;
    }
    Ok(())
}

/// The frozen book of so many generations of a bull and a cow, each of the pair before. Bulls have odd numbers, cows
/// even ones. The first pair is born on the first day of 2000, and each further one a year later.
pub fn generations<A: Allocator + Copy>(alloc: A, count: u8) -> Result<Frozen<A>, BirthFault> {
    let mut pedigree = Pedigree::new(alloc);
    file_pairs(&mut pedigree, count)?;
    frozen_pedigree(alloc, &pedigree)
}

// The births of such a pair: of the first one, which has no parents, for 0.
fn pair_of(generation: u8) -> [Birth; 2] {
    let day = new_year(generation);
    let last = 2 * u32::from(generation);
    let parents = if generation == 0 {
        UNKNOWN
    } else {
        Pair::of(Bull(last - 1), Cow(last))
    };
    [
        Birth(Bull(last + 1), day, parents),
        Birth(Cow(last + 2), day, parents),
    ]
}

// The first day of the year that is so many after 2000. There is none after 2099.
fn new_year(after: u8) -> DayText {
    let mut text = *b"2000-01-01";
    text[2] = b'0' + after / 10 % 10;
    text[3] = b'0' + after % 10;
    text
}
