//! Books that are filled, and corrected, as a register does it: each change is checked first.

ghost use Rattle.std.specs.Prelude.{◌≡◌, length, max, None, IfOk, OnOk, OnErr};
ghost use Rattle.std.specs.Map.{keys_of};
ghost use Rattle.herd_frozen.specs.rules.Book.{changed, with_parents};
ghost use Rattle.pedigree_timing.specs.Books.{corrected, first_of, lined_birth, paired_birth};

use crate::animals::{born_in, calf};
use anyhow::{Result, bail};
use herd_animal::AnimalNumber;
use herd_fixtures::Name::{Bull, Cow};
use herd_fixtures::{Birth, Pair, file_birth};
use herd_pedigree::Pedigree;
use std::alloc::Global;

// How many animals a line has, each the sire of the next. With one sire more before it, it is as long as may be.
const LINE: u32 = 60;

// How many bulls there are, and how many cows, whose calves all others are.
const PAIRS: u32 = 50;

/// A book of a few pairs, and then of their calves in no order of age.
pub fn calves(alloc: Global, animals: u32) -> Result<Pedigree<Global>>
    ensures book { IfOk result (λ pedigree. pedigree.book ≡ first_of paired_birth animals) }
    ensures count { IfOk result (λ pedigree. length pedigree.book ≡ animals) }
{
    let mut pedigree = Pedigree::new(alloc);
    for place in 0..animals {
        file_birth(&mut pedigree, paired(place))?;
    }
    Ok(pedigree)
}

fn paired(place: u32) -> Birth
    ensures { result ≡ paired_birth place }
{
    if place < PAIRS {
        return born_in(1900, Bull(place), None);
    }
    if place < 2 * PAIRS {
        return born_in(1900, Cow(place), None);
    }
    let pair = place % PAIRS;
    calf(place, Pair::of(Bull(pair), Cow(PAIRS + pair)))
}

/// A founder, and then one line after the other.
pub fn lines(alloc: Global, animals: u32) -> Result<Pedigree<Global>>
    ensures book { IfOk result (λ pedigree. pedigree.book ≡ first_of lined_birth (max animals 1)) }
    ensures count { IfOk result (λ pedigree. length pedigree.book ≡ max animals 1) }
{
    let mut pedigree = Pedigree::new(alloc);
    for place in 0..animals.max(1) {
        file_birth(&mut pedigree, lined(place))?;
    }
    Ok(pedigree)
}

fn lined(place: u32) -> Birth
    ensures { result ≡ lined_birth place }
{
    if place == 0 {
        return born_in(1900, Bull(0), None);
    }
    let before = place - 1;
    let generation = before % LINE;
    let sire = if generation == 0 {
        None
    } else {
        Some(Bull(before))
    };
    born_in(1910 + generation, Bull(place), sire)
}

/// Gives the first of each line in turn the founder as its sire, and in the next round none. After an error the book
/// has some of the corrections.
pub fn correct_heads(pedigree: &mut Pedigree<Global>, times: u32) -> Result<()>
    ensures corrected { OnOk result (pedigree.new.book ≡ corrected pedigree.old.book times) }
    ensures same { keys_of pedigree.new.book ≡ keys_of pedigree.old.book }
    ensures count { length pedigree.new.book ≡ length pedigree.old.book }
{
    let founder = Bull(0).number();
    let lines = (pedigree.len() / LINE).max(1);
    for turn in 0..times {
        let head = Bull(turn % lines * LINE + 1).number();
        let sire = if (turn / lines).is_multiple_of(2) {
            Some(founder)
        } else {
            None
        };
        file_correction(pedigree, head, sire)?;
    }
    Ok(())
}

fn file_correction(
    pedigree: &mut Pedigree<Global>,
    number: AnimalNumber,
    sire: Option<AnimalNumber>,
) -> Result<()>
    ensures corrected { OnOk result (pedigree.new.book ≡ changed pedigree.old.book number (with_parents sire None)) }
    ensures err { OnErr result (pedigree.new ≡ pedigree.old) }
{
    let Some(found) = pedigree.find(&number) else {
        bail!("there is no such animal")
    };
    match pedigree.set_parents_at_if_sound(&found, sire, None)? {
        None => Ok(()),
        Some(_) => bail!("a correction is refused"),
    }
}
