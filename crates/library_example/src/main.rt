//! How a program builds on the crates of the herd book. It files births into a register by calls, prints the replies,
//! freezes the book, and prints each animal's coefficient of inbreeding and what one mating would give.
//!
//! Read it from top to bottom. What stands after `requires` and `ensures` is proved before the program is built; all
//! else is ordinary Rust, but that whatever takes memory is given an allocator, and whatever prints is given `rt`.
#![tactic(auto)]

ghost use Rattle.std.specs.Prelude.{◌≡◌, ◌+◌, ◌*◌, ◌^◌, ◌<◌, false, length, OnErr, OnOk};
ghost use Rattle.herd_frozen.specs.declared.TheConstants.{DEPTH_LIMIT};
ghost use Rattle.herd_advice.specs.BookCoefficients.{AreBookCoefficients};
ghost use Rattle.herd_kinship.specs.Fraction.{halved};
ghost use Rattle.herd_advice.specs.FrozenAncestry.{ancestry_of, number_of_row};
ghost use Rattle.herd_kinship.specs.Table.{coefficient};

use anyhow::Result;
use herd_advice::{Coefficients, Fraction, coefficients_plain, fraction, mating};
use herd_animal::{AnimalNumber, Day, Herd};
use herd_frozen::Frozen;
use herd_pedigree::Pedigree;
use herd_register::{Command, Limits, Register, Reply};
use std::alloc::Global;
use std::io;

// Breed, country, sex, and twelve characters of its own.
const BULL: &str = "HOLGBRM000000000001";

const COW: &str = "HOLGBRF000000000002";

const SON: &str = "HOLGBRM000000000003";

const DAUGHTER: &str = "HOLGBRF000000000004";

const CALF: &str = "HOLGBRF000000000005";

fn main(rt: HostRuntime) -> Result<()> {
    // `Register::new` gives an empty register. Its limits may be as wide as `MOST_ANIMALS` and `MOST_STEPS`.
    let limits = Limits {
        animals: 1_000,
        steps: 10_000,
    };
    let mut register = Register::new(rt.alloc(), limits);
    file_births(&mut register)?;
    print_replies(&rt, &register)?;
    print_pedigree(&rt, rt.alloc(), register.pedigree())
}

fn print_pedigree(rt: &impl Print, alloc: Global, pedigree: &Pedigree<Global>) -> Result<()> {
    // `freeze` gives the book of this moment, in age order, with each animal's parents as ranks in it.
    let frozen = pedigree.freeze(alloc)?;
    print_book(rt, alloc, &frozen)
}

// What is computed from a frozen book.
fn print_book(rt: &impl Print, alloc: Global, frozen: &Frozen<Global>) -> Result<()> {
    // `coefficients_plain` gives the coefficients of all its animals, by their ranks.
    let coefficients = coefficients_plain(alloc, frozen)?;
    print_coefficients(rt, frozen, &coefficients)?;
    print_mating(rt, alloc, frozen, &coefficients, SON, CALF)
}

// Parents come before their calves.
fn file_births(register: &mut Register<Global>) -> Result<()> {
    file_birth(register, BULL, "2015-03-01", None, None)?;
    file_birth(register, COW, "2016-04-12", None, None)?;
    file_birth(register, SON, "2018-02-20", Some(BULL), Some(COW))?;
    file_birth(register, DAUGHTER, "2019-06-08", Some(BULL), Some(COW))?;
    // Sire and dam are exchanged: this one is refused, and the book stays as it is.
    file_birth(register, CALF, "2021-05-03", Some(DAUGHTER), Some(SON))?;
    file_birth(register, CALF, "2021-05-03", Some(SON), Some(DAUGHTER))
}

// Files a birth. It is answered once, accepted or refused; after an error the register is as it was.
fn file_birth(
    register: &mut Register<Global>,
    animal: &str,
    day: &str,
    sire: Option<&str>,
    dam: Option<&str>,
) -> Result<()>
    ensures once { OnOk result (length register.new.journal ≡ length register.old.journal + 1) }
    ensures err { OnErr result (register.new ≡ register.old) }
{
    // `parse` gives a number, a day or a herd, or tells what is wrong with the text.
    let command = Command::Birth {
        animal: animal.parse()?,
        day: day.parse()?,
        sire: parent(sire)?,
        dam: parent(dam)?,
        herd: Herd::parse(b"1")?,
        embryo: false,
    };
    // `file` gives the reply, and keeps it with the command and the number of the desk, here 1.
    register.file(1, command)?;
    Ok(())
}

fn parent(number: Option<&str>) -> Result<Option<AnimalNumber>> {
    match number {
        Some(number) => Ok(Some(number.parse()?)),
        None => Ok(None),
    }
}

fn print_replies(rt: &impl Print, register: &Register<Global>) -> io::Result<()> {
    // `journal` gives all steps, each with its command and its reply, in the order in which they were filed.
    for step in register.journal() {
        match step.reply {
            Reply::Accepted => println!(rt; "accepted")?,
            Reply::Refused(refusal) => println!(rt; "refused: {refusal}")?,
        }
    }
    Ok(())
}

// The animal at a rank, and its coefficient: half its parents' entry in the tabular relationship matrix.
fn inbreeding_at(
    frozen: &Frozen<Global>,
    coefficients: &Coefficients<Global>,
    rank: u32,
) -> (AnimalNumber, Fraction)
    // A caller has to show that these are the coefficients of this book, as `coefficients_plain` promises.
    requires coefficients { AreBookCoefficients DEPTH_LIMIT frozen.now coefficients.now }
    requires rank { rank < length frozen.now }
    ensures number { result.0 ≡ number_of_row frozen.now rank }
    ensures value { result.1
        ≡ halved false (coefficient (ancestry_of frozen.now) DEPTH_LIMIT result.0) (2 ^ (2 * DEPTH_LIMIT)) }
{
    // `number` gives an animal's number, `numerator` its coefficient in units of 2^-120, and `fraction` the fraction in
    // lowest terms.
    (frozen.number(rank), fraction(coefficients.numerator(rank)))
}

fn print_coefficients(
    rt: &impl Print,
    frozen: &Frozen<Global>,
    coefficients: &Coefficients<Global>,
) -> Result<()>
    requires { AreBookCoefficients DEPTH_LIMIT frozen.now coefficients.now }
{
    for rank in 0..frozen.len() {
        let (number, coefficient) = inbreeding_at(frozen, coefficients, rank);
        print_coefficient(rt, number, coefficient)?;
    }
    Ok(())
}

fn print_coefficient(rt: &impl Print, number: AnimalNumber, coefficient: Fraction) -> Result<()> {
    println!(rt; "{number} {coefficient}")?;
    Ok(())
}

fn print_mating(
    rt: &impl Print,
    alloc: Global,
    frozen: &Frozen<Global>,
    coefficients: &Coefficients<Global>,
    sire: &str,
    dam: &str,
) -> Result<()>
    requires { AreBookCoefficients DEPTH_LIMIT frozen.now coefficients.now }
{
    let sire: AnimalNumber = sire.parse()?;
    let dam: AnimalNumber = dam.parse()?;
    // `mating` gives the coefficient that a calf of the two would have, or tells why there is none.
    match mating(alloc, frozen, coefficients, &sire, &dam) {
        Ok(numerator) => {
            let coefficient = fraction(numerator);
            println!(rt; "their calf {coefficient}")?;
        }
        Err(fault) => println!(rt; "no calf: {fault}")?,
    }
    Ok(())
}
