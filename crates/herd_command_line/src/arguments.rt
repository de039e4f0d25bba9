//! What the words of the command line ask for.

ghost use Rattle.std.specs.Prelude.{◌≡◌, ◌≤◌, ◌++◌, [], All, IfErr, IfOk, OnOk, codes, map, string_bytes};
ghost use Rattle.std.specs.Prelude.{Ok};
ghost use Rattle.hex.specs.Hex.{decode_sized};
ghost use Rattle.herd_command_line.specs.declared.arguments.WordsFault.{WordsFault};
ghost use Rattle.herd_command_line.specs.Words.{IsSealText};
ghost use Rattle.clap.specs.Words.{fault_of, found_of, one_of, rows_of, subcommand_of, subcommand_rows_of};
ghost use Rattle.herd_animal.specs.AnimalNumber.{IsAnimalNumber};
ghost use Rattle.herd_animal.specs.NumberFault.{IsNumberFault};
ghost use Rattle.herd_command_line.specs.CommandLine.{command_line};
ghost use Rattle.herd_command_line.specs.Words.{AreLimitsOf, IsAsked, IsDeskPlanOf, IsFirstFault, IsNumberOr};
ghost use Rattle.herd_command_line.specs.Words.{IsOfficePlanOf, IsRefused, IsUnread, IsUnreadOf, IsWorkPlanOf};
ghost use Rattle.herd_command_line.specs.Words.{rows_in, text_of, texts_of};

use crate::command_line::command;
use crate::limits::{DEFAULT_ANIMALS, DEFAULT_STEPS};
use crate::pedigree_words::{pedigree_order_of, pedigree_plan_of};
use crate::plans::{BookPlan, CheckPlan, OfficePlan, PedigreePlan};
use crate::subcommand::Subcommand;
use clap::ArgMatches;
use herd_animal::{AnimalNumber, NumberFault};
use herd_clerks::DeskPlan;
use herd_frozen::MOST_ANIMALS;
use herd_office::{MOST_DESKS, MOST_INSPECTORS};
use herd_orders::Order;
use herd_pedigree_report::PedigreeOrder;
use herd_pool::{DEFAULT_BLOCK, MOST_WORKERS, WorkPlan};
use herd_register::{Limits, MOST_STEPS};
use hex::FromHex;
use std::alloc::{AllocError, Global};

/// What the words ask for.
#[derive(Clone, Copy)]
pub enum Request<'a> {
    /// The reply to each command.
    File(BookPlan),
    /// What is ordered of the book.
    Report(BookPlan, Order<'a>),
    /// Whether a certificate holds under a seal.
    Check(CheckPlan),
    /// What is ordered of a pedigree.
    Pedigree(PedigreePlan, PedigreeOrder<'a>),
    /// The commands are filed at several desks, each with a clerk in a thread of its own.
    Clerks(BookPlan, DeskPlan),
    /// Requests are answered until the input ends.
    Session(OfficePlan),
}

/// Why the words ask for nothing.
#[derive(Drop)]
pub enum WordsFault {
    /// They aren't a command line, or ask for help or the version: `clap` has the text.
    Words(clap::Error),
    /// The first of the numbers that is none: of the dam, then of the sires as given.
    Number(NumberFault),
    /// The words behind `pedigree` ask for no report, or have some that don't belong to it.
    Misplaced,
    /// The word behind `check` isn't 64 hexadecimal digits.
    NoSeal,
}

impl From<clap::Error> for WordsFault {
    ghost use Rattle.std.specs.Prelude.{◌≡◌};
    ghost use Rattle.herd_command_line.specs.declared.arguments.WordsFault.TheVariants.{Words};

    ghost from_gives = { λ error fault. fault ≡ Words error };

    fn from(error: clap::Error) -> WordsFault {
        WordsFault::Words(error)
    }
}

impl From<AllocError> for WordsFault {
    ghost use Rattle.herd_command_line.specs.Words.{IsUnread};

    ghost from_gives = { λ _ fault. IsUnread (λ _. ⊥) fault };

    fn from(error: AllocError) -> WordsFault {
        WordsFault::Words(clap::Error::from(error))
    }
}

impl From<NumberFault> for WordsFault {
    ghost use Rattle.std.specs.Prelude.{◌≡◌};
    ghost use Rattle.herd_command_line.specs.declared.arguments.WordsFault.TheVariants.{Number};

    ghost from_gives = { λ cause fault. fault ≡ Number cause };

    fn from(fault: NumberFault) -> WordsFault {
        WordsFault::Number(fault)
    }
}

/// Reads the words of the command line, the program's own name first. A list is given for the numbers that the request
/// then lends; what it held is let go.
pub fn read_words<'a>(
    alloc: Global,
    words: &[String],
    list: &'a mut Vec<AnimalNumber>,
    animals: &'a mut Vec<Option<u32>>,
    others: &'a mut Vec<Option<u32>>,
) -> Result<Request<'a>, WordsFault>
    ensures asked { IfOk result (IsAsked (subcommand_of command_line (map string_bytes words.now))) }
    ensures taken { IfOk result (λ _. fault_of command_line (map string_bytes words.now) ≡ []) }
    ensures refused { IfErr result (IsRefused (map string_bytes words.now)) }
{
    let matches = command(alloc)?.try_get_matches_from(words)?;
    request_of(&matches, list, animals, others)
}

fn request_of<'a>(
    matches: &ArgMatches<'_>,
    list: &'a mut Vec<AnimalNumber>,
    animals: &'a mut Vec<Option<u32>>,
    others: &'a mut Vec<Option<u32>>,
) -> Result<Request<'a>, WordsFault>
    ensures asked { IfOk result (IsAsked (subcommand_rows_of matches.now)) }
    ensures unread { IfErr result (IsUnreadOf (subcommand_rows_of matches.now)) }
{
    list.clear();
    let book = book_plan_in(matches);
    let Some((name, given)) = matches.subcommand() else {
        return Ok(Request::File(book));
    };
    match Subcommand::named(name) {
        Subcommand::File => Ok(Request::File(book)),
        Subcommand::Inbreeding => {
            Ok(Request::Report(book, Order::Inbreeding(work_plan_of(given))))
        }
        Subcommand::Certificate => {
            add_numbers(given, "NUMBER", list)?;
            Ok(Request::Report(book, Order::Certificates(list.as_slice())))
        }
        Subcommand::Mating => {
            let dam = number_argument(given, "dam")?;
            add_numbers(given, "SIRE", list)?;
            let sires = list.as_slice();
            Ok(Request::Report(book, Order::Mating { dam, sires }))
        }
        Subcommand::Inverse => Ok(Request::Report(book, Order::Inverse)),
        Subcommand::Relationships => {
            add_numbers(given, "NUMBER", list)?;
            let count = list.len();
            add_numbers(given, "with", list)?;
            let (numbers, others) = list.as_slice().split_at(count);
            Ok(Request::Report(book, Order::Relationships { numbers, others }))
        }
        Subcommand::Records => {
            add_numbers(given, "NUMBER", list)?;
            Ok(Request::Report(book, Order::Records(list.as_slice())))
        }
        Subcommand::Seal => Ok(Request::Report(book, Order::Seal)),
        Subcommand::Sealed => {
            let number = number_argument(given, "NUMBER")?;
            Ok(Request::Report(book, Order::Sealed(number)))
        }
        Subcommand::Check => Ok(Request::Check(check_plan_of(given)?)),
        Subcommand::Pedigree => {
            let order = pedigree_order_of(given, animals, others)?;
            Ok(Request::Pedigree(pedigree_plan_of(given), order))
        }
        Subcommand::Clerks => Ok(Request::Clerks(book, desk_plan_of(given))),
        Subcommand::Session => Ok(Request::Session(office_plan_of(given))),
    }
}

/// How workers share the coefficients.
pub(crate) fn work_plan_of(given: &ArgMatches<'_>) -> WorkPlan
    ensures { IsWorkPlanOf (rows_of (found_of given.now)) result }
{
    WorkPlan {
        workers: option_or(given, "workers", 1, MOST_WORKERS, 1),
        block: option_or(given, "block", 1, MOST_ANIMALS, DEFAULT_BLOCK),
    }
}

fn desk_plan_of(given: &ArgMatches<'_>) -> DeskPlan
    ensures { IsDeskPlanOf (rows_of (found_of given.now)) result }
{
    DeskPlan {
        desks: option_or(given, "desks", 1, MOST_DESKS as u32, 2) as u16,
        base: option_or(given, "base", 0, MOST_STEPS, 0),
    }
}

fn office_plan_of(given: &ArgMatches<'_>) -> OfficePlan
    ensures { IsOfficePlanOf (rows_of (found_of given.now)) result }
{
    OfficePlan {
        desks: option_or(given, "desks", 1, MOST_DESKS as u32, 4) as u16,
        inspectors: option_or(given, "inspectors", 1, MOST_INSPECTORS as u32, 4) as u16,
        limits: limits_of(given),
    }
}

// How large the book and its journal may grow.
fn book_plan_in(matches: &ArgMatches<'_>) -> BookPlan
    ensures { AreLimitsOf (rows_in (subcommand_rows_of matches.now)) result.limits }
{
    let limits = match matches.subcommand() {
        Some((_, given)) => limits_of(given),
        None => Limits {
            animals: DEFAULT_ANIMALS,
            steps: DEFAULT_STEPS,
        },
    };
    BookPlan { limits }
}

fn limits_of(given: &ArgMatches<'_>) -> Limits
    ensures { AreLimitsOf (rows_of (found_of given.now)) result }
{
    Limits {
        animals: option_or(given, "limit-animals", 1, MOST_ANIMALS, DEFAULT_ANIMALS),
        steps: option_or(given, "limit-steps", 1, MOST_STEPS, DEFAULT_STEPS),
    }
}

/// The number of an option from `least` to `most`, and another where the words give none.
pub(crate) fn option_or(given: &ArgMatches<'_>, id: &str, least: u32, most: u32, other: u32) -> u32
    requires { (least ≤ other) × (other ≤ most) }
    ensures given { IsNumberOr least most other (one_of id.now (rows_of (found_of given.now))) result }
    ensures within { (least ≤ result) × (result ≤ most) }
{
    match given.get_one::<u32>(id) {
        Some(number) if least <= number && number <= most => number,
        _ => other,
    }
}

// Adds the numbers under an argument that takes several.
fn add_numbers(
    given: &ArgMatches<'_>,
    id: &str,
    list: &mut Vec<AnimalNumber>,
) -> Result<(), WordsFault>
    ensures read { OnOk result (list.new.items ≡ list.old.items ++ texts_of id.now (rows_of (found_of given.now))) }
    ensures right { OnOk result (All IsAnimalNumber (texts_of id.now (rows_of (found_of given.now)))) }
    ensures unread { IfErr result (IsUnread (IsFirstFault (texts_of id.now (rows_of (found_of given.now))))) }
{
    add_texts(given.get_strs(id).unwrap_or(&[]), list)
}

fn add_texts(texts: &[&str], list: &mut Vec<AnimalNumber>) -> Result<(), WordsFault>
    ensures read { OnOk result (list.new.items ≡ list.old.items ++ map (λ text. text.now) texts.now) }
    ensures right { OnOk result (All IsAnimalNumber (map (λ text. text.now) texts.now)) }
    ensures unread { IfErr result (IsUnread (IsFirstFault (map (λ text. text.now) texts.now))) }
{
    for text in texts {
        let number = AnimalNumber::parse(text.as_bytes())?;
        list.push(number).map_err(AllocError::from)?;
    }
    Ok(())
}

// The seal under which a certificate is checked.
fn check_plan_of(given: &ArgMatches<'_>) -> Result<CheckPlan, WordsFault>
    ensures read { IfOk result (λ plan. decode_sized (text_of (codes "SEAL") (rows_of (found_of given.now))) 32
        ≡ Ok plan.seal) }
    ensures fault { IfErr result (λ fault. (fault ≡ WordsFault.NoSeal)
        × ¬ (IsSealText (text_of (codes "SEAL") (rows_of (found_of given.now))))) }
{
    seal_of_text(given.get_str("SEAL").unwrap_or("").as_bytes())
}

// The seal that a text is.
fn seal_of_text(text: &[u8]) -> Result<CheckPlan, WordsFault>
    ensures read { IfOk result (λ plan. decode_sized text.now 32 ≡ Ok plan.seal) }
    ensures fault { IfErr result (λ fault. (fault ≡ WordsFault.NoSeal) × ¬ (IsSealText text.now)) }
{
    match <[u8; 32]>::from_hex(text) {
        Ok(seal) => Ok(CheckPlan { seal }),
        Err(_) => Err(WordsFault::NoSeal),
    }
}

// The number under an argument that must be there.
fn number_argument(given: &ArgMatches<'_>, id: &str) -> Result<AnimalNumber, NumberFault>
    ensures read { IfOk result (λ number. text_of id.now (rows_of (found_of given.now)) ≡ number) }
    ensures right { IfOk result IsAnimalNumber }
    ensures fault { IfErr result (IsNumberFault (text_of id.now (rows_of (found_of given.now)))) }
{
    AnimalNumber::parse(given.get_str(id).unwrap_or("").as_bytes())
}
