//! The command line: the program, its subcommands and their arguments, as `clap` reads words by them.

ghost use Rattle.std.specs.Prelude.{◌≡◌, ℕ, IfOk, decimal};
ghost use Rattle.clap.specs.Words.{App, Rule, app_of, new_app, with_rule};
ghost use Rattle.herd_command_line.specs.CommandLine.{IsArgumentOf, IsCommandOf, animals_rule, any_rule};
ghost use Rattle.herd_command_line.specs.CommandLine.{certificate_line};
ghost use Rattle.herd_command_line.specs.CommandLine.{check_line, seal_rule};
ghost use Rattle.herd_command_line.specs.CommandLine.{clerks_line, command_line, dam_rule, file_line, given_option};
ghost use Rattle.herd_command_line.specs.CommandLine.{inbreeding_line, inverse_line, limited, line_with, mating_line};
ghost use Rattle.herd_command_line.specs.CommandLine.{number_option, number_rule, partners_rule, pedigree_line};
ghost use Rattle.herd_command_line.specs.CommandLine.{program};
ghost use Rattle.herd_command_line.specs.CommandLine.{records_line, relationships_line, report_rule, runs_line};
ghost use Rattle.herd_command_line.specs.CommandLine.{seal_line};
ghost use Rattle.herd_command_line.specs.CommandLine.{sealed_line, session_line, several_rule, units_rule};

use crate::help;
use clap::{Arg, ArgAction, Command};
use herd_frozen::MOST_ANIMALS;
use herd_office::{MOST_DESKS, MOST_INSPECTORS};
use herd_pool::MOST_WORKERS;
use herd_register::MOST_STEPS;
use std::alloc::{AllocError, Global};

/// The program with all its subcommands.
pub(crate) fn command<'a>(alloc: Global) -> Result<Command<'a>, AllocError>
    ensures { IfOk result (λ command. app_of command ≡ command_line) }
{
    let checks = with_subcommand(runs(alloc), check(alloc));
    let lines = with_subcommand(checks, pedigree(alloc));
    with_subcommand(with_subcommand(lines, clerks(alloc)), session(alloc))
}

// The program with the subcommands of one thread that files.
fn runs<'a>(alloc: Global) -> Result<Command<'a>, AllocError>
    ensures { IfOk result (IsCommandOf runs_line) }
{
    let replies = with_subcommand(Ok(bare_program(alloc)), file(alloc));
    let lists = with_subcommand(replies, inbreeding(alloc));
    let certificates = with_subcommand(lists, certificate(alloc));
    let advice = with_subcommand(certificates, mating(alloc));
    let inverses = with_subcommand(advice, inverse(alloc));
    let pairs = with_subcommand(inverses, relationships(alloc));
    let kept = with_subcommand(pairs, records(alloc));
    let seals = with_subcommand(kept, seal(alloc));
    with_subcommand(seals, sealed(alloc))
}

// A command with one subcommand more. Memory that was refused for either is refused.
fn with_subcommand<'a>(
    command: Result<Command<'a>, AllocError>,
    subcommand: Result<Command<'a>, AllocError>,
) -> Result<Command<'a>, AllocError>
    ensures { (line part : App) → IfOk command.entry (IsCommandOf line) → IfOk subcommand.entry (IsCommandOf part)
        → IfOk result (IsCommandOf (line_with line part)) }
{
    command?.subcommand(subcommand?)
}

// A command with one argument more. Memory that was refused for the command is refused.
fn with_argument<'a>(
    command: Result<Command<'a>, AllocError>,
    argument: Arg<'a>,
) -> Result<Command<'a>, AllocError>
    ensures { (line : App) (rule : Rule) → IfOk command.entry (IsCommandOf line) → IsArgumentOf rule argument.entry
        → IfOk result (IsCommandOf (with_rule line rule)) }
{
    command?.arg(argument)
}

// The program with no subcommand yet.
fn bare_program<'a>(alloc: Global) -> Command<'a>
    ensures { IsCommandOf program result }
{
    named(
        alloc,
        "herdbook",
        "Reads the herd book of a breed society, and writes what is asked of it",
        help::PROGRAM,
    )
    .version(help::VERSION)
    .subcommand_required(true)
}

fn file<'a>(alloc: Global) -> Result<Command<'a>, AllocError>
    ensures { IfOk result (IsCommandOf file_line) }
{
    let bare = named(
        alloc,
        "file",
        "Files the commands and writes one reply for each",
        help::FILE,
    );
    with_limits(alloc, Ok(bare))
}

fn inverse<'a>(alloc: Global) -> Result<Command<'a>, AllocError>
    ensures { IfOk result (IsCommandOf inverse_line) }
{
    let bare = named(
        alloc,
        "inverse",
        "Writes what each animal adds to the inverse relationship matrix",
        help::INVERSE,
    );
    with_limits(alloc, Ok(bare))
}

// A command with no arguments yet: its name, what it does in a line, and the end of its help.
fn named<'a>(alloc: Global, name: &'a str, about: &'a str, more: &'a str) -> Command<'a>
    ensures { IsCommandOf (new_app name.entry.now) result }
{
    Command::new(alloc, name).about(about).after_help(more)
}

// An option of a number from `least` to `most`, with no help yet: its name, and what help calls its number.
fn given_option<'a>(alloc: Global, name: &'a str, value: &'a str, least: u32, most: u32) -> Arg<'a>
    ensures { IsArgumentOf (given_option name.entry.now least most) result }
{
    Arg::new(alloc, name)
        .long(name)
        .value_name(value)
        .value_parser(clap::value_parser!(u32).range(least as i64..=most as i64))
}

// The same with the text of the number where it isn't given.
fn number_option<'a>(
    alloc: Global,
    name: &'a str,
    value: &'a str,
    least: u32,
    most: u32,
    default: &'a str,
) -> Arg<'a>
    ensures { (number : ℕ) → default.entry.now ≡ decimal number
        → IsArgumentOf (number_option name.entry.now least most number) result }
{
    given_option(alloc, name, value, least, most).default_value(default)
}

fn inbreeding<'a>(alloc: Global) -> Result<Command<'a>, AllocError>
    ensures { IfOk result (IsCommandOf inbreeding_line) }
{
    let workers = number_option(alloc, "workers", "N", 1, MOST_WORKERS, "1").help(
        "How many threads, from 1 to 16",
    );
    let block = number_option(alloc, "block", "N", 1, MOST_ANIMALS, "256").help(
        "Animals in a block, 1 to 16,000,000",
    );
    let bare = named(
        alloc,
        "inbreeding",
        "Writes the inbreeding coefficient of each animal, in age order",
        help::INBREEDING,
    );
    with_limits(
        alloc,
        with_argument(with_argument(Ok(bare), workers), block),
    )
}

fn certificate<'a>(alloc: Global) -> Result<Command<'a>, AllocError>
    ensures { IfOk result (IsCommandOf certificate_line) }
{
    let bare = named(
        alloc,
        "certificate",
        "Writes certificates of animals with their ancestors",
        help::CERTIFICATE,
    );
    let given = with_argument(
        Ok(bare),
        several_argument(alloc, "NUMBER", "The numbers of the animals"),
    );
    with_limits(alloc, given)
}

fn mating<'a>(alloc: Global) -> Result<Command<'a>, AllocError>
    ensures { IfOk result (IsCommandOf mating_line) }
{
    let bare = named(
        alloc,
        "mating",
        "Writes the coefficient that a calf would have by each sire",
        help::MATING,
    );
    let given = with_argument(
        with_argument(Ok(bare), dam_option(alloc)),
        several_argument(alloc, "SIRE", "The numbers of the sires"),
    );
    with_limits(alloc, given)
}

fn dam_option<'a>(alloc: Global) -> Arg<'a>
    ensures { IsArgumentOf dam_rule result }
{
    Arg::new(alloc, "dam")
        .long("dam")
        .value_name("NUMBER")
        .required(true)
        .help("The dam's number")
}

// An argument of at least one number: its name, and its help.
fn several_argument<'a>(alloc: Global, name: &'a str, help: &'a str) -> Arg<'a>
    ensures { IsArgumentOf (several_rule name.entry.now) result }
{
    any_argument(alloc, name, help).required(true)
}

// An argument of some numbers or none: its name, and its help.
fn any_argument<'a>(alloc: Global, name: &'a str, help: &'a str) -> Arg<'a>
    ensures { IsArgumentOf (any_rule name.entry.now) result }
{
    Arg::new(alloc, name)
        .action(ArgAction::Append)
        .num_args(1..)
        .help(help)
}

fn relationships<'a>(alloc: Global) -> Result<Command<'a>, AllocError>
    ensures { IfOk result (IsCommandOf relationships_line) }
{
    let bare = named(
        alloc,
        "relationships",
        "Writes the relationship of each two of some animals",
        help::RELATIONSHIPS,
    );
    let given = with_argument(
        with_argument(
            Ok(bare),
            several_argument(alloc, "NUMBER", "The numbers of the animals"),
        ),
        with_option(alloc, "NUMBER"),
    );
    with_limits(alloc, given)
}

// The option of partners: what help calls one of them.
fn with_option<'a>(alloc: Global, value: &'a str) -> Arg<'a>
    ensures { IsArgumentOf partners_rule result }
{
    Arg::new(alloc, "with")
        .long("with")
        .value_name(value)
        .action(ArgAction::Append)
        .num_args(1..)
        .help("Pairs each with these, not with one another")
}

fn records<'a>(alloc: Global) -> Result<Command<'a>, AllocError>
    ensures { IfOk result (IsCommandOf records_line) }
{
    let bare = named(
        alloc,
        "records",
        "Writes what the book keeps of some animals, or of all",
        help::RECORDS,
    );
    let given = with_argument(
        Ok(bare),
        any_argument(alloc, "NUMBER", "The numbers of the animals; all if none"),
    );
    with_limits(alloc, given)
}

fn seal<'a>(alloc: Global) -> Result<Command<'a>, AllocError>
    ensures { IfOk result (IsCommandOf seal_line) }
{
    let bare = named(alloc, "seal", "Writes the seal of the book", help::SEAL);
    with_limits(alloc, Ok(bare))
}

fn sealed<'a>(alloc: Global) -> Result<Command<'a>, AllocError>
    ensures { IfOk result (IsCommandOf sealed_line) }
{
    let bare = named(
        alloc,
        "sealed",
        "Writes a certificate that anyone can check who has the seal",
        help::SEALED,
    );
    let given = with_argument(Ok(bare), number_argument(alloc));
    with_limits(alloc, given)
}

fn number_argument<'a>(alloc: Global) -> Arg<'a>
    ensures { IsArgumentOf number_rule result }
{
    Arg::new(alloc, "NUMBER")
        .required(true)
        .help("The number of the animal")
}

fn check<'a>(alloc: Global) -> Result<Command<'a>, AllocError>
    ensures { IfOk result (IsCommandOf check_line) }
{
    let bare = named(
        alloc,
        "check",
        "Checks a certificate under a seal",
        help::CHECK,
    );
    with_argument(Ok(bare), seal_argument(alloc))
}

fn seal_argument<'a>(alloc: Global) -> Arg<'a>
    ensures { IsArgumentOf seal_rule result }
{
    Arg::new(alloc, "SEAL")
        .required(true)
        .help("The published seal: 64 hexadecimal digits")
}

fn pedigree<'a>(alloc: Global) -> Result<Command<'a>, AllocError>
    ensures { IfOk result (IsCommandOf pedigree_line) }
{
    let bare = named(
        alloc,
        "pedigree",
        "Writes a report of any pedigree, given by its animals' parents",
        help::PEDIGREE,
    );
    let animals = any_argument(alloc, "ANIMAL", "The numbers of the animals");
    let given = with_argument(with_argument(Ok(bare), report_argument(alloc)), animals);
    let pairs = with_argument(given, with_option(alloc, "ANIMAL"));
    let workers = given_option(alloc, "workers", "N", 1, MOST_WORKERS).help(
        "How many threads, from 1 to 16; 1 if none",
    );
    let block = given_option(alloc, "block", "N", 1, MOST_ANIMALS).help(
        "Animals in a block; 256 if none",
    );
    let plan = with_argument(with_argument(pairs, workers), block);
    with_argument(
        with_argument(plan, units_option(alloc)),
        animals_option(alloc),
    )
}

fn report_argument<'a>(alloc: Global) -> Arg<'a>
    ensures { IsArgumentOf report_rule result }
{
    Arg::new(alloc, "REPORT")
        .required(true)
        .help("inbreeding, inverse or relationships")
}

fn units_option<'a>(alloc: Global) -> Arg<'a>
    ensures { IsArgumentOf units_rule result }
{
    Arg::new(alloc, "units")
        .long("units")
        .action(ArgAction::SetTrue)
        .help("Whole numbers of units of 2^-120")
}

fn clerks<'a>(alloc: Global) -> Result<Command<'a>, AllocError>
    ensures { IfOk result (IsCommandOf clerks_line) }
{
    let desks = number_option(alloc, "desks", "K", 1, MOST_DESKS as u32, "2").help(
        "How many desks, from 1 to 16",
    );
    let base = number_option(alloc, "base", "M", 0, MOST_STEPS, "0").help(
        "Filed first at desk 1, 0 to 200,000,000",
    );
    let bare = named(
        alloc,
        "clerks",
        "Files the commands at several desks, each on a thread",
        help::CLERKS,
    );
    with_limits(alloc, with_argument(with_argument(Ok(bare), desks), base))
}

fn session<'a>(alloc: Global) -> Result<Command<'a>, AllocError>
    ensures { IfOk result (IsCommandOf session_line) }
{
    let desks = number_option(alloc, "desks", "K", 1, MOST_DESKS as u32, "4").help(
        "How many desks, from 1 to 16",
    );
    let inspectors = number_option(alloc, "inspectors", "I", 1, MOST_INSPECTORS as u32, "4").help(
        "How many inspectors, from 1 to 16",
    );
    let bare = named(
        alloc,
        "session",
        "Answers requests at desks and inspectors until the input ends",
        help::SESSION,
    );
    let staff = with_argument(with_argument(Ok(bare), desks), inspectors);
    with_limits(alloc, staff)
}

// A command with the options that limit the book and its journal.
fn with_limits<'a>(
    alloc: Global,
    command: Result<Command<'a>, AllocError>,
) -> Result<Command<'a>, AllocError>
    ensures { (line : App) → IfOk command.entry (IsCommandOf line)
        → IfOk result (IsCommandOf (limited line)) }
{
    let steps = number_option(alloc, "limit-steps", "N", 1, MOST_STEPS, "1000000").help(
        "The most steps, 1 to 200,000,000",
    );
    with_argument(with_argument(command, animals_option(alloc)), steps)
}

// The option that limits how many animals there may be.
fn animals_option<'a>(alloc: Global) -> Arg<'a>
    ensures { IsArgumentOf animals_rule result }
{
    number_option(alloc, "limit-animals", "N", 1, MOST_ANIMALS, "60000").help(
        "The most animals, 1 to 16,000,000",
    )
}
