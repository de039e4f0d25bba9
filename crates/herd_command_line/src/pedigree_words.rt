//! The words behind `pedigree`: how they are read, and which report they ask for.

ghost use Rattle.std.specs.Prelude.{◌≡◌, ◌++◌, IfErr, IfOk, OnOk, map};
ghost use Rattle.clap.specs.Words.{found_of, rows_of};
ghost use Rattle.herd_frozen.specs.declared.TheConstants.{MOST_ANIMALS};
ghost use Rattle.herd_pedigree_file.specs.Number.{rank_in};
ghost use Rattle.herd_command_line.specs.PedigreeWords.{IsPedigreeOrdered, IsPedigreePlanOf, IsPedigreeUnread};
ghost use Rattle.herd_command_line.specs.PedigreeWords.{asks_inbreeding, asks_inverse, asks_relationships, has_plan};
ghost use Rattle.herd_command_line.specs.PedigreeWords.{is_given};
ghost use Rattle.herd_command_line.specs.PedigreeWords.{names_animals, says};
ghost use Rattle.herd_command_line.specs.Words.{texts_of};

use crate::arguments::{WordsFault, option_or, work_plan_of};
use crate::limits::DEFAULT_ANIMALS;
use crate::plans::PedigreePlan;
use clap::ArgMatches;
use herd_frozen::MOST_ANIMALS;
use herd_pedigree_file::rank_in;
use herd_pedigree_report::PedigreeOrder;
use std::alloc::AllocError;

/// What the words ask of a pedigree. The lists are given for the animals that the order then lends; what they held is
/// let go.
pub(crate) fn pedigree_order_of<'a>(
    given: &ArgMatches<'_>,
    animals: &'a mut Vec<Option<u32>>,
    others: &'a mut Vec<Option<u32>>,
) -> Result<PedigreeOrder<'a>, WordsFault>
    ensures ordered { IfOk result (IsPedigreeOrdered (rows_of (found_of given.now))) }
    ensures unread { IfErr result (IsPedigreeUnread (rows_of (found_of given.now))) }
{
    let in_units = says(given, "units", "true");
    if asks_inbreeding(given) {
        let plan = work_plan_of(given);
        return Ok(PedigreeOrder::Inbreeding { plan, in_units });
    }
    if asks_inverse(given) {
        return Ok(PedigreeOrder::Inverse);
    }
    if !asks_relationships(given) {
        return Err(WordsFault::Misplaced);
    }
    read_animals(given, "ANIMAL", animals)?;
    read_animals(given, "with", others)?;
    Ok(PedigreeOrder::Relationships {
        animals: animals.as_slice(),
        others: others.as_slice(),
        in_units,
    })
}

/// How large the pedigree may be.
pub(crate) fn pedigree_plan_of(given: &ArgMatches<'_>) -> PedigreePlan
    ensures { IsPedigreePlanOf (rows_of (found_of given.now)) result }
{
    PedigreePlan {
        animals: option_or(given, "limit-animals", 1, MOST_ANIMALS, DEFAULT_ANIMALS),
    }
}

fn asks_inbreeding(given: &ArgMatches<'_>) -> bool
    ensures { result ≡ asks_inbreeding (rows_of (found_of given.now)) }
{
    says(given, "REPORT", "inbreeding") && !names_animals(given)
}

fn asks_inverse(given: &ArgMatches<'_>) -> bool
    ensures { result ≡ asks_inverse (rows_of (found_of given.now)) }
{
    says(given, "REPORT", "inverse")
        && !names_animals(given)
        && !has_plan(given)
        && !says(given, "units", "true")
}

fn asks_relationships(given: &ArgMatches<'_>) -> bool
    ensures { result ≡ asks_relationships (rows_of (found_of given.now)) }
{
    says(given, "REPORT", "relationships") && is_given(given, "ANIMAL") && !has_plan(given)
}

fn names_animals(given: &ArgMatches<'_>) -> bool
    ensures { result ≡ names_animals (rows_of (found_of given.now)) }
{
    is_given(given, "ANIMAL") || is_given(given, "with")
}

fn has_plan(given: &ArgMatches<'_>) -> bool
    ensures { result ≡ has_plan (rows_of (found_of given.now)) }
{
    is_given(given, "workers") || is_given(given, "block")
}

// Whether an argument has texts.
fn is_given(given: &ArgMatches<'_>, id: &str) -> bool
    ensures { result ≡ is_given id.now (rows_of (found_of given.now)) }
{
    !given.get_strs(id).unwrap_or(&[]).is_empty()
}

// Whether the text of an argument is this one.
fn says(given: &ArgMatches<'_>, id: &str, text: &str) -> bool
    ensures { result ≡ says id.now text.now (rows_of (found_of given.now)) }
{
    given.get_str(id).unwrap_or("") == text
}

// Reads the animals under an argument that takes several.
fn read_animals(
    given: &ArgMatches<'_>,
    id: &str,
    list: &mut Vec<Option<u32>>,
) -> Result<(), AllocError>
    ensures { OnOk result
        (list.new.items ≡ map (rank_in MOST_ANIMALS) (texts_of id.now (rows_of (found_of given.now)))) }
{
    list.clear();
    add_animals(given.get_strs(id).unwrap_or(&[]), list)
}

fn add_animals(texts: &[&str], list: &mut Vec<Option<u32>>) -> Result<(), AllocError>
    ensures { OnOk result
        (list.new.items ≡ list.old.items ++ map (rank_in MOST_ANIMALS) (map (λ text. text.now) texts.now)) }
{
    for text in texts {
        list.push(rank_in(text.as_bytes(), MOST_ANIMALS))?;
    }
    Ok(())
}
