//! What a command asks of the pedigree, and what it changes in it.
ghost use Rattle.std.specs.Prelude.{◌≡◌, IfNone, IfOk, IsSome, OnOk, OnErr};
ghost use Rattle.herd_frozen.specs.rules.Book.{changed, with_left, with_owner, with_parents};
ghost use Rattle.herd_frozen.specs.rules.ParentFault.{first_that_holds};
ghost use Rattle.herd_pedigree.specs.Pedigree.{IsFound, birth_record, changed_to};
ghost use Rattle.herd_register.specs.Run.{answer, birth_refusals, correction_refusals, exit_refusals, next};
ghost use Rattle.herd_register.specs.Run.{transfer_refusals, with_record};

use crate::command::{Command, newborn};
use crate::limits::Limits;
use crate::reply::{Refusal, Reply};
use herd_animal::{AnimalNumber, Day, Herd};
use herd_pedigree::{Found, Newborn, Pedigree, Registration};
use std::alloc::{AllocError, Allocator};

impl Command {
    /// Answers the command, and sets the record of its animal where nothing refuses it.
    // Not inlined: a command that is lent stays where it is, and isn't moved in pieces.
    #[inline(never)]
    pub(crate) fn carry_out<A: Allocator + Copy>(
        &self,
        limits: Limits,
        pedigree: &mut Pedigree<A>,
    ) -> Result<Reply, AllocError>
        ensures reply { IfOk result (λ reply. reply ≡ answer limits pedigree.old.book self.now) }
        ensures book { OnOk result (pedigree.new.book ≡ next limits pedigree.old.book self.now) }
        ensures before { result ≡ Ok Reply.Accepted → pedigree.new.before ≡ Some pedigree.old.book }
        ensures err { OnErr result (pedigree.new ≡ pedigree.old) }
    {
        let refusal = match *self {
            Command::Birth {
                animal,
                day,
                sire,
                dam,
                herd,
                embryo,
            } => file_birth(
                limits,
                pedigree,
                animal,
                newborn(day, sire, dam, herd, embryo),
            )?,
            Command::Parents { animal, sire, dam } => correct(pedigree, animal, sire, dam)?,
            Command::Transfer {
                animal,
                day,
                giver,
                taker,
            } => transfer(pedigree, animal, day, giver, taker),
            Command::Exit { animal, day } => leave(pedigree, animal, day),
        };
        match refusal {
            None => Ok(Reply::Accepted),
            Some(refusal) => Ok(Reply::Refused(refusal)),
        }
    }
}

// Adds the record of a birth, unless it is refused.
fn file_birth<A: Allocator + Copy>(
    limits: Limits,
    pedigree: &mut Pedigree<A>,
    number: AnimalNumber,
    newborn: Newborn,
) -> Result<Option<Refusal>, AllocError>
    ensures refusal { IfOk result (λ refusal. refusal ≡ first_that_holds
        (birth_refusals limits pedigree.old.book number newborn.birth newborn.sire newborn.dam newborn.embryo)) }
    ensures set { result ≡ Ok None
        → pedigree.new ≡ changed_to pedigree.old (with_record pedigree.old.book number (birth_record newborn)) }
    ensures refused { IfOk result (λ refusal. IsSome refusal → pedigree.new ≡ pedigree.old) }
    ensures err { OnErr result (pedigree.new ≡ pedigree.old) }
{
    if pedigree.len() >= limits.animals {
        return match pedigree.get(&number) {
            Some(_) => Ok(Some(Refusal::AlreadyThere)),
            None => Ok(Some(Refusal::BookFull)),
        };
    }
    match pedigree.add_if_new(number, newborn)? {
        Registration::Added => Ok(None),
        Registration::AlreadyThere => Ok(Some(Refusal::AlreadyThere)),
        Registration::Unsound(fault) => Ok(Some(Refusal::from(fault))),
    }
}

// Sets both parents, unless it is refused.
#[tactic(auto, using(crate::proofs::FaultFacts::first_of_parent_refusals))]
fn correct<A: Allocator + Copy>(
    pedigree: &mut Pedigree<A>,
    animal: AnimalNumber,
    sire: Option<AnimalNumber>,
    dam: Option<AnimalNumber>,
) -> Result<Option<Refusal>, AllocError>
    ensures refusal { IfOk result
        (λ refusal. refusal ≡ first_that_holds (correction_refusals pedigree.old.book animal sire dam)) }
    ensures set { result ≡ Ok None
        → pedigree.new ≡ changed_to pedigree.old (changed pedigree.old.book animal (with_parents sire dam)) }
    ensures refused { IfOk result (λ refusal. IsSome refusal → pedigree.new ≡ pedigree.old) }
    ensures err { OnErr result (pedigree.new ≡ pedigree.old) }
{
    let Some(found) = pedigree.find(&animal) else {
        return Ok(Some(Refusal::NotRegistered));
    };
    let fault = pedigree.set_parents_at_if_sound(&found, sire, dam)?;
    Ok(fault.map(Refusal::from))
}

// Sets the owner, unless it is refused.
#[tactic(auto, using(crate::proofs::FaultFacts::no_transfer_fault))]
fn transfer<A: Allocator>(
    pedigree: &mut Pedigree<A>,
    animal: AnimalNumber,
    day: Day,
    giver: Herd,
    taker: Herd,
) -> Option<Refusal>
    ensures refusal { result ≡ first_that_holds (transfer_refusals pedigree.old.book animal day giver taker) }
    ensures set { IfNone result
        (pedigree.new ≡ changed_to pedigree.old (changed pedigree.old.book animal (with_owner taker day))) }
    ensures refused { IsSome result → pedigree.new ≡ pedigree.old }
{
    let Some(found) = pedigree.find(&animal) else {
        return Some(Refusal::NotRegistered);
    };
    let refusal = transfer_refusal(pedigree, &found, day, giver, taker);
    if refusal.is_none() {
        pedigree.set_owner_at(&found, taker, day);
    }
    refusal
}

// Sets the day on which the animal left, unless it is refused.
#[tactic(auto, using(crate::proofs::FaultFacts::no_exit_fault))]
fn leave<A: Allocator>(
    pedigree: &mut Pedigree<A>,
    animal: AnimalNumber,
    day: Day,
) -> Option<Refusal>
    ensures refusal { result ≡ first_that_holds (exit_refusals pedigree.old.book animal day) }
    ensures set { IfNone result
        (pedigree.new ≡ changed_to pedigree.old (changed pedigree.old.book animal (with_left day))) }
    ensures refused { IsSome result → pedigree.new ≡ pedigree.old }
{
    let Some(found) = pedigree.find(&animal) else {
        return Some(Refusal::NotRegistered);
    };
    let refusal = exit_refusal(pedigree, &found, day);
    if refusal.is_none() {
        pedigree.set_left_at(&found, day);
    }
    refusal
}

fn transfer_refusal<A: Allocator>(
    pedigree: &Pedigree<A>,
    found: &Found,
    day: Day,
    giver: Herd,
    taker: Herd,
) -> Option<Refusal>
    requires { IsFound pedigree.now.book found.now }
    ensures { result
        ≡ first_that_holds (transfer_refusals pedigree.now.book found.now.number day giver taker) }
{
    let here = pedigree.animal_at(found);
    if here.left.is_some() {
        Some(Refusal::Gone)
    } else if here.herd != giver {
        Some(Refusal::NotOwner)
    } else if giver == taker {
        Some(Refusal::SameHerd)
    } else if day < here.since {
        Some(Refusal::DayTooEarly)
    } else {
        None
    }
}

fn exit_refusal<A: Allocator>(pedigree: &Pedigree<A>, found: &Found, day: Day) -> Option<Refusal>
    requires { IsFound pedigree.now.book found.now }
    ensures { result ≡ first_that_holds (exit_refusals pedigree.now.book found.now.number day) }
{
    let here = pedigree.animal_at(found);
    if here.left.is_some() {
        Some(Refusal::Gone)
    } else if day < here.since {
        Some(Refusal::DayTooEarly)
    } else if pedigree.calved_after_at(found, day) {
        Some(Refusal::CalvedLater)
    } else {
        None
    }
}
