ghost use Rattle.std.specs.Prelude.{◌≡◌, ◌*◌, ◌-◌, ◌^◌, ◌<◌, false, IfOk, IfErr, IfSome, IfNone, MatchResult, Some};
ghost use Rattle.std.specs.Prelude.{None, ◌∷◌, []};
ghost use Rattle.herd_animal.specs.Sex.{is_male as is_male_number};
ghost use Rattle.herd_frozen.specs.declared.TheConstants.{DEPTH_LIMIT};
ghost use Rattle.herd_frozen.specs.freezing.Frozen.{book_of};
ghost use Rattle.herd_frozen.specs.rules.Book.{is_there};
ghost use Rattle.herd_advice.specs.BookCoefficients.{AreBookCoefficientsOf};
ghost use Rattle.herd_advice.specs.FrozenAncestry.{ancestry_of};
ghost use Rattle.herd_advice.specs.Mating.{IsCandidate, candidates_fault, mating_fault, number_of_mating_fault};
ghost use Rattle.herd_kinship.specs.Table.{entry};

use crate::book_relationships::Relationships;
use herd_animal::{AnimalNumber, Sex};
use herd_frozen::{DEPTH_LIMIT, Frozen};
use herd_kinship::Coefficients;
use std::alloc::{AllocError, Allocator};
use thiserror::Error;

/// Why a mating gets no coefficient. The first that holds, in the order of the variants, is told: so `Memory` only of
/// a mating that is allowed.
#[derive(Clone, Copy, Debug, PartialEq, Eq, Error)]
pub enum MatingFault {
    #[error("the sire isn't in the book")]
    SireMissing,
    #[error("the dam isn't in the book")]
    DamMissing,
    /// By the sex letter of its number.
    #[error("the sire isn't male")]
    SireNotMale,
    /// By the sex letter of its number.
    #[error("the dam isn't female")]
    DamNotFemale,
    /// The sire or the dam has a path of `DEPTH_LIMIT` parent steps.
    #[error("a calf would be too deep")]
    TooDeep,
    /// Only `mating` tells it.
    #[error("no memory")]
    Memory,
}

impl MatingFault {
    /// Its number in the order of the variants, from 1 on. Advice prints all but that of `Memory`.
    pub fn number(self) -> u8
        ensures { result ≡ number_of_mating_fault self }
    {
        match self {
            MatingFault::SireMissing => 1,
            MatingFault::DamMissing => 2,
            MatingFault::SireNotMale => 3,
            MatingFault::DamNotFemale => 4,
            MatingFault::TooDeep => 5,
            MatingFault::Memory => 6,
        }
    }
}

// Whether an animal is male, by the sex letter of its number.
fn is_male(number: &AnimalNumber) -> bool
    ensures { result ≡ is_male_number number.now }
{
    match number.sex() {
        Sex::Male => true,
        Sex::Female => false,
    }
}

/// An animal of a frozen book as one that is asked about as a parent.
#[derive(Clone, Copy)]
pub struct Candidate {
    pub rank: u32,
    /// By the sex letter of its number.
    pub male: bool,
    /// It has a path of `DEPTH_LIMIT` parent steps, so that a calf of it would be too deep.
    pub deepest: bool,
}

impl Candidate {
    /// As the book has the animal of a number, if it is there.
    pub fn of<F: Allocator>(frozen: &Frozen<F>, number: &AnimalNumber) -> Option<Candidate>
        ensures there { IfSome result (IsCandidate DEPTH_LIMIT frozen.now number.now) }
        ensures absent { IfNone result (is_there (book_of frozen.now) number.now ≡ false) }
    {
        let rank = frozen.rank(number)?;
        Some(Candidate {
            rank,
            male: is_male(number),
            deepest: frozen.parents(rank).depth >= DEPTH_LIMIT,
        })
    }
}

/// Nothing where two animals of a book can be mated, else the first fault.
pub fn check(sire: Candidate, dam: Candidate) -> Result<(), MatingFault>
    ensures { MatchResult result
        (λ _. candidates_fault sire dam ≡ None) (λ fault. candidates_fault sire dam ≡ Some fault) }
{
    if !sire.male {
        return Err(MatingFault::SireNotMale);
    }
    if dam.male {
        return Err(MatingFault::DamNotFemale);
    }
    if sire.deepest || dam.deepest {
        return Err(MatingFault::TooDeep);
    }
    Ok(())
}

/// The coefficient that a calf of the two would have, in units of 2^-120: half their relationship, below `ONE`.
///
/// It traces the dam's ancestors once, by their coefficients. Ages and exits aren't asked; a calf is too deep where one
/// of the two has a path of 60 steps. `Memory` is told where a growth of memory is refused.
pub fn mating<F: Allocator, C: Allocator, A: Allocator + Clone>(
    alloc: A,
    frozen: &Frozen<F>,
    coefficients: &Coefficients<C>,
    sire: &AnimalNumber,
    dam: &AnimalNumber,
) -> Result<u128, MatingFault>
    requires { AreBookCoefficientsOf DEPTH_LIMIT frozen.now (dam.now ∷ []) coefficients.now }
    ensures value { IfOk result
        (λ value. value ≡ entry (ancestry_of frozen.now) (2 * DEPTH_LIMIT - 1) (Some sire.now) (Some dam.now)) }
    ensures below_one { IfOk result (λ value. value < 2 ^ (2 * DEPTH_LIMIT)) }
    ensures refused { IfSome (mating_fault DEPTH_LIMIT (book_of frozen.now) sire.now dam.now)
        (λ fault. result ≡ Err fault) }
    ensures memory { IfErr result
        (λ fault. mating_fault DEPTH_LIMIT (book_of frozen.now) sire.now dam.now ≡ None → fault ≡ MatingFault.Memory) }
{
    let Some(sire) = Candidate::of(frozen, sire) else {
        return Err(MatingFault::SireMissing);
    };
    let Some(dam) = Candidate::of(frozen, dam) else {
        return Err(MatingFault::DamMissing);
    };
    check(sire, dam)?;
    match Relationships::of(alloc, frozen, coefficients, dam.rank) {
        Ok(dams) => Ok(dams.with(sire.rank) / 2),
        Err(AllocError) => Err(MatingFault::Memory),
    }
}
