ghost use Rattle.std.specs.Prelude.{◌≡◌, ◌*◌, ◌-◌, ◌^◌, ◌<◌, ◌∷◌, [], false, IfOk, IfErr, IsOk, Some, None};
ghost use Rattle.herd_frozen.specs.declared.TheConstants.{DEPTH_LIMIT};
ghost use Rattle.herd_frozen.specs.freezing.Frozen.{book_of};
ghost use Rattle.herd_frozen.specs.rules.Book.{is_there};
ghost use Rattle.herd_advice.specs.BookCoefficients.{AreBookCoefficientsOf};
ghost use Rattle.herd_advice.specs.FrozenAncestry.{book_ancestry};
ghost use Rattle.herd_advice.specs.Mating.{mating_fault};
ghost use Rattle.herd_kinship.specs.Table.{entry};

use crate::book_relationships::Relationships;
use crate::mating_advice::{Candidate, MatingFault, check};
use herd_animal::AnimalNumber;
use herd_frozen::Frozen;
use herd_kinship::Coefficients;
use std::alloc::{AllocError, Allocator};
use std::marker::Model;

/// The matings of one dam with the sires of a frozen book.
///
/// The dam is looked up and its ancestors are traced once, for all sires.
#[derive(Drop)]
pub struct DamMatings<'a, F: Allocator, A: Allocator> {
    frozen: &'a Frozen<F>,
    number: AnimalNumber,
    // `None` where the dam isn't in the book.
    dam: Option<Dam<'a, F, A>>,
}

/// A dam as a book has it, and its relationships with all.
#[derive(Drop)]
pub(crate) struct Dam<'a, F: Allocator, A: Allocator> {
    candidate: Candidate,
    relationships: Relationships<'a, F, A>,
}

impl<'a, F: Allocator, A: Allocator> Model for DamMatings<'a, F, A> {
    ghost use Rattle.std.specs.Prelude.{◌≡◌, false};
    ghost use Rattle.std.specs.Option.{MatchOption};
    ghost use Rattle.herd_frozen.specs.declared.TheConstants.{DEPTH_LIMIT};
    ghost use Rattle.herd_frozen.specs.freezing.Frozen.{book_of};
    ghost use Rattle.herd_frozen.specs.rules.Book.{is_there};
    ghost use Rattle.herd_advice.specs.Mating.{DamAndBook, IsDam};

    ghost Value = { DamAndBook };

    ghost view = { λ m. record { book = book_of m.frozen.now; dam = m.number } };

    ghost invariant = { λ m. MatchOption m.dam (is_there (book_of m.frozen.now) m.number ≡ false)
        (IsDam DEPTH_LIMIT m.frozen.now m.number) };
}

impl<'a, F: Allocator, A: Allocator + Clone> DamMatings<'a, F, A> {
    /// By the coefficients of the dam and of its ancestors. The only error is a growth of memory that is refused; none
    /// is taken where the dam isn't in the book.
    pub fn of<C: Allocator>(
        alloc: A,
        frozen: &'a Frozen<F>,
        coefficients: &Coefficients<C>,
        number: AnimalNumber,
    ) -> Result<DamMatings<'a, F, A>, AllocError>
        requires { AreBookCoefficientsOf DEPTH_LIMIT frozen.now (number ∷ []) coefficients.now }
        ensures book { IfOk result (λ matings. matings.book ≡ book_of frozen.now) }
        ensures dam { IfOk result (λ matings. matings.dam ≡ number) }
        ensures absent { is_there (book_of frozen.now) number ≡ false → IsOk result }
    {
        let Some(candidate) = Candidate::of(frozen, &number) else {
            return Ok(DamMatings {
                frozen,
                number,
                dam: None,
            });
        };
        let relationships = Relationships::of(alloc, frozen, coefficients, candidate.rank)?;
        Ok(DamMatings {
            frozen,
            number,
            dam: Some(Dam {
                candidate,
                relationships,
            }),
        })
    }
}

impl<'a, F: Allocator, A: Allocator> DamMatings<'a, F, A> {
    /// The coefficient that a calf of the sire and the dam would have, in units of 2^-120: half their relationship,
    /// below `ONE`. It traces nobody and takes no memory, so that `Memory` isn't told.
    pub fn with(&self, sire: &AnimalNumber) -> Result<u128, MatingFault>
        ensures value { IfOk result
            (λ value. value
            ≡ entry (book_ancestry self.now.book) (2 * DEPTH_LIMIT - 1) (Some sire.now) (Some self.now.dam)) }
        ensures below_one { IfOk result (λ value. value < 2 ^ (2 * DEPTH_LIMIT)) }
        ensures allowed { IfOk result (λ _. mating_fault DEPTH_LIMIT self.now.book sire.now self.now.dam ≡ None) }
        ensures refused { IfErr result
            (λ fault. mating_fault DEPTH_LIMIT self.now.book sire.now self.now.dam ≡ Some fault) }
    {
        let Some(sire) = Candidate::of(self.frozen, sire) else {
            return Err(MatingFault::SireMissing);
        };
        let Some(dam) = &self.dam else {
            return Err(MatingFault::DamMissing);
        };
        check(sire, dam.candidate)?;
        Ok(dam.relationships.with(sire.rank) / 2)
    }
}
