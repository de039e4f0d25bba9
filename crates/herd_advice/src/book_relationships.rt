ghost use Rattle.std.specs.Prelude.{◌≡◌, ◌+◌, ◌*◌, ◌^◌, ◌<◌, length, IfOk, Some};
ghost use Rattle.herd_frozen.specs.declared.TheConstants.{DEPTH_LIMIT};
ghost use Rattle.herd_advice.specs.BookCoefficients.{KnowsBookAncestors};
ghost use Rattle.herd_advice.specs.FrozenAncestry.{ancestry_of, number_of_row};
ghost use Rattle.herd_kinship.specs.Table.{entry};

use herd_animal::AnimalNumber;
use herd_frozen::Frozen;
use herd_kinship::{Coefficients, Relationships as LineageRelationships};
use std::alloc::{AllocError, Allocator};
use std::marker::Model;

/// The relationships of one animal with all animals of a frozen book, by their ranks.
#[derive(Drop)]
pub struct Relationships<'a, F: Allocator, A: Allocator> {
    frozen: &'a Frozen<F>,
    rank: u32,
    column: LineageRelationships<'a, F, A>,
}

impl<'a, F: Allocator, A: Allocator> Model for Relationships<'a, F, A> {
    ghost use Rattle.std.specs.Prelude.{◌<◌, length};
    ghost use Rattle.herd_frozen.specs.declared.TheConstants.{DEPTH_LIMIT};
    ghost use Rattle.herd_advice.specs.BookRelationships.{IsInLineage, RankInBook};

    ghost Value = { RankInBook };

    ghost view = { λ r. record { rows = r.frozen.now; rank = r.rank } };

    ghost invariant = { λ r. (r.rank < length r.frozen.now)
        × IsInLineage DEPTH_LIMIT r.frozen.now r.rank r.column };
}

impl<'a, F: Allocator, A: Allocator + Clone> Relationships<'a, F, A> {
    /// The relationships of the animal at a rank, by one tracing and one pass over the book. Only the coefficients of
    /// the animal's ancestors need be right. The only error is a growth of memory that is refused.
    pub fn of<C: Allocator>(
        alloc: A,
        frozen: &'a Frozen<F>,
        coefficients: &Coefficients<C>,
        rank: u32,
    ) -> Result<Relationships<'a, F, A>, AllocError>
        requires rank { rank < length frozen.now }
        requires coefficients { KnowsBookAncestors DEPTH_LIMIT frozen.now coefficients.now rank }
        ensures { IfOk result (λ made. made ≡ record { rows = frozen.now; rank = rank }) }
    {
        let column = LineageRelationships::of(alloc, frozen.lineage(), coefficients, rank)?;
        Ok(Relationships {
            frozen,
            rank,
            column,
        })
    }
}

impl<'a, F: Allocator, A: Allocator> Relationships<'a, F, A> {
    /// The number of the animal whose relationships these are.
    pub fn number(&self) -> AnimalNumber
        ensures { result ≡ number_of_row self.now.rows self.now.rank }
    {
        self.frozen.number(self.rank)
    }

    /// The relationship with the animal at a rank, in units of 2^-120: the entry of the matrix, below 2 * `ONE`.
    pub fn with(&self, rank: u32) -> u128
        requires { rank < length self.now.rows }
        ensures value { result ≡ entry (ancestry_of self.now.rows) (2 * DEPTH_LIMIT)
            (Some (number_of_row self.now.rows self.now.rank)) (Some (number_of_row self.now.rows rank)) }
        ensures below_two { result < 2 ^ (2 * DEPTH_LIMIT + 1) }
    {
        self.column.with(rank)
    }
}
