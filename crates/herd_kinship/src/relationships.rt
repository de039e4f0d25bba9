ghost use Rattle.std.specs.Prelude.{◌≡◌, ◌+◌, ◌*◌, ◌^◌, ◌<◌, length, IfOk, Some};
ghost use Rattle.herd_lineage.specs.declared.TheConstants.{DEPTH_LIMIT};
ghost use Rattle.herd_kinship.specs.Coefficients.{KnowsAncestors};
ghost use Rattle.herd_kinship.specs.Ranks.{ranked};
ghost use Rattle.herd_kinship.specs.Table.{entry};

use crate::coefficients::Coefficients;
use crate::columns::{pass_to, write_parts};
use crate::tracing::Tracing;
use crate::variances::Variances;
use herd_lineage::Lineage;
use std::alloc::{AllocError, Allocator};
use std::marker::Model;

/// The relationships of one animal with all animals of a lineage, by their ranks: a column of the numerator
/// relationship matrix.
#[derive(Drop)]
pub struct Relationships<'a, F: Allocator, A: Allocator> {
    lineage: &'a Lineage<F>,
    rank: u32,
    column: Vec<u128, A>,
}

impl<'a, F: Allocator, A: Allocator> Model for Relationships<'a, F, A> {
    ghost use Rattle.std.specs.Prelude.{◌<◌, length};
    ghost use Rattle.herd_lineage.specs.declared.TheConstants.{DEPTH_LIMIT};
    ghost use Rattle.herd_kinship.specs.Columns.{AreRelationships, RankInLineage};

    ghost Value = { RankInLineage };

    ghost view = { λ r. record { rows = r.lineage.now; rank = r.rank } };

    ghost invariant = { λ r. (r.rank < length r.lineage.now)
        × AreRelationships DEPTH_LIMIT r.lineage.now r.rank r.column.items };
}

impl<'a, F: Allocator, A: Allocator + Clone> Relationships<'a, F, A> {
    /// The relationships of the animal at a rank, by one tracing and one pass over the lineage from the oldest on
    /// (Colleau 2002). Only the coefficients of the animal's ancestors need be right. The only error is a growth of
    /// memory that is refused.
    pub fn of<C: Allocator>(
        alloc: A,
        lineage: &'a Lineage<F>,
        coefficients: &Coefficients<C>,
        rank: u32,
    ) -> Result<Relationships<'a, F, A>, AllocError>
        requires rank { rank < length lineage.now }
        requires coefficients { KnowsAncestors DEPTH_LIMIT lineage.now coefficients.now rank }
        ensures { IfOk result (λ made. made ≡ record { rows = lineage.now; rank = rank }) }
    {
        let mut column = vec![in alloc.clone()?; 0u128; lineage.len() as usize]?;
        let mut tracing = Tracing::with_room(alloc.clone()?, lineage.len())?;
        let mut variances = Variances::unkept(alloc);
        write_parts(
            &mut tracing,
            &mut variances,
            lineage,
            coefficients.list(),
            rank,
            &mut column,
        );
        for j in 0..lineage.len() {
            pass_to(&mut column, lineage.parents(j), j);
        }
        Ok(Relationships {
            lineage,
            rank,
            column,
        })
    }
}

impl<'a, F: Allocator, A: Allocator> Relationships<'a, F, A> {
    /// The rank of the animal whose relationships these are.
    pub fn rank(&self) -> u32
        ensures { result ≡ self.now.rank }
    {
        self.rank
    }

    /// The relationship with the animal at a rank, in units of 2^-120: the entry of the matrix, below 2 * `ONE`.
    pub fn with(&self, rank: u32) -> u128
        requires { rank < length self.now.rows }
        ensures value { result
            ≡ entry (ranked self.now.rows) (2 * DEPTH_LIMIT) (Some self.now.rank) (Some rank) }
        ensures below_two { result < 2 ^ (2 * DEPTH_LIMIT + 1) }
    {
        self.column[rank as usize]
    }
}
