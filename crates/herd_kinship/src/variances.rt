ghost use Rattle.std.specs.Prelude.{◌≡◌, ◌<◌, List, length, IfOk};
ghost use Rattle.herd_lineage.specs.declared.lineage.Parents.{Parents};
ghost use Rattle.herd_lineage.specs.declared.TheConstants.{DEPTH_LIMIT};
ghost use Rattle.herd_kinship.specs.Ranks.{ranked};
ghost use Rattle.herd_kinship.specs.Coefficients.{KnowsAncestors};
ghost use Rattle.herd_kinship.specs.Table.{mendelian as mendelian_variance};
ghost use Rattle.herd_kinship.specs.Variances.{AreVariances};

use crate::tracing::mendelian;
use herd_lineage::Lineage;
use std::alloc::{AllocError, Allocator};

/// The Mendelian sampling variances of a lineage's animals, each computed where it is first asked for, or where none
/// are kept each time.
#[derive(Drop)]
pub struct Variances<A: Allocator> {
    /// By rank, in units of 2^-120; 0, which is nobody's, where it wasn't asked for yet. Empty where none are kept.
    kept: Vec<u128, A>,
}

impl<A: Allocator + Clone> Variances<A> {
    /// Of nobody yet.
    pub fn of<F: Allocator>(alloc: A, lineage: &Lineage<F>) -> Result<Variances<A>, AllocError>
        ensures each { IfOk result (λ variances. length variances.kept.items ≡ length lineage.now) }
        ensures kept { IfOk result (λ variances. AreVariances DEPTH_LIMIT lineage.now variances.kept.items) }
    {
        let kept = vec![in alloc; 0u128; lineage.len() as usize]?;
        Ok(Variances { kept })
    }
}

impl<A: Allocator> Variances<A> {
    /// That are computed each time, for who asks once.
    pub fn unkept(alloc: A) -> Variances<A>
        ensures { (rows : List Parents) → AreVariances DEPTH_LIMIT rows result.kept.items }
    {
        Variances {
            kept: Vec::new(alloc),
        }
    }
}

impl<A: Allocator> Variances<A> {
    /// That of the animal at a rank, by the coefficients of its ancestors.
    pub fn at<F: Allocator>(&mut self, lineage: &Lineage<F>, known: &[u128], rank: u32) -> u128
        requires rank { rank < length lineage.now }
        requires kept { AreVariances DEPTH_LIMIT lineage.now self.old.kept.items }
        requires known { KnowsAncestors DEPTH_LIMIT lineage.now known.now rank }
        ensures kept { AreVariances DEPTH_LIMIT lineage.now self.new.kept.items }
        ensures value { result ≡ mendelian_variance (ranked lineage.now) DEPTH_LIMIT rank }
    {
        if rank as usize >= self.kept.len() {
            return mendelian(lineage, known, rank);
        }
        let kept = self.kept[rank as usize];
        if kept > 0 {
            return kept;
        }
        let variance = mendelian(lineage, known, rank);
        self.kept[rank as usize] = variance;
        variance
    }
}
