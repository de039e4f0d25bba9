//! Building a lineage animal by animal, from parents that nobody has looked at yet.
ghost use Rattle.std.specs.Prelude.{◌≡◌, ◌<◌, ◌++◌, ◌∷◌, [], None, Some, length, unwrap_or, IfErr, IfOk, IfSome, OnErr};
ghost use Rattle.std.specs.Prelude.{OnOk};
ghost use Rattle.std.specs.Option.{option_map};
ghost use Rattle.herd_lineage.specs.Builder.{first_fault, is_earlier, offspring};
ghost use Rattle.herd_lineage.specs.Lineage.{IsLineage, IsNextOf, depth_at};
ghost use Rattle.herd_lineage.specs.declared.TheConstants.{DEPTH_LIMIT, MOST_ANIMALS};
ghost use Rattle.herd_lineage.specs.declared.lineage_fault.LineageFault.{LineageFault};

use crate::depth::depth_of_calf;
use crate::lineage::{Lineage, Parents};
use crate::lineage_fault::LineageFault;
use crate::{DEPTH_LIMIT, MOST_ANIMALS};
use std::alloc::{AllocError, Allocator};
use std::marker::Model;

/// A lineage to which animals are added, each after its parents.
#[derive(Drop)]
pub struct LineageBuilder<A: Allocator> {
    lineage: Lineage<A>,
}

impl<A: Allocator> Model for LineageBuilder<A> {
    ghost use Rattle.std.specs.Prelude.{List};
    ghost use Rattle.herd_lineage.specs.declared.lineage.Parents.{Parents};

    ghost Value = { List Parents };

    ghost view = { λ builder. builder.lineage };
}

impl<A: Allocator + Clone> Lineage<A> {
    /// No animals yet. The only error is memory that is refused.
    pub fn builder(alloc: A) -> Result<LineageBuilder<A>, AllocError>
        ensures { IfOk result (λ made. made ≡ []) }
    {
        Ok(LineageBuilder {
            lineage: Lineage::with_capacity(alloc, 0)?,
        })
    }
}

impl<A: Allocator> LineageBuilder<A> {
    /// How many animals there are.
    pub fn len(&self) -> u32
        ensures value { result ≡ length self.now }
        ensures lineage { IsLineage DEPTH_LIMIT MOST_ANIMALS self.now }
    {
        self.lineage.len()
    }

    /// Adds an animal by the ranks of its known parents: the first animal's rank is 0. Both may be the same animal.
    pub fn push(&mut self, sire: Option<u32>, dam: Option<u32>) -> Result<(), LineageFault>
        ensures faultless { OnOk result (first_fault DEPTH_LIMIT MOST_ANIMALS self.old sire dam ≡ None) }
        ensures added { OnOk result (self.new ≡ self.old ++ offspring self.old sire dam ∷ []) }
        ensures fault { IfErr result (λ fault. fault
            ≡ unwrap_or (first_fault DEPTH_LIMIT MOST_ANIMALS self.old sire dam) LineageFault.Memory) }
        ensures unchanged { OnErr result (self.new ≡ self.old) }
    {
        let depth = self.depth_of_next(sire, dam)?;
        self.lineage.push_known(Parents { sire, dam, depth })?;
        Ok(())
    }

    /// The lineage.
    pub fn build(self) -> Lineage<A>
        ensures { result ≡ self }
    {
        self.lineage
    }

    // The depth of the next animal, or its first fault but for memory.
    #[tactic(auto, using(crate::proofs::lemmas::DepthFacts::from_read), unfolding(crate::specs::Builder::first_fault))]
    fn depth_of_next(&self, sire: Option<u32>, dam: Option<u32>) -> Result<u8, LineageFault>
        ensures faultless { OnOk result (first_fault DEPTH_LIMIT MOST_ANIMALS self.now sire dam ≡ None) }
        ensures next { IfOk result (λ depth. IsNextOf DEPTH_LIMIT MOST_ANIMALS self.now
            (record { sire = sire; dam = dam; depth = depth })) }
        ensures fault { IfErr result (λ fault. first_fault DEPTH_LIMIT MOST_ANIMALS self.now sire dam ≡ Some fault) }
    {
        let animals = self.lineage.len();
        if animals == MOST_ANIMALS {
            return Err(LineageFault::Full);
        }
        if !is_earlier(sire, animals) {
            return Err(LineageFault::Sire);
        }
        if !is_earlier(dam, animals) {
            return Err(LineageFault::Dam);
        }
        let depth = depth_of_calf(self.depth_of(sire), self.depth_of(dam));
        if depth > u16::from(DEPTH_LIMIT) {
            return Err(LineageFault::TooDeep);
        }
        Ok(depth as u8)
    }

    // The depth of a parent that is known.
    fn depth_of(&self, parent: Option<u32>) -> Option<u8>
        requires { IfSome parent (λ rank. rank < length self.now) }
        ensures { result ≡ option_map (depth_at self.now) parent }
    {
        let rank = parent?;
        Some(self.lineage.depth(rank))
    }
}

// Whether a parent that is known is one of so many animals.
fn is_earlier(parent: Option<u32>, animals: u32) -> bool
    ensures { result ≡ is_earlier animals parent }
{
    match parent {
        Some(rank) => rank < animals,
        None => true,
    }
}
