ghost use Rattle.std.specs.Prelude.{◌≡◌, ◌<◌, ◌∷◌, ◌++◌, [], All, Some, false, true, IfErr, IfOk, OnErr, OnOk};
ghost use Rattle.herd_pedigree_report.specs.Named.{EndsNaming, all_there, is_there, ranks_of};
ghost use Rattle.herd_pedigree_report.specs.declared.pedigree_report_fault.PedigreeReportFault.TheVariants as faults;

use crate::pedigree_report_fault::PedigreeReportFault;
use std::alloc::{AllocError, Allocator};

/// The ranks of the animals that an order names, if each is one of the first so many.
pub(crate) fn ranks_of<A: Allocator>(
    alloc: A,
    named: &[Option<u32>],
    animals: u32,
) -> Result<Vec<u32, A>, PedigreeReportFault>
    ensures ranks { IfOk result (λ ranks. ranks.items ≡ ranks_of named.now) }
    ensures there { IfOk result (λ ranks. all_there animals named.now ≡ true) }
    ensures within { IfOk result (λ ranks. All (λ rank. rank < animals) ranks.items) }
    ensures fault { IfErr result (EndsNaming animals named.now) }
{
    let mut ranks = Vec::new(alloc);
    for animal in named {
        let rank = rank_of(*animal, animals)?;
        add_rank(&mut ranks, rank)?;
    }
    Ok(ranks)
}

fn add_rank<A: Allocator>(ranks: &mut Vec<u32, A>, rank: u32) -> Result<(), AllocError>
    ensures { OnOk result (ranks.new.items ≡ ranks.old.items ++ rank ∷ []) }
{
    ranks.push(rank)?;
    Ok(())
}

// The rank of an animal that an order names.
fn rank_of(animal: Option<u32>, animals: u32) -> Result<u32, PedigreeReportFault>
    ensures rank { IfOk result (λ rank. (animal ≡ Some rank) × (rank < animals)) }
    ensures absent { OnErr result (is_there animals animal ≡ false) }
    ensures fault { IfErr result (λ fault. fault ≡ faults.NotRegistered) }
{
    match animal {
        Some(rank) if rank < animals => Ok(rank),
        _ => Err(PedigreeReportFault::NotRegistered),
    }
}
