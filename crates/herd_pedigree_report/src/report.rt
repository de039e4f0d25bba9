//! Carrying out an order of a pedigree.
ghost use Rattle.std.specs.Prelude.{◌≡◌, ◌<◌, ◌≤◌, IfErr, IfOk, IfSome, OnOk};
ghost use Rattle.herd_lineage.specs.declared.TheConstants.{DEPTH_LIMIT, MOST_ANIMALS};
ghost use Rattle.herd_kinship.specs.Coefficients.{AreCoefficients};
ghost use Rattle.herd_pedigree_report.specs.PedigreeReport.{CanEndBy, EndsBy, EndsReporting, IsAnswered, IsReported};
ghost use Rattle.herd_pedigree_report.specs.declared.pedigree_order.PedigreeOrder.TheVariants.{Relationships};
ghost use Rattle.herd_pool.specs.declared.pool_fault.PoolFault.{PoolFault};

use crate::inbreeding_list::write_inbreeding;
use crate::inverse_list::write_inverse;
use crate::named::ranks_of;
use crate::pedigree_order::PedigreeOrder;
use crate::pedigree_report_fault::PedigreeReportFault;
use crate::relationship_list::write_relationships;
use herd_kinship::{Coefficients, coefficients_plain};
use herd_lineage::Lineage;
use herd_pedigree_file::read_lineage;
use herd_pool::{PoolFault, WorkPlan, coefficients_by_sires};
use std::alloc::Global;
use std::io::{Read, Write};
use std::sync::Wait;
use std::thread::Threads;

/// Reads a pedigree file of at most so many animals, and writes what is ordered of its lineage.
///
/// The faults come in this order: those of the file; an animal that isn't there; `NoThread` or `Memory` while
/// coefficients are computed; `Memory` or `Write` while the text is written. Before the text nothing is written.
pub fn answer_pedigree<H: Threads + Wait + Sync, R: Read + Drop, W: Write>(
    rt: &H,
    alloc: Global,
    most: u32,
    order: &PedigreeOrder<'_>,
    reader: R,
    writer: &mut W,
) -> Result<(), PedigreeReportFault>
    requires { most ≤ MOST_ANIMALS }
    ensures ok { OnOk result (IfSome (R.remaining reader)
        (λ bytes. IsAnswered most order.now bytes (W.contents writer.old) (W.contents writer.new))) }
    ensures err { IfErr result (λ fault. IfSome (R.remaining reader)
        (λ bytes. EndsBy most order.now bytes (W.contents writer.old) (W.contents writer.new) fault)) }
    ensures fault { IfErr result (CanEndBy order.now) }
{
    let lineage = read_lineage(alloc, reader, most)?;
    write_report(rt, alloc, &lineage, order, writer)
}

/// Writes what is ordered of a lineage.
pub fn write_report<H: Threads + Wait + Sync, W: Write>(
    rt: &H,
    alloc: Global,
    lineage: &Lineage<Global>,
    order: &PedigreeOrder<'_>,
    writer: &mut W,
) -> Result<(), PedigreeReportFault>
    ensures ok { OnOk result (IsReported order.now lineage.now (W.contents writer.old) (W.contents writer.new)) }
    ensures err { IfErr result
        (EndsReporting order.now lineage.now (W.contents writer.old) (W.contents writer.new)) }
{
    match *order {
        PedigreeOrder::Inbreeding { plan, in_units } => {
            let coefficients = shared_coefficients(rt, alloc, lineage, plan)?;
            Ok(write_inbreeding(alloc, lineage, &coefficients, in_units, writer)?)
        }
        PedigreeOrder::Inverse => {
            let coefficients = coefficients_plain(alloc, lineage)?;
            Ok(write_inverse(alloc, lineage, &coefficients, writer)?)
        }
        PedigreeOrder::Relationships {
            animals,
            others,
            in_units,
        } => relate(alloc, lineage, animals, others, in_units, writer),
    }
}

// The coefficients of a lineage's animals, sire by sire. One worker computes them without a pool.
fn shared_coefficients<H: Threads + Wait + Sync>(
    rt: &H,
    alloc: Global,
    lineage: &Lineage<Global>,
    plan: WorkPlan,
) -> Result<Coefficients<Global>, PoolFault>
    ensures list { IfOk result (AreCoefficients DEPTH_LIMIT lineage.now) }
    ensures fault { IfErr result (λ fault. fault ≡ PoolFault.NoThread → 1 < plan.workers) }
{
    if plan.workers == 1 {
        Ok(coefficients_plain(alloc, lineage)?)
    } else {
        coefficients_by_sires(rt, alloc, lineage, plan.workers, plan.block)
    }
}

// Writes the relationships of the animals that are named.
fn relate<W: Write>(
    alloc: Global,
    lineage: &Lineage<Global>,
    animals: &[Option<u32>],
    others: &[Option<u32>],
    in_units: bool,
    writer: &mut W,
) -> Result<(), PedigreeReportFault>
    ensures ok { OnOk result (IsReported (Relationships animals.entry others.entry in_units) lineage.now
        (W.contents writer.old) (W.contents writer.new)) }
    ensures err { IfErr result (EndsReporting (Relationships animals.entry others.entry in_units) lineage.now
        (W.contents writer.old) (W.contents writer.new)) }
{
    let ranks = ranks_of(alloc, animals, lineage.len())?;
    let other_ranks = ranks_of(alloc, others, lineage.len())?;
    let coefficients = coefficients_plain(alloc, lineage)?;
    let written = write_relationships(
        alloc,
        lineage,
        &coefficients,
        &ranks,
        &other_ranks,
        in_units,
        writer,
    );
    Ok(written?)
}
