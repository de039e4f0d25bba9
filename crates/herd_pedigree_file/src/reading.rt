//! Reading a pedigree file.
ghost use Rattle.std.specs.Prelude.{◌≡◌, ◌≤◌, ◌<◌, ◌+◌, [], false, true, length, IfErr, IfOk, IfSome, Ok, OnOk};
ghost use Rattle.herd_lineage.specs.declared.TheConstants.{MOST_ANIMALS};
ghost use Rattle.csv_records.specs.Upcoming.{IsSetUp, upcoming};
ghost use Rattle.herd_pedigree_file.specs.PedigreeCause.{is_interruption};
ghost use Rattle.herd_pedigree_file.specs.PedigreeFile.{IsToldOf, LacksHeader, TakesAnimal, TakesHeader, fault_at};
ghost use Rattle.herd_pedigree_file.specs.PedigreeFile.{lineage_from, lineage_in};
ghost use Rattle.herd_pedigree_file.specs.declared.pedigree_fault.PedigreeCause.TheVariants as cause;

use crate::animal::{add_animal, is_header};
use crate::pedigree_fault::{PedigreeCause, PedigreeFault};
use csv::{ByteRecord, Reader};
use csv_records::{Interruption, open_records, read_record};
use herd_lineage::{Lineage, LineageBuilder};
use std::alloc::Global;
use std::io::Read;

/// Reads a pedigree file of at most so many animals, up to its first fault.
///
/// The faults `Read` and `Memory` don't stand in the file: they tell the number of the record that was being read.
pub fn read_lineage<R: Read + Drop>(
    alloc: Global,
    reader: R,
    most: u32,
) -> Result<Lineage<Global>, PedigreeFault>
    requires { most ≤ MOST_ANIMALS }
    ensures lineage { IfOk result (λ lineage. IfSome (R.remaining reader)
        (λ bytes. lineage_in most bytes ≡ Ok lineage)) }
    ensures most { IfOk result (λ lineage. length lineage ≤ most) }
    ensures fault { IfErr result (λ fault. IfSome (R.remaining reader)
        (λ bytes. IsToldOf most (lineage_in most bytes) fault)) }
    ensures record_number { IfErr result (λ fault. fault.record_number ≤ most + 1) }
{
    let mut records = open_records(alloc, reader);
    let mut row = ByteRecord::new(alloc);
    read_header(&mut records, &mut row)?;
    let Ok(mut builder) = Lineage::builder(alloc) else {
        return Err(PedigreeCause::Memory.at(0));
    };
    while read_animal(&mut records, &mut row, most, &mut builder)? {}
    Ok(builder.build())
}

// Reads the header.
#[tactic(auto, using(crate::proofs::Header::takes, crate::proofs::Header::lacks, crate::proofs::Header::ended))]
fn read_header<R: Read>(records: &mut Reader<R>, row: &mut ByteRecord) -> Result<(), PedigreeFault>
    requires { IsSetUp records.old }
    ensures set_up { OnOk result (IsSetUp records.new) }
    ensures header { OnOk result (TakesHeader (upcoming R.remaining records.old) (upcoming R.remaining records.new)) }
    ensures record_number { IfErr result (λ fault. fault.record_number ≡ 0) }
    ensures fault { IfErr result (λ fault. is_interruption fault.cause ≡ false
        → (fault.cause ≡ cause.Header) × LacksHeader (upcoming R.remaining records.old)) }
{
    match read_record(records, row) {
        Ok(true) => {
            if is_header(row) {
                Ok(())
            } else {
                Err(PedigreeCause::Header.at(0))
            }
        }
        Ok(false) => Err(PedigreeCause::Header.at(0)),
        Err(interruption) => Err(PedigreeCause::from(interruption).at(0)),
    }
}

// Reads the next record, if there is one, and adds its animal.
fn read_animal<R: Read>(
    records: &mut Reader<R>,
    row: &mut ByteRecord,
    most: u32,
    builder: &mut LineageBuilder<Global>,
) -> Result<bool, PedigreeFault>
    requires set_up { IsSetUp records.old }
    requires most { most ≤ MOST_ANIMALS }
    requires within { length builder.old ≤ most }
    ensures set_up { IfOk result (λ found. found ≡ true → IsSetUp records.new) }
    ensures added { IfOk result (λ found. found ≡ true → (length builder.new ≡ length builder.old + 1)
        × (length builder.new ≤ most)) }
    ensures takes { IfOk result (λ found. found ≡ true → TakesAnimal most builder.old builder.new
        (upcoming R.remaining records.old) (upcoming R.remaining records.new)) }
    ensures end { IfOk result (λ found. found ≡ false → (builder.new ≡ builder.old)
        × IfSome (upcoming R.remaining records.old) (λ records. records ≡ [])) }
    ensures record_number { IfErr result (λ fault. fault.record_number ≡ length builder.old + 1) }
    ensures fault { IfErr result (λ fault. is_interruption fault.cause ≡ false
        → IfSome (upcoming R.remaining records.old)
        (λ records. lineage_from most builder.old records ≡ fault_at fault.record_number fault.cause)) }
{
    let record_number = builder.len() + 1;
    match read_record(records, row) {
        Ok(false) => Ok(false),
        Ok(true) => match add_animal(row, most, builder) {
            Ok(()) => Ok(true),
            Err(cause) => Err(cause.at(record_number)),
        },
        Err(interruption) => Err(PedigreeCause::from(interruption).at(record_number)),
    }
}
