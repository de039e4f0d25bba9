//! The animal of a record.
ghost use Rattle.std.specs.Prelude.{◌≡◌, ◌<◌, ◌≤◌, ◌∷◌, ◌++◌, [], false, length, IfErr, IfSome, OnOk};
ghost use Rattle.csv.specs.Records.{fields_of};
ghost use Rattle.herd_lineage.specs.declared.TheConstants.{MOST_ANIMALS};
ghost use Rattle.herd_lineage.specs.declared.lineage.Parents.{Parents};
ghost use Rattle.herd_pedigree_file.specs.Grammar.{animal_in, is_header, is_unknown, parent_in};
ghost use Rattle.herd_pedigree_file.specs.PedigreeCause.{is_interruption};

use crate::number::rank_in;
use crate::pedigree_fault::PedigreeCause;
use csv::ByteRecord;
use csv_records::field;
use herd_lineage::LineageBuilder;
use std::alloc::Global;

/// Whether a record is the header.
pub(crate) fn is_header(row: &ByteRecord) -> bool
    ensures { result ≡ is_header (fields_of row.now) }
{
    row.len() == 2 && field(row, 0) == b"sire".as_slice() && field(row, 1) == b"dam".as_slice()
}

/// Adds the animal of a record. A cause that is an interruption is a growth of memory that was refused.
pub(crate) fn add_animal(
    row: &ByteRecord,
    most: u32,
    builder: &mut LineageBuilder<Global>,
) -> Result<(), PedigreeCause>
    requires { most ≤ MOST_ANIMALS }
    ensures added { OnOk result ((animal : Parents) × (animal_in most builder.old (fields_of row.now) ≡ Ok animal)
        × (builder.new ≡ builder.old ++ animal ∷ [])) }
    ensures within { OnOk result (length builder.new ≤ most) }
    ensures fault { IfErr result (λ cause. is_interruption cause ≡ false
        → animal_in most builder.old (fields_of row.now) ≡ Err cause) }
{
    let animals = builder.len();
    if animals >= most {
        return Err(PedigreeCause::TooMany);
    }
    if row.len() != 2 {
        return Err(PedigreeCause::Fields);
    }
    let Some(sire) = parent_in(field(row, 0), animals) else {
        return Err(PedigreeCause::Sire);
    };
    let Some(dam) = parent_in(field(row, 1), animals) else {
        return Err(PedigreeCause::Dam);
    };
    match builder.push(sire, dam) {
        Ok(()) => Ok(()),
        Err(fault) => Err(PedigreeCause::from(fault)),
    }
}

// The parent that a field tells after so many animals: an empty field and `0` are an unknown one.
#[tactic(auto, unfolding(crate::specs::Grammar::parent_in))]
fn parent_in(text: &[u8], animals: u32) -> Option<Option<u32>>
    ensures parent { result ≡ parent_in animals text.now }
    ensures earlier { IfSome result (λ parent. IfSome parent (λ rank. rank < animals)) }
{
    if is_unknown(text) {
        Some(None)
    } else {
        Some(Some(rank_in(text, animals)?))
    }
}

fn is_unknown(text: &[u8]) -> bool
    ensures { result ≡ is_unknown text.now }
{
    text.is_empty() || text == b"0".as_slice()
}
