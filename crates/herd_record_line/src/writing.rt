//! The record of an animal, as text.
ghost use Rattle.std.specs.Prelude.{◌≡◌, ◌++◌, codes, decimal, OnOk};
ghost use Rattle.std.specs.Option.{ForSome};
ghost use Rattle.herd_animal.specs.AnimalNumber.{IsAnimalNumber};
ghost use Rattle.herd_animal.specs.Herd.{IsHerdNumber};
ghost use Rattle.herd_record_line.specs.RecordLine.{embryo_text, field_text, known_text, left_text, record_line};
ghost use Rattle.herd_record_line.specs.RecordLine.{IsRecord, IsWrittenDay, record_text};

use crate::field::{push_field, push_number_field};
use herd_animal::{AnimalNumber, Day, Herd};
use herd_frozen::Animal;
use herd_text::Text;
use std::alloc::{AllocError, Allocator};

/// Adds the line of an animal's record.
#[tactic(auto, using(std::proofs::Common::append_assoc))]
pub fn push_record_line<A: Allocator>(
    text: &mut Text<A>,
    number: AnimalNumber,
    animal: &Animal,
) -> Result<(), AllocError>
    ensures { OnOk result (text.new ≡ text.old ++ record_line number animal.now) }
{
    push_record(text, number, animal)?;
    text.push(b"\n")
}

/// Adds an animal's record: its number, birth day, sire, dam, herd, the day since which that has it, the day on which
/// it left, and whether it is from a stored embryo.
#[tactic(auto, using(std::proofs::Common::append_assoc), unfolding(crate::specs::RecordLine::record_text))]
pub fn push_record<A: Allocator>(
    text: &mut Text<A>,
    number: AnimalNumber,
    animal: &Animal,
) -> Result<(), AllocError>
    ensures text { OnOk result (text.new ≡ text.old ++ record_text number animal.now) }
    ensures told { OnOk result (IsRecord number animal.now) }
{
    push_field(text, &number.bytes())?;
    push_field(text, &animal.birth.text())?;
    push_parent(text, animal.sire)?;
    push_parent(text, animal.dam)?;
    push_herd(text, animal.herd)?;
    push_field(text, &animal.since.text())?;
    push_left(text, animal.left)?;
    push_embryo(text, animal.embryo)
}

fn push_parent<A: Allocator>(
    text: &mut Text<A>,
    parent: Option<AnimalNumber>,
) -> Result<(), AllocError>
    ensures text { OnOk result (text.new ≡ text.old ++ field_text (known_text parent)) }
    ensures told { OnOk result (ForSome parent IsAnimalNumber) }
{
    match parent {
        Some(number) => push_field(text, &number.bytes()),
        None => push_field(text, b"0"),
    }
}

fn push_herd<A: Allocator>(text: &mut Text<A>, herd: Herd) -> Result<(), AllocError>
    ensures text { OnOk result (text.new ≡ text.old ++ field_text (decimal herd)) }
    ensures told { OnOk result (IsHerdNumber herd) }
{
    push_number_field(text, u64::from(herd.number()))
}

fn push_left<A: Allocator>(text: &mut Text<A>, left: Option<Day>) -> Result<(), AllocError>
    ensures text { OnOk result (text.new ≡ text.old ++ field_text (left_text left)) }
    ensures told { OnOk result (ForSome left IsWrittenDay) }
{
    match left {
        Some(day) => push_field(text, &day.text()),
        None => push_field(text, b"-"),
    }
}

// Adds whether an animal is from a stored embryo.
fn push_embryo<A: Allocator>(text: &mut Text<A>, embryo: bool) -> Result<(), AllocError>
    ensures { OnOk result (text.new ≡ text.old ++ embryo_text embryo) }
{
    text.push(if embryo {
        b"1".as_slice()
    } else {
        b"".as_slice()
    })
}
