//! A field of a line, and the comma behind it.
ghost use Rattle.std.specs.Prelude.{◌≡◌, ◌++◌, decimal, OnOk};
ghost use Rattle.herd_record_line.specs.RecordLine.{field_text};

use herd_text::Text;
use std::alloc::{AllocError, Allocator};

/// Adds a field, and the comma behind it.
#[tactic(auto, using(std::proofs::Common::append_assoc), unfolding(crate::specs::RecordLine::field_text))]
pub fn push_field<A: Allocator>(text: &mut Text<A>, field: &[u8]) -> Result<(), AllocError>
    ensures { OnOk result (text.new ≡ text.old ++ field_text field.now) }
{
    text.push(field)?;
    text.push(b",")
}

/// Adds a number, and the comma behind it.
#[tactic(auto, using(std::proofs::Common::append_assoc), unfolding(crate::specs::RecordLine::field_text))]
pub fn push_number_field<A: Allocator>(text: &mut Text<A>, number: u64) -> Result<(), AllocError>
    ensures { OnOk result (text.new ≡ text.old ++ field_text (decimal number)) }
{
    text.push_number(number)?;
    text.push(b",")
}
