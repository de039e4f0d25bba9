ghost use Rattle.std.specs.Prelude.{◌≡◌, ◌++◌, OnOk};
ghost use Rattle.herd_report.specs.writing.RefusedText.{refused_line_end};

use herd_text::Text;
use std::alloc::{AllocError, Allocator};

/// Adds what follows in the line of what is refused: that it is, and the number that tells why.
pub(crate) fn push_refused_line_end<A: Allocator>(
    text: &mut Text<A>,
    number: u8,
) -> Result<(), AllocError>
    ensures { OnOk result (text.new ≡ text.old ++ refused_line_end number) }
{
    text.push(b",refused,")?;
    text.push_number(number)?;
    text.push(b"\n")
}
