//! A digest in a line.
ghost use Rattle.std.specs.Prelude.{◌≡◌, ◌++◌, OnOk};
ghost use Rattle.hex.specs.Hex.{encode_lower};
ghost use Rattle.herd_record_line.specs.RecordLine.{field_text};

use herd_text::Text;
use std::alloc::{AllocError, Allocator};

/// Adds a digest as lower-case hex, and the comma behind it.
#[tactic(auto, using(std::proofs::Common::append_assoc), unfolding(herd_record_line::specs::RecordLine::field_text))]
pub(crate) fn push_digest_field<A: Allocator>(
    text: &mut Text<A>,
    digest: &[u8; 32],
) -> Result<(), AllocError>
    ensures { OnOk result (text.new ≡ text.old ++ field_text (encode_lower digest.now)) }
{
    push_digest(text, digest)?;
    text.push(b",")
}

/// Adds a digest as lower-case hex.
pub(crate) fn push_digest<A: Allocator>(
    text: &mut Text<A>,
    digest: &[u8; 32],
) -> Result<(), AllocError>
    ensures { OnOk result (text.new ≡ text.old ++ encode_lower digest.now) }
{
    let mut letters = [0; 64];
    let Ok(()) = hex::encode_to_slice(digest.as_slice(), &mut letters) else {
        unreachable!();
    };
    text.push(&letters)
}
