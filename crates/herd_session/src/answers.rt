//! Texts of answers.
ghost use Rattle.std.specs.Prelude.{◌≡◌, ◌++◌, ◌∷◌, [], OnOk, codes, if◌then◌else◌};
ghost use Rattle.herd_session.specs.Answers.{end_line, lines_behind};

use herd_requests::Tag;
use itoa::Buffer;
use std::alloc::AllocError;

/// Adds each line of a text behind a tag and a comma.
pub(crate) fn push_behind(out: &mut Vec<u8>, tag: &Tag, text: &[u8]) -> Result<(), AllocError>
    ensures { OnOk result (out.new.items ≡ out.old.items ++ lines_behind tag.now text.now) }
{
    let mut starts = true;
    for byte in text {
        push_character(out, tag, starts, *byte)?;
        starts = *byte == b'\n';
    }
    Ok(())
}

// Adds a character, and where it begins a line the tag and a comma before it.
fn push_character(
    out: &mut Vec<u8>,
    tag: &Tag,
    starts: bool,
    character: u8,
) -> Result<(), AllocError>
    ensures { OnOk result (out.new.items
        ≡ out.old.items ++ (if starts then tag.now ++ codes "," else []) ++ character ∷ []) }
{
    if starts {
        out.extend_from_slice(tag.text())?;
        out.extend_from_slice(b",")?;
    }
    out.extend_from_slice(&[character])
}

/// Adds the line that ends a report on a history of so many steps.
pub(crate) fn push_end(out: &mut Vec<u8>, tag: &Tag, steps: u64) -> Result<(), AllocError>
    ensures { OnOk result (out.new.items ≡ out.old.items ++ end_line tag.now steps) }
{
    out.extend_from_slice(tag.text())?;
    out.extend_from_slice(b",end,")?;
    out.extend_from_slice(Buffer::new().format(steps).as_bytes())?;
    out.extend_from_slice(b"\n")
}
