//! What clerks have done, as text.
ghost use Rattle.std.specs.Prelude.{◌≡◌, IfOk, string_bytes};
ghost use Rattle.herd_clerks.specs.Summary.{desk_lines, summary_text};

use std::alloc::{AllocError, Global};

/// How many of a desk's calls were answered.
#[derive(Clone, Copy, Debug, PartialEq, Eq, Drop)]
pub struct DeskCount {
    pub number: u16,
    pub answered: u64,
}

/// The counts of an office that was closed.
#[derive(Drop)]
pub struct Summary {
    pub desks: Vec<DeskCount>,
    /// The length of the journal.
    pub steps: usize,
    /// How many animals its book has.
    pub animals: u32,
    /// How many steps the inspector has seen.
    pub seen: u64,
}

/// A summary as text.
pub fn text_of(alloc: Global, summary: &Summary) -> Result<String, AllocError>
    ensures { IfOk result (λ text. string_bytes text ≡ summary_text summary.now) }
{
    let Summary {
        desks,
        steps,
        animals,
        seen,
    } = summary;
    let mut text = lines_of(alloc, desks.as_slice())?;
    writeln!(text, "steps {steps}\nanimals {animals}\nseen {seen}")?;
    Ok(text)
}

// A line for each desk.
fn lines_of(alloc: Global, desks: &[DeskCount]) -> Result<String, AllocError>
    ensures { IfOk result (λ text. string_bytes text ≡ desk_lines desks.now) }
{
    let mut text = String::new(alloc);
    for desk in desks {
        let DeskCount { number, answered } = desk;
        writeln!(text, "desk {number} answered {answered}")?;
    }
    Ok(text)
}
