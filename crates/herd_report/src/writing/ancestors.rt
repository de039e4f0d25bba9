ghost use Rattle.std.specs.Prelude.{◌≡◌, ◌<◌, ◌++◌, length, map, OnOk};
ghost use Rattle.std.specs.List.{flat_map};
ghost use Rattle.herd_frozen.specs.freezing.Frozen.{book_of};
ghost use Rattle.herd_advice.specs.FrozenAncestry.{number_of_row};
ghost use Rattle.herd_report.specs.writing.Ancestors.{ancestor_of, letter_of, parent_rank};
ghost use Rattle.herd_report.specs.writing.Certificate.{ancestor_line, ancestors_text};

use herd_animal::AnimalNumber;
use herd_frozen::{Frozen, Parents};
use herd_text::Text;
use std::alloc::{AllocError, Allocator};

/// One of an animal's two parents.
#[derive(Clone, Copy, Debug, PartialEq, Eq)]
pub(crate) enum Parent {
    Sire,
    Dam,
}

use Parent::{Dam, Sire};

// The paths of one, of two and of three parents, the nearest parent first.
const PATHS: [&[Parent]; 14] = [
    &[Sire],
    &[Dam],
    &[Sire, Sire],
    &[Sire, Dam],
    &[Dam, Sire],
    &[Dam, Dam],
    &[Sire, Sire, Sire],
    &[Sire, Sire, Dam],
    &[Sire, Dam, Sire],
    &[Sire, Dam, Dam],
    &[Dam, Sire, Sire],
    &[Dam, Sire, Dam],
    &[Dam, Dam, Sire],
    &[Dam, Dam, Dam],
];

impl Parent {
    fn letter(self) -> u8
        ensures { result ≡ letter_of self }
    {
        match self {
            Sire => b'S',
            Dam => b'D',
        }
    }

    // Its rank in the book, where it is known.
    fn rank_in(self, parents: Parents) -> Option<u32>
        ensures { result ≡ parent_rank self parents }
    {
        match self {
            Sire => parents.sire,
            Dam => parents.dam,
        }
    }
}

/// Adds the lines of the ancestors of the animal at a rank, up to three parents away.
#[tactic(auto, unfolding(crate::specs::writing::Certificate::ancestors_text))]
pub(crate) fn push_ancestors<A: Allocator, F: Allocator>(
    text: &mut Text<A>,
    frozen: &Frozen<F>,
    rank: u32,
) -> Result<(), AllocError>
    requires { rank < length frozen.now }
    ensures { OnOk result
        (text.new ≡ text.old ++ ancestors_text (book_of frozen.now) (number_of_row frozen.now rank)) }
{
    push_lines(text, frozen, rank, &PATHS)
}

// Adds the lines of the ancestors to which some paths lead.
fn push_lines<A: Allocator, F: Allocator>(
    text: &mut Text<A>,
    frozen: &Frozen<F>,
    rank: u32,
    paths: &[&[Parent]],
) -> Result<(), AllocError>
    requires { rank < length frozen.now }
    ensures { OnOk result (text.new ≡ text.old
        ++ flat_map (λ path. ancestor_line (book_of frozen.now) (number_of_row frozen.now rank) path.now) paths.now) }
{
    for path in paths {
        push_ancestor(text, frozen, rank, path)?;
    }
    Ok(())
}

#[tactic(auto, unfolding(crate::specs::writing::Certificate::labelled_line))]
fn push_ancestor<A: Allocator, F: Allocator>(
    text: &mut Text<A>,
    frozen: &Frozen<F>,
    rank: u32,
    path: &[Parent],
) -> Result<(), AllocError>
    requires { rank < length frozen.now }
    ensures { OnOk result
        (text.new ≡ text.old ++ ancestor_line (book_of frozen.now) (number_of_row frozen.now rank) path.now) }
{
    push_letters(text, path)?;
    text.push(b" ")?;
    match ancestor(frozen, rank, path) {
        Some(number) => text.push(&number.bytes())?,
        None => text.push(b"0")?,
    }
    text.push(b"\n")
}

fn push_letters<A: Allocator>(text: &mut Text<A>, path: &[Parent]) -> Result<(), AllocError>
    ensures { OnOk result (text.new ≡ text.old ++ map letter_of path.now) }
{
    for parent in path {
        text.push(&[parent.letter()])?;
    }
    Ok(())
}

// The ancestor to which a path leads from a rank.
fn ancestor<F: Allocator>(frozen: &Frozen<F>, start: u32, path: &[Parent]) -> Option<AnimalNumber>
    requires { start < length frozen.now }
    ensures { result ≡ ancestor_of (book_of frozen.now) (number_of_row frozen.now start) path.now }
{
    let mut rank = start;
    for parent in path {
        rank = parent.rank_in(frozen.parents(rank))?;
    }
    Some(frozen.number(rank))
}
