//! What the words of the command line ask for.

ghost use Rattle.std.specs.Prelude.{◌≡◌, ℕ, IfOk, IfErr, length, map, string_bytes};
ghost use Rattle.pedigree_timing.specs.Task.{AsksFor, HasNumber, animals_after, book_after};
ghost use Rattle.pedigree_timing.specs.declared.task.Task.{Task};

use crate::filling::{calves, correct_heads, lines};
use anyhow::{Context, Result, bail};
use herd_pedigree::Pedigree;
use std::alloc::{AllocError, Global};

/// What is done, with how many animals.
#[derive(Clone, Copy, Debug, PartialEq, Eq)]
pub enum Task {
    /// A few pairs are born, and their calves in no order of age.
    Births { animals: u32 },
    /// So are these, and the book is frozen.
    Freeze { animals: u32 },
    /// Long lines are born, and their first animals are corrected so often.
    Corrections { animals: u32, times: u32 },
}

impl Task {
    /// Reads the words, the program's own name first.
    pub fn read(words: &[String]) -> Result<Task>
        ensures asked { IfOk result (AsksFor (map string_bytes words.now)) }
        ensures nothing { IfErr result (λ _. (task : Task) → ¬ (AsksFor (map string_bytes words.now) task)) }
    {
        let task = words.get(1).context("births, corrections or freeze?")?;
        let animals = number(words, 2)?;
        match task.as_str() {
            "births" => Ok(Task::Births { animals }),
            "corrections" => Ok(Task::Corrections {
                animals,
                times: number(words, 3)?,
            }),
            "freeze" => Ok(Task::Freeze { animals }),
            _ => bail!("births, corrections or freeze?"),
        }
    }

    /// Does it, and tells how many animals there are then.
    pub fn done(self, alloc: Global) -> Result<u32>
        ensures { IfOk result (λ animals. animals ≡ animals_after self) }
    {
        let pedigree = self.filled(alloc)?;
        if let Task::Freeze { .. } = self {
            Ok(frozen_len(&pedigree, alloc)?)
        } else {
            Ok(pedigree.len())
        }
    }

    // The book in the end.
    fn filled(self, alloc: Global) -> Result<Pedigree<Global>>
        ensures book { IfOk result (λ pedigree. pedigree.book ≡ book_after self) }
        ensures count { IfOk result (λ pedigree. length pedigree.book ≡ animals_after self) }
    {
        match self {
            Task::Births { animals } | Task::Freeze { animals } => calves(alloc, animals),
            Task::Corrections { animals, times } => {
                let mut pedigree = lines(alloc, animals)?;
                correct_heads(&mut pedigree, times)?;
                Ok(pedigree)
            }
        }
    }
}

// How many animals there are, by the frozen book.
fn frozen_len(pedigree: &Pedigree<Global>, alloc: Global) -> Result<u32, AllocError>
    ensures { IfOk result (λ animals. animals ≡ length pedigree.now.book) }
{
    let frozen = pedigree.freeze(alloc)?;
    Ok(frozen.len())
}

fn number(words: &[String], place: usize) -> Result<u32>
    ensures found { IfOk result (HasNumber (map string_bytes words.now) place) }
    ensures none { IfErr result (λ _. (number : ℕ) → ¬ (HasNumber (map string_bytes words.now) place number)) }
{
    let word = words.get(place).context("how many?")?;
    Ok(word.as_str().parse::<u32>()?)
}
