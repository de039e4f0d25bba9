//! Some animals of a lineage, and those from which they come.
ghost use Rattle.std.specs.Prelude.{◌≡◌, ℕ, ◌<◌, ◌⊎◌, All, Contains, length, IfOk};
ghost use Rattle.std.specs.Option.{ForSome};
ghost use Rattle.herd_pruned.specs.Marked.{IsMarked, MarksAncestors, with_mark};

use herd_lineage::Lineage;
use std::alloc::{AllocError, Allocator};

/// For each animal whether it is one of some animals or an ancestor of one.
pub(crate) fn mark_ancestors<F: Allocator, A: Allocator>(
    alloc: A,
    lineage: &Lineage<F>,
    animals: &[u32],
) -> Result<Vec<bool, A>, AllocError>
    requires { All (λ rank. rank < length lineage.now) animals.now }
    ensures { IfOk result (λ marks. MarksAncestors lineage.now (Contains animals.now) marks.items) }
{
    let mut marks = vec![in alloc; false; lineage.len() as usize]?;
    mark_animals(&mut marks, animals);
    mark_parents(&mut marks, lineage);
    Ok(marks)
}

// Marks some animals.
fn mark_animals(marks: &mut [bool], animals: &[u32])
    requires { All (λ rank. rank < length marks.old) animals.now }
    ensures each { length marks.new ≡ length marks.old }
    ensures animals { (rank : ℕ) → Contains animals.now rank → IsMarked marks.new rank }
    ensures others { (rank : ℕ) → IsMarked marks.new rank → IsMarked marks.old rank ⊎ Contains animals.now rank }
{
    for rank in animals {
        marks[*rank as usize] = true;
    }
}

// Marks the ancestors of those that are marked.
fn mark_parents<F: Allocator>(marks: &mut [bool], lineage: &Lineage<F>)
    requires { length marks.old ≡ length lineage.now }
    ensures { MarksAncestors lineage.now (IsMarked marks.old) marks.new }
{
    for rank in (0..lineage.len()).rev() {
        if marks[rank as usize] {
            let parents = lineage.parents(rank);
            mark(marks, parents.sire);
            mark(marks, parents.dam);
        }
    }
}

// Marks an animal, where there is one.
fn mark(marks: &mut [bool], animal: Option<u32>)
    requires { ForSome animal (λ rank. rank < length marks.old) }
    ensures { marks.new ≡ with_mark marks.old animal }
{
    if let Some(rank) = animal {
        marks[rank as usize] = true;
    }
}
