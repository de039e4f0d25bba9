ghost use Rattle.std.specs.Prelude.{◌≡◌, ℕ, List, IfOk};
ghost use Rattle.merkle_tree.specs.Tree.{digests_of};
ghost use Rattle.herd_seal.specs.Seal.{rows_of, seal_of};

use crate::row::{digest_of_row, seal_over};
use herd_frozen::Frozen;
use herd_text::Text;
use merkle_tree::tree_root;
use std::alloc::{AllocError, Allocator};

/// The seal of a book whose journal has so many steps. The only error is a growth of memory that is refused.
pub fn seal_book<F: Allocator, A: Allocator + Clone>(
    alloc: A,
    frozen: &Frozen<F>,
    steps: u64,
) -> Result<[u8; 32], AllocError>
    ensures { IfOk result (λ seal. seal ≡ seal_of steps (rows_of frozen.now)) }
{
    let digests = row_digests(alloc, frozen)?;
    Ok(seal_of_digests(digests.as_slice(), steps))
}

/// The seal of rows that have these digests, in a book whose journal has so many steps.
pub fn seal_of_digests(digests: &[[u8; 32]], steps: u64) -> [u8; 32]
    ensures { (rows : List (List ℕ)) → digests.now ≡ digests_of rows → result ≡ seal_of steps rows }
{
    seal_over(digests.len() as u64, steps, &tree_root(digests))
}

/// The digests of a book's rows, by places. The only error is a growth of memory that is refused.
pub fn row_digests<F: Allocator, A: Allocator + Clone>(
    alloc: A,
    frozen: &Frozen<F>,
) -> Result<Vec<[u8; 32], A>, AllocError>
    ensures { IfOk result (λ digests. digests.items ≡ digests_of (rows_of frozen.now)) }
{
    let mut text = Text::new(alloc.clone()?);
    let mut digests = Vec::new(alloc);
    for place in 0..frozen.len() {
        let row = frozen.row(place);
        let digest = digest_of_row(&mut text, row.sire, row.dam, row.number, &row.animal)?;
        digests.push(digest)?;
    }
    Ok(digests)
}
