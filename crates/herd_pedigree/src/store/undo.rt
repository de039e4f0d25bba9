//! What taking the last change back needs.
ghost use Rattle.std.specs.Prelude.{◌≡◌, ◌<◌, [], All, length};
ghost use Rattle.herd_pedigree.specs.store.Undo.{undone_writes};

use crate::store::records::StoredRecord;
use std::alloc::Allocator;

/// What the last change wrote over.
#[derive(Clone, Copy)]
pub enum Undo {
    /// There is no change to take back.
    Nothing,
    /// The last animal was added.
    Birth,
    /// This was kept at the place.
    Record { place: u32, was: StoredRecord },
}

/// Takes back the writes that are logged, each with its place and the depth that it wrote over.
pub fn undo_writes<A: Allocator>(depths: &mut [u8], log: &mut Vec<(u32, u8), A>)
    requires { All (λ write. write.0 < length depths.old) log.old.items }
    ensures undone { depths.new ≡ undone_writes log.old.items depths.old }
    ensures emptied { log.new.items ≡ [] }
{
    while let Some((place, depth)) = log.pop() {
        depths[place as usize] = depth;
    }
}
