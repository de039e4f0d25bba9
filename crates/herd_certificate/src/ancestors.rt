ghost use Rattle.std.specs.Prelude.{◌≡◌, ◌<◌, All, length, IfOk};
ghost use Rattle.herd_certificate.specs.Sealed.{places_shown};

use herd_frozen::Frozen;
use herd_pruned::PrunedLineage;
use std::alloc::{AllocError, Allocator};

/// The places of an animal and of all its known ancestors, ascending.
pub(crate) fn places_shown<F: Allocator, A: Allocator + Clone>(
    alloc: A,
    frozen: &Frozen<F>,
    place: u32,
) -> Result<Vec<u32, A>, AllocError>
    requires { place < length frozen.now }
    ensures places { IfOk result (λ places. places.items ≡ places_shown frozen.now place) }
    ensures within { IfOk result (λ places. All (λ place. place < length frozen.now) places.items) }
{
    let pruned = PrunedLineage::of(alloc.clone()?, frozen.lineage(), &[place])?;
    let mut places = Vec::new(alloc);
    places.extend_from_slice(pruned.ranks())?;
    Ok(places)
}
