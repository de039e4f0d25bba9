//! What the check of a certificate comes to. The call does nothing: who calls it has its `ensures` as a fact.
ghost use Rattle.std.specs.Prelude.{◌<◌, length};
ghost use Rattle.herd_seal.specs.Seal.{rows_of, seal_of};
ghost use Rattle.herd_certificate.specs.Faultless.{IsFaultless};
ghost use Rattle.herd_certificate.specs.Sealed.{parts_at};

use herd_frozen::Frozen;
use std::alloc::Allocator;

/// In the certificate of the animal at a place, as `write_sealed_at` writes it, nothing is wrong under the seal of its
/// book: its rows and digests, its number and its coefficient have no fault but that memory runs out.
pub fn faultless<F: Allocator>(frozen: &Frozen<F>, steps: u64, place: u32)
    requires { place < length frozen.now }
    ensures { IsFaultless (seal_of steps (rows_of frozen.now)) (parts_at frozen.now steps place) }
{
    prove!(place < frozen.lineage().len());
}
