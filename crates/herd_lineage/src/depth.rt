//! The depth of an animal by those of its parents.
ghost use Rattle.std.specs.Prelude.{◌≡◌, ◌≤◌};
ghost use Rattle.herd_lineage.specs.Lineage.{depth_from};

/// One more than the greatest of the depths of the parents that are known, and 0 where none is.
pub fn depth_of_calf(sire: Option<u8>, dam: Option<u8>) -> u16
    ensures depth { result ≡ depth_from (λ depth. depth) sire dam }
    ensures bound { result ≤ 256 }
{
    match sire.max(dam) {
        Some(depth) => u16::from(depth) + 1,
        None => 0,
    }
}
