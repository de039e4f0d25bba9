//! Depths that parents give.
ghost use Rattle.std.specs.Prelude.{◌≡◌, ◌<◌, ◌≤◌, IfSome, length, slice_index};
ghost use Rattle.std.specs.Option.{option_map};
ghost use Rattle.herd_frozen.specs.rules.Depths.{depth_from};

use herd_frozen::depth_of_calf;

// The depth of a parent that is known.
fn depth_of(depths: &[u8], parent: Option<u32>) -> Option<u8>
    requires { IfSome parent (λ place. place < length depths.now) }
    ensures { result ≡ option_map (slice_index depths.now) parent }
{
    let place = parent?;
    Some(depths[place as usize])
}

/// The depth that an animal with these parents has.
pub fn depth_with(depths: &[u8], sire: Option<u32>, dam: Option<u32>) -> u16
    requires sire { IfSome sire (λ place. place < length depths.now) }
    requires dam { IfSome dam (λ place. place < length depths.now) }
    ensures depth { result ≡ depth_from (slice_index depths.now) sire dam }
    ensures bound { result ≤ 256 }
{
    depth_of_calf(depth_of(depths, sire), depth_of(depths, dam))
}
