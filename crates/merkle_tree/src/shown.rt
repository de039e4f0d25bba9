ghost use Rattle.std.specs.Prelude.{◌≡◌, ◌≤◌, ◌<◌, ◌+◌, ◌^◌, ℕ, List, [], length, Some, IfSome};
ghost use Rattle.std.specs.List.{All};
ghost use Rattle.std.specs.Option.{option_map};
ghost use Rattle.merkle_tree.specs.Collision.{ShowsLeaves};
ghost use Rattle.merkle_tree.specs.Tree.{IsDigest, tree_root};
ghost use Rattle.merkle_tree.specs.Shown.{AreDigests, IsAscending, LieWithin, beside, shown_of};
ghost use Rattle.merkle_tree.specs.Shown.{count_before, first_of, found, found_at, found_in, leaf_at, places_of};

use crate::tree::{half_of, node_digest};

/// A leaf that is shown: its place in the tree, which counts from 0, and its digest.
#[derive(Clone, Copy)]
pub struct Shown {
    pub place: u64,
    pub digest: [u8; 32],
}

/// The root of a part of a tree, and the digests that are left for the parts behind it.
#[derive(Clone, Copy)]
pub struct Part<'a> {
    pub root: [u8; 32],
    pub left: &'a [[u8; 32]],
}

/// The root of a tree of so many leaves, of which some are shown, by ascending places. The digests are those of the
/// largest subtrees without a shown leaf, in the tree's order; those that are too many are left. There is no root where
/// digests lack, or a leaf's place isn't one of the tree or is shown before.
pub fn root_from<'a>(count: u64, shown: &[Shown], digests: &'a [[u8; 32]]) -> Option<Part<'a>>
    ensures exact { option_map found_in result ≡ found count shown.now digests.now }
    ensures sound { All IsDigest digests.now → AreDigests shown.now → 0 < count
        → IfSome result (λ part. ShowsLeaves count shown.now digests.now part.root) }
    ensures complete { (leaves : List (List ℕ)) (places : List ℕ) → length leaves ≡ count → IsAscending places
        → LieWithin 0 count places → shown.now ≡ shown_of leaves places → digests.now ≡ beside leaves places
        → option_map found_in result ≡ Some (record { root = tree_root leaves; left = [] }) }
{
    root_at(64, 0, count, shown, digests)
}

// The root of a part of at most 2 ^ level leaves from the place base on.
fn root_at<'a>(
    level: u32,
    base: u64,
    count: u64,
    shown: &[Shown],
    digests: &'a [[u8; 32]],
) -> Option<Part<'a>>
    requires level { level ≤ 64 }
    requires end { base + count < 2 ^ 64 }
    ensures { option_map found_in result ≡ found_at level base count shown.now digests.now }
{
    let Some((first, rest)) = shown.split_first() else {
        return first_of(digests);
    };
    if level == 0 {
        return leaf_at(base, first, rest, digests);
    }
    let half = half_of(level - 1);
    if count <= half {
        return root_at(level - 1, base, count, shown, digests);
    }
    let (before, behind) = shown.split_at(count_before(shown, base + half));
    let one = root_at(level - 1, base, half, before, digests)?;
    let two = root_at(level - 1, base + half, count - half, behind, one.left)?;
    Some(Part {
        root: node_digest(&one.root, &two.root),
        left: two.left,
    })
}

// The first digest, as the root of a part of which no leaf is shown.
fn first_of<'a>(digests: &'a [[u8; 32]]) -> Option<Part<'a>>
    ensures { option_map found_in result ≡ first_of digests.now }
{
    let (digest, left) = digests.split_first()?;
    Some(Part {
        root: *digest,
        left,
    })
}

// A leaf that is shown, and no other, at the place base.
fn leaf_at<'a>(
    base: u64,
    first: &Shown,
    rest: &[Shown],
    digests: &'a [[u8; 32]],
) -> Option<Part<'a>>
    ensures { option_map found_in result ≡ leaf_at base first.now rest.now digests.now }
{
    if rest.is_empty() && first.place == base {
        Some(Part {
            root: first.digest,
            left: digests,
        })
    } else {
        None
    }
}

// How many of the leaves are before a place.
fn count_before(shown: &[Shown], end: u64) -> usize
    ensures count { result ≡ count_before end (places_of shown.now) }
    ensures within { result ≤ length shown.now }
{
    shown
        .iter()
        .map(|leaf| leaf.place)
        .take_while(|place| *place < end)
        .count()
}
