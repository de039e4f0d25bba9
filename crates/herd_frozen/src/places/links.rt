ghost use Rattle.std.specs.Prelude.{IfSome, ◌≡◌};

/// The places of an animal's known parents.
#[derive(Clone, Copy, Debug, PartialEq, Eq)]
pub struct Link {
    pub sire: Option<u32>,
    pub dam: Option<u32>,
}

/// The places where the parents of an animal are expected. A hint promises nothing: a parent may stand elsewhere, and
/// of one that isn't known the place says nothing.
#[derive(Clone, Copy, Debug, PartialEq, Eq)]
pub struct LinkHint {
    pub sire: u32,
    pub dam: u32,
}

impl From<Link> for LinkHint {
    ghost from_gives = { λ link hint. IfSome link.sire (λ place. hint.sire ≡ place)
        × IfSome link.dam (λ place. hint.dam ≡ place) };

    fn from(link: Link) -> Self {
        LinkHint {
            sire: link.sire.unwrap_or(0),
            dam: link.dam.unwrap_or(0),
        }
    }
}
