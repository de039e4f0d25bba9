//! The tag by which a caller knows the answer to a request.
ghost use Rattle.std.specs.Prelude.{◌≡◌, ◌↔◌, IfSome, IsSome, IsTrue};
ghost use Rattle.herd_requests.specs.Tag.{IsTag};

use std::marker::Model;

/// How many characters a tag may have.
pub const LONGEST_TAG: usize = 40;

/// A caller's tag: 1 to `LONGEST_TAG` letters, digits and hyphens, but not `closed`.
#[derive(Drop)]
pub struct Tag {
    bytes: [u8; LONGEST_TAG],
    len: usize,
}

impl Model for Tag {
    ghost use Rattle.std.specs.Prelude.{◌≤◌, List, take, ℕ};
    ghost use Rattle.herd_requests.specs.declared.tag.TheConstants.{LONGEST_TAG};

    ghost Value = { List ℕ };

    ghost view = { λ tag. take tag.len tag.bytes };

    ghost invariant = { λ tag. tag.len ≤ LONGEST_TAG };
}

impl Tag {
    /// The tag that a text is.
    pub fn parse(text: &[u8]) -> Option<Tag>
        ensures accepted { IsSome result ↔ IsTag text.now }
        ensures value { IfSome result (λ tag. tag ≡ text.now) }
    {
        if !is_tag(text) {
            return None;
        }
        let mut bytes = [0; LONGEST_TAG];
        bytes[..text.len()].copy_from_slice(text);
        Some(Tag {
            bytes,
            len: text.len(),
        })
    }

    /// The same tag once more.
    pub fn again(&self) -> Tag
        ensures { result ≡ self.now }
    {
        Tag {
            bytes: self.bytes,
            len: self.len,
        }
    }

    /// Its characters.
    pub fn text(&self) -> &[u8]
        ensures { result.now ≡ self.now }
    {
        &self.bytes[..self.len]
    }
}

// Whether a text is a tag.
fn is_tag(text: &[u8]) -> bool
    ensures { IsTrue result ↔ IsTag text.now }
{
    !text.is_empty()
        && text.len() <= LONGEST_TAG
        && text.iter().all(|character| character.is_ascii_alphanumeric() || *character == b'-')
        && text != b"closed".as_slice()
}
