//! What freezing reads of a book: of each animal, in the order of registration, what a row keeps of it and the places
//! of its parents.
ghost use Rattle.std.specs.Prelude.{◌≡◌, ◌<◌, Some, length, map, slice_get};
ghost use Rattle.herd_frozen.specs.freezing.Rows.{kept_of};
ghost use Rattle.herd_frozen.specs.rules.Book.{Book};
ghost use Rattle.herd_frozen.specs.places.Links.{IsLinkAt};

use crate::freezing::rows::RowRecord;
use crate::places::links::Link;

/// The animals of a book. A place counts from 0 in the order of registration.
pub trait Registered {
    ghost book: { Self → Book };

    /// The places of the parents can be told.
    ghost knows_parents: { Self → Type 0 };

    /// How many animals there are.
    fn count(&self) -> usize
        ensures { result ≡ length (book self.now) };

    /// What a row keeps of the animal at a place.
    fn kept_at(&self, place: usize) -> RowRecord
        requires { place < length (book self.now) }
        ensures { slice_get (map kept_of (book self.now)) place ≡ Some result };

    /// The places of the parents of the animal at a place.
    fn link_at(&self, place: usize) -> Link
        requires within { place < length (book self.now) }
        requires parents { knows_parents self.now }
        ensures { IsLinkAt (book self.now) place result };
}
