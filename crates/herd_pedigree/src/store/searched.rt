//! What a search for ancestors reads of a book: an animal by its number, and its record and parents by its place.
ghost use Rattle.std.specs.Prelude.{◌≡◌, ◌<◌, false, IfNone, IfSome, Some, length, slice_get};
ghost use Rattle.std.specs.Map.{keys_of};
ghost use Rattle.herd_frozen.specs.rules.Book.{Book, is_there};
ghost use Rattle.herd_frozen.specs.places.Links.{IsLinkAt};

use herd_animal::AnimalNumber;
use herd_frozen::{Animal, Link};

/// The records of a book. A place counts from 0 in the order of registration.
pub trait Searched {
    ghost book: { Self → Book };

    /// The places of the parents can be told.
    ghost knows_parents: { Self → Type 0 };

    /// How many records there are.
    fn count(&self) -> usize
        ensures { result ≡ length (book self.now) };

    /// The place of an animal.
    fn place_of(&self, number: &AnimalNumber) -> Option<usize>
        ensures place { IfSome result (λ place. slice_get (keys_of (book self.now)) place ≡ Some number.now) }
        ensures within { IfSome result (λ place. place < length (book self.now)) }
        ensures absent { IfNone result (is_there (book self.now) number.now ≡ false) };

    /// The places of the parents of the animal at a place.
    fn link_at(&self, place: usize) -> Link
        requires within { place < length (book self.now) }
        requires parents { knows_parents self.now }
        ensures { IsLinkAt (book self.now) place result };

    /// The number and the record at a place.
    fn entry_at(&self, place: usize) -> (AnimalNumber, Animal)
        requires { place < length (book self.now) }
        ensures { slice_get (book self.now) place ≡ Some result };
}
