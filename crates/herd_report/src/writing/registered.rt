ghost use Rattle.std.specs.Prelude.{◌≡◌};
ghost use Rattle.herd_frozen.specs.rules.Book.{is_there};
ghost use Rattle.herd_frozen.specs.freezing.Frozen.{book_of};
ghost use Rattle.herd_report.specs.writing.Registered.{are_there};

use herd_animal::AnimalNumber;
use herd_frozen::Frozen;
use std::alloc::Allocator;

/// Whether each of some numbers is in the book, as certificates and records ask.
pub fn are_registered<F: Allocator>(frozen: &Frozen<F>, numbers: &[AnimalNumber]) -> bool
    ensures { result ≡ are_there (book_of frozen.now) numbers.now }
{
    for number in numbers {
        if !is_registered(frozen, number) {
            return false;
        }
    }
    true
}

fn is_registered<F: Allocator>(frozen: &Frozen<F>, number: &AnimalNumber) -> bool
    ensures { result ≡ is_there (book_of frozen.now) number.now }
{
    match frozen.rank(number) {
        Some(_) => true,
        None => false,
    }
}
