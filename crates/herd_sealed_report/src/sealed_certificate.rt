//! The certificate of one animal under the seal of its book.
ghost use Rattle.std.specs.Prelude.{◌≡◌, false, IfErr, OnOk};
ghost use Rattle.herd_frozen.specs.rules.Book.{is_there};
ghost use Rattle.herd_frozen.specs.freezing.Frozen.{book_of};
ghost use Rattle.herd_sealed_report.specs.SealedCertificate.{EndsSealed, IsSealedTold};

use herd_animal::AnimalNumber;
use herd_certificate::write_sealed_at;
use herd_frozen::Frozen;
use herd_report::NamedAnimalsFault;
use std::alloc::Allocator;
use std::io::Write;

/// Writes the certificate of an animal under the seal of a book whose journal has so many steps.
pub fn write_sealed<W: Write, A: Allocator + Clone, F: Allocator>(
    alloc: A,
    frozen: &Frozen<F>,
    steps: u64,
    number: AnimalNumber,
    writer: &mut W,
) -> Result<(), NamedAnimalsFault>
    ensures ok { OnOk result
        (IsSealedTold frozen.now steps number (W.contents writer.old) (W.contents writer.new)) }
    ensures err { IfErr result
        (EndsSealed frozen.now steps number (W.contents writer.old) (W.contents writer.new)) }
    ensures untouched { is_there (book_of frozen.now) number ≡ false → writer.new ≡ writer.old }
{
    let Some(place) = frozen.rank(&number) else {
        return Err(NamedAnimalsFault::NotRegistered);
    };
    Ok(write_sealed_at(alloc, frozen, steps, place, writer)?)
}
