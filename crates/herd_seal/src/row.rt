ghost use Rattle.std.specs.Prelude.{◌≡◌, ◌<◌, ◌^◌, ◌++◌, OnOk, IfOk};
ghost use Rattle.std.specs.Option.{ForSome};
ghost use Rattle.merkle_tree.specs.Tree.{IsBytes, IsDigest, row_digest};
ghost use Rattle.herd_record_line.specs.RecordLine.{IsRecord, field_text};
ghost use Rattle.herd_seal.specs.Seal.{place_text, row_text, seal_over};

use herd_animal::AnimalNumber;
use herd_frozen::Animal;
use herd_record_line::push_record;
use herd_text::Text;
use merkle_tree::row_digest;
use sha2::{Digest, Sha256};
use std::alloc::{AllocError, Allocator};

/// The seal of so many animals after so many steps, over the root of the tree.
pub(crate) fn seal_over(animals: u64, steps: u64, root: &[u8; 32]) -> [u8; 32]
    ensures seal { result ≡ seal_over animals steps root.now }
    ensures root { IsDigest root.now }
{
    let mut hasher = Sha256::new();
    hasher.update(&[2u8]);
    hasher.update(&animals.to_be_bytes());
    hasher.update(&steps.to_be_bytes());
    hasher.update(root.as_slice());
    hasher.finalize()
}

/// The digest of a row, whose text is made anew.
pub(crate) fn digest_of_row<A: Allocator>(
    text: &mut Text<A>,
    sire: Option<u32>,
    dam: Option<u32>,
    number: AnimalNumber,
    animal: &Animal,
) -> Result<[u8; 32], AllocError>
    ensures digest { IfOk result (λ digest. digest ≡ row_digest (row_text sire dam number animal.now)) }
    ensures bytes { OnOk result (IsBytes (row_text sire dam number animal.now)) }
{
    text.clear();
    push_row(text, sire, dam, number, animal)?;
    Ok(digest_of(text.bytes()))
}

// The digest of a row's bytes.
fn digest_of(row: &[u8]) -> [u8; 32]
    ensures digest { result ≡ row_digest row.now }
    ensures bytes { IsBytes row.now }
{
    row_digest(row)
}

/// Adds a row: the places of the sire and the dam, where they are known, and the record.
#[tactic(auto, using(std::proofs::Common::append_assoc), unfolding(crate::specs::Seal::row_text))]
pub fn push_row<A: Allocator>(
    text: &mut Text<A>,
    sire: Option<u32>,
    dam: Option<u32>,
    number: AnimalNumber,
    animal: &Animal,
) -> Result<(), AllocError>
    ensures text { OnOk result (text.new ≡ text.old ++ row_text sire dam number animal.now) }
    ensures sire { OnOk result (ForSome sire (λ place. place < 2 ^ 32)) }
    ensures dam { OnOk result (ForSome dam (λ place. place < 2 ^ 32)) }
    ensures told { OnOk result (IsRecord number animal.now) }
{
    push_place(text, sire)?;
    push_place(text, dam)?;
    push_record(text, number, animal)
}

// Adds the place of a parent, where it is known, and the comma behind it.
#[tactic(auto, using(std::proofs::Common::append_assoc), unfolding(herd_record_line::specs::RecordLine::field_text))]
fn push_place<A: Allocator>(text: &mut Text<A>, place: Option<u32>) -> Result<(), AllocError>
    ensures text { OnOk result (text.new ≡ text.old ++ field_text (place_text place)) }
    ensures small { OnOk result (ForSome place (λ place. place < 2 ^ 32)) }
{
    push_known(text, place)?;
    text.push(b",")
}

// Adds a place, where it is known.
fn push_known<A: Allocator>(text: &mut Text<A>, place: Option<u32>) -> Result<(), AllocError>
    ensures text { OnOk result (text.new ≡ text.old ++ place_text place) }
    ensures small { OnOk result (ForSome place (λ place. place < 2 ^ 32)) }
{
    match place {
        Some(place) => text.push_number(place),
        None => Ok(()),
    }
}
