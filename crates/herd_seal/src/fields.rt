//! The fields of a certificate's lines, each of which has one spelling.
ghost use Rattle.std.specs.Prelude.{◌≡◌, ◌↔◌, ◌<◌, ◌^◌, decimal, IfNone, IfSome, IsTrue};
ghost use Rattle.std.specs.Option.{ForSome};
ghost use Rattle.std.specs.Str.Parse.{digits_value, without_leading_plus};
ghost use Rattle.hex.specs.Hex.{encode_lower};
ghost use Rattle.merkle_tree.specs.Tree.{IsDigest};
ghost use Rattle.herd_animal.specs.AnimalNumber.{IsAnimalNumber};
ghost use Rattle.herd_seal.specs.Reading.{IsDigestText, IsNumberText, IsParentText};
ghost use Rattle.herd_seal.specs.Seal.{place_text};

use herd_animal::AnimalNumber;
use hex::{FromHex, encode_to_slice};
use itoa::Buffer;

/// The number that a text is in decimal, with no leading zero.
pub(crate) fn read_number(text: &[u8]) -> Option<u64>
    ensures some { IfSome result (λ number. decimal number ≡ text.now) }
    ensures small { IfSome result (λ number. number < 2 ^ 64) }
    ensures none { IfNone result (¬ (IsNumberText (2 ^ 64) text.now)) }
{
    let number = parse_number(text)?;
    if Buffer::new().format(number).as_bytes() == text {
        Some(number)
    } else {
        None
    }
}

// The number that the digits of a text are, behind a plus or not, with leading zeros or without.
fn parse_number(text: &[u8]) -> Option<u64>
    ensures some { IfSome result (λ number. number ≡ digits_value 10 (without_leading_plus text.now)) }
    ensures none { IfNone result (¬ (IsNumberText (2 ^ 64) text.now)) }
{
    match str::from_utf8(text) {
        Ok(digits) => digits.parse::<u64>().ok(),
        Err(_) => None,
    }
}

/// The place that a text is.
pub(crate) fn read_place(text: &[u8]) -> Option<u32>
    ensures some { IfSome result (λ place. decimal place ≡ text.now) }
    ensures small { IfSome result (λ place. place < 2 ^ 32) }
    ensures none { IfNone result (¬ (IsNumberText (2 ^ 32) text.now)) }
{
    let number = read_number(text)?;
    if number > u64::from(u32::MAX) {
        return None;
    }
    Some(number as u32)
}

/// The place of a parent, which is empty where it isn't known.
pub(crate) fn read_parent(text: &[u8]) -> Option<Option<u32>>
    ensures some { IfSome result (λ place. place_text place ≡ text.now) }
    ensures small { IfSome result (λ place. ForSome place (λ p. p < 2 ^ 32)) }
    ensures none { IfNone result (¬ (IsParentText text.now)) }
{
    if text.is_empty() {
        return Some(None);
    }
    Some(Some(read_place(text)?))
}

/// The number of an animal that a text is.
pub(crate) fn read_animal_number(text: &[u8]) -> Option<AnimalNumber>
    ensures some { IfSome result (λ number. number ≡ text.now) }
    ensures told { IfSome result IsAnimalNumber }
    ensures none { IfNone result (¬ (IsAnimalNumber text.now)) }
{
    AnimalNumber::parse(text).ok()
}

/// The digest that a text is in lower-case hex.
pub(crate) fn read_digest(text: &[u8]) -> Option<[u8; 32]>
    ensures written { IfSome result (λ digest. encode_lower digest ≡ text.now) }
    ensures digest { IfSome result IsDigest }
    ensures none { IfNone result (¬ (IsDigestText text.now)) }
{
    let digest = <[u8; 32]>::from_hex(text).ok()?;
    if is_written(&digest, text) {
        Some(digest)
    } else {
        None
    }
}

// Whether a text is the digest in lower-case hex.
fn is_written(digest: &[u8; 32], text: &[u8]) -> bool
    ensures written { IsTrue result ↔ (encode_lower digest.now ≡ text.now) }
    ensures digest { IsDigest digest.now }
{
    let mut written = [0u8; 64];
    encode_to_slice(digest.as_slice(), &mut written).is_ok() && written.as_slice() == text
}
