//! The number of an animal in a text.
ghost use Rattle.std.specs.Prelude.{◌≡◌, ◌<◌, ◌^◌, ℕ, IfNone, IfSome, decimal};
ghost use Rattle.herd_pedigree_file.specs.Number.{rank_in};

use itoa::Buffer;

/// The rank of the animal whose number a text is, among the first so many: the animal of the first record has the
/// number 1 and the rank 0. A number has no sign and no leading zero.
pub fn rank_in(text: &[u8], animals: u32) -> Option<u32>
    ensures rank { result ≡ rank_in animals text.now }
    ensures within { IfSome result (λ rank. rank < animals) }
{
    let number = number_in(text)?;
    if number == 0 {
        return None;
    }
    if animals < number {
        return None;
    }
    Some(number - 1)
}

// The number that a text writes in decimal.
fn number_in(text: &[u8]) -> Option<u32>
    ensures number { IfSome result (λ number. text.now ≡ decimal number) }
    ensures none { IfNone result ((number : ℕ) → number < 2 ^ 32 → text.now ≡ decimal number → ⊥) }
{
    let Ok(characters) = str::from_utf8(text) else {
        return None;
    };
    let Ok(number) = characters.parse::<u32>() else {
        return None;
    };
    if Buffer::new().format(number).as_bytes() == text {
        Some(number)
    } else {
        None
    }
}
