//! What one field means, or the cause that its column gives.
ghost use Rattle.std.specs.Prelude.{◌≡◌, if◌then◌else◌};
ghost use Rattle.herd_command_file.specs.Field.{day_in, herd_in, is_animal_number, is_day, is_embryo};
ghost use Rattle.herd_command_file.specs.Field.{is_embryo_flag, is_empty, is_herd, is_parent, is_unknown, parent_in};

use crate::line_fault::LineCause;
use herd_animal::{AnimalNumber, Day, Herd};

/// The animal number that a field is.
// Not inlined: a birth calls it for three fields.
#[inline(never)]
pub(crate) fn animal(text: &[u8], cause: LineCause) -> Result<AnimalNumber, LineCause>
    ensures { result ≡ (if is_animal_number text.now then Ok text.now else Err cause) }
{
    AnimalNumber::parse(text).or(Err(cause))
}

/// The day that a field tells.
pub(crate) fn day(text: &[u8], cause: LineCause) -> Result<Day, LineCause>
    ensures { result ≡ (if is_day text.now then Ok (day_in text.now) else Err cause) }
{
    Day::parse(text).or(Err(cause))
}

/// The herd that a field tells.
pub(crate) fn herd(text: &[u8], cause: LineCause) -> Result<Herd, LineCause>
    ensures { result ≡ (if is_herd text.now then Ok (herd_in text.now) else Err cause) }
{
    Herd::parse(text).or(Err(cause))
}

#[tactic(auto, unfolding(crate::specs::Field::is_unknown))]
fn is_unknown(text: &[u8]) -> bool
    ensures { result ≡ is_unknown text.now }
{
    text.is_empty() || text == b"0".as_slice()
}

/// The parent that a field names: none where it's empty or `0`.
#[tactic(auto, unfolding(crate::specs::Field::is_parent, crate::specs::Field::parent_in))]
pub(crate) fn parent(text: &[u8], cause: LineCause) -> Result<Option<AnimalNumber>, LineCause>
    ensures { result ≡ (if is_parent text.now then Ok (parent_in text.now) else Err cause) }
{
    if is_unknown(text) {
        Ok(None)
    } else {
        Ok(Some(animal(text, cause)?))
    }
}

/// Whether a birth is of an embryo: `1`, or empty where it isn't.
#[tactic(auto, unfolding(crate::specs::Field::is_embryo, crate::specs::Field::is_embryo_flag))]
pub(crate) fn embryo(text: &[u8], cause: LineCause) -> Result<bool, LineCause>
    ensures { result ≡ (if is_embryo_flag text.now then Ok (is_embryo text.now) else Err cause) }
{
    if text == b"1".as_slice() {
        Ok(true)
    } else if text.is_empty() {
        Ok(false)
    } else {
        Err(cause)
    }
}

/// Nothing, as in each field that a command doesn't use.
pub(crate) fn unused(text: &[u8]) -> Result<(), LineCause>
    ensures { result ≡ (if is_empty text.now then Ok tt else Err LineCause.FieldNotUsed) }
{
    if text.is_empty() {
        Ok(())
    } else {
        Err(LineCause::FieldNotUsed)
    }
}
