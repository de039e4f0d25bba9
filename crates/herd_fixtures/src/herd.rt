//! Herds, written short.

ghost use Rattle.std.specs.Prelude.{◌≡◌, ◌≤◌};

use herd_animal::Herd;

/// The herd of a number with one digit.
pub fn herd_of(number: u8) -> Herd
    requires { (1 ≤ number) × (number ≤ 9) }
    ensures { result ≡ number }
{
    Herd::try_from(u32::from(number)).unwrap()
}
