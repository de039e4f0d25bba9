//! The record that a text is.
ghost use Rattle.std.specs.Prelude.{◌≡◌, ◌↔◌, ℕ, List, ◌++◌, ◌∷◌, decimal, IfNone, IfSome, IsTrue, Some};
ghost use Rattle.std.specs.Option.{ForSome};
ghost use Rattle.herd_animal.specs.AnimalNumber.{IsAnimalNumber};
ghost use Rattle.herd_animal.specs.Day.{IsDay, day_number, day_text};
ghost use Rattle.herd_animal.specs.Herd.{IsHerd, IsHerdNumber};
ghost use Rattle.herd_frozen.specs.declared.rules.animal.Animal.{Animal};
ghost use Rattle.herd_record_line.specs.RecordLine.{HasNo, IsEmbryoText, IsKnownText, IsLeftText, IsRecord};
ghost use Rattle.herd_record_line.specs.RecordLine.{IsRecordText, IsWrittenDay};
ghost use Rattle.herd_record_line.specs.RecordLine.{embryo_text, known_text, left_text, record_text};

use herd_animal::{AnimalNumber, Day, Herd};
use herd_frozen::Animal;

/// An animal's number, and what a book keeps of it.
#[derive(Clone, Copy, Debug, PartialEq, Eq)]
pub struct Record {
    pub number: AnimalNumber,
    pub animal: Animal,
}

/// The record that a text is, which is written so and not otherwise; else there is none. What is written of a record is
/// read as this record.
pub fn read_record(text: &[u8]) -> Option<Record>
    ensures some { IfSome result (λ r. record_text r.number r.animal ≡ text.now) }
    ensures none { IfNone result (¬ (IsRecordText text.now)) }
    ensures told { IfSome result (λ r. IsRecord r.number r.animal) }
    ensures back { (number : List ℕ) (animal : Animal) → IsRecord number animal → record_text number animal ≡ text.now
        → result ≡ Some (record { number = number; animal = animal }) }
{
    read_fields(text)
}

// The record that the fields of a text are.
fn read_fields(text: &[u8]) -> Option<Record>
    ensures some { IfSome result (λ r. record_text r.number r.animal ≡ text.now) }
    ensures none { IfNone result (¬ (IsRecordText text.now)) }
    ensures told { IfSome result (λ r. IsRecord r.number r.animal) }
{
    let (number, rest) = cut(text, b',')?;
    let (birth, rest) = cut(rest, b',')?;
    let (sire, rest) = cut(rest, b',')?;
    let (dam, rest) = cut(rest, b',')?;
    let (herd, rest) = cut(rest, b',')?;
    let (since, rest) = cut(rest, b',')?;
    let (left, embryo) = cut(rest, b',')?;
    let animal = Animal {
        birth: read_day(birth)?,
        sire: read_known(sire)?,
        dam: read_known(dam)?,
        embryo: read_embryo(embryo)?,
        herd: read_herd(herd)?,
        since: read_day(since)?,
        left: read_left(left)?,
    };
    Some(Record {
        number: read_number(number)?,
        animal,
    })
}

/// What stands before the first of a character, and what stands behind it. There is none where the text lacks it.
pub fn cut(text: &[u8], character: u8) -> Option<(&[u8], &[u8])>
    ensures joined { IfSome result (λ parts. parts.0.now ++ character ∷ parts.1.now ≡ text.now) }
    ensures first { IfSome result (λ parts. HasNo character parts.0.now) }
    ensures none { IfNone result (HasNo character text.now) }
{
    let place = text.iter().position(|other| *other == character)?;
    Some((&text[..place], &text[place + 1..]))
}

fn read_number(text: &[u8]) -> Option<AnimalNumber>
    ensures some { IfSome result (λ number. number ≡ text.now) }
    ensures none { IfNone result (¬ (IsAnimalNumber text.now)) }
    ensures told { IfSome result IsAnimalNumber }
{
    AnimalNumber::parse(text).ok()
}

fn read_day(text: &[u8]) -> Option<Day>
    ensures some { IfSome result (λ day. day_text day ≡ text.now) }
    ensures none { IfNone result (¬ (IsDay text.now)) }
    ensures told { IfSome result IsWrittenDay }
{
    let Ok(day) = Day::parse(text) else {
        return None;
    };
    if is_written(day, text) {
        Some(day)
    } else {
        None
    }
}

// Whether a text is the day's.
fn is_written(day: Day, text: &[u8]) -> bool
    ensures written { IsTrue result ↔ (day_text day ≡ text.now) }
    ensures only { (other : List ℕ) → IsDay other → day_number other ≡ day → other ≡ day_text day }
    ensures told { IsWrittenDay day }
{
    day.text().as_slice() == text
}

fn read_herd(text: &[u8]) -> Option<Herd>
    ensures some { IfSome result (λ herd. decimal herd ≡ text.now) }
    ensures none { IfNone result (¬ (IsHerd text.now)) }
    ensures told { IfSome result IsHerdNumber }
{
    let herd = Herd::parse(text).ok()?;
    prove!(herd.number() > 0);
    Some(herd)
}

fn read_known(text: &[u8]) -> Option<Option<AnimalNumber>>
    ensures some { IfSome result (λ parent. known_text parent ≡ text.now) }
    ensures none { IfNone result (¬ (IsKnownText text.now)) }
    ensures told { IfSome result (λ parent. ForSome parent IsAnimalNumber) }
{
    if text == b"0".as_slice() {
        return Some(None);
    }
    Some(Some(read_number(text)?))
}

fn read_left(text: &[u8]) -> Option<Option<Day>>
    ensures some { IfSome result (λ left. left_text left ≡ text.now) }
    ensures none { IfNone result (¬ (IsLeftText text.now)) }
    ensures told { IfSome result (λ left. ForSome left IsWrittenDay) }
{
    if text == b"-".as_slice() {
        return Some(None);
    }
    Some(Some(read_day(text)?))
}

fn read_embryo(text: &[u8]) -> Option<bool>
    ensures some { IfSome result (λ embryo. embryo_text embryo ≡ text.now) }
    ensures none { IfNone result (¬ (IsEmbryoText text.now)) }
{
    if text.is_empty() {
        Some(false)
    } else if text == b"1".as_slice() {
        Some(true)
    } else {
        None
    }
}
