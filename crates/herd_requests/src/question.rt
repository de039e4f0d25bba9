//! What an inspector is asked.
ghost use Rattle.std.specs.Prelude.{◌≡◌, ◌≢◌, ◌<◌, ◌≤◌, IfErr, IfOk, Some, drop, length};
ghost use Rattle.herd_animal.specs.AnimalNumber.{IsAnimalNumber};
ghost use Rattle.csv.specs.Records.{fields_of};
ghost use Rattle.csv_records.specs.Fields.{field};
ghost use Rattle.herd_requests.specs.Questions.{CanBeUnread, IsAskedIn, IsNumberFault, word_in};
ghost use Rattle.herd_requests.specs.declared.word.Word.TheVariants as word;

use crate::fault::Fault;
use crate::word::Word;
use csv::ByteRecord;
use csv_records::field;
use herd_animal::AnimalNumber;
use herd_command_file::LineCause;
use std::alloc::Global;

/// What an inspector is asked.
#[derive(Drop)]
pub enum Question {
    /// Each animal's coefficient.
    Inbreeding,
    /// What each animal adds to the inverse relationship matrix.
    Inverse,
    /// The certificates of some animals.
    Certificates(Vec<AnimalNumber>),
    /// For each sire the coefficient of a calf of his and the dam's.
    Mating {
        dam: AnimalNumber,
        sires: Vec<AnimalNumber>,
    },
    /// The relationship of each two of some animals.
    Relationships(Vec<AnimalNumber>),
    /// The coefficient of one animal.
    Coefficient(AnimalNumber),
    /// What the book keeps of each animal.
    Records,
    /// What the book keeps of one animal.
    Record(AnimalNumber),
    /// The seal of the book.
    Seal,
    /// The certificate of one animal under the seal of the book.
    Sealed(AnimalNumber),
    /// How many steps the inspector has seen.
    Seen,
}

/// The question in a record, behind the tag, `inspector` and the inspector's number.
pub(crate) fn question_in(alloc: Global, row: &ByteRecord) -> Result<Question, Fault>
    ensures asked { IfOk result (IsAskedIn (fields_of row.now)) }
    ensures unread { IfErr result (CanBeUnread (fields_of row.now)) }
{
    match Word::parse(field(row, 3)) {
        Some(Word::Inbreeding) => bare(row, Question::Inbreeding),
        Some(Word::Inverse) => bare(row, Question::Inverse),
        Some(Word::Records) => bare(row, Question::Records),
        Some(Word::Seal) => bare(row, Question::Seal),
        Some(Word::Seen) => bare(row, Question::Seen),
        Some(Word::Coefficient) => Ok(Question::Coefficient(only_number(row)?)),
        Some(Word::Record) => Ok(Question::Record(only_number(row)?)),
        Some(Word::Sealed) => Ok(Question::Sealed(only_number(row)?)),
        Some(Word::Certificate) => {
            let numbers = numbers_from(alloc, row, 4, LineCause::Animal)?;
            Ok(Question::Certificates(numbers))
        }
        Some(Word::Mating) => mating(alloc, row),
        Some(Word::Relationships) => {
            let numbers = numbers_from(alloc, row, 4, LineCause::Animal)?;
            Ok(Question::Relationships(numbers))
        }
        None => Err(Fault::Question),
    }
}

// A question with no fields behind its word.
fn bare(row: &ByteRecord, question: Question) -> Result<Question, Fault>
    ensures same { IfOk result (λ r. r ≡ question) }
    ensures length { IfOk result (λ _. length (fields_of row.now) ≡ 4) }
    ensures fault { IfErr result (λ f. f ≡ Fault.Fields LineCause.Fields) }
    ensures miscounted { IfErr result (λ _. length (fields_of row.now) ≢ 4) }
{
    if row.len() != 4 {
        return Err(Fault::Fields(LineCause::Fields));
    }
    Ok(question)
}

// The one number behind the word.
fn only_number(row: &ByteRecord) -> Result<AnimalNumber, Fault>
    ensures number { IfOk result (λ number. field 4 (fields_of row.now) ≡ number) }
    ensures length { IfOk result (λ _. length (fields_of row.now) ≡ 5) }
    ensures fault { IfErr result
        (IsNumberFault LineCause.Animal (fields_of row.now) 4 (length (fields_of row.now) ≢ 5)) }
{
    if row.len() != 5 {
        return Err(Fault::Fields(LineCause::Fields));
    }
    number(field(row, 4), LineCause::Animal)
}

// A dam, and the sires behind her.
fn mating(alloc: Global, row: &ByteRecord) -> Result<Question, Fault>
    requires { word_in (fields_of row.now) ≡ Some word.Mating }
    ensures asked { IfOk result (IsAskedIn (fields_of row.now)) }
    ensures unread { IfErr result (CanBeUnread (fields_of row.now)) }
{
    if row.len() < 6 {
        return Err(Fault::Fields(LineCause::Fields));
    }
    let dam = number(field(row, 4), LineCause::Dam)?;
    let sires = numbers_from(alloc, row, 5, LineCause::Sire)?;
    Ok(Question::Mating { dam, sires })
}

// The numbers in the fields from a place on, of which there is one at least.
fn numbers_from(
    alloc: Global,
    row: &ByteRecord,
    place: usize,
    cause: LineCause,
) -> Result<Vec<AnimalNumber>, Fault>
    ensures numbers { IfOk result (λ numbers. drop place (fields_of row.now) ≡ numbers.items) }
    ensures some { IfOk result (λ _. place < length (fields_of row.now)) }
    ensures fault { IfErr result (IsNumberFault cause (fields_of row.now) place (length (fields_of row.now) ≤ place)) }
{
    if row.len() <= place {
        return Err(Fault::Fields(LineCause::Fields));
    }
    let mut numbers = Vec::new(alloc);
    for at in place..row.len() {
        let number = number(field(row, at), cause)?;
        numbers.push(number)?;
    }
    Ok(numbers)
}

// The animal number that a field is.
fn number(text: &[u8], cause: LineCause) -> Result<AnimalNumber, Fault>
    ensures number { IfOk result (λ number. text.now ≡ number) }
    ensures fault { IfErr result (λ fault. fault ≡ Fault.Fields cause) }
    ensures none { IfErr result (λ _. IsAnimalNumber text.now → ⊥) }
{
    AnimalNumber::parse(text).or(Err(Fault::Fields(cause)))
}
