//! Which animals of a book a question is answered from.
ghost use Rattle.std.specs.Prelude.{◌++◌, IfOk, IsTrue};
ghost use Rattle.herd_session.specs.Scopes.{IsScopeOf, SufficesFor};
ghost use Rattle.herd_requests.specs.declared.question.Question.{Question};

use herd_animal::AnimalNumber;
use herd_requests::Question;
use std::alloc::{AllocError, Global};

// How many animals are looked for one by one. Where a question names more, all animals are read.
const MOST_NAMED: usize = 8;

/// Animals of a book.
#[derive(Drop)]
pub(crate) enum Scope {
    /// All of them.
    All,
    /// These, and all their known ancestors.
    Named(Vec<AnimalNumber>),
}

impl Scope {
    /// Whether what is answered from the animals of another one is also answered from these: they are all, or the same
    /// are named.
    pub(crate) fn covers(&self, other: &Scope) -> bool
        ensures { IsTrue result → (question : Question) → SufficesFor question other.now
            → SufficesFor question self.now }
    {
        match (self, other) {
            (Scope::All, _) => true,
            (Scope::Named(_), Scope::All) => false,
            (Scope::Named(ours), Scope::Named(theirs)) => ours.as_slice() == theirs.as_slice(),
        }
    }
}

/// The animals that a question is answered from.
pub(crate) fn scope_of(alloc: Global, question: &Question) -> Result<Scope, AllocError>
    ensures { IfOk result (SufficesFor question.now) }
{
    match question {
        Question::Coefficient(number) | Question::Record(number) => named(alloc, &[*number], &[]),
        Question::Certificates(numbers) | Question::Relationships(numbers) => {
            named(alloc, &[], numbers.as_slice())
        }
        Question::Mating { dam, sires } => named(alloc, &[*dam], sires.as_slice()),
        _ => Ok(Scope::All),
    }
}

// The animals of the first numbers and of the others, and all their known ancestors; all animals where there are more
// numbers than are looked for one by one.
fn named(
    alloc: Global,
    first: &[AnimalNumber],
    others: &[AnimalNumber],
) -> Result<Scope, AllocError>
    ensures { IfOk result (IsScopeOf (first.now ++ others.now)) }
{
    if MOST_NAMED < first.len().saturating_add(others.len()) {
        return Ok(Scope::All);
    }
    let mut numbers = Vec::new(alloc);
    numbers.extend_from_slice(first)?;
    numbers.extend_from_slice(others)?;
    Ok(Scope::Named(numbers))
}
