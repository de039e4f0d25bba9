//! A frozen book, or a part of one, that is kept for the questions to come.
ghost use Rattle.std.specs.Prelude.{◌≡◌, ◌↔◌, IfErr, IfOk, IsSome, IsTrue, OnOk, length};
ghost use Rattle.std.specs.Option.{ForSome};
ghost use Rattle.std.specs.Io.KnownBytes.{Appends};
ghost use mathlib.Core.List.{IsPrefix};
ghost use Rattle.herd_frozen.specs.declared.TheConstants.{DEPTH_LIMIT};
ghost use Rattle.herd_advice.specs.BookCoefficients.{AreBookCoefficients};
ghost use Rattle.herd_register.specs.Run.{commands_of, run_book};
ghost use Rattle.herd_session.specs.Texts.{CanBeUnanswered, EndsText, IsReadyFor, text_of};
ghost use Rattle.herd_session.specs.Scopes.{IsReadIn, SufficesFor};

use crate::report_text::ReportText;
use crate::scope::{Scope, scope_of};
use herd_advice::{Coefficients, coefficients_of, coefficients_plain};
use herd_animal::AnimalNumber;
use herd_frozen::Frozen;
use herd_office::{Inspector, OfficeName, Slip};
use herd_report::{
    NamedAnimalsFault, ReportFault, write_certificates, write_coefficient, write_inbreeding,
    write_inverse, write_mating, write_records, write_relationships,
};
use herd_requests::{Fault, Question};
use herd_sealed_report::{write_seal, write_sealed};
use std::alloc::Global;
use std::io::Write;

/// A frozen book, or the part of one that a question asked for, and the history that it was made of.
#[derive(Drop)]
pub(crate) struct Reading<N: OfficeName> {
    pub(crate) of: Slip<N>,
    /// Which animals it has.
    pub(crate) scope: Scope,
    frozen: Frozen<Global>,
    /// The coefficients of all animals, once a question wants them. One that names animals has theirs alone computed.
    pub(crate) all: Option<Coefficients<Global>>,
    pub ghost book: { ∥ IsReadIn scope (run_book N.limits (commands_of of.history)) frozen ∥₁ },
    pub ghost known: { ForSome all (AreBookCoefficients DEPTH_LIMIT frozen) },
}

impl<N: OfficeName> Reading<N> {
    /// With the coefficients of all animals, where a question wants them.
    pub(crate) fn ready_for(self, alloc: Global, question: &Question) -> Result<Reading<N>, Fault>
        ensures of { IfOk result (λ reading. reading.of.history ≡ self.of.history) }
        ensures scope { IfOk result (λ reading. reading.scope ≡ self.scope) }
        ensures frozen { IfOk result (λ reading. reading.frozen ≡ self.frozen) }
        ensures ready { IfOk result (λ reading. IsReadyFor question.now reading.all) }
    {
        match question {
            Question::Inbreeding | Question::Inverse => self.with_all(alloc),
            _ => Ok(self),
        }
    }

    // With the coefficients of all animals.
    fn with_all(self, alloc: Global) -> Result<Reading<N>, Fault>
        ensures of { IfOk result (λ reading. reading.of.history ≡ self.of.history) }
        ensures scope { IfOk result (λ reading. reading.scope ≡ self.scope) }
        ensures frozen { IfOk result (λ reading. reading.frozen ≡ self.frozen) }
        ensures all { IfOk result (λ reading. IsSome reading.all) }
    {
        if self.all.is_some() {
            return Ok(self);
        }
        let all = coefficients_plain(alloc, &self.frozen)?;
        Ok(Reading {
            of: self.of,
            scope: self.scope,
            frozen: self.frozen,
            all: Some(all),
        })
    }

    // The coefficients of all animals, which were computed.
    fn all(&self) -> &Coefficients<Global>
        requires { IsSome self.now.all }
        ensures { AreBookCoefficients DEPTH_LIMIT self.now.frozen result.now }
    {
        match &self.all {
            Some(all) => all,
            None => unreachable!(),
        }
    }

    /// The text that answers a question.
    pub(crate) fn report(&self, alloc: Global, question: &Question) -> Result<Vec<u8>, Fault>
        requires { IsReadyFor question.now self.now.all }
        ensures text { IfOk result (λ text. text.items
            ≡ text_of question.now (length self.now.of.history) self.now.frozen) }
        ensures fault { IfErr result (CanBeUnanswered question.now (length self.now.of.history) self.now.frozen) }
    {
        let mut text = ReportText::new(alloc);
        match self.write(alloc, question, &mut text) {
            Ok(()) => Ok(text.bytes),
            Err(NamedAnimalsFault::NotRegistered) => Err(Fault::NotRegistered),
            Err(NamedAnimalsFault::Report(ReportFault::Write)) if text.is_full() => {
                Err(Fault::TooLong)
            }
            Err(NamedAnimalsFault::Report(_)) => Err(Fault::Memory),
        }
    }

    // Writes the text that answers a question.
    fn write<W: Write>(
        &self,
        alloc: Global,
        question: &Question,
        writer: &mut W,
    ) -> Result<(), NamedAnimalsFault>
        requires { IsReadyFor question.now self.now.all }
        ensures ok { OnOk result
            (Appends (W.contents writer.old) (W.contents writer.new)
            (text_of question.now (length self.now.of.history) self.now.frozen)) }
        ensures err { IfErr result
            (EndsText question.now (length self.now.of.history) self.now.frozen
            (W.contents writer.old) (W.contents writer.new)) }
    {
        let frozen = &self.frozen;
        match question {
            Question::Inbreeding => write_inbreeding(alloc, frozen, self.all(), writer)?,
            Question::Inverse => write_inverse(alloc, frozen, self.all(), writer)?,
            Question::Certificates(numbers) => {
                let numbers = numbers.as_slice();
                let known = coefficients_of(alloc, frozen, numbers)?;
                write_certificates(alloc, frozen, &known, numbers, writer)?
            }
            Question::Mating { dam, sires } => {
                let known = coefficients_of(alloc, frozen, &[*dam])?;
                write_mating(alloc, frozen, &known, *dam, sires.as_slice(), writer)?
            }
            Question::Relationships(numbers) => {
                let numbers = numbers.as_slice();
                let known = coefficients_of(alloc, frozen, numbers)?;
                write_relationships(alloc, frozen, &known, numbers, &[], writer)?
            }
            Question::Coefficient(number) => {
                let known = coefficients_of(alloc, frozen, &[*number])?;
                write_coefficient(alloc, frozen, &known, *number, writer)?
            }
            Question::Records => write_records(alloc, frozen, &[], writer)?,
            Question::Record(number) => write_records(alloc, frozen, &[*number], writer)?,
            Question::Seal => write_seal(alloc, frozen, self.of.steps(), writer)?,
            Question::Sealed(number) => {
                write_sealed(alloc, frozen, self.of.steps(), *number, writer)?
            }
            Question::Seen => {}
        }
        Ok(())
    }

    // Whether it is of the history that an inspector holds.
    fn is_of(&self, inspector: &Inspector<N>) -> bool
        ensures { IsTrue result ↔ (self.now.of.history ≡ inspector.now.history) }
    {
        let mut both = inspector.slip();
        both.learn(&self.of);
        self.of.steps() == inspector.steps_seen()
    }
}

/// A reading of all that an inspector has seen, which has the animals that a question is answered from: the one that is
/// kept, or a new one. Where the one that was kept is of the same history, and has others, the new one has all of
/// them, for the questions to come.
pub(crate) fn current<N: OfficeName>(
    alloc: Global,
    inspector: &mut Inspector<N>,
    kept: Option<Reading<N>>,
    question: &Question,
) -> Result<Reading<N>, Fault>
    ensures of { IfOk result (λ reading. reading.of.history ≡ inspector.new.history) }
    ensures seen { IsPrefix inspector.old.history inspector.new.history }
    ensures scope { IfOk result (λ reading. SufficesFor question.now reading.scope) }
{
    let scope = scope_of(alloc, question)?;
    if let Some(reading) = kept {
        if reading.is_of(inspector) {
            if reading.scope.covers(&scope) {
                return Ok(reading);
            }
            return whole(alloc, inspector);
        }
    }
    match scope {
        Scope::All => whole(alloc, inspector),
        Scope::Named(numbers) => part(alloc, inspector, numbers),
    }
}

// A reading of all animals.
fn whole<N: OfficeName>(alloc: Global, inspector: &mut Inspector<N>) -> Result<Reading<N>, Fault>
    ensures of { IfOk result (λ reading. reading.of.history ≡ inspector.new.history) }
    ensures seen { IsPrefix inspector.old.history inspector.new.history }
    ensures scope { IfOk result (λ reading. reading.scope ≡ Scope.All) }
{
    let frozen = inspector.freeze(alloc)?;
    Ok(Reading {
        of: inspector.slip(),
        scope: Scope::All,
        frozen,
        all: None,
    })
}

// A reading of the animals of these numbers and of all their known ancestors.
fn part<N: OfficeName>(
    alloc: Global,
    inspector: &mut Inspector<N>,
    numbers: Vec<AnimalNumber>,
) -> Result<Reading<N>, Fault>
    ensures of { IfOk result (λ reading. reading.of.history ≡ inspector.new.history) }
    ensures seen { IsPrefix inspector.old.history inspector.new.history }
    ensures scope { IfOk result (λ reading. reading.scope ≡ Scope.Named numbers) }
{
    let frozen = inspector.freeze_ancestors(alloc, numbers.as_slice())?;
    Ok(Reading {
        of: inspector.slip(),
        scope: Scope::Named(numbers),
        frozen,
        all: None,
    })
}
