//! What lies under an office's lock.
ghost use Rattle.std.specs.Prelude.{map, ◌≡◌, ◌↔◌, IsTrue, [], length};
ghost use Rattle.herd_office.specs.Beginnings.{BeginsWithAll};
ghost use Rattle.herd_office.specs.Histories.{Apart};
ghost use Rattle.herd_office.specs.Shelves.{AreOf, pending, published};

use crate::copies::Held;
use crate::desk::Desk;
use crate::desks::all_apart;
use crate::history::History;
use crate::inspector::Inspector;
use crate::keeper::Keeper;
use crate::name::OfficeName;
use herd_register::Register;
use std::alloc::{Allocator, Global};
use std::sync::Wait;
use std::sync::ledger::{Book, Share};

/// What lies under the lock: the register, the ledger of the desks' calls, the history, and the readers' copies.
///
/// The register is legal, the total is the length of its journal, the published records are those of that journal, and
/// nothing is pending.
#[derive(Drop)]
pub struct Inside<N: OfficeName, R: Wait + Drop, A: Allocator = Global> {
    pub(crate) register: Register<A>,
    /// How many calls were answered in all.
    pub(crate) ledger: Book<N>,
    /// The share of the ledger that no desk has, which is empty.
    pub(crate) rest: Share<N>,
    pub(crate) keeper: Keeper<N>,
    pub(crate) copies: Held<R>,
    pub ghost limits: { register.limits ≡ N.limits },
    pub ghost counted: { length register.journal ≡ ledger.total },
    pub ghost shown: { AreOf (published copies.writer) register.journal N.limits N.book },
    pub ghost settled: { pending copies.writer ≡ [] },
    pub ghost kept: { keeper.history ≡ register.journal },
    pub ghost none_left: { (rest.parts ≡ 0) × (rest.amount ≡ 0) },
}

impl<N: OfficeName, R: Wait + Drop, A: Allocator> Inside<N, R, A> {
    /// Whether the journal begins with each history, and the desks' numbers differ.
    pub(crate) fn begins(&self, desks: &[Desk<N>], inspectors: &[Inspector<N>]) -> bool
        ensures { IsTrue result ↔ (Apart (map (λ d. d.number) desks.now)
            × BeginsWithAll (λ d. d.history) desks.now self.now.register.journal
            × BeginsWithAll (λ i. i.history) inspectors.now self.now.register.journal) }
    {
        all_apart(desks)
            && all_begin(desks, &self.keeper.history)
            && all_begin(inspectors, &self.keeper.history)
    }

    /// The register, once the share that is handed in has every part.
    pub(crate) fn end<W: Wait>(self, rt: &W, mut all: Share<N>) -> Register<A>
        requires { all.parts ≡ N.parts }
        ensures register { result ≡ self.register }
        ensures sum { length result.journal ≡ all.amount }
    {
        let Inside {
            register,
            mut ledger,
            rest: _rest,
            keeper: _keeper,
            copies,
        } = self;
        ledger.audit(&mut all);
        copies.free(rt);
        register
    }
}

// Who holds a beginning of an office's history.
trait Holder<N: OfficeName> {
    ghost use Rattle.std.specs.Prelude.{List};
    ghost use Rattle.herd_register.specs.declared.step.Step.{Step};

    ghost held: { Self → List Step };

    fn history(&self) -> &History<N>
        ensures { result.now ≡ held self.now };
}

impl<N: OfficeName> Holder<N> for Desk<N> {
    ghost held = { λ d. d.history };

    fn history(&self) -> &History<N> {
        &self.history
    }
}

impl<N: OfficeName> Holder<N> for Inspector<N> {
    ghost held = { λ i. i.history };

    fn history(&self) -> &History<N> {
        &self.history
    }
}

// Whether the history begins with each of theirs.
fn all_begin<N: OfficeName, H: Holder<N>>(holders: &[H], history: &History<N>) -> bool
    ensures { IsTrue result ↔ BeginsWithAll H.held holders.now history.now }
{
    for holder in holders {
        if !holder.history().begins(history) {
            return false;
        }
    }
    true
}
