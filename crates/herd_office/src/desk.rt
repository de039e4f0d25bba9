//! The desks, and what they hold.
ghost use Rattle.std.specs.Prelude.{◌≡◌, ◌+◌, ◌<◌, ◌≤◌, length, IfOk, OnErr};
ghost use Rattle.std.specs.Prelude.{if◌then◌else◌, nat_lt};
ghost use mathlib.Core.List.{IsPrefix};
ghost use Rattle.herd_register.specs.Run.{IsLegal};
ghost use Rattle.herd_office.specs.Filing.{EndsWith};
ghost use Rattle.herd_office.specs.Histories.{of_desk};

use crate::filing::file_on;
use crate::history::History;
use crate::name::OfficeName;
use crate::office::Office;
use herd_register::{Command, FileFault, Reply};
use std::alloc::Allocator;
use std::sync::ledger::{Book, Share};
use std::sync::{MutexGuard, Wait};

/// A history of the office: the one that ends with a call that was answered, or the one that a desk holds.
#[derive(Drop)]
pub struct Slip<N: OfficeName> {
    pub(crate) history: History<N>,
}

impl<N: OfficeName> Slip<N> {
    /// How many steps its history has.
    pub fn steps(&self) -> u64
        ensures steps { result ≡ length self.now.history }
        ensures legal { IsLegal N.limits self.now.history }
    {
        self.history.len()
    }

    /// A copy.
    pub fn again(&self) -> Slip<N>
        ensures { result.history ≡ self.now.history }
    {
        Slip {
            history: self.history.again(),
        }
    }

    /// Takes over the history of another slip, where it is longer.
    pub fn learn(&mut self, other: &Slip<N>)
        ensures longer { self.new.history ≡ (if nat_lt (length self.old.history)
            (length other.now.history) then other.now.history else self.old.history) }
        ensures this { IsPrefix self.old.history self.new.history }
        ensures that { IsPrefix other.now.history self.new.history }
    {
        self.history.learn(&other.history);
    }
}

/// The answer to a call.
#[derive(Drop)]
pub struct Filed<N: OfficeName> {
    /// The number of its step in the journal, from 1.
    pub serial: u32,
    /// What was answered.
    pub reply: Reply,
    /// The history that ends with its step.
    pub slip: Slip<N>,
}

/// A desk. It counts its calls that were answered, and holds the history of the last one.
#[derive(Drop)]
pub struct Desk<N: OfficeName> {
    pub(crate) number: u16,
    pub(crate) answered: u64,
    pub(crate) share: Share<N>,
    pub(crate) history: History<N>,
    pub ghost from_one: { 1 ≤ number },
    pub ghost one_part: { share.parts ≡ 1 },
    pub ghost counted: { share.amount ≡ answered },
    pub ghost stored: { answered ≤ of_desk number history },
}

impl<N: OfficeName> Desk<N> {
    /// Counts a call that was answered.
    pub(crate) fn answer(&mut self, ledger: &mut Book<N>, history: History<N>)
        requires { self.old.answered + 1 ≤ of_desk self.old.number history }
        ensures total { ledger.new.total ≡ ledger.old.total + 1 }
        ensures answered { (self.new.answered ≡ self.old.answered + 1) × (self.new.number ≡ self.old.number)
            × (self.new.history ≡ history) }
    {
        let Desk {
            number: _,
            answered,
            share,
            history: held,
        } = self;
        ledger.add(share, 1);
        *answered += 1;
        *held = history;
    }

    /// Its number. The desks of an office count from 1.
    pub fn number(&self) -> u16
        ensures value { result ≡ self.now.number }
        ensures from_one { 1 ≤ result }
    {
        self.number
    }

    /// How many of its calls were answered.
    pub fn answered(&self) -> u64
        ensures value { result ≡ self.now.answered }
        ensures stored { result ≤ of_desk self.now.number self.now.history }
    {
        self.answered
    }

    /// A slip of its history: the one of the last call that was answered, and an empty one before the first.
    pub fn slip(&self) -> Slip<N>
        ensures { result.history ≡ self.now.history }
    {
        Slip {
            history: self.history.again(),
        }
    }

    /// Files a command. After a fault the desk is as it was.
    ///
    /// `JournalFull` is told where the journal has as many steps as the limits allow, `Memory` where a growth of memory
    /// is refused, and `NoReading` where `file_on` tells it: no office is known to meet that.
    pub fn file<W: Wait, R: Wait + Drop, A: Allocator + Copy>(
        &mut self,
        rt: &W,
        office: &Office<N, R, A>,
        command: Command,
    ) -> Result<Filed<N>, FileFault>
        ensures legal { IfOk result (λ f. IsLegal N.limits f.slip.history) }
        ensures begins { IfOk result (λ f. IsPrefix self.old.history f.slip.history) }
        ensures longer { IfOk result (λ f. length self.old.history < length f.slip.history) }
        ensures ends { IfOk result (λ f. EndsWith f.slip.history self.old.number command f.reply) }
        ensures serial { IfOk result (λ f. f.serial ≡ length f.slip.history) }
        ensures answered { IfOk result (λ _. self.new.answered ≡ self.old.answered + 1) }
        ensures held { IfOk result (λ f. self.new.history ≡ f.slip.history) }
        ensures number { self.new.number ≡ self.old.number }
        ensures not_answered { OnErr result (self.new.answered ≡ self.old.answered) }
        ensures not_held { OnErr result (self.new.history ≡ self.old.history) }
    {
        let mut inside = office.inside.lock(rt);
        let filed = file_on(rt, &mut *inside, self, command);
        MutexGuard::unlock(inside);
        filed
    }
}
