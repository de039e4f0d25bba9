ghost use Rattle.std.specs.Option.{option_copied};
ghost use Rattle.std.specs.Prelude.{◌≡◌, ◌≢◌, ◌<◌, ◌≤◌, ◌↔◌, [], IsFalse, IsTrue, IfOk, OnErr, OnOk};
ghost use Rattle.std.specs.Prelude.{length};
ghost use Rattle.herd_register.specs.declared.limits.TheConstants.{MOST_STEPS};
ghost use Rattle.herd_register.specs.declared.reply.Refusal.{Refusal};
ghost use Rattle.herd_register.specs.Change.{IsLastChange};
ghost use Rattle.herd_register.specs.Register.{register_book, new_register, step_at, with_step, without_last_step};
ghost use Rattle.herd_register.specs.Run.{IsLegal, answer, next, step_of};

use crate::change::Change;
use crate::command::Command;
use crate::file_fault::FileFault;
use crate::limits::Limits;
use crate::reply::Reply;
use crate::step::Step;
use herd_pedigree::Pedigree;
use std::alloc::Allocator;
use std::marker::Model;

/// The register of one society: its book, and each command that was answered.
///
/// Book and replies are always those of the journal's commands, answered one after the other from the empty book.
#[derive(Drop)]
pub struct Register<A: Allocator> {
    limits: Limits,
    pedigree: Pedigree<A>,
    journal: Vec<Step, A>,
    can_withdraw: bool,
}

impl<A: Allocator> Model for Register<A> {
    ghost use Rattle.herd_register.specs.Register.{IsRegister, Register, register_of};

    ghost Value = { Register };

    ghost view = { λ r. register_of r.limits r.journal.items r.can_withdraw };

    ghost invariant = { λ r. IsRegister (register_of r.limits r.journal.items r.can_withdraw) r.pedigree };
}

impl<A: Allocator + Copy> Register<A> {
    /// A register in which nothing was filed. It takes no memory.
    pub fn new(alloc: A, limits: Limits) -> Self
        ensures { result ≡ new_register limits }
    {
        Register {
            limits,
            pedigree: Pedigree::new(alloc),
            journal: Vec::new(alloc),
            can_withdraw: false,
        }
    }

    /// Answers a command, and adds the answer to the journal.
    ///
    /// `JournalFull` is told exactly where the journal has as many steps as the limits allow, and `Memory` where a
    /// growth of memory is refused; `NoReading` never is. A refusal is an answer, and no error.
    pub fn file(&mut self, desk: u16, command: Command) -> Result<Reply, FileFault>
        ensures reply { IfOk result (λ reply. reply ≡ answer self.old.limits (register_book self.old) command) }
        ensures stored { IfOk result (λ reply. self.new ≡ with_step self.old (step_of desk command reply)) }
        ensures book { OnOk result (register_book self.new ≡ next self.old.limits (register_book self.old) command) }
        ensures legal { OnOk result (IsLegal self.new.limits self.new.journal) }
        ensures refused { (refusal : Refusal) → result ≡ Ok (Reply.Refused refusal)
            → register_book self.new ≡ register_book self.old }

        // The journal's end is asked first. A command that isn't answered changes nothing.
        ensures full { (result ≡ Err FileFault.JournalFull) ↔ (length self.old.journal ≡ self.old.limits.steps) }
        ensures reading { result ≢ Err FileFault.NoReading }
        ensures fault { OnErr result (self.new ≡ self.old) }
    {
        if self.is_full() {
            return Err(FileFault::JournalFull);
        }
        self.journal.reserve(1)?;
        let reply = command.carry_out(self.limits, &mut self.pedigree)?;
        self.journal.push_reserved(Step {
            desk,
            command,
            reply,
        });
        self.can_withdraw = true;
        Ok(reply)
    }
}

impl<A: Allocator> Register<A> {
    /// The limits that it was made with.
    pub fn limits(&self) -> Limits
        ensures { result ≡ self.now.limits }
    {
        self.limits
    }

    /// The steps in the order in which they were filed.
    pub fn journal(&self) -> &[Step]
        ensures value { result.now ≡ self.now.journal }
        ensures legal { IsLegal self.now.limits self.now.journal }
        ensures room { length self.now.journal ≤ self.now.limits.steps }
    {
        self.journal.as_slice()
    }

    /// The step of a serial number, which counts from 1.
    pub fn step(&self, serial: u32) -> Option<&Step>
        ensures { option_copied result ≡ step_at self.now.journal serial }
    {
        self.journal.get((serial as usize).checked_sub(1)?)
    }

    /// What the last step made of the records, which were those of the steps before it.
    pub fn last_change(&self) -> Change
        ensures made { IsLastChange self.now.limits self.now.journal result }
        ensures none { self.now.journal ≡ [] → result ≡ Change.Nothing }
    {
        let [.., last] = self.journal.as_slice() else {
            return Change::Nothing;
        };
        match last.reply {
            Reply::Accepted => last.command.change_made(&self.pedigree),
            Reply::Refused(_) => Change::Nothing,
        }
    }

    /// The book.
    pub fn pedigree(&self) -> &Pedigree<A>
        ensures book { result.now.book ≡ register_book self.now }
        ensures few { length result.now.book ≤ self.now.limits.animals }
    {
        &self.pedigree
    }

    /// Whether the journal has as many steps as the limits allow.
    pub fn is_full(&self) -> bool
        ensures full { IsTrue result ↔ (length self.now.journal ≡ self.now.limits.steps) }
        ensures room { IsFalse result → length self.now.journal < MOST_STEPS }
    {
        self.limits.are_reached_by(self.journal.len())
    }

    /// Whether the last step can be taken out again: so it is after `file` answered, until `withdraw`.
    pub fn can_withdraw(&self) -> bool
        ensures { result ≡ self.now.can_withdraw }
    {
        self.can_withdraw
    }

    /// Takes the last step out again. It takes no memory.
    pub fn withdraw(&mut self)
        requires { IsTrue self.old.can_withdraw }
        ensures { self.new ≡ without_last_step self.old }
    {
        let step = self.journal.pop().unwrap();
        match step.reply {
            Reply::Accepted => self.pedigree.take_back(),
            Reply::Refused(_) => {}
        }
        self.can_withdraw = false;
    }
}
