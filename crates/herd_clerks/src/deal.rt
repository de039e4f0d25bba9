//! How the commands of a file are dealt to desks.
ghost use Rattle.std.specs.Prelude.{◌≡◌, ◌≤◌, drop, length, take};
ghost use Rattle.herd_office.specs.declared.limits.TheConstants.{MOST_DESKS};
ghost use Rattle.herd_register.specs.declared.limits.TheConstants.{MOST_STEPS};

use herd_register::Command;

/// How desks share the commands of a file.
#[derive(Clone, Copy)]
pub struct DeskPlan {
    /// From 1 to `MOST_DESKS`.
    pub desks: u16,
    /// How many of the first commands desk 1 files before any other.
    pub base: u32,
    pub ghost some: { 1 ≤ desks },
    pub ghost most: { desks ≤ MOST_DESKS },
}

/// Commands that are dealt to so many desks: the first ones to desk 1, and then the rest to the desks in turn, from
/// desk 1 on.
#[derive(Clone, Copy)]
pub struct Deal<'a> {
    pub first: &'a [Command],
    pub rest: &'a [Command],
    /// From 1 to `MOST_DESKS`.
    pub desks: usize,
    pub ghost some: { 1 ≤ desks },
    pub ghost most: { desks ≤ MOST_DESKS },
    pub ghost few_first: { length first.now ≤ MOST_STEPS },
    pub ghost few: { length rest.now ≤ MOST_STEPS },
}

/// Commands of a list: the one at the place `from`, and from it on every `step`-th.
#[derive(Clone, Copy)]
pub struct Turn<'a> {
    pub commands: &'a [Command],
    pub from: usize,
    pub step: usize,
    pub ghost some: { 1 ≤ step },
    pub ghost most: { step ≤ MOST_DESKS },
    pub ghost few: { length commands.now ≤ MOST_STEPS },
}

impl<'a> Deal<'a> {
    /// Deals the commands of a file. Where there are fewer than the plan's `base`, all are the first ones.
    pub fn of(plan: DeskPlan, commands: &'a [Command]) -> Deal<'a>
        requires { length commands.now ≤ MOST_STEPS }
        ensures first { result.first.now ≡ take plan.base commands.now }
        ensures rest { result.rest.now ≡ drop plan.base commands.now }
        ensures desks { result.desks ≡ plan.desks }
    {
        let base = plan.base as usize;
        let (first, rest) = commands.split_at(base.min(commands.len()));
        Deal {
            first,
            rest,
            desks: usize::from(plan.desks),
        }
    }

    /// What desk 1 files before the desks take turns.
    pub fn first_turn(&self) -> Turn<'a>
        ensures commands { result.commands.now ≡ self.now.first.now }
        ensures from { result.from ≡ 0 }
        ensures step { result.step ≡ 1 }
    {
        Turn {
            commands: self.first,
            from: 0,
            step: 1,
        }
    }

    /// The turn of the desk that so many come before.
    pub fn turn(&self, before: u16) -> Turn<'a>
        ensures commands { result.commands.now ≡ self.now.rest.now }
        ensures from { result.from ≡ before }
        ensures step { result.step ≡ self.now.desks }
    {
        Turn {
            commands: self.rest,
            from: usize::from(before),
            step: self.desks,
        }
    }
}
