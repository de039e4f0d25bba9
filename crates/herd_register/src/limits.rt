ghost use Rattle.std.specs.Prelude.{◌<◌, ◌≤◌, IsFalse, IsTrue};
ghost use Rattle.herd_register.specs.declared.limits.TheConstants.{MOST_STEPS};

use std::marker::Model;

/// The number of steps that a journal may have.
pub const MOST_STEPS: u32 = 200_000_000;

/// How large a register may grow.
#[derive(Clone, Copy, Debug, PartialEq, Eq)]
pub struct Limits {
    /// The number of animals in the book, from 1 to `herd_frozen::MOST_ANIMALS`.
    pub animals: u32,
    /// The number of steps in the journal, from 1 to `MOST_STEPS`.
    pub steps: u32,
}

impl Model for Limits {
    ghost use Rattle.herd_register.specs.Limits.{AreLimits, Limits, limits_of};

    ghost Value = { Limits };

    ghost view = { λ l. limits_of l.animals l.steps };

    ghost inverse = { λ limits. record { animals = limits.animals; steps = limits.steps } };

    ghost invariant = { λ l. AreLimits (limits_of l.animals l.steps) };
}

impl Limits {
    /// Whether a journal of so many steps is full.
    pub(crate) fn are_reached_by(&self, steps: usize) -> bool
        ensures full { IsTrue result → self.now.steps ≤ steps }
        ensures room { IsFalse result → steps < self.now.steps }
        ensures few { IsFalse result → steps < MOST_STEPS }
    {
        steps >= self.steps as usize
    }
}
