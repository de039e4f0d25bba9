//! How large a session's office is.
ghost use Rattle.std.specs.Prelude.{◌≤◌};
ghost use Rattle.herd_office.specs.declared.limits.TheConstants.{MOST_DESKS, MOST_INSPECTORS};

use herd_register::Limits;

/// How large a session's office is.
#[derive(Clone, Copy)]
pub struct SessionPlan {
    /// From 1 to `MOST_DESKS`.
    pub desks: u16,
    /// From 1 to `MOST_INSPECTORS`.
    pub inspectors: u16,
    pub limits: Limits,
    pub ghost some_desks: { 1 ≤ desks },
    pub ghost most_desks: { desks ≤ MOST_DESKS },
    pub ghost some_inspectors: { 1 ≤ inspectors },
    pub ghost most_inspectors: { inspectors ≤ MOST_INSPECTORS },
}
