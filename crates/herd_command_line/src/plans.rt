//! What the words say of a book, a certificate, a pedigree and a session.

ghost use Rattle.std.specs.Prelude.{◌≤◌};
ghost use Rattle.herd_frozen.specs.declared.TheConstants.{MOST_ANIMALS};
ghost use Rattle.herd_office.specs.declared.limits.TheConstants.{MOST_DESKS, MOST_INSPECTORS};

use herd_register::Limits;

/// What the words say of the book of a command file.
#[derive(Clone, Copy)]
pub struct BookPlan {
    pub limits: Limits,
}

/// The seal under which a certificate is checked.
#[derive(Clone, Copy)]
pub struct CheckPlan {
    pub seal: [u8; 32],
}

/// What the words say of a pedigree.
#[derive(Clone, Copy)]
pub struct PedigreePlan {
    pub animals: u32,
    pub ghost few: { animals ≤ MOST_ANIMALS },
}

/// What the words say of a session: how large its office is. It is the words' own, so that reading them waits for no
/// session.
#[derive(Clone, Copy)]
pub struct OfficePlan {
    /// From 1 to `MOST_DESKS`.
    pub desks: u16,
    /// From 1 to `MOST_INSPECTORS`.
    pub inspectors: u16,
    pub limits: Limits,
    pub ghost some_desks: { 1 ≤ desks },
    pub ghost most_desks: { desks ≤ MOST_DESKS },
    pub ghost some_inspectors: { 1 ≤ inspectors },
    pub ghost most_inspectors: { inspectors ≤ MOST_INSPECTORS },
}
