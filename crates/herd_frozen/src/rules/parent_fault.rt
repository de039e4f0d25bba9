use thiserror::Error;

/// Why an animal can't have these parents. The first that holds, in the order of the variants, is told.
#[derive(Clone, Copy, Debug, PartialEq, Eq, Error)]
pub enum ParentFault {
    #[error("the sire isn't in the book")]
    SireMissing,
    #[error("the dam isn't in the book")]
    DamMissing,
    /// By the sex letter of its number.
    #[error("the sire isn't male")]
    SireNotMale,
    /// By the sex letter of its number.
    #[error("the dam isn't female")]
    DamNotFemale,
    /// It was born on the same day or later.
    #[error("the sire isn't older")]
    SireNotOlder,
    /// It was born on the same day or later.
    #[error("the dam isn't older")]
    DamNotOlder,
    /// She left before the birth day. It isn't asked for a calf from a stored embryo; a sire may always have left.
    #[error("the dam has left")]
    DamGone,
    /// Some path of the book, a descendant's too, would have more than `DEPTH_LIMIT` parent steps, or come back to
    /// its animal.
    #[error("a path would be too long")]
    TooDeep,
}
