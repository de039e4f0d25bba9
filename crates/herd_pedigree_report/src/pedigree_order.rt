use herd_pool::WorkPlan;

/// What is asked of a pedigree. `in_units` asks for whole numbers of units of 2^-120 in place of fractions.
#[derive(Clone, Copy, Debug, PartialEq, Eq)]
pub enum PedigreeOrder<'a> {
    /// The coefficient of inbreeding of each animal.
    Inbreeding {
        plan: WorkPlan,
        in_units: bool,
    },
    /// What each animal contributes to the inverse of A, the numerator relationship matrix.
    Inverse,
    /// The entries of A of some animals with others, or where there are no others with one another. A name that tells
    /// no rank is `None`.
    Relationships {
        animals: &'a [Option<u32>],
        others: &'a [Option<u32>],
        in_units: bool,
    },
}
