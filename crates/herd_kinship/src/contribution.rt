use crate::fractions::Fraction;

/// What one animal adds to one element of the inverse of the numerator relationship matrix.
///
/// That the contributions of all animals, mirrored and summed by row and column, are the inverse (Henderson 1976)
/// follows from `laws::inverse_rows`; no call forms the sum, and no clause says it.
#[derive(Clone, Copy, Debug, PartialEq, Eq)]
pub struct Contribution {
    /// The rank of the later animal of the two, or of the one animal on the diagonal.
    pub row: u32,
    /// The rank of the earlier animal of the two.
    pub column: u32,
    /// What is added there, exact and in lowest terms.
    pub value: Fraction,
}

/// What an animal contributes to the inverse of the numerator relationship matrix.
#[derive(Clone, Copy, Debug, PartialEq, Eq)]
pub struct Contributions {
    /// What it adds at itself: 1 over its Mendelian sampling variance, so from 1 on.
    pub alpha: Fraction,
    /// How many count: 1 with no known parent, 3 with one, also where it is sire and dam, 6 with two.
    pub count: u8,
    /// At itself, with each known parent, and those of the parents; what comes after `count` repeats the first.
    pub list: [Contribution; 6],
}
