//! A family with inbred calves.

use crate::birth::{Birth, Pair, UNKNOWN};
use crate::name::Name::{Bull, Cow};

/// Two founders, a son and a daughter, a calf of the two and one of father and daughter.
pub fn full_sibs() -> [Birth; 6] {
    [
        Birth(Bull(1), *b"2000-01-01", UNKNOWN),
        Birth(Cow(2), *b"2000-01-01", UNKNOWN),
        Birth(Bull(3), *b"2002-01-01", Pair::of(Bull(1), Cow(2))),
        Birth(Cow(4), *b"2002-01-01", Pair::of(Bull(1), Cow(2))),
        Birth(Bull(5), *b"2004-01-01", Pair::of(Bull(3), Cow(4))),
        Birth(Cow(6), *b"2004-01-01", Pair::of(Bull(1), Cow(4))),
    ]
}
