//! What the tests begin with: animals named short, births, the books of a small family and of many generations, heaps
//! that are too small, a reader that gives one byte a read, and where threads wait for one another. Only tests stand on
//! it, and the programs that are to be timed or refused memory.
#![tactic(auto)]

mod birth;
mod books;
mod byte_reader;
mod family;
mod heaps;
mod herd;
mod meeting;
mod name;

pub use birth::{Birth, DayText, Pair, UNKNOWN};
pub use books::{BirthFault, file_birth, founders, frozen_of, generations};
pub use byte_reader::ByteReader;
pub use family::full_sibs;
pub use heaps::{Crowd, MOST_BLOCKS, small_heap};
pub use herd::herd_of;
pub use meeting::Meeting;
pub use name::Name;
