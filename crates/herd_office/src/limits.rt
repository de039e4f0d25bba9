/// The most desks that an office may have.
///
/// Desks file one at a time, since one lock stands before the register, so that more of them wait longer and file no
/// more in all. No proof needs the number.
pub const MOST_DESKS: u16 = 16;

/// The most inspectors that an office may have.
///
/// Each has a seat at the readers' copies, and a desk visits every seat while it holds the lock. No proof needs the
/// number.
pub const MOST_INSPECTORS: u16 = 16;
