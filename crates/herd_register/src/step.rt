use crate::command::Command;
use crate::reply::Reply;

/// A command that was answered, with the desk that filed it and the answer.
#[derive(Clone, Copy, Debug, PartialEq, Eq)]
pub struct Step {
    /// What was filed.
    // First: in this order a step takes 76 bytes, and not 80.
    pub command: Command,
    /// The number that the caller gave for the desk: an office counts its desks from 1; what files for no office
    /// gives 0.
    pub desk: u16,
    /// The answer.
    pub reply: Reply,
}
