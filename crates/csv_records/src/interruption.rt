use thiserror::Error;

/// Why a record isn't read. It doesn't stand in the file.
#[derive(Clone, Copy, Debug, PartialEq, Eq, Error)]
pub enum Interruption {
    #[error("the reader failed")]
    Read,
    #[error("memory ran out")]
    Memory,
}
