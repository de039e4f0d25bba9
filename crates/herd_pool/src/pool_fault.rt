use std::alloc::AllocError;
use thiserror::Error;

/// Why there are no coefficients: a thread couldn't be started, or a growth of memory was refused.
#[derive(Clone, Copy, Debug, PartialEq, Eq, Error)]
pub enum PoolFault {
    /// It comes only where a level has work for more than one worker.
    #[error("a thread couldn't be started")]
    NoThread,
    #[error("memory ran out")]
    Memory,
}

impl From<AllocError> for PoolFault {
    ghost use Rattle.std.specs.Prelude.{◌≡◌};
    ghost use Rattle.herd_pool.specs.declared.pool_fault.PoolFault.TheVariants.{Memory};

    ghost from_gives = { λ _ fault. fault ≡ Memory };

    fn from(_refused: AllocError) -> Self {
        PoolFault::Memory
    }
}
