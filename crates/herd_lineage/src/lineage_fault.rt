ghost use Rattle.std.specs.Prelude.{◌≡◌};
ghost use Rattle.herd_lineage.specs.declared.lineage_fault.LineageFault.TheVariants.{Memory};

use std::alloc::AllocError;
use thiserror::Error;

/// Why an animal can't be the next one of a lineage. The first that holds, in this order, is told.
#[derive(Clone, Copy, Debug, PartialEq, Eq, Error)]
pub enum LineageFault {
    #[error("there are as many animals as there may be")]
    Full,
    #[error("the sire is no earlier animal")]
    Sire,
    #[error("the dam is no earlier animal")]
    Dam,
    /// It would be deeper than `DEPTH_LIMIT`.
    #[error("the longest path of known parents has too many steps")]
    TooDeep,
    #[error("no memory")]
    Memory,
}

impl From<AllocError> for LineageFault {
    ghost from_gives = { λ _ fault. fault ≡ Memory };

    fn from(_refused: AllocError) -> LineageFault {
        LineageFault::Memory
    }
}
