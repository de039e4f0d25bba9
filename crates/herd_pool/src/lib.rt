//! The coefficients of a lineage, by a pool of threads over blocks of each level.
//!
//!     let lineage = register.pedigree().freeze(alloc)?;
//!     let coefficients = herd_pool::coefficients_by_sires(&rt, alloc, &lineage, 4, DEFAULT_BLOCK)?;
//!
//! The levels of depth are gone through from the founders up. There are two kinds of work on a level (`work`):
//!
//! - **Sire by sire** (`coefficients_by_sires`; `sires`; Colleau 2002): the relationships of a level's sires with their
//!   mates ask for the coefficients of the sires' ancestors. An ancestor's own sire is less deep than the ancestor, so
//!   a level before has written it, and within a level no sire needs another.
//! - **Animal by animal** (`coefficients`; `traced`; Meuwissen and Luo 1992): a level's animals are traced by the
//!   coefficients of their ancestors, which are less deep. A caller's gate takes part in it (`gate`).
//!
//! Both go through the same hands, which know nothing of what a block computes:
//!
//! - A **level** is the animals of one depth, cut into **blocks** of so many ranks (`level`; `specs/Levels`).
//! - The numbers of the blocks go into one **queue**, from which each thread takes the next. Its rule is that each
//!   block is taken once (`queue`; `specs/Blocks`, proof in `proofs/Passes`).
//! - A **worker** computes the blocks that it takes, and brings them back with its pass to the queue and the scratch
//!   that the next worker takes over (`worker`, `crew`; `specs/Workers`). The thread that starts the
//!   others is a worker too (`starter`), so one worker starts none.
//! - Once all are back, the blocks are written into one list (`merge`; `proofs/Writes`), and the next level begins
//!   (`pool`).
//!
//! `traced` and `sires` have `proofs/LevelFacts`, and `sires` has `proofs/SireFacts`, over lemmas of `herd_kinship`.
//! What a level is worth is defined in `specs/Sires`, with `proofs/WorthFacts`.
#![tactic(auto)]

mod crew;
mod gate;
mod level;
mod limits;
mod merge;
mod pool;
mod pool_fault;
mod queue;
mod sires;
mod starter;
mod traced;
mod work;
mod work_plan;
mod worker;

pub use gate::{Gate, NoGate};
pub use limits::{DEFAULT_BLOCK, MOST_WORKERS};
pub use pool::{coefficients, coefficients_by_sires};
pub use pool_fault::PoolFault;
pub use work_plan::WorkPlan;
