ghost use Rattle.std.specs.Prelude.{◌≤◌};
ghost use Rattle.herd_pool.specs.declared.limits.TheConstants.{MOST_WORKERS};

/// How workers share the coefficients of a lineage. More than one share blocks of animals: the calling thread is one of
/// them, and a level with little work starts no other.
#[derive(Clone, Copy, Debug, PartialEq, Eq)]
pub struct WorkPlan {
    /// From 1 to `MOST_WORKERS`.
    pub workers: u32,
    /// How many animals a worker takes at a time, 1 at least.
    pub block: u32,
    pub ghost some: { 1 ≤ workers },
    pub ghost most: { workers ≤ MOST_WORKERS },
    pub ghost some_animals: { 1 ≤ block },
}
