/// The most workers that may be asked for.
pub const MOST_WORKERS: u32 = 16;

/// How many animals a block has where a caller doesn't say.
pub const DEFAULT_BLOCK: u32 = 256;

/// How many calves of a level are worth one more worker. To start a thread and join it took 30 to 60 microseconds; a
/// calf took 1 in the breed measured whose calves took least.
pub const CALVES_FOR_A_WORKER: u32 = 32;
