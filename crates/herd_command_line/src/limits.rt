//! How large a book and its journal may grow where the words don't say.

/// How many animals a book may have where the words don't say. They may allow as many as `MOST_ANIMALS`.
pub const DEFAULT_ANIMALS: u32 = 60_000;

/// How many steps its journal may have where the words don't say. They may allow as many as `MOST_STEPS`.
pub const DEFAULT_STEPS: u32 = 1_000_000;
