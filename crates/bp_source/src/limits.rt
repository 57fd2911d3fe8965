//! The defaults and limits of options. Those of the start of a run are in `bp_machine`.

/// The default seed of a run, or of the first run of a test.
pub const DEFAULT_SEED: u64 = 42;

/// The default number of attempts of a worker in a turn.
pub const DEFAULT_TURN: u32 = 1;

/// The default number of attempts that the ring of a run holds.
pub const DEFAULT_RING: u32 = 1024;

/// The default number of runs of a test.
pub const DEFAULT_RUNS: u64 = 10_000;

/// The default number of states that an exploration can keep.
pub const DEFAULT_STATES: u64 = 50_000_000;

/// The default number of blocks of runs that are made side by side.
pub const DEFAULT_JOBS: u32 = 1;

/// The most blocks of runs that are made side by side.
pub const MAX_JOBS: u32 = 64;
