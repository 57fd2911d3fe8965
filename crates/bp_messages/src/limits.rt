//! The limits of summaries.

/// The share from which a note counts runs: one in this number, or more.
pub const NOTED_SHARE: u64 = 20;

/// The number of runs that is not a limit, since runs are counted in 64 bits.
pub const MOST_RUNS: u64 = u64::MAX;
