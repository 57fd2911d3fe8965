//! The limits of tests and of shrinking.

/// The number of runs of a job in the first batch.
pub const FIRST_SHARE: u64 = 500;

/// The most runs of a job in a batch.
pub const LARGEST_SHARE: u64 = 64_000;

/// The number of blocks of a job in a batch, if there are more jobs than one.
pub const BLOCKS_OF_JOB: u64 = 32;

/// A batch is quick if it takes fewer milliseconds than these.
pub const QUICK_BATCH: u64 = 250;

/// The most runs of a test that are compared: the first ones.
pub const MAX_KEYS: usize = 1 << 20;

/// The most attempts that are driven to make a history smaller, on top of those for its length.
pub const WORK: u64 = 1_500_000;

/// The most attempts that are driven for each attempt of a history that is made smaller.
pub const WORK_OF_CALL: u64 = 10;
