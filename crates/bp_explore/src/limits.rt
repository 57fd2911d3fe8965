//! The limits of an exploration.

/// The most states that an exploration can keep.
pub const MAX_STATES: u32 = 2_000_000_000;
/// The number of states whose steps are made before the watcher is asked again.
pub const STATES_BETWEEN: usize = 100_000;
