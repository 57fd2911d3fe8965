//! The limits of schedules and traces.

/// Bytes of a schedule.
pub const MAX_SCHEDULE: usize = 67_108_864;

/// Bytes of a trace.
pub const MAX_TRACE: usize = 67_108_864;
