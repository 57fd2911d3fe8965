//! The limits of boards.

/// The most attempts that a ring holds.
pub const MAX_RING: u32 = 65_536;

/// The most attempts of one turn.
pub const MAX_TURN: u32 = 64;
