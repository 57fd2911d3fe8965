//! The limits of a program text.

/// The most bytes of a text.
pub const TEXT_LIMIT: usize = 65_536;

/// The depth to which `if` and `while` nest.
pub const NESTING_LIMIT: usize = 64;

/// The most tokens in succession without a separator.
pub const SUCCESSION_LIMIT: usize = 1_024;

/// The most procedures of a program.
pub const MAX_PROCEDURES: usize = 256;

/// The most globals of a program.
pub const MAX_GLOBALS: usize = 128;

/// The most formals and declared locals of one procedure together.
pub const MAX_OWN_NAMES: usize = 128;
