//! The limits of the commands.

/// Bytes of a bundle.
pub const MAX_BUNDLE: usize = 1_048_576;
