//! Limits of compiled code.

/// The number of slots of a word of bits: no more globals fit into it, and no more formals and
/// locals of one procedure.
pub const SLOTS: usize = 128;
