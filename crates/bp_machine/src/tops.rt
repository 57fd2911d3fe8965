//! The places at which threads continue.
use bp_flat::Store;

/// The top of a thread's stack, or of the rest of it after its topmost calls have returned.
#[derive(Clone, Copy, PartialEq, Eq)]
pub struct Top {
    /// The number of the next instruction.
    pub number: u32,
    /// The globals, and the locals of the frame at the top.
    pub store: Store,
    /// The number of frames, including the one at the top.
    pub depth: usize,
}
