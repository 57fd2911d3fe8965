//! The limits of a session, and the defaults of its start.

/// The most guest threads of a session, which has at least one.
pub const MAX_THREADS: usize = 64;
/// The most contexts that a session may be allowed.
pub const MAX_CONTEXTS: u32 = 1000;
/// The most attempts that a thread may be allowed. It is allowed at least one.
pub const MAX_CALLS: u32 = 100_000;
/// The most frames of a thread's stack.
pub const MAX_FRAMES: usize = 1024;

/// The default entry procedure of a thread.
pub const DEFAULT_ENTRY: &str = "main";
/// The default bound on contexts.
pub const DEFAULT_CONTEXTS: u32 = 2;
/// The default bound on the attempts of each thread.
pub const DEFAULT_CALLS: u32 = 1000;
