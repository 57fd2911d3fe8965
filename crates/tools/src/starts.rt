//! The start of a run.

use bp_machine::Start;
use std::alloc::{AllocError, Global};

/// Returns two threads, at most two contexts, and all globals 0.
pub fn start_of(alloc: Global) -> Result<Start, AllocError> {
    let mut entries = Vec::new(alloc);
    entries.push(String::from_str(alloc, "writer")?)?;
    entries.push(String::from_str(alloc, "reader")?)?;
    Ok(Start {
        entries,
        init: None,
        contexts: 2,
        calls: 1_000,
    })
}
