//! Boards, desks and workers if memory is refused.
pub(crate) mod boards;
mod no_memory;
mod refused_workers;
