//! Tests of `bp_run`: desks and boards by hand, gathering, workers and gates, and their attempts if
//! memory is refused.
mod board;
pub(crate) mod growths;
mod workers;
