//! Runs: one worker for each guest thread makes its attempts at a board, and a writer thread writes
//! the trace while they run.
#![tactic(auto)]

mod answers;
mod boards;
mod desks;
mod gates;
mod gatherings;
pub mod limits;
mod plays;
mod random_turns;
mod runner;
mod seats;
mod signals;
mod stages;
mod trace_writers;
mod workers;

pub use answers::{RunError, RunReport, WorkerCount, has_bad_turn_or_ring};
pub use boards::{Board, BoardParts, Calls};
pub use bp_source::RunOptions;
pub use desks::Desk;
pub use gates::{Gate, Open, Turns};
pub use gatherings::{Gathered, gather};
pub use random_turns::RandomTurns;
pub use runner::{run, run_code};
pub use seats::{Seat, Tap};
pub use signals::Signals;
pub use workers::{Unfinished, work};
