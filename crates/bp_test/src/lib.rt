//! Testing: runs of a program whose schedules are drawn by seeds, until an assertion fails. And
//! shrinking: a smaller history with the same end as one that fails or ends in a deadlock.
#![tactic(auto)]

mod batches;
mod candidates;
mod changes;
mod counts;
pub mod limits;
mod pilots;
mod plans;
mod runs;
mod schedulers;
mod searches;
mod shrinks;
mod tallies;
mod tests;
mod visible_steps;
mod waits;

pub use batches::{Block, FoundRun, first_found};
pub use bp_source::TestOptions;
pub use counts::{Counts, Distinct, Share, distinct_of};
pub use pilots::{Focus, Pilots};
pub use plans::Plan;
pub use shrinks::{HistoryEnd, Shrunk, history_end, shrink};
pub use tallies::{ContextsUsed, Ends, Tally};
pub use tests::{Found, Progress, Runtimes, TestError, Tested, test};
pub use visible_steps::VisibleSteps;
pub use waits::{Waiting, failed_instruction, waiting_threads};
