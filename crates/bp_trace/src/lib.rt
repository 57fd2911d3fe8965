//! Schedules and traces: a schedule drives a program through a session, and the history is written
//! as a text.
#![tactic(auto)]

mod drives;
mod end_lines;
mod errors;
mod heads;
mod judgements;
mod laws;
pub mod limits;
mod plays;
mod replays;
mod trace_lines;
mod traces;

pub use drives::{ScheduleLine, drive};
pub use errors::{DriveError, Due, EndCounts, MigrateError, ReplayError};
pub use heads::{EntryState, Head, read_head};
pub use judgements::Printed;
pub use laws::{
    lines_drive_again, no_two_have_one_text, pieces_are_fewest, refusals_are_single,
    runs_drive_to_histories, schedules_have_one_refusal,
};
pub use plays::{Unwatched, Watcher};
pub use replays::{
    AcceptedTrace, Replayed, Watched, accepted_trace, migrate, replay, replay_watched,
};
pub use trace_lines::{put_call, write_call};
pub use traces::{
    Version, put_end, put_head, write_end, write_head, write_trace, write_trace2,
    write_with_live_threads,
};
