//! Each command, over any readers and writer, and the end of its run: from the paths of its files
//! to the exit status and the line on standard error.
#![tactic(auto)]

mod checks;
mod commands;
mod confirmations;
mod drives;
mod end_texts;
mod error_contexts;
mod error_reports;
mod explanations;
mod exploration_ends;
mod exploration_texts;
mod explorations;
mod inputs;
pub mod limits;
mod programs;
mod replays;
mod run_ends;
mod runs;
mod shows;
mod tests;
mod trace_commands;
mod worker_runs;

pub use checks::show_check;
pub use commands::{PairCommand, ProgramCommand, do_on_pair, do_on_program};
pub use confirmations::Confirmation;
pub use drives::drive_bundle;
pub use error_contexts::OptionNumbers;
pub use explanations::SecondInput;
pub use exploration_ends::{EndFacts, Exploration, FoundKind, ListedSteps};
pub use explorations::Explore;
pub use inputs::{Files, InputFile, Source, read_whole};
pub use run_ends::{CommandAnswer, Explained, RunEnd, end, flushed};
pub use runs::{Io, Streams, run_by_workers, run_on_bundle, run_on_pair, run_on_program};
pub use shows::{Screen, Show};
pub use tests::Test;
pub use trace_commands::TraceCommand;
pub use worker_runs::{Run, run_program};
