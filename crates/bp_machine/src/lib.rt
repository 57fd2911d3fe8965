//! The sequential machine: setups, and sessions that answer the attempts of guest threads.
#![tactic(auto)]

mod calls;
mod choices;
mod contexts;
mod laws;
pub mod limits;
mod machine;
mod sessions;
mod setup_errors;
mod setups;
mod stacks;
mod starts;
mod threads;
pub mod tops;

pub use calls::{AskError, Call, Outcome, Reply, Report, live_threads};
pub use choices::Choices;
pub use laws::{
    entries_are_on_one_line, failures_are_real, histories_are_short, one_code_has_one_meaning,
    runs_are_histories, steps_are_a_run, steps_are_within,
};
pub use machine::{globals_after, transition_on};
pub use sessions::Session;
pub use setup_errors::SetupError;
pub use setups::Setup;
pub use stacks::{ActivationRecord, Stack};
pub use starts::Start;
pub use threads::Transition;
pub use tops::Top;
