//! Reports to a user: why a command is refused, the findings of a test, the output of a replay,
//! each as lines or as JSON objects.
#![tactic(auto)]

mod asked_tests;
mod error_lines;
mod error_objects;
mod error_table;
mod errors;
mod failures;
pub mod limits;
mod notes;
mod progress;
mod replay_lines;
mod step_objects;
mod summaries;
mod summary_objects;

pub use error_lines::{InputError, show_error};
pub use error_objects::put_error_object;
pub use error_table::{Detail, Row, exit_status};
pub use errors::Error;
pub use progress::{clear_progress, put_exploration_progress, put_progress};
pub use replay_lines::show_replay;
pub use step_objects::{VerdictFacts, put_verdict, value_in};
pub use summaries::{TestReport, put_summary};
pub use summary_objects::put_summary_objects;
