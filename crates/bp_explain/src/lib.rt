//! Explanations of errors of schedules, steps and traces, for people: the line, and its expected
//! form or the mistake. Also sentences on the arguments that make up a setup.
#![tactic(auto)]

mod call_sentences;
mod elsewhere_sentences;
mod heads;
mod option_sentences;
mod schedules;
mod sources;
mod step_sentences;
mod steps;
mod traces;
mod tried_steps;
mod value_sentences;

pub use option_sentences::{global_sentence, start_sentence, variable_sentence};
pub use schedules::explain_schedule;
pub use steps::explain_steps;
pub use traces::explain_trace;
