//! Confirming the steps that a model checker reports: the history that takes them, or the first
//! step that none takes.
#![tactic(auto)]

mod choices;
mod confirmations;
mod declarations;
mod fields;
mod followed_steps;
mod histories;
mod kept_lines;
mod laws;
mod listed_lines;
mod noted_steps;
mod source_points;
mod step_lines;
mod values;

pub use choices::LastChoice;
pub use confirmations::{ConfirmError, Difference, StepReason, StepRefusal, confirm};
pub use fields::NameState;
pub use histories::Confirmed;
pub use kept_lines::value_on_line;
pub use laws::{
    refused_steps_are_not_taken, steps_are_of_the_run, steps_have_one_answer,
    texts_are_read_in_one_way,
};
pub use listed_lines::{ListedLines, read_listed_lines};
pub use noted_steps::{OwnStep, OwnSteps, own_steps, put_steps};
pub use step_lines::{Location, SeenValue, ThreadPlace};
