//! Facts of a history, as plain values: attempts, changes, contexts, states and ends. And the texts
//! of these facts, for people and in JSON.
#![tactic(auto)]

mod buffers;
mod call_facts;
mod change_facts;
mod checkpoints;
mod contexts;
mod errors;
mod filters;
mod footer_facts;
mod frames;
mod laws;
mod lines;
mod outcomes;
mod prefixes;
mod program_facts;
mod setup_lines;
mod spans;
mod state_facts;
mod statement_columns;
mod statement_members;
mod states;
mod variables;
mod view_contexts;
mod views;
mod writers;

pub use call_facts::{
    CallFacts, ContextFacts, Next, facts_of_call, facts_of_context, fill_changes_within,
};
pub use change_facts::{Change, fill_changes};
pub use checkpoints::{
    Checkpoint, ReplayedCall, last_step, printed_by, replay_to_checkpoint, replayed_call,
};
pub use contexts::contexts_of;
pub use errors::ViewError;
pub use filters::{CallFilter, calls_to};
pub use footer_facts::{ConditionFacts, FooterFacts, facts_of_footer};
pub use laws::{changes_replay, lines_stand_for_each_call_once, views_are_single};
pub use outcomes::{outcome_text, waits_text};
pub use program_facts::{ProgramFacts, facts_of_program, has_watched, undeclared, watched_names};
pub use spans::{Span, StandingPoint, spans_of};
pub use state_facts::{FrameFacts, StateFacts, Status, ThreadFacts, facts_of_state};
pub use states::state_at;
pub use views::view;
