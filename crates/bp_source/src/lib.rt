//! Programs and requests as users write and read them, without a history: the place and the text of
//! each statement, listings with their source, names, and the same in JSON; tasks, their files and
//! options, and the initial bits of globals by their names.
#![tactic(auto)]

mod assertions;
mod excerpts;
mod initial_bits;
pub mod limits;
mod listings;
mod names;
mod options;
mod pieces;
mod programs;
mod source_statements;
mod statements;
mod tasks;

pub use assertions::{decider_at, variables_read};
pub use excerpts::Excerpt;
pub use initial_bits::{NamedBit, NamedBits, NamedStart, are_named_bits, gives_names, named_bits};
pub use listings::{code_objects, column_of, line_of, sourced_listing, wide};
pub use names::{
    declares, first_piece, is_braced_after, is_named, is_qualified, name_at, own_name, piece_size,
    procedure_at,
};
pub use options::{ExploreOptions, RunOptions, TestOptions, ViewFormat, ViewOptions};
pub use pieces::{push_four, push_three, push_two};
pub use programs::{program_object, push_item};
pub use source_statements::{SourceStatement, source_statements_of};
pub use statements::{statement_lines, statement_positions, statement_texts, unreached_objects};
pub use tasks::{
    CheckTask, CodeTask, ConfirmTask, ContextBound, DriveTask, ErrorFormat, Explaining,
    ExploreTask, ListingForm, RunTask, ShowTask, Task, TestTask, TraceTask, Verdict,
};
