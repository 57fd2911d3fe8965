//! Programs as flat code: each well-formed program is compiled to a code that stands for it.
#![tactic(auto)]

mod checks;
mod emit;
mod environments;
mod forms;
mod laws;
mod layout;
pub mod listing;
mod procedures;
mod programs;
pub mod starts;
mod tables;
pub mod texts;
mod translate;
mod uses;

pub use bp_flat::{
    Code, Effect, Heading, Instr, Kind, Store, Touched, bit_of, global_value, limits,
    local_slot_of, local_value, slot_of, steps_alike,
};
pub use bp_syntax::{CheckError, Checked};
pub use bp_text::{WriteError, put};
pub use checks::{CheckRefusal, check};
pub use laws::has_one_refusal;
pub use listing::list;
pub use programs::compile;
pub use starts::statement_starts;
pub use tables::NameTable;
pub use texts::{CodeError, ProgramError, code_of, well_formed_program};
