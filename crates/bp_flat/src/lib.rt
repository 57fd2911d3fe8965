//! Flat code: the meaning of programs, and the instructions that stand for it.
#![tactic(auto)]

pub mod actions;
pub mod code;
pub mod effects;
pub mod expr_lists;
pub mod exprs;
pub mod headings;
pub mod instrs;
pub mod laws;
pub mod limits;
mod prints;
pub mod slots;
pub mod stores;
pub mod touched_globals;
pub mod variables;

pub use code::Code;
pub use effects::Effect;
pub use headings::Heading;
pub use instrs::{Instr, Kind};
pub use laws::steps_alike;
pub use stores::Store;
pub use touched_globals::Touched;
pub use variables::{bit_of, global_value, local_slot_of, local_value, slot_of};
