//! The arguments of the command line: the command that they name, its files and its options.

mod check;
mod code;
mod commands;
mod confirm;
mod drive;
mod explore;
mod files;
mod misuses;
mod no_tasks;
mod rows;
mod run;
mod show;
mod table;
mod test;
mod trace;
mod usages;
mod values;
mod version;

pub use no_tasks::{NoTask, Refusal, not_utf8, read_arguments};
pub use usages::asks_for_json;
