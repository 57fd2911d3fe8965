//! Exploring all runs of a program within a bound on contexts, or within any number of them.
#![tactic(auto)]

mod cells;
mod explorations;
mod found_runs;
pub mod limits;
mod nodes;
mod observers;
mod searches;
mod spaces;
mod states;
mod tables;

pub use explorations::{
    Ending, Explored, ExploredThrough, Finding, FoundRun, Reason, RunThrough, ThroughEnding,
    explore, explore_through,
};
pub use observers::{Observer, SeenStep, Watcher};
