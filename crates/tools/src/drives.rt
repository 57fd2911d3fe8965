//! Driving a program by a schedule, and replaying its trace.

use crate::starts::start_of;
use bp_code::code_of;
use bp_machine::Outcome;
use bp_trace::{drive, replay};
use std::alloc::Global;

/// Returns the outcome of a program that a schedule drives. Its trace is replayed.
pub fn outcome_of(alloc: Global, text: &[u8], schedule: &[u8]) -> Option<Outcome> {
    let code = code_of(alloc, text).ok()?;
    let start = start_of(alloc).ok()?;
    let Ok(setup) = start.setup(alloc, &code, None) else {
        return None;
    };
    let mut trace = Vec::new(alloc);
    drive(alloc, &code, &setup, schedule, &mut trace).ok()?;
    let replayed = replay(alloc, &code, &trace).ok()?;
    Some(replayed.report.outcome)
}
