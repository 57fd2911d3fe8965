//! A session, driven by hand.

use crate::starts::start_of;
use bp_code::code_of;
use bp_machine::{AskError, Report, Session};
use std::alloc::Global;

/// Makes an attempt of each thread that is live.
fn ask_each(session: &mut Session, threads: u32) -> Result<(), AskError> {
    for thread in 0..threads {
        match session.ask_with(thread, false) {
            Ok(_) | Err(AskError::Terminated) => {}
            Err(error) => return Err(error),
        }
    }
    Ok(())
}

/// Returns the report after `rounds` rounds.
pub fn report_of(alloc: Global, text: &[u8], rounds: u32) -> Option<Report> {
    let code = code_of(alloc, text).ok()?;
    let start = start_of(alloc).ok()?;
    let Ok(setup) = start.setup(alloc, &code, None) else {
        return None;
    };
    let mut session = Session::new(alloc, &code, &setup).ok()?;
    for _ in 0..rounds {
        ask_each(&mut session, setup.threads()).ok()?;
    }
    Some(session.report())
}
