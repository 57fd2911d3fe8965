//! Words for the values that an assertion or an assumption reads.

use crate::sources::{Source, variable_of};
use bp_machine::{AskError, Call, Session, Setup};
use bp_source::{decider_at, variables_read};
use bp_trace::{ReplayError, Unwatched, Watcher, replay_watched};
use std::alloc::{AllocError, Global};
use std::fmt::Write;

/// Returns the names of the variables that the assertion or the assumption of a thread reads.
fn names_read<'a>(
    alloc: Global,
    source: &'a Source<'_>,
    session: &Session,
    thread: u32,
) -> Result<Vec<&'a [u8]>, AllocError> {
    let Some(top) = session.top(thread) else {
        return Ok(Vec::new(alloc));
    };
    match decider_at(alloc, source.code.checked().tree().procs(), top.number)? {
        Some(decider) => variables_read(alloc, decider),
        None => Ok(Vec::new(alloc)),
    }
}

/// Gives the values that the assertion or the assumption of a thread reads.
pub(crate) fn values(
    alloc: Global,
    source: &Source<'_>,
    session: &Session,
    thread: u32,
) -> Result<String, AllocError> {
    let mut words = String::new(alloc);
    for name in &names_read(alloc, source, session, thread)? {
        if let Some(seen) = variable_of(source, session, thread, name) {
            let before = if words.is_empty() { " with " } else { " " };
            let digit = u8::from(seen.value);
            write!(words, "{before}{seen}={digit}")?;
        }
    }
    Ok(words)
}

/// Records the last attempt of a replay that changed a thread's view of a variable.
#[derive(Drop)]
struct ChangeWatcher<'a> {
    source: &'a Source<'a>,
    thread: u32,
    name: &'a [u8],
    /// The number of attempts made.
    made: usize,
    /// The last of them that changed it, from 1; None if no attempt did.
    changed: Option<usize>,
}

impl ChangeWatcher<'_> {
    fn value(&self, session: &Session) -> Option<bool> {
        Some(variable_of(self.source, session, self.thread, self.name)?.value)
    }
}

impl Watcher for ChangeWatcher<'_> {
    ghost sees = { λ _ _ _ _ _. Unit {0} };

    fn begin(&mut self, _setup: &Setup) -> Result<(), AllocError> {
        Ok(())
    }

    fn make(&mut self, session: &mut Session, recorded: &Call) -> Result<Call, AskError> {
        let before = self.value(session);
        let call = session.ask_as_recorded(recorded.thread, recorded.bit)?;
        self.made = self.made.saturating_add(1);
        if before != self.value(session) {
            self.changed = Some(self.made);
        }
        Ok(call)
    }
}

/// Returns the last attempt of a trace that changed a thread's view of a variable, from 1.
fn last_change(
    alloc: Global,
    source: &Source<'_>,
    trace: &[u8],
    thread: u32,
    name: &[u8],
) -> Result<Option<usize>, AllocError> {
    let watcher = ChangeWatcher {
        source,
        thread,
        name,
        made: 0,
        changed: None,
    };
    match replay_watched(alloc, &source.code, trace, watcher) {
        Ok(watched) => Ok(watched.watcher.changed),
        Err(ReplayError::Memory) => Err(AllocError),
        Err(_) => Ok(None),
    }
}

/// Gives the step of a trace that last changed each of the values that the assertion or the
/// assumption of a thread reads. The session stands after the trace.
pub(crate) fn changes(
    alloc: Global,
    source: &Source<'_>,
    trace: &[u8],
    session: &Session,
    thread: u32,
) -> Result<String, AllocError> {
    let mut words = String::new(alloc);
    for name in &names_read(alloc, source, session, thread)? {
        let Some(seen) = variable_of(source, session, thread, name) else {
            continue;
        };
        match last_change(alloc, source, trace, thread, name)? {
            Some(step) => write!(words, "; step {step} changed {seen} last")?,
            None => write!(words, "; no step changed {seen}")?,
        }
    }
    Ok(words)
}

/// Returns the session after a trace.
pub(crate) fn session_after(
    alloc: Global,
    source: &Source<'_>,
    trace: &[u8],
) -> Result<Option<Session>, AllocError> {
    match replay_watched(alloc, &source.code, trace, Unwatched) {
        Ok(watched) => Ok(Some(watched.session)),
        Err(ReplayError::Memory) => Err(AllocError),
        Err(_) => Ok(None),
    }
}
