//! Changes of a history.
//! Leaving out loops of a history.
ghost use Rattle.std.specs.Prelude.{◌≡◌, OnOk};
ghost use Rattle.bp_machine.specs.Setups.{Fits};
ghost use Rattle.bp_test.specs.Shrinks.{unseeded};

use crate::shrinks::granted;
use bp_machine::{AskError, Call, Session, Top};
use std::alloc::AllocError;

/// The attempts of a history from one place to before another.
#[derive(Clone, Copy, PartialEq, Eq)]
pub(crate) struct Part {
    pub(crate) from: usize,
    pub(crate) to: usize,
}

/// Returns the part from one place to before another.
fn between(from: usize, to: usize) -> Part {
    Part { from, to }
}

/// A change of a history.
#[derive(Clone, Copy, PartialEq, Eq)]
pub(crate) enum Change {
    /// The attempts that made no step are left out.
    Idle,
    /// The steps that return a thread to an earlier place of the same context are left out.
    Loops,
    /// This part is left out.
    LeftOut(Part),
    /// The attempts of this part that are before `middle` are moved to `earlier`, the others to
    /// `later`.
    Split {
        part: Part,
        middle: usize,
        earlier: usize,
        later: usize,
    },
    /// The choice bits of this part are 0.
    Zeros(Part),
}

/// Writes these parts one after the other.
fn write_parts(history: &[Call], parts: &[Part], lines: &mut Vec<Call>) -> Result<(), AllocError> {
    for part in parts {
        if let Some(calls) = history.get(part.from..part.to) {
            lines.extend_from_slice(calls)?;
        }
    }
    Ok(())
}

/// Writes the attempts, those of this part with the bit 0.
fn write_zeros(history: &[Call], part: Part, lines: &mut Vec<Call>) -> Result<(), AllocError> {
    for (place, call) in history.iter().enumerate() {
        let is_kept = place < part.from || part.to <= place;
        let bit = call.bit && is_kept;
        lines.push(Call { bit, ..*call })?;
    }
    Ok(())
}

/// Writes the history with a change other than that of its loops.
pub(crate) fn write_changed(
    history: &[Call],
    change: Change,
    lines: &mut Vec<Call>,
) -> Result<(), AllocError> {
    lines.clear();
    let end = history.len();
    match change {
        Change::Idle | Change::Loops => {
            *lines = granted(*lines.allocator(), history)?;
            Ok(())
        }
        Change::Zeros(part) => write_zeros(history, part, lines),
        Change::LeftOut(Part { from, to }) => {
            write_parts(history, &[between(0, from), between(to, end)], lines)
        }
        Change::Split {
            part: Part { from, to },
            middle,
            earlier,
            later,
        } => {
            let bounds = [
                between(0, earlier),
                between(from, middle),
                between(earlier, from),
                between(to, later),
                between(middle, to),
                between(later, end),
            ];
            write_parts(history, &bounds, lines)
        }
    }
}

/// The most attempts of a loop that is left out.
const LONGEST_LOOP: usize = 64;

/// An attempt, and its thread's place before it.
#[derive(Clone, Copy)]
struct Visit {
    call: Call,
    top: Option<Top>,
}

/// Returns the last place of the path at which the thread was there already.
fn earlier_visit(path: &[Visit], top: Option<Top>) -> Option<usize> {
    let from = path.len().saturating_sub(LONGEST_LOOP);
    for place in from..path.len() {
        if path[place].top == top {
            return Some(place);
        }
    }
    None
}

/// Continues the path with an attempt, and leaves out a loop that it ends.
fn go_on(path: &mut Vec<Visit>, call: Call, top: Option<Top>) -> Result<(), AllocError> {
    if let Some(place) = earlier_visit(path.as_slice(), top) {
        path.truncate(place);
    }
    path.push(Visit { call, top })?;
    Ok(())
}

/// Writes the attempts of the path, which is then empty.
fn write_path(path: &mut Vec<Visit>, lines: &mut Vec<Call>) -> Result<(), AllocError> {
    for visit in path.as_slice() {
        lines.push(visit.call)?;
    }
    path.clear();
    Ok(())
}

/// Makes the attempt again, if the thread may make it.
fn make(session: &mut Session, call: &Call) -> Result<(), AllocError>
    ensures { (session.new.code ≡ session.old.code) × (session.new.setup ≡ session.old.setup) }
{
    match session.ask_with(call.thread, call.bit) {
        Err(AskError::Memory) => Err(AllocError),
        _ => Ok(()),
    }
}

/// Drives the attempts of a history again without a seed, and writes them, except for those that
/// return a thread to an earlier place, with the same values, in the same context.
pub(crate) fn without_loops(
    session: &mut Session,
    history: &[Call],
    lines: &mut Vec<Call>,
) -> Result<(), AllocError>
    requires { Fits session.old.code.tree session.old.setup }
    ensures code { session.new.code ≡ session.old.code }
    ensures setup { OnOk result (session.new.setup ≡ unseeded session.old.setup) }
{
    session.restart(None)?;
    let mut path = Vec::new(*lines.allocator());
    let mut thread = None;
    lines.clear();
    for call in history {
        if thread != Some(call.thread) {
            write_path(&mut path, lines)?;
            thread = Some(call.thread);
        }
        go_on(&mut path, *call, session.top(call.thread))?;
        make(session, call)?;
    }
    write_path(&mut path, lines)
}
