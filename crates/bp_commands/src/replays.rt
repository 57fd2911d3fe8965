//! The commands `replay`, `migrate` and `shrink`.
ghost use Rattle.std.specs.Prelude.{◌≡◌, List, MatchResult};
ghost use Rattle.bp_machine.specs.declared.calls.Call.{Call as Answered};
ghost use Rattle.bp_machine.specs.Sessions.{Stands};
ghost use Rattle.bp_test.specs.Shrinks.{EndsIn};
ghost use Rattle.bp_commands.specs.Traces.{migrates, replays, shrinks, AnswersByCode, IsEndRefusal};

use bp_flat::Code;
use bp_machine::{Report, Session};
use bp_messages::{Error, show_replay};
use bp_test::{HistoryEnd, history_end, shrink};
use bp_trace::{Unwatched, migrate, replay, replay_watched, write_trace};
use std::alloc::Global;
use std::io::Write;

/// `replay`: replays a trace of a program, and writes the values that it printed, and the outcome.
pub(crate) fn replay_trace<W: Write>(
    alloc: Global,
    code: &Code,
    trace: &[u8],
    out: &mut W,
) -> Result<Report, Error>
    ensures { AnswersByCode replays code.now trace.now
        (W.contents out.old) (W.contents out.new) result }
{
    let replayed = replay(alloc, code, trace)?;
    show_replay(&replayed, out)?;
    Ok(replayed.report)
}

/// `migrate`: writes the trace of version 2 of the history of a trace, which is in either version.
pub(crate) fn migrate_trace<W: Write>(
    alloc: Global,
    code: &Code,
    trace: &[u8],
    out: &mut W,
) -> Result<Report, Error>
    ensures { AnswersByCode migrates code.now trace.now
        (W.contents out.old) (W.contents out.new) result }
{
    Ok(migrate(alloc, code, trace, out)?)
}

/// Returns the end that a history of a session has to keep: a failure or a deadlock.
fn kept_end(alloc: Global, session: &Session) -> Result<HistoryEnd, Error>
    ensures { MatchResult result
        (λ end. EndsIn session.now end × (end ≡ HistoryEnd.Other → ⊥))
        (λ f.
        let t = session.now.code.tree in (h : List Answered)
        → Stands t session.now h
        → IsEndRefusal t session.now.setup h f) }
{
    let end = history_end(alloc, session)?;
    if matches!(end, HistoryEnd::Other) {
        return Err(Error::NoFailure);
    }
    Ok(end)
}

/// `shrink`: writes the trace of a history with the failure or the deadlock of a trace, by no more
/// attempts and no more contexts.
pub(crate) fn shrink_trace<W: Write>(
    alloc: Global,
    code: &Code,
    trace: &[u8],
    out: &mut W,
) -> Result<Report, Error>
    ensures { AnswersByCode shrinks code.now trace.now
        (W.contents out.old) (W.contents out.new) result }
{
    let watched = replay_watched(alloc, code, trace, Unwatched)?;
    let replayed = &watched.replayed;
    let end = kept_end(alloc, &watched.session)?;
    let (history, report) = (replayed.history.as_slice(), replayed.report);
    let shrunk = shrink(alloc, code, &replayed.setup, history, &report, end)?;
    write_trace(&shrunk.setup, shrunk.history.as_slice(), out)?;
    Ok(report)
}
