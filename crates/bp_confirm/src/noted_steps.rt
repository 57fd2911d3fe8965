//! The steps that the history of a trace makes, each with its column.
//! The text of steps, a line for each.
ghost use Rattle.std.specs.Prelude.{◌≡◌, ◌++◌, ◌∷◌, [], List, ℕ, option_map, MatchResult, OnOk};
ghost use Rattle.bp_text.specs.Lines.{position_at};
ghost use Rattle.bp_text.specs.Writing.{Writes};
ghost use Rattle.bp_machine.specs.declared.calls.Call.{Call as Answered};
ghost use Rattle.bp_machine.specs.Histories.{stack_of, configuration_after, is_granted};
ghost use Rattle.bp_machine.specs.Sessions.{Stands};
ghost use Rattle.bp_trace.specs.Replays.{IsReplayRefusal};
ghost use Rattle.bp_confirm.specs.OwnSteps.{next_start, AreStepsOfTrace, own_line, own_steps_text};
ghost use Rattle.bp_confirm.specs.FollowedSteps.{source_points_of};

use crate::source_points::{SourcePoint, point_of, source_points_of};
use bp_flat::Code;
use bp_machine::{AskError, Call, Reply, Report, Session, Setup};
use bp_text::Piece::{Bytes, Number};
use bp_text::{Position, WriteError, put_pieces};
use bp_trace::limits::MAX_TRACE;
use bp_trace::{ReplayError, Watcher, replay_watched};
use std::alloc::{AllocError, Global};
use std::io::Write;

/// A step: its thread, and the thread's place before it.
#[derive(Clone, Copy)]
pub struct OwnStep {
    /// The thread, from 0.
    pub thread: u32,
    /// The start of its next statement; None at a procedure's end.
    pub position: Option<Position>,
}

/// The steps of a history, and its report.
#[derive(Drop)]
pub struct OwnSteps {
    /// A step for each attempt that makes one, in their order.
    pub steps: Vec<OwnStep>,
    pub report: Report,
}

/// Returns whether an attempt with this reply made a step.
pub(crate) fn is_granted(reply: Reply) -> bool
    ensures { result ≡ is_granted reply }
{
    matches!(reply, Reply::Stepped | Reply::Failed)
}

/// Returns the start of the next statement of a thread.
fn position_of(session: &Session, points: &[SourcePoint], thread: u32) -> Option<Position>
    ensures { let t = session.now.code.tree in (text : List ℕ) (h : List Answered)
        → points.now ≡ source_points_of text t
        → Stands t session.now h
        → let now = configuration_after t session.now.setup h in
        result ≡ option_map (position_at text) (next_start (stack_of now thread)) }
{
    let Some(top) = session.top(thread) else {
        return None;
    };
    let Some(point) = point_of(points, top.number) else {
        return None;
    };
    point.position
}

/// Adds a step.
fn note(steps: &mut Vec<OwnStep>, step: OwnStep) -> Result<(), AllocError>
    ensures { OnOk result (steps.new.items ≡ steps.old.items ++ step ∷ []) }
{
    steps.push(step)?;
    Ok(())
}

/// Records the steps of a replay.
#[derive(Drop)]
struct StepWatcher<'a> {
    points: &'a [SourcePoint],
    steps: Vec<OwnStep>,
}

impl Watcher for StepWatcher<'_> {
    ghost use Rattle.std.specs.Prelude.{◌≡◌, ◌++◌, List, ℕ};
    ghost use Rattle.bp_confirm.specs.OwnSteps.{own_steps};
    ghost use Rattle.bp_confirm.specs.FollowedSteps.{source_points_of};

    ghost sees = { λ first last t s h.
        (last.points ≡ first.points)
        × ((text : List ℕ)
        → first.points.now ≡ source_points_of text t
        → last.steps.items ≡ first.steps.items ++ own_steps text t s h) };

    fn begin(&mut self, _setup: &Setup) -> Result<(), AllocError> {
        Ok(())
    }

    fn make(&mut self, session: &mut Session, recorded: &Call) -> Result<Call, AskError> {
        let position = position_of(session, self.points, recorded.thread);
        let call = session.ask_as_recorded(recorded.thread, recorded.bit)?;
        if is_granted(call.reply) {
            let thread = call.thread;
            note(&mut self.steps, OwnStep { thread, position })?;
        }
        Ok(call)
    }
}

/// Returns the steps of the history of a trace, each at the column at which its statement begins in
/// the program text. A text that is not a trace of the program is refused as a replay refuses it.
pub fn own_steps(
    alloc: Global,
    text: &[u8],
    code: &Code,
    trace: &[u8],
) -> Result<OwnSteps, ReplayError>
    ensures { MatchResult result
        (λ found.
        AreStepsOfTrace text.now code.now.tree trace.now found.steps.items found.report)
        (IsReplayRefusal code.now.tree trace.now) }
{
    if trace.len() > MAX_TRACE {
        return Err(ReplayError::TooLong);
    }
    let points = source_points_of(alloc, text, code.checked())?;
    let watcher = StepWatcher {
        points: points.as_slice(),
        steps: Vec::new(alloc),
    };
    let watched = replay_watched(alloc, code, trace, watcher)?;
    Ok(OwnSteps {
        steps: watched.watcher.steps,
        report: watched.replayed.report,
    })
}

/// Writes the line of a step.
fn put_step<W: Write>(step: &OwnStep, out: &mut W) -> Result<(), WriteError>
    ensures { Writes (W.contents out.old) (W.contents out.new)
        (own_line step.now) result }
{
    let thread = Number(u64::from(step.thread));
    match step.position {
        None => put_pieces(out, &[thread, Bytes(b" -\n")]),
        Some(at) => {
            let line = Number(at.line as u64);
            let column = Number(at.column as u64);
            put_pieces(
                out,
                &[thread, Bytes(b" "), line, Bytes(b":"), column, Bytes(b"\n")],
            )
        }
    }
}

/// Writes a line for each step: its thread, and the line and column at which it begins.
pub fn put_steps<W: Write>(steps: &[OwnStep], out: &mut W) -> Result<(), WriteError>
    ensures { Writes (W.contents out.old) (W.contents out.new) (own_steps_text steps.now) result }
{
    for step in steps {
        put_step(step, out)?;
    }
    Ok(())
}
