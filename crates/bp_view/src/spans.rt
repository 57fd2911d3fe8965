//! The contexts of a history: the points at which the steps of each begin and end.
ghost use Rattle.std.specs.Prelude.{◌≡◌, ◌++◌, ◌∷◌, [], suc, length, MatchResult, OnOk};
ghost use Rattle.bp_machine.specs.Histories.{configuration_after};
ghost use Rattle.bp_machine.specs.Sessions.{Stands, AfterEach};
ghost use Rattle.bp_machine.specs.Setups.{Fits};
ghost use Rattle.bp_trace.specs.Replays.{IsPlayable};
ghost use Rattle.bp_view.specs.ContextLines.{joined, with_step, AreSpans, IsStandingPoint};

use crate::checkpoints::is_step;
use bp_flat::Code;
use bp_machine::{AskError, Call, Session, Setup, Top};
use std::alloc::{AllocError, Global};

/// The place at which a thread continues, and the globals at that time.
#[derive(Clone, Copy)]
pub struct StandingPoint {
    /// The top of its stack; None if it is empty.
    pub top: Option<Top>,
    /// The bits of the globals.
    pub globals: u128,
}

/// The steps of a context.
#[derive(Clone, Copy)]
pub struct Span {
    /// The thread of all steps of the context.
    pub thread: u32,
    /// The number of the first step's attempt, from 1.
    pub first: u64,
    /// The number of the last step's attempt, from 1.
    pub last: u64,
    /// The thread's point before the first of them.
    pub before: StandingPoint,
    /// The thread's point after the last of them.
    pub after: StandingPoint,
}

/// Returns the point at which a thread of the session continues.
fn standing_point(session: &Session, thread: u32) -> StandingPoint
    ensures { AfterEach session.now (λ t h.
        IsStandingPoint t (configuration_after t session.now.setup h) thread result) }
{
    StandingPoint {
        top: session.top(thread),
        globals: session.globals(),
    }
}

/// Returns the context, extended to a later step.
fn joined(span: Span, step: Span) -> Span
    ensures { result ≡ joined span step }
{
    Span {
        last: step.last,
        after: step.after,
        ..span
    }
}

/// Adds a step to the contexts: to the last one if that is of its thread, else as a new one.
fn push_step(spans: &mut Vec<Span>, step: Span) -> Result<(), AllocError>
    ensures { OnOk result (spans.new.items ≡ with_step spans.old.items step) }
{
    let Some(span) = spans.pop() else {
        spans.push(step)?;
        return Ok(());
    };
    if span.thread == step.thread {
        spans.push(joined(span, step))?;
        return Ok(());
    }
    spans.push(span)?;
    spans.push(step)?;
    Ok(())
}

/// Makes the machine's own attempt for a recorded one, and adds its step to the contexts if it made
/// one. `number` is that of the attempt.
fn play_call(
    session: &mut Session,
    spans: &mut Vec<Span>,
    number: u64,
    recorded: &Call,
) -> Result<(), AskError>
    ensures stands { AfterEach session.old (λ t h.
        IsPlayable t session.old.setup (h ++ recorded.now ∷ [])
        → MatchResult result
        (λ _. Stands t session.new (h ++ recorded.now ∷ []))
        (λ f. f ≡ AskError.Memory)) }
    ensures spans { AfterEach session.old (λ t h.
        IsPlayable t session.old.setup (h ++ recorded.now ∷ [])
        → number ≡ suc (length h)
        → AreSpans t session.old.setup h spans.old.items
        → let s = session.old.setup in
        OnOk result (AreSpans t s (h ++ recorded.now ∷ []) spans.new.items)) }
    ensures kept { (session.new.code ≡ session.old.code) × (session.new.setup ≡ session.old.setup) }
{
    let thread = recorded.thread;
    let before = standing_point(session, thread);
    let call = session.ask_as_recorded(thread, recorded.bit)?;
    if is_step(call.reply) {
        let step = Span {
            thread,
            first: number,
            last: number,
            before,
            after: standing_point(session, thread),
        };
        push_step(spans, step)?;
    }
    Ok(())
}

/// Returns the contexts of a legal history, which a session plays once more. Fails only on
/// allocation.
pub fn spans_of(
    alloc: Global,
    code: &Code,
    setup: &Setup,
    history: &[Call],
) -> Result<Vec<Span>, AskError>
    requires fits { Fits code.now.tree setup.now }
    requires playable { IsPlayable code.now.tree setup.now history.now }
    ensures { let t = code.now.tree in MatchResult result
        (λ v. AreSpans t setup.now history.now v.items)
        (λ f. f ≡ AskError.Memory) }
{
    let mut session = Session::new(alloc, code, setup)?;
    let mut spans = Vec::new(alloc);
    for (n, call) in history.iter().enumerate() {
        play_call(&mut session, &mut spans, n as u64 + 1, call)?;
    }
    Ok(spans)
}
