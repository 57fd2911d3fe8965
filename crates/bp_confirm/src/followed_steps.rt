//! Following reported steps.
ghost use Rattle.std.specs.Prelude.{◌≡◌, ◌<◌, ◌≤◌, ◌+◌, ◌^◌, ◌++◌, ◌∷◌, [], List, ℕ, None, length, map, true, false, IfOk, IfErr, OnOk, MatchOption, MatchResult};
ghost use Rattle.bp_machine.specs.declared.calls.Call.{Call as Answered};
ghost use Rattle.bp_machine.specs.Histories.{stack_of, configuration_after, IsAllowed, is_granted};
ghost use Rattle.bp_machine.specs.Setups.{threads, Fits};
ghost use Rattle.bp_machine.specs.Sessions.{Stands, AfterEach};
ghost use Rattle.bp_machine.specs.Runs.{IsTop};
ghost use Rattle.bp_trace.specs.Replays.{IsPlayable};
ghost use Rattle.bp_confirm.specs.declared.confirmations.StepError.{StepError};
ghost use Rattle.bp_confirm.specs.Confirms.{IsDifference, AreOfThreads, GoesOnAt, IsNotFollowed};
ghost use Rattle.bp_confirm.specs.FollowedSteps.{is_fork_on, IsInferredOn, last_bits, source_points_of, refusal_of, IsNotCalled, IsNotTaken, TellsNext};
ghost use Rattle.bp_confirm.specs.InferredBits.{LastBits, Follows, IsFollowed};
ghost use Rattle.bp_confirm.specs.Steps.{place_of, stands_at, location_in, next_locations, step_of, steps_of, StepOf, SeesValues};

use crate::choices::{Inferred, LastBits as GivenBits, Next, inferred_bit, is_fork, last_bit_of};
use crate::confirmations::{Difference, StepError, StepReason, StepRefusal};
use crate::kept_lines::StepLines;
use crate::noted_steps::is_granted;
use crate::source_points::{SourcePoint, is_there};
use crate::step_lines::{Location, StepLine, location_in, thread_place_in};
use crate::values::{first_mismatch, last_seen_after, last_seen_of};
use bp_code::Checked;
use bp_machine::{AskError, Call, Session, Top};
use std::alloc::{AllocError, Global};

/// The history that takes steps.
#[derive(Drop)]
pub(crate) struct Followed {
    pub(crate) history: Vec<Call>,
    /// Whether some thread took its last bit.
    pub(crate) asks: bool,
}

/// Why a thread makes no attempt.
#[derive(Clone, Copy)]
pub(crate) enum NotCalled {
    /// It has made its last attempt.
    Finished,
    /// There was not enough memory.
    Memory,
}

/// Returns the top of a thread that is at a location; else the number of the instruction at which
/// it continues, or None if it has ended.
fn top_at(
    session: &Session,
    points: &[SourcePoint],
    thread: u32,
    location: Location,
) -> Result<Top, Option<u32>>
    ensures { let t = session.now.code.tree in (text : List ℕ) (h : List Answered)
        → points.now ≡ source_points_of text t
        → Stands t session.now h
        → let now = configuration_after t session.now.setup h in
        let place = place_of text location in
        MatchResult result
        (λ top. (stands_at place (stack_of now thread) ≡ true) × IsTop t now thread top)
        (λ number.
        (stands_at place (stack_of now thread) ≡ false) × GoesOnAt t now thread number) }
{
    let Some(top) = session.top(thread) else {
        return Err(None);
    };
    if !is_there(points, location, top.number) {
        return Err(Some(top.number));
    }
    Ok(top)
}

/// Returns the inferred bit of the next step of a thread with this top, and whether the later steps
/// tell which way a `?` went.
fn bit_at(
    session: &Session,
    points: &[SourcePoint],
    top: Top,
    lines: &StepLines,
    next: Next,
) -> Inferred
    ensures { let t = session.now.code.tree in (text : List ℕ) (h : List Answered)
        (last : LastBits) (x : StepOf) (later : List StepOf)
        → points.now ≡ source_points_of text t
        → TellsNext text last x later lines.now next
        → let now = configuration_after t session.now.setup h in
        IsTop t now x.thread top
        → IsInferredOn t last x.thread later (stack_of now x.thread) result }
{
    let code = session.code();
    code.is_of_a_program();
    let Some(instr) = code.get(top.number) else {
        return Inferred {
            bit: false,
            is_clear: true,
        };
    };
    inferred_bit(instr, points, lines, next)
}

/// Makes the attempt of an existing thread.
fn call_of(session: &mut Session, thread: u32, bit: bool) -> Result<Call, NotCalled>
    requires thread { thread < threads session.old.setup }
    requires unseeded { session.old.setup.seed ≡ None }
    ensures called { AfterEach session.old (λ t h. IfOk result (λ c.
        IsAllowed t session.old.setup h c × Stands t session.new (h ++ c ∷ []))) }
    ensures asked { IfOk result (λ c. (c.thread ≡ thread) × (c.bit ≡ bit)) }
    ensures refused { AfterEach session.old (λ t h.
        IfErr result (IsNotCalled session.old.setup h thread)) }
    ensures kept { (session.new.code ≡ session.old.code) × (session.new.setup ≡ session.old.setup) }
{
    match session.ask_with(thread, bit) {
        Ok(call) => Ok(call),
        Err(AskError::Memory) => Err(NotCalled::Memory),
        // The thread exists, and the setup has no seed.
        Err(_) => Err(NotCalled::Finished),
    }
}

/// Returns the refusal of the step of line `n`, whose thread is at the instruction of this number.
fn refusal_of(
    points: &[SourcePoint],
    line: &StepLine,
    n: u32,
    number: Option<u32>,
    reason: StepReason,
) -> StepError
    ensures { result ≡ refusal_of points.now line.now n number reason }
{
    StepError::Refusal(StepRefusal {
        line: n,
        thread: line.thread,
        location: line.location,
        number,
        thread_place: thread_place_in(points, number),
        reason,
    })
}

/// Returns the first of the values of a line that its thread does not see after the attempt of its
/// step. The attempt follows the history.
fn first_difference(
    alloc: Global,
    checked: &Checked,
    points: &[SourcePoint],
    session: &Session,
    history: &[Call],
    line: &StepLine,
) -> Result<Option<Difference>, AllocError>
    requires code { session.now.code.tree ≡ checked.now }
    requires fits { Fits session.now.code.tree session.now.setup }
    requires playable { IsPlayable checked.now session.now.setup history.now }
    requires short { length history.now + 1 < 2 ^ 32 }
    ensures { (text : List ℕ) (call : Answered)
        → points.now ≡ source_points_of text checked.now
        → let after = history.now ++ call ∷ [] in
        let i = line.now.thread in
        Stands checked.now session.now after
        → IfOk result (λ d. MatchOption d
        (SeesValues (configuration_after checked.now session.now.setup after) i line.now.values)
        (IsDifference checked.now session.now.setup after i line.now.values)) }
{
    // Most lines have no values, and then no top is looked up.
    if line.values.is_empty() {
        return Ok(None);
    }
    let top = session.top(line.thread);
    let globals = session.globals();
    let Some(mismatch) = first_mismatch(checked, points, top, globals, line.values) else {
        return Ok(None);
    };
    let name = mismatch.name;
    let before = last_seen_of(alloc, checked, points, session, history, line.thread, name)?;
    let changed = last_seen_after(before, mismatch.seen, history.len() as u32 + 1).changed;
    Ok(Some(Difference {
        place: mismatch.place,
        seen: mismatch.seen,
        changed,
    }))
}

/// Takes the step of the line after the history, with this information of the later lines.
fn take_step(
    alloc: Global,
    checked: &Checked,
    points: &[SourcePoint],
    session: &mut Session,
    history: &[Call],
    line: &StepLine,
    lines: &StepLines,
    next: Next,
) -> Result<Call, StepError>
    requires code { session.old.code.tree ≡ checked.now }
    requires fits { Fits session.old.code.tree session.old.setup }
    requires thread { line.now.thread < threads session.old.setup }
    requires unseeded { session.old.setup.seed ≡ None }
    requires stands { Stands checked.now session.old history.now }
    requires short { length history.now + 1 < 2 ^ 32 }
    ensures stands { IfOk result (λ c. Stands checked.now session.new (history.now ++ c ∷ [])) }
    ensures follows { (text : List ℕ) (last : LastBits) (later : List StepOf)
        → points.now ≡ source_points_of text checked.now
        → TellsNext text last (step_of text line.now) later lines.now next
        → IfOk result
        (Follows checked.now session.old.setup last history.now (step_of text line.now) later) }
    ensures refused { (text : List ℕ) (last : LastBits) (later : List StepOf)
        → points.now ≡ source_points_of text checked.now
        → TellsNext text last (step_of text line.now) later lines.now next
        → let n = length history.now + 1 in
        IfErr result
        (IsNotTaken text checked.now session.old.setup history.now line.now later n) }
    ensures kept { (session.new.code ≡ session.old.code) × (session.new.setup ≡ session.old.setup) }
{
    let n = history.len() as u32 + 1;
    let top = match top_at(session, points, line.thread, line.location) {
        Ok(top) => top,
        Err(number) => return Err(refusal_of(points, line, n, number, StepReason::Elsewhere)),
    };
    let number = Some(top.number);
    let inferred = bit_at(session, points, top, lines, next);
    let call = match call_of(session, line.thread, inferred.bit) {
        Ok(call) => call,
        Err(NotCalled::Finished) => return Err(refusal_of(
            points,
            line,
            n,
            number,
            StepReason::Finished,
        )),
        Err(NotCalled::Memory) => return Err(StepError::Memory),
    };
    if !is_granted(call.reply) {
        return Err(refusal_of(points, line, n, number, StepReason::Refused(call.reply)));
    }
    let difference = first_difference(alloc, checked, points, session, history, line)?;
    if let Some(found) = difference {
        return Err(refusal_of(points, line, n, number, StepReason::Differs(found)));
    }
    if !inferred.is_clear {
        return Err(refusal_of(points, line, n, number, StepReason::Ambiguous));
    }
    Ok(call)
}

/// Returns whether the next statement of a thread is a branch or a loop of `?`.
fn is_at_fork(session: &Session, thread: u32) -> bool
    ensures { AfterEach session.now (λ t h.
        result ≡ is_fork_on (stack_of (configuration_after t session.now.setup h) thread)) }
{
    let Some(top) = session.top(thread) else {
        return false;
    };
    let code = session.code();
    code.is_of_a_program();
    let Some(instr) = code.get(top.number) else {
        return false;
    };
    is_fork(instr)
}

/// Returns whether some thread took its last bit, or takes it now: its next step is its last one,
/// and at a branch or a loop of `?`.
fn asks_now(asks: bool, session: &Session, lines: &StepLines, next: u32, thread: u32) -> bool
    ensures before { result ≡ false → asks ≡ false }
    ensures here { AfterEach session.now (λ t h. result ≡ false
        → location_in lines.now next ≡ None
        → is_fork_on (stack_of (configuration_after t session.now.setup h) thread) ≡ false) }
{
    if asks {
        return true;
    }
    location_in(lines, next).is_none() && is_at_fork(session, thread)
}

/// Adds an attempt to a history.
fn keep(history: &mut Vec<Call>, call: Call) -> Result<(), StepError>
    ensures kept { OnOk result (history.new.items ≡ history.old.items ++ call ∷ []) }
    ensures memory { IfErr result (λ f. f ≡ StepError.Memory) }
{
    if history.push(call).is_err() {
        return Err(StepError::Memory);
    }
    Ok(())
}

/// Takes the steps of all lines in a session before any attempt, with these last bits.
pub(crate) fn take_steps(
    alloc: Global,
    checked: &Checked,
    points: &[SourcePoint],
    nexts: &[u32],
    session: &mut Session,
    lines: &StepLines,
    last: GivenBits<'_>,
) -> Result<Followed, StepError>
    requires code { session.old.code.tree ≡ checked.now }
    requires fits { Fits session.old.code.tree session.old.setup }
    requires nexts { map (location_in lines.now) nexts.now ≡ next_locations lines.now }
    requires threads { AreOfThreads session.old.setup lines.now }
    requires unseeded { session.old.setup.seed ≡ None }
    requires stands { Stands checked.now session.old [] }
    requires short { length lines.now < 2 ^ 32 }
    ensures stands { IfOk result (λ f. Stands checked.now session.new f.history.items) }
    ensures followed { (text : List ℕ)
        → points.now ≡ source_points_of text checked.now
        → let steps = steps_of text lines.now in
        IfOk result (λ f.
        IsFollowed checked.now session.old.setup (last_bits last.entry) steps f.history.items) }
    ensures unasked { (text : List ℕ) (other : LastBits)
        → points.now ≡ source_points_of text checked.now
        → let steps = steps_of text lines.now in
        IfOk result (λ f.
        f.asks ≡ false → IsFollowed checked.now session.old.setup other steps f.history.items) }
    ensures refused { (text : List ℕ)
        → points.now ≡ source_points_of text checked.now
        → let s = session.old.setup in
        IfErr result (IsNotFollowed text checked.now s (last_bits last.entry) lines.now) }
    ensures kept { (session.new.code ≡ session.old.code) × (session.new.setup ≡ session.old.setup) }
{
    let mut history = Vec::with_capacity(alloc, lines.len())?;
    let mut asks = false;
    let mut n = 0;
    while n < lines.len() {
        let line = lines.at(n);
        let next = Next {
            number: nexts[n],
            follows: n + 1 < lines.len(),
            last: last_bit_of(last, line.thread),
        };
        asks = asks_now(asks, session, lines, next.number, line.thread);
        let made = history.as_slice();
        let call = take_step(alloc, checked, points, session, made, line, lines, next)?;
        keep(&mut history, call)?;
        n += 1;
    }
    Ok(Followed { history, asks })
}
