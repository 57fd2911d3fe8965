//! Runs: histories of a seed and of the schedule that is drawn by it. Keys of runs, which tell runs
//! apart by their steps.
ghost use Rattle.std.specs.Prelude.{◌≡◌, ◌<◌, ◌+◌, ◌++◌, ◌∷◌, ◌||◌, [], ℕ, true, length, Some, IfOk, OnOk, take};
ghost use Rattle.bp_machine.specs.declared.calls.Call.{Call as Answered};
ghost use Rattle.bp_machine.specs.Histories.{configuration_after, outcome_of, is_failure};
ghost use Rattle.bp_machine.specs.Sessions.{Stands, AfterEach};
ghost use Rattle.bp_machine.specs.Setups.{threads, Fits};
ghost use Rattle.bp_test.specs.Reach.{IsEndKey, IsKey, IsRunKey, has_refusal, is_marked, next_place, marks_after, place_of, refuses_context, IsNextOf, IsNumberOf, IsReachedByCall, IsWaiting, MarksGrow, Reaches, key_after, key_at_end, key_with};
ghost use Rattle.bp_test.specs.Tests.{IsOver};
ghost use Rattle.bp_test.specs.declared.limits.TheConstants.{MAX_KEYS};

use crate::limits::MAX_KEYS;
use crate::pilots::Pilots;
use crate::schedulers::Scheduler;
use crate::tallies::mark;
use crate::visible_steps::VisibleSteps;
use bp_machine::{Call, Reply, Session};
use std::alloc::AllocError;

/// Makes an attempt of a thread, and appends it.
#[tactic(auto, using(crate::proofs::Plays::failure_of))]
fn play(session: &mut Session, history: &mut Vec<Call>, thread: u32) -> Result<Reply, AllocError>
    requires { Stands session.old.code.tree session.old history.old.items }
    ensures stands { OnOk result (Stands session.new.code.tree session.new history.new.items) }
    ensures longer { OnOk result (length history.new.items ≡ length history.old.items + 1) }
    ensures grown { IfOk result (λ r.
        (x : Answered)
        × (history.new.items ≡ history.old.items ++ x ∷ [])
        × (x.thread ≡ thread)
        × (x.reply ≡ r)) }
    ensures failed { IfOk result (λ r.
        r ≡ Reply.Failed
        → is_failure (outcome_of history.new.items) ≡ true) }
    ensures kept { (session.new.code ≡ session.old.code) × (session.new.setup ≡ session.old.setup) }
{
    // The thread is one that may step, and the setup has a seed.
    let Ok(call) = session.ask(thread) else {
        return Err(AllocError);
    };
    history.push(call)?;
    Ok(call.reply)
}

/// Returns the number of the next instruction of a thread, if there is one.
#[inline(always)]
pub(crate) fn next_number(session: &Session, thread: u32) -> Option<u32>
    ensures { AfterEach session.now (λ t h. let now = configuration_after t session.now.setup h in
        IsNumberOf t (next_place now thread) result) }
{
    Some(session.top(thread)?.number)
}

/// Returns whether a reply refuses a context.
fn refuses_context(reply: Reply) -> bool
    ensures { result ≡ refuses_context reply }
{
    matches!(reply, Reply::NoContexts)
}

/// Returns whether a place is marked.
pub(crate) fn is_marked(marks: &[bool], place: usize) -> bool
    ensures { result ≡ is_marked marks.now place }
{
    marks.get(place).copied().unwrap_or(false)
}

/// Marks this instruction, the next one of a thread, if the thread waits at it. It is quicker to
/// tell that the instruction is marked than that the thread waits.
fn reach_wait(reached: &mut Vec<bool>, session: &Session, thread: u32, number: Option<u32>)
    requires { thread < threads session.now.setup }
    ensures { AfterEach session.now (λ t h. let now = configuration_after t session.now.setup h in
        IsNumberOf t (next_place now thread) number
        → let is_at = IsWaiting t session.now.setup h thread in
        MarksGrow (place_of t) is_at reached.old.items reached.new.items) }
{
    let Some(number) = number else {
        return;
    };
    if is_marked(reached, number as usize) {
        return;
    }
    if session.waits(thread) {
        mark(reached, number as usize);
    }
}

/// Marks the instructions at which threads wait.
fn reach_waits(reached: &mut Vec<bool>, session: &Session)
    ensures { AfterEach session.now (λ t h. let s = session.now.setup in
        MarksGrow (place_of t) (λ x. (i : ℕ) × IsWaiting t s h i x)
        reached.old.items reached.new.items) }
{
    for thread in 0..session.setup().threads() {
        reach_wait(reached, session, thread, next_number(session, thread));
    }
}

/// The facts of a run apart from its attempts.
#[derive(Clone, Copy)]
pub(crate) struct FollowedRun {
    /// The key of its steps, or of the whole run.
    pub(crate) key: u64,
    /// Whether an attempt was refused a context.
    pub(crate) was_refused: bool,
}

/// Records an attempt of this thread at the instruction `number`, with this reply. Marks the
/// instruction, unless the thread was refused a context.
#[inline(always)]
fn note(
    run: &mut FollowedRun,
    reached: &mut Vec<bool>,
    thread: u32,
    number: Option<u32>,
    reply: Reply,
)
    ensures marks { reached.new.items ≡ marks_after number reply reached.old.items }
    ensures key { run.new.key ≡ key_after run.old.key thread number reply }
    ensures refused { run.new.was_refused ≡ (run.old.was_refused || refuses_context reply) }
{
    match number {
        Some(number) if matches!(reply, Reply::Stepped | Reply::Failed) => {
            mark(reached, number as usize);
            run.key = key_with(run.key, thread, number);
        }
        Some(number) if !refuses_context(reply) => mark(reached, number as usize),
        _ => run.was_refused = run.was_refused || refuses_context(reply),
    }
}

/// Returns the key of a run with this key of its steps, at whose end the session stands.
fn end_key(session: &Session, steps: u64) -> u64
    ensures { AfterEach session.now (λ t h. let s = session.now.setup in
        IsEndKey t (configuration_after t s h) steps (threads s) result) }
{
    let mut key = steps;
    for thread in 0..session.setup().threads() {
        key = key_at_end(key, thread, next_number(session, thread));
    }
    key
}

/// Makes attempts by the schedule, on a session before any attempt, until an assertion fails or
/// each thread rests. Marks the instructions of the attempts, and those to which an attempt leads
/// and at which its thread has to wait.
fn follow(
    session: &mut Session,
    scheduler: &mut Scheduler<'_>,
    history: &mut Vec<Call>,
    reached: &mut Vec<bool>,
) -> Result<FollowedRun, AllocError>
    requires stands { Stands session.old.code.tree session.old [] }
    requires within { scheduler.old.current < threads session.old.setup }
    requires here { IsNextOf session.old scheduler.old.current scheduler.old.number }
    ensures stands { OnOk result (Stands session.new.code.tree session.new history.new.items) }
    ensures over { OnOk result
        (IsOver session.new.code.tree session.new.setup history.new.items) }
    ensures marks { OnOk result
        (let t = session.new.code.tree in
        let by_call = IsReachedByCall t session.new.setup history.new.items in
        MarksGrow (place_of t) by_call reached.old.items reached.new.items) }
    ensures key { IfOk result (λ x.
        IsKey session.new.code.tree session.new.setup history.new.items x.key) }
    ensures refused { IfOk result (λ x. x.was_refused ≡ has_refusal history.new.items) }
    ensures kept { (session.new.code ≡ session.old.code) × (session.new.setup ≡ session.old.setup) }
{
    history.clear();
    let mut run = FollowedRun {
        key: FIRST_KEY,
        was_refused: false,
    };
    loop {
        let Some(thread) = scheduler.next(session) else {
            return Ok(run);
        };
        let number = scheduler.number;
        let reply = play(session, history, thread)?;
        note(&mut run, reached, thread, number, reply);
        let next = next_number(session, thread);
        reach_wait(reached, session, thread, next);
        scheduler.number = next;
        if reply == Reply::Failed {
            return Ok(run);
        }
    }
}

/// Makes a run with this seed, in the memory of earlier ones, and returns its facts. Its schedule
/// switches before visible steps, whose number is estimated from pilots. Marks the instructions
/// that are reached.
pub(crate) fn run_once(
    session: &mut Session,
    seed: u64,
    visible: &VisibleSteps,
    pilots: &Pilots,
    history: &mut Vec<Call>,
    reached: &mut Vec<bool>,
) -> Result<FollowedRun, AllocError>
    requires { Fits session.old.code.tree session.old.setup }
    ensures stands { OnOk result (Stands session.new.code.tree session.new history.new.items) }
    ensures over { OnOk result
        (IsOver session.new.code.tree session.new.setup history.new.items) }
    ensures marks { OnOk result
        (let t = session.new.code.tree in
        let reaches = Reaches t session.new.setup history.new.items in
        MarksGrow (place_of t) reaches reached.old.items reached.new.items) }
    ensures key { IfOk result (λ x.
        IsRunKey session.new.code.tree session.new.setup history.new.items x.key) }
    ensures refused { IfOk result (λ x. x.was_refused ≡ has_refusal history.new.items) }
    ensures code { OnOk result (session.new.code ≡ session.old.code) }
    ensures setup { OnOk result
        (session.new.setup ≡ record session.old.setup { seed = Some seed }) }
{
    session.restart(Some(seed))?;
    let mut scheduler = Scheduler::new(seed, session, visible, pilots);
    reach_waits(reached, session);
    let steps = follow(session, &mut scheduler, history, reached)?;
    reach_waits(reached, session);
    Ok(FollowedRun {
        key: end_key(session, steps.key),
        was_refused: steps.was_refused,
    })
}

/// The key of a run before its first step.
pub(crate) const FIRST_KEY: u64 = 0x9E37_79B9_7F4A_7C15;

/// The factor of each step: 2 ^ 64 over the golden ratio, which spreads small numbers well.
const FACTOR: u64 = 0x9E37_79B9_7F4A_7C15;

/// The number in place of the next instruction of a thread that has none.
const NOWHERE: u32 = u32::MAX;

/// Returns the key after a step of this thread that the instruction of this number makes. A thread
/// is below 128, so no two steps are mixed in alike.
fn key_with(key: u64, thread: u32, number: u32) -> u64
    ensures { result ≡ key_with key thread number }
{
    let step = u64::from(number) * 128 + u64::from(thread);
    (key ^ step).wrapping_mul(FACTOR)
}

/// Returns the key of a run that has ended, with the next instruction of this thread. Each thread
/// counts once, also without one, so the end of a run is not taken for steps.
pub(crate) fn key_at_end(key: u64, thread: u32, number: Option<u32>) -> u64
    ensures { result ≡ key_at_end key thread number }
{
    key_with(key, thread, number.unwrap_or(NOWHERE))
}

/// Adds the key of a run to those of the first runs.
pub(crate) fn push_key(keys: &mut Vec<u64>, key: u64) -> Result<(), AllocError>
    ensures { OnOk result (keys.new.items ≡ take MAX_KEYS (keys.old.items ++ key ∷ [])) }
{
    keys.push(key)?;
    keys.truncate(MAX_KEYS);
    Ok(())
}

/// Adds the keys of later runs to those of the first runs.
pub(crate) fn push_keys(keys: &mut Vec<u64>, others: &[u64]) -> Result<(), AllocError>
    ensures { OnOk result (keys.new.items ≡ take MAX_KEYS (keys.old.items ++ others.now)) }
{
    keys.extend_from_slice(others)?;
    keys.truncate(MAX_KEYS);
    Ok(())
}
