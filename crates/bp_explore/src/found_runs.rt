//! Playing the run that an exploration found, on a session. Playing a run on a session. Playing the
//! run that makes listed steps, on a session.
ghost use Rattle.std.specs.Prelude.{◌≡◌, IsTrue, IfOk, ◌<◌, true, [], IfSome, MatchResult, length};
ghost use Rattle.bp_machine.specs.Histories.{configuration_after, calls_of_thread, granted_calls, is_granted};
ghost use Rattle.bp_machine.specs.Sessions.{Stands, AfterEach};
ghost use Rattle.bp_machine.specs.Setups.{Fits};
ghost use Rattle.bp_explore.specs.Explorations.{IsFinding, IsPlayed, IsTooLong, most_calls};
ghost use Rattle.bp_explore.specs.Searches.{IsPlayedTo, IsReplay};
ghost use Rattle.bp_explore.specs.ThroughExplorations.{IsPlayedThrough};

use crate::explorations::{Ending, Finding, FoundRun, RunThrough, ThroughEnding};
use crate::observers::{Failures, Observer, SeenStep, made_with};
use bp_flat::Code;
use bp_machine::limits::{DEFAULT_CALLS, MAX_CALLS, MAX_CONTEXTS};
use bp_machine::{Call, Reply, Session, Setup};
use std::alloc::{AllocError, Global};

/// Returns whether the session stands after this finding.
fn is_found(session: &Session, finding: Finding) -> bool
    ensures { AfterEach session.now (λ t h. IsTrue result
        → IsFinding t (configuration_after t session.now.setup h) finding) }
{
    match finding {
        Finding::Failure => session.is_failed(),
        Finding::Deadlock => session.is_deadlocked(),
    }
}

/// Plays the run of these steps, which is within this number of contexts and ends in the finding.
pub(crate) fn played(
    alloc: Global,
    code: &Code,
    setup: &Setup,
    history: Vec<Call>,
    contexts: u32,
    finding: Finding,
) -> Result<Ending, AllocError>
    requires { Fits code.now.tree setup.now }
    ensures { IfOk result (IsPlayed code.now code.now.tree setup.now contexts finding) }
{
    let played = replay_of(alloc, code, setup, &Failures, history.as_slice(), contexts)?;
    let replay = match played {
        Ok(replay) => replay,
        Err(calls) => {
            return Ok(Ending::Unplayed {
                contexts,
                finding,
                calls,
            });
        }
    };
    if !is_found(&replay.session, finding) {
        return Err(AllocError);
    }
    Ok(Ending::Found(FoundRun {
        contexts,
        finding,
        history,
        session: replay.session,
    }))
}

/// A session after a run, `made` of whose steps are listed ones.
#[derive(Drop)]
pub(crate) struct Replay {
    pub(crate) session: Session,
    pub(crate) made: u32,
}

/// Returns the number of attempts of this thread.
fn calls_of(thread: u32, calls: &[Call]) -> usize
    ensures { result ≡ length (calls_of_thread thread calls.now) }
{
    let mut count: usize = 0;
    for call in calls {
        if call.thread == thread {
            count += 1;
        }
    }
    count
}

/// Returns the largest number of attempts of one thread.
pub(crate) fn most_calls(threads: u32, calls: &[Call]) -> usize
    ensures { result ≡ most_calls threads calls.now }
{
    let mut most = 0;
    for thread in 0..threads {
        most = most.max(calls_of(thread, calls));
    }
    most
}

/// Returns whether both replies are the same, and that to a granted step.
fn is_same_step(made: Reply, reply: Reply) -> bool
    ensures { IsTrue result → (made ≡ reply) × (is_granted reply ≡ true) }
{
    match made {
        Reply::Stepped => matches!(reply, Reply::Stepped),
        Reply::Failed => matches!(reply, Reply::Failed),
        _ => false,
    }
}

/// Makes these attempts on a session, and returns the number of listed steps that they make.
/// Returns None if one is not the machine's own granted step, or comes after all listed steps.
fn play<O: Observer>(session: &mut Session, observer: &O, calls: &[Call]) -> Option<u32>
    requires stands { Stands session.old.code.tree session.old [] }
    requires some { 0 < (O.listed observer.now).count }
    ensures played { let o = O.listed observer.now in
        let s = session.new in
        IfSome result (λ made.
        let t = s.code.tree in
        Stands t s calls.now × (o.is_of t → IsPlayedTo t s.setup o calls.now made)) }
    ensures granted { IfSome result (λ made. granted_calls calls.now ≡ calls.now) }
    ensures kept { (session.new.code ≡ session.old.code) × (session.new.setup ≡ session.old.setup) }
{
    let mut made = 0;
    for call in calls {
        if made >= observer.count() {
            return None;
        }
        let before = session.top(call.thread);
        let Ok(answer) = session.ask_with(call.thread, call.bit) else {
            return None;
        };
        if !is_same_step(answer.reply, call.reply) {
            return None;
        }
        let step = SeenStep {
            thread: call.thread,
            before,
            after: session.top(call.thread),
            globals: session.globals(),
            failed: session.is_failed(),
        };
        made = made_with(observer, made, &step);
    }
    Some(made)
}

/// Plays a run within this number of contexts, in the setup of its trace. Returns the most attempts
/// of one thread if no setup allows the run.
pub(crate) fn replay_of<O: Observer>(
    alloc: Global,
    code: &Code,
    setup: &Setup,
    observer: &O,
    history: &[Call],
    contexts: u32,
) -> Result<Result<Replay, usize>, AllocError>
    requires fits { Fits code.now.tree setup.now }
    requires some { 0 < (O.listed observer.now).count }
    ensures { let o = O.listed observer.now in
        let t = code.now.tree in
        IfOk result (λ played. MatchResult played
        (IsReplay code.now t setup.now o contexts history.now)
        (IsTooLong contexts)) }
{
    let calls = most_calls(setup.threads(), history);
    if contexts > MAX_CONTEXTS || calls > MAX_CALLS as usize {
        return Ok(Err(calls));
    }
    let allowed = DEFAULT_CALLS.max(calls as u32);
    let own = setup
        .try_copy()?
        .with_seed(None)
        .with_bounds(contexts, allowed);
    let mut session = Session::new(alloc, code, &own)?;
    let Some(made) = play(&mut session, observer, history) else {
        return Err(AllocError);
    };
    Ok(Ok(Replay { session, made }))
}

/// Plays the run of these steps, which is within these contexts and makes all listed steps.
pub(crate) fn played_through<O: Observer>(
    alloc: Global,
    code: &Code,
    setup: &Setup,
    observer: &O,
    history: Vec<Call>,
    contexts: u32,
) -> Result<ThroughEnding, AllocError>
    requires fits { Fits code.now.tree setup.now }
    requires some { 0 < (O.listed observer.now).count }
    ensures { let o = O.listed observer.now in
        let t = code.now.tree in o.is_of t
        → IfOk result (IsPlayedThrough code.now t setup.now o contexts) }
{
    let played = replay_of(alloc, code, setup, observer, history.as_slice(), contexts)?;
    let replay = match played {
        Ok(replay) => replay,
        Err(calls) => return Ok(ThroughEnding::Unplayed { contexts, calls }),
    };
    if replay.made < observer.count() {
        return Err(AllocError);
    }
    Ok(ThroughEnding::Found(RunThrough {
        contexts,
        history,
        session: replay.session,
    }))
}
