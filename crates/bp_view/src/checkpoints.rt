//! Checkpoints: the session after the first attempts of a replay, so that only the later ones are
//! made once more. The attempts of a history, each with its thread's place before and after it.
ghost use Rattle.std.specs.Prelude.{◌≡◌, List, IfOk, MatchResult, if◌then◌else◌, ◌++◌, ◌∷◌, [], suc, None, Some, true, false, length, option_map, MatchOption};
ghost use Rattle.bp_syntax.specs.Ast.{Program};
ghost use Rattle.bp_machine.specs.declared.calls.Call.{Call as Answered};
ghost use Rattle.bp_machine.specs.Setups.{Fits};
ghost use Rattle.bp_machine.specs.Sessions.{Stands, last_thread, AfterEach};
ghost use Rattle.bp_machine.specs.Histories.{IsLeastWithin, granted_threads, is_granted};
ghost use Rattle.bp_trace.specs.Replays.{IsReplayed, IsReplayRefusal, IsOwnCall, IsOwnRefusal};
ghost use Rattle.bp_view.specs.CallFacts.{IsCheckpointAfter, HasCounted, is_other, is_switch, IsReplayedCall};

use bp_flat::Code;
use bp_machine::{AskError, Call, Reply, Session, Setup, Top};
use bp_trace::limits::MAX_TRACE;
use bp_trace::{ReplayError, Replayed, Watched, Watcher, replay_watched};
use std::alloc::{AllocError, Global};

/// The session after the first attempts of a history.
#[derive(Drop)]
pub struct Checkpoint {
    pub session: Session,
    /// The thread of the last step of these attempts; None if they made no step.
    pub last: Option<u32>,
    /// The number of these attempts.
    pub made: u64,
}

impl Checkpoint {
    /// Returns the checkpoint before any attempt.
    pub fn start(alloc: Global, code: &Code, setup: &Setup) -> Result<Checkpoint, AllocError>
        requires { Fits code.now.tree setup.now }
        ensures { let t = code.now.tree in (h : List Answered)
            → IfOk result (IsCheckpointAfter t setup.now h 0) }
    {
        Ok(Checkpoint {
            session: Session::new(alloc, code, setup)?,
            last: None,
            made: 0,
        })
    }
}

/// Keeps a checkpoint of a replay after this number of attempts. After none it keeps none.
#[derive(Drop)]
struct CheckpointWatcher {
    after: u64,
    /// The number of attempts made.
    made: u64,
    /// The thread of the last step; None if there is none.
    last: Option<u32>,
    kept: Option<Checkpoint>,
}

impl Watcher for CheckpointWatcher {
    ghost use Rattle.std.specs.Prelude.{◌≡◌};
    ghost use Rattle.bp_view.specs.CallFacts.{HasCounted};

    ghost sees = { λ first now t s h. (now.after ≡ first.after) × HasCounted t s h now };

    fn begin(&mut self, _setup: &Setup) -> Result<(), AllocError> {
        self.made = 0;
        self.last = None;
        self.kept = None;
        Ok(())
    }

    fn make(&mut self, session: &mut Session, recorded: &Call) -> Result<Call, AskError> {
        session.setup().is_in_range();
        let call = session.ask_as_recorded(recorded.thread, recorded.bit)?;
        self.last = last_step(self.last, &call);
        self.made = self.made.saturating_add(1);
        if self.made == self.after {
            let session = session.try_copy()?;
            let (last, made) = (self.last, self.made);
            self.kept = Some(Checkpoint {
                session,
                last,
                made,
            });
        }
        Ok(call)
    }
}

/// Returns the checkpoint that a watcher kept; if it kept none, the one after all attempts or
/// before any. The session stands after all.
fn checkpoint_of(
    alloc: Global,
    code: &Code,
    setup: &Setup,
    session: Session,
    watcher: CheckpointWatcher,
) -> Result<Checkpoint, AllocError>
    requires { Fits code.now.tree setup.now }
    ensures { let t = code.now.tree in (h : List Answered)
        → session.code.tree ≡ t
        → session.setup ≡ setup.now
        → Stands t session h
        → HasCounted t setup.now h watcher
        → IfOk result (IsCheckpointAfter t setup.now h watcher.after) }
{
    if let Some(kept) = watcher.kept {
        return Ok(kept);
    }
    if watcher.after == 0 {
        return Checkpoint::start(alloc, code, setup);
    }
    Ok(Checkpoint {
        session,
        last: watcher.last,
        made: watcher.made,
    })
}

/// Replays a text as `replay` does, and also returns the checkpoint after its first `after`
/// attempts, or after all if there are fewer.
pub fn replay_to_checkpoint(
    alloc: Global,
    code: &Code,
    text: &[u8],
    after: u64,
) -> Result<(Replayed, Checkpoint), ReplayError>
    ensures { let t = code.now.tree in MatchResult result
        (λ p. IsReplayed t text.now p.0
        × IsCheckpointAfter t p.0.setup p.0.history.items after p.1)
        (IsReplayRefusal t text.now) }
{
    if text.len() > MAX_TRACE {
        return Err(ReplayError::TooLong);
    }
    let watcher = CheckpointWatcher {
        after,
        made: 0,
        last: None,
        kept: None,
    };
    let Watched {
        replayed,
        session,
        watcher,
    } = replay_watched(alloc, code, text, watcher)?;
    let checkpoint = checkpoint_of(alloc, code, &replayed.setup, session, watcher)?;
    Ok((replayed, checkpoint))
}

/// An attempt of a history, with its thread's place before and after it.
#[derive(Clone, Copy)]
pub struct ReplayedCall {
    /// Its number in the history, from 1.
    pub number: u64,
    pub call: Call,
    /// The context of its step; None if it made none.
    pub context: Option<u32>,
    /// Whether another thread made the step before.
    pub is_switch: bool,
    /// The top of its thread's stack before it; None if the stack is empty.
    pub before: Option<Top>,
    /// The top of its thread's stack after it.
    pub after: Option<Top>,
}

/// Returns whether an attempt made a step.
pub(crate) fn is_step(reply: Reply) -> bool
    ensures { result ≡ is_granted reply }
{
    matches!(reply, Reply::Stepped | Reply::Failed)
}

/// Returns whether this thread is another one than the last.
fn is_other(last: Option<u32>, thread: u32) -> bool
    ensures { result ≡ is_other last thread }
{
    match last {
        Some(last) => last != thread,
        None => false,
    }
}

/// Returns the context of the last attempt's step, if it made one.
fn context_of(session: &Session, reply: Reply) -> Option<u32>
    ensures { (t : Program) (h : List Answered)
        → Stands t session.now h
        → MatchOption result
        (is_granted reply ≡ false)
        (λ n. (is_granted reply ≡ true) × IsLeastWithin n (granted_threads h)) }
{
    if is_step(reply) {
        return Some(session.contexts_used());
    }
    None
}

/// Returns whether an attempt made a step, and the last step was another thread's.
fn is_switch(last: Option<u32>, call: &Call) -> bool
    ensures { (h : List Answered)
        → last ≡ last_thread (granted_threads h)
        → result ≡ is_switch h call.now }
{
    is_step(call.reply) && is_other(last, call.thread)
}

/// Makes the machine's own attempt for a recorded one, and returns its facts, if the thread `last`
/// made the step before. A session refuses an attempt as `Session::ask_as_recorded` does.
pub fn replayed_call(
    session: &mut Session,
    last: Option<u32>,
    number: u64,
    recorded: &Call,
) -> Result<ReplayedCall, AskError>
    ensures answer { AfterEach session.old (λ t h. MatchResult result
        (λ m. IsOwnCall t session.old.setup h recorded.now m.call)
        (IsOwnRefusal t session.old.setup h recorded.now)) }
    ensures stands { AfterEach session.old (λ t h.
        IfOk result (λ m. Stands t session.new (h ++ m.call ∷ []))) }
    ensures kept { (session.new.code ≡ session.old.code) × (session.new.setup ≡ session.old.setup) }
    ensures is { AfterEach session.old (λ t h. last ≡ last_thread (granted_threads h)
        → number ≡ suc (length h)
        → IfOk result (λ m. IsReplayedCall t session.old.setup h m.call m)) }
{
    let before = session.top(recorded.thread);
    let call = session.ask_as_recorded(recorded.thread, recorded.bit)?;
    Ok(ReplayedCall {
        number,
        call,
        context: context_of(session, call.reply),
        is_switch: is_switch(last, &call),
        before,
        after: session.top(call.thread),
    })
}

/// Returns the thread of the last step after one more attempt.
#[tactic(auto, using(crate::proofs::SpansOfHistories::last_after))]
pub fn last_step(last: Option<u32>, call: &Call) -> Option<u32>
    ensures { (h : List Answered)
        → last ≡ last_thread (granted_threads h)
        → result ≡ last_thread (granted_threads (h ++ call.now ∷ [])) }
{
    if is_step(call.reply) {
        return Some(call.thread);
    }
    last
}

/// Returns the values that an attempt printed: the next ones, if it made a step.
pub fn printed_by(next: Option<&[bool]>, reply: Reply) -> Option<&[bool]>
    ensures { let values = option_map (λ v. v.now) next.entry in
        option_map (λ v. v.now) result ≡ (if is_granted reply then values else None) }
{
    if is_step(reply) { next } else { None }
}
