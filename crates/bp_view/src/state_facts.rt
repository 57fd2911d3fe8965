//! The shown facts of a state, as plain values. The status of a thread after a history.
ghost use Rattle.std.specs.Prelude.{◌≡◌, ◌<◌, ℕ, List, Some, length, map, slice_get, IfOk, IsSomeAnd};
ghost use Rattle.bp_flat.specs.Moves.{Frame};
ghost use Rattle.bp_machine.specs.Histories.{calls_of_thread, stack_of, configuration_after};
ghost use Rattle.bp_machine.specs.Sessions.{Stands, AfterEach};
ghost use Rattle.bp_machine.specs.Setups.{threads};
ghost use Rattle.bp_machine.specs.declared.calls.Call.{Call as Answered};
ghost use Rattle.bp_view.specs.StateFacts.{last_reply, status, status_after, frame_in, state_in, thread_in, AreFrameFacts, AreStackFacts, AreStateFacts, AreThreadFacts, AreThreadsFacts};
ghost use Rattle.bp_view.specs.CallFacts.{AreProgramFacts};

use crate::program_facts::{ProgramFacts, source_statement_of};
use bp_machine::{Call, Outcome, Reply, Session};
use bp_source::procedure_at;
use bp_syntax::{Name, Proc};
use bp_text::Position;
use std::alloc::{AllocError, Global};

/// The status of a thread.
#[derive(Clone, Copy)]
pub enum Status {
    /// It has ended.
    Finished,
    /// Its assertion failed.
    Failed,
    /// One more step of it is not within the allowed contexts.
    OutOfContexts,
    /// It has made all the attempts that it may make.
    OutOfCalls,
    /// Its next step is a call, and its stack has no room for a frame.
    FullStack,
    /// An assertion failed, so it makes no more steps.
    Stopped,
    /// Its next statement is an assumption of 0.
    Waiting,
    /// It continues.
    Open,
}

/// Returns the reply to the last attempt of the thread.
#[tactic(auto, using(crate::proofs::RecordedCalls::other, crate::proofs::RecordedCalls::own))]
fn last_reply(history: &[Call], thread: u32) -> Option<Reply>
    ensures { result ≡ last_reply (calls_of_thread thread history.now) }
{
    let mut last = None;
    for call in history {
        if call.thread == thread {
            last = Some(call.reply);
        }
    }
    last
}

impl Status {
    /// Returns why a thread makes no more attempts, by the reply to its last one.
    fn after(last: Option<Reply>) -> Status
        ensures { result ≡ status_after last }
    {
        match last {
            Some(Reply::Ended) => Status::Finished,
            Some(Reply::Failed) => Status::Failed,
            Some(Reply::NoContexts) => Status::OutOfContexts,
            Some(Reply::Full) => Status::FullStack,
            Some(Reply::Stopped) => Status::Stopped,
            Some(Reply::Blocked | Reply::Stepped) | None => Status::OutOfCalls,
        }
    }

    /// Returns the status of a thread of a session, which stands after this history.
    pub(crate) fn of(session: &Session, history: &[Call], thread: u32) -> Status
        requires { thread < threads session.now.setup }
        ensures { let t = session.now.code.tree in Stands t session.now history.now
            → result ≡ status t session.now.setup history.now thread }
    {
        if session.is_terminated(thread) {
            return Status::after(last_reply(history, thread));
        }
        if session.waits(thread) {
            return Status::Waiting;
        }
        if session.is_failed() {
            return Status::Stopped;
        }
        Status::Open
    }
}

/// The shown facts of a frame.
#[derive(Clone, Copy)]
pub struct FrameFacts<'a> {
    /// The number of frames above it.
    pub above: usize,
    /// Its procedure.
    pub proc: &'a Proc,
    /// The start of its next statement, as printed.
    pub place: &'a [u8],
    /// The start as a line and a column; None at the end of the procedure.
    pub position: Option<Position>,
    /// The text of the statement.
    pub text: &'a [u8],
    /// The bits of its formals and its locals.
    pub locals: u128,
}

/// The shown facts of a thread.
#[derive(Drop)]
pub struct ThreadFacts<'a> {
    /// Its number.
    pub thread: u32,
    pub status: Status,
    /// The frames of its stack, from the top.
    pub frames: Vec<FrameFacts<'a>>,
}

/// The shown facts of a state.
#[derive(Drop)]
pub struct StateFacts<'a> {
    /// The number of attempts made.
    pub number: u64,
    /// The number of attempts of the history.
    pub count: u64,
    /// Whether an assertion failed, and whose.
    pub outcome: Outcome,
    pub globals: &'a [Name],
    /// The bits of the globals.
    pub values: u128,
    /// All threads, in the order of their numbers.
    pub threads: Vec<ThreadFacts<'a>>,
}

/// Returns the frame of a thread's stack with `above` others above it.
fn frame_below<'a>(
    program: &ProgramFacts<'a>,
    session: &Session,
    thread: u32,
    above: usize,
) -> Option<FrameFacts<'a>>
    ensures { let t = session.now.code.tree in (text : List ℕ) (h : List Answered) (f : Frame)
        → AreProgramFacts t text program.now
        → Stands t session.now h
        → let now = configuration_after t session.now.setup h in
        slice_get (stack_of now thread) above ≡ Some f
        → IsSomeAnd result (λ x. AreFrameFacts text above f (frame_in x)) }
{
    let top = session.top_below(thread, above)?;
    let statement = source_statement_of(program, top)?;
    let proc = procedure_at(program.statements, program.procs, top.number)?;
    Some(FrameFacts {
        above,
        proc,
        place: statement.place.as_slice(),
        position: statement.position,
        text: statement.excerpt.text.as_slice(),
        locals: top.store.locals,
    })
}

/// Returns the number of frames on the stack of a thread.
fn depth_of(session: &Session, thread: u32) -> usize
    ensures { AfterEach session.now (λ t h. let now = configuration_after t session.now.setup h in
        result ≡ length (stack_of now thread)) }
{
    match session.top(thread) {
        Some(top) => top.depth,
        None => 0,
    }
}

/// Returns the frames of a thread's stack, from the top.
fn frames_of<'a>(
    alloc: Global,
    program: &ProgramFacts<'a>,
    session: &Session,
    thread: u32,
) -> Result<Vec<FrameFacts<'a>>, AllocError>
    ensures { let t = session.now.code.tree in (text : List ℕ) (h : List Answered)
        → AreProgramFacts t text program.now
        → Stands t session.now h
        → let stack = stack_of (configuration_after t session.now.setup h) thread in
        IfOk result (λ v. AreStackFacts text 0 stack (map frame_in v.items)) }
{
    let mut frames = Vec::new(alloc);
    for above in 0..depth_of(session, thread) {
        let Some(frame) = frame_below(program, session, thread, above) else {
            return Ok(frames);
        };
        frames.push(frame)?;
    }
    Ok(frames)
}

/// Returns the facts of a thread of the session, which stands after this history.
fn facts_of_thread<'a>(
    alloc: Global,
    program: &ProgramFacts<'a>,
    session: &Session,
    history: &[Call],
    thread: u32,
) -> Result<ThreadFacts<'a>, AllocError>
    requires { thread < threads session.now.setup }
    ensures { let t = session.now.code.tree in (text : List ℕ)
        → AreProgramFacts t text program.now
        → Stands t session.now history.now
        → let s = session.now.setup in
        IfOk result (λ x. AreThreadFacts t text s history.now thread (thread_in x)) }
{
    let frames = frames_of(alloc, program, session, thread)?;
    Ok(ThreadFacts {
        thread,
        status: Status::of(session, history, thread),
        frames,
    })
}

/// Returns the facts of each thread of the session, which stands after this history.
fn threads_of<'a>(
    alloc: Global,
    program: &ProgramFacts<'a>,
    session: &Session,
    history: &[Call],
) -> Result<Vec<ThreadFacts<'a>>, AllocError>
    ensures count { IfOk result (λ v. length v.items ≡ threads session.now.setup) }
    ensures each { let t = session.now.code.tree in (text : List ℕ)
        → AreProgramFacts t text program.now
        → Stands t session.now history.now
        → let s = session.now.setup in
        IfOk result (λ v. AreThreadsFacts t text s history.now 0 (map thread_in v.items)) }
{
    session.setup().is_in_range();
    let mut threads = Vec::new(alloc);
    for thread in 0..session.setup().threads() {
        threads.push(facts_of_thread(alloc, program, session, history, thread)?)?;
    }
    Ok(threads)
}

/// Returns the facts of the state of the session, which stands after this history, a prefix of one
/// of `count` attempts. Fails only on allocation.
pub fn facts_of_state<'a>(
    alloc: Global,
    program: &ProgramFacts<'a>,
    session: &Session,
    history: &[Call],
    count: u64,
) -> Result<StateFacts<'a>, AllocError>
    ensures { let t = session.now.code.tree in (text : List ℕ)
        → AreProgramFacts t text program.now
        → Stands t session.now history.now
        → let s = session.now.setup in
        IfOk result (λ x. AreStateFacts t text s history.now count (state_in x)) }
{
    let threads = threads_of(alloc, program, session, history)?;
    let report = session.report();
    Ok(StateFacts {
        number: report.calls,
        count,
        outcome: report.outcome,
        globals: program.globals,
        values: session.globals(),
        threads,
    })
}
