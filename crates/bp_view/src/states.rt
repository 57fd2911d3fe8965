//! The text of a state, from its facts: the values of the globals, and the status of each thread.
ghost use Rattle.std.specs.Prelude.{◌≡◌, ℕ, List, map, MatchResult};
ghost use Rattle.bp_flat.specs.InstrEffects.{bits_of};
ghost use Rattle.bp_flat.specs.StandsFor.{valuation_of};
ghost use Rattle.bp_machine.specs.Sessions.{Stands};
ghost use Rattle.bp_trace.specs.Replays.{IsReplayRefusal};
ghost use Rattle.bp_source.specs.declared.options.ViewFormat.TheVariants.{Columns, Json};
ghost use Rattle.bp_view.specs.Buffers.{Gains, Grown};
ghost use Rattle.bp_view.specs.StateFacts.{state_in, thread_in};
ghost use Rattle.bp_view.specs.SetupLines.{globals_line};
ghost use Rattle.bp_view.specs.Views.{IsViewContextOf};
ghost use Rattle.bp_view.specs.States.{failed_line, failed_thread, status_name, status_text, state_members, state_text, thread_text, threads_text, IsStateOfTrace, IsStateText};

use crate::buffers::Buffer;
use crate::filters::calls_to;
use crate::frames::push_frames;
use crate::state_facts::{StateFacts, Status, ThreadFacts, facts_of_state};
use crate::variables::push_values;
use crate::view_contexts::{ViewContext, shown_trace_to};
use bp_code::Checked;
use bp_flat::Code;
use bp_machine::{Call, Outcome, Report, Session};
use bp_source::ViewFormat;
use bp_syntax::Name;
use bp_text::Piece::{Bytes, Key, Number, NumberOrNull, Text};
use bp_trace::ReplayError;
use std::alloc::Global;

/// Returns the status of a thread, for people.
fn status_text(status: Status) -> &'static [u8]
    ensures { result.now ≡ status_text status }
{
    match status {
        Status::Finished => b" is finished",
        Status::Failed => b" failed",
        Status::OutOfContexts => b" is out of contexts",
        Status::OutOfCalls => b" is out of calls",
        Status::FullStack => b" has a full stack",
        Status::Stopped => b" is stopped",
        Status::Waiting => b" waits",
        Status::Open => b" goes on",
    }
}

/// Returns the status of a thread, in JSON.
fn status_name(status: Status) -> &'static [u8]
    ensures { result.now ≡ status_name status }
{
    match status {
        Status::Finished => b"finished",
        Status::Failed => b"failed",
        Status::OutOfContexts => b"out_of_contexts",
        Status::OutOfCalls => b"out_of_calls",
        Status::FullStack => b"stack_full",
        Status::Stopped => b"stopped",
        Status::Waiting => b"waiting",
        Status::Open => b"open",
    }
}

/// Adds a thread and its frames, for people.
fn push_thread_lines(view: &mut Buffer, thread: &ThreadFacts<'_>)
    ensures { Grown view.old view.new (thread_text Columns (thread_in thread.now)) }
{
    view.put_pieces(&[
        Bytes(b"\nthread "),
        Number(u64::from(thread.thread)),
        Bytes(status_text(thread.status)),
        Bytes(b"\n"),
    ]);
    push_frames(view, ViewFormat::Columns, thread.frames.as_slice())
}

/// Adds a thread and its frames as an object of JSON, after a comma.
fn push_thread_object(view: &mut Buffer, thread: &ThreadFacts<'_>)
    ensures { Grown view.old view.new (thread_text Json (thread_in thread.now)) }
{
    view.put_pieces(&[
        Bytes(b",{\"thread\":"),
        Number(u64::from(thread.thread)),
        Key(b"standing"),
        Text(status_name(thread.status)),
        Key(b"frames"),
    ]);
    let start = view.len();
    push_frames(view, ViewFormat::Json, thread.frames.as_slice());
    view.close_list(start);
    view.put(Bytes(b"}"))
}

/// Adds a thread.
fn push_thread(view: &mut Buffer, format: ViewFormat, thread: &ThreadFacts<'_>)
    ensures { Grown view.old view.new (thread_text format (thread_in thread.now)) }
{
    match format {
        ViewFormat::Columns => push_thread_lines(view, thread),
        ViewFormat::Json => push_thread_object(view, thread),
    }
}

/// Adds all threads.
#[tactic(auto, using(crate::proofs::SingleFacts::all_mapped))]
fn push_threads(view: &mut Buffer, format: ViewFormat, threads: &[ThreadFacts<'_>])
    ensures { Grown view.old view.new (threads_text format (map thread_in threads.now)) }
{
    for thread in threads {
        push_thread(view, format, thread);
    }
}

/// Adds that an assertion failed, if one did.
fn push_failed_line(view: &mut Buffer, outcome: Outcome)
    ensures { Grown view.old view.new (failed_line outcome) }
{
    if let Outcome::Failed { thread } = outcome {
        view.put_three(
            Bytes(b"an assertion of thread "),
            Number(u64::from(thread)),
            Bytes(b" failed\n"),
        );
    }
}

/// Adds the line of the globals, if there are any.
fn push_globals_line(view: &mut Buffer, globals: &[Name], word: u128)
    ensures { let values = valuation_of globals.now (bits_of word) in
        Grown view.old view.new (globals_line values) }
{
    if globals.is_empty() {
        return;
    }
    view.put(Bytes(b"globals"));
    push_values(view, ViewFormat::Columns, None, globals, 0, word);
    view.put(Bytes(b"\n"))
}

/// Adds a state, for people.
fn push_state_lines(view: &mut Buffer, state: &StateFacts<'_>)
    ensures { Grown view.old view.new (state_text Columns (state_in state.now)) }
{
    view.put_pieces(&[
        Bytes(b"after call "),
        Number(state.number),
        Bytes(b" of "),
        Number(state.count),
        Bytes(b"\n"),
    ]);
    push_failed_line(view, state.outcome);
    push_globals_line(view, state.globals, state.values);
    push_threads(view, ViewFormat::Columns, state.threads.as_slice())
}

/// Returns the number of the thread whose assertion failed.
fn failed_thread(outcome: Outcome) -> Option<u64>
    ensures { result ≡ failed_thread outcome }
{
    match outcome {
        Outcome::Clean => None,
        Outcome::Failed { thread } => Some(u64::from(thread)),
    }
}

/// Adds the members of a state that have one value each, and the key of the globals.
fn push_state_members(view: &mut Buffer, state: &StateFacts<'_>)
    ensures { Grown view.old view.new (state_members (state_in state.now)) }
{
    view.put_pieces(&[
        Bytes(b"{\"kind\":\"state\",\"version\":2"),
        Key(b"call"),
        Number(state.number),
        Key(b"calls"),
        Number(state.count),
        Key(b"failed"),
        NumberOrNull(failed_thread(state.outcome)),
        Key(b"globals"),
    ])
}

/// Adds a state as an object of JSON.
fn push_state_object(view: &mut Buffer, state: &StateFacts<'_>)
    ensures { Grown view.old view.new (state_text Json (state_in state.now)) }
{
    push_state_members(view, state);
    let globals = view.len();
    push_values(view, ViewFormat::Json, None, state.globals, 0, state.values);
    view.close_list(globals);
    view.put(Key(b"threads"));
    let threads = view.len();
    push_threads(view, ViewFormat::Json, state.threads.as_slice());
    view.close_list(threads);
    view.put(Bytes(b"}\n"))
}

/// Adds a state.
fn push_state(view: &mut Buffer, format: ViewFormat, state: &StateFacts<'_>)
    ensures { Grown view.old view.new (state_text format (state_in state.now)) }
{
    match format {
        ViewFormat::Columns => push_state_lines(view, state),
        ViewFormat::Json => push_state_object(view, state),
    }
}

/// Adds the state of the session, which stands after this history, a prefix of one of `count`
/// attempts.
pub(crate) fn push_state_of(
    alloc: Global,
    view: &mut Buffer,
    context: &ViewContext<'_>,
    session: &Session,
    history: &[Call],
    count: u64,
)
    ensures { let t = session.now.code.tree in (text : List ℕ)
        → IsViewContextOf t text context.now
        → Stands t session.now history.now
        → let format = context.now.options.format in
        let state = IsStateText format t text session.now.setup history.now count in
        Gains state view.old view.new }
{
    let Ok(facts) = facts_of_state(alloc, &context.program, session, history, count) else {
        return view.refuse();
    };
    push_state(view, context.options.format, &facts)
}

/// Returns the state after the first `number` attempts of a trace, or after the last if there are
/// fewer, and the report of the whole trace. The state has the values of the globals, the status of
/// each thread, and the frames of its stack. A text that is not a trace of the program is refused
/// as `replay` refuses it.
pub fn state_at(
    alloc: Global,
    text: &[u8],
    code: &Code,
    trace: &[u8],
    format: ViewFormat,
    number: u64,
) -> Result<(Vec<u8>, Report), ReplayError>
    ensures { MatchResult result
        (λ p. IsStateOfTrace format number code.now.tree text.now trace.now p.0.items p.1)
        (IsReplayRefusal code.now.tree trace.now) }
{
    let (shown, checkpoint) = shown_trace_to(alloc, text, code, trace, number)?;
    let calls = calls_to(shown.replayed.history.as_slice(), number);
    let context = shown.context(code.checked(), format);
    let count = context.history.len() as u64;
    let mut view = Buffer::new(alloc);
    push_state_of(
        alloc,
        &mut view,
        &context,
        &checkpoint.session,
        calls,
        count,
    );
    let Ok(state) = view.into_bytes() else {
        return Err(ReplayError::Memory);
    };
    Ok((state, shown.replayed.report))
}
