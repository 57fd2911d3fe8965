//! The command `show`: the attempts of a trace, a state, its contexts or its steps, also of the
//! accepted attempts of a trace that is refused.
ghost use Rattle.std.specs.Prelude.{◌≡◌};
ghost use Rattle.bp_text.specs.Writing.{Writes};
ghost use Rattle.bp_code.specs.WellFormedTexts.{IsWellFormedText};
ghost use Rattle.bp_commands.specs.Commands.{AnswersOf, Pair};
ghost use Rattle.bp_commands.specs.Shows.{lists_contexts, lists_steps, on_screen, refusal_text, shows_part, shows_task, states};

use bp_confirm::{own_steps, put_steps};
use bp_flat::Code;
use bp_machine::Report;
use bp_messages::Error;
use bp_source::{ShowTask, ViewFormat, ViewOptions};
use bp_text::Piece::{Bytes, Number};
use bp_text::{WriteError, put, put_pieces};
use bp_trace::accepted_trace;
use bp_view::{contexts_of, state_at, view};
use std::alloc::Global;
use std::io::Write;

/// The form of lines on standard output.
#[derive(Clone, Copy)]
pub struct Screen {
    /// Whether colours are wanted.
    pub has_colour: bool,
    /// The most columns of a line; None if it has as many as it needs.
    pub columns: Option<usize>,
}

/// The options of `show`, on a screen.
#[derive(Clone, Copy)]
pub struct Show<'a> {
    pub task: &'a ShowTask<'a>,
    pub screen: Screen,
}

/// Returns the options of a view on this screen.
fn on_screen<'a>(options: ViewOptions<'a>, screen: Screen) -> ViewOptions<'a>
    ensures { result ≡ on_screen options.entry screen }
{
    ViewOptions {
        has_colour: screen.has_colour,
        columns: screen.columns,
        ..options
    }
}

/// `show --at`: writes the state after one of the attempts of a trace: the values of the globals,
/// and for each thread its status and the frames of its stack.
fn show_state<W: Write>(
    alloc: Global,
    text: &[u8],
    code: &Code,
    trace: &[u8],
    format: ViewFormat,
    number: u64,
    out: &mut W,
) -> Result<Report, Error>
    requires { IsWellFormedText text.now code.now.tree }
    ensures { let given : Pair = record { text = text.now; input = trace.now } in
        AnswersOf (states format number) given (W.contents out.old) (W.contents out.new) result }
{
    let (state, report) = state_at(alloc, text, code, trace, format, number)?;
    put(out, &state)?;
    Ok(report)
}

/// `show --contexts`: writes a line for each context of a trace: its thread, its first and its last
/// attempt, their places, and the globals that it changed.
fn show_contexts<W: Write>(
    alloc: Global,
    text: &[u8],
    code: &Code,
    trace: &[u8],
    format: ViewFormat,
    out: &mut W,
) -> Result<Report, Error>
    requires { IsWellFormedText text.now code.now.tree }
    ensures { let given : Pair = record { text = text.now; input = trace.now } in
        AnswersOf (lists_contexts format) given (W.contents out.old) (W.contents out.new) result }
{
    let (lines, report) = contexts_of(alloc, text, code, trace, format)?;
    put(out, &lines)?;
    Ok(report)
}

/// `show --steps`: writes a line for each step of a trace, as `confirm` takes them: the thread, and
/// the line and column of its statement.
fn show_steps<W: Write>(
    alloc: Global,
    text: &[u8],
    code: &Code,
    trace: &[u8],
    out: &mut W,
) -> Result<Report, Error>
    requires { IsWellFormedText text.now code.now.tree }
    ensures { let given : Pair = record { text = text.now; input = trace.now } in
        AnswersOf lists_steps given (W.contents out.old) (W.contents out.new) result }
{
    let found = own_steps(alloc, text, code, trace)?;
    put_steps(found.steps.as_slice(), out)?;
    Ok(found.report)
}

/// Shows a trace: the state after a number of attempts, its contexts, its steps, or its attempts,
/// by the first of these that is asked for.
fn show_part<W: Write>(
    alloc: Global,
    text: &[u8],
    code: &Code,
    trace: &[u8],
    asked: Show<'_>,
    out: &mut W,
) -> Result<Report, Error>
    requires { IsWellFormedText text.now code.now.tree }
    ensures { let given : Pair = record { text = text.now; input = trace.now } in
        let command = shows_part asked.entry.task.now asked.entry.screen in
        AnswersOf command given (W.contents out.old) (W.contents out.new) result }
{
    let task = asked.task;
    let format = task.options.format;
    if let Some(number) = task.at {
        return show_state(alloc, text, code, trace, format, number, out);
    }
    if task.contexts {
        return show_contexts(alloc, text, code, trace, format, out);
    }
    if task.steps {
        return show_steps(alloc, text, code, trace, out);
    }
    let options = on_screen(task.options, asked.screen);
    let report = view(alloc, text, code, trace, options, task.program, out)?;
    Ok(report)
}

/// Writes that a trace is refused after this number of attempts.
fn put_refusal<W: Write>(format: ViewFormat, calls: u64, out: &mut W) -> Result<(), WriteError>
    ensures { Writes (W.contents out.old) (W.contents out.new) (refusal_text format calls) result }
{
    match format {
        ViewFormat::Columns => put_pieces(
            out,
            &[
                Bytes(b"the trace is refused after call "),
                Number(calls),
                Bytes(b"\n"),
            ],
        ),
        ViewFormat::Json => put_pieces(
            out,
            &[
                Bytes(b"{\"kind\":\"refused\",\"calls\":"),
                Number(calls),
                Bytes(b"}\n"),
            ],
        ),
    }
}

/// `show`: shows a trace, or with `--valid` its accepted attempts. If the trace is refused after
/// some attempts, the trace of these is shown, a last line gives their number, and then the trace
/// is refused.
pub(crate) fn show_trace<W: Write>(
    alloc: Global,
    text: &[u8],
    code: &Code,
    trace: &[u8],
    asked: Show<'_>,
    out: &mut W,
) -> Result<Report, Error>
    requires { IsWellFormedText text.now code.now.tree }
    ensures { let given : Pair = record { text = text.now; input = trace.now } in
        let command = shows_task asked.entry.task.now asked.entry.screen in
        AnswersOf command given (W.contents out.old) (W.contents out.new) result }
{
    if !asked.task.valid {
        return show_part(alloc, text, code, trace, asked, out);
    }
    let Some(accepted) = accepted_trace(alloc, code, trace)? else {
        return show_part(alloc, text, code, trace, asked, out);
    };
    let valid = accepted.trace.as_slice();
    show_part(alloc, text, code, valid, asked, out)?;
    put_refusal(asked.task.options.format, accepted.calls, out)?;
    Err(Error::from(accepted.error))
}
