//! The view of a trace, and its end.
ghost use Rattle.std.specs.Prelude.{◌≡◌, ◌≤◌, ◌<◌, [], ℕ, List, length, map, take, MatchResult, OnOk};
ghost use Rattle.bp_text.specs.Writing.{AppendsPart, IsWritten};
ghost use Rattle.bp_view.specs.declared.errors.ViewError.{ViewError};
ghost use Rattle.bp_syntax.specs.Ast.{Program};
ghost use Rattle.bp_machine.specs.Setups.{threads};
ghost use Rattle.bp_machine.specs.declared.calls.Call.{Call as Answered};
ghost use Rattle.bp_machine.specs.Histories.{outcome_of};
ghost use Rattle.bp_machine.specs.Sessions.{Stands};
ghost use Rattle.bp_view.specs.Buffers.{Gains, Grown};
ghost use Rattle.bp_view.specs.CallFacts.{IsCheckpoint};
ghost use Rattle.bp_view.specs.Filters.{skipped, watched_names};
ghost use Rattle.bp_view.specs.Views.{after_footer, filter_of, IsShownTrace, HasMade, IsMissing, HaveMembers, IsSent, IsStopped, IsThere, IsView, IsViewRefusal, IsViewable, IsViewed, IsEnd, IsStateIf, IsViewContextOf};
ghost use Rattle.bp_view.specs.SetupLines.{view_head};

use crate::buffers::Buffer;
use crate::checkpoints::Checkpoint;
use crate::errors::ViewError;
use crate::outcomes::push_footer_of;
use crate::prefixes::Prefix;
use crate::program_facts::{undeclared, watched_names};
use crate::setup_lines::head_of;
use crate::statement_members::members_of_statements;
use crate::states::push_state_of;
use crate::view_contexts::{ShownTrace, ViewContext, shown_trace_before, view_context_of};
use crate::writers::{ViewWriter, filter_of};
use bp_code::Checked;
use bp_flat::Code;
use bp_machine::{Report, Session, Setup};
use bp_source::{ViewFormat, ViewOptions};
use bp_text::Piece::Bytes;
use bp_text::put;
use bp_trace::ReplayError;
use std::alloc::Global;
use std::io::Write;

/// Refuses a missing thread, if only the attempts of one thread are to be shown.
fn check_thread(options: ViewOptions<'_>, setup: &Setup) -> Result<(), ViewError>
    ensures { MatchResult result
        (λ _. IsThere options.entry.thread (threads setup.now))
        (λ f. IsMissing options.entry.thread (threads setup.now) f) }
{
    match options.thread {
        Some(thread) if setup.threads() <= thread => Err(ViewError::NoThread(thread)),
        _ => Ok(()),
    }
}

/// The bytes of a view that are gathered before they are written.
const BATCH: usize = 1 << 14;

/// Writes a text and empties it, once it has the bytes of a batch.
fn put_batch<W: Write>(text: &mut Buffer, out: &mut W) -> Result<(), ViewError>
    ensures few { OnOk result (length text.new.bytes.items < BATCH) }
    ensures sent { let old = W.contents out.old in
        let new = W.contents out.new in
        let given = text.old.bytes.items in
        MatchResult result
        (λ _. IsSent old new given text.new.bytes.items)
        (λ e. (e ≡ ViewError.Write) × AppendsPart old new given) }
{
    if text.len() < BATCH {
        return Ok(());
    }
    put(out, &text.bytes)?;
    text.clear();
    Ok(())
}

/// Writes the text of a writer, which is the head of a view, the line of each attempt that the
/// writer has not made, and the end. The attempts that it made have no lines.
fn write_parts<W: Write>(
    alloc: Global,
    writer: &mut ViewWriter<'_>,
    report: Report,
    out: &mut W,
) -> Result<(), ViewError>
    ensures { (t : Program) (text : List ℕ)
        → let s = writer.old.session.setup in
        let x = writer.old.context in
        IsViewable writer.old.session.code t text s report x
        → let whole = x.history.now in
        HasMade t (take writer.old.made whole) writer.old
        → writer.old.made ≤ length whole
        → writer.old.made ≤ skipped (filter_of x.options) (length whole)
        → let head = view_head x.options x.program.globals.now s x.widths in
        writer.old.text.bytes.items ≡ head
        → HaveMembers x.options.format x.program writer.old.statements.items
        → let is_view = IsView t text s x.history.now report x.options x.file.now in
        MatchResult result
        (λ _. IsWritten is_view (W.contents out.old) (W.contents out.new))
        (IsStopped is_view (W.contents out.old) (W.contents out.new)) }
{
    let history = writer.context.history;
    for n in writer.made as usize..history.len() {
        // An attempt of a history that may be played is refused only for memory.
        let Ok(()) = writer.make_line(&history[n]) else {
            return Err(ViewError::Memory);
        };
        put_batch(&mut writer.text, out)?;
    }
    let ViewWriter {
        text,
        context,
        session,
        ..
    } = writer;
    push_end(alloc, text, context, session, report);
    text.finish()?;
    put(out, &text.bytes)?;
    Ok(())
}

/// Writes the view of a trace that was replayed, or refuses a missing thread, or else a watched
/// name that no variable has. The attempts after the checkpoint, before which none has a line, are
/// made once more.
fn write_view<W: Write>(
    alloc: Global,
    checked: &Checked,
    shown: &ShownTrace,
    start: Checkpoint,
    options: ViewOptions<'_>,
    file: &str,
    names: &[&[u8]],
    out: &mut W,
) -> Result<(), ViewError>
    ensures { (text trace : List ℕ)
        → IsShownTrace checked.now text trace shown.now
        → let h = shown.now.replayed.history.items in
        IsCheckpoint checked.now shown.now.replayed.setup h start
        → start.made ≤ skipped (filter_of options.entry) (length h)
        → map (λ n. n.now) names.now ≡ watched_names options.entry.watch
        → let old = W.contents out.old in
        let new = W.contents out.new in
        let options = options.entry in
        let name = file.now in
        MatchResult result
        (λ _. IsViewed checked.now text trace options name old new shown.now.replayed.report)
        (IsViewRefusal checked.now text trace options name old new) }
{
    start.session.code().is_of_a_program();
    check_thread(options, &shown.replayed.setup)?;
    if let Some(n) = undeclared(checked, names) {
        return Err(ViewError::NoVariable(n));
    }
    let setup = &shown.replayed.setup;
    let history = shown.replayed.history.as_slice();
    let context = view_context_of(
        &shown.statements,
        checked,
        setup,
        history,
        options,
        file,
        names,
    );
    let context = context.under_headings();
    let head = head_of(alloc, &context, setup)?;
    let statements = members_of_statements(alloc, &context.program, options.format)?;
    let Checkpoint {
        session,
        last,
        made,
    } = start;
    let mut writer = ViewWriter {
        context,
        session,
        text: Buffer {
            bytes: head,
            refused: false,
        },
        prefix: Prefix::new(alloc),
        statements,
        changes: Vec::new(alloc),
        last,
        made,
    };
    write_parts(alloc, &mut writer, shown.replayed.report, out)
}

/// Writes a view of the history of a trace of a program, and returns its report. The view has the
/// setup, a line for each attempt that is shown, and the footer. The state after the last attempt
/// follows if it is asked for. The places in the footer have the name of the program's text before
/// them. The lines are written in batches, after the trace was replayed, with the attempts made once
/// more, from the first that is asked for.
///
/// A text that is not a trace of the program is refused as `replay` refuses it. Then a missing
/// thread is refused, and then a watched name that no variable has. Nothing is written of a refused
/// one.
pub fn view<W: Write>(
    alloc: Global,
    text: &[u8],
    code: &Code,
    trace: &[u8],
    options: ViewOptions<'_>,
    file: &str,
    out: &mut W,
) -> Result<Report, ViewError>
    ensures { let old = W.contents out.old in
        let new = W.contents out.new in
        let options = options.entry in
        let name = file.now in
        MatchResult result
        (IsViewed code.now.tree text.now trace.now options name old new)
        (IsViewRefusal code.now.tree text.now trace.now options name old new) }
{
    let filter = filter_of(&options);
    let (shown, start) = shown_trace_before(alloc, text, code, trace, &filter)?;
    let Ok(names) = watched_names(alloc, options.watch) else {
        return Err(ViewError::Replay(ReplayError::Memory));
    };
    write_view(
        alloc,
        code.checked(),
        &shown,
        start,
        options,
        file,
        &names,
        out,
    )?;
    Ok(shown.replayed.report)
}

/// Adds the text between a footer and a state: an empty line for people.
fn push_gap(view: &mut Buffer, format: ViewFormat)
    ensures { Grown view.old view.new (after_footer format []) }
{
    if let ViewFormat::Columns = format {
        view.put(Bytes(b"\n"));
    }
}

/// Adds the state of the session after a footer, if it is asked for. The session stands after the
/// last attempt.
fn push_state(alloc: Global, view: &mut Buffer, context: &ViewContext<'_>, session: &Session)
    ensures { let t = session.now.code.tree in (text : List ℕ) (h : List Answered)
        → IsViewContextOf t text context.now
        → Stands t session.now h
        → context.now.history.now ≡ h
        → let o = context.now.options in
        let state = IsStateIf o.format t text session.now.setup h o.has_state in
        Gains state view.old view.new }
{
    if !context.options.has_state {
        return;
    }
    let history = context.history;
    push_gap(view, context.options.format);
    push_state_of(alloc, view, context, session, history, history.len() as u64)
}

/// Adds the footer of the view of a history with this report, and the state after it if that is
/// asked for. The session stands after the history.
fn push_end(
    alloc: Global,
    view: &mut Buffer,
    context: &ViewContext<'_>,
    session: &Session,
    report: Report,
)
    ensures { let t = session.now.code.tree in (text : List ℕ) (h : List Answered)
        → IsViewContextOf t text context.now
        → Stands t session.now h
        → context.now.history.now ≡ h
        → report.outcome ≡ outcome_of h
        → let s = session.now.setup in
        let file = context.now.file.now in
        Gains (IsEnd context.now.options file t text s h report) view.old view.new }
{
    push_footer_of(alloc, view, context, session, report);
    push_state(alloc, view, context, session)
}
