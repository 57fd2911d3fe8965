//! The contexts of a history, a line for each.
ghost use Rattle.std.specs.Prelude.{◌≡◌, ◌++◌, ℕ, suc, List, length, MatchResult};
ghost use Rattle.bp_syntax.specs.Ast.{Program};
ghost use Rattle.bp_machine.specs.declared.calls.Call.{Call as Answered};
ghost use Rattle.bp_machine.specs.Setups.{SetupOf};
ghost use Rattle.bp_trace.specs.Replays.{IsReplayRefusal};
ghost use Rattle.bp_text.specs.Pieces.{key_text};
ghost use Rattle.bp_text.specs.Lines.{IsInParts};
ghost use Rattle.bp_view.specs.Buffers.{Gains, Grown};
ghost use Rattle.bp_view.specs.ContextLines.{context_in, AreSpans, IsSpan, context_line, context_object, context_text, contexts_head, position_or_null, AreContextsOfTrace, IsContextLine};
ghost use Rattle.bp_view.specs.Views.{IsViewContextOf};

use crate::buffers::Buffer;
use crate::call_facts::{ContextFacts, facts_of_context, fill_changes_within};
use crate::change_facts::Change;
use crate::lines::push_changed;
use crate::spans::{Span, spans_of};
use crate::view_contexts::{ViewContext, Widths, shown_trace_of};
use bp_code::Checked;
use bp_flat::Code;
use bp_machine::Report;
use bp_source::ViewFormat;
use bp_text::Piece::{Bytes, Key, Left, Number, NumberRight, Spaces};
use bp_text::Position;
use bp_trace::ReplayError;
use std::alloc::Global;

/// Adds a context for people.
fn push_context_line(view: &mut Buffer, widths: Widths, facts: &ContextFacts<'_>)
    ensures { Grown view.old view.new (context_line widths (context_in facts.now)) }
{
    let (from, to) = (facts.from.place, facts.to.place);
    view.put_pieces(&[
        Bytes(b"context "),
        NumberRight(widths.context, facts.number),
        Bytes(b" thread "),
        NumberRight(widths.thread, u64::from(facts.thread)),
        Bytes(b" calls "),
        NumberRight(widths.number, facts.first),
        Bytes(b" to "),
        NumberRight(widths.number, facts.last),
        Bytes(b" from "),
        Left(widths.place, from),
        Bytes(b" to "),
        Bytes(to),
    ]);
    let start = view.len();
    view.put(Spaces(widths.place.saturating_sub(to.len())));
    let middle = view.len();
    push_changed(view, ViewFormat::Columns, facts.changes);
    view.drop_lead(start, middle);
    view.put(Bytes(b"\n"))
}

/// Adds a place as a member of an object: an object of JSON, or null.
fn push_position(view: &mut Buffer, key: &'static [u8], position: Option<Position>)
    ensures { let place = position_or_null position in
        Grown view.old view.new (key_text key.entry.now ++ place) }
{
    let Some(position) = position else {
        return view.put_two(Key(key), Bytes(b"null"));
    };
    view.put_pieces(&[
        Key(key),
        Bytes(b"{\"line\":"),
        Number(position.line as u64),
        Key(b"column"),
        Number(position.column as u64),
        Bytes(b"}"),
    ])
}

/// Adds a context as an object of JSON.
fn push_context_object(view: &mut Buffer, facts: &ContextFacts<'_>)
    ensures { Grown view.old view.new (context_object (context_in facts.now)) }
{
    view.put_pieces(&[
        Bytes(b"{\"kind\":\"context\""),
        Key(b"context"),
        Number(facts.number),
        Key(b"thread"),
        Number(u64::from(facts.thread)),
        Key(b"first"),
        Number(facts.first),
        Key(b"last"),
        Number(facts.last),
    ]);
    push_position(view, b"from", facts.from.position);
    push_position(view, b"to", facts.to.position);
    view.put(Key(b"changes"));
    let start = view.len();
    push_changed(view, ViewFormat::Json, facts.changes);
    view.close_list(start);
    view.put(Bytes(b"}\n"))
}

/// Adds a context in the format of the view.
fn push_context_in(view: &mut Buffer, context: &ViewContext<'_>, facts: &ContextFacts<'_>)
    ensures { let format = context.now.options.format in
        let line = context_text format context.now.widths (context_in facts.now) in
        Grown view.old view.new line }
{
    match context.options.format {
        ViewFormat::Columns => push_context_line(view, context.widths, facts),
        ViewFormat::Json => push_context_object(view, facts),
    }
}

/// Adds the line of the context of this number. `changes` is room for its changes.
fn push_context<'a>(
    view: &mut Buffer,
    changes: &mut Vec<Change<'a>>,
    context: &ViewContext<'a>,
    number: u64,
    span: &Span,
)
    ensures { (t : Program) (text : List ℕ) (s : SetupOf) (h : List Answered)
        → IsViewContextOf t text context.now
        → IsSpan t s h number span.now
        → let format = context.now.options.format in
        let line = IsContextLine format t text s h context.now.widths number in
        Gains line view.old view.new }
{
    let Ok(()) = fill_changes_within(changes, &context.program, span) else {
        return view.refuse();
    };
    let facts = facts_of_context(&context.program, number, span, changes);
    push_context_in(view, context, &facts)
}

/// Adds a line for each context. `changes` is room for the changes of one.
fn push_contexts<'a>(
    view: &mut Buffer,
    changes: &mut Vec<Change<'a>>,
    context: &ViewContext<'a>,
    spans: &[Span],
)
    ensures { (t : Program) (text : List ℕ) (s : SetupOf) (h : List Answered)
        → IsViewContextOf t text context.now
        → AreSpans t s h spans.now
        → let line = IsContextLine context.now.options.format t text s h context.now.widths in
        let lines = IsInParts (λ k part. line (suc k) part) (length spans.now) in
        Gains lines view.old view.new }
{
    for (n, span) in spans.iter().enumerate() {
        push_context(view, changes, context, n as u64 + 1, span);
    }
}

/// Adds the text before the contexts.
fn push_contexts_head(view: &mut Buffer, format: ViewFormat, calls: u64, contexts: u64)
    ensures { Grown view.old view.new (contexts_head format calls contexts) }
{
    if let ViewFormat::Json = format {
        view.put_pieces(&[
            Bytes(b"{\"kind\":\"contexts\",\"version\":1"),
            Key(b"calls"),
            Number(calls),
            Key(b"contexts"),
            Number(contexts),
            Bytes(b"}\n"),
        ]);
    }
}

/// Returns a line for each context of a trace, and the report of the trace: the thread of the
/// context, its first and last attempt, the thread's places before and after it, and the globals
/// that it changed. A text that is not a trace of the program is refused as `replay` refuses it.
pub fn contexts_of(
    alloc: Global,
    text: &[u8],
    code: &Code,
    trace: &[u8],
    format: ViewFormat,
) -> Result<(Vec<u8>, Report), ReplayError>
    ensures { MatchResult result
        (λ p. AreContextsOfTrace format code.now.tree text.now trace.now p.0.items p.1)
        (IsReplayRefusal code.now.tree trace.now) }
{
    let shown = shown_trace_of(alloc, text, code, trace)?;
    let history = shown.replayed.history.as_slice();
    let Ok(spans) = spans_of(alloc, code, &shown.replayed.setup, history) else {
        return Err(ReplayError::Memory);
    };
    let context = shown.context(code.checked(), format);
    let mut view = Buffer::new(alloc);
    let calls = context.history.len() as u64;
    push_contexts_head(&mut view, format, calls, spans.len() as u64);
    let mut changes = Vec::new(alloc);
    push_contexts(&mut view, &mut changes, &context, &spans);
    let Ok(lines) = view.into_bytes() else {
        return Err(ReplayError::Memory);
    };
    Ok((lines, shown.replayed.report))
}
