//! The data that the lines of a view share: the facts of the program, and the widths of the
//! columns. A trace that was replayed, with the source statements of its program.
ghost use Rattle.std.specs.Prelude.{◌≡◌, ◌<◌, ◌≤◌, ◌^◌, ℕ, List, length, map, max, MatchResult};
ghost use Rattle.bp_trace.specs.Replays.{IsReplayRefusal};
ghost use Rattle.bp_source.specs.SourceStatements.{AreSourceStatements};
ghost use Rattle.bp_view.specs.Filters.{watched_names, skipped};
ghost use Rattle.bp_view.specs.CallFacts.{IsCheckpoint, IsCheckpointAfter};
ghost use Rattle.bp_view.specs.Views.{IsViewContextOf, IsShownTrace};
ghost use Rattle.bp_view.specs.SetupLines.{under_headings};
ghost use Rattle.bp_view.specs.Lines.{shortened, extent_of, longest, AreWidths};

use crate::checkpoints::{Checkpoint, replay_to_checkpoint};
use crate::filters::CallFilter;
use crate::program_facts::{ProgramFacts, facts_of_program};
use crate::statement_columns::statement_room;
use crate::writers::{all_calls, filter_of};
use bp_code::Checked;
use bp_flat::Code;
use bp_machine::{Call, Setup};
use bp_source::{SourceStatement, ViewFormat, ViewOptions, source_statements_of};
use bp_text::{digits, last_line, number_of, part_before};
use bp_trace::limits::MAX_TRACE;
use bp_trace::{ReplayError, Replayed, replay};
use std::alloc::Global;

/// The most frames of a stack that indent a statement, by two columns each.
pub(crate) const MAX_INDENTS: usize = 8;

/// The widths of the columns.
#[derive(Clone, Copy)]
pub(crate) struct Widths {
    pub(crate) number: usize,
    pub(crate) thread: usize,
    pub(crate) context: usize,
    pub(crate) place: usize,
    pub(crate) notes: usize,
    /// The most bytes of a statement in its column.
    pub(crate) statement: usize,
    /// The most columns of a line; None if a line has as many as it needs.
    pub(crate) line: Option<usize>,
}

/// The context in which a view shows its attempts.
#[derive(Clone, Copy)]
pub(crate) struct ViewContext<'a> {
    pub(crate) program: ProgramFacts<'a>,
    pub(crate) widths: Widths,
    /// The whole history.
    pub(crate) history: &'a [Call],
    pub(crate) options: ViewOptions<'a>,
    /// The name of the program's text.
    pub(crate) file: &'a str,
    /// The attempts that are asked for, by the options.
    pub(crate) filter: CallFilter,
    /// The names of the watched variables, or none.
    pub(crate) names: &'a [&'a [u8]],
}

/// Returns the length of the longest place that is printed, at least 1.
fn longest_place(statements: &[SourceStatement]) -> usize
    ensures { result ≡ max 1 (longest (map (λ s. s.place.items) statements.now)) }
{
    let mut longest: usize = 1;
    for statement in statements {
        longest = longest.max(statement.place.len());
    }
    longest
}

/// Returns the length of the longest statement in its column.
fn longest_statement(statements: &[SourceStatement], room: usize) -> usize
    requires { (2 ≤ room) × (room < 2 ^ 63) }
    ensures is { let statements = map (λ s. s.excerpt.text.items) statements.now in
        result ≡ longest (map (shortened room) statements) }
    ensures fits { result < 2 ^ 63 }
{
    let mut longest: usize = 0;
    for statement in statements {
        longest = longest.max(statement.excerpt.text.len().min(room));
    }
    longest
}

/// Returns the context of a view of a history in this setup.
pub(crate) fn view_context_of<'a>(
    statements: &'a [SourceStatement],
    checked: &'a Checked,
    setup: &Setup,
    history: &'a [Call],
    options: ViewOptions<'a>,
    file: &'a str,
    names: &'a [&'a [u8]],
) -> ViewContext<'a>
    ensures known { (text : List ℕ)
        → AreSourceStatements text checked.now statements.now
        → map (λ n. n.now) names.now ≡ watched_names options.entry.watch
        → IsViewContextOf checked.now text result }
    ensures widths { AreWidths setup.now (extent_of result) result.widths }
    ensures history { result.history.now ≡ history.now }
    ensures options { result.options ≡ options.entry }
    ensures file { result.file.now ≡ file.now }
{
    let program = facts_of_program(statements, checked);
    let indents = 2 * program.procs.len().min(MAX_INDENTS);
    let room = statement_room(options.columns);
    ViewContext {
        program,
        widths: Widths {
            number: digits(history.len() as u64),
            thread: digits(u64::from(setup.threads())),
            context: digits(u64::from(setup.contexts())),
            place: longest_place(statements),
            notes: longest_statement(statements, room) + indents,
            statement: room,
            line: options.columns,
        },
        history,
        options,
        file,
        filter: filter_of(&options),
        names,
    }
}

impl<'a> ViewContext<'a> {
    /// Returns the context, but each column is at least as wide as its heading.
    pub(crate) fn under_headings(self) -> ViewContext<'a>
        ensures { result ≡ record self.entry { widths = under_headings self.entry.widths } }
    {
        ViewContext {
            widths: self.widths.under_headings(),
            ..self
        }
    }
}

/// A trace that was replayed, and the source statements of its program.
#[derive(Drop)]
pub(crate) struct ShownTrace {
    pub(crate) statements: Vec<SourceStatement>,
    pub(crate) replayed: Replayed,
}

/// Replays a trace of the program of a text. A text that is not a trace of the program is refused
/// as `replay` refuses it.
pub(crate) fn shown_trace_of(
    alloc: Global,
    text: &[u8],
    code: &Code,
    trace: &[u8],
) -> Result<ShownTrace, ReplayError>
    ensures { let t = code.now.tree in MatchResult result
        (IsShownTrace t text.now trace.now)
        (IsReplayRefusal t trace.now) }
{
    if trace.len() > MAX_TRACE {
        return Err(ReplayError::TooLong);
    }
    let statements = source_statements_of(alloc, text, code.checked())?;
    let replayed = replay(alloc, code, trace)?;
    Ok(ShownTrace {
        statements,
        replayed,
    })
}

/// Replays a trace as `shown_trace_of` does, and keeps the session after its first `after`
/// attempts, or after all if there are fewer.
pub(crate) fn shown_trace_to(
    alloc: Global,
    text: &[u8],
    code: &Code,
    trace: &[u8],
    after: u64,
) -> Result<(ShownTrace, Checkpoint), ReplayError>
    ensures { let t = code.now.tree in MatchResult result
        (λ p. IsShownTrace t text.now trace.now p.0
        × IsCheckpointAfter t p.0.replayed.setup p.0.replayed.history.items after p.1)
        (IsReplayRefusal t trace.now) }
{
    if trace.len() > MAX_TRACE {
        return Err(ReplayError::TooLong);
    }
    let statements = source_statements_of(alloc, text, code.checked())?;
    let (replayed, checkpoint) = replay_to_checkpoint(alloc, code, trace, after)?;
    let shown = ShownTrace {
        statements,
        replayed,
    };
    Ok((shown, checkpoint))
}

/// Returns the number of attempts in the `end` line of a trace, or 0.
fn told_calls(trace: &[u8]) -> u64 {
    let line = last_line(trace.strip_suffix(b"\n").unwrap_or(trace));
    let Some(counts) = line.strip_prefix(b"end ") else {
        return 0;
    };
    let size = counts.iter().position(|byte| *byte == b' ').unwrap_or(0);
    number_of(part_before(counts, size)).unwrap_or(0)
}

/// Replays a trace as `shown_trace_of` does, and keeps the session before the attempts that are
/// asked for. Their number is known from the last line before the trace is read. If that line were
/// wrong, the trace would be refused.
pub(crate) fn shown_trace_before(
    alloc: Global,
    text: &[u8],
    code: &Code,
    trace: &[u8],
    filter: &CallFilter,
) -> Result<(ShownTrace, Checkpoint), ReplayError>
    ensures { let t = code.now.tree in MatchResult result
        (λ p. let h = p.0.replayed.history.items in
        IsShownTrace t text.now trace.now p.0
        × IsCheckpoint t p.0.replayed.setup h p.1
        × (p.1.made ≤ skipped filter.now (length h)))
        (IsReplayRefusal t trace.now) }
{
    let after = filter.skipped(told_calls(trace));
    let (shown, checkpoint) = shown_trace_to(alloc, text, code, trace, after)?;
    if checkpoint.made <= filter.skipped(shown.replayed.history.len() as u64) {
        return Ok((shown, checkpoint));
    }
    let start = Checkpoint::start(alloc, code, &shown.replayed.setup)?;
    Ok((shown, start))
}

impl ShownTrace {
    /// Returns the context of a view of all attempts, without watched names.
    pub(crate) fn context<'a>(&'a self, checked: &'a Checked, format: ViewFormat) -> ViewContext<'a>
        ensures known { (text : List ℕ)
            → AreSourceStatements text checked.now self.now.statements.items
            → IsViewContextOf checked.now text result }
        ensures widths { AreWidths self.now.replayed.setup (extent_of result) result.widths }
        ensures history { result.history.now ≡ self.now.replayed.history.items }
        ensures format { result.options.format ≡ format }
        ensures columns { result.options.columns ≡ None }
    {
        view_context_of(
            self.statements.as_slice(),
            checked,
            &self.replayed.setup,
            self.replayed.history.as_slice(),
            all_calls(format),
            "",
            &[],
        )
    }
}
