//! The line of an attempt in columns, from its facts.
ghost use Rattle.std.specs.Prelude.{◌≡◌, ◌++◌, ◌∷◌, [], codes, map};
ghost use Rattle.std.specs.List.{concat};
ghost use Rattle.bp_text.specs.Pieces.{at_left, spaces};
ghost use Rattle.bp_view.specs.Buffers.{Grown};
ghost use Rattle.bp_view.specs.CallFacts.{facts_in, next_in, entry_of};
ghost use Rattle.bp_view.specs.Lines.{closing, call_text, choice_text, column_line, field_texts, fitted_text, indented, led, mark_text, narrow_text, note_text, reply_note, times_text, entries_text};

use crate::buffers::Buffer;
use crate::call_facts::{CallFacts, Next};
use crate::change_facts::Change;
use crate::prefixes::{Colour, Prefix, PrefixKey};
use crate::statement_columns::{cut_after, in_column};
use crate::variables::push_value;
use crate::view_contexts::{MAX_INDENTS, Widths};
use bp_machine::Reply;
use bp_source::ViewFormat;
use bp_text::Piece::{Bytes, Left, Number, Spaces};

/// Returns the note of a reply.
fn reply_note(reply: Reply) -> &'static [u8]
    ensures { result.now ≡ reply_note reply }
{
    match reply {
        Reply::Stopped => b" stopped",
        Reply::Ended => b" ended",
        Reply::NoContexts => b" out of contexts",
        Reply::Full => b" stack full",
        Reply::Blocked => b" waits",
        Reply::Failed => b" failed",
        Reply::Stepped => b"",
    }
}

/// Returns the sign of a switch.
fn mark(is_switch: bool) -> u8
    ensures { result ∷ [] ≡ mark_text is_switch }
{
    if is_switch { b'>' } else { b' ' }
}

/// Adds the fields of an attempt: its number, its thread and its context.
fn push_fields(line: &mut Buffer, prefix: &mut Prefix, widths: &Widths, facts: &CallFacts<'_>)
    ensures { Grown line.old line.new (concat (field_texts widths.now (facts_in facts.now))) }
{
    let key = PrefixKey {
        tens: facts.number / 10,
        thread: facts.call.thread,
        context: facts.context,
        number_width: widths.number,
        thread_width: widths.thread,
        context_width: widths.context,
    };
    let digit = b'0' + (facts.number % 10) as u8;
    let Ok(()) = prefix.set(key, mark(facts.is_switch), digit) else {
        return line.refuse();
    };
    line.put(Bytes(&prefix.text))
}

/// Adds the place of the statement, and the statement, moved to the right by the depth of the
/// stack; no text if there is none.
#[inline(always)]
fn push_statement(line: &mut Buffer, widths: &Widths, next: &Next<'_>)
    ensures { let next = next_in next.now in
        let place = at_left widths.now.place next.place in
        let statement = indented widths.now.statement next.depth next.text in
        Grown line.old line.new (place ++ statement) }
{
    let Some(statement) = next.text else {
        return line.put(Left(widths.place, next.place));
    };
    let padding = widths.place.saturating_sub(next.place.len());
    let indent = 2 * next.depth.min(MAX_INDENTS);
    // The spaces after the place and those before the statement are added at once.
    let Some(gap) = padding.checked_add(indent) else {
        return line.refuse();
    };
    let (shown, end) = in_column(widths.statement, statement);
    line.put_three(Bytes(next.place), Spaces(gap), Bytes(shown));
    if end.is_empty() {
        return;
    }
    line.put(Bytes(end))
}

/// Returns a choice bit, if one is shown.
fn choice_note(choice: Option<bool>) -> &'static [u8]
    ensures { result.now ≡ choice_text choice }
{
    match choice {
        Some(true) => b" ?=1",
        Some(false) => b" ?=0",
        None => b"",
    }
}

/// Adds the variables that an attempt changed.
#[tactic(auto, using(crate::proofs::SingleFacts::all_mapped))]
pub(crate) fn push_changed(note: &mut Buffer, format: ViewFormat, changes: &[Change<'_>])
    ensures { Grown note.old note.new (entries_text format (map entry_of changes.now)) }
{
    for change in changes {
        push_value(note, format, change.owner, change.name, change.value);
    }
}

/// Adds the number of attempts in a line, if there are several.
fn push_times(note: &mut Buffer, calls: usize)
    ensures { Grown note.old note.new (times_text calls) }
{
    if calls > 1 {
        note.put_three(Bytes(b" "), Number(calls as u64), Bytes(b" times"));
    }
}

/// Adds the note of an attempt: the choice bit if it is read, the reply if it is not a step, the
/// number of attempts in the line, and the variables that the step changed.
#[inline(always)]
fn push_note(line: &mut Buffer, facts: &CallFacts<'_>, calls: usize)
    ensures { Grown line.old line.new (note_text (facts_in facts.now) calls) }
{
    let (choice, reply) = (choice_note(facts.choice()), reply_note(facts.call.reply));
    line.put_two(Bytes(choice), Bytes(reply));
    push_times(line, calls);
    push_changed(line, ViewFormat::Columns, facts.changes)
}

/// Adds the note of an attempt after `room` spaces, which are removed if the note is empty.
fn push_note_after(line: &mut Buffer, room: usize, facts: &CallFacts<'_>, calls: usize)
    ensures { let note = note_text (facts_in facts.now) calls in
        Grown line.old line.new (led (spaces room) note) }
{
    let start = line.len();
    line.put(Spaces(room));
    let middle = line.len();
    push_note(line, facts, calls);
    line.drop_lead(start, middle)
}

/// Adds the fields of an attempt, its statement, and after the statement's column its note.
fn push_call(
    line: &mut Buffer,
    prefix: &mut Prefix,
    widths: &Widths,
    facts: &CallFacts<'_>,
    calls: usize,
)
    ensures { Grown line.old line.new (call_text widths.now (facts_in facts.now) calls) }
{
    push_fields(line, prefix, widths, facts);
    let start = line.len();
    push_statement(line, widths, &facts.next);
    let place = widths.place.max(facts.next.place.len());
    let size = line.len().saturating_sub(start).saturating_sub(place);
    push_note_after(line, widths.notes.saturating_sub(size), facts, calls)
}

/// Adds an attempt in at most `columns` columns: its note, and before it as much of the place and
/// the statement as there is room for.
#[inline(never)]
fn push_narrow_call(
    line: &mut Buffer,
    prefix: &mut Prefix,
    widths: &Widths,
    columns: usize,
    facts: &CallFacts<'_>,
    calls: usize,
)
    ensures { let text = narrow_text columns widths.now (facts_in facts.now) calls in
        Grown line.old line.new text }
{
    let mut note = Buffer::new(line.allocator());
    push_note(&mut note, facts, calls);
    let start = line.len();
    push_fields(line, prefix, widths, facts);
    let fields = line.len();
    push_statement(line, widths, &facts.next);
    let room = columns
        .saturating_sub(fields.saturating_sub(start))
        .saturating_sub(note.len());
    cut_after(line, fields, room);
    let standing = line.len().saturating_sub(fields);
    line.put(Spaces(room.saturating_sub(standing)));
    line.put_all(&note);
    cut_after(line, start, columns)
}

/// Adds an attempt, narrowed if lines may have fewer columns than it needs.
fn push_fitted_call(
    line: &mut Buffer,
    prefix: &mut Prefix,
    widths: &Widths,
    facts: &CallFacts<'_>,
    calls: usize,
)
    ensures { let widths = widths.now in
        let text = fitted_text widths.line widths (facts_in facts.now) calls in
        Grown line.old line.new text }
{
    let start = line.len();
    push_call(line, prefix, widths, facts, calls);
    let Some(columns) = widths.line else {
        return;
    };
    if line.len().saturating_sub(start) <= columns {
        return;
    }
    line.truncate(start);
    push_narrow_call(line, prefix, widths, columns, facts, calls)
}

/// Ends a line in this colour.
fn push_end(line: &mut Buffer, colour: Colour)
    ensures { Grown line.old line.new (concat (closing colour ∷ codes "\n" ∷ [])) }
{
    match colour {
        Colour::Plain => line.put(Bytes(b"\n")),
        Colour::Red | Colour::Yellow => line.put(Bytes(b"\x1b[0m\n")),
    }
}

/// Adds the line of an attempt and of those folded into it, `calls` in all. It is coloured if
/// wanted and the attempt is a failure or a switch. `prefix` has the fields of another line.
pub(crate) fn push_line(
    line: &mut Buffer,
    prefix: &mut Prefix,
    widths: &Widths,
    has_colour: bool,
    facts: &CallFacts<'_>,
    calls: usize,
)
    ensures { let text = column_line has_colour widths.now (facts_in facts.now) calls in
        Grown line.old line.new text }
{
    let colour = Colour::of(has_colour, facts.call.reply, facts.is_switch);
    line.put(Bytes(colour.opening()));
    push_fitted_call(line, prefix, widths, facts, calls);
    push_end(line, colour)
}
