//! The text of a frame of a stack, from its facts. The text of an assertion or an assumption at
//! which a thread is, from its facts.
ghost use Rattle.std.specs.Prelude.{◌≡◌, [], map};
ghost use Rattle.bp_source.specs.declared.options.ViewFormat.TheVariants.{Columns, Json};
ghost use Rattle.bp_view.specs.Buffers.{Grown};
ghost use Rattle.bp_view.specs.FooterFacts.{condition_in};
ghost use Rattle.bp_view.specs.StateFacts.{frame_in};
ghost use Rattle.bp_view.specs.States.{condition_object, condition_text, frame_text, frames_text, lead, locals_text};

use crate::buffers::Buffer;
use crate::footer_facts::ConditionFacts;
use crate::lines::push_changed;
use crate::state_facts::FrameFacts;
use crate::variables::push_values;
use bp_source::{ViewFormat, column_of, line_of};
use bp_text::Piece::{Bytes, Displayed, Key, Number, NumberOrNull, Text};

/// The text before the values on their line.
const VALUES: &[u8] = b"\nvalues";

/// Adds the place of a condition in a file, its text, and the line of its values.
pub(crate) fn push_condition_lines<'a>(
    view: &mut Buffer,
    file: &'a str,
    condition: &'a ConditionFacts<'a>,
)
    ensures { let x = condition_in condition.entry.now in
        Grown view.old view.new (condition_text Columns file.entry.now x) }
{
    view.put_pieces(&[
        Bytes(b" at "),
        Displayed(file.as_bytes()),
        Bytes(b":"),
        Number(condition.position.line as u64),
        Bytes(b":"),
        Number(condition.position.column as u64),
        Bytes(b": "),
        Bytes(condition.text),
    ]);
    let start = view.len();
    view.put(Bytes(VALUES));
    let middle = view.len();
    push_changed(view, ViewFormat::Columns, condition.values.as_slice());
    view.drop_lead(start, middle)
}

/// Adds the place of a condition, its text and its values, as members of an object.
fn push_condition_members(view: &mut Buffer, condition: &ConditionFacts<'_>)
    ensures { let text = condition_text Json [] (condition_in condition.now) in
        Grown view.old view.new text }
{
    view.put_pieces(&[
        Key(b"line"),
        Number(condition.position.line as u64),
        Key(b"column"),
        Number(condition.position.column as u64),
        Key(b"statement"),
        Text(condition.text),
        Key(b"values"),
    ]);
    let start = view.len();
    push_changed(view, ViewFormat::Json, condition.values.as_slice());
    view.close_list(start)
}

/// Adds the object of the thread at a condition, with the condition's members.
pub(crate) fn push_condition_object(view: &mut Buffer, condition: &ConditionFacts<'_>)
    ensures { Grown view.old view.new (condition_object (condition_in condition.now)) }
{
    let thread = u64::from(condition.thread);
    view.put_two(Bytes(b"{\"thread\":"), Number(thread));
    push_condition_members(view, condition);
    view.put(Bytes(b"}"))
}

/// Returns the text before the procedure of a frame: those below the top continue after returns.
fn lead(above: usize) -> &'static [u8]
    ensures { result.now ≡ lead above }
{
    if above == 0 { b"in " } else { b"then in " }
}

/// Adds the values of a frame's formals and locals.
fn push_locals(values: &mut Buffer, format: ViewFormat, frame: FrameFacts<'_>)
    ensures { Grown values.old values.new (locals_text format (frame_in frame.entry)) }
{
    let (proc, locals) = (frame.proc, frame.locals);
    let formals = proc.formals();
    push_values(values, format, Some(proc), formals, 0, locals);
    let first = formals.len();
    push_values(values, format, Some(proc), proc.locals(), first, locals)
}

/// Adds a frame for people: its procedure, its next statement, and the line of its values.
fn push_frame_lines(view: &mut Buffer, frame: FrameFacts<'_>)
    ensures { Grown view.old view.new (frame_text Columns (frame_in frame.entry)) }
{
    view.put_pieces(&[
        Bytes(lead(frame.above)),
        Bytes(frame.proc.name().text().as_bytes()),
        Bytes(b" at "),
        Bytes(frame.place),
        Bytes(b": "),
        Bytes(frame.text),
    ]);
    let start = view.len();
    view.put(Bytes(VALUES));
    let middle = view.len();
    push_locals(view, ViewFormat::Columns, frame);
    view.drop_lead(start, middle);
    view.put(Bytes(b"\n"))
}

/// Adds a frame as an object of JSON, after a comma.
fn push_frame_object(view: &mut Buffer, frame: FrameFacts<'_>)
    ensures { Grown view.old view.new (frame_text Json (frame_in frame.entry)) }
{
    view.put_pieces(&[
        Bytes(b",{\"procedure\":"),
        Text(frame.proc.name().text().as_bytes()),
        Key(b"line"),
        NumberOrNull(line_of(frame.position)),
        Key(b"column"),
        NumberOrNull(column_of(frame.position)),
        Key(b"statement"),
        Text(frame.text),
        Key(b"locals"),
    ]);
    let start = view.len();
    push_locals(view, ViewFormat::Json, frame);
    view.close_list(start);
    view.put(Bytes(b"}"))
}

/// Adds a frame.
fn push_frame(view: &mut Buffer, format: ViewFormat, frame: FrameFacts<'_>)
    ensures { Grown view.old view.new (frame_text format (frame_in frame.entry)) }
{
    match format {
        ViewFormat::Columns => push_frame_lines(view, frame),
        ViewFormat::Json => push_frame_object(view, frame),
    }
}

/// Adds the frames of a stack.
#[tactic(auto, using(crate::proofs::SingleFacts::all_mapped))]
pub(crate) fn push_frames(view: &mut Buffer, format: ViewFormat, frames: &[FrameFacts<'_>])
    ensures { Grown view.old view.new (frames_text format (map frame_in frames.now)) }
{
    for frame in frames {
        push_frame(view, format, *frame);
    }
}
