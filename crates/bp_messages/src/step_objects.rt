//! The part of an error's object on a step that is not taken. The verdict on reported steps in
//! JSON. It is written without memory.
ghost use Rattle.std.specs.Prelude.{◌≡◌, option_map, flat_map};
ghost use Rattle.bp_text.specs.Pieces.{piece_text, string_or_null};
ghost use Rattle.bp_text.specs.Writing.{Given, Writes};
ghost use Rattle.bp_confirm.specs.Steps.{value_of};
ghost use Rattle.bp_messages.specs.ErrorObjects.{bit_in, changed_in, has_ended, name_of_value, place_named, position_of_thread_place, reply_text, seen_in, step_object, step_text, IsValueIn, refuted_after, shown_verdict, verdict_object};

use crate::error_table::Detail;
use crate::failures::{column_of, line_of};
use bp_confirm::{
    Difference, Location, SeenValue, StepReason, StepRefusal, ThreadPlace, value_on_line,
};
use bp_text::Piece::{
    BitOrNull, Bytes, Key, Letter, List, Number, NumberOrNull, Text, TextOrNull, Truth,
};
use bp_text::{Piece, Position, Sink, WriteError, put_pieces};
use std::io::Write;

/// Returns the line and the column that a location names; neither for the end of a procedure.
fn place_named(location: Location) -> (Option<u64>, Option<u64>)
    ensures { result ≡ place_named location }
{
    match location {
        Location::End => (None, None),
        Location::Line(line) => (Some(u64::from(line)), None),
        Location::Column(line, column) => (Some(u64::from(line)), Some(u64::from(column))),
    }
}

/// Returns the position of the statement at which a thread is.
fn position_of_thread_place(thread_place: ThreadPlace) -> Option<Position>
    ensures { result ≡ position_of_thread_place thread_place }
{
    match thread_place {
        ThreadPlace::Statement(position) => Some(position),
        _ => None,
    }
}

/// Returns whether a thread has ended.
fn has_ended(thread_place: ThreadPlace) -> bool
    ensures { result ≡ has_ended thread_place }
{
    matches!(thread_place, ThreadPlace::Ended)
}

/// Returns the letter of the reply that is not a step, as a trace has it.
fn reply_piece<'a>(reason: StepReason) -> Piece<'a>
    ensures { piece_text result ≡ string_or_null (reply_text reason) }
{
    match reason {
        StepReason::Refused(reply) => Letter(reply.letter()),
        _ => TextOrNull(None),
    }
}

/// Returns the bit that the thread sees instead of a value.
fn seen_in(reason: StepReason) -> Option<bool>
    ensures { result ≡ seen_in reason }
{
    match reason {
        StepReason::Differs(found) => found.seen,
        _ => None,
    }
}

/// Returns the line of the last step that changed the thread's view of the variable of the value.
fn changed_in(reason: StepReason) -> Option<u64>
    ensures { result ≡ changed_in reason }
{
    match reason {
        StepReason::Differs(
            Difference {
                changed: Some(line),
                ..
            },
        ) => Some(u64::from(line)),
        _ => None,
    }
}

/// Returns the name of a value.
fn name_piece<'a>(value: Option<SeenValue<'a>>) -> Piece<'a>
    ensures { let named = option_map value_of value.entry in
        piece_text result ≡ string_or_null (name_of_value named) }
{
    match value {
        Some(value) => TextOrNull(Some(value.name)),
        None => TextOrNull(None),
    }
}

/// Returns the bit of a value.
fn bit_in(value: Option<SeenValue<'_>>) -> Option<bool>
    ensures { result ≡ bit_in (option_map value_of value.entry) }
{
    match value {
        Some(value) => Some(value.bit),
        None => None,
    }
}

/// Returns the value on a line of the steps that an error names, if any.
pub fn value_in<'a>(steps: &'a [u8], detail: Detail) -> Option<SeenValue<'a>>
    ensures { IsValueIn steps.now detail (option_map value_of result) }
{
    match detail {
        Detail::Step(refusal) => match refusal.reason {
            StepReason::Differs(found) => value_on_line(steps, refusal.line, found.place),
            _ => None,
        },
        _ => None,
    }
}

/// Writes the member of a step that is not taken.
fn put_refusal<W: Write>(refusal: StepRefusal, value: Option<SeenValue<'_>>, sink: &mut Sink<'_, W>)
    ensures { let object = step_object refusal (option_map value_of value.entry) in
        Given W.contents sink.old sink.new object }
{
    let StepRefusal {
        location,
        thread_place,
        reason,
        ..
    } = refusal;
    let (line, column) = place_named(location);
    let position = position_of_thread_place(thread_place);
    sink.put_pieces(&[
        Bytes(b",\"step\":{\"expected\":{\"line\":"),
        NumberOrNull(line),
        Key(b"column"),
        NumberOrNull(column),
        Bytes(b"},\"stands\":{\"line\":"),
        NumberOrNull(line_of(position)),
        Key(b"column"),
        NumberOrNull(column_of(position)),
        Key(b"ended"),
        Truth(has_ended(thread_place)),
        Bytes(b"},\"reply\":"),
        reply_piece(reason),
        Key(b"variable"),
        name_piece(value),
        Key(b"value"),
        BitOrNull(bit_in(value)),
        Key(b"seen"),
        BitOrNull(seen_in(reason)),
        Key(b"changed"),
        NumberOrNull(changed_in(reason)),
        Bytes(b"}"),
    ])
}

/// Writes the member of the step that an error names, or null.
pub(crate) fn put_step<W: Write>(
    detail: Detail,
    value: Option<SeenValue<'_>>,
    sink: &mut Sink<'_, W>,
)
    ensures { let text = step_text detail (option_map value_of value.entry) in
        Given W.contents sink.old sink.new text }
{
    match detail {
        Detail::Step(refusal) => put_refusal(refusal, value, sink),
        _ => sink.put(b",\"step\":null"),
    }
}

/// The facts of the verdict on reported steps.
#[derive(Clone, Copy)]
pub struct VerdictFacts<'a> {
    /// `failure`, `deadlock`, `run` or `refuted`.
    pub verdict: &'a [u8],
    /// The number of steps that a run makes.
    pub steps: u64,
    /// The number of contexts that they use, if all of them are confirmed.
    pub contexts: Option<u64>,
    /// The object of the assertion that failed, or `null`.
    pub failure: &'a [u8],
    /// The objects of the threads that wait in a deadlock, each after a comma.
    pub waits: &'a [u8],
    /// The objects of the last bits on which the deadlock depends, each after a comma.
    pub choices: &'a [u8],
}

/// Returns the pieces of the object of the verdict on reported steps.
fn verdict_pieces<'a>(facts: VerdictFacts<'a>) -> [Piece<'a>; 14]
    ensures { flat_map piece_text result ≡ verdict_object (shown_verdict facts.entry) }
{
    [
        Bytes(b"{\"kind\":\"confirm\",\"version\":1"),
        Key(b"verdict"),
        Text(facts.verdict),
        Key(b"steps"),
        Number(facts.steps),
        Key(b"contexts"),
        NumberOrNull(facts.contexts),
        Key(b"failure"),
        Bytes(facts.failure),
        Key(b"deadlock"),
        List(facts.waits),
        Key(b"choices"),
        List(facts.choices),
        Bytes(b"}\n"),
    ]
}

/// Writes the object of the verdict on reported steps.
pub fn put_verdict<'a, W: Write>(facts: VerdictFacts<'a>, out: &mut W) -> Result<(), WriteError>
    ensures { let object = verdict_object (shown_verdict facts.entry) in
        Writes (W.contents out.old) (W.contents out.new) object result }
{
    put_pieces(out, &verdict_pieces(facts))
}

/// Writes the object of a refutation: a run makes the first `steps` steps of the list.
pub(crate) fn put_refuted<W: Write>(steps: u64, sink: &mut Sink<'_, W>)
    ensures { Given W.contents sink.old sink.new (verdict_object (refuted_after steps)) }
{
    sink.put_pieces(&verdict_pieces(VerdictFacts {
        verdict: b"refuted",
        steps,
        contexts: None,
        failure: b"null",
        waits: b"",
        choices: b"",
    }))
}
