//! The object of an error in JSON. It is written without memory, so that refused memory has one
//! too.
ghost use Rattle.std.specs.Prelude.{◌≡◌, option_map};
ghost use Rattle.bp_text.specs.Writing.{Writes, Given};
ghost use Rattle.bp_text.specs.Pieces.{piece_text, string_or_null};
ghost use Rattle.bp_confirm.specs.Steps.{value_of};
ghost use Rattle.bp_messages.specs.ErrorObjects.{byte_of, facts_text, error_object, letter_text, name_in, place_in, refutation_text, thread_of};
ghost use Rattle.bp_messages.specs.ErrorTable.{row_of};

use crate::error_table::{Detail, Row};
use crate::errors::Error;
use crate::step_objects::{put_refuted, put_step};
use bp_confirm::SeenValue;
use bp_text::Piece::{Bytes, Key, Letter, Number, NumberOrNull, Text, TextOrNull};
use bp_text::{Piece, Sink, WriteError, position_of};
use std::io::Write;

/// Returns the byte of the program text that an error names.
fn byte_of(detail: Detail) -> Option<u64>
    ensures { result ≡ byte_of detail }
{
    match detail {
        Detail::Byte(at) => Some(u64::from(at)),
        _ => None,
    }
}

/// Returns the guest thread that an error names.
fn thread_of(detail: Detail) -> Option<u64>
    ensures { result ≡ thread_of detail }
{
    match detail {
        Detail::Thread(thread) | Detail::ThreadOn(_, thread) => Some(u64::from(thread)),
        Detail::Step(refusal) => Some(u64::from(refusal.thread)),
        _ => None,
    }
}

/// Returns the line and the column that an error names: those of its byte, or the line of a
/// schedule, of steps or of a trace.
fn place_in(text: &[u8], detail: Detail) -> (Option<u64>, Option<u64>)
    ensures { result ≡ place_in text.now detail }
{
    match detail {
        Detail::Byte(at) => {
            let position = position_of(text, at as usize);
            (Some(position.line as u64), Some(position.column as u64))
        }
        Detail::Line(line) | Detail::ThreadOn(line, _) | Detail::Wanted(line, _) => {
            (Some(u64::from(line)), None)
        }
        Detail::Step(refusal) => (Some(u64::from(refusal.line)), None),
        _ => (None, None),
    }
}

/// Returns the letter of the expected reply, as a trace has it.
fn wanted_letter<'a>(detail: Detail) -> Piece<'a>
    ensures { piece_text result ≡ string_or_null (letter_text detail) }
{
    match detail {
        Detail::Wanted(_, reply) => Letter(reply.letter()),
        _ => TextOrNull(None),
    }
}

/// Returns the bytes of a name, if there is one.
fn bytes_of<'a>(name: Option<&'a str>) -> Option<&'a [u8]>
    ensures { name_in result ≡ name_in name.entry }
{
    match name {
        Some(name) => Some(name.as_bytes()),
        None => None,
    }
}

/// Writes the facts of a row of the table that each error has.
fn put_facts<'a, W: Write>(row: Row, file: Option<&'a str>, text: &[u8], sink: &mut Sink<'_, W>)
    ensures { let facts = facts_text (row_of row) (name_in file.entry) text.now in
        Given W.contents sink.old sink.new facts }
{
    let detail = row.detail;
    let (line, column) = place_in(text, detail);
    sink.put_pieces(&[
        Bytes(b"{\"kind\":\"fault\",\"version\":1"),
        Key(b"number"),
        Number(u64::from(row.number)),
        Key(b"name"),
        Text(row.name),
        Key(b"file"),
        TextOrNull(bytes_of(file)),
        Key(b"offset"),
        NumberOrNull(byte_of(detail)),
        Key(b"line"),
        NumberOrNull(line),
        Key(b"column"),
        NumberOrNull(column),
        Key(b"thread"),
        NumberOrNull(thread_of(detail)),
        Key(b"wanted"),
        wanted_letter(detail),
    ])
}

/// Writes the object of the verdict on steps, if an error refutes them.
fn put_refutation<W: Write>(detail: Detail, sink: &mut Sink<'_, W>)
    ensures { Given W.contents sink.old sink.new (refutation_text detail) }
{
    match detail {
        Detail::Step(refusal) => put_refuted(u64::from(refusal.line.saturating_sub(1)), sink),
        _ => {}
    }
}

/// Writes the object of an error: its row of the table, its file, its place there, the step that it
/// is about, and a sentence on it. The text is that of the program, and the value is the one on a
/// line of steps that the error names. If the error refutes steps, the object of that verdict comes
/// first.
pub fn put_error_object<'a, W: Write>(
    error: &Error,
    file: Option<&'a str>,
    text: &[u8],
    value: Option<SeenValue<'a>>,
    message: &'a [u8],
    out: &mut W,
) -> Result<(), WriteError>
    ensures { let file = name_in file.entry in
        let value = option_map value_of value.entry in
        let object = error_object error.now file text.now value message.entry.now in
        Writes (W.contents out.old) (W.contents out.new) object result }
{
    let row = error.row();
    let mut sink = Sink::new(out);
    put_refutation(row.detail, &mut sink);
    put_facts(row, file, text, &mut sink);
    put_step(row.detail, value, &mut sink);
    sink.put_pieces(&[Key(b"message"), Text(message), Bytes(b"}\n")]);
    sink.finish()
}
