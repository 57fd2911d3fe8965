//! A run whose arguments ask for no task: for help or the version, or for nothing known. The report
//! of refused arguments to programs: one JSON object.
ghost use Rattle.std.specs.IoError.{error_kind};
ghost use Rattle.bp_text.specs.Writing.{Writes};
ghost use Rattle.bp_commands.specs.Jobs.{held};
ghost use Rattle.btrun.specs.Statuses.{refusal_text, IsEndWithout, IsLackOfMemory, IsPrintedEnd, IsUnread, refusal_object};

use crate::arguments::{NoTask, Refusal, not_utf8};
use bp_commands::{Explained, RunEnd, end};
use bp_messages::Error;
use bp_text::Piece::{Bytes, Key, NumberOrNull, Text, TextOrNull};
use bp_text::{WriteError, put, put_pieces};
use std::alloc::Global;
use std::io::{self, Write};

/// The exit status of an error in the use of the program.
const USAGE_STATUS: u8 = 2;

/// Returns the answer to arguments that were not read: memory was refused, or one is not UTF-8.
pub fn unread(alloc: Global, error: &io::Error) -> NoTask
    ensures { IsUnread (error_kind error.now) result }
{
    match error.kind() {
        io::ErrorKind::OutOfMemory => NoTask::Memory,
        _ => not_utf8(alloc),
    }
}

/// Ends a run for want of memory.
pub fn refuse_memory<E: Write>(errors: &mut E) -> RunEnd
    ensures { IsLackOfMemory (E.contents errors.old) (E.contents errors.new) result }
{
    end(&Err::<(), Error>(Error::Memory), errors)
}

/// Prints the help or the version.
fn print_text<W: Write, E: Write>(text: &[u8], out: &mut W, errors: &mut E) -> RunEnd
    ensures { let before = held (W.contents out.old) (E.contents errors.old) in
        let after = held (W.contents out.new) (E.contents errors.new) in
        IsPrintedEnd text.now before after result }
{
    match put(out, text) {
        Ok(()) => end(&Ok::<(), Error>(()), errors),
        Err(WriteError::Write) => end(&Err::<(), Error>(Error::Write), errors),
    }
}

/// Tells why arguments are refused, with `json` as an object.
fn tell_refusal<E: Write>(refusal: &Refusal, json: bool, errors: &mut E) -> Result<(), WriteError>
    ensures { Writes (E.contents errors.old) (E.contents errors.new)
        (refusal_text json refusal.now) result }
{
    if json {
        put_refusal(refusal.message.as_bytes(), errors)
    } else {
        put(errors, refusal.text.as_bytes())
    }
}

/// Ends a run whose arguments ask for no task: prints help or version, or tells why they are
/// refused, with `json` as an object.
pub fn end_without_task<W: Write, E: Write>(
    none: &NoTask,
    json: bool,
    out: &mut W,
    errors: &mut E,
) -> RunEnd
    ensures { let before = held (W.contents out.old) (E.contents errors.old) in
        let after = held (W.contents out.new) (E.contents errors.new) in
        IsEndWithout json none.now before after result }
{
    match none {
        NoTask::Memory => refuse_memory(errors),
        NoTask::Printed(text) => print_text(text.as_bytes(), out, errors),
        NoTask::Refused(refusal) => RunEnd {
            status: USAGE_STATUS,
            told: tell_refusal(refusal, json, errors),
            explained: Explained {
                lines: Ok(()),
                told: Ok(()),
            },
        },
    }
}

/// Writes the object on refused arguments, with this message.
pub(crate) fn put_refusal<W: Write>(message: &[u8], out: &mut W) -> Result<(), WriteError>
    ensures { Writes (W.contents out.old) (W.contents out.new) (refusal_object message.now) result }
{
    put_pieces(
        out,
        &[
            Bytes(b"{\"kind\":\"fault\",\"version\":1"),
            Key(b"number"),
            NumberOrNull(None),
            Key(b"name"),
            Text(b"Arguments"),
            Key(b"file"),
            TextOrNull(None),
            Key(b"offset"),
            NumberOrNull(None),
            Key(b"line"),
            NumberOrNull(None),
            Key(b"column"),
            NumberOrNull(None),
            Key(b"thread"),
            NumberOrNull(None),
            Key(b"wanted"),
            TextOrNull(None),
            Key(b"step"),
            TextOrNull(None),
            Key(b"message"),
            Text(message),
            Bytes(b"}\n"),
        ],
    )
}
