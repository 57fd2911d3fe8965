//! The lines that report errors.
//! Why an input is not read.
ghost use Rattle.std.specs.Prelude.{◌≡◌, ◌++◌};
ghost use Rattle.bp_text.specs.Writing.{Writes, Given};
ghost use Rattle.bp_messages.specs.ErrorTable.{detail_text, error_line, error_head, seen_text, step_detail};

use crate::error_table::{Detail, Row};
use crate::errors::Error;
use bp_confirm::{StepReason, StepRefusal};
use bp_text::Piece::{Bytes, Number};
use bp_text::{Sink, WriteError};
use std::alloc::AllocError;
use std::io::Write;
use thiserror::Error;

/// Writes the number and the name of an error.
fn put_head<W: Write>(row: Row, sink: &mut Sink<'_, W>)
    ensures { Given W.contents sink.old sink.new (error_head row.number row.name.now) }
{
    let number = Number(u64::from(row.number));
    sink.put_pieces(&[Bytes(b"btrun: "), number, Bytes(b" "), Bytes(row.name)])
}

/// Returns the bit that a thread sees, or a dash if it sees no variable of the name.
fn seen_text(seen: Option<bool>) -> &'static [u8]
    ensures { result.now ≡ seen_text seen }
{
    match seen {
        None => b"-",
        Some(false) => b"0",
        Some(true) => b"1",
    }
}

/// Writes the line of a step that is not taken, and the machine's reply or the value that is seen.
fn put_step<W: Write>(refusal: StepRefusal, sink: &mut Sink<'_, W>)
    ensures { Given W.contents sink.old sink.new (step_detail refusal.line refusal.reason) }
{
    let line = Number(u64::from(refusal.line));
    match refusal.reason {
        StepReason::Refused(reply) => {
            let letter = [reply.letter()];
            sink.put_pieces(&[Bytes(b" line "), line, Bytes(b" reply "), Bytes(&letter)])
        }
        StepReason::Differs(found) => {
            let seen = Bytes(seen_text(found.seen));
            sink.put_pieces(&[Bytes(b" line "), line, Bytes(b" value "), seen])
        }
        StepReason::Elsewhere | StepReason::Ambiguous | StepReason::Finished => {
            sink.put_pieces(&[Bytes(b" line "), line])
        }
    }
}

/// Writes the detail of an error.
fn put_detail<W: Write>(detail: Detail, sink: &mut Sink<'_, W>)
    ensures { Given W.contents sink.old sink.new (detail_text detail) }
{
    match detail {
        Detail::Nothing => {}
        Detail::Byte(n) => sink.put_pieces(&[Bytes(b" at "), Number(u64::from(n))]),
        Detail::Thread(n) => sink.put_pieces(&[Bytes(b" thread "), Number(u64::from(n))]),
        Detail::Line(n) | Detail::ThreadOn(n, _) => {
            sink.put_pieces(&[Bytes(b" line "), Number(u64::from(n))])
        }
        Detail::Step(refusal) => put_step(refusal, sink),
        Detail::Wanted(n, reply) => {
            let (line, letter) = (Number(u64::from(n)), [reply.letter()]);
            sink.put_pieces(&[Bytes(b" line "), line, Bytes(b" wanted "), Bytes(&letter)])
        }
    }
}

/// Writes the line of an error: its number, its name, and its detail.
pub fn show_error<W: Write>(error: &Error, out: &mut W) -> Result<(), WriteError>
    ensures { Writes (W.contents out.old) (W.contents out.new) (error_line error.now) result }
{
    let row = error.row();
    let mut sink = Sink::new(out);
    put_head(row, &mut sink);
    put_detail(row.detail, &mut sink);
    sink.put(b"\n");
    sink.finish()
}

/// Why an input is not read.
#[derive(Clone, Copy, Debug, Error)]
pub enum InputError {
    /// It could not be opened, or a read failed.
    #[error("the input could not be read")]
    Device,
    /// The input is longer than its limit.
    #[error("the input is too long")]
    TooLong,
    /// There was not enough memory.
    #[error("out of memory")]
    Memory,
}

impl From<AllocError> for InputError {
    ghost use Rattle.bp_messages.specs.declared.error_lines.InputError.{InputError};

    ghost from_gives = { λ _ e. e ≡ InputError.Memory };

    fn from(_: AllocError) -> InputError {
        InputError::Memory
    }
}
