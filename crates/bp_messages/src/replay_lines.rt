//! The lines that show a replay.
ghost use Rattle.std.specs.Prelude.{◌≡◌, flat_map, map};
ghost use Rattle.bp_text.specs.Writing.{Writes, Given};
ghost use Rattle.bp_trace.specs.Replays.{row_of};
ghost use Rattle.bp_messages.specs.ReplayLines.{outcome_line, printed_line, row_line, shown_text};

use bp_machine::Outcome;
use bp_text::Piece::{Bytes, Number};
use bp_text::{Sink, WriteError};
use bp_trace::{Printed, Replayed};
use std::io::Write;

/// Writes the line of the values that a step printed.
fn put_row<W: Write>(row: &Printed, sink: &mut Sink<'_, W>)
    ensures { Given W.contents sink.old sink.new (row_line (row_of row.now)) }
{
    let thread = u64::from(row.thread);
    sink.put_pieces(&[Bytes(b"print "), Number(thread), Bytes(b" ")]);
    sink.put_bits(row.values.as_slice());
    sink.put(b"\n")
}

/// Writes a line for each row.
fn put_rows<W: Write>(rows: &[Printed], sink: &mut Sink<'_, W>)
    ensures { Given W.contents sink.old sink.new (flat_map printed_line rows.now) }
{
    for row in rows {
        put_row(row, sink);
    }
}

/// Writes the line of an outcome.
fn put_outcome<W: Write>(outcome: Outcome, sink: &mut Sink<'_, W>)
    ensures { Given W.contents sink.old sink.new (outcome_line outcome) }
{
    match outcome {
        Outcome::Clean => sink.put(b"outcome clean\n"),
        Outcome::Failed { thread } => {
            let number = Number(u64::from(thread));
            sink.put_pieces(&[Bytes(b"outcome failed "), number, Bytes(b"\n")])
        }
    }
}

/// Writes `print T BITS` for each step that printed, with its thread and values, and after them
/// `outcome clean`, or `outcome failed T` with the thread whose assertion failed.
pub fn show_replay<W: Write>(replayed: &Replayed, out: &mut W) -> Result<(), WriteError>
    ensures { let rows = map row_of replayed.now.printed.items in
        Writes (W.contents out.old) (W.contents out.new)
        (shown_text rows replayed.now.report.outcome) result }
{
    let mut sink = Sink::new(out);
    put_rows(replayed.printed.as_slice(), &mut sink);
    put_outcome(replayed.report.outcome, &mut sink);
    sink.finish()
}
