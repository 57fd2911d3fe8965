//! The columns of a statement, and how a text is cut.
ghost use Rattle.std.specs.Prelude.{◌≡◌, ◌++◌, ◌≤◌, ◌<◌};
ghost use Rattle.bp_view.specs.Buffers.{IsCutAfter};
ghost use Rattle.bp_view.specs.Lines.{shortened, statement_room};

use crate::buffers::Buffer;
use bp_text::Piece::Bytes;
use bp_text::part_before;

/// The most bytes of a statement in its column.
pub(crate) const MAX_STATEMENT: usize = 60;

/// The minimum column width of a statement, in bytes.
pub(crate) const LEAST_STATEMENT: usize = 12;

/// The number of columns of a line that are left to the other fields and to a note.
pub(crate) const OTHER_COLUMNS: usize = 50;

/// The end of a text that is cut.
const CUT: &[u8] = b"..";

/// Returns the width of the column of statements in lines of at most `columns` bytes, if any.
pub(crate) fn statement_room(columns: Option<usize>) -> usize
    ensures is { result ≡ statement_room columns }
    ensures most { result ≤ MAX_STATEMENT }
    ensures least { LEAST_STATEMENT ≤ result }
{
    match columns {
        Some(columns) => columns
            .saturating_sub(OTHER_COLUMNS)
            .min(MAX_STATEMENT)
            .max(LEAST_STATEMENT),
        None => MAX_STATEMENT,
    }
}

/// Returns the bytes of a statement that fit into its column, and the text that ends them.
pub(crate) fn in_column(room: usize, statement: &[u8]) -> (&[u8], &[u8])
    ensures { result.0.now ++ result.1.now ≡ shortened room statement.now }
{
    if statement.len() > room {
        return (part_before(statement, room.saturating_sub(CUT.len())), CUT);
    }
    (statement, b"")
}

/// Cuts a line that has more than `room` bytes after its first `start` bytes.
pub(crate) fn cut_after(line: &mut Buffer, start: usize, room: usize)
    ensures { IsCutAfter start room line.old line.new }
{
    if line.len().saturating_sub(start) <= room {
        return;
    }
    line.truncate(start + room.saturating_sub(CUT.len()));
    line.put(Bytes(CUT))
}
