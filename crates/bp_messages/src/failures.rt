//! The assertion that failed in the run that a test found, and the threads that wait at the end of
//! a run, with their places. They are written without memory.
ghost use Rattle.std.specs.Prelude.{◌≡◌, [], option_map};
ghost use Rattle.bp_text.specs.Writing.{Given};
ghost use Rattle.bp_messages.specs.Summaries.{failure_member, failed_assertion, failure_text, statement_of, position_of, wait_object, wait_objects, wait_text, waits_member, waits_text};

use crate::summaries::{TestReport, limit_piece, of_word};
use bp_machine::Outcome;
use bp_test::{Found, Waiting};
use bp_text::Piece::{Bytes, Displayed, Key, Number, NumberOrNull, Text};
use bp_text::{Position, Sink};
use std::io::Write;

/// An assertion that failed.
#[derive(Clone, Copy)]
pub(crate) struct FailedAssertion {
    pub(crate) thread: u32,
    /// The number of its instruction.
    pub(crate) number: u32,
    /// The position at which it begins.
    pub(crate) position: Position,
}

/// Returns the assertion that failed, if one did.
pub(crate) fn failed_assertion(tested: &TestReport) -> Option<FailedAssertion>
    ensures { result ≡ failed_assertion tested.now }
{
    let Found::Failed { report, .. } = tested.found else {
        return None;
    };
    let Outcome::Failed { thread } = report.outcome else {
        return None;
    };
    let number = tested.failed?;
    let position = position_of(tested.positions.as_slice(), number)?;
    Some(FailedAssertion {
        thread,
        number,
        position,
    })
}

/// Returns the text of its statement, among those of the instructions.
pub(crate) fn statement_of(statements: &[Vec<u8>], failure: Option<FailedAssertion>) -> &[u8]
    ensures { result.now ≡ statement_of statements.now failure }
{
    let Some(failure) = failure else {
        return b"";
    };
    match statements.get(failure.number as usize) {
        Some(statement) => statement.as_slice(),
        None => b"",
    }
}

/// Writes the number of the run in which an assertion failed, and the assertion's place in a file.
pub(crate) fn put_failure<'a, W: Write>(
    failure: Option<FailedAssertion>,
    statement: &'a [u8],
    file: &'a [u8],
    run: u64,
    runs: u64,
    sink: &mut Sink<'_, W>,
)
    ensures { let text = failure_text failure statement.now file.now run runs in
        Given W.contents sink.old sink.new text }
{
    match failure {
        None => sink.put_pieces(&[
            Bytes(b"an assertion failed in run "),
            Number(run),
            of_word(runs),
            limit_piece(runs),
            Bytes(b"\n"),
        ]),
        Some(failure) => sink.put_pieces(&[
            Bytes(b"an assertion of thread "),
            Number(failure.thread as u64),
            Bytes(b" failed in run "),
            Number(run),
            of_word(runs),
            limit_piece(runs),
            Bytes(b", at "),
            Displayed(file),
            Bytes(b":"),
            Number(failure.position.line as u64),
            Bytes(b":"),
            Number(failure.position.column as u64),
            Bytes(b": "),
            Bytes(statement),
            Bytes(b"\n"),
        ]),
    }
}

/// Writes the member of an object with the assertion that failed.
pub(crate) fn put_failure_member<'a, W: Write>(
    failure: Option<FailedAssertion>,
    statement: &'a [u8],
    sink: &mut Sink<'_, W>,
)
    ensures { Given W.contents sink.old sink.new (failure_member failure statement.now) }
{
    match failure {
        None => sink.put(b",\"failure\":null"),
        Some(failure) => sink.put_pieces(&[
            Bytes(b",\"failure\":{\"thread\":"),
            Number(failure.thread as u64),
            Key(b"line"),
            Number(failure.position.line as u64),
            Key(b"column"),
            Number(failure.position.column as u64),
            Key(b"statement"),
            Text(statement),
            Bytes(b"}"),
        ]),
    }
}

/// Returns the position of the statement of an instruction, from the positions of all.
pub(crate) fn position_of(positions: &[Option<Position>], number: u32) -> Option<Position>
    ensures { result ≡ position_of positions.now number }
{
    match positions.get(number as usize) {
        Some(position) => *position,
        None => None,
    }
}

/// Writes a thread that waits, after these words, and its place in a file.
fn put_wait<'a, W: Write>(
    file: &'a [u8],
    before: &'a [u8],
    verb: &'a [u8],
    thread: u32,
    position: Option<Position>,
    sink: &mut Sink<'_, W>,
)
    ensures { let text = wait_text file.now before.now verb.now thread position in
        Given W.contents sink.old sink.new text }
{
    match position {
        None => sink.put_pieces(&[Bytes(before), Number(thread as u64)]),
        Some(position) => sink.put_pieces(&[
            Bytes(before),
            Number(thread as u64),
            Bytes(verb),
            Displayed(file),
            Bytes(b":"),
            Number(position.line as u64),
            Bytes(b":"),
            Number(position.column as u64),
        ]),
    }
}

/// Writes the threads that wait, and their places in a file, after a colon.
#[tactic(auto, using(bp_text::proofs::Givings::left_after))]
pub(crate) fn put_waits<W: Write>(
    file: &[u8],
    positions: &[Option<Position>],
    waiting: &[Waiting],
    sink: &mut Sink<'_, W>,
)
    ensures { Given W.contents sink.old sink.new (waits_text file.now positions.now waiting.now) }
{
    let mut before: &[u8] = b": thread ";
    let mut verb: &[u8] = b" waits at ";
    let mut waiting = waiting;
    while let Some((wait, more)) = waiting.split_first() {
        let position = position_of(positions, wait.number);
        put_wait(file, before, verb, wait.thread, position, sink);
        before = b", thread ";
        verb = b" at ";
        waiting = more;
    }
}

/// Returns the line of a position.
pub(crate) fn line_of(position: Option<Position>) -> Option<u64>
    ensures { result ≡ option_map (λ p. p.line) position }
{
    let position = position?;
    Some(position.line as u64)
}

/// Returns the column of a position.
pub(crate) fn column_of(position: Option<Position>) -> Option<u64>
    ensures { result ≡ option_map (λ p. p.column) position }
{
    let position = position?;
    Some(position.column as u64)
}

/// Writes the object of a thread that waits, after this text.
fn put_wait_object<W: Write>(
    before: &[u8],
    thread: u32,
    position: Option<Position>,
    sink: &mut Sink<'_, W>,
)
    ensures { Given W.contents sink.old sink.new (wait_object before.now thread position) }
{
    sink.put_pieces(&[
        Bytes(before),
        Bytes(b"{\"thread\":"),
        Number(thread as u64),
        Key(b"line"),
        NumberOrNull(line_of(position)),
        Key(b"column"),
        NumberOrNull(column_of(position)),
        Bytes(b"}"),
    ])
}

/// Writes the objects of the threads that wait, with commas between them.
#[tactic(auto, using(bp_text::proofs::Givings::left_after))]
fn put_wait_objects<W: Write>(
    positions: &[Option<Position>],
    waiting: &[Waiting],
    sink: &mut Sink<'_, W>,
)
    ensures { Given W.contents sink.old sink.new (wait_objects [] positions.now waiting.now) }
{
    let mut before: &[u8] = b"";
    let mut waiting = waiting;
    while let Some((wait, more)) = waiting.split_first() {
        let position = position_of(positions, wait.number);
        put_wait_object(before, wait.thread, position, sink);
        before = b",";
        waiting = more;
    }
}

/// Writes the member of an object with the threads that wait.
pub(crate) fn put_waits_member<W: Write>(
    positions: &[Option<Position>],
    waiting: &[Waiting],
    sink: &mut Sink<'_, W>,
)
    ensures { Given W.contents sink.old sink.new (waits_member positions.now waiting.now) }
{
    sink.put(b",\"waiting\":[");
    put_wait_objects(positions, waiting, sink);
    sink.put(b"]")
}
