//! The request for a test: its program, and the start of each run. It is written without memory.
ghost use Rattle.std.specs.Prelude.{◌≡◌, map, string_bytes};
ghost use Rattle.bp_text.specs.Pieces.{piece_text};
ghost use Rattle.bp_text.specs.Writing.{Given};
ghost use Rattle.bp_messages.specs.Summaries.{asked_line, asked_member, bounds_members, bounds_text, init_text, name_text, names_text};

use crate::summaries::{TestReport, limit_of};
use bp_text::Piece::{Bytes, Displayed, Key, Number, NumberOrNull, Text, Truth};
use bp_text::{Piece, Sink};
use std::io::Write;

/// Returns a name as it is, or as a string of JSON.
fn name_piece<'a>(json: bool, name: &'a [u8]) -> Piece<'a>
    ensures { piece_text result ≡ name_text json name.now }
{
    if json { Text(name) } else { Bytes(name) }
}

/// Writes names, with these bytes before the first and those before each other one.
#[tactic(auto, using(bp_text::proofs::Givings::left_after))]
fn put_names<W: Write>(
    json: bool,
    first: &[u8],
    between: &[u8],
    names: &[String],
    sink: &mut Sink<'_, W>,
)
    ensures { let text = names_text json first.now between.now (map string_bytes names.now) in
        Given W.contents sink.old sink.new text }
{
    let mut before = first;
    let mut names = names;
    while let Some((name, more)) = names.split_first() {
        sink.put_pieces(&[Bytes(before), name_piece(json, name.as_bytes())]);
        before = between;
        names = more;
    }
}

/// Writes a digit for each global, or a dash if there is none.
fn put_init<W: Write>(bits: &[bool], sink: &mut Sink<'_, W>)
    ensures { Given W.contents sink.old sink.new (init_text bits.now) }
{
    if bits.is_empty() {
        sink.put(b"-")
    } else {
        sink.put_bits(bits)
    }
}

/// Writes the bounds of the runs, and the seed of the first.
fn put_bounds<W: Write>(tested: &TestReport, sink: &mut Sink<'_, W>)
    ensures { Given W.contents sink.old sink.new (bounds_text tested.now) }
{
    sink.put_pieces(&[
        Bytes(b", contexts "),
        Number(u64::from(tested.setup.contexts())),
        Bytes(b", calls "),
        Number(u64::from(tested.setup.calls())),
        Bytes(b", seed "),
        Number(tested.options.seed),
        Bytes(b"\n"),
    ])
}

/// Writes the line from which the test can be repeated.
pub(crate) fn put_asked_line<W: Write>(tested: &TestReport, sink: &mut Sink<'_, W>)
    ensures { Given W.contents sink.old sink.new (asked_line tested.now) }
{
    let file = Displayed(tested.file.as_slice());
    sink.put_pieces(&[Bytes(b"test of "), file, Bytes(b": threads")]);
    put_names(false, b" ", b" ", tested.setup.entries(), sink);
    sink.put(b", init ");
    put_init(tested.setup.bits(), sink);
    put_bounds(tested, sink)
}

/// Writes members with the bounds of the runs, the seed of the first, and the rest of the request.
fn put_bounds_members<W: Write>(tested: &TestReport, sink: &mut Sink<'_, W>)
    ensures { Given W.contents sink.old sink.new (bounds_members tested.now) }
{
    let options = &tested.options;
    sink.put_pieces(&[
        Bytes(b"\""),
        Key(b"contexts"),
        Number(u64::from(tested.setup.contexts())),
        Key(b"calls"),
        Number(u64::from(tested.setup.calls())),
        Key(b"seed"),
        Number(options.seed),
        Key(b"runs"),
        NumberOrNull(limit_of(options.runs)),
        Key(b"seconds"),
        NumberOrNull(options.seconds),
        Key(b"deadlock"),
        Truth(options.with_deadlock),
        Bytes(b"}"),
    ])
}

/// Writes the member of an object with the request for the test.
pub(crate) fn put_asked_member<W: Write>(tested: &TestReport, sink: &mut Sink<'_, W>)
    ensures { Given W.contents sink.old sink.new (asked_member tested.now) }
{
    let file = Text(tested.file.as_slice());
    sink.put_pieces(&[Bytes(b",\"asked\":{\"file\":"), file, Key(b"entries")]);
    put_names(true, b"[", b",", tested.setup.entries(), sink);
    sink.put(b"],\"init\":\"");
    sink.put_bits(tested.setup.bits());
    put_bounds_members(tested, sink)
}
