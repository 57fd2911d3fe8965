//! Writing the text of a trace. The versions of traces. Writing the attempts of a history by its
//! pieces.
ghost use Rattle.std.specs.Prelude.{◌≡◌, map, flat_map, string_bytes, None};
ghost use Rattle.std.specs.List.{concat};
ghost use Rattle.bp_text.specs.Pieces.{piece_text};
ghost use Rattle.bp_text.specs.Writing.{Given, Writes};
ghost use Rattle.bp_machine.specs.Histories.{live_threads};
ghost use Rattle.bp_trace.specs.TraceText.{bit_digit, entry_line, init_digits, init_line, limit_lines, seed_word, version_line, head_text, call_line, end_line, calls_text, text_of, trace_text, trace_text_2, pieces_of, piece_line};
ghost use Rattle.bp_trace.specs.Readings.{line_start, opening, symbol_after, symbols_after};

use crate::trace_lines::put_call;
use bp_machine::{Call, Setup, live_threads};
use bp_text::Piece::{Bytes, Number};
use bp_text::{Piece, Sink, WriteError};
use std::io::Write;

pub(crate) fn bit_digit(bit: bool) -> u8
    ensures { result ≡ bit_digit bit }
{
    if bit { b'1' } else { b'0' }
}

/// Writes a line for the entry of each thread.
fn put_entries<W: Write>(names: &[String], sink: &mut Sink<'_, W>)
    ensures { let text = flat_map entry_line (map string_bytes names.now) in
        Given W.contents sink.old sink.new text }
{
    for name in names {
        sink.put_pieces(&[Bytes(b"entry "), Bytes(name.as_bytes()), Bytes(b"\n")]);
    }
}

/// Writes a digit for each global, or a dash if there is none.
fn put_digits<W: Write>(bits: &[bool], sink: &mut Sink<'_, W>)
    ensures { Given W.contents sink.old sink.new (init_digits bits.now) }
{
    if bits.is_empty() {
        return sink.put(b"-");
    }
    sink.put_bits(bits)
}

/// Writes the line of the initial bits.
fn put_init<W: Write>(bits: &[bool], sink: &mut Sink<'_, W>)
    ensures { Given W.contents sink.old sink.new (init_line bits.now) }
{
    sink.put(b"init ");
    put_digits(bits, sink);
    sink.put(b"\n")
}

/// Returns the number of a seed, or the word for none.
fn seed_piece<'a>(seed: Option<u64>) -> Piece<'a>
    ensures { piece_text result ≡ seed_word seed }
{
    match seed {
        Some(seed) => Number(seed),
        None => Bytes(b"none"),
    }
}

/// Writes the lines of the allowed contexts and attempts, and of the seed.
fn put_limits<W: Write>(setup: &Setup, sink: &mut Sink<'_, W>)
    ensures { Given W.contents sink.old sink.new (concat (limit_lines setup.now)) }
{
    sink.put_pieces(&[
        Bytes(b"contexts "),
        Number(u64::from(setup.contexts())),
        Bytes(b"\ncalls "),
        Number(u64::from(setup.calls())),
        Bytes(b"\nseed "),
        seed_piece(setup.seed()),
        Bytes(b"\n"),
    ])
}

fn version_line(version: Version) -> &'static [u8]
    ensures { result.now ≡ version_line version }
{
    match version {
        Version::One => b"btrace 1\n",
        Version::Two => b"btrace 2\n",
    }
}

/// Writes the head of a trace of this version: the setup.
fn put_head_of<W: Write>(version: Version, setup: &Setup, sink: &mut Sink<'_, W>)
    ensures { Given W.contents sink.old sink.new (head_text version setup.now) }
{
    sink.put(version_line(version));
    put_entries(setup.entries(), sink);
    put_init(setup.bits(), sink);
    put_limits(setup, sink)
}

/// Writes the head of a trace: the setup.
pub fn put_head<W: Write>(setup: &Setup, sink: &mut Sink<'_, W>)
    ensures { Given W.contents sink.old sink.new (head_text Version.One setup.now) }
{
    put_head_of(Version::One, setup, sink)
}

/// Writes the head of a trace: the setup.
pub fn write_head<W: Write>(setup: &Setup, out: &mut W) -> Result<(), WriteError>
    ensures { Writes (W.contents out.old) (W.contents out.new)
        (head_text Version.One setup.now) result }
{
    let mut sink = Sink::new(out);
    put_head(setup, &mut sink);
    sink.finish()
}

/// Writes the line that ends a trace of these counts of attempts and live threads.
pub fn put_end<W: Write>(calls: u64, left_live: u32, sink: &mut Sink<'_, W>)
    ensures { Given W.contents sink.old sink.new (end_line calls left_live) }
{
    let left_live = Number(u64::from(left_live));
    let number = Number(calls);
    sink.put_pieces(&[Bytes(b"end "), number, Bytes(b" "), left_live, Bytes(b"\n")])
}

/// Writes the line that ends a trace of these counts of attempts and live threads.
pub fn write_end<W: Write>(calls: u64, left_live: u32, out: &mut W) -> Result<(), WriteError>
    ensures { Writes (W.contents out.old) (W.contents out.new) (end_line calls left_live) result }
{
    let mut sink = Sink::new(out);
    put_end(calls, left_live, &mut sink);
    sink.finish()
}

/// Writes a line for each attempt.
fn put_calls<W: Write>(history: &[Call], sink: &mut Sink<'_, W>)
    ensures { Given W.contents sink.old sink.new (flat_map call_line history.now) }
{
    for call in history {
        put_call(call, sink);
    }
}

/// Writes the attempts of a history in this version.
fn put_history<W: Write>(version: Version, history: &[Call], sink: &mut Sink<'_, W>)
    ensures { Given W.contents sink.old sink.new (calls_text version history.now) }
{
    match version {
        Version::One => put_calls(history, sink),
        Version::Two => put_pieces(history, sink),
    }
}

/// Writes the trace of a history with this number of live threads, in this version.
pub fn write_with_live_threads<W: Write>(
    version: Version,
    setup: &Setup,
    history: &[Call],
    left_live: u32,
    out: &mut W,
) -> Result<(), WriteError>
    requires { left_live ≡ live_threads setup.now history.now }
    ensures { Writes (W.contents out.old) (W.contents out.new)
        (text_of version setup.now history.now) result }
{
    let mut sink = Sink::new(out);
    put_head_of(version, setup, &mut sink);
    put_history(version, history, &mut sink);
    put_end(history.len() as u64, left_live, &mut sink);
    sink.finish()
}

/// Writes the trace of a setup and a history.
pub fn write_trace<W: Write>(setup: &Setup, history: &[Call], out: &mut W) -> Result<(), WriteError>
    ensures { Writes (W.contents out.old) (W.contents out.new)
        (trace_text setup.now history.now) result }
{
    let left_live = live_threads(setup, history);
    write_with_live_threads(Version::One, setup, history, left_live, out)
}

/// Writes the trace of a setup and a history in version 2.
pub fn write_trace2<W: Write>(
    setup: &Setup,
    history: &[Call],
    out: &mut W,
) -> Result<(), WriteError>
    ensures { Writes (W.contents out.old) (W.contents out.new)
        (trace_text_2 setup.now history.now) result }
{
    let left_live = live_threads(setup, history);
    write_with_live_threads(Version::Two, setup, history, left_live, out)
}

/// The form of the attempts of a trace.
#[derive(Clone, Copy, Debug, PartialEq, Eq)]
pub enum Version {
    /// A line for each attempt.
    One,
    /// A line for each list of successive attempts of one thread.
    Two,
}

/// Begins the line of a thread, after the end of the line before it, if there is one.
fn put_start<W: Write>(is_first: bool, thread: u32, sink: &mut Sink<'_, W>)
    ensures { Given W.contents sink.old sink.new (line_start is_first thread) }
{
    let end = if is_first {
        b"".as_slice()
    } else {
        b"\n".as_slice()
    };
    sink.put_pieces(&[Bytes(end), Number(u64::from(thread)), Bytes(b" ")])
}

/// Writes the text before an attempt that follows one of this thread, or none.
fn put_opening<W: Write>(last: Option<u32>, thread: u32, sink: &mut Sink<'_, W>)
    ensures { Given W.contents sink.old sink.new (opening last thread) }
{
    match last {
        Some(last) if last == thread => {}
        Some(_) => put_start(false, thread, sink),
        None => put_start(true, thread, sink),
    }
}

/// Writes an attempt after one of this thread, or after none.
fn put_symbol<W: Write>(last: Option<u32>, call: &Call, sink: &mut Sink<'_, W>)
    ensures { Given W.contents sink.old sink.new (symbol_after last call.now) }
{
    put_opening(last, call.thread, sink);
    sink.put(&[bit_digit(call.bit), call.reply.letter()])
}

/// Writes the attempts of a history without the end of the last line.
#[tactic(auto, using(bp_text::proofs::Givings::left_after))]
fn put_symbols<W: Write>(history: &[Call], sink: &mut Sink<'_, W>)
    ensures { Given W.contents sink.old sink.new (symbols_after None history.now) }
{
    let mut last = None;
    let mut calls = history;
    while let Some((call, more)) = calls.split_first() {
        put_symbol(last, call, sink);
        last = Some(call.thread);
        calls = more;
    }
}

/// Writes a line for each piece of a history.
pub(crate) fn put_pieces<W: Write>(history: &[Call], sink: &mut Sink<'_, W>)
    ensures { let text = flat_map piece_line (pieces_of history.now) in
        Given W.contents sink.old sink.new text }
{
    if history.is_empty() {
        return;
    }
    put_symbols(history, sink);
    sink.put(b"\n")
}
