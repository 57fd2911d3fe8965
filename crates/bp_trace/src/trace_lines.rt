//! The lines of attempts in a trace of either version. An attempt is written by one write, for each
//! thread that a setup may have.
ghost use Rattle.std.specs.Prelude.{◌≡◌, ◌≢◌, ◌↔◌, ◌≤◌, Bool, Some, IsTrue, slice_get, MatchOption, ◌<◌, [], IfOk, length};
ghost use Rattle.bp_text.specs.Writing.{Given, Writes};
ghost use Rattle.bp_machine.specs.declared.limits.TheConstants.{MAX_THREADS};
ghost use Rattle.bp_machine.specs.declared.calls.Reply.{Reply as Answer};
ghost use Rattle.bp_machine.specs.Histories.{letter_of};
ghost use Rattle.bp_trace.specs.TraceText.{bit_digit, call_line};
ghost use Rattle.bp_text.specs.Formats.{Finds};
ghost use Rattle.bp_trace.specs.Readings.{thread_field, IsTailAt, HasNoTail, IsCallAt, HasNoCall, HasNoSymbol, IsSymbolAt, HasSymbols, HasNoBodyLine, IsBodyLineAt};

use crate::drives::text_from;
use crate::traces::{Version, bit_digit};
use bp_machine::{Call, Reply};
use bp_text::Piece::{Bytes, Number};
use bp_text::{Sink, WriteError, after, short_number_at};
use std::alloc::AllocError;
use std::io::Write;

pub(crate) fn bit_of(byte: u8) -> Option<bool>
    ensures { MatchOption result
        ((b : Bool) → byte ≢ bit_digit b)
        (λ b. byte ≡ bit_digit b) }
{
    match byte {
        b'0' => Some(false),
        b'1' => Some(true),
        _ => None,
    }
}

pub(crate) fn reply_of(byte: u8) -> Option<Reply>
    ensures { MatchOption result
        ((r : Answer) → byte ≢ letter_of r)
        (λ r. byte ≡ letter_of r) }
{
    match byte {
        b'x' => Some(Reply::Stopped),
        b'e' => Some(Reply::Ended),
        b'n' => Some(Reply::NoContexts),
        b'u' => Some(Reply::Full),
        b'b' => Some(Reply::Blocked),
        b'f' => Some(Reply::Failed),
        b's' => Some(Reply::Stepped),
        _ => None,
    }
}

pub(crate) fn has_byte(byte: u8, text: &[u8], place: usize) -> bool
    ensures { IsTrue result ↔ (slice_get text.now place ≡ Some byte) }
{
    text.get(place) == Some(&byte)
}

/// Parses a thread below `threads` and the space after it, and returns it with the rest of the
/// text.
#[inline(always)]
pub(crate) fn thread_at(threads: u32, text: &[u8]) -> Option<(u32, &[u8])>
    ensures { Finds (thread_field threads) text.now result }
{
    let Some((thread, rest)) = short_number_at(text, threads) else {
        return None;
    };
    match after(rest, b' ') {
        None => None,
        Some(rest) => Some((thread, rest)),
    }
}

/// Parses a bit and a reply, with a space between them and a line feed after them.
fn tail_at(text: &[u8]) -> Option<(bool, Reply)>
    ensures { MatchOption result (HasNoTail text.now) (IsTailAt text.now) }
{
    let (Some(digit), Some(letter)) = (text.first(), text.get(2)) else {
        return None;
    };
    if text.get(1) != Some(&b' ') || text.get(3) != Some(&b'\n') {
        return None;
    }
    match (bit_of(*digit), reply_of(*letter)) {
        (Some(bit), Some(reply)) => Some((bit, reply)),
        _ => None,
    }
}

/// Parses the attempt line of a thread below `threads`, and returns it with its number of bytes.
#[inline(always)]
fn call_at(threads: u32, text: &[u8]) -> Option<(Call, usize)>
    requires { threads ≤ MAX_THREADS }
    ensures { MatchOption result
        (HasNoCall threads text.now)
        (λ p. IsCallAt threads text.now p.0 × (p.1 ≡ length (call_line p.0))) }
{
    let Some((thread, rest)) = thread_at(threads, text) else {
        return None;
    };
    match tail_at(rest) {
        None => None,
        Some((bit, reply)) => Some((Call { thread, bit, reply }, text.len() - rest.len() + 4)),
    }
}

/// Writes the line of an attempt of a thread with one digit.
fn put_with_one_digit<W: Write>(call: &Call, sink: &mut Sink<'_, W>)
    requires { call.now.thread < 10 }
    ensures { Given W.contents sink.old sink.new (call_line call.now) }
{
    let digit = b'0' + call.thread as u8;
    let bit = bit_digit(call.bit);
    sink.put(&[digit, b' ', bit, b' ', call.reply.letter(), b'\n'])
}

/// Writes the line of an attempt of a thread with two digits.
fn put_with_two_digits<W: Write>(call: &Call, sink: &mut Sink<'_, W>)
    requires two { 10 ≤ call.now.thread }
    requires few { call.now.thread < 100 }
    ensures { Given W.contents sink.old sink.new (call_line call.now) }
{
    let tens = b'0' + (call.thread / 10) as u8;
    let ones = b'0' + (call.thread % 10) as u8;
    let bit = bit_digit(call.bit);
    sink.put(&[tens, ones, b' ', bit, b' ', call.reply.letter(), b'\n'])
}

/// Writes the line of an attempt.
pub fn put_call<W: Write>(call: &Call, sink: &mut Sink<'_, W>)
    ensures { Given W.contents sink.old sink.new (call_line call.now) }
{
    if call.thread < 10 {
        return put_with_one_digit(call, sink);
    }
    if call.thread < 100 {
        return put_with_two_digits(call, sink);
    }
    let thread = Number(u64::from(call.thread));
    let rest = [b' ', bit_digit(call.bit), b' ', call.reply.letter(), b'\n'];
    sink.put_pieces(&[thread, Bytes(&rest)])
}

/// Writes the line of an attempt.
pub fn write_call<W: Write>(call: &Call, out: &mut W) -> Result<(), WriteError>
    ensures { Writes (W.contents out.old) (W.contents out.new) (call_line call.now) result }
{
    let mut sink = Sink::new(out);
    put_call(call, &mut sink);
    sink.finish()
}

/// Parses a bit and a reply, with nothing between them.
fn symbol_at(text: &[u8]) -> Option<(bool, Reply)>
    ensures { MatchOption result (HasNoSymbol text.now) (IsSymbolAt text.now) }
{
    let (Some(digit), Some(letter)) = (text.first(), text.get(1)) else {
        return None;
    };
    match (bit_of(*digit), reply_of(*letter)) {
        (Some(bit), Some(reply)) => Some((bit, reply)),
        _ => None,
    }
}

/// Appends the attempts of a thread for the symbols that begin the text, and returns their size.
#[inline(always)]
fn read_symbols(thread: u32, text: &[u8], calls: &mut Vec<Call>) -> Result<usize, AllocError>
    ensures { IfOk result (HasSymbols thread text.now calls.old.items calls.new.items) }
{
    let mut size = 0;
    while let Some((bit, reply)) = symbol_at(text_from(text, size)) {
        calls.push(Call { thread, bit, reply })?;
        size += 2;
    }
    Ok(size)
}

/// Parses the attempt line that begins the text.
#[inline(always)]
fn read_call(
    threads: u32,
    last: Option<u32>,
    text: &[u8],
    calls: &mut Vec<Call>,
) -> Result<Option<usize>, AllocError>
    requires few { threads ≤ MAX_THREADS }
    requires empty { calls.old.items ≡ [] }
    ensures { IfOk result (λ o. MatchOption o
        (HasNoBodyLine Version.One threads last text.now)
        (IsBodyLineAt Version.One threads last text.now calls.new.items)) }
{
    let Some((call, size)) = call_at(threads, text) else {
        return Ok(None);
    };
    calls.push(call)?;
    Ok(Some(size))
}

/// Parses the line of a piece that begins the text, after an attempt of the thread `last`.
#[inline(always)]
fn read_piece(
    threads: u32,
    last: Option<u32>,
    text: &[u8],
    calls: &mut Vec<Call>,
) -> Result<Option<usize>, AllocError>
    requires few { threads ≤ MAX_THREADS }
    requires empty { calls.old.items ≡ [] }
    ensures { IfOk result (λ o. MatchOption o
        (HasNoBodyLine Version.Two threads last text.now)
        (IsBodyLineAt Version.Two threads last text.now calls.new.items)) }
{
    let Some((thread, symbols)) = thread_at(threads, text) else {
        return Ok(None);
    };
    if last == Some(thread) {
        return Ok(None);
    }
    let size = read_symbols(thread, symbols, calls)?;
    if size > 0 && has_byte(b'\n', symbols, size) {
        Ok(Some(text.len() - symbols.len() + size + 1))
    } else {
        Ok(None)
    }
}

/// Parses the line of attempts that begins the text, after an attempt of the thread `last`, or
/// after the head, into `calls`, which is cleared first; returns the line's number of bytes.
/// Returns None if there is no such line; then `calls` may hold anything.
#[inline(always)]
pub(crate) fn body_line_at(
    version: Version,
    threads: u32,
    last: Option<u32>,
    text: &[u8],
    calls: &mut Vec<Call>,
) -> Result<Option<usize>, AllocError>
    requires { threads ≤ MAX_THREADS }
    ensures { IfOk result (λ o. MatchOption o
        (HasNoBodyLine version threads last text.now)
        (IsBodyLineAt version threads last text.now calls.new.items)) }
{
    calls.clear();
    match version {
        Version::One => read_call(threads, last, text, calls),
        Version::Two => read_piece(threads, last, text, calls),
    }
}
