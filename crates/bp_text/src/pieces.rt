//! Pieces of a text, and the calls that write them. A piece has the text at its place. Fields of a
//! line, filled with spaces to a width.
ghost use Rattle.std.specs.Prelude.{◌≡◌, ◌++◌, decimal, flat_map, OnOk};
ghost use Rattle.bp_text.specs.Pieces.{bit_text, key_text, list_text, piece_text, truth_text, spaces, at_left, at_right};
ghost use Rattle.bp_text.specs.Writing.{Given, Writes};

use crate::displayed_texts::{push_displayed, push_string, put_displayed, put_string};
use crate::lines::part_from;
use crate::sinks::{Sink, WriteError};
use itoa::Buffer;
use std::alloc::AllocError;
use std::io::Write;

/// A piece of a text.
#[derive(Clone, Copy)]
pub enum Piece<'a> {
    /// These bytes.
    Bytes(&'a [u8]),
    /// The decimal of a number.
    Number(u64),
    /// A number of spaces.
    Spaces(usize),
    /// The bytes at the left of a field of this width.
    Left(usize, &'a [u8]),
    /// The bytes at the right of a field of this width.
    Right(usize, &'a [u8]),
    /// The decimal of a number at the right of a field of this width.
    NumberRight(usize, u64),
    /// The bytes, with `?` for each byte of a control character.
    Displayed(&'a [u8]),
    /// The key of one more member of an object of JSON, after a comma.
    Key(&'a [u8]),
    /// The bytes as a string of JSON.
    Text(&'a [u8]),
    /// A byte as a string of JSON.
    Letter(u8),
    /// A number, or null.
    NumberOrNull(Option<u64>),
    /// A string of JSON, or null.
    TextOrNull(Option<&'a [u8]>),
    /// `true` or `false`.
    Truth(bool),
    /// 1 or 0.
    Bit(bool),
    /// 1 or 0, or null.
    BitOrNull(Option<bool>),
    /// A list of JSON. Each given item begins with a comma.
    List(&'a [u8]),
}

/// Returns the text of a truth value.
fn truth_text(value: bool) -> &'static [u8]
    ensures { result.now ≡ truth_text value }
{
    if value { b"true" } else { b"false" }
}

/// Returns the digit of a bit.
fn bit_text(bit: bool) -> &'static [u8]
    ensures { result.now ≡ bit_text bit }
{
    if bit { b"1" } else { b"0" }
}

/// Writes the decimal of a number.
fn put_number<W: Write>(number: u64, sink: &mut Sink<'_, W>)
    ensures { Given W.contents sink.old sink.new (decimal number) }
{
    let mut buffer = Buffer::new();
    sink.put(buffer.format(number).as_bytes())
}

/// Writes the key of one more member of an object.
fn put_key<W: Write>(key: &[u8], sink: &mut Sink<'_, W>)
    ensures { Given W.contents sink.old sink.new (key_text key.now) }
{
    sink.put(b",\"");
    sink.put(key);
    sink.put(b"\":")
}

/// Writes items as a list.
fn put_list<W: Write>(items: &[u8], sink: &mut Sink<'_, W>)
    ensures { Given W.contents sink.old sink.new (list_text items.now) }
{
    sink.put(b"[");
    sink.put(part_from(items, 1));
    sink.put(b"]")
}

/// Writes a piece.
pub(crate) fn put_piece<W: Write>(piece: Piece<'_>, sink: &mut Sink<'_, W>)
    ensures { Given W.contents sink.old sink.new (piece_text piece.entry) }
{
    match piece {
        Piece::Bytes(bytes) => sink.put(bytes),
        Piece::Number(number) => put_number(number, sink),
        Piece::Spaces(count) => put_spaces(count, sink),
        Piece::Left(width, bytes) => put_left(width, bytes, sink),
        Piece::Right(width, bytes) => put_right(width, bytes, sink),
        Piece::NumberRight(width, number) => {
            let mut buffer = Buffer::new();
            put_right(width, buffer.format(number).as_bytes(), sink)
        }
        Piece::Displayed(bytes) => put_displayed(bytes, sink),
        Piece::Key(key) => put_key(key, sink),
        Piece::Text(text) => put_string(text, sink),
        Piece::Letter(letter) => put_string(&[letter], sink),
        Piece::NumberOrNull(Some(number)) => put_number(number, sink),
        Piece::NumberOrNull(None) => sink.put(b"null"),
        Piece::TextOrNull(Some(text)) => put_string(text, sink),
        Piece::TextOrNull(None) => sink.put(b"null"),
        Piece::Truth(value) => sink.put(truth_text(value)),
        Piece::Bit(bit) | Piece::BitOrNull(Some(bit)) => sink.put(bit_text(bit)),
        Piece::BitOrNull(None) => sink.put(b"null"),
        Piece::List(items) => put_list(items, sink),
    }
}

/// Writes the pieces one after the other, without memory.
pub fn put_pieces<W: Write>(out: &mut W, pieces: &[Piece<'_>]) -> Result<(), WriteError>
    ensures { let text = flat_map piece_text pieces.now in
        Writes (W.contents out.old) (W.contents out.new) text result }
{
    let mut sink = Sink::new(out);
    sink.put_pieces(pieces);
    sink.finish()
}

/// Adds the decimal of a number.
fn push_number(line: &mut Vec<u8>, number: u64) -> Result<(), AllocError>
    ensures { OnOk result (line.new.items ≡ line.old.items ++ decimal number) }
{
    let mut buffer = Buffer::new();
    push_bytes(line, buffer.format(number).as_bytes())
}

/// Adds the key of one more member of an object.
fn push_key(line: &mut Vec<u8>, key: &[u8]) -> Result<(), AllocError>
    ensures { OnOk result (line.new.items ≡ line.old.items ++ key_text key.now) }
{
    push_bytes(line, b",\"")?;
    push_bytes(line, key)?;
    push_bytes(line, b"\":")?;
    Ok(())
}

/// Adds items as a list.
fn push_list(line: &mut Vec<u8>, items: &[u8]) -> Result<(), AllocError>
    ensures { OnOk result (line.new.items ≡ line.old.items ++ list_text items.now) }
{
    push_bytes(line, b"[")?;
    push_bytes(line, part_from(items, 1))?;
    push_bytes(line, b"]")?;
    Ok(())
}

/// Adds a piece. Frequent texts are made by one call for each piece, since a slice of pieces takes
/// twice as long.
#[inline(always)]
pub fn push_piece(line: &mut Vec<u8>, piece: Piece<'_>) -> Result<(), AllocError>
    ensures { OnOk result (line.new.items ≡ line.old.items ++ piece_text piece.entry) }
{
    match piece {
        Piece::Bytes(bytes) => push_bytes(line, bytes),
        Piece::Number(number) => push_number(line, number),
        Piece::Spaces(count) => push_spaces(line, count),
        Piece::Left(width, bytes) => push_left(line, width, bytes),
        Piece::Right(width, bytes) => push_right(line, width, bytes),
        Piece::NumberRight(width, number) => {
            let mut buffer = Buffer::new();
            push_right(line, width, buffer.format(number).as_bytes())
        }
        Piece::Displayed(bytes) => push_displayed(line, bytes),
        Piece::Key(key) => push_key(line, key),
        Piece::Text(text) => push_string(line, text),
        Piece::Letter(letter) => push_string(line, &[letter]),
        Piece::NumberOrNull(Some(number)) => push_number(line, number),
        Piece::NumberOrNull(None) => push_bytes(line, b"null"),
        Piece::TextOrNull(Some(text)) => push_string(line, text),
        Piece::TextOrNull(None) => push_bytes(line, b"null"),
        Piece::Truth(value) => push_bytes(line, truth_text(value)),
        Piece::Bit(bit) | Piece::BitOrNull(Some(bit)) => push_bytes(line, bit_text(bit)),
        Piece::BitOrNull(None) => push_bytes(line, b"null"),
        Piece::List(items) => push_list(line, items),
    }
}

/// Adds the pieces one after the other.
pub fn push_pieces(line: &mut Vec<u8>, pieces: &[Piece<'_>]) -> Result<(), AllocError>
    ensures { OnOk result (line.new.items ≡ line.old.items ++ flat_map piece_text pieces.now) }
{
    for piece in pieces {
        push_piece(line, *piece)?;
    }
    Ok(())
}

/// Adds the bytes.
pub fn push_bytes(line: &mut Vec<u8>, bytes: &[u8]) -> Result<(), AllocError>
    ensures { OnOk result (line.new.items ≡ line.old.items ++ bytes.now) }
{
    // Many pieces of a line are one byte or none, and to copy those takes far longer.
    match bytes {
        [] => Ok(()),
        [byte] => {
            line.push(*byte)?;
            Ok(())
        }
        _ => line.extend_from_slice(bytes),
    }
}

/// Adds `count` spaces.
pub fn push_spaces(line: &mut Vec<u8>, count: usize) -> Result<(), AllocError>
    ensures { OnOk result (line.new.items ≡ line.old.items ++ spaces count) }
{
    let size = line.len().checked_add(count).ok_or(AllocError)?;
    line.resize(size, b' ')
}

/// Adds the bytes at the right of a field.
pub fn push_right(line: &mut Vec<u8>, width: usize, bytes: &[u8]) -> Result<(), AllocError>
    ensures { OnOk result (line.new.items ≡ line.old.items ++ at_right width bytes.now) }
{
    push_spaces(line, width.saturating_sub(bytes.len()))?;
    push_bytes(line, bytes)
}

/// Adds the bytes at the left of a field.
pub fn push_left(line: &mut Vec<u8>, width: usize, bytes: &[u8]) -> Result<(), AllocError>
    ensures { OnOk result (line.new.items ≡ line.old.items ++ at_left width bytes.now) }
{
    push_bytes(line, bytes)?;
    push_spaces(line, width.saturating_sub(bytes.len()))
}

/// Writes `count` spaces.
pub(crate) fn put_spaces<W: Write>(count: usize, sink: &mut Sink<'_, W>)
    ensures { Given W.contents sink.old sink.new (spaces count) }
{
    for done in 0..count {
        sink.put(b" ");
    }
}

/// Writes the bytes at the right of a field.
pub(crate) fn put_right<W: Write>(width: usize, bytes: &[u8], sink: &mut Sink<'_, W>)
    ensures { Given W.contents sink.old sink.new (at_right width bytes.now) }
{
    put_spaces(width.saturating_sub(bytes.len()), sink);
    sink.put(bytes)
}

/// Writes the bytes at the left of a field.
pub(crate) fn put_left<W: Write>(width: usize, bytes: &[u8], sink: &mut Sink<'_, W>)
    ensures { Given W.contents sink.old sink.new (at_left width bytes.now) }
{
    sink.put(bytes);
    put_spaces(width.saturating_sub(bytes.len()), sink)
}
