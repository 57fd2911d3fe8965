//! Texts for a terminal: a question mark stands for each byte of a control character. Strings of
//! JSON: a text between quotation marks.
ghost use Rattle.std.specs.Prelude.{◌≡◌, ◌++◌, ◌∷◌, [], true, OnOk, ◌<◌, flat_map};
ghost use Rattle.std.specs.List.{slice_index};
ghost use Rattle.bp_text.specs.Pieces.{control_bytes, control_size, displayed, displayed_byte, is_among, is_turning, NoControlIsDisplayed, hex_digit, string_byte, string_text, StringsAreReadBack};
ghost use Rattle.bp_text.specs.Writing.{Given};

use crate::lines::part_from;
use crate::pieces::push_bytes;
use crate::sinks::Sink;
use std::alloc::AllocError;
use std::io::Write;

fn is_among(least: u8, byte: u8, most: u8) -> bool
    ensures { result ≡ is_among least byte most }
{
    least <= byte && byte <= most
}

/// Returns whether a character with these last two bytes turns the direction of a text.
fn is_turning(second: u8, third: u8) -> bool
    ensures { result ≡ is_turning second third }
{
    second == 0x80 && is_among(0xaa, third, 0xae) || second == 0x81 && is_among(0xa6, third, 0xa9)
}

/// Returns the number of bytes of the control character that begins with these, or 0 if none does.
fn control_size(first: u8, second: u8, third: u8) -> usize
    ensures { result ≡ control_size first second third }
{
    if first.is_ascii_control() {
        1
    } else if first == 0xc2 && is_among(0x80, second, 0x9f) {
        2
    } else if first == 0xe2 && is_turning(second, third) {
        3
    } else {
        0
    }
}

/// Returns the byte at a place, or 0 if the text is shorter.
fn byte_at(text: &[u8], at: usize) -> u8
    ensures { result ≡ slice_index text.now at }
{
    text.get(at).copied().unwrap_or(0)
}

/// Returns the number of next bytes of a control character: those left of one, or of a new one.
fn control_bytes(left: usize, text: &[u8]) -> usize
    ensures { result ≡ control_bytes left text.now }
{
    if left > 0 {
        return left;
    }
    control_size(byte_at(text, 0), byte_at(text, 1), byte_at(text, 2))
}

fn displayed_byte(control: usize, byte: u8) -> u8
    ensures { result ≡ displayed_byte control byte }
{
    if control == 0 { byte } else { b'?' }
}

/// Adds the bytes, with `?` for each byte of a control character.
pub fn push_displayed(line: &mut Vec<u8>, text: &[u8]) -> Result<(), AllocError>
    ensures { OnOk result (line.new.items ≡ line.old.items ++ displayed text.now) }
{
    let mut left = 0;
    for (at, byte) in text.iter().enumerate() {
        let control = control_bytes(left, part_from(text, at));
        line.push(displayed_byte(control, *byte))?;
        left = control.saturating_sub(1);
    }
    Ok(())
}

/// Writes the bytes, with `?` for each byte of a control character.
pub(crate) fn put_displayed<W: Write>(text: &[u8], sink: &mut Sink<'_, W>)
    ensures { Given W.contents sink.old sink.new (displayed text.now) }
{
    let mut left = 0;
    for (at, byte) in text.iter().enumerate() {
        let control = control_bytes(left, part_from(text, at));
        sink.put(&[displayed_byte(control, *byte)]);
        left = control.saturating_sub(1);
    }
}

/// Proves that a displayed text has no control character.
pub fn no_control_is_displayed()
    ensures { NoControlIsDisplayed }
{}

/// The control byte after the printable ones.
const DELETE: u8 = 127;

/// The code of the letter a, less ten.
const LETTERS: u8 = b'a' - 10;

/// Returns the hexadecimal digit of a number below 16.
fn hex_digit(number: u8) -> u8
    requires { number < 16 }
    ensures { result ≡ hex_digit number }
{
    if number < 10 {
        b'0' + number
    } else {
        LETTERS + number
    }
}

/// Returns whether a byte stands for itself in a string.
fn is_plain_byte(byte: u8) -> bool
    ensures { result ≡ true → string_byte byte ≡ byte ∷ [] }
{
    byte >= b' ' && byte != DELETE && byte != b'"' && byte != b'\\'
}

/// Returns whether each byte of a text stands for itself in a string. Most texts do, and are added
/// at once.
fn is_plain(text: &[u8]) -> bool
    ensures { result ≡ true → flat_map string_byte text.now ≡ text.now }
{
    for byte in text {
        if !is_plain_byte(*byte) {
            return false;
        }
    }
    true
}

/// Writes a byte of a string.
fn put_byte<W: Write>(byte: u8, sink: &mut Sink<'_, W>)
    ensures { Given W.contents sink.old sink.new (string_byte byte) }
{
    if byte == b'"' || byte == b'\\' {
        sink.put(&[b'\\', byte])
    } else if byte < b' ' || byte == DELETE {
        let (high, low) = (hex_digit(byte / 16), hex_digit(byte % 16));
        sink.put(&[b'\\', b'u', b'0', b'0', high, low])
    } else {
        sink.put(&[byte])
    }
}

/// Writes the bytes of a string.
fn put_escaped<W: Write>(text: &[u8], sink: &mut Sink<'_, W>)
    ensures { Given W.contents sink.old sink.new (flat_map string_byte text.now) }
{
    for byte in text {
        put_byte(*byte, sink);
    }
}

/// Writes a string.
pub(crate) fn put_string<W: Write>(text: &[u8], sink: &mut Sink<'_, W>)
    ensures { Given W.contents sink.old sink.new (string_text text.now) }
{
    sink.put(b"\"");
    put_escaped(text, sink);
    sink.put(b"\"")
}

/// Adds a byte of a string.
fn push_byte(line: &mut Vec<u8>, byte: u8) -> Result<(), AllocError>
    ensures { OnOk result (line.new.items ≡ line.old.items ++ string_byte byte) }
{
    if byte == b'"' || byte == b'\\' {
        line.push(b'\\')?;
        line.push(byte)?;
    } else if byte < b' ' || byte == DELETE {
        push_bytes(line, b"\\u00")?;
        line.push(hex_digit(byte / 16))?;
        line.push(hex_digit(byte % 16))?;
    } else {
        line.push(byte)?;
    }
    Ok(())
}

/// Adds the bytes of a string.
fn push_escaped(line: &mut Vec<u8>, text: &[u8]) -> Result<(), AllocError>
    ensures { OnOk result (line.new.items ≡ line.old.items ++ flat_map string_byte text.now) }
{
    for byte in text {
        push_byte(line, *byte)?;
    }
    Ok(())
}

/// Adds a string.
pub(crate) fn push_string(line: &mut Vec<u8>, text: &[u8]) -> Result<(), AllocError>
    ensures { OnOk result (line.new.items ≡ line.old.items ++ string_text text.now) }
{
    push_bytes(line, b"\"")?;
    if is_plain(text) {
        push_bytes(line, text)?;
    } else {
        push_escaped(line, text)?;
    }
    push_bytes(line, b"\"")?;
    Ok(())
}

/// Proves that a reader of JSON reads each string as the bytes from which it was made.
pub fn strings_are_read_back()
    ensures { StringsAreReadBack }
{}
