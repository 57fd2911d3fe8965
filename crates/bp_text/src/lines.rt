//! Lines of a text, which are counted from 1. Texts on one line: a space stands for each line feed.
//! The position of a byte in a text, as editors count. Parts of a text.
ghost use Rattle.std.specs.Prelude.{◌≡◌, ◌==◌, ◌<◌, ◌↔◌, length, IsTrue, IfSome, MatchOption, ◌++◌, map, OnOk, ◌∷◌, ◌≤◌, ◌+◌, ◌^◌, [], ℕ, List, take, drop};
ghost use Rattle.std.specs.List.{after_first, position_or_len};
ghost use Rattle.bp_text.specs.Lines.{first_line, on_one_line, AddsOneLine, position_after, position_at};

use std::alloc::AllocError;

/// A line, without its line feed.
#[derive(Clone, Copy)]
pub struct Line<'a> {
    pub text: &'a [u8],
    /// Whether a line feed follows it. Only the last line of a text may have none.
    pub is_ended: bool,
}

/// Takes the first line from a text, if any bytes are left.
pub fn take_line<'a>(text: &mut &'a [u8]) -> Option<Line<'a>>
    ensures size { MatchOption result
        (length text.old.now ≡ 0)
        (λ _. length text.new.now < length text.old.now) }
    ensures line { IfSome result (λ line. line.text.now ≡ first_line text.old.now) }
    ensures ended { IfSome result (λ line.
        IsTrue line.is_ended ↔ (length (first_line text.old.now) < length text.old.now)) }
    ensures rest { text.new.now ≡ after_first (λ b. b == 10) text.old.now }
{
    let whole = *text;
    if whole.is_empty() {
        return None;
    }
    let line = first_line(whole);
    let is_ended = line.len() < whole.len();
    *text = part_from(whole, line.len().saturating_add(1));
    Some(Line {
        text: line,
        is_ended,
    })
}

/// Returns the text from the line of this number on, or an empty text if there is no such line.
pub fn text_from_line(text: &[u8], number: usize) -> &[u8] {
    let mut rest = text;
    for _taken in 1..number {
        if take_line(&mut rest).is_none() {
            return rest;
        }
    }
    rest
}

/// Returns the line of this number.
pub fn line_of(text: &[u8], number: usize) -> Option<Line<'_>> {
    let mut rest = text_from_line(text, number);
    take_line(&mut rest)
}

/// Returns the byte, or a space for a line feed.
fn on_one_line(byte: u8) -> u8
    ensures { result ≡ on_one_line byte }
{
    if byte == b'\n' { b' ' } else { byte }
}

/// Adds the bytes, with a space for each line feed.
pub fn push_on_one_line(line: &mut Vec<u8>, bytes: &[u8]) -> Result<(), AllocError>
    ensures bytes { OnOk result (line.new.items ≡ line.old.items ++ map on_one_line bytes.now) }
    ensures one_line { OnOk result (AddsOneLine line.old.items line.new.items) }
{
    for byte in bytes {
        line.push(on_one_line(*byte))?;
    }
    Ok(())
}

/// A line and a column, both from 1. A column is a byte.
#[derive(Clone, Copy, Debug, PartialEq, Eq)]
pub struct Position {
    pub line: usize,
    pub column: usize,
}

/// The position at which a text begins.
pub const FIRST: Position = Position { line: 1, column: 1 };

/// Returns the position after one more byte.
fn after(position: Position, byte: u8) -> Position
    requires line { position.line + 1 < 2 ^ 64 }
    requires column { position.column + 1 < 2 ^ 64 }
    ensures is { (before : List ℕ)
        → position ≡ position_after before
        → result ≡ position_after (before ++ byte ∷ []) }
    ensures line { result.line ≤ position.line + 1 }
    ensures column { result.column ≤ position.column + 1 }
{
    if byte == b'\n' {
        return Position {
            line: position.line + 1,
            column: 1,
        };
    }
    Position {
        line: position.line,
        column: position.column + 1,
    }
}

/// Returns the position after the bytes.
pub fn after_all(position: Position, bytes: &[u8]) -> Position
    requires line { position.line + length bytes.now < 2 ^ 64 }
    requires column { position.column + length bytes.now < 2 ^ 64 }
    ensures { (before : List ℕ)
        → position ≡ position_after before
        → result ≡ position_after (before ++ bytes.now) }
{
    let mut position = position;
    for byte in bytes {
        position = after(position, *byte);
    }
    position
}

/// Returns the position of the byte at this offset, or that after the text if it has none.
pub fn position_of(text: &[u8], at: usize) -> Position
    ensures { result ≡ position_at text.now at }
{
    if at < text.len() {
        return after_all(FIRST, &text[..at]);
    }
    after_all(FIRST, text)
}

/// Returns the position of the byte at this offset, from that of another byte: quickly if that one
/// is before it.
pub fn position_from(text: &[u8], from: usize, position: Position, at: usize) -> Position
    requires { position ≡ position_at text.now from }
    ensures { result ≡ position_at text.now at }
{
    let size = text.len();
    if from <= at && at < size {
        return after_all(position, &text[from..at]);
    }
    position_of(text, at)
}

/// Returns the bytes before this offset, or all of them if the text is shorter.
pub fn part_before(text: &[u8], at: usize) -> &[u8]
    ensures { result.now ≡ take at text.now }
{
    if at < text.len() {
        return text.split_at(at).0;
    }
    text
}

/// Returns the bytes from this offset on.
pub fn part_from(text: &[u8], at: usize) -> &[u8]
    ensures { result.now ≡ drop at text.now }
{
    if at < text.len() {
        return text.split_at(at).1;
    }
    text.split_at(text.len()).1
}

/// Returns the number of bytes before the first line feed, or of all if there is none.
fn line_size(text: &[u8]) -> usize
    ensures { result ≡ position_or_len (λ b. b == 10) text.now }
{
    for (i, byte) in text.iter().enumerate() {
        if *byte == b'\n' {
            return i;
        }
    }
    text.len()
}

/// Returns the bytes before the first line feed.
pub fn first_line(text: &[u8]) -> &[u8]
    ensures { result.now ≡ first_line text.now }
{
    part_before(text, line_size(text))
}

/// Returns the bytes after the last line feed, or all if there is none.
pub fn last_line(text: &[u8]) -> &[u8] {
    for at in (0..text.len()).rev() {
        if text[at] == b'\n' {
            return part_from(text, at + 1);
        }
    }
    text
}
