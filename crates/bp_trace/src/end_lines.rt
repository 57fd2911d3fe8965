//! The line that ends a trace.
ghost use Rattle.std.specs.Prelude.{◌≡◌, ◌↔◌, ◌<◌, ◌-◌, ◌^◌, ◌∷◌, [], ℕ, List, IsTrue, flat_map, MatchOption, MatchResult};
ghost use Rattle.bp_text.specs.Formats.{HasNone, IsAt};
ghost use Rattle.bp_text.specs.Formats.Format.{Before};
ghost use Rattle.bp_trace.specs.Readings.{after_digit, any_decimal, is_whole, more_digits, HasNoEnd, IsEndAt, IsEndRefusal};
ghost use Rattle.bp_trace.specs.TraceText.{end_line};

use crate::errors::{EndCounts, ReplayError};
use bp_text::{Machine, after, after_word, span_at};
use itoa::Buffer;

/// The state of reading a decimal of any length.
#[derive(Clone, Copy)]
enum DecimalState {
    Start,
    Zero,
    Digits,
}

/// Returns the state after one more digit, if the byte is one.
fn more_digits(byte: u8) -> Option<DecimalState>
    ensures { result ≡ more_digits byte }
{
    if !byte.is_ascii_digit() {
        return None;
    }
    Some(DecimalState::Digits)
}

impl Machine for DecimalState {
    ghost takes = { after_digit };

    ghost may_end = { is_whole };

    fn after(self, byte: u8) -> Option<DecimalState> {
        match self {
            DecimalState::Start if byte == b'0' => Some(DecimalState::Zero),
            DecimalState::Zero => None,
            DecimalState::Start | DecimalState::Digits => more_digits(byte),
        }
    }

    fn is_end(self) -> bool {
        match self {
            DecimalState::Start => false,
            DecimalState::Zero | DecimalState::Digits => true,
        }
    }
}

/// Skips the decimal of any length that begins the text, and the byte after it.
fn after_decimal(text: &[u8], byte: u8) -> Option<&[u8]>
    ensures { let decimal = Before any_decimal (byte ∷ []) in
        MatchOption result
        (HasNone decimal text.now)
        (λ rest. (digits : List ℕ) × IsAt decimal text.now digits rest.now) }
{
    let Some((_, rest)) = span_at(DecimalState::Start, text) else {
        return None;
    };
    match after(rest, byte) {
        None => None,
        Some(rest) => Some(rest),
    }
}

/// Returns the number of bytes of the end line that begins the text, whatever its numbers.
fn end_at(text: &[u8]) -> Option<usize>
    ensures { MatchOption result (HasNoEnd text.now) (IsEndAt text.now) }
{
    let Some(numbers) = after_word(text, b"end ") else {
        return None;
    };
    let Some(last) = after_decimal(numbers, b' ') else {
        return None;
    };
    match after_decimal(last, b'\n') {
        None => None,
        Some(rest) => Some(text.len() - rest.len()),
    }
}

/// Returns whether the text is these pieces, with nothing between them.
fn is_joined(text: &[u8], pieces: &[&[u8]]) -> bool
    ensures { IsTrue result ↔ (text.now ≡ flat_map (λ p. p.now) pieces.now) }
{
    let mut rest = text;
    for piece in pieces {
        match rest.strip_prefix(*piece) {
            None => return false,
            Some(after) => rest = after,
        }
    }
    rest.is_empty()
}

/// Returns whether the line is the end line of these counts of attempts and live threads.
fn is_end_of(line: &[u8], calls: u64, left_live: u32) -> bool
    ensures { IsTrue result ↔ (line.now ≡ end_line calls left_live) }
{
    let mut number = Buffer::new();
    let mut count = Buffer::new();
    let calls = number.format(calls).as_bytes();
    let left_live = count.format(left_live).as_bytes();
    is_joined(line, &[b"end ", calls, b" ", left_live, b"\n"])
}

/// Judges the rest of a trace after its attempts, at line `n`: it must be the end line of these
/// counts of attempts and live threads, and nothing more.
pub(crate) fn judge_end(rest: &[u8], calls: u64, left_live: u32, n: u32) -> Result<(), ReplayError>
    requires { n < 2 ^ 32 - 1 }
    ensures { MatchResult result
        (λ _. rest.now ≡ end_line calls left_live)
        (IsEndRefusal rest.now calls left_live n) }
{
    let counts = EndCounts { calls, left_live };
    if rest.is_empty() {
        return Err(ReplayError::NoEnd(counts));
    }
    let Some(size) = end_at(rest) else {
        return Err(ReplayError::Line(n));
    };
    if !is_end_of(&rest[..size], calls, left_live) {
        return Err(ReplayError::EndCount(n, counts));
    }
    if size < rest.len() {
        return Err(ReplayError::Line(n + 1));
    }
    Ok(())
}
