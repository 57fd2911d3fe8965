//! Values at the front of a text, by their formats.
ghost use Rattle.std.specs.Prelude.{◌≡◌, ◌≢◌, Bool, ◌<◌, ◌≤◌, ◌+◌, ◌-◌, ◌*◌, ◌^◌, IfSome, MatchOption, [], ◌∷◌, ℕ, Option};
ghost use Rattle.bp_text.specs.Formats.{Finds, FindsAfter, bit, bit_digit, FindsPart};
ghost use Rattle.bp_text.specs.Formats.Format.{Number, Span};

use crate::lines::part_before;

/// Skips this byte, if it comes first, and returns the rest of the text.
#[inline(always)]
pub fn after(text: &[u8], byte: u8) -> Option<&[u8]>
    ensures { FindsAfter (byte ∷ []) text.now result }
{
    let Some((first, rest)) = text.split_first() else {
        return None;
    };
    if *first != byte {
        return None;
    }
    Some(rest)
}

/// Skips this word, if it comes first, and returns the rest of the text.
pub fn after_word<'a>(text: &'a [u8], own: &[u8]) -> Option<&'a [u8]>
    ensures { FindsAfter own.now text.now result }
{
    text.strip_prefix(own)
}

/// Returns the bit of a digit.
fn bit_of(byte: u8) -> Option<bool>
    ensures { MatchOption result
        ((b : Bool) → byte ≢ bit_digit b)
        (λ b. byte ≡ bit_digit b) }
{
    match byte {
        b'0' => Some(false),
        b'1' => Some(true),
        _ => None,
    }
}

/// Parses the digit of a bit, and returns the bit with the rest of the text.
#[inline(always)]
pub fn bit_at(text: &[u8]) -> Option<(bool, &[u8])>
    ensures { Finds bit text.now result }
{
    let Some((digit, rest)) = text.split_first() else {
        return None;
    };
    match bit_of(*digit) {
        None => None,
        Some(bit) => Some((bit, rest)),
    }
}

/// Returns the number with one more digit, if it has 64 bits.
fn with_digit(number: u64, digit: u8) -> Option<u64>
    requires low { 47 < digit }
    requires high { digit < 58 }
    ensures { MatchOption result
        (2 ^ 64 ≤ number * 10 + (digit - 48))
        (λ next. next ≡ number * 10 + (digit - 48)) }
{
    number.checked_mul(10)?.checked_add(u64::from(digit - b'0'))
}

/// Parses a number of 64 bits, and returns it with the rest of the text.
#[inline(always)]
pub fn long_number_at(text: &[u8]) -> Option<(u64, &[u8])>
    ensures { Finds (Number (2 ^ 64)) text.now result }
{
    let Some((first, others)) = text.split_first() else {
        return None;
    };
    if !first.is_ascii_digit() {
        return None;
    }
    let mut number = u64::from(*first - b'0');
    let mut rest = others;
    while let Some((digit, more)) = rest.split_first() {
        if !digit.is_ascii_digit() {
            return Some((number, rest));
        }
        // No digit comes after a leading zero.
        if number == 0 {
            return None;
        }
        let Some(next) = with_digit(number, *digit) else {
            return None;
        };
        number = next;
        rest = more;
    }
    Some((number, rest))
}

/// Parses a number below a bound, and returns it with the rest of the text.
#[inline(always)]
pub fn number_at(text: &[u8], bound: u64) -> Option<(u64, &[u8])>
    ensures found { Finds (Number bound) text.now result }
    ensures below { IfSome result (λ p. p.0 < bound) }
{
    let Some((number, rest)) = long_number_at(text) else {
        return None;
    };
    if bound <= number {
        return None;
    }
    Some((number, rest))
}

/// Parses a number below a bound of 32 bits, and returns it with the rest of the text.
#[inline(always)]
pub fn short_number_at(text: &[u8], bound: u32) -> Option<(u32, &[u8])>
    ensures { Finds (Number bound) text.now result }
{
    let Some((number, rest)) = number_at(text, u64::from(bound)) else {
        return None;
    };
    Some((number as u32, rest))
}

/// A machine that takes the bytes of a span.
pub trait Machine: Copy {
    ghost takes: { Self → ℕ → Option Self };

    ghost may_end: { Self → Bool };

    /// Returns the machine after this byte, if it takes it.
    fn after(self, byte: u8) -> Option<Self>
        ensures { result ≡ takes self byte };

    /// Returns whether the span may end here.
    fn is_end(self) -> bool
        ensures { result ≡ may_end self };
}

/// Splits a text after the bytes that the machine takes, if a span may end after them.
#[inline(always)]
pub fn span_at<M: Machine>(first: M, text: &[u8]) -> Option<(&[u8], &[u8])>
    ensures { FindsPart (Span M.takes M.may_end first) text.now result }
{
    let mut state = first;
    let mut rest = text;
    while let Some((byte, more)) = rest.split_first() {
        let Some(next) = state.after(*byte) else {
            break;
        };
        state = next;
        rest = more;
    }
    if !state.is_end() {
        return None;
    }
    Some((part_before(text, text.len() - rest.len()), rest))
}
