//! Decimals: the number of digits of a number, and the number with these digits.
ghost use Rattle.std.specs.Prelude.{◌≡◌, MatchOption, length, decimal};
ghost use Rattle.bp_text.specs.Pieces.{IsNumber, IsNoNumber};

use crate::formats::long_number_at;
use itoa::Buffer;

/// Returns the number of digits of a number.
pub fn digits(number: u64) -> usize
    ensures { result ≡ length (decimal number) }
{
    let mut buffer = Buffer::new();
    buffer.format(number).len()
}

/// Reads the digits of a number of 64 bits.
pub fn number_of(digits: &[u8]) -> Option<u64>
    ensures { MatchOption result
        (IsNoNumber digits.now)
        (IsNumber digits.now) }
{
    let Some((number, rest)) = long_number_at(digits) else {
        return None;
    };
    if rest.is_empty() { Some(number) } else { None }
}
