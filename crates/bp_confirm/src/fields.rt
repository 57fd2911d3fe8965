//! The fields of a line of reported steps.
ghost use Rattle.std.specs.Prelude.{◌≡◌, MatchOption};
ghost use Rattle.bp_text.specs.Formats.{Finds, HasNone, IsAt};
ghost use Rattle.bp_text.specs.Formats.Format.{Many};
ghost use Rattle.bp_confirm.specs.LineReadings.{values_in, SaysValues};
ghost use Rattle.bp_confirm.specs.Steps.{after_byte, location, may_end, outside_braces, short, step_line, value, value_of};

use crate::step_lines::{Location, SeenValue, StepLine};
use bp_text::{Machine, after, bit_at, number_at, part_before, span_at};

/// The state of reading a name: nothing read yet, or outside or inside braces.
#[derive(Clone, Copy)]
pub enum NameState {
    Start,
    Outside,
    Inside,
}

/// Returns the state of the name after this byte outside braces, if it continues with it.
fn outside_braces(byte: u8) -> Option<NameState>
    ensures { result ≡ outside_braces byte }
{
    match byte {
        b'\n' | b' ' | b'=' => None,
        b'{' => Some(NameState::Inside),
        _ => Some(NameState::Outside),
    }
}

impl Machine for NameState {
    ghost takes = { after_byte };

    ghost may_end = { may_end };

    fn after(self, byte: u8) -> Option<NameState> {
        match self {
            NameState::Start | NameState::Outside => outside_braces(byte),
            NameState::Inside => match byte {
                b'\n' => None,
                b'}' => Some(NameState::Outside),
                _ => Some(NameState::Inside),
            },
        }
    }

    fn is_end(self) -> bool {
        match self {
            NameState::Outside => true,
            NameState::Start | NameState::Inside => false,
        }
    }
}

/// Parses a number of 32 bits, and returns it with the rest of the text.
#[inline(always)]
fn short_at(text: &[u8]) -> Option<(u32, &[u8])>
    ensures { Finds short text.now result }
{
    let Some((number, rest)) = number_at(text, 1 << 32) else {
        return None;
    };
    Some((number as u32, rest))
}

/// Parses a location, and returns it with the rest of the text.
#[inline(always)]
fn location_at(text: &[u8]) -> Option<(Location, &[u8])>
    ensures { Finds location text.now result }
{
    if let Some(rest) = after(text, b'-') {
        return Some((Location::End, rest));
    }
    let Some((line, rest)) = short_at(text) else {
        return None;
    };
    let Some(digits) = after(rest, b':') else {
        return Some((Location::Line(line), rest));
    };
    let Some((column, rest)) = short_at(digits) else {
        // Without a column after it, the colon is not part of the location.
        return Some((Location::Line(line), rest));
    };
    Some((Location::Column(line, column), rest))
}

/// Parses a value, and returns it with the rest of the text.
pub(crate) fn value_at(text: &[u8]) -> Option<(SeenValue<'_>, &[u8])>
    ensures { MatchOption result
        (HasNone value text.now)
        (λ p. IsAt value text.now (value_of p.0) p.1.now) }
{
    let Some(field) = after(text, b' ') else {
        return None;
    };
    let Some((name, rest)) = span_at(NameState::Start, field) else {
        return None;
    };
    let Some(digit) = after(rest, b'=') else {
        return None;
    };
    match bit_at(digit) {
        None => None,
        Some((bit, rest)) => Some((SeenValue { name, bit }, rest)),
    }
}

/// Splits a text after the values that begin it.
fn values_at(text: &[u8]) -> (&[u8], &[u8])
    ensures says { SaysValues result.0.now }
    ensures at { IsAt (Many value) text.now (values_in result.0.now) result.1.now }
{
    let mut rest = text;
    while let Some((_, more)) = value_at(rest) {
        rest = more;
    }
    (part_before(text, text.len() - rest.len()), rest)
}

/// Parses the line of a step, and returns it with the rest of the text.
#[inline(always)]
pub(crate) fn step_at(text: &[u8]) -> Option<(StepLine<'_>, &[u8])>
    ensures { Finds step_line text.now result }
{
    let Some((thread, rest)) = short_at(text) else {
        return None;
    };
    let Some(field) = after(rest, b' ') else {
        return None;
    };
    let Some((location, rest)) = location_at(field) else {
        return None;
    };
    let (values, rest) = values_at(rest);
    let Some(more) = after(rest, b'\n') else {
        return None;
    };
    let step = StepLine {
        thread,
        location,
        values,
    };
    Some((step, more))
}
