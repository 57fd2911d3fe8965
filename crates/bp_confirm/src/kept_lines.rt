//! The lines of a text of steps, in a few bytes each. Reading the lines of a text of steps. Most
//! lines come more than once. A value on a line of a text of steps.
ghost use Rattle.std.specs.Prelude.{◌≡◌, ◌<◌, ◌≤◌, ◌^◌, ◌++◌, ◌∷◌, [], IfOk, IfSome, MatchOption, MatchResult, OnOk, length, option_map, slice_get};
ghost use Rattle.std.specs.List.{AllByRecursion};
ghost use Rattle.bp_confirm.specs.KeptLines.{kept_lines, GrowsByOne, IsKeptLine, IsStepThere};
ghost use Rattle.bp_text.specs.Formats.{HasNone};
ghost use Rattle.bp_confirm.specs.LineReadings.{IsStepOnLine, IsUnreadable, IsValueOnLine, SaysValues, values_in};
ghost use Rattle.bp_confirm.specs.Steps.{HasLines, step_line, value_of};

use crate::fields::{step_at, value_at};
use crate::step_lines::{SeenValue, StepLine};
use bp_text::part_before;
use std::alloc::{AllocError, Global};
use std::marker::Model;

/// Why a text is not read as steps.
#[derive(Clone, Copy)]
pub(crate) enum StepsError {
    /// This line is the first that is malformed, or the last one that does not end.
    Line(u32),
    /// There was not enough memory.
    Memory,
}

impl From<AllocError> for StepsError {
    ghost use Rattle.std.specs.Prelude.{◌≡◌};
    ghost use Rattle.bp_confirm.specs.declared.kept_lines.StepsError.{StepsError};

    ghost from_gives = { λ _ e. e ≡ StepsError.Memory };

    fn from(_: AllocError) -> StepsError {
        StepsError::Memory
    }
}

/// The number of lines that are recorded, so that they are recognized when they are read again.
const SLOTS: usize = 4096;

/// Returns the slot that records a line of this text: a hash of its first 16 bytes.
fn slot_of(text: &[u8]) -> usize
    ensures { result < SLOTS }
{
    let Some((front, rest)) = text.split_first_chunk::<8>() else {
        return 0;
    };
    let Some(next) = rest.first_chunk::<8>() else {
        return 0;
    };
    let first = u64::from_le_bytes(*front);
    let second = u64::from_le_bytes(*next).rotate_left(29);
    ((first ^ second).wrapping_mul(0x9E37_79B9_7F4A_7C15) >> 52) as usize % SLOTS
}

/// Returns the text after the line that is kept at this place, if the text begins with it.
fn after_kept<'a>(kept: &[KeptLine], place: u32, text: &'a [u8]) -> Option<&'a [u8]>
    requires { AllByRecursion IsKeptLine kept.now }
    ensures { IfSome result (λ more.
        IsStepThere (kept_lines kept.now) place text.now more.now) }
{
    match kept.get(place as usize) {
        None => None,
        Some(line) => text.strip_prefix(line.text),
    }
}

/// Reads the line that begins a text, and returns its kept place with the rest of the text.
fn read_line<'a>(
    kept: &mut Vec<KeptLine<'a>>,
    noted: &mut [u32; SLOTS],
    text: &'a [u8],
) -> Result<Option<(u32, &'a [u8])>, AllocError>
    requires each { AllByRecursion IsKeptLine kept.old.items }
    requires few { length kept.old.items < 2 ^ 32 }
    ensures each { OnOk result (AllByRecursion IsKeptLine kept.new.items) }
    ensures grown { OnOk result (GrowsByOne kept.old.items kept.new.items) }
    ensures read { IfOk result (λ r. MatchOption r
        (HasNone step_line text.now)
        (λ p. IsStepThere (kept_lines kept.new.items) p.0 text.now p.1.now)) }
{
    let slot = slot_of(text);
    if let Some(more) = after_kept(kept.as_slice(), noted[slot], text) {
        return Ok(Some((noted[slot], more)));
    }
    let Some((line, more)) = step_at(text) else {
        return Ok(None);
    };
    let place = kept.len() as u32;
    noted[slot] = place;
    let text = part_before(text, text.len() - more.len());
    kept.push(KeptLine { text, line })?;
    Ok(Some((place, more)))
}

/// Adds the place of a line.
fn add(places: &mut Vec<u32>, place: u32) -> Result<(), AllocError>
    ensures { OnOk result (places.new.items ≡ places.old.items ++ place ∷ []) }
{
    places.push(place)?;
    Ok(())
}

/// Reads the text of reported steps, a line for each: the thread, a space, its location before the
/// step, and any number of values after it, each of them a space, a name, an equals sign and a bit.
/// A location is a line, a line and a column with a colon between them, or a dash for the end of a
/// procedure. Numbers have 32 bits and no leading zeros. A name in braces ends at its first `}`;
/// another one has no space, and ends at its first `=`.
/// Most lines with the same text are kept once.
pub(crate) fn read_lines(alloc: Global, text: &[u8]) -> Result<StepLines<'_>, StepsError>
    requires { length text.now < 2 ^ 32 }
    ensures read { MatchResult result
        (HasLines text.now)
        (IsUnreadable text.now) }
    ensures few { IfOk result (λ lines. length lines ≤ length text.now) }
{
    let mut noted = [0; SLOTS];
    let mut kept = Vec::new(alloc);
    let mut places = Vec::new(alloc);
    let mut rest = text;
    while !rest.is_empty() {
        let n = places.len() as u32 + 1;
        let read = read_line(&mut kept, &mut noted, rest)?;
        let Some((place, more)) = read else {
            return Err(StepsError::Line(n));
        };
        add(&mut places, place)?;
        rest = more;
    }
    Ok(StepLines { kept, places })
}

/// A line that is kept.
#[derive(Drop)]
pub(crate) struct KeptLine<'a> {
    /// Its text, with its line feed.
    pub(crate) text: &'a [u8],
    pub(crate) line: StepLine<'a>,
}

/// The lines of a text of steps. Most lines with the same text have the same place.
#[derive(Drop)]
pub(crate) struct StepLines<'a> {
    pub(crate) kept: Vec<KeptLine<'a>>,
    /// For each line of the text its place among the kept ones.
    pub(crate) places: Vec<u32>,
}

impl<'a> Model for StepLines<'a> {
    ghost use Rattle.std.specs.Prelude.{List};
    ghost use Rattle.bp_confirm.specs.Steps.{StepLineOf};
    ghost use Rattle.bp_confirm.specs.KeptLines.{kept_lines, lines_at, AreWithin};

    ghost Value = { List StepLineOf };

    ghost view = { λ s. lines_at (kept_lines s.kept.items) s.places.items };

    ghost invariant = { λ s. AreWithin (kept_lines s.kept.items) s.places.items };
}

impl<'a> StepLines<'a> {
    ghost use Rattle.std.specs.Prelude.{◌≡◌, ◌<◌, length, get_or};

    /// Returns the number of lines.
    pub(crate) fn len(&self) -> usize
        ensures { result ≡ length self.now }
    {
        self.places.len()
    }

    /// Returns the line of this number, from 0.
    #[inline(always)]
    pub(crate) fn at(&self, n: usize) -> &StepLine<'a>
        requires { n < length self.now }
        ensures { result.now ≡ get_or self.now n result.now }
    {
        &self.kept[self.places[n] as usize].line
    }
}

/// Returns the step of this line, counted from 1.
fn step_on_line(steps: &[u8], line: u32) -> Option<StepLine<'_>>
    ensures { IsStepOnLine steps.now line result }
{
    let mut rest = steps;
    for _before in 1..line {
        let Some((_, more)) = step_at(rest) else {
            return None;
        };
        rest = more;
    }
    match step_at(rest) {
        None => None,
        Some((step, _)) => Some(step),
    }
}

/// Returns the value at this index, from 0, of a part of a line with values.
fn value_at_place(values: &[u8], place: usize) -> Option<SeenValue<'_>>
    requires { SaysValues values.now }
    ensures { option_map value_of result ≡ slice_get (values_in values.now) place }
{
    let mut rest = values;
    for _before in 0..place {
        let Some((_, more)) = value_at(rest) else {
            return None;
        };
        rest = more;
    }
    match value_at(rest) {
        None => None,
        Some((value, _)) => Some(value),
    }
}

/// Returns the value at this index on a line of a text of steps. Lines are counted from 1, and the
/// values of a line from 0.
pub fn value_on_line(steps: &[u8], line: u32, place: usize) -> Option<SeenValue<'_>>
    ensures { IsValueOnLine steps.now line place (option_map value_of result) }
{
    if line == 0 {
        return None;
    }
    let Some(step) = step_on_line(steps, line) else {
        return None;
    };
    value_at_place(step.values, place)
}
