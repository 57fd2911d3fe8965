//! The lines of reported steps. Locations in the text of a program, as steps name them. The
//! position of a thread in the text of a program. The next step of the thread of each step.
ghost use Rattle.std.specs.Prelude.{◌≡◌, ◌==◌, ◌<◌, ◌^◌, length, map, IfOk};
ghost use Rattle.std.specs.List.{AllByRecursion};
ghost use Rattle.bp_machine.specs.declared.limits.TheConstants.{MAX_THREADS};
ghost use Rattle.bp_confirm.specs.Steps.{is_at, location_in, next_locations};
ghost use Rattle.bp_confirm.specs.Confirms.{thread_place_in};

use crate::kept_lines::StepLines;
use crate::source_points::SourcePoint;
use bp_machine::limits::MAX_THREADS;
use bp_text::Position;
use std::alloc::{AllocError, Global};
use std::marker::Model;

/// A variable by its name, and its value after a step.
#[derive(Clone, Copy)]
pub struct SeenValue<'a> {
    pub name: &'a [u8],
    pub bit: bool,
}

/// A reported step: its thread, the location of the thread before it, and the values that some
/// variables have after it, as the thread's topmost frame sees them.
#[derive(Drop)]
pub struct StepLine<'a> {
    /// The thread, from 0.
    pub thread: u32,
    pub location: Location,
    /// The part of the line with the values. Most lines have none, and a list needs memory.
    pub values: &'a [u8],
}

impl<'a> Model for StepLine<'a> {
    ghost use Rattle.bp_confirm.specs.Steps.{StepLineOf};
    ghost use Rattle.bp_confirm.specs.LineReadings.{values_in, SaysValues};

    ghost Value = { StepLineOf };

    ghost view = { λ s. record {
      thread = s.thread;
      location = s.location;
      values = values_in s.values.now;
    } };

    ghost invariant = { λ s. SaysValues s.values.now };
}

/// The location of a thread, as a step names it. Lines and columns are counted from 1, and a column
/// is a byte.
#[derive(Clone, Copy, Debug, PartialEq, Eq)]
pub enum Location {
    /// The end of a procedure.
    End,
    /// A statement that begins on this line.
    Line(u32),
    /// The statement that begins on this line at this column.
    Column(u32, u32),
}

/// Returns whether a line or a column has this number.
fn is_number(count: usize, number: u32) -> bool
    ensures { result ≡ (count == number) }
{
    count == number as usize
}

impl Location {
    /// Returns whether a statement that begins at this position is at this location; the end of a
    /// procedure has no position.
    pub(crate) fn is_at(&self, position: Option<Position>) -> bool
        ensures { result ≡ is_at self.now position }
    {
        match (*self, position) {
            (Location::End, None) => true,
            (Location::Line(line), Some(at)) => is_number(at.line, line),
            (Location::Column(line, column), Some(at)) => is_number(at.line, line)
                && is_number(at.column, column),
            _ => false,
        }
    }
}

/// The position of a thread in the text of a program.
#[derive(Clone, Copy, Debug, PartialEq, Eq)]
pub enum ThreadPlace {
    /// Nowhere: the thread has ended.
    Ended,
    /// At the end of a procedure.
    End,
    /// At the statement that begins at this position.
    Statement(Position),
}

/// Returns the position of a thread that continues at the instruction of this number, or has ended.
pub(crate) fn thread_place_in(points: &[SourcePoint], number: Option<u32>) -> ThreadPlace
    ensures { result ≡ thread_place_in points.now number }
{
    let Some(number) = number else {
        return ThreadPlace::Ended;
    };
    match points.get(number as usize) {
        None => ThreadPlace::Ended,
        Some(SourcePoint { position: None, .. }) => ThreadPlace::End,
        Some(
            SourcePoint {
                position: Some(position),
                ..
            },
        ) => ThreadPlace::Statement(*position),
    }
}

/// Returns the location of the step of this number, from 0, if there is one.
pub(crate) fn location_in(lines: &StepLines, number: u32) -> Option<Location>
    ensures { result ≡ location_in lines.now number }
{
    let n = number as usize;
    if n >= lines.len() {
        return None;
    }
    Some(lines.at(n).location)
}

/// Returns for each step the number, from 0, of its thread's next step, or that of no step.
pub(crate) fn next_steps(alloc: Global, lines: &StepLines) -> Result<Vec<u32>, AllocError>
    requires threads { AllByRecursion (λ x. x.thread < MAX_THREADS) lines.now }
    requires short { length lines.now < 2 ^ 32 }
    ensures { IfOk result (λ v. map (location_in lines.now) v.items ≡ next_locations lines.now) }
{
    let count = lines.len();
    let none = count as u32;
    let mut next = [none; MAX_THREADS];
    let mut steps = vec![in alloc; none; count]?;
    let mut n = count;
    while n > 0 {
        n -= 1;
        let line = lines.at(n);
        let thread = line.thread as usize;
        steps[n] = next[thread];
        next[thread] = n as u32;
    }
    Ok(steps)
}
