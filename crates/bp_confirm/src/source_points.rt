//! The start of the statement of each instruction, and its procedure.
ghost use Rattle.std.specs.Prelude.{◌≡◌, IfOk, slice_get, option_map};
ghost use Rattle.bp_confirm.specs.FollowedSteps.{is_there, source_points_of};

use crate::step_lines::Location;
use bp_code::{Checked, statement_starts};
use bp_text::{FIRST, Position, position_from};
use std::alloc::{AllocError, Global};

/// The start of the statement of an instruction.
#[derive(Clone, Copy)]
pub(crate) struct SourcePoint {
    /// None at the end of a procedure.
    pub(crate) position: Option<Position>,
    /// The procedure's index among the procedures.
    pub(crate) procedure: usize,
}

/// Returns the point of each instruction of the program of a text, in their order.
pub(crate) fn source_points_of(
    alloc: Global,
    text: &[u8],
    checked: &Checked,
) -> Result<Vec<SourcePoint>, AllocError>
    ensures { IfOk result (λ v. v.items ≡ source_points_of text.now checked.now) }
{
    let starts = statement_starts(alloc, checked)?;
    let mut points = Vec::new(alloc);
    let mut at = 0;
    let mut here = FIRST;
    let mut procedure: usize = 0;
    for start in starts.iter() {
        if let Some(start) = *start {
            here = position_from(text, at, here, start as usize);
            at = start as usize;
            let position = Some(here);
            points.push(SourcePoint {
                position,
                procedure,
            })?;
        } else {
            let position = None;
            points.push(SourcePoint {
                position,
                procedure,
            })?;
            procedure = procedure.saturating_add(1);
        }
    }
    Ok(points)
}

/// Returns the point of an instruction.
pub(crate) fn point_of(points: &[SourcePoint], number: u32) -> Option<SourcePoint>
    ensures { result ≡ slice_get points.now number }
{
    match points.get(number as usize) {
        Some(point) => Some(*point),
        None => None,
    }
}

/// Returns whether the statement of an instruction is at a location.
pub(crate) fn is_there(points: &[SourcePoint], location: Location, number: u32) -> bool
    ensures { result ≡ is_there points.now location number }
{
    match points.get(number as usize) {
        Some(point) => location.is_at(point.position),
        None => false,
    }
}

/// Returns the index of an instruction's procedure among the procedures.
pub(crate) fn procedure_of(points: &[SourcePoint], number: u32) -> Option<usize>
    ensures { result ≡ option_map (λ x. x.procedure) (slice_get points.now number) }
{
    match points.get(number as usize) {
        Some(point) => Some(point.procedure),
        None => None,
    }
}
