//! Reported steps that an exploration searches for, in their order.
ghost use Rattle.std.specs.Prelude.{◌≡◌, ◌<◌, ◌^◌, ℕ, List, length, IfOk, MatchResult};
ghost use Rattle.bp_flat.specs.Moves.{Configuration};
ghost use Rattle.bp_confirm.specs.ConfirmedTexts.{AreTold, IsUntold};
ghost use Rattle.bp_confirm.specs.OwnSteps.{sees_values, AreShown};
ghost use Rattle.bp_confirm.specs.FollowedSteps.{source_points_of};
ghost use Rattle.bp_confirm.specs.LineReadings.{values_in, SaysValues};

use crate::confirmations::{ConfirmError, told_lines};
use crate::kept_lines::StepLines;
use crate::source_points::{SourcePoint, is_there, source_points_of};
use crate::values::first_mismatch;
use bp_code::Checked;
use bp_explore::{Observer, SeenStep};
use bp_machine::{Setup, Top};
use std::alloc::Global;

/// The lines of a text of steps, which a run has to make in their order.
#[derive(Drop)]
pub struct ListedLines<'a> {
    /// The text of the program.
    pub text: &'a [u8],
    pub checked: &'a Checked,
    points: Vec<SourcePoint>,
    lines: StepLines<'a>,
    ghost points_are: { points.items ≡ source_points_of text.now checked.now },
    ghost short: { length lines < 2 ^ 32 },
}

/// Returns whether a thread with this top sees the values of a text.
fn sees_values(
    checked: &Checked,
    points: &[SourcePoint],
    top: Option<Top>,
    globals: u128,
    values: &[u8],
) -> bool
    requires { SaysValues values.now }
    ensures { (text : List ℕ) (c : Configuration) (i : ℕ)
        → points.now ≡ source_points_of text checked.now
        → AreShown checked.now c i top globals
        → result ≡ sees_values c i (values_in values.now) }
{
    first_mismatch(checked, points, top, globals, values).is_none()
}

impl Observer for ListedLines<'_> {
    ghost use Rattle.bp_confirm.specs.OwnSteps.{listed_steps};

    ghost listed = { λ x. listed_steps x.checked.now x.text.now x.lines };

    fn count(&self) -> u32 {
        self.lines.len() as u32
    }

    fn is_listed(&self, number: u32, step: &SeenStep) -> bool {
        let (number, points) = (number as usize, self.points.as_slice());
        if number >= self.lines.len() {
            return false;
        }
        let line = self.lines.at(number);
        let Some(top) = step.before else {
            return false;
        };
        if step.thread != line.thread {
            return false;
        }
        if !is_there(points, line.location, top.number) {
            return false;
        }
        sees_values(self.checked, points, step.after, step.globals, line.values)
    }
}

/// Reads a text of steps, of the program of a text in this setup, as the steps of a run to find.
pub fn read_listed_lines<'a>(
    alloc: Global,
    text: &'a [u8],
    checked: &'a Checked,
    setup: &Setup,
    steps: &'a [u8],
) -> Result<ListedLines<'a>, ConfirmError>
    ensures told { MatchResult result
        (λ x. AreTold checked.now setup.now steps.now x.lines)
        (IsUntold checked.now setup.now steps.now) }
    ensures of { IfOk result (λ x. (x.checked.now ≡ checked.now) × (x.text.now ≡ text.now)) }
{
    let lines = told_lines(alloc, checked, setup, steps)?;
    let Ok(points) = source_points_of(alloc, text, checked) else {
        return Err(ConfirmError::Memory);
    };
    Ok(ListedLines {
        text,
        checked,
        points,
        lines,
    })
}
