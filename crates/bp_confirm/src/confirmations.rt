//! Confirming a text of reported steps. Why reported steps are not taken.
ghost use Rattle.std.specs.Prelude.{◌≡◌, ◌<◌, ◌^◌, None, length, IfOk, MatchResult};
ghost use Rattle.bp_machine.specs.Setups.{Fits};
ghost use Rattle.bp_confirm.specs.ConfirmedTexts.{AreTold, ConfirmsTo, IsStepsRefusal, IsUntold, error_of_undeclared};

use crate::declarations::{Undeclared, check_lines, setup_for};
use crate::histories::{Confirmed, confirm_lines};
use crate::kept_lines::{StepLines, StepsError, read_lines};
use crate::step_lines::{Location, ThreadPlace};
use bp_code::Checked;
use bp_flat::Code;
use bp_machine::{Reply, Setup};
use bp_source::ContextBound;
use bp_trace::limits::MAX_SCHEDULE;
use std::alloc::{AllocError, Global};
use thiserror::Error;

/// Why a text of steps is not confirmed: the first reason that applies. Lines are counted from 1.
#[derive(Clone, Copy, Debug, Error)]
pub enum ConfirmError {
    /// The text has more than 67,108,864 bytes.
    #[error("the steps are too long")]
    TooLong,
    /// The text has no step.
    #[error("there are no steps")]
    NoSteps,
    /// This line is the first that is malformed, or the last one that does not end.
    #[error("line {0} of the steps is not a thread, a place and values")]
    Line(u32),
    /// This line is the first with an undeclared name: a thread that the setup does not have.
    #[error("line {0} of the steps is of thread {1}, which is not there")]
    NoThread(u32, u32),
    /// This line is the first with an undeclared name: a variable that no part of the program has.
    /// It is that of the value of this index on the line, from 0.
    #[error("line {0} of the steps has a value of no variable")]
    NoVariable(u32, usize),
    /// This is the first step that is not taken.
    #[error("line {} of the steps is not taken", .0.line)]
    Step(StepRefusal),
    /// There was not enough memory.
    #[error("out of memory")]
    Memory,
}

/// Returns the error of the first line with an undeclared name.
fn error_of_undeclared(line: u32, undeclared: Undeclared) -> ConfirmError
    ensures { result ≡ error_of_undeclared line undeclared }
{
    match undeclared {
        Undeclared::Thread(thread) => ConfirmError::NoThread(line, thread),
        Undeclared::Variable(value) => ConfirmError::NoVariable(line, value),
    }
}

/// Returns the lines of a text of steps, with threads of the setup and variables of the program.
pub(crate) fn told_lines<'a>(
    alloc: Global,
    checked: &Checked,
    setup: &Setup,
    steps: &'a [u8],
) -> Result<StepLines<'a>, ConfirmError>
    ensures told { MatchResult result
        (AreTold checked.now setup.now steps.now)
        (IsUntold checked.now setup.now steps.now) }
    ensures short { IfOk result (λ lines. length lines < 2 ^ 32) }
{
    if steps.len() > MAX_SCHEDULE {
        return Err(ConfirmError::TooLong);
    }
    if steps.is_empty() {
        return Err(ConfirmError::NoSteps);
    }
    let lines = match read_lines(alloc, steps) {
        Ok(lines) => lines,
        Err(StepsError::Line(line)) => return Err(ConfirmError::Line(line)),
        Err(StepsError::Memory) => return Err(ConfirmError::Memory),
    };
    if let Err((line, undeclared)) = check_lines(alloc, checked, setup, &lines) {
        return Err(error_of_undeclared(line, undeclared));
    }
    Ok(lines)
}

/// Confirms a text of reported steps of the program of a text: the history that takes them, one
/// attempt for each step, in the setup of its trace. A thread whose last step is at a `?` takes the
/// bit of a deadlock, if the threads are deadlocked after such bits, and else 0.
pub fn confirm(
    alloc: Global,
    text: &[u8],
    code: &Code,
    setup: &Setup,
    bound: ContextBound,
    steps: &[u8],
) -> Result<Confirmed, ConfirmError>
    requires fits { Fits code.now.tree setup.now }
    requires unseeded { setup.now.seed ≡ None }
    ensures answer { MatchResult result
        (ConfirmsTo code.now.tree setup.now steps.now text.now bound)
        (IsStepsRefusal code.now.tree setup.now steps.now text.now bound) }
    ensures code { IfOk result (λ x. x.session.code ≡ code.now) }
{
    let lines = told_lines(alloc, code.checked(), setup, steps)?;
    let setup = match setup_for(alloc, code, setup, bound, &lines) {
        Ok(setup) => setup,
        // It fits, since the given one does.
        Err(_) => return Err(ConfirmError::Memory),
    };
    match confirm_lines(alloc, text, code, &setup, &lines) {
        Ok(confirmed) => Ok(confirmed),
        Err(StepError::Refusal(refusal)) => Err(ConfirmError::Step(refusal)),
        Err(StepError::Memory) => Err(ConfirmError::Memory),
    }
}

/// The first of the values of a line that its thread does not see after the step.
#[derive(Clone, Copy, Debug, PartialEq, Eq)]
pub struct Difference {
    /// The index of the value on the line, from 0.
    pub place: usize,
    /// The value that the thread sees: the other one, or no variable of the name.
    pub seen: Option<bool>,
    /// The line of the last step that changed the thread's view of the name; None if no step did.
    pub changed: Option<u32>,
}

/// Why a step is not taken: the first reason that applies.
#[derive(Clone, Copy, Debug, PartialEq, Eq)]
pub enum StepReason {
    /// Its thread is not at its location.
    Elsewhere,
    /// Its thread makes no more attempts: its assertion failed, or its attempts are used up.
    Finished,
    /// The machine does not grant it, and gives this reply.
    Refused(Reply),
    /// Its thread does not see one of its values after it.
    Differs(Difference),
    /// It is taken, but its thread is at a `?`, and both ways are at the location of the thread's
    /// next step.
    Ambiguous,
}

/// The first step that is not taken.
#[derive(Clone, Copy, Debug)]
pub struct StepRefusal {
    /// Its line, from 1.
    pub line: u32,
    pub thread: u32,
    /// The location that its line names.
    pub location: Location,
    /// The number of the instruction at which its thread is; None if the thread has ended.
    pub number: Option<u32>,
    /// The position of that in the text of the program.
    pub thread_place: ThreadPlace,
    pub reason: StepReason,
}

/// Why reported steps are not taken.
#[derive(Clone, Copy)]
pub(crate) enum StepError {
    /// A step is not taken.
    Refusal(StepRefusal),
    /// There was not enough memory.
    Memory,
}

impl From<AllocError> for StepError {
    ghost use Rattle.std.specs.Prelude.{◌≡◌};
    ghost use Rattle.bp_confirm.specs.declared.confirmations.StepError.{StepError};

    ghost from_gives = { λ _ e. e ≡ StepError.Memory };

    fn from(_: AllocError) -> StepError {
        StepError::Memory
    }
}
