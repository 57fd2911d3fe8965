//! Whether a thread may step, and the places at which threads wait. The instruction at which an
//! assertion failed.
ghost use Rattle.std.specs.Prelude.{◌≡◌, ◌<◌, ◌↔◌, true, false, IsTrue, IfOk, MatchOption, IfNone, IfSome};
ghost use Rattle.bp_machine.specs.Histories.{configuration_after, outcome_of};
ghost use Rattle.bp_machine.specs.Sessions.{AfterEach};
ghost use Rattle.bp_machine.specs.Setups.{threads};
ghost use Rattle.bp_machine.specs.Runs.{waits};
ghost use Rattle.bp_test.specs.Tests.{HaveReturned, RestsIn, FailsAt};
ghost use Rattle.bp_test.specs.Reach.{AreWaiting, IsWait};

use crate::runs::next_number;
use bp_flat::{Code, Kind};
use bp_machine::{Outcome, Session, failures_are_real};
use std::alloc::{AllocError, Global};

/// A thread that waits.
#[derive(Clone, Copy, Debug, PartialEq, Eq)]
pub struct Waiting {
    pub thread: u32,
    /// The number of the instruction at which it waits.
    pub number: u32,
}

/// Returns whether the instruction of this number is of this kind.
pub(crate) fn is_of_kind(code: &Code, number: Option<u32>, kind: Kind) -> bool {
    let Some(number) = number else {
        return false;
    };
    match code.get(number) {
        Some(instr) => instr.kind() == kind,
        None => false,
    }
}

/// Returns whether a thread, which is at the instruction of this number, may step: it is
/// live, and it does not wait.
#[inline(always)]
pub(crate) fn may_step_at(session: &Session, thread: u32, number: Option<u32>) -> bool
    requires { thread < threads session.now.setup }
    ensures { result ≡ false → RestsIn session.now thread }
{
    if session.is_terminated(thread) {
        return false;
    }
    // A thread at another instruction does not wait, and this is quicker to tell.
    !(is_of_kind(session.code(), number, Kind::Assume) && session.waits(thread))
}

/// Returns whether a thread may step.
pub(crate) fn may_step(session: &Session, thread: u32) -> bool
    requires { thread < threads session.now.setup }
    ensures { result ≡ false → RestsIn session.now thread }
{
    may_step_at(session, thread, next_number(session, thread))
}

/// Returns whether each thread is at the end of its program.
pub(crate) fn have_returned(session: &Session) -> bool
    ensures { AfterEach session.now (λ t h. let now = configuration_after t session.now.setup h in
        (IsTrue result ↔ HaveReturned now (threads session.now.setup))) }
{
    for thread in 0..session.setup().threads() {
        if next_number(session, thread).is_some() {
            return false;
        }
    }
    true
}

/// Returns the place at which a thread waits, if it does.
fn waiting_at(session: &Session, thread: u32) -> Option<Waiting>
    ensures { AfterEach session.now (λ t h. let now = configuration_after t session.now.setup h in
        MatchOption result (waits t now thread ≡ false) (IsWait t now thread)) }
{
    if !session.waits(thread) {
        return None;
    }
    let number = next_number(session, thread)?;
    Some(Waiting { thread, number })
}

/// Returns the threads that wait, in ascending order, and their places.
pub fn waiting_threads(alloc: Global, session: &Session) -> Result<Vec<Waiting>, AllocError>
    ensures { IfOk result (λ v.
        AfterEach session.now (λ t h. let now = configuration_after t session.now.setup h in
        AreWaiting t now (threads session.now.setup) v.items)) }
{
    let mut waiting = Vec::new(alloc);
    for thread in 0..session.setup().threads() {
        if let Some(found) = waiting_at(session, thread) {
            waiting.push(found)?;
        }
    }
    Ok(waiting)
}

/// Returns the number of the instruction whose assertion failed, if one did.
#[tactic(auto, using(crate::proofs::Plays::has_frame))]
pub fn failed_instruction(session: &Session) -> Option<u32>
    ensures at { AfterEach session.now (λ t h. IfSome result (FailsAt t session.now.setup h)) }
    ensures none { AfterEach session.now (λ t h. IfNone result (outcome_of h ≡ Outcome.Clean)) }
{
    failures_are_real();
    let report = session.report();
    let Outcome::Failed { thread } = report.outcome else {
        return None;
    };
    let Some(top) = session.top(thread) else {
        return None;
    };
    Some(top.number)
}
