//! The history that takes the steps of lines.
ghost use Rattle.std.specs.Prelude.{◌≡◌, ◌<◌, ◌^◌, None, List, ℕ, false, length, map, IfErr, IfOk, IfSome, IsSome, MatchResult};
ghost use Rattle.bp_code.specs.WellFormedTexts.{IsWellFormedText};
ghost use Rattle.bp_machine.specs.declared.calls.Call.{Call as Answered};
ghost use Rattle.bp_machine.specs.Sessions.{Stands};
ghost use Rattle.bp_machine.specs.Setups.{Fits};
ghost use Rattle.bp_confirm.specs.Confirms.{AreOfThreads, IsNotFollowed};
ghost use Rattle.bp_confirm.specs.InferredBits.{zeros, IsFollowed, LastBits as AnyBits, IsConfirmed, IsTaken};
ghost use Rattle.bp_confirm.specs.FollowedSteps.{last_bits, source_points_of};
ghost use Rattle.bp_confirm.specs.Steps.{location_in, next_locations, steps_of};

use crate::choices::{LastBits, LastChoice, deciding, waits_of};
use crate::confirmations::StepError;
use crate::followed_steps::take_steps;
use crate::kept_lines::StepLines;
use crate::source_points::{SourcePoint, source_points_of};
use crate::step_lines::next_steps;
use bp_flat::Code;
use bp_machine::{Call, Session, Setup};
use std::alloc::{AllocError, Global};

/// The history that takes reported steps, an attempt for each.
#[derive(Drop)]
pub struct Confirmed {
    pub history: Vec<Call>,
    /// The session after the last attempt. Its setup is that of the trace.
    pub session: Session,
    /// The bits of last steps at a `?` on which its deadlock depends, in the order of the threads.
    pub choices: Vec<LastChoice>,
}

/// A history that takes the steps, the session after it, and whether some thread took its last bit.
#[derive(Drop)]
struct Taken {
    history: Vec<Call>,
    session: Session,
    asks: bool,
}

/// Takes the steps of these lines in the program, with these last bits.
fn take_with(
    alloc: Global,
    code: &Code,
    setup: &Setup,
    points: &[SourcePoint],
    nexts: &[u32],
    lines: &StepLines,
    last: LastBits<'_>,
) -> Result<Taken, StepError>
    requires fits { Fits code.now.tree setup.now }
    requires nexts { map (location_in lines.now) nexts.now ≡ next_locations lines.now }
    requires threads { AreOfThreads setup.now lines.now }
    requires unseeded { setup.now.seed ≡ None }
    requires short { length lines.now < 2 ^ 32 }
    ensures followed { (text : List ℕ)
        → points.now ≡ source_points_of text code.now.tree
        → let steps = steps_of text lines.now in
        IfOk result (λ f.
        IsFollowed code.now.tree setup.now (last_bits last.entry) steps f.history.items) }
    ensures unasked { (text : List ℕ) (other : AnyBits)
        → points.now ≡ source_points_of text code.now.tree
        → let steps = steps_of text lines.now in
        IfOk result (λ f.
        f.asks ≡ false → IsFollowed code.now.tree setup.now other steps f.history.items) }
    ensures refused { (text : List ℕ)
        → points.now ≡ source_points_of text code.now.tree
        → let t = code.now.tree in
        IfErr result (IsNotFollowed text t setup.now (last_bits last.entry) lines.now) }
    ensures stands { IfOk result (λ f. Stands code.now.tree f.session f.history.items) }
    ensures kept { IfOk result
        (λ f. (f.session.code ≡ code.now) × (f.session.setup ≡ setup.now)) }
{
    let mut session = Session::new(alloc, code, setup)?;
    let followed = take_steps(
        alloc,
        code.checked(),
        points,
        nexts,
        &mut session,
        lines,
        last,
    )?;
    Ok(Taken {
        history: followed.history,
        session,
        asks: followed.asks,
    })
}

/// Takes the steps once more, with other last bits. Returns None if a step is refused now, which
/// never happens for a well-formed text.
fn take_again(
    alloc: Global,
    code: &Code,
    setup: &Setup,
    points: &[SourcePoint],
    nexts: &[u32],
    lines: &StepLines,
    last: LastBits<'_>,
) -> Result<Option<Taken>, AllocError>
    requires fits { Fits code.now.tree setup.now }
    requires nexts { map (location_in lines.now) nexts.now ≡ next_locations lines.now }
    requires threads { AreOfThreads setup.now lines.now }
    requires unseeded { setup.now.seed ≡ None }
    requires short { length lines.now < 2 ^ 32 }
    ensures followed { (text : List ℕ)
        → points.now ≡ source_points_of text code.now.tree
        → let steps = steps_of text lines.now in
        IfOk result (λ found. IfSome found (λ f.
        IsFollowed code.now.tree setup.now (last_bits last.entry) steps f.history.items)) }
    ensures refused { (text : List ℕ) (other : AnyBits) (h : List Answered)
        → points.now ≡ source_points_of text code.now.tree
        → IsWellFormedText text code.now.tree
        → IsFollowed code.now.tree setup.now other (steps_of text lines.now) h
        → IfOk result IsSome }
    ensures stands { IfOk result (λ found.
        IfSome found (λ f. Stands code.now.tree f.session f.history.items)) }
    ensures kept { IfOk result (λ found.
        IfSome found (λ f. (f.session.code ≡ code.now) × (f.session.setup ≡ setup.now))) }
{
    match take_with(alloc, code, setup, points, nexts, lines, last) {
        Ok(taken) => Ok(Some(taken)),
        Err(StepError::Refusal(_)) => Ok(None),
        Err(StepError::Memory) => Err(AllocError),
    }
}

/// Returns the history that takes the steps, whose deadlock depends on these last bits.
fn confirmed_with(taken: Taken, choices: Vec<LastChoice>) -> Confirmed
    ensures { result
        ≡ record { history = taken.history; session = taken.session; choices = choices } }
{
    Confirmed {
        history: taken.history,
        session: taken.session,
        choices,
    }
}

/// Confirms the steps of these lines in the program of a text: returns the history that takes them,
/// one attempt for each, with the inferred choice bits; or the first line whose step no history
/// takes after those before it. A thread whose last step is at a `?` takes the bit of a deadlock,
/// if the threads are deadlocked after such bits, and else 0.
pub(crate) fn confirm_lines(
    alloc: Global,
    text: &[u8],
    code: &Code,
    setup: &Setup,
    lines: &StepLines,
) -> Result<Confirmed, StepError>
    requires fits { Fits code.now.tree setup.now }
    requires threads { AreOfThreads setup.now lines.now }
    requires unseeded { setup.now.seed ≡ None }
    requires short { length lines.now < 2 ^ 32 }
    ensures answer { MatchResult result
        (λ f. IsTaken code.now.tree setup.now (steps_of text.now lines.now) f.history.items)
        (IsNotFollowed text.now code.now.tree setup.now zeros lines.now) }
    ensures confirmed { IsWellFormedText text.now code.now.tree
        → IfOk result (λ f.
        IsConfirmed code.now.tree setup.now (steps_of text.now lines.now)
        f.history.items f.choices.items) }
    ensures stands { IfOk result (λ f. Stands code.now.tree f.session f.history.items) }
    ensures kept { IfOk result
        (λ f. (f.session.code ≡ code.now) × (f.session.setup ≡ setup.now)) }
{
    setup.is_in_range();
    let points = source_points_of(alloc, text, code.checked())?;
    let points = points.as_slice();
    let nexts = next_steps(alloc, lines)?;
    let nexts = nexts.as_slice();
    let bits = LastBits::Each(false);
    let zeroed = take_with(alloc, code, setup, points, nexts, lines, bits)?;
    if !zeroed.asks {
        return Ok(confirmed_with(zeroed, Vec::new(alloc)));
    }
    let after_0 = waits_of(alloc, &zeroed.session)?;
    let bits = LastBits::Each(true);
    let Some(oned) = take_again(alloc, code, setup, points, nexts, lines, bits)? else {
        return Ok(confirmed_with(zeroed, Vec::new(alloc)));
    };
    let after_1 = waits_of(alloc, &oned.session)?;
    let bits = LastBits::Waiting(after_0.as_slice());
    let Some(waiting) = take_again(alloc, code, setup, points, nexts, lines, bits)? else {
        return Ok(confirmed_with(zeroed, Vec::new(alloc)));
    };
    if !waiting.session.is_deadlocked() {
        return Ok(confirmed_with(zeroed, Vec::new(alloc)));
    }
    let choices = deciding(
        alloc,
        setup.threads(),
        after_0.as_slice(),
        after_1.as_slice(),
    )?;
    Ok(confirmed_with(waiting, choices))
}
