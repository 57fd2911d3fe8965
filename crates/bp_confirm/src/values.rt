//! The values that a thread sees. The last step that changed a thread's view of a variable.
ghost use Rattle.std.specs.Prelude.{◌≡◌, ◌↔◌, IsTrue, Some, [], ℕ, List, IfSome, MatchOption, ◌<◌, ◌+◌, ◌^◌, Bool, Option, length, IfOk};
ghost use Rattle.bp_flat.specs.Moves.{Configuration};
ghost use Rattle.bp_flat.specs.InstrEffects.{bits_of};
ghost use Rattle.bp_flat.specs.StandsFor.{valuation_of, variables};
ghost use Rattle.bp_machine.specs.declared.calls.Call.{Call as Answered};
ghost use Rattle.bp_machine.specs.Histories.{stack_of, configuration_after};
ghost use Rattle.bp_machine.specs.Sessions.{Stands};
ghost use Rattle.bp_machine.specs.Runs.{IsTop};
ghost use Rattle.bp_machine.specs.Setups.{Fits};
ghost use Rattle.bp_trace.specs.Replays.{IsPlayable};
ghost use Rattle.bp_confirm.specs.FollowedSteps.{source_points_of};
ghost use Rattle.bp_confirm.specs.OwnSteps.{AreShown};
ghost use Rattle.bp_confirm.specs.Steps.{local_seen, own_value, value_seen, IsFirstMismatch, SeesValues};
ghost use Rattle.bp_confirm.specs.LineReadings.{values_in, IsNameIn, SaysValues};
ghost use Rattle.bp_confirm.specs.Confirms.{seen_after, IsLastChange};

use crate::fields::value_at;
use crate::source_points::{SourcePoint, procedure_of};
use bp_code::Checked;
use bp_flat::{global_value, local_value};
use bp_machine::{Call, Session, Top};
use bp_source::own_name;
use bp_syntax::Proc;
use std::alloc::{AllocError, Global};

/// Returns the value of a local of a procedure in this word, by its name or by its name after the
/// procedure's and a dot; None if it has no such local.
fn own_value(proc: &Proc, word: u128, name: &[u8]) -> Option<bool>
    ensures { let locals = valuation_of (variables proc.now) (bits_of word) in
        result ≡ own_value proc.now.name.text locals name.now }
{
    if let Some(bit) = local_value(proc, word, name) {
        return Some(bit);
    }
    match own_name(name, proc.name().text().as_bytes()) {
        Some(own) => local_value(proc, word, own),
        None => None,
    }
}

/// Returns the value of a local of the frame at the top, by its name or by its name after the
/// procedure's and a dot; None if it has no such local.
fn local_seen(
    checked: &Checked,
    points: &[SourcePoint],
    top: Option<Top>,
    name: &[u8],
) -> Option<bool>
    ensures { (text : List ℕ) (c : Configuration) (i : ℕ)
        → points.now ≡ source_points_of text checked.now
        → MatchOption top (stack_of c i ≡ []) (IsTop checked.now c i)
        → result ≡ local_seen (stack_of c i) name.now }
{
    let Some(top) = top else {
        return None;
    };
    let Some(procedure) = procedure_of(points, top.number) else {
        return None;
    };
    let Some(proc) = checked.tree().procs().get(procedure) else {
        return None;
    };
    own_value(proc, top.store.locals, name)
}

/// Returns the value of a variable as a thread with this top sees it: a local hides a global.
fn value_at_top(
    checked: &Checked,
    points: &[SourcePoint],
    top: Option<Top>,
    globals: u128,
    name: &[u8],
) -> Option<bool>
    ensures { (text : List ℕ) (c : Configuration) (i : ℕ)
        → points.now ≡ source_points_of text checked.now
        → AreShown checked.now c i top globals
        → result ≡ value_seen c.globals (stack_of c i) name.now }
{
    match local_seen(checked, points, top, name) {
        Some(bit) => Some(bit),
        None => global_value(checked.tree().globals(), globals, name),
    }
}

/// Returns the value of a variable as a thread sees it.
pub(crate) fn value_seen(
    checked: &Checked,
    points: &[SourcePoint],
    session: &Session,
    thread: u32,
    name: &[u8],
) -> Option<bool>
    ensures { (text : List ℕ) (h : List Answered)
        → session.now.code.tree ≡ checked.now
        → points.now ≡ source_points_of text checked.now
        → Stands checked.now session.now h
        → let c = configuration_after checked.now session.now.setup h in
        result ≡ value_seen c.globals (stack_of c thread) name.now }
{
    value_at_top(
        checked,
        points,
        session.top(thread),
        session.globals(),
        name,
    )
}

/// Returns whether a variable is seen with this value.
fn is_value(seen: Option<bool>, bit: bool) -> bool
    ensures { IsTrue result ↔ (seen ≡ Some bit) }
{
    match seen {
        Some(value) => value == bit,
        None => false,
    }
}

/// A value that a thread does not see.
#[derive(Clone, Copy)]
pub(crate) struct Mismatch<'a> {
    /// Its index among the values of its line, from 0.
    pub(crate) place: usize,
    pub(crate) name: &'a [u8],
    /// The value that the thread sees instead.
    pub(crate) seen: Option<bool>,
}

/// Returns the first of the values of a text that a thread with this top does not see.
pub(crate) fn first_mismatch<'a>(
    checked: &Checked,
    points: &[SourcePoint],
    top: Option<Top>,
    globals: u128,
    values: &'a [u8],
) -> Option<Mismatch<'a>>
    requires { SaysValues values.now }
    ensures name { IfSome result (λ r. IsNameIn values.now r.place r.name.now) }
    ensures first { (text : List ℕ) (c : Configuration) (i : ℕ)
        → points.now ≡ source_points_of text checked.now
        → AreShown checked.now c i top globals
        → MatchOption result
        (SeesValues c i (values_in values.now))
        (λ r. IsFirstMismatch c i (values_in values.now) r.place r.seen) }
{
    let mut rest = values;
    let mut place: usize = 0;
    while let Some((value, more)) = value_at(rest) {
        let name = value.name;
        let seen = value_at_top(checked, points, top, globals, name);
        if !is_value(seen, value.bit) {
            return Some(Mismatch { place, name, seen });
        }
        rest = more;
        place += 1;
    }
    None
}

/// A thread's view of a variable after some steps.
#[derive(Clone, Copy)]
pub(crate) struct LastSeen {
    pub(crate) seen: Option<bool>,
    /// The last of the steps that changed it, from 1; None if no step did.
    pub(crate) changed: Option<u32>,
}

/// Returns the thread's view after step `n`; `before` is its view after the steps before that one.
pub(crate) fn last_seen_after(before: LastSeen, seen: Option<bool>, n: u32) -> LastSeen
    ensures changed { (sees : ℕ → Option Bool) (m : ℕ)
        → n ≡ m + 1
        → before.seen ≡ sees m
        → IsLastChange sees m before.changed
        → seen ≡ sees n
        → IsLastChange sees n result.changed }
    ensures seen { result.seen ≡ seen }
{
    if before.seen == seen {
        return before;
    }
    LastSeen {
        seen,
        changed: Some(n),
    }
}

/// Returns a thread's view of a variable after a history, whose attempts it makes again.
pub(crate) fn last_seen_of(
    alloc: Global,
    checked: &Checked,
    points: &[SourcePoint],
    session: &Session,
    history: &[Call],
    thread: u32,
    name: &[u8],
) -> Result<LastSeen, AllocError>
    requires code { session.now.code.tree ≡ checked.now }
    requires fits { Fits session.now.code.tree session.now.setup }
    requires playable { IsPlayable checked.now session.now.setup history.now }
    requires short { length history.now < 2 ^ 32 }
    ensures { (text : List ℕ)
        → points.now ≡ source_points_of text checked.now
        → let sees = seen_after checked.now session.now.setup history.now thread name.now in
        IfOk result (λ r.
        (r.seen ≡ sees (length history.now))
        × IsLastChange sees (length history.now) r.changed) }
{
    let mut again = Session::new(alloc, session.code(), session.setup())?;
    let mut last_seen = LastSeen {
        seen: value_seen(checked, points, &again, thread, name),
        changed: None,
    };
    for (n, call) in history.iter().enumerate() {
        // The history is legal, so an attempt is refused only for memory.
        let Ok(_made) = again.ask_as_recorded(call.thread, call.bit) else {
            return Err(AllocError);
        };
        let seen = value_seen(checked, points, &again, thread, name);
        last_seen = last_seen_after(last_seen, seen, n as u32 + 1);
    }
    Ok(last_seen)
}
