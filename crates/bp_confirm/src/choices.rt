//! The choice bits that reported steps leave out, and those that threads take if their last step is
//! at a `?` and no later step shows which way it went.
ghost use Rattle.std.specs.Prelude.{◌≡◌, ℕ, option_map, if◌then◌else◌, ◌++◌, ◌∷◌, [], false, not, get_or, IfOk, OnOk};
ghost use Rattle.bp_machine.specs.Sessions.{AfterEach};
ghost use Rattle.bp_confirm.specs.FollowedSteps.{inferred_bit, inferred_way, is_fork, is_there, last_bits};
ghost use Rattle.bp_confirm.specs.InferredBits.{deciding, differ, waits_after};
ghost use Rattle.bp_confirm.specs.Steps.{location_in};

use crate::kept_lines::StepLines;
use crate::source_points::{SourcePoint, is_there};
use crate::step_lines::{Location, location_in};
use bp_flat::Instr;
use bp_flat::actions::Action;
use bp_flat::exprs::Test;
use bp_machine::Session;
use std::alloc::{AllocError, Global};

/// The choice bit of a step, as later steps tell it.
#[derive(Clone, Copy)]
pub(crate) struct Inferred {
    pub(crate) bit: bool,
    /// Whether they tell which way a `?` went.
    pub(crate) is_clear: bool,
}

/// The information of the later steps on a step: the number of its thread's next step, and whether
/// any step follows.
#[derive(Clone, Copy)]
pub(crate) struct Next {
    /// From 0; a number of no step if the thread takes none.
    pub(crate) number: u32,
    pub(crate) follows: bool,
    /// The bit that the thread takes at a `?` of its last step.
    pub(crate) last: bool,
}

/// Returns whether a `?` decides the successor of an instruction.
pub(crate) fn is_fork(instr: &Instr) -> bool
    ensures { result ≡ is_fork instr.now }
{
    match instr.action() {
        Action::If(branch) | Action::While(branch) => matches!(branch.test, Test::Choice),
        _ => false,
    }
}

/// Returns the bit of a `?`: 1 if its thread went the first of two ways, as the location of the
/// thread's next step tells. Without such a step it is the last bit.
fn inferred_way(
    points: &[SourcePoint],
    next: Option<Location>,
    last: bool,
    taken: u32,
    other: u32,
) -> Inferred
    ensures { result ≡ inferred_way (option_map (is_there points.now) next) last taken other }
{
    let Some(place) = next else {
        return Inferred {
            bit: last,
            is_clear: true,
        };
    };
    let at_taken = is_there(points, place, taken);
    let at_other = is_there(points, place, other);
    Inferred {
        bit: at_taken && !at_other,
        is_clear: taken == other || !(at_taken && at_other),
    }
}

/// Returns the inferred bit of an instruction, by what is told of the later ones of these lines.
#[inline(always)]
pub(crate) fn inferred_bit(
    instr: &Instr,
    points: &[SourcePoint],
    lines: &StepLines,
    next: Next,
) -> Inferred
    ensures { let numbers = option_map (is_there points.now) (location_in lines.now next.number) in
        result ≡ inferred_bit numbers next.last next.follows instr.now }
{
    let bit = match instr.action() {
        Action::If(branch) | Action::While(branch) => match branch.test {
            Test::Choice => {
                let place = location_in(lines, next.number);
                return inferred_way(points, place, next.last, branch.next, branch.other);
            }
            Test::Value(_) => false,
        },
        Action::Assert { test, .. } => matches!(test, Test::Choice) && next.follows,
        Action::Assume { test, .. } => matches!(test, Test::Choice),
        _ => false,
    };
    Inferred {
        bit,
        is_clear: true,
    }
}

/// The choice bit of a thread at a `?` of its last step.
#[derive(Clone, Copy)]
pub struct LastChoice {
    /// The thread, from 0.
    pub thread: u32,
    pub bit: bool,
}

/// The bit that each thread takes at a `?` of its last step.
#[derive(Clone, Copy)]
pub(crate) enum LastBits<'a> {
    /// This one.
    Each(bool),
    /// 0 if it is among the threads that wait, by this table, and 1 otherwise.
    Waiting(&'a [bool]),
}

/// Returns whether a thread waits, by a table of the threads.
fn is_in(waits: &[bool], thread: u32) -> bool
    ensures { result ≡ get_or waits.now thread false }
{
    match waits.get(thread as usize) {
        None => false,
        Some(waits) => *waits,
    }
}

/// Returns the last bit of a thread.
pub(crate) fn last_bit_of(last: LastBits<'_>, thread: u32) -> bool
    ensures { result ≡ last_bits last.entry thread }
{
    match last {
        LastBits::Each(bit) => bit,
        LastBits::Waiting(waits) => !is_in(waits, thread),
    }
}

/// Returns for each thread whether it waits.
pub(crate) fn waits_of(alloc: Global, session: &Session) -> Result<Vec<bool>, AllocError>
    ensures { AfterEach session.now (λ t h. IfOk result (λ v. (i : ℕ)
        → get_or v.items i false ≡ waits_after t session.now.setup h i)) }
{
    let mut waits = Vec::new(alloc);
    for thread in 0..session.setup().threads() {
        waits.push(session.waits(thread))?;
    }
    Ok(waits)
}

/// Returns whether exactly one of the two is true.
fn differ(one: bool, other: bool) -> bool
    ensures { result ≡ differ one other }
{
    one != other
}

/// Adds the bit by which a thread waits, if it waits after only one of its bits.
fn add_deciding(
    choices: &mut Vec<LastChoice>,
    thread: u32,
    after_0: bool,
    after_1: bool,
) -> Result<(), AllocError>
    ensures { let before = choices.old.items in
        let choice : LastChoice = record { thread = thread; bit = not after_0 } in
        OnOk result (choices.new.items
        ≡ (if differ after_0 after_1 then before ++ choice ∷ [] else before)) }
{
    if differ(after_0, after_1) {
        let bit = !after_0;
        choices.push(LastChoice { thread, bit })?;
    }
    Ok(())
}

/// Returns the bits of the first threads on which a deadlock depends, if these tables tell for each
/// thread whether it waits after its bit is 0, and after it is 1.
pub(crate) fn deciding(
    alloc: Global,
    count: u32,
    after_0: &[bool],
    after_1: &[bool],
) -> Result<Vec<LastChoice>, AllocError>
    ensures { IfOk result (λ v.
        v.items
        ≡ deciding (λ i. get_or after_0.now i false) (λ i. get_or after_1.now i false) count) }
{
    let mut choices = Vec::new(alloc);
    for thread in 0..count {
        let (after_0, after_1) = (is_in(after_0, thread), is_in(after_1, thread));
        add_deciding(&mut choices, thread, after_0, after_1)?;
    }
    Ok(choices)
}
