//! Pilots: runs that are made before those of a test, to know their lengths and what they access.
ghost use Rattle.std.specs.Prelude.{◌≡◌};
ghost use Rattle.bp_machine.specs.Setups.{Fits};

use crate::runs::{next_number, run_once};
use crate::tallies::is_step;
use crate::tests::is_over;
use crate::visible_steps::VisibleSteps;
use bp_flat::Code;
use bp_flat::limits::SLOTS;
use bp_machine::{Call, Session, Setup};
use std::alloc::{AllocError, Global};
use std::time::Clock;

/// The most pilots.
const PILOTS: u64 = 64;

/// The number of attempts after which no pilot begins, so that long ones do not hold up a test.
const PILOT_CALLS: u64 = 1_000_000;

/// The least length of a run that may have a focus.
pub(crate) const LONG: u64 = 100;

/// Globals before whose accesses alone a run switches.
#[derive(Clone, Copy)]
pub struct Focus {
    /// Global k has the weight 2 to the k.
    pub globals: u128,
    /// The number of visible steps of pilots that access any of them.
    pub steps: u64,
}

/// The lengths of pilots, and the focuses that runs may have.
#[derive(Drop)]
pub struct Pilots {
    /// The number of visible steps of each pilot.
    pub lengths: Vec<u64>,
    /// The sum of the lengths.
    pub steps: u64,
    /// For each global that visible steps access, the globals that as many of them or fewer access.
    /// Empty if no pilot is long.
    pub focuses: Vec<Focus>,
}

/// Returns whether a thread made all attempts that it may make.
fn is_cut_off(session: &Session) -> bool {
    let setup = session.setup();
    for thread in 0..setup.threads() {
        if session.calls_of(thread) >= setup.calls() {
            return true;
        }
    }
    false
}

/// Returns the number of visible steps, and counts them for each instruction. The attempts are made
/// again, on a session before any.
fn count_visible(
    session: &mut Session,
    visible: &VisibleSteps,
    history: &[Call],
    visits: &mut Vec<u64>,
) -> Result<u64, AllocError>
    ensures { (session.new.code ≡ session.old.code) × (session.new.setup ≡ session.old.setup) }
{
    let mut count: u64 = 0;
    for call in history {
        let number = next_number(session, call.thread);
        if is_step(call) && visible.is_visible(call.thread, number) {
            count = count.saturating_add(1);
            visit(visits, number);
        }
        if session.ask(call.thread).is_err() {
            return Err(AllocError);
        }
    }
    Ok(count)
}

/// Counts a step of the instruction of this number.
fn visit(visits: &mut Vec<u64>, number: Option<u32>) {
    let Some(number) = number else {
        return;
    };
    if let Some(count) = visits.get_mut(number as usize) {
        *count = count.saturating_add(1);
    }
}

/// Returns for each global how many steps access it.
fn accesses(alloc: Global, visible: &VisibleSteps, visits: &[u64]) -> Result<Vec<u64>, AllocError> {
    let mut counts = Vec::new(alloc);
    for slot in 0..SLOTS {
        counts.push(visible.accesses_of(visits, 1 << slot))?;
    }
    Ok(counts)
}

/// Returns the globals that steps access, but no more often than this.
fn accessed_up_to(accesses: &[u64], most: u64) -> u128 {
    let mut globals = 0;
    for (slot, count) in accesses.iter().enumerate() {
        if 0 < *count && *count <= most {
            globals |= 1 << (slot % SLOTS);
        }
    }
    globals
}

/// Returns the focuses that runs may have.
fn focuses_of(
    alloc: Global,
    visible: &VisibleSteps,
    visits: &[u64],
) -> Result<Vec<Focus>, AllocError> {
    let accesses = accesses(alloc, visible, visits)?;
    let mut focuses = Vec::new(alloc);
    for count in accesses.iter() {
        if *count > 0 {
            let globals = accessed_up_to(accesses.as_slice(), *count);
            let steps = visible.accesses_of(visits, globals);
            focuses.push(Focus { globals, steps })?;
        }
    }
    Ok(focuses)
}

impl Pilots {
    /// Returns no pilots.
    fn none(alloc: Global) -> Pilots {
        Pilots {
            lengths: Vec::new(alloc),
            steps: 0,
            focuses: Vec::new(alloc),
        }
    }

    /// Returns whether a pilot is long.
    fn has_long(&self) -> bool {
        self.lengths.iter().any(|length| *length >= LONG)
    }

    /// Makes the pilots of a test that begins with this seed: runs with the first 64 of its seeds,
    /// whose switches are spread over powers of two. Those that were cut off by the allowed
    /// attempts, or made no visible step, are not kept. After a million attempts no pilot begins,
    /// nor after the deadline.
    pub(crate) fn new<C: Clock>(
        clock: &C,
        alloc: Global,
        code: &Code,
        setup: &Setup,
        seed: u64,
        visible: &VisibleSteps,
        deadline: Option<u64>,
    ) -> Result<Pilots, AllocError>
        requires { Fits code.now.tree setup.now }
    {
        let mut session = Session::new(alloc, code, setup)?;
        let (mut history, mut reached) = (Vec::new(alloc), Vec::new(alloc));
        let mut visits = vec![in alloc; 0u64; code.len()]?;
        let (none, mut pilots) = (Pilots::none(alloc), Pilots::none(alloc));
        let mut calls: u64 = 0;
        for pilot in 0..PILOTS {
            if calls >= PILOT_CALLS || is_over(clock, deadline) {
                break;
            }
            let own = seed.wrapping_add(pilot);
            let _ = run_once(
                &mut session,
                own,
                visible,
                &none,
                &mut history,
                &mut reached,
            )?;
            calls = calls.saturating_add(history.len() as u64);
            if is_cut_off(&session) {
                continue;
            }
            session.restart(Some(own))?;
            let length = count_visible(&mut session, visible, history.as_slice(), &mut visits)?;
            if length > 0 {
                pilots.lengths.push(length)?;
                pilots.steps = pilots.steps.saturating_add(length);
            }
        }
        if pilots.has_long() {
            pilots.focuses = focuses_of(alloc, visible, visits.as_slice())?;
        }
        Ok(pilots)
    }
}
