//! Schedules that are drawn.
ghost use Rattle.std.specs.Prelude.{◌≡◌, ◌<◌, ◌≤◌, ℕ, true, IfSome, MatchOption};
ghost use Rattle.bp_machine.specs.Setups.{threads};
ghost use Rattle.bp_test.specs.Tests.{RestsIn};
ghost use Rattle.bp_test.specs.Reach.{IsNextOf};

use crate::pilots::{Focus, LONG, Pilots};
use crate::runs::next_number;
use crate::visible_steps::{VisibleSteps, bit};
use crate::waits::{may_step, may_step_at};
use bp_machine::Session;
use rand_core::utils::NextWord;
use rand_pcg::Lcg64Xsh32;

/// The stream of a schedule, which is the one after those of the choice bits.
const STREAM: u64 = 118;

/// The most lengths among which one is drawn.
const MAX_LENGTHS: usize = 64;

/// The number of powers of two, from 8, among which a number of places is drawn if no length is
/// known.
const POWERS: u32 = 14;

/// The longest length that counts.
const LONGEST: u64 = 1 << 32;

/// The denominator of the next shares of schedules.
const LOTS: u32 = 20;

/// The share of schedules with one switch.
const WITH_ONE: u32 = 4;

/// The share of schedules with one switch or two.
const WITH_FEW: u32 = 5;

/// The share of schedules that return to a thread that had to wait as soon as it may step.
const RESUMING: u32 = 14;

/// The share of schedules with a focus, of long runs.
const FOCUSED: u32 = 7;

/// The most focuses among which one is drawn.
const MAX_FOCUSES: usize = 128;

/// The weight of a thread that has not made an attempt, against one that has.
const UNMOVED: u32 = 3;

/// Threads to which a schedule may switch, as masks.
#[derive(Clone, Copy)]
struct Others {
    all: u64,
    /// Those that have not made an attempt.
    unmoved: u64,
    /// The sum of their weights.
    sum: u32,
}

/// A schedule that is drawn while it is followed: it has a number of switches, and places among
/// which they are spread. A place is before a visible step of the current thread, except the first
/// since the last switch: a switch there would have been better made at once. The thread to which
/// it switches is drawn among those that may step. Some schedules return to a thread that had to
/// wait as soon as it may step. Some of long runs have a focus.
#[derive(Drop)]
pub(crate) struct Scheduler<'a> {
    generator: Lcg64Xsh32,
    visible: &'a VisibleSteps,
    /// The globals before whose accesses alone it switches, if it has a focus.
    focus: Option<u128>,
    /// The thread of the last attempt, or of the first one.
    current: u32,
    /// Its next instruction, if there is one.
    pub(crate) number: Option<u32>,
    /// Whether it has made a visible step since the last switch.
    has_stepped: bool,
    /// The number of switches left.
    switches: u32,
    /// Candidate switch points; 0 if no switch is left.
    places: u64,
    /// Whether a thread that had to wait continues as soon as it may step.
    is_resuming: bool,
    /// The threads that the schedule left since they had to wait, as a mask.
    waiting: u64,
}

/// Draws a number below the count, if the count is not 0.
fn below(generator: &mut Lcg64Xsh32, count: u32) -> u32
    ensures below { 0 < count → result < count }
    ensures most { result ≤ count }
{
    let word = generator.next_word();
    if count == 0 { 0 } else { word % count }
}

/// Draws a length: one of these, or a power of two if there are none.
fn draw_length(generator: &mut Lcg64Xsh32, lengths: &[u64]) -> u64 {
    let count = lengths.len().min(MAX_LENGTHS) as u32;
    let n = below(generator, count);
    match lengths.get(n as usize) {
        Some(length) => (*length).min(LONGEST),
        None => 8 << below(generator, POWERS),
    }
}

/// Draws the focus of a run of this length, if it has one.
fn draw_focus(generator: &mut Lcg64Xsh32, length: u64, pilots: &Pilots) -> Option<Focus> {
    let count = pilots.focuses.len().min(MAX_FOCUSES) as u32;
    if length < LONG || count == 0 || below(generator, LOTS) >= FOCUSED {
        return None;
    }
    let n = below(generator, count);
    pilots.focuses.get(n as usize).copied()
}

/// Returns the number of steps that access globals of the focus, of a run of this length.
fn length_within(focus: Option<Focus>, length: u64, pilots: &Pilots) -> u64 {
    let Some(focus) = focus else {
        return length;
    };
    (length.saturating_mul(focus.steps) / pilots.steps.max(1)).max(1)
}

/// Draws the number of switches of a run of this length: at most `contexts - 1`, and at most
/// `length - length / 8 - 1`. One schedule of five has one switch, one of twenty has two, and the
/// others more than half of the most.
fn draw_switches(generator: &mut Lcg64Xsh32, contexts: u32, length: u64) -> u32 {
    if contexts < 2 {
        return 0;
    }
    let room = (length - length / 8).saturating_sub(1).max(1);
    let most = u64::from(contexts - 1).min(room) as u32;
    let lot = below(generator, LOTS);
    if lot < WITH_ONE {
        1
    } else if lot < WITH_FEW {
        most.min(2)
    } else {
        most - below(generator, (most / 2).max(1))
    }
}

/// Draws the number of places for this number of switches, from `steps / 2` to `steps`. In one
/// schedule of two `steps` is the length of the run, and in the other it is
/// `length * min(switches, threads) / threads`, because before the last switch no more than
/// `switches` threads make steps.
fn draw_places(generator: &mut Lcg64Xsh32, length: u64, switches: u32, threads: u32) -> u64 {
    let is_whole = below(generator, 2) == 0;
    let steps = if is_whole {
        length.min(LONGEST)
    } else {
        let left = length.saturating_mul(u64::from(switches.min(threads)));
        (left / u64::from(threads.max(1))).max(1).min(LONGEST)
    };
    let half = steps / 2;
    steps - half + u64::from(below(generator, half as u32 + 1))
}

/// Returns the threads other than this one that may step.
fn others_of(session: &Session, current: u32) -> Others {
    let mut others = Others {
        all: 0,
        unmoved: 0,
        sum: 0,
    };
    for thread in 0..session.setup().threads() {
        if thread != current && may_step(session, thread) {
            others.add(thread, session.calls_of(thread) == 0);
        }
    }
    others
}

impl Others {
    /// Returns the weight of a thread for a switch.
    fn weight(&self, thread: u32) -> u32 {
        let bit = bit(thread as usize);
        if self.all & bit == 0 {
            0
        } else if self.unmoved & bit == 0 {
            1
        } else {
            UNMOVED
        }
    }

    /// Adds a thread.
    fn add(&mut self, thread: u32, is_unmoved: bool) {
        let bit = bit(thread as usize);
        self.all |= bit;
        if is_unmoved {
            self.unmoved |= bit;
        }
        self.sum = self
            .sum
            .saturating_add(if is_unmoved { UNMOVED } else { 1 });
    }

    /// Returns the thread at a place, from 0: each has as many places as its weight.
    fn thread_at(&self, threads: u32, place: u32) -> Option<u32>
        ensures { IfSome result (λ i. i < threads) }
    {
        let mut left = place;
        for thread in 0..threads {
            let weight = self.weight(thread);
            if left < weight {
                return Some(thread);
            }
            left -= weight;
        }
        None
    }
}

/// Returns the first thread that may step.
fn first(session: &Session) -> Option<u32>
    ensures { let count = threads session.now.setup in
        MatchOption result
        ((i : ℕ) → i < count → RestsIn session.now i)
        (λ i. i < count) }
{
    for thread in 0..session.setup().threads() {
        if may_step(session, thread) {
            return Some(thread);
        }
    }
    None
}

impl<'a> Scheduler<'a> {
    /// Draws the schedule of a seed for a session before any attempt. It switches before visible
    /// steps, whose number is estimated from pilots.
    pub(crate) fn new(
        seed: u64,
        session: &Session,
        visible: &'a VisibleSteps,
        pilots: &Pilots,
    ) -> Scheduler<'a>
        ensures within { result.current < threads session.now.setup }
        ensures here { IsNextOf session.now result.current result.number }
    {
        let setup = session.setup();
        setup.is_in_range();
        let mut generator = Lcg64Xsh32::new(seed, STREAM);
        let threads = setup.threads();
        let current = below(&mut generator, threads);
        let length = draw_length(&mut generator, pilots.lengths.as_slice());
        let focus = draw_focus(&mut generator, length, pilots);
        let length = length_within(focus, length, pilots);
        let switches = draw_switches(&mut generator, setup.contexts(), length);
        let places = draw_places(&mut generator, length, switches, threads);
        let is_resuming = below(&mut generator, LOTS) < RESUMING;
        Scheduler {
            generator,
            visible,
            focus: focus.map(|focus| focus.globals),
            current,
            number: next_number(session, current),
            has_stepped: false,
            switches,
            places: if switches == 0 { 0 } else { places },
            is_resuming,
            waiting: 0,
        }
    }

    /// Returns whether a switch before the step of a thread at this instruction may matter.
    #[inline(always)]
    fn matters(&self, thread: u32, number: Option<u32>) -> bool {
        if !self.visible.is_visible(thread, number) {
            return false;
        }
        match self.focus {
            Some(globals) => self.visible.accesses(number, globals),
            None => true,
        }
    }

    /// Draws whether the schedule switches before the next attempt, which the current thread may
    /// make. Each choice of the places that are left is as likely.
    fn switches_now(&mut self) -> bool
        ensures { (self.new.current ≡ self.old.current) × (self.new.number ≡ self.old.number) }
    {
        if self.places == 0 {
            return false;
        }
        if !self.matters(self.current, self.number) {
            return false;
        }
        if !self.has_stepped {
            self.has_stepped = true;
            return false;
        }
        let place = u64::from(self.generator.next_word()) % self.places;
        self.places -= 1;
        if place >= u64::from(self.switches) {
            return false;
        }
        self.switches -= 1;
        if self.switches == 0 {
            self.places = 0;
        }
        true
    }

    /// Draws a thread that may step, other than the current one. One that has not made an attempt
    /// is three times as likely as another.
    fn drawn(&mut self, session: &Session) -> Option<u32>
        ensures { IfSome result (λ i. i < threads session.now.setup) }
    {
        let threads = session.setup().threads();
        let others = others_of(session, self.current);
        if others.all == 0 {
            return None;
        }
        let place = below(&mut self.generator, others.sum);
        others.thread_at(threads, place)
    }

    /// Returns the first thread that was left since it had to wait, and may step now.
    #[inline(never)]
    fn resumed(&self, session: &Session) -> Option<u32>
        ensures { IfSome result (λ i. i < threads session.now.setup) }
    {
        for thread in 0..session.setup().threads() {
            if self.waiting & bit(thread as usize) != 0 && may_step(session, thread) {
                return Some(thread);
            }
        }
        None
    }

    /// Continues with this thread.
    fn go_to(&mut self, session: &Session, thread: u32)
        ensures current { self.new.current ≡ thread }
        ensures here { IsNextOf session.now thread self.new.number }
    {
        self.current = thread;
        self.number = next_number(session, thread);
        self.has_stepped = self.matters(thread, self.number);
        self.waiting &= !bit(thread as usize);
    }

    /// Continues with another thread that may step, or with the current one if none does and it may
    /// go on. Else it has to wait, unless it has terminated.
    #[inline(always)]
    fn leave(&mut self, session: &Session, may_go_on: bool) -> Option<u32>
        requires { self.old.current < threads session.now.setup }
        ensures next { let count = threads session.now.setup in
            MatchOption result
            ((i : ℕ) → i < count → RestsIn session.now i)
            (λ i. i < count) }
        ensures current { IfSome result (λ i. self.new.current ≡ i) }
        ensures here { IfSome result (λ i. IsNextOf session.now i self.new.number) }
    {
        let current = self.current;
        if !may_go_on && self.is_resuming && !session.is_terminated(current) {
            self.waiting |= bit(current as usize);
        }
        let next = match self.drawn(session) {
            Some(thread) => thread,
            None if may_go_on => current,
            None => first(session)?,
        };
        self.go_to(session, next);
        Some(next)
    }

    /// Returns the thread that makes the next attempt: one that may step, if there is one.
    #[inline(always)]
    pub(crate) fn next(&mut self, session: &Session) -> Option<u32>
        requires within { self.old.current < threads session.now.setup }
        requires here { IsNextOf session.now self.old.current self.old.number }
        ensures next { let count = threads session.now.setup in
            MatchOption result
            ((i : ℕ) → i < count → RestsIn session.now i)
            (λ i. i < count) }
        ensures current { IfSome result (λ i. self.new.current ≡ i) }
        ensures here { IfSome result (λ i. IsNextOf session.now i self.new.number) }
    {
        if self.waiting != 0 {
            if let Some(thread) = self.resumed(session) {
                self.go_to(session, thread);
                return Some(thread);
            }
        }
        let may_go_on = may_step_at(session, self.current, self.number);
        if may_go_on && !self.switches_now() {
            return Some(self.current);
        }
        self.leave(session, may_go_on)
    }
}
