//! Signals between the workers and the writer thread of a run outside the board. `Notify`: a thread
//! that has nothing to do sleeps at one, until another thread rings it.
use std::hint;
use std::sync::Wait;
use std::sync::atomic::{AtomicBool, AtomicU64, Ordering};
use std::time::Duration;

/// The number of looks for something to do before a thread sleeps. Each time it pauses twice as
/// long, for some microseconds in all: most waits for a thread on another core are shorter.
const LOOKS_AWAKE: u32 = 7;

/// The length of a doze, in microseconds.
const DOZE: u64 = 50;

/// The longest sleep of a thread before it looks again by itself, in milliseconds.
const NAP: u64 = 100;

/// A `Notify` at which threads sleep until they are woken. A thread that rings it makes its change
/// before, so that each thread that sleeps either sees the change or is woken. One that dozes looks
/// again soon by itself, so it is woken only if others wait for it.
#[derive(Drop)]
pub(crate) struct Notify {
    /// The number of times that a sleeper was woken.
    rings: AtomicU64,
    /// The number of threads that sleep, or are about to.
    sleepers: AtomicU64,
    /// The number of threads that doze.
    dozers: AtomicU64,
}

impl Notify {
    pub fn new() -> Notify {
        Notify {
            rings: AtomicU64::new(0),
            sleepers: AtomicU64::new(0),
            dozers: AtomicU64::new(0),
        }
    }

    fn wake(&self, count: u64) {
        for _ in 0..count {
            self.rings.fetch_add(1, Ordering::SeqCst);
            self.rings.wake_one();
        }
    }

    /// Wakes at most `most` of the threads that sleep.
    pub fn ring(&self, most: u64) {
        self.wake(self.sleepers.load(Ordering::SeqCst).min(most));
    }

    /// Wakes a thread that sleeps or dozes.
    pub fn ring_loudly(&self) {
        let sleepers = self.sleepers.load(Ordering::SeqCst);
        let dozers = self.dozers.load(Ordering::SeqCst);
        if sleepers != 0 || dozers != 0 {
            self.wake(1);
        }
    }

    /// Registers a thread that is about to sleep, and returns the number of rings so far.
    fn enter(&self) -> u64 {
        self.sleepers.fetch_add(1, Ordering::SeqCst);
        self.rings.load(Ordering::SeqCst)
    }

    fn leave(&self) {
        self.sleepers.fetch_sub(1, Ordering::SeqCst);
    }

    /// Sleeps for `most` at most, unless the `Notify` has rung since it had rung `rings` times.
    fn sleep<R: Wait>(&self, rt: &R, rings: u64, most: Duration) {
        let seen = (rings & 0xffff_ffff) as u32;
        self.rings.park_timeout(rt, seen, most);
    }

    fn doze<R: Wait>(&self, rt: &R) {
        let rings = self.rings.load(Ordering::SeqCst);
        self.dozers.fetch_add(1, Ordering::SeqCst);
        self.sleep(rt, rings, Duration::from_micros(DOZE));
        self.dozers.fetch_sub(1, Ordering::SeqCst);
    }
}

/// The time for which a thread has found nothing to do.
pub(crate) struct Idle<'a> {
    notify: &'a Notify,
    /// The number of times that it has looked again.
    looks: u32,
    /// The number of times that it dozes before it sleeps.
    dozes: u32,
    /// The number of rings when the thread registered as about to sleep.
    heard: Option<u64>,
}

impl<'a> Idle<'a> {
    /// Makes the state of a thread that was just busy, and dozes `dozes` times before it sleeps.
    pub fn new(notify: &'a Notify, dozes: u32) -> Idle<'a> {
        Idle {
            notify,
            looks: 0,
            dozes,
            heard: None,
        }
    }

    /// Pauses, each time for longer, then dozes, and then sleeps until the `Notify` rings. The
    /// thread has to look for something to do after each rest, even once it has registered as about
    /// to sleep.
    pub fn rest<R: Wait>(&mut self, rt: &R) {
        if self.looks < LOOKS_AWAKE {
            for _ in 0..1u32 << self.looks {
                hint::spin_loop();
            }
            self.looks += 1;
            return;
        }
        if self.dozes > 0 {
            self.dozes -= 1;
            self.notify.doze(rt);
            return;
        }
        match self.heard.take() {
            None => self.heard = Some(self.notify.enter()),
            Some(rings) => {
                self.notify.sleep(rt, rings, Duration::from_millis(NAP));
                self.notify.leave();
            }
        }
    }
}

impl Drop for Idle<'_> {
    fn drop(self) {
        let Self {
            notify,
            looks: _,
            dozes: _,
            heard,
        } = self;
        if heard.is_some() {
            notify.leave();
        }
    }
}

/// The state that the threads of a run share outside the board: the number of workers that have
/// ended, whether they must stop, and the `Notify`s at which they wait for each other.
#[derive(Drop)]
pub struct Signals {
    ended: AtomicU64,
    is_halted: AtomicBool,
    /// The `Notify` at which workers wait for room in the ring.
    pub(crate) room: Notify,
    /// The `Notify` at which the writer thread waits for attempts in the ring, and for the end of
    /// the workers.
    pub(crate) calls: Notify,
}

impl Signals {
    /// Makes signals: no worker has ended, and none must stop.
    pub fn new() -> Signals {
        Signals {
            ended: AtomicU64::new(0),
            is_halted: AtomicBool::new(false),
            room: Notify::new(),
            calls: Notify::new(),
        }
    }

    /// Tells all workers to stop before their next turn.
    pub fn halt(&self) {
        self.is_halted.store(true, Ordering::SeqCst);
        self.room.ring(u64::MAX);
    }

    /// Returns whether the workers must stop.
    pub(crate) fn is_halted(&self) -> bool {
        self.is_halted.load(Ordering::SeqCst)
    }

    /// Counts one more worker that has ended. If it was woken for room that it did not take,
    /// another may take it.
    pub(crate) fn note_end(&self) {
        self.ended.fetch_add(1, Ordering::SeqCst);
        self.calls.ring_loudly();
        self.room.ring(1);
    }

    /// Returns whether at least `started` workers have ended.
    pub(crate) fn have_ended(&self, started: u32) -> bool {
        self.ended.load(Ordering::SeqCst) >= u64::from(started)
    }
}
