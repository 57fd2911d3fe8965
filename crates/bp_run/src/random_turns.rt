//! A gate for tests: it mixes the turns of the workers.
use crate::gates::Gate;
use bp_machine::Reply;
use rand_core::utils::NextWord;
use rand_pcg::Lcg64Xsh32;
use std::array;
use std::sync::Wait;
use std::sync::atomic::{AtomicU64, Ordering};
use std::thread::Parker;
use std::time::{Clock, Duration};

/// The number of naps of a worker before it no longer waits for all to come, or to be drawn.
const NAPS: u32 = 10;

/// The length of each nap, unless the worker is woken, in milliseconds.
const NAP: u64 = 10;

/// The number of threads that are distinguished: as many as a run may have.
const MAX_THREADS: u32 = 64;

/// A gate at which the workers of a run start together, and then take turns in an order drawn by a
/// seed. A worker that is drawn and does not come in time is passed over. So nothing is guaranteed
/// about which runs come: they also depend on the scheduler of the operating system.
#[derive(Drop)]
pub struct RandomTurns {
    seed: u64,
    /// A bit for each thread of the run.
    all: u64,
    /// A bit for each thread that has come, or never will.
    come: AtomicU64,
    /// A bit for each thread that may be drawn.
    active: AtomicU64,
    /// A bit for each thread that was admitted, and has not come back since.
    inside: AtomicU64,
    /// A bit for each thread inside whose turn was answered.
    answered: AtomicU64,
    /// The number of turns that were answered, of threads that came back.
    turns: AtomicU64,
    /// The parkers at which threads wait.
    parkers: [Parker; MAX_THREADS as usize],
}

fn bit_of(thread: u32) -> u64 {
    1 << (thread % MAX_THREADS)
}

/// Returns a number for each turn, by the seed: the first of the PCG XSH RR 64/32 from both.
fn lot(seed: u64, turn: u64) -> u32 {
    Lcg64Xsh32::new(seed.rotate_left(32).wrapping_add(turn), 0).next_word()
}

/// Sets the bit of a thread, and returns whether it was set before.
fn set(word: &AtomicU64, thread: u32) -> bool {
    let bit = bit_of(thread);
    word.fetch_or(bit, Ordering::SeqCst) & bit != 0
}

/// Clears the bit of a thread, and returns whether it was set before.
fn clear(word: &AtomicU64, thread: u32) -> bool {
    let bit = bit_of(thread);
    word.fetch_and(!bit, Ordering::SeqCst) & bit != 0
}

fn has(word: &AtomicU64, thread: u32) -> bool {
    word.load(Ordering::SeqCst) & bit_of(thread) != 0
}

impl RandomTurns {
    /// Makes a gate that expects this number of threads.
    pub fn new(seed: u64, threads: usize) -> RandomTurns {
        let all = match threads {
            0 => 0,
            1..=64 => u64::MAX >> (64 - threads),
            _ => u64::MAX,
        };
        RandomTurns {
            seed,
            all,
            come: AtomicU64::new(0),
            active: AtomicU64::new(all),
            inside: AtomicU64::new(0),
            answered: AtomicU64::new(0),
            turns: AtomicU64::new(0),
            parkers: array::from_fn(|_| Parker::new()),
        }
    }

    /// Naps until the thread is woken, or for a moment.
    fn nap<R: Wait>(&self, rt: &R, thread: u32) {
        let parker = &self.parkers[(thread % MAX_THREADS) as usize];
        parker.park_timeout(rt, Duration::from_millis(NAP));
    }

    fn wake(&self, thread: u32) {
        self.parkers[(thread % MAX_THREADS) as usize].unpark();
    }

    fn have_all_come(&self) -> bool {
        self.come.load(Ordering::SeqCst) & self.all == self.all
    }

    /// Records that a thread has come, or never will. The last wakes those that wait for it.
    fn note_come(&self, thread: u32) {
        let was_last = !set(&self.come, thread) && self.have_all_come();
        if was_last {
            for parker in &self.parkers {
                parker.unpark();
            }
        }
    }

    /// Waits until all threads have come.
    fn meet<R: Wait>(&self, rt: &R, thread: u32) {
        self.note_come(thread);
        for _ in 0..NAPS {
            if self.have_all_come() {
                return;
            }
            self.nap(rt, thread);
        }
    }

    /// Returns the thread whose turn is next: one of those that may be drawn.
    fn drawn(&self) -> Option<u32> {
        let active = self.active.load(Ordering::SeqCst);
        let count = active.count_ones();
        if count == 0 {
            return None;
        }
        let lot = lot(self.seed, self.turns.load(Ordering::SeqCst)) % count;
        (0..MAX_THREADS)
            .filter(|thread| active & bit_of(*thread) != 0)
            .nth(lot as usize)
    }

    /// Returns whether the thread is drawn, and no other is inside.
    fn is_next(&self, thread: u32) -> bool {
        self.inside.load(Ordering::SeqCst) == 0 && self.drawn() == Some(thread)
    }

    /// Wakes the thread whose turn is next.
    fn wake_next(&self) {
        if let Some(thread) = self.drawn() {
            self.wake(thread);
        }
    }

    /// Waits until the thread is drawn. If it waits in vain, the one that was drawn last is not
    /// drawn again before it comes.
    fn wait_for_turn<R: Wait>(&self, rt: &R, thread: u32) {
        for _ in 0..NAPS {
            set(&self.active, thread);
            if self.is_next(thread) {
                return;
            }
            self.nap(rt, thread);
        }
        if let Some(missing) = self.drawn() {
            clear(&self.active, missing);
        }
    }

    /// Records that a thread is no longer inside, and wakes the next.
    fn leave(&self, thread: u32) {
        if clear(&self.answered, thread) {
            self.turns.fetch_add(1, Ordering::SeqCst);
        }
        clear(&self.inside, thread);
        self.wake_next();
    }
}

impl Gate for RandomTurns {
    fn before<R: Wait + Clock>(&self, rt: &R, thread: u32, call: u64) {
        let is_again = has(&self.inside, thread) && !has(&self.answered, thread);
        if is_again {
            // Its turn was refused, since the ring was full. It still has it.
            return;
        }
        self.leave(thread);
        if call == 0 {
            self.meet(rt, thread);
        }
        self.wait_for_turn(rt, thread);
        set(&self.inside, thread);
    }

    fn after(&self, thread: u32, _reply: Reply) {
        set(&self.answered, thread);
    }

    fn finished(&self, thread: u32) {
        clear(&self.active, thread);
        self.note_come(thread);
        self.leave(thread);
    }
}
