//! The trace written while workers run: a gate or a writer waits for a word of the other one.
use super::{ENDLESS, Numbers, ONE, calls, comes_to};
use bp_machine::Reply;
use bp_run::Gate;
use std::alloc::Global;
use std::io;
use std::io::Write;
use std::sync::Wait;
use std::sync::atomic::{AtomicU64, Ordering};
use std::thread::Threads;
use std::time::Clock;

/// A writer that sets the word to the number of its bytes once it is flushed.
#[derive(Drop)]
struct Flagged<'a> {
    taken: Vec<u8>,
    word: &'a AtomicU64,
}

impl<'a> Write for Flagged<'a> {
    ghost use Rattle.std.specs.Prelude.{Some};

    ghost contents = { λ w. Some w.taken.items };

    fn write(&mut self, buf: &[u8]) -> io::Result<usize> {
        self.taken.write(buf)
    }

    fn flush(&mut self) -> io::Result<()> {
        self.word.store(self.taken.len() as u64, Ordering::SeqCst);
        Ok(())
    }
}

/// A gate that waits, ahead of the attempt of this number, for the word to have this value.
#[derive(Drop)]
struct Reader<'a> {
    call: u64,
    word: &'a AtomicU64,
    wanted: u64,
    missed: AtomicU64,
}

impl<'a> Gate for Reader<'a> {
    fn before<R: Wait + Clock>(&self, _rt: &R, _thread: u32, call: u64) {
        if call == self.call && !comes_to(self.word, self.wanted) {
            self.missed.store(1, Ordering::SeqCst);
        }
    }

    fn after(&self, _thread: u32, _reply: Reply) {}
}

/// Returns whether, with this ring, `wanted` bytes are written and handed on before this attempt is
/// made.
fn is_written<R: Threads + Wait + Clock + Sync>(
    rt: &R,
    alloc: Global,
    ring: u32,
    wanted: u64,
    call: u64,
) -> bool {
    let word = AtomicU64::new(0);
    let gate = Reader {
        call,
        word: &word,
        wanted,
        missed: AtomicU64::new(0),
    };
    let taken = Vec::new(alloc);
    let mut out = Flagged { taken, word: &word };
    let numbers = Numbers { ring, ..ONE };
    let calls = calls(rt, alloc, ENDLESS, numbers, &gate, &mut out);
    calls == Some(10) && gate.missed.load(Ordering::SeqCst) == 0
}

/// The number of bytes of the head of the trace.
const HEAD: u64 = 58;

#[test]
fn calls_are_written_while_workers_run(rt: HostRuntime) {
    for ring in [1, 1024] {
        for (wanted, call) in [(HEAD, 0), (HEAD + 6, 1), (HEAD + 12, 2)] {
            assert!(&rt; is_written(&rt, rt.alloc(), ring, wanted, call));
        }
    }
}

/// A writer that holds its first write until the word has this value.
#[derive(Drop)]
struct Held<'a> {
    taken: Vec<u8>,
    word: &'a AtomicU64,
    wanted: u64,
    has_missed: bool,
}

impl<'a> Write for Held<'a> {
    ghost use Rattle.std.specs.Prelude.{Some};

    ghost contents = { λ w. Some w.taken.items };

    fn write(&mut self, buf: &[u8]) -> io::Result<usize> {
        if self.taken.is_empty() {
            self.has_missed = !comes_to(self.word, self.wanted);
        }
        self.taken.write(buf)
    }

    fn flush(&mut self) -> io::Result<()> {
        Ok(())
    }
}

/// A gate for one worker. The first number of attempts that it is told twice goes to the word: the
/// ring has no room for one more.
#[derive(Drop)]
struct Full<'a> {
    told: AtomicU64,
    word: &'a AtomicU64,
}

impl<'a> Gate for Full<'a> {
    fn before<R: Wait + Clock>(&self, _rt: &R, _thread: u32, call: u64) {
        let is_told_twice = self.told.swap(call, Ordering::SeqCst) == call;
        if is_told_twice && self.word.load(Ordering::SeqCst) == 0 {
            self.word.store(call, Ordering::SeqCst);
        }
    }

    fn after(&self, _thread: u32, _reply: Reply) {}
}

/// Returns whether a worker makes as many attempts as its ring holds while nobody takes them, and
/// makes the others later.
fn fills_its_ring<R: Threads + Wait + Clock + Sync>(rt: &R, alloc: Global, ring: u32) -> bool {
    let word = AtomicU64::new(0);
    let told = AtomicU64::new(u64::MAX);
    let gate = Full { told, word: &word };
    let mut out = Held {
        taken: Vec::new(alloc),
        word: &word,
        wanted: u64::from(ring),
        has_missed: false,
    };
    let numbers = Numbers {
        calls: 20,
        ring,
        ..ONE
    };
    calls(rt, alloc, ENDLESS, numbers, &gate, &mut out) == Some(20) && !out.has_missed
}

#[test]
fn rings_hold_their_calls(rt: HostRuntime) {
    for ring in [1, 4, 16] {
        assert!(&rt; fills_its_ring(&rt, rt.alloc(), ring));
    }
}
