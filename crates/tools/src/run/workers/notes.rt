//! The messages of a worker to its gate.
use super::{ENDLESS, Numbers, ONE, calls};
use bp_machine::Reply;
use bp_run::Gate;
use std::alloc::Global;
use std::sync::Wait;
use std::sync::atomic::{AtomicU64, Ordering};
use std::thread::Threads;
use std::time::Clock;

/// A loop with a choice: by the seed it makes eight steps and ends.
const LOOP: &[u8] = b"main() begin while (?) do skip; od end";

/// A gate that records a digit each time: ahead of a turn the number of attempts, and after it 1
/// for Stepped, 2 for Ended, 3 for Blocked and 5 for another reply. Once the thread takes no more
/// turns it records a 4.
#[derive(Drop)]
struct Notes {
    digits: AtomicU64,
}

impl Notes {
    fn note(&self, digit: u64) {
        let more = self
            .digits
            .load(Ordering::SeqCst)
            .wrapping_mul(10)
            .wrapping_add(digit);
        self.digits.store(more, Ordering::SeqCst);
    }
}

impl Gate for Notes {
    fn before<R: Wait + Clock>(&self, _rt: &R, _thread: u32, call: u64) {
        self.note(call);
    }

    fn after(&self, _thread: u32, reply: Reply) {
        self.note(match reply {
            Reply::Stepped => 1,
            Reply::Ended => 2,
            Reply::Blocked => 3,
            _ => 5,
        });
    }

    fn finished(&self, _thread: u32) {
        self.note(4);
    }
}

/// Returns the digits that are recorded for a run of one thread.
fn digits<R: Threads + Wait + Clock + Sync>(
    rt: &R,
    alloc: Global,
    text: &[u8],
    numbers: Numbers,
) -> u64 {
    let gate = Notes {
        digits: AtomicU64::new(0),
    };
    calls(rt, alloc, text, numbers, &gate, &mut Vec::new(alloc));
    gate.digits.load(Ordering::SeqCst)
}

/// A program, the allowed number of attempts of its thread and of each turn, and the digits.
type Row = (&'static [u8], u32, u32, u64);

/// The loop by three kinds of turns; turns that are cut when no attempt is left; waits.
const ROWS: [Row; 5] = [
    (LOOP, 10, 1, 111_213_141_516_171_824),
    (LOOP, 10, 3, 131_624),
    (LOOP, 10, 64, 24),
    (ENDLESS, 6, 3, 1_314),
    (b"main() begin assume (0); end", 3, 64, 313_234),
];

#[test]
fn gates_are_told_of_each_turn(rt: HostRuntime) {
    for (text, calls, turn, noted) in ROWS {
        let numbers = Numbers { calls, turn, ..ONE };
        assert_eq!(&rt; digits(&rt, rt.alloc(), text, numbers), noted);
    }
}
