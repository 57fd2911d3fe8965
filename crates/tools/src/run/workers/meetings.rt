//! Workers that run at the same time: gates that wait for another thread.
use super::{Numbers, ONE, calls, comes_to, order_of};
use bp_machine::Reply;
use bp_run::Gate;
use std::alloc::Global;
use std::sync::Wait;
use std::sync::atomic::{AtomicU64, Ordering};
use std::test::Fail;
use std::thread::Threads;
use std::time::Clock;

/// The least program: each thread makes three attempts.
const SKIP: &[u8] = b"main() begin skip; end";

/// Returns the number of attempts that these threads of the least program make, with a ring of one.
/// The trace goes to the end of `trace`.
fn skips<G: Gate, R: Threads + Wait + Clock + Sync>(
    rt: &R,
    alloc: Global,
    threads: u32,
    gate: &G,
    trace: &mut Vec<u8>,
) -> Option<u64> {
    let numbers = Numbers {
        threads,
        ring: 1,
        ..ONE
    };
    calls(rt, alloc, SKIP, numbers, gate, trace)
}

/// A gate at which each thread waits, ahead of its first turn, for all: each has a bit.
#[derive(Drop)]
struct Meeting {
    wanted: u64,
    arrived: AtomicU64,
    missed: AtomicU64,
}

impl Gate for Meeting {
    fn before<R: Wait + Clock>(&self, _rt: &R, thread: u32, call: u64) {
        if call == 0 {
            self.arrived.fetch_or(1 << (thread % 64), Ordering::SeqCst);
            if !comes_to(&self.arrived, self.wanted) {
                self.missed.store(1, Ordering::SeqCst);
            }
        }
    }

    fn after(&self, _thread: u32, _reply: Reply) {}
}

/// Returns whether these threads, with these bits, meet ahead of their first turns.
fn meet<R: Threads + Wait + Clock + Sync>(rt: &R, alloc: Global, threads: u32, all: u64) -> bool {
    let gate = Meeting {
        wanted: all,
        arrived: AtomicU64::new(0),
        missed: AtomicU64::new(0),
    };
    let calls = skips(rt, alloc, threads, &gate, &mut Vec::new(alloc));
    calls == Some(3 * u64::from(threads)) && gate.missed.load(Ordering::SeqCst) == 0
}

#[test]
fn workers_meet(rt: HostRuntime) {
    for (threads, all) in [(2, 3), (16, 65_535), (64, u64::MAX)] {
        assert!(&rt; meet(&rt, rt.alloc(), threads, all));
    }
}

/// A gate that holds a thread, ahead of its first turn, until the other has ended. No turn of it is
/// made before.
#[derive(Drop)]
struct Behind {
    held: u32,
    ended: AtomicU64,
    missed: AtomicU64,
}

impl Gate for Behind {
    fn before<R: Wait + Clock>(&self, _rt: &R, thread: u32, call: u64) {
        if thread == self.held && call == 0 && !comes_to(&self.ended, 1) {
            self.missed.store(1, Ordering::SeqCst);
        }
    }

    fn after(&self, thread: u32, reply: Reply) {
        if thread != self.held && reply == Reply::Ended {
            self.ended.store(1, Ordering::SeqCst);
        }
        if thread == self.held && self.ended.load(Ordering::SeqCst) == 0 {
            self.missed.store(1, Ordering::SeqCst);
        }
    }
}

/// Returns whether this one of two threads waits at its gate while the other makes all its
/// attempts. The trace goes to the end of `trace`.
fn is_behind<R: Threads + Wait + Clock + Sync>(
    rt: &R,
    alloc: Global,
    held: u32,
    trace: &mut Vec<u8>,
) -> bool {
    let gate = Behind {
        held,
        ended: AtomicU64::new(0),
        missed: AtomicU64::new(0),
    };
    skips(rt, alloc, 2, &gate, trace) == Some(6) && gate.missed.load(Ordering::SeqCst) == 0
}

#[test]
fn a_worker_waits_for_another(rt: HostRuntime) -> Result<(), Fail> {
    let orders: [(u32, &[u8]); 2] = [(0, b"111000"), (1, b"000111")];
    for (held, order) in orders {
        let mut trace = Vec::new(rt.alloc());
        assert!(rt; is_behind(&rt, rt.alloc(), held, &mut trace));
        assert!(rt; order_of(rt.alloc(), &trace)?.as_slice() == order);
    }
    Ok(())
}
