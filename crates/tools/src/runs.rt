//! A run by real threads, with a gate of its own.

use crate::starts::start_of;
use bp_machine::Reply;
use bp_run::{Gate, RunOptions, run};
use std::alloc::Global;
use std::sync::Wait;
use std::sync::atomic::{AtomicU64, Ordering};
use std::thread::Threads;
use std::time::Clock;

/// A gate that counts the turns that ended without a step.
#[derive(Drop)]
struct Count {
    others: AtomicU64,
}

impl Gate for Count {
    fn before<R: Wait + Clock>(&self, _rt: &R, _thread: u32, _call: u64) {}

    fn after(&self, _thread: u32, reply: Reply) {
        if reply != Reply::Stepped {
            self.others.fetch_add(1, Ordering::SeqCst);
        }
    }
}

/// Runs a program by real threads, writes the trace, and returns the number of turns counted.
pub fn turns_of<R: Threads + Wait + Clock + Sync>(
    rt: &R,
    alloc: Global,
    text: &[u8],
    trace: &mut Vec<u8>,
) -> Option<u64> {
    let options = RunOptions {
        start: start_of(alloc).ok()?,
        turn: 1,
        seed: 42,
        ring: 1_024,
    };
    let gate = Count {
        others: AtomicU64::new(0),
    };
    run(rt, alloc, text, &options, &gate, trace).ok()?;
    Some(gate.others.load(Ordering::SeqCst))
}
