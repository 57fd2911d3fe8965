//! Runs of small programs by real threads, with gates and writers that wait. `.ci/runs` and cases
//! of the command `run` show traces.
mod failures;
mod meetings;
mod notes;
mod traces;
mod waits;

use crate::common::mains;
use bp_machine::Start;
use bp_run::{Gate, RunError, RunOptions, RunReport, run};
use std::alloc::{AllocError, Global};
use std::io::Write;
use std::sync::Wait;
use std::sync::atomic::{AtomicU64, Ordering};
use std::thread;
use std::thread::Threads;
use std::time::Clock;

/// A loop without an end.
const ENDLESS: &[u8] = b"main() begin while (1) do skip; od end";

/// The numbers of a test: of threads that begin with `main`, and the others. The seed is 42.
#[derive(Clone, Copy)]
struct Numbers {
    threads: u32,
    contexts: u32,
    calls: u32,
    turn: u32,
    ring: u32,
}

/// One thread, ten attempts, and turns of one attempt.
const ONE: Numbers = Numbers {
    threads: 1,
    contexts: 1000,
    calls: 10,
    turn: 1,
    ring: 1024,
};

/// Returns the options of these numbers.
fn options(alloc: Global, numbers: Numbers) -> Result<RunOptions, AllocError> {
    Ok(RunOptions {
        start: Start {
            entries: mains(alloc, numbers.threads)?,
            init: None,
            contexts: numbers.contexts,
            calls: numbers.calls,
        },
        turn: numbers.turn,
        seed: 42,
        ring: numbers.ring,
    })
}

/// Runs the program with these numbers.
fn runs<W: Write, G: Gate, R: Threads + Wait + Clock + Sync>(
    rt: &R,
    alloc: Global,
    text: &[u8],
    numbers: Numbers,
    gate: &G,
    out: &mut W,
) -> Result<RunReport, RunError> {
    let options = options(alloc, numbers)?;
    run(rt, alloc, text, &options, gate, out)
}

/// Returns the number of attempts of a run with these numbers; None if refused or a line is open.
fn calls<W: Write, G: Gate, R: Threads + Wait + Clock + Sync>(
    rt: &R,
    alloc: Global,
    text: &[u8],
    numbers: Numbers,
    gate: &G,
    out: &mut W,
) -> Option<u64> {
    let done = runs(rt, alloc, text, numbers, gate, out).ok()?;
    (done.report.left_live == 0).then_some(done.report.calls)
}

/// Returns the threads of a trace's attempts, in order, each as its digit. There are at most ten.
fn order_of(alloc: Global, trace: &[u8]) -> Result<Vec<u8>, AllocError> {
    let mut order = Vec::new(alloc);
    for line in trace.split(|byte| *byte == b'\n') {
        if line.len() == 5 {
            order.push(line[0])?;
        }
    }
    Ok(order)
}

/// Looks at the word until it has this value, yielding in between, and returns whether it was seen.
fn comes_to(word: &AtomicU64, value: u64) -> bool {
    for _ in 0..1_000_000u32 {
        if word.load(Ordering::SeqCst) == value {
            return true;
        }
        thread::yield_now();
    }
    false
}
