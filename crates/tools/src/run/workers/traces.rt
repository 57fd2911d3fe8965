//! Traces of runs by several workers, and of long runs.
use super::{ENDLESS, Numbers, ONE, calls, runs};
use crate::common::code_of;
use bp_machine::{Outcome, Reply};
use bp_run::{Gate, Open, RunReport};
use bp_trace::replay;
use std::alloc::{AllocError, Global};
use std::rt::Runtime;
use std::sync::Wait;
use std::test::Fail;
use std::thread;
use std::thread::Threads;
use std::time::Clock;

/// A loop by choices, whose body calls a procedure that prints.
const BUMPS: &[u8] = b"decl turn, hits; \
    main() begin decl i; while (?) do i := !i; bump(i); od end \
    bump(v) begin turn, hits := v, turn; print (turn); end";

/// The lines of thread 0 of that program, by the seed 42.
const FIRST_LINES: &[u8] = b"0 1 s\n0 1 s\n0 1 s\n0 0 s\n0 1 s\n0 1 s\n0 0 s\n0 1 s\n0 0 e\n";

/// A gate that yields this number of times ahead of each turn.
#[derive(Drop)]
struct Slow {
    yields: u32,
}

impl Gate for Slow {
    fn before<R: Wait + Clock>(&self, _rt: &R, _thread: u32, _call: u64) {
        for _ in 0..self.yields {
            thread::yield_now();
        }
    }

    fn after(&self, _thread: u32, _reply: Reply) {}
}

/// Returns the lines of thread 0 in a trace, in order.
fn lines_of_first(alloc: Global, trace: &[u8]) -> Result<Vec<u8>, AllocError> {
    let mut lines = Vec::new(alloc);
    for line in trace.split(|byte| *byte == b'\n') {
        if line.len() == 5 && line.starts_with(b"0 ") {
            lines.extend_from_slice(line)?;
            lines.push(b'\n')?;
        }
    }
    Ok(lines)
}

/// Returns whether a run of three workers made all its attempts, and has this trace.
fn is_traced(alloc: Global, done: &RunReport, trace: &[u8]) -> Result<bool, Fail> {
    let code = code_of(alloc, BUMPS)?;
    let replayed = replay(alloc, &code, trace)?;
    let is_whole = done.workers.len() == 3
        && done.counts_agree
        && done.report.left_live == 0
        && done.report.outcome == Outcome::Clean;
    let lines = lines_of_first(alloc, trace)?;
    Ok(is_whole && replayed.report == done.report && lines.as_slice() == FIRST_LINES)
}

/// Returns whether three workers with this ring, turn and gate write a whole trace.
fn trace_all<R: Threads + Wait + Runtime + Sync>(
    rt: &R,
    alloc: Global,
    ring: u32,
    turn: u32,
    gate: &Slow,
) -> Result<bool, Fail> {
    let numbers = Numbers {
        threads: 3,
        calls: 50,
        turn,
        ring,
        ..ONE
    };
    let mut trace = Vec::new(alloc);
    match runs(rt, alloc, BUMPS, numbers, gate, &mut trace) {
        Ok(done) => is_traced(alloc, &done, &trace),
        Err(_) => Ok(false),
    }
}

#[test]
fn three_workers_make_all_their_calls(rt: HostRuntime) -> Result<(), Fail> {
    for (ring, turn, yields) in [(1024, 3, 0), (1, 3, 0), (1, 64, 100)] {
        assert!(rt; trace_all(&rt, rt.alloc(), ring, turn, &Slow { yields })?);
    }
    Ok(())
}

/// Returns the number of one worker's attempts, by turns of `turn`, at a board with a ring of four.
fn calls_by_turns_of<R: Threads + Wait + Clock + Sync>(
    rt: &R,
    alloc: Global,
    turn: u32,
) -> Option<u64> {
    let numbers = Numbers {
        calls: 1000,
        turn,
        ring: 4,
        ..ONE
    };
    calls(rt, alloc, ENDLESS, numbers, &Open, &mut Vec::new(alloc))
}

#[test]
fn a_worker_makes_a_thousand_calls(rt: HostRuntime) {
    for turn in [3, 64, 1] {
        assert_eq!(&rt; calls_by_turns_of(&rt, rt.alloc(), turn), Some(1000));
    }
}
