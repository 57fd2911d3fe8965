//! A run in which only one worker pushes frames, after the others were started. If it is refused
//! one, the others end, and its thread stays live after the attempts that it made.
use crate::common::{code_of, names};
use crate::ready::{begin, say, wants};
use bp_code::{CheckError, ProgramError};
use bp_machine::{Outcome, Reply, Report, SetupError, Start};
use bp_run::{Gate, RunError, RunOptions, RunReport, WorkerCount, run};
use bp_syntax::ReadError;
use bp_trace::replay;
use std::alloc::{AllocError, Global};
use std::rt::Runtime;
use std::sync::Wait;
use std::sync::atomic::{AtomicU64, Ordering};
use std::test::Fail;
use std::thread;
use std::thread::Threads;
use std::time::Clock;

/// The threads of `a` make four attempts each; that of `b` pushes a frame with each of its ten.
const PROGRAM: &[u8] = b"decl x; a() begin x := 1; x := 0; end b() begin b(); end";

/// The thread of `b`.
const CALLER: u32 = 1;

/// The number of attempts of the other two threads.
const OTHERS: u64 = 8;

/// A gate that holds the thread of `b` ahead of its first turn until the thread after it comes, and
/// counts the turns of `b` that were answered.
#[derive(Drop)]
struct Held {
    come: AtomicU64,
    missed: AtomicU64,
    answered: AtomicU64,
}

impl Held {
    fn new() -> Held {
        Held {
            come: AtomicU64::new(0),
            missed: AtomicU64::new(0),
            answered: AtomicU64::new(0),
        }
    }

    /// Waits until the thread after `b` has come, and returns whether it did.
    fn waits(&self) -> bool {
        for _ in 0..1_000_000u32 {
            if self.come.load(Ordering::SeqCst) == 1 {
                return true;
            }
            thread::yield_now();
        }
        false
    }

    /// Returns the number of answered turns of `b`, or None if it came too early.
    fn answered(&self) -> Option<u64> {
        if self.missed.load(Ordering::SeqCst) == 0 {
            Some(self.answered.load(Ordering::SeqCst))
        } else {
            None
        }
    }
}

impl Gate for Held {
    fn before<R: Wait + Clock>(&self, _rt: &R, thread: u32, call: u64) {
        if thread == CALLER + 1 {
            self.come.store(1, Ordering::SeqCst);
        }
        if thread == CALLER && call == 0 && !self.waits() {
            self.missed.store(1, Ordering::SeqCst);
        }
    }

    fn after(&self, thread: u32, _reply: Reply) {
        if thread == CALLER {
            self.answered.fetch_add(1, Ordering::SeqCst);
        }
    }
}

/// Returns the options for ten attempts of each thread, by turns of one.
fn options(alloc: Global) -> Result<RunOptions, AllocError> {
    Ok(RunOptions {
        start: Start {
            entries: names(alloc, &["a", "b", "a"])?,
            init: None,
            contexts: 1000,
            calls: 10,
        },
        turn: 1,
        seed: 42,
        ring: 1024,
    })
}

/// Returns whether a run is right after this number of answered turns of `b`, one attempt each. It
/// made all its attempts, or its thread is live after those it made. Its worker counted the same.
fn is_right(done: &RunReport, own: u64) -> bool {
    let count = WorkerCount {
        thread: CALLER,
        calls: own,
        is_open: own < 10,
    };
    matches!(done.workers.get(CALLER as usize), Some(counted) if *counted == count)
        && done.counts_agree
        && done.report.outcome == Outcome::Clean
        && done.report.calls == OTHERS.saturating_add(own)
        && done.report.left_live == u32::from(count.is_open)
}

/// Returns the number of attempts of the thread of `b` in a trace.
fn calls_of_caller(trace: &[u8]) -> u64 {
    let mut count: u64 = 0;
    for line in trace.split(|byte| *byte == b'\n') {
        if line.len() == 5 && line.starts_with(b"1 ") {
            count = count.saturating_add(1);
        }
    }
    count
}

/// Returns whether the trace is one of the program, with this report.
fn is_replayed(alloc: Global, trace: &[u8], report: Report) -> Result<bool, Fail> {
    let code = code_of(alloc, PROGRAM)?;
    let replayed = replay(alloc, &code, trace)?;
    Ok(replayed.report == report)
}

/// Returns whether a run was refused memory, or a worker that needs it was not started.
fn is_for_want_of_memory(error: &RunError) -> bool {
    matches!(
        error,
        RunError::Program(
            ProgramError::Read(ReadError::Memory) | ProgramError::Check(CheckError::Memory, _)
        ) | RunError::Setup(SetupError::Memory)
            | RunError::Start
            | RunError::Memory
    )
}

/// Checks the result of a run, after the line that tells of refused memory was written: the run
/// itself may be refused, and has then written nothing.
fn looks(
    alloc: Global,
    gate: &Held,
    trace: &[u8],
    done: &Result<RunReport, RunError>,
) -> Result<(), Fail> {
    match done {
        Ok(done) => {
            let own = calls_of_caller(trace);
            wants(gate.answered() == Some(own) && is_right(done, own))?;
            wants(is_replayed(alloc, trace, done.report)?)
        }
        Err(error) => wants(is_for_want_of_memory(error) && trace.is_empty()),
    }
}

/// Returns the word of the line for a run: whether all attempts were made, the worker of `b` was
/// refused memory, or the run.
fn word_of(done: &Result<RunReport, RunError>) -> &'static str {
    match done {
        Ok(done) if done.report.left_live == 0 => "done",
        Ok(_) => "refused",
        Err(_) => "refused without calls",
    }
}

/// Runs the program, and checks the result.
fn runs<R: Threads + Wait + Runtime + Sync>(rt: &R, alloc: Global) -> Result<(), Fail> {
    let options = options(alloc)?;
    let mut out = Vec::with_capacity(alloc, 4096)?;
    let gate = Held::new();
    begin(rt)?;
    let done = run(rt, alloc, PROGRAM, &options, &gate, &mut out);
    say(rt, word_of(&done))?;
    looks(alloc, &gate, &out, &done)
}

#[test]
fn run_with_a_refused_worker(rt: HostRuntime) -> Result<(), Fail> {
    runs(&rt, rt.alloc())
}
