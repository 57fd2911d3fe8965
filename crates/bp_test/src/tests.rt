//! Testing a program within a bound on contexts. The time limit of a test. Watching the progress of
//! a test. Why a test is not finished.
ghost use Rattle.std.specs.Prelude.{◌≡◌, MatchResult, None, false};
ghost use Rattle.bp_machine.specs.Setups.{Fits};
ghost use Rattle.bp_test.specs.Tests.{found_in, IsTest, IsTestRefusal};

use crate::batches::{Block, search};
use crate::plans::Plan;
use crate::tallies::Tally;
use crate::waits::Waiting;
use bp_flat::Code;
use bp_machine::{Outcome, Report, Setup};
use bp_source::TestOptions;
use bp_source::limits::MAX_JOBS;
use bp_text::WriteError;
use bp_trace::write_trace;
use std::alloc::{AllocError, Global};
use std::io::Write;
use std::thread::Threads;
use std::time::Clock;
use thiserror::Error;

/// The finding of a test.
#[derive(Clone, Copy, Debug, PartialEq, Eq)]
pub enum Found {
    /// None of the runs.
    Nothing,
    /// An assertion failed in this run. The test does not search for any run before it.
    Failed { run: u64, report: Report },
    /// This run ended in a deadlock: some threads had not ended, and each of those waits for ever.
    /// The test does not search for any run before it.
    Deadlock { run: u64, report: Report },
}

/// The finding of a test, and the statistics of its runs.
#[derive(Drop)]
pub struct Tested {
    pub found: Found,
    /// The instruction whose assertion failed in the run that was found, if one did.
    pub failed: Option<u32>,
    /// The threads that wait at the end of the run that was found, in ascending order.
    pub waiting: Vec<Waiting>,
    pub tally: Tally,
}

/// Returns the finding for a run with this report.
fn found_in(run: u64, report: Report) -> Found
    ensures { result ≡ found_in run report }
{
    match report.outcome {
        Outcome::Failed { .. } => Found::Failed { run, report },
        Outcome::Clean => Found::Deadlock { run, report },
    }
}

/// Makes runs, each with the seed after that of the one before, until an assertion fails, or a run
/// ends in a deadlock if deadlocks are searched for, and then writes the trace of that run. If none
/// is found nothing is written. No run begins after the seconds of the options. The runs that were
/// made are then the first of those that would have been made without a limit. At a refusal nothing
/// is written, unless the writer refuses: it then has a proper prefix of the trace. `progress` has
/// no effect on any of that.
pub fn test<R: Threads + Sync, C: Clock + Sync, P: Progress, W: Write>(
    rt: &Runtimes<'_, R, C>,
    alloc: Global,
    code: &Code,
    setup: &Setup,
    options: &TestOptions,
    progress: &P,
    out: &mut W,
) -> Result<Tested, TestError>
    requires { Fits code.now.tree setup.now }
    ensures { let t = code.now.tree in let old = W.contents out.old in
        let new = W.contents out.new in
        MatchResult result
        (IsTest t setup.now options.now old new)
        (IsTestRefusal t setup.now options.now old new) }
{
    let deadline = deadline_after(rt.clock, options.seconds);
    let (seed, with_deadlock) = (options.seed, options.with_deadlock);
    let plan = Plan::new(rt.clock, alloc, code, setup, seed, with_deadlock, deadline)?;
    let (runs, jobs) = (options.runs, options.jobs.clamp(1, MAX_JOBS) as usize);
    let made = search(rt, alloc, code, setup, &plan, runs, jobs, progress);
    progress.end();
    let Block { found, tally, .. } = made?;
    let Some(found) = found else {
        return Ok(Tested {
            found: Found::Nothing,
            failed: None,
            waiting: Vec::new(alloc),
            tally,
        });
    };
    let seed = seed.wrapping_add(found.run);
    let setup = setup.try_copy()?.with_seed(Some(seed));
    write_trace(&setup, found.history.as_slice(), out)?;
    Ok(Tested {
        found: found_in(found.run, found.report),
        failed: found.number,
        waiting: found.waiting,
        tally,
    })
}

/// The starter of the threads of a test, and its clock.
#[derive(Drop)]
pub struct Runtimes<'a, R, C> {
    pub threads: &'a R,
    pub clock: &'a C,
}

/// Returns the time of the clock, in milliseconds, if it can be read.
pub(crate) fn millis<C: Clock>(clock: &C) -> Option<u64> {
    let Ok(shown) = clock.monotonic() else {
        return None;
    };
    Some(u64::try_from(shown.as_millis()).unwrap_or(u64::MAX))
}

/// Returns the time of the clock after this number of seconds, in milliseconds. A clock that cannot
/// be read leaves no time.
pub(crate) fn deadline_after<C: Clock>(clock: &C, seconds: Option<u64>) -> Option<u64>
    ensures { seconds ≡ None → result ≡ None }
{
    let seconds = seconds?;
    match millis(clock) {
        Some(now) => Some(now.saturating_add(seconds.saturating_mul(1_000))),
        None => Some(0),
    }
}

/// Returns whether fewer than `limit` milliseconds are over since the clock showed this time; false
/// if the clock cannot be read.
pub(crate) fn is_within<C: Clock>(clock: &C, start: Option<u64>, limit: u64) -> bool {
    match (start, millis(clock)) {
        (Some(start), Some(now)) => now < start.saturating_add(limit),
        _ => false,
    }
}

/// Returns whether no more run may begin.
pub(crate) fn is_over<C: Clock>(clock: &C, deadline: Option<u64>) -> bool
    ensures { deadline ≡ None → result ≡ false }
{
    let Some(deadline) = deadline else {
        return false;
    };
    match millis(clock) {
        Some(now) => now >= deadline,
        None => true,
    }
}

/// Observes a test, after each batch of blocks.
pub trait Progress {
    /// Is told that none of the first `done` of `runs` runs is a finding.
    fn tell(&self, done: u64, runs: u64);

    /// Is told that the test makes no more runs.
    fn end(&self);
}

/// Why a test is not finished.
#[derive(Clone, Copy, Debug, PartialEq, Eq, Error)]
pub enum TestError {
    /// There was not enough memory.
    #[error("out of memory")]
    Memory,
    /// The trace could not be written whole.
    #[error("the output could not be written")]
    Write,
}

impl From<AllocError> for TestError {
    ghost use Rattle.std.specs.Prelude.{◌≡◌};
    ghost use Rattle.bp_test.specs.declared.tests.TestError.{TestError};

    ghost from_gives = { λ _ e. e ≡ TestError.Memory };

    fn from(_: AllocError) -> TestError {
        TestError::Memory
    }
}

impl From<WriteError> for TestError {
    ghost use Rattle.std.specs.Prelude.{◌≡◌};
    ghost use Rattle.bp_test.specs.declared.tests.TestError.{TestError};

    ghost from_gives = { λ _ e. e ≡ TestError.Write };

    fn from(_: WriteError) -> TestError {
        TestError::Write
    }
}
