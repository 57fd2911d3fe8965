//! The arguments of `test`.
ghost use Rattle.std.specs.Prelude.{◌≡◌, length, IfOk};
ghost use Rattle.clap.specs.Words.{found_of, rows_of};
ghost use Rattle.btrun.specs.CommandArguments.{contexts_for, runs_within, IsTestOf};

use crate::arguments::files::{CALLS, ENTRY, INIT, explaining};
use crate::arguments::rows::Row::{Flag, LongNumber, Number};
use crate::arguments::rows::Subcommand;
use crate::arguments::values::{
    entries, given_long_number, init, is_given, long_number, named, number, text,
};
use bp_machine::Start;
use bp_machine::limits::{DEFAULT_CALLS, MAX_THREADS};
use bp_source::limits::{DEFAULT_JOBS, DEFAULT_RUNS, DEFAULT_SEED};
use bp_source::{TestOptions, TestTask};
use clap::ArgMatches;
use std::alloc::{AllocError, Global};

pub static TEST: Subcommand<'static> = Subcommand {
    name: "test",
    about: "Test a program by random schedules and print the trace of the first failing run",
    notes: "\
    Each run switches between the threads at places that are drawn by its seed, within the\n\
    contexts that are allowed. The seed of run r, from 0, is that of the first run plus r. A run\n\
    ends if an assertion fails, or if no thread can continue. The trace of the first run in which\n\
    an assertion failed is printed, and 'btrun replay' accepts it. A summary on standard\n\
    error says what was found, and what the runs reached. An error is one line there.\n\
    With --json each line on standard error is a JSON object.\n\
    What is found and printed does not depend on the number of jobs. With --time the first runs\n\
    are made, as many as there is time for, and are always the same.\n\n\
    Example:\n  btrun test race.bp writer reader --contexts 4 --runs 100000\n\n\
    Exit status:\n  0  nothing was found in any run\n  \
    1  an assertion failed, or a run ended in a deadlock\n  \
    2  the program was refused, or the arguments were\n  \
    3  memory, a device or the output failed",
    rows: &[
        ENTRY,
        LongNumber("seed", "Begin with the run of this seed [default: 42]"),
        Number(
            "contexts",
            "Allow N contexts [default: one more than there are threads]",
        ),
        CALLS,
        INIT,
        LongNumber(
            "runs",
            "Make at most N runs [default: 10000; no limit with --time]",
        ),
        LongNumber("time", "Begin no run after N seconds"),
        Number(
            "jobs",
            "Make N blocks of runs side by side, at most 64 [default: 1]",
        ),
        Flag(
            "deadlock",
            "Also stop at a run in which all threads that have not ended wait",
        ),
        Flag(
            "unreached",
            "List the statements that no run reached, on standard error",
        ),
        Flag("json", "Write the summary as JSON objects, for programs"),
    ],
    advanced: &[],
};

/// Returns the default number of contexts of a test of these threads: one more than there are
/// threads, so that each may begin and one may continue.
fn default_contexts(entries: &[String]) -> u32
    ensures { result ≡ contexts_for (length entries.now) }
{
    // More threads than that are refused.
    entries.len().min(MAX_THREADS) as u32 + 1
}

/// Returns the default limit of runs of a test with this time. Runs are counted in 64 bits, so the
/// greatest number limits none.
fn default_runs(seconds: Option<u64>) -> u64
    ensures { result ≡ runs_within seconds }
{
    match seconds {
        Some(_) => u64::MAX,
        None => DEFAULT_RUNS,
    }
}

/// Reads the task of the arguments after `test`.
pub fn test_arguments<'a>(
    alloc: Global,
    arguments: &ArgMatches<'a>,
) -> Result<TestTask<'a>, AllocError>
    ensures { IfOk result (IsTestOf (rows_of (found_of arguments.now))) }
{
    let entries = entries(alloc, arguments)?;
    let contexts = default_contexts(entries.as_slice());
    let seconds = given_long_number(arguments, "time");
    let runs = default_runs(seconds);
    Ok(TestTask {
        program: text(arguments, "FILE"),
        explain: explaining(arguments),
        start: Start {
            entries,
            init: init(alloc, arguments)?,
            contexts: number(arguments, "contexts", contexts),
            calls: number(arguments, "calls", DEFAULT_CALLS),
        },
        named: named(alloc, arguments)?,
        options: TestOptions {
            seed: long_number(arguments, "seed", DEFAULT_SEED),
            runs: long_number(arguments, "runs", runs),
            seconds,
            jobs: number(arguments, "jobs", DEFAULT_JOBS),
            with_deadlock: is_given(arguments, "deadlock"),
        },
        unreached: is_given(arguments, "unreached"),
        json: is_given(arguments, "json"),
    })
}
