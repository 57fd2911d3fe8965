//! The arguments of `run`.
ghost use Rattle.std.specs.Prelude.{IfOk};
ghost use Rattle.clap.specs.Words.{found_of, rows_of};
ghost use Rattle.btrun.specs.CommandArguments.{IsRunOf};

use crate::arguments::files::{CALLS, CONTEXTS, ENTRY, INIT, explaining};
use crate::arguments::rows::Row::{Flag, LongNumber, Number};
use crate::arguments::rows::Subcommand;
use crate::arguments::values::{is_given, long_number, named, number, start, text};
use bp_source::limits::{DEFAULT_RING, DEFAULT_SEED, DEFAULT_TURN};
use bp_source::{RunOptions, RunTask};
use clap::ArgMatches;
use std::alloc::{AllocError, Global};

pub static RUN: Subcommand<'static> = Subcommand {
    name: "run",
    about: "Run a program by one worker for each thread and print the trace of the run",
    notes: "\
    The operating system's scheduler decides which thread takes the next turn, so two runs may\n\
    differ. Each trace is that of a run of the program, and 'btrun replay' accepts it. It is\n\
    printed during the run. The first error is one line on standard error.\n\n\
    Example:\n  btrun run race.bp writer reader --contexts 4 --seed 7\n\n\
    Exit status:\n  0  done, and no assertion failed\n  1  an assertion failed\n  \
    2  the program was refused, or the arguments were\n  \
    3  memory, a device, a thread or the output failed",
    rows: &[
        ENTRY,
        LongNumber("seed", "Draw the choice bits by this seed [default: 42]"),
        CONTEXTS,
        CALLS,
        INIT,
    ],
    advanced: &[
        Number(
            "turn",
            "Let a worker make N calls in a turn, 1 to 64 [default: 1]",
        ),
        Number(
            "ring",
            "Let N calls wait to be printed, 1 to 65536 [default: 1024]",
        ),
        Flag(
            "spread",
            "Start the workers together, and draw the thread of each turn",
        ),
    ],
};

/// Reads the task of the arguments after `run`.
pub fn run_arguments<'a>(
    alloc: Global,
    arguments: &ArgMatches<'a>,
) -> Result<RunTask<'a>, AllocError>
    ensures { IfOk result (IsRunOf (rows_of (found_of arguments.now))) }
{
    Ok(RunTask {
        program: text(arguments, "FILE"),
        spread: is_given(arguments, "spread"),
        explain: explaining(arguments),
        options: RunOptions {
            start: start(alloc, arguments)?,
            turn: number(arguments, "turn", DEFAULT_TURN),
            seed: long_number(arguments, "seed", DEFAULT_SEED),
            ring: number(arguments, "ring", DEFAULT_RING),
        },
        named: named(alloc, arguments)?,
    })
}
