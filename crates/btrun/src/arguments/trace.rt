//! The arguments of `replay`, `migrate` and `shrink`.
ghost use Rattle.clap.specs.Words.{found_of, rows_of};
ghost use Rattle.btrun.specs.CommandArguments.{IsTraceArgumentsOf};

use crate::arguments::files::{TRACE, explaining};
use crate::arguments::rows::Subcommand;
use crate::arguments::values::text;
use bp_source::TraceTask;
use clap::ArgMatches;

pub static REPLAY: Subcommand<'static> = Subcommand {
    name: "replay",
    about: "Replay a trace and print what its steps printed, and the outcome",
    notes: "\
    A step at a 'print' has a line 'print THREAD BITS'. The last line is 'outcome clean', or\n\
    'outcome failed THREAD' with the thread whose assertion failed. The first error is one \
    line on\n\
    standard error.\n\n\
    Example:\n  btrun replay race.bp race.trace\n\n\
    Exit status:\n  0  done, and no assertion failed\n  1  an assertion failed\n  \
    2  an input was refused, or the arguments were\n  3  memory, a device or the output failed",
    rows: &[TRACE],
    advanced: &[],
};

pub static MIGRATE: Subcommand<'static> = Subcommand {
    name: "migrate",
    about: "Print a trace of either version in version 2",
    notes: "\
    Version 2 has a line for each piece: the calls that a thread makes one after the other. \
    The trace\n\
    is replayed first. The first error is one line on standard error.\n\n\
    Example:\n  btrun migrate race.bp race.trace\n\n\
    Exit status:\n  0  done, and no assertion failed\n  1  an assertion failed\n  \
    2  an input was refused, or the arguments were\n  3  memory, a device or the output failed",
    rows: &[TRACE],
    advanced: &[],
};

pub static SHRINK: Subcommand<'static> = Subcommand {
    name: "shrink",
    about: "Print a smaller trace with the same failure or deadlock",
    notes: "\
    The trace is one that ends in a failed assertion or a deadlock. Contexts, loops and other\n\
    calls are left out, and the rest is driven again: the same assertion of the same thread\n\
    fails in it, or the same threads wait at the same assumptions, by no more calls and no more\n\
    contexts. The first error is one line on standard error.\n\n\
    Example:\n  btrun shrink race.bp race.trace\n\n\
    Exit status:\n  0  the trace of a deadlock is printed\n  \
    1  an assertion failed, and the trace is printed\n  \
    2  an input was refused, or the arguments were\n  3  memory, a device or the output failed",
    rows: &[TRACE],
    advanced: &[],
};

/// Reads the task of the arguments after `replay`, `migrate` or `shrink`.
pub fn trace_arguments<'a>(arguments: &ArgMatches<'a>) -> TraceTask<'a>
    ensures { IsTraceArgumentsOf (rows_of (found_of arguments.now)) result }
{
    TraceTask {
        program: text(arguments, "FILE"),
        trace: text(arguments, "TRACE"),
        explain: explaining(arguments),
    }
}
