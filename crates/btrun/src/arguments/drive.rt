//! The arguments of `drive`.
ghost use Rattle.std.specs.Prelude.{IfOk};
ghost use Rattle.clap.specs.Words.{found_of, rows_of};
ghost use Rattle.btrun.specs.CommandArguments.{IsDriveOf};

use crate::arguments::files::{CALLS, CONTEXTS, ENTRY, INIT, explaining};
use crate::arguments::rows::Row::Required;
use crate::arguments::rows::Subcommand;
use crate::arguments::values::{named, start, text};
use bp_source::DriveTask;
use clap::ArgMatches;
use std::alloc::{AllocError, Global};

pub static DRIVE: Subcommand<'static> = Subcommand {
    name: "drive",
    about: "Drive a program by a schedule and print the trace of the run",
    notes: "\
    A line of the schedule is 'THREAD BIT': the number of a thread, and the choice bit \
    of its call.\n\
    The first error is one line on standard error.\n\n\
    Example:\n  btrun drive race.bp race.txt writer reader --init 00\n\n\
    Exit status:\n  0  done, and no assertion failed\n  1  an assertion failed\n  \
    2  an input was refused, or the arguments were\n  3  memory, a device or the output failed",
    rows: &[
        Required("SCHEDULE", "The file of the schedule"),
        ENTRY,
        CONTEXTS,
        CALLS,
        INIT,
    ],
    advanced: &[],
};

/// Reads the task of the arguments after `drive`.
pub fn drive_arguments<'a>(
    alloc: Global,
    arguments: &ArgMatches<'a>,
) -> Result<DriveTask<'a>, AllocError>
    ensures { IfOk result (IsDriveOf (rows_of (found_of arguments.now))) }
{
    Ok(DriveTask {
        program: text(arguments, "FILE"),
        schedule: text(arguments, "SCHEDULE"),
        explain: explaining(arguments),
        start: start(alloc, arguments)?,
        named: named(alloc, arguments)?,
    })
}
