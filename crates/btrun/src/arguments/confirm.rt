//! The arguments of `confirm`.
ghost use Rattle.std.specs.Prelude.{◌≡◌, IfOk};
ghost use Rattle.clap.specs.Words.{found_of, rows_of};
ghost use Rattle.btrun.specs.CommandArguments.{bound_in, IsConfirmOf};

use crate::arguments::files::{CALLS, ENTRY, INIT, explaining};
use crate::arguments::rows::Row::{Flag, Number, Required, Text};
use crate::arguments::rows::Subcommand;
use crate::arguments::values::{expected_verdict, given_number, is_given, named, start, text};
use bp_source::{ConfirmTask, ContextBound};
use clap::ArgMatches;
use std::alloc::{AllocError, Global};

pub static CONFIRM: Subcommand<'static> = Subcommand {
    name: "confirm",
    about: "Confirm the steps that a model checker reports and print the trace of the run",
    notes: "\
    A line of the steps is 'THREAD PLACE', and then any number of ' NAME=BIT'. The place is that\n\
    of the thread before the step: 'LINE', 'LINE:COLUMN', or '-' for a procedure's end. \
    The values\n\
    are those that the thread sees after the step; NAME is the name of a variable, or that of a\n\
    procedure, a dot and the name of its local. Choice bits are left out.\n\
    The first error is one line on standard error.\n\n\
    Example:\n  btrun confirm race.bp steps.txt writer reader --init 00\n\n\
    Exit status:\n  0  the steps are a run, and no assertion failed; or it ends as expected\n  \
    1  an assertion failed at the last step, and nothing was expected\n  \
    2  an input was refused, or the arguments were\n  3  memory, a device or the output failed\n  \
    4  a step is not taken, or the run does not end as expected",
    rows: &[
        Required("STEPS", "The file of the steps"),
        ENTRY,
        Number(
            "contexts",
            "Allow N contexts [default: as many as the steps use]",
        ),
        CALLS,
        INIT,
        Text(
            "expect",
            "END",
            "Exit with 0 if the run ends in END (failure, deadlock or run), else with 4",
        ),
        Flag(
            "json",
            "Print the verdict or an error as JSON objects, for programs",
        ),
    ],
    advanced: &[],
};

/// Returns the bound on contexts: as many as are used, unless a number is given.
pub fn context_bound(arguments: &ArgMatches<'_>) -> ContextBound
    ensures { result ≡ bound_in (rows_of (found_of arguments.now)) }
{
    match given_number(arguments, "contexts") {
        Some(_) => ContextBound::Kept,
        None => ContextBound::AsUsed,
    }
}

/// Reads the task of the arguments after `confirm`.
pub fn confirm_arguments<'a>(
    alloc: Global,
    arguments: &ArgMatches<'a>,
) -> Result<ConfirmTask<'a>, AllocError>
    ensures { IfOk result (IsConfirmOf (rows_of (found_of arguments.now))) }
{
    Ok(ConfirmTask {
        program: text(arguments, "FILE"),
        steps: text(arguments, "STEPS"),
        json: is_given(arguments, "json"),
        explain: explaining(arguments),
        bound: context_bound(arguments),
        expected: expected_verdict(arguments),
        start: start(alloc, arguments)?,
        named: named(alloc, arguments)?,
    })
}
