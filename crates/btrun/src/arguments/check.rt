//! The arguments of `check`.
ghost use Rattle.clap.specs.Words.{found_of, rows_of};
ghost use Rattle.btrun.specs.CommandArguments.{IsCheckArgumentsOf};

use crate::arguments::files::explaining;
use crate::arguments::rows::Row::Flag;
use crate::arguments::rows::Subcommand;
use crate::arguments::values::{is_given, text};
use bp_source::CheckTask;
use clap::ArgMatches;

pub static CHECK: Subcommand<'static> = Subcommand {
    name: "check",
    about: "Check a program and print 'ok' and its numbers of procedures and globals",
    notes: "\
    The first error is one line on standard error, with the offset of its byte. With --json the\n\
    names of procedures and variables are printed, and an error is an object too.\n\n\
    Example:\n  btrun check lock.bp\n\nExit status:\n  0  the program is well-formed\n  \
    2  it is refused, or the arguments were\n  3  memory, a device or the output failed",
    rows: &[Flag("json", "Print one JSON object, for programs")],
    advanced: &[],
};

/// Reads the task of the arguments after `check`.
pub fn check_arguments<'a>(arguments: &ArgMatches<'a>) -> CheckTask<'a>
    ensures { IsCheckArgumentsOf (rows_of (found_of arguments.now)) result }
{
    CheckTask {
        program: text(arguments, "FILE"),
        json: is_given(arguments, "json"),
        explain: explaining(arguments),
    }
}
