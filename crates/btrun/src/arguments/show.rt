//! The arguments of `show`.
ghost use Rattle.clap.specs.Words.{found_of, rows_of};
ghost use Rattle.btrun.specs.CommandArguments.{IsShowOf, IsViewFormatOf, IsViewOf};

use crate::arguments::files::{TRACE, explaining};
use crate::arguments::rows::Row::{Flag, LongNumber, Number, Text};
use crate::arguments::rows::Subcommand;
use crate::arguments::values::{given_long_number, given_number, given_text, is_given, text};
use bp_source::{ShowTask, ViewFormat, ViewOptions};
use clap::ArgMatches;

pub static SHOW: Subcommand<'static> = Subcommand {
    name: "show",
    about: "Replay a trace and show what happened, call by call",
    notes: "\
    The setup comes first. Then each call has a line: its number, the thread, the context that\n\
    its step is in, the line and column of the statement, the statement, the choice bit if\n\
    one was read, the reply if it is not a step, and the variables that the step changed. A\n\
    line at which the context switches begins with '>'. Last comes the outcome. On a terminal a\n\
    failure is red and a switch is yellow, unless NO_COLOR is set. With --json each line is\n\
    an object: the setup, the calls, and the outcome. The first error is one line on standard\n\
    error.\n\n\
    Example:\n  btrun show race.bp race.trace --last 20\n\n\
    Exit status:\n  0  done, and no assertion failed\n  1  an assertion failed\n  \
    2  an input was refused, or the arguments were\n  3  memory, a device or the output failed",
    rows: &[
        TRACE,
        Number("thread", "Show only the calls of thread N"),
        LongNumber("last", "Show only the last N calls"),
        LongNumber("from", "Show no call before call N"),
        LongNumber("to", "Show no call after call N"),
        Text(
            "watch",
            "NAMES",
            "Show only the calls that change one of these variables, as x,y",
        ),
        Flag(
            "fold",
            "Show more than three equal waits of a thread as one line",
        ),
        Flag("state", "Show the state after the last call too"),
        Flag("brief", "Leave out the setup"),
        Flag(
            "valid",
            "Show the accepted calls of a trace that is refused",
        ),
        LongNumber("at", "Show the state after call N instead of the calls"),
        Flag(
            "contexts",
            "Show one line for each context instead of the calls",
        ),
        Flag(
            "steps",
            "Show only the steps, as 'confirm' takes them, instead of the calls",
        ),
        Flag("json", "Print one JSON object a line, for programs"),
    ],
    advanced: &[],
};

/// Returns the format of the view.
fn view_format(arguments: &ArgMatches<'_>) -> ViewFormat
    ensures { IsViewFormatOf (rows_of (found_of arguments.now)) result }
{
    if is_given(arguments, "json") {
        ViewFormat::Json
    } else {
        ViewFormat::Columns
    }
}

/// Returns the options of the view, on a screen without colours and of any width.
fn view_options<'a>(arguments: &ArgMatches<'a>) -> ViewOptions<'a>
    ensures { IsViewOf (rows_of (found_of arguments.now)) result }
{
    ViewOptions {
        thread: given_number(arguments, "thread"),
        last: given_long_number(arguments, "last"),
        from: given_long_number(arguments, "from"),
        to: given_long_number(arguments, "to"),
        watch: given_text(arguments, "watch"),
        fold: is_given(arguments, "fold"),
        has_state: is_given(arguments, "state"),
        is_brief: is_given(arguments, "brief"),
        has_colour: false,
        columns: None,
        format: view_format(arguments),
    }
}

/// Reads the task of the arguments after `show`.
pub fn show_arguments<'a>(arguments: &ArgMatches<'a>) -> ShowTask<'a>
    ensures { IsShowOf (rows_of (found_of arguments.now)) result }
{
    ShowTask {
        program: text(arguments, "FILE"),
        trace: text(arguments, "TRACE"),
        at: given_long_number(arguments, "at"),
        contexts: is_given(arguments, "contexts"),
        steps: is_given(arguments, "steps"),
        valid: is_given(arguments, "valid"),
        options: view_options(arguments),
        explain: explaining(arguments),
    }
}
