//! The arguments of `code`.
ghost use Rattle.clap.specs.Words.{found_of, rows_of};
ghost use Rattle.btrun.specs.CommandArguments.{IsCodeArgumentsOf, IsFormOf};

use crate::arguments::files::explaining;
use crate::arguments::rows::Row::Flag;
use crate::arguments::rows::Subcommand;
use crate::arguments::values::{is_given, text};
use bp_source::{CodeTask, ListingForm};
use clap::ArgMatches;

pub static CODE: Subcommand<'static> = Subcommand {
    name: "code",
    about: "Print the listing of a program's code",
    notes: "\
    A procedure has a line 'proc NAME FORMALS LOCALS', and after it a line for each instruction,\n\
    with its number and those of its successors. With --json each line is a JSON object, and\n\
    so is an error. The first error is one line on standard error, with the offset of its byte.\n\n\
    Example:\n  btrun code lock.bp\n\n\
    Exit status:\n  0  the listing is printed\n  \
    2  the program is refused, or the arguments were\n  3  memory, a device or the output failed",
    rows: &[
        Flag(
            "source",
            "Print the line, column and statement of each instruction after it",
        ),
        Flag(
            "json",
            "Print JSON objects, for programs: each instruction with its statement",
        ),
    ],
    advanced: &[],
};

/// Returns the form of the listing. JSON has the source of each instruction too.
fn listing_form(arguments: &ArgMatches<'_>) -> ListingForm
    ensures { IsFormOf (rows_of (found_of arguments.now)) result }
{
    if is_given(arguments, "json") {
        ListingForm::Json
    } else if is_given(arguments, "source") {
        ListingForm::Sourced
    } else {
        ListingForm::Lines
    }
}

/// Reads the task of the arguments after `code`.
pub fn code_arguments<'a>(arguments: &ArgMatches<'a>) -> CodeTask<'a>
    ensures { IsCodeArgumentsOf (rows_of (found_of arguments.now)) result }
{
    CodeTask {
        program: text(arguments, "FILE"),
        form: listing_form(arguments),
        explain: explaining(arguments),
    }
}
