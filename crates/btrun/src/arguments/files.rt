//! Arguments of all commands on files. When an error is explained. Arguments that several commands
//! take.
ghost use Rattle.clap.specs.Words.{found_of, rows_of};
ghost use Rattle.btrun.specs.Values.{IsExplainingOf};

use crate::arguments::rows::Row::{self, Flag, Number, Required, Text, Values};
use crate::arguments::values::is_given;
use bp_source::Explaining;
use clap::ArgMatches;

/// Reads the options on explanations.
pub fn explaining(arguments: &ArgMatches<'_>) -> Explaining
    ensures { IsExplainingOf (rows_of (found_of arguments.now)) result }
{
    Explaining {
        always: is_given(arguments, "explain"),
        never: is_given(arguments, "no-explain"),
    }
}

/// The first arguments of each command on a file: the file, and the flags on explanations.
pub static FILE_ROWS: [Row<'static>; 3] = [
    Required("FILE", "The file of the program"),
    Flag(
        "explain",
        "Explain an error on further lines: its place, and what was expected",
    ),
    Flag(
        "no-explain",
        "Do not explain errors [default: explain errors only on a terminal]",
    ),
];

pub const TRACE: Row<'static> = Required("TRACE", "The file of the trace");

pub const ENTRY: Row<'static> = Values(
    "ENTRY",
    "The entry procedure of each thread, in order [default: main]",
);

pub const CONTEXTS: Row<'static> = Number("contexts", "Allow N contexts [default: 2]");

pub const CALLS: Row<'static> = Number("calls", "Allow each thread N calls [default: 1000]");

pub const INIT: Row<'static> = Text(
    "init",
    "BITS",
    "Set globals' initial bits, 01 or x=1,y=0 [default: all 0]",
);
