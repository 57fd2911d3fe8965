//! The arguments of `explore`.
ghost use Rattle.std.specs.Prelude.{IfOk};
ghost use Rattle.clap.specs.Words.{found_of, rows_of};
ghost use Rattle.btrun.specs.CommandArguments.{IsExploreOf};

use crate::arguments::confirm::context_bound;
use crate::arguments::files::{ENTRY, INIT, explaining};
use crate::arguments::rows::Row::{Flag, LongNumber, Number, Text};
use crate::arguments::rows::Subcommand;
use crate::arguments::values::{
    entries, given_long_number, given_text, init, is_given, long_number, named, number, text,
};
use bp_machine::Start;
use bp_machine::limits::{DEFAULT_CALLS, DEFAULT_CONTEXTS};
use bp_source::limits::DEFAULT_STATES;
use bp_source::{ExploreOptions, ExploreTask};
use clap::ArgMatches;
use std::alloc::{AllocError, Global};

pub static EXPLORE: Subcommand<'static> = Subcommand {
    name: "explore",
    about: "Look through all runs of a program and print the failing one with the fewest contexts",
    notes: "\
    All runs within one context are looked through, with both values of each choice, then all\n\
    within two, and so on. If no run fails, that is proved: for this many contexts, or for any\n\
    number if the last one brought no new state. Else the trace of a failing run with the fewest\n\
    contexts is printed, and 'btrun replay' accepts it. A summary on standard error says what was\n\
    found, and how many states there are. The number of calls has no bound; a stack has at most\n\
    1,024 frames. With --json the summary is a JSON object. An error is one line there.\n\n\
    With --through it looks for a run that makes the steps of a file in their order, with any\n\
    other steps between them. If there is none, the summary says how many of them are made.\n\n\
    Example:\n  btrun explore race.bp writer reader --contexts 4\n\n\
    Exit status:\n  0  no run fails\n  \
    1  an assertion fails, or a run ends in a deadlock\n  \
    2  the program was refused, or the arguments were\n  \
    3  memory, a device or the output failed\n  \
    4  no run makes the listed steps\n  \
    5  not all runs were looked through; none of those that were fails",
    rows: &[
        ENTRY,
        Number(
            "contexts",
            "Look through runs within N contexts [default: any number]",
        ),
        INIT,
        LongNumber("states", "Keep at most N states [default: 50000000]"),
        LongNumber("time", "Stop after N seconds"),
        Flag(
            "deadlock",
            "Also look for a run in which all threads that have not ended wait",
        ),
        Text(
            "through",
            "STEPS",
            "Look for a run that makes the steps of this file in their order",
        ),
        Flag("json", "Write the summary as a JSON object, for programs"),
    ],
    advanced: &[],
};

/// Reads the task of the arguments after `explore`.
pub fn explore_arguments<'a>(
    alloc: Global,
    arguments: &ArgMatches<'a>,
) -> Result<ExploreTask<'a>, AllocError>
    ensures { IfOk result (IsExploreOf (rows_of (found_of arguments.now))) }
{
    Ok(ExploreTask {
        program: text(arguments, "FILE"),
        explain: explaining(arguments),
        start: Start {
            entries: entries(alloc, arguments)?,
            init: init(alloc, arguments)?,
            contexts: number(arguments, "contexts", DEFAULT_CONTEXTS),
            calls: DEFAULT_CALLS,
        },
        named: named(alloc, arguments)?,
        through: given_text(arguments, "through"),
        options: ExploreOptions {
            bound: context_bound(arguments),
            states: long_number(arguments, "states", DEFAULT_STATES),
            seconds: given_long_number(arguments, "time"),
            with_deadlock: is_given(arguments, "deadlock"),
        },
        json: is_given(arguments, "json"),
    })
}
