//! What the machine tells of a run: its arguments, its environment and its terminals.

use crate::progress_lines::ProgressLine;
use bp_commands::Screen;
use bp_source::{ErrorFormat, Task};
use bp_text::{number_of, put};
use std::env;
use std::io::{self, IsTerminal};
use std::time::Instant;

/// Returns the arguments of the command line. The first is the program's name.
pub fn arguments(rt: &HostRuntime) -> io::Result<Vec<String>> {
    Ok(env::args(rt)?.collect(rt.alloc())?)
}

/// Returns whether this variable of the environment is set to a text.
fn is_set(rt: &HostRuntime, name: &str) -> bool {
    matches!(env::var(rt, name), Ok(value) if !value.is_empty())
}

/// The fewest columns of a terminal for which lines are cut.
const LEAST_COLUMNS: u64 = 40;

/// Returns the columns that COLUMNS gives a terminal; None if it gives no number, or too few.
fn columns(rt: &HostRuntime) -> Option<usize> {
    let value = env::var(rt, "COLUMNS").ok()?;
    match number_of(value.as_bytes()) {
        Some(columns) if columns >= LEAST_COLUMNS => Some(columns as usize),
        _ => None,
    }
}

/// Returns the form of lines on standard output. On a terminal they are cut, and in colour if
/// NO_COLOR is not set to a text.
pub fn screen(rt: &HostRuntime) -> Screen {
    if !rt.stdout().is_terminal() {
        return Screen {
            has_colour: false,
            columns: None,
        };
    }
    Screen {
        has_colour: !is_set(rt, "NO_COLOR"),
        columns: columns(rt),
    }
}

/// Returns whether errors are explained if no option says so: standard error is a terminal, or
/// BTRUN_EXPLAIN is set to a text.
pub fn explains_errors(rt: &HostRuntime) -> bool {
    is_set(rt, "BTRUN_EXPLAIN") || rt.stderr().is_terminal()
}

/// Returns the seconds that a task has, if they are limited.
fn seconds_of(task: &Task<'_>) -> Option<u64> {
    match task {
        Task::Test(task) => task.options.seconds,
        Task::Explore(task) => task.options.seconds,
        _ => None,
    }
}

/// Returns the line of progress of a test or an exploration that starts now.
pub fn progress_line<'a>(rt: &'a HostRuntime, task: &Task<'_>) -> ProgressLine<'a> {
    let is_json = matches!(task.error_format(false), ErrorFormat::Json);
    let is_asked_not_to = is_json || is_set(rt, "NO_PROGRESS");
    ProgressLine {
        rt,
        is_shown: !is_asked_not_to && rt.stderr().is_terminal(),
        start: Instant::now(rt).ok(),
        seconds: seconds_of(task),
    }
}

/// The message if no command was given, and standard input is a terminal.
const WAITS: &[u8] =
    b"btrun: waiting for a bundle on standard input; 'btrun --help' shows the commands\n";

/// Says that a bundle is expected, if a terminal has to give it.
pub fn say_that_it_waits(rt: &HostRuntime, task: &Task<'_>) {
    if matches!(task, Task::Bundle) && rt.stdin().is_terminal() {
        // If standard error fails, the bundle is still read.
        let _ = put(&mut rt.stderr(), WAITS);
    }
}
