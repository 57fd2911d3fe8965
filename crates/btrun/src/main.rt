//! `btrun`: it checks, drives and runs programs; without a command it reads a bundle, a program and
//! a schedule, from standard input, and prints the trace to which the schedule drives the program.
#![tactic(auto)]

mod arguments;
mod environment;
mod host_files;
mod progress_lines;
mod tasks;
mod usage;

use crate::arguments::{NoTask, asks_for_json, read_arguments};
use crate::environment::{arguments, explains_errors, progress_line, say_that_it_waits, screen};
use crate::host_files::HostFiles;
use crate::tasks::{Host, carry_out};
use crate::usage::{end_without_task, refuse_memory, unread};
use bp_commands::Streams;
use std::io::BufWriter;
use std::process::ExitCode;

/// Ends a run whose arguments ask for no task, and returns the exit status.
fn end_on_host(rt: &HostRuntime, none: &NoTask, json: bool) -> ExitCode {
    ExitCode::from(end_without_task(none, json, &mut rt.stdout(), &mut rt.stderr()).status)
}

/// Does what the arguments ask for on the files and streams of the machine.
fn main(rt: HostRuntime) -> ExitCode {
    let (alloc, mut errors) = (rt.alloc(), rt.stderr());
    let arguments = match arguments(&rt) {
        Ok(arguments) => arguments,
        // No word is known then, so none asks for JSON.
        Err(error) => return end_on_host(&rt, &unread(alloc, &error), false),
    };
    let task = match read_arguments(alloc, &arguments) {
        Ok(task) => task,
        Err(none) => return end_on_host(&rt, &none, asks_for_json(&arguments)),
    };
    let Ok(output) = BufWriter::new(alloc, rt.stdout()) else {
        return ExitCode::from(refuse_memory(&mut errors).status);
    };
    say_that_it_waits(&rt, &task);
    let host = Host {
        alloc,
        files: &HostFiles::new(&rt, &arguments),
        threads: &rt,
        clock: &rt,
        progress: &progress_line(&rt, &task),
        screen: screen(&rt),
        on_terminal: explains_errors(&rt),
    };
    let streams = Streams { output, errors };
    let (end, _) = carry_out(host, rt.stdin(), &task, streams);
    // What standard error refused can be told nowhere else.
    ExitCode::from(end.status)
}
