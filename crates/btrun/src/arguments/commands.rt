//! The arguments of the command line.
ghost use Rattle.std.specs.Prelude.{◌≡◌, ◌∷◌, map, string_bytes, IfOk};
ghost use Rattle.clap.specs.Words.{FailsBy, app_of, found_of, kind_of, rows_of, subcommand_of, subcommand_rows_of};
ghost use Rattle.btrun.specs.Commands.{btrun_app, command_app, program_app, with_commands, arguments_error, IsOurs, IsTaskOf, IsTaskOfCommand, ReadsAlike};
ghost use Rattle.btrun.specs.Misuses.{misuse_kind};

use crate::arguments::check::check_arguments;
use crate::arguments::code::code_arguments;
use crate::arguments::confirm::confirm_arguments;
use crate::arguments::drive::drive_arguments;
use crate::arguments::explore::explore_arguments;
use crate::arguments::misuses::{Misuse, misuse_kind, misuse_of, misuse_text};
use crate::arguments::run::run_arguments;
use crate::arguments::show::show_arguments;
use crate::arguments::table::{NAMED, Named, command_named, with_help};
use crate::arguments::test::test_arguments;
use crate::arguments::trace::trace_arguments;
use crate::arguments::version::version;
use bp_source::Task;
use clap::error::ErrorKind;
use clap::{ArgMatches, Command, Error};
use std::alloc::{AllocError, Global};

/// The text of `--help` after the commands.
const NOTES: &str = "\
    Without a command standard input is a bundle: a program, a line '%', and a schedule of lines\n\
    'THREAD BIT'. One thread begins with 'main', all globals are 0, and at most 2 contexts and\n\
    1000 calls are allowed. The trace of the run is printed. A FILE '-' is standard input.\n\n\
    Examples:\n  btrun < FILE\n  btrun check FILE\n  btrun code FILE\n  \
    btrun drive FILE SCHEDULE\n  btrun confirm FILE STEPS\n  btrun run FILE\n  btrun test FILE\n  \
    btrun explore FILE\n  btrun replay FILE TRACE\n  btrun show FILE TRACE\n  \
    btrun migrate FILE TRACE\n  btrun shrink FILE TRACE\n\n\
    Exit status:\n  0  done, and no assertion failed\n  1  an assertion failed\n  \
    2  the input or the arguments were refused\n  3  memory, a device or the output failed";

/// Makes the part of the program before the commands.
fn program<'a>(alloc: Global) -> Command<'a>
    ensures { app_of result ≡ program_app }
{
    Command::new(alloc, "btrun")
        .version(version())
        .about(
            "Run concurrent Boolean programs. \
            Without a command, read a bundle from standard input and print its trace",
        )
        .after_help(NOTES)
}

/// Makes the program with these commands.
fn program_with<'a>(alloc: Global, commands: &[Named]) -> Result<Command<'a>, AllocError>
    ensures { let app = with_commands program_app (map command_app commands.now) in
        IfOk result (λ c. app_of c ≡ app) }
{
    let mut program = program(alloc);
    for command in commands {
        program = program.subcommand(with_help(alloc, *command)?)?;
    }
    Ok(program)
}

/// Makes the program with the commands that these arguments may ask for: all, or only the one that
/// the first argument after the program's name names. To make all takes most of a start.
fn program_for<'a>(alloc: Global, arguments: &[String]) -> Result<Command<'a>, AllocError>
    ensures { let arguments = map string_bytes arguments.now in
        IfOk result (λ c. ReadsAlike (app_of c) btrun_app arguments) }
{
    if let Some(name) = arguments.get(1) {
        if let Some(command) = command_named(name.as_str()) {
            return program_with(alloc, &[command]);
        }
    }
    program_with(alloc, &NAMED)
}

/// Reads the task of the arguments of a command.
fn task_named<'a>(
    alloc: Global,
    command: Named,
    arguments: &ArgMatches<'a>,
) -> Result<Task<'a>, AllocError>
    ensures { let rows = rows_of (found_of arguments.now) in
        IfOk result (IsTaskOfCommand command rows) }
{
    match command {
        Named::Check => Ok(Task::Check(check_arguments(arguments))),
        Named::Code => Ok(Task::Code(code_arguments(arguments))),
        Named::Drive => Ok(Task::Drive(drive_arguments(alloc, arguments)?)),
        Named::Confirm => Ok(Task::Confirm(confirm_arguments(alloc, arguments)?)),
        Named::Run => Ok(Task::Run(run_arguments(alloc, arguments)?)),
        Named::Test => Ok(Task::Test(test_arguments(alloc, arguments)?)),
        Named::Explore => Ok(Task::Explore(explore_arguments(alloc, arguments)?)),
        Named::Replay => Ok(Task::Replay(trace_arguments(arguments))),
        Named::Show => Ok(Task::Show(show_arguments(arguments))),
        Named::Migrate => Ok(Task::Migrate(trace_arguments(arguments))),
        Named::Shrink => Ok(Task::Shrink(trace_arguments(arguments))),
    }
}

/// Reads the task of the matched arguments.
fn task_of<'a>(alloc: Global, matches: &ArgMatches<'a>) -> Result<Task<'a>, AllocError>
    requires { IsOurs (subcommand_rows_of matches.now) }
    ensures { IfOk result (IsTaskOf (subcommand_rows_of matches.now)) }
{
    let Some((name, arguments)) = matches.subcommand() else {
        return Ok(Task::Bundle);
    };
    match command_named(name) {
        Some(command) => task_named(alloc, command, arguments),
        None => Ok(Task::Bundle),
    }
}

/// Reads the task of the arguments. The first argument is the program's name. The error also has
/// the texts of help and version.
pub(crate) fn task_of_arguments<'a>(
    alloc: Global,
    arguments: &'a [String],
) -> Result<Task<'a>, Error>
    ensures task { IfOk result
        (λ t. IsTaskOf (subcommand_of btrun_app (map string_bytes arguments.now)) t) }
    ensures refusal { FailsBy (arguments_error (map string_bytes arguments.now)) result }
{
    let program = program_for(alloc, arguments)?;
    let matches = program.try_get_matches_from(arguments)?;
    if let Some(misuse) = misuse_of(&matches) {
        return Err(misuse_error(alloc, misuse)?);
    }
    Ok(task_of(alloc, &matches)?)
}

/// Makes an error of this kind with this message and the usage of the program.
pub(crate) fn error_of(alloc: Global, kind: ErrorKind, message: &str) -> Result<Error, AllocError>
    ensures { IfOk result (λ e. kind_of e ≡ kind) }
{
    program_with(alloc, &NAMED)?.error(kind, message)
}

/// Makes the error of options that `clap` accepts one by one.
fn misuse_error(alloc: Global, misuse: Misuse) -> Result<Error, AllocError>
    ensures { IfOk result (λ e. kind_of e ≡ misuse_kind misuse) }
{
    let text = misuse_text(alloc, misuse)?;
    error_of(alloc, misuse_kind(misuse), text.as_str())
}
