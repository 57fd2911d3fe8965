//! The messages on arguments that are refused: with the usage of the command, and the likely
//! intent.
ghost use Rattle.std.specs.Prelude.{◌≡◌, map, string_bytes};
ghost use Rattle.btrun.specs.NoTasks.{asks_for_json};

use crate::arguments::commands::error_of;
use crate::arguments::table::{command_named, with_help};
use bp_machine::limits::{MAX_CALLS, MAX_CONTEXTS};
use bp_source::limits::MAX_JOBS;
use clap::Error;
use clap::error::ErrorKind;
use std::alloc::{AllocError, Global};

/// Returns whether a word asks for JSON: one that comes before a word `--`.
pub fn asks_for_json(arguments: &[String]) -> bool
    ensures { result ≡ asks_for_json (map string_bytes arguments.now) }
{
    for word in arguments {
        if word.as_str() == "--" {
            return false;
        }
        if word.as_str() == "--json" {
            return true;
        }
    }
    false
}

/// Returns the first paragraph of the text of an error, without the word before it.
pub fn message_of(text: &str) -> &str {
    let message = text.strip_prefix("error: ").unwrap_or(text);
    match message.split_once("\n\n") {
        Some((first, _)) => first,
        None => message,
    }
}

/// Returns the name of the program, by the path by which it was called.
fn program_of(path: &str) -> &str {
    match path.rsplit_once('/') {
        Some((_, name)) => name,
        None => path,
    }
}

/// Makes the error of this kind with this message and the usage of the command that the arguments
/// name, if they name one.
fn error_with_usage(
    alloc: Global,
    arguments: &[String],
    kind: ErrorKind,
    message: &str,
) -> Result<Option<Error>, AllocError> {
    let (Some(path), Some(name)) = (arguments.first(), arguments.get(1)) else {
        return Ok(None);
    };
    let Some(command) = command_named(name.as_str()) else {
        return Ok(None);
    };
    let called = format!(in alloc; "{} {}", program_of(path.as_str()), name.as_str())?;
    let mut command = with_help(alloc, command)?.bin_name(called.as_str())?;
    Ok(Some(command.error(kind, message)?))
}

/// Returns the error with the usage of the command that the arguments name, if they name one. That
/// of a value that is not a number gives the range of the option.
fn same_with_usage(
    alloc: Global,
    arguments: &[String],
    error: &Error,
) -> Result<Option<Error>, AllocError> {
    let text = format!(in alloc; "{error}")?;
    let message = message_of(text.as_str());
    match of_value(alloc, message)? {
        Some(said) => error_with_usage(alloc, arguments, error.kind(), said.as_str()),
        None => error_with_usage(alloc, arguments, error.kind(), message),
    }
}

/// Returns an error that says more than that of these arguments, if there is more to say.
fn error_that_says_more(
    alloc: Global,
    arguments: &[String],
    error: &Error,
) -> Result<Option<Error>, AllocError> {
    match error.kind() {
        ErrorKind::InvalidValue | ErrorKind::ValueValidation | ErrorKind::ArgumentConflict => {
            same_with_usage(alloc, arguments, error)
        }
        ErrorKind::UnknownArgument => match of_number(alloc, arguments)? {
            Some(said) => error_with_usage(alloc, arguments, error.kind(), said.as_str()),
            None => Ok(None),
        },
        ErrorKind::InvalidSubcommand => match of_file(alloc, arguments)? {
            Some(said) => Ok(Some(error_of(alloc, error.kind(), said.as_str())?)),
            None => Ok(None),
        },
        _ => Ok(None),
    }
}

/// Returns the error of arguments. That of a bad value, or of options that clash, also has the
/// usage of the command that the arguments name. That of a number below 0 gives the range of its
/// option, and that of a program's file in place of a command the likely intent. If memory is
/// refused it is unchanged.
pub fn with_usage(alloc: Global, arguments: &[String], error: Error) -> Error {
    match error_that_says_more(alloc, arguments, &error) {
        Ok(Some(other)) => other,
        _ => error,
    }
}

/// The ending of the name of a program's file.
const PROGRAM_ENDING: &str = ".bp";

/// Returns whether the word is a number below 0.
fn is_below_zero(word: &str) -> bool {
    let digits = word.strip_prefix("-").unwrap_or("");
    !digits.is_empty() && digits.bytes().all(|byte| byte.is_ascii_digit())
}

/// Returns the range of an option.
fn range_of(alloc: Global, option: &str) -> Result<String, AllocError> {
    match option {
        "--contexts" => format!(in alloc; "{option} takes 0 to {MAX_CONTEXTS}"),
        "--calls" => format!(in alloc; "{option} takes 1 to {MAX_CALLS}"),
        "--jobs" => format!(in alloc; "{option} takes 0 to {MAX_JOBS}"),
        "--turn" | "--ring" => format!(in alloc; "{option} takes a number from 1"),
        _ => format!(in alloc; "{option} takes a number from 0"),
    }
}

/// Returns the message on the first option that has a number below 0 as its value.
pub fn of_number(alloc: Global, arguments: &[String]) -> Result<Option<String>, AllocError> {
    let mut last = "";
    for word in arguments {
        if last.starts_with("--") && is_below_zero(word.as_str()) {
            return Ok(Some(range_of(alloc, last)?));
        }
        last = word.as_str();
    }
    Ok(None)
}

/// The reasons for which `clap` does not read a value as a number.
const NO_NUMBER: [&str; 3] = [
    "invalid digit found in string",
    "cannot parse integer from empty string",
    "number too large to fit in target type",
];

/// Returns the message on a value that is not a number of its option, if this message of `clap` is
/// on one: the range of the option replaces the reason of `clap`.
pub fn of_value(alloc: Global, message: &str) -> Result<Option<String>, AllocError> {
    let Some((front, reason)) = message.rsplit_once("': ") else {
        return Ok(None);
    };
    let Some((_, named)) = front.rsplit_once(" '") else {
        return Ok(None);
    };
    let is_out_of_range = reason.split_once(" is not in ").is_some();
    if !is_out_of_range && !NO_NUMBER.iter().any(|it| *it == reason) {
        return Ok(None);
    }
    let option = match named.split_once(' ') {
        Some((option, _)) => option,
        None => named,
    };
    let range = range_of(alloc, option)?;
    Ok(Some(format!(in alloc; "{front}': {range}")?))
}

/// Returns the message on a program's file in place of a command.
pub fn of_file(alloc: Global, arguments: &[String]) -> Result<Option<String>, AllocError> {
    match arguments.get(1) {
        Some(file) if file.as_str().ends_with(PROGRAM_ENDING) => {
            let file = file.as_str();
            let said = format!(in alloc;
                "'{file}' is no command; did you mean 'btrun check {file}'?"
            )?;
            Ok(Some(said))
        }
        _ => Ok(None),
    }
}
