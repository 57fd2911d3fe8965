//! The answer to arguments that ask for no task. The error of arguments, with the control
//! characters of the arguments escaped.
ghost use Rattle.std.specs.Prelude.{◌≡◌, ◌⊎◌, ◌∷◌, map, string_bytes, IfOk, MatchResult};
ghost use Rattle.clap.specs.Words.{kind_of, subcommand_of};
ghost use Rattle.btrun.specs.Commands.{btrun_app, arguments_error, IsTaskOf};
ghost use Rattle.btrun.specs.NoTasks.{EndsBy, IsOfKind, IsPrinted, IsRefused};

use crate::arguments::commands::{error_of, task_of_arguments};
use crate::arguments::usages::{message_of, with_usage};
use bp_source::Task;
use clap::Error;
use clap::error::ErrorKind;
use std::alloc::{AllocError, Global};

/// Why arguments are refused.
#[derive(Drop)]
pub struct Refusal {
    /// The error in them, on one line.
    pub message: String,
    /// The whole text for people, with the usage of the command. Control characters other than line
    /// feeds are escaped.
    pub text: String,
}

/// The answer to arguments that ask for no task.
#[derive(Drop)]
pub enum NoTask {
    /// Memory was refused.
    Memory,
    /// The arguments ask for this text: the help or the version.
    Printed(String),
    /// The arguments are refused.
    Refused(Refusal),
}

/// Returns the first paragraph of this text, on one line.
fn sentence(alloc: Global, text: &str) -> Result<String, AllocError> {
    let mut sentence = String::new(alloc);
    for line in message_of(text).split('\n') {
        if !sentence.is_empty() {
            sentence.push(' ')?;
        }
        sentence.push_str(line.trim())?;
    }
    Ok(sentence)
}

/// Returns the text that the arguments ask for.
fn printed(alloc: Global, error: &Error) -> Result<NoTask, AllocError>
    ensures { IfOk result IsPrinted }
{
    Ok(NoTask::Printed(format!(in alloc; "{error}")?))
}

/// Returns why arguments are refused, by their error.
fn refused(alloc: Global, error: &Error) -> Result<NoTask, AllocError>
    ensures { IfOk result IsRefused }
{
    let text = format!(in alloc; "{error}")?;
    let text = escaped(alloc, text.as_str())?;
    let message = sentence(alloc, text.as_str())?;
    Ok(NoTask::Refused(Refusal { message, text }))
}

/// Returns the answer, if there is memory for it.
fn said_or_memory(said: Result<NoTask, AllocError>) -> NoTask
    ensures { MatchResult said (λ none. result ≡ none) (λ _. result ≡ NoTask.Memory) }
{
    match said {
        Ok(none) => none,
        Err(_) => NoTask::Memory,
    }
}

/// Returns the answer to the error of arguments.
fn no_task(alloc: Global, arguments: &[String], error: Error) -> NoTask
    ensures { (result ≡ NoTask.Memory) ⊎ IsOfKind (kind_of error) result }
{
    match error.kind() {
        ErrorKind::OutOfMemory => NoTask::Memory,
        ErrorKind::DisplayHelp | ErrorKind::DisplayVersion => {
            said_or_memory(printed(alloc, &error))
        }
        _ => said_or_memory(refused(alloc, &error_on_lines(alloc, arguments, error))),
    }
}

/// Reads the arguments. The first is the program's name.
///
/// # Errors The text of help or version if the arguments ask for it, why they are refused, or that
/// memory was refused.
pub fn read_arguments<'a>(alloc: Global, arguments: &'a [String]) -> Result<Task<'a>, NoTask>
    ensures task { IfOk result
        (λ t. IsTaskOf (subcommand_of btrun_app (map string_bytes arguments.now)) t) }
    ensures refusal { EndsBy (arguments_error (map string_bytes arguments.now)) result }
{
    match task_of_arguments(alloc, arguments) {
        Ok(task) => Ok(task),
        Err(error) => Err(no_task(alloc, arguments, error)),
    }
}

/// Returns the answer to arguments that are not UTF-8.
pub fn not_utf8(alloc: Global) -> NoTask
    ensures { (result ≡ NoTask.Memory) ⊎ IsRefused result }
{
    match error_of(alloc, ErrorKind::InvalidValue, "a word is not UTF-8") {
        Ok(error) => said_or_memory(refused(alloc, &error)),
        Err(_) => NoTask::Memory,
    }
}

/// Escapes the line feeds of a word.
fn on_one_line(alloc: Global, word: &str) -> Result<String, AllocError> {
    let mut line = String::new(alloc);
    for character in word.chars() {
        if character == '\n' {
            line.push_str("\\n")?;
        } else {
            line.push(character)?;
        }
    }
    Ok(line)
}

/// Escapes the line feeds of the arguments.
fn all_on_one_line(alloc: Global, arguments: &[String]) -> Result<Vec<String>, AllocError> {
    let mut lines = Vec::new(alloc);
    for word in arguments {
        lines.push(on_one_line(alloc, word)?)?;
    }
    Ok(lines)
}

/// Returns the error of arguments, with their line feeds escaped if the error is the same then.
/// After a bad value it has the usage of the command. If memory is refused it is unchanged.
pub fn error_on_lines(alloc: Global, arguments: &[String], error: Error) -> Error {
    let Ok(lines) = all_on_one_line(alloc, arguments) else {
        return error;
    };
    let Err(other) = task_of_arguments(alloc, &lines) else {
        return error;
    };
    if other.kind() == error.kind() {
        return with_usage(alloc, &lines, other);
    }
    error
}

/// Returns whether a character turns the direction of the text around it.
fn is_turning(character: char) -> bool {
    matches!(character, '\u{202a}'..='\u{202e}' | '\u{2066}'..='\u{2069}')
}

/// Escapes the control characters of a text, and those that turn its direction, so that they have
/// no effect on a terminal. Line feeds stay, since a text has lines; `error_on_lines` escapes those
/// of arguments.
pub fn escaped(alloc: Global, text: &str) -> Result<String, AllocError> {
    let mut plain = String::new(alloc);
    for character in text.chars() {
        if character.is_control() && character != '\n' || is_turning(character) {
            let escape = format!(in alloc; "{}", character.escape_default())?;
            plain.push_str(escape.as_str())?;
        } else {
            plain.push(character)?;
        }
    }
    Ok(plain)
}
