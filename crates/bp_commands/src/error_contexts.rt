//! The part of an error's sentence on the command line: the file, or the option. The sentence of an
//! error alone.
use crate::inputs::FailedFile;
use bp_code::ProgramError;
use bp_explain::{global_sentence, start_sentence, variable_sentence};
use bp_machine::limits::{MAX_CALLS, MAX_CONTEXTS};
use bp_machine::{SetupError, Start};
use bp_messages::Error;
use bp_run::limits::{MAX_RING, MAX_TURN};
use bp_source::limits::MAX_JOBS;
use bp_source::{NamedStart, RunOptions, TestOptions};
use bp_syntax::ReadError;
use bp_syntax::limits::TEXT_LIMIT;
use bp_text::push_displayed;
use bp_view::watched_names;
use std::alloc::{AllocError, Global};

/// The numbers among the options of a command that have a range, apart from those of its start.
#[derive(Clone, Copy)]
pub struct OptionNumbers {
    turn: Option<u32>,
    ring: Option<u32>,
    jobs: Option<u32>,
}

impl OptionNumbers {
    /// There are none.
    pub(crate) const NONE: OptionNumbers = OptionNumbers {
        turn: None,
        ring: None,
        jobs: None,
    };

    pub(crate) fn of_run(options: &RunOptions) -> OptionNumbers {
        OptionNumbers {
            turn: Some(options.turn),
            ring: Some(options.ring),
            jobs: None,
        }
    }

    pub(crate) fn of_test(options: &TestOptions) -> OptionNumbers {
        OptionNumbers {
            turn: None,
            ring: None,
            jobs: Some(options.jobs),
        }
    }
}

/// Returns the sentence on the option whose number is out of its range, with that range.
fn of_numbers(alloc: Global, start: &Start, numbers: OptionNumbers) -> Option<String> {
    let (contexts, calls) = (start.contexts, start.calls);
    let (turn, ring) = (numbers.turn.unwrap_or(1), numbers.ring.unwrap_or(1));
    let jobs = numbers.jobs.unwrap_or(0);
    let sentence = if contexts > MAX_CONTEXTS {
        format!(in alloc; "--contexts {contexts}: at most {MAX_CONTEXTS} are allowed")
    } else if calls == 0 || calls > MAX_CALLS {
        format!(in alloc; "--calls {calls}: a thread has 1 to {MAX_CALLS} calls")
    } else if turn == 0 || turn > MAX_TURN {
        format!(in alloc; "--turn {turn}: a turn has 1 to {MAX_TURN} calls")
    } else if ring == 0 || ring > MAX_RING {
        format!(in alloc; "--ring {ring}: the ring holds 1 to {MAX_RING} calls")
    } else if jobs > MAX_JOBS {
        format!(in alloc; "--jobs {jobs}: at most {MAX_JOBS} are allowed")
    } else {
        return None;
    };
    sentence.ok()
}

/// Returns the sentence on the file that could not be opened or read, with the system's reason.
fn of_file(alloc: Global, unread: Option<FailedFile<'_>>) -> Option<String> {
    let file = unread?;
    let (name, verb) = (file.name, file.verb());
    let reason = file.reason(alloc)?;
    format!(in alloc; "cannot {verb} '{name}': {reason}").ok()
}

/// A file and the most bytes that it may have.
#[derive(Clone, Copy)]
pub(crate) struct Limited<'a> {
    pub(crate) name: &'a str,
    pub(crate) limit: usize,
}

/// Returns the sentence on a file that has more bytes than its limit, with commas in the number.
fn of_limit(alloc: Global, file: Limited<'_>) -> Option<String> {
    let Limited { name, limit } = file;
    let (millions, thousands, ones) = (limit / 1_000_000, limit / 1_000 % 1_000, limit % 1_000);
    if millions > 0 {
        format!(in alloc; "{name} has over {millions},{thousands:03},{ones:03} bytes").ok()
    } else {
        format!(in alloc; "{name} has over {thousands},{ones:03} bytes").ok()
    }
}

/// The sentence on a bundle without a program.
const EMPTY_BUNDLE: &str = "standard input has no program; without a command btrun reads a \
    program, a line '%' and a schedule ('btrun --help' shows the commands)";

/// The known facts of the command line of a run.
#[derive(Clone, Copy)]
pub(crate) struct ErrorContext<'a, 't> {
    pub(crate) unread: Option<FailedFile<'a>>,
    pub(crate) numbers: OptionNumbers,
    /// The text of the program, the start of its run, and the names of watched variables.
    pub(crate) text: &'t [u8],
    pub(crate) start: Option<NamedStart<'a>>,
    pub(crate) watch: Option<&'a str>,
    /// The file of the program, and that of the second input.
    pub(crate) program: &'a str,
    pub(crate) input: Option<Limited<'a>>,
    /// Whether the program is that of a bundle.
    pub(crate) is_bundle: bool,
}

impl ErrorContext<'_, '_> {
    /// Returns whether the file of this name could not be opened or read.
    pub(crate) fn is_unread(&self, name: &str) -> bool {
        matches!(self.unread, Some(unread) if unread.name == name)
    }

    /// Returns the sentence on an error of a file or of a number, if there is more to say.
    fn of_files(&self, alloc: Global, error: &Error) -> Option<String> {
        match error {
            Error::Device => of_file(alloc, self.unread),
            Error::Program(ProgramError::Read(ReadError::TooLong)) => {
                let (name, limit) = (self.program, TEXT_LIMIT);
                of_limit(alloc, Limited { name, limit })
            }
            Error::TooLong => of_limit(alloc, self.input?),
            Error::Setup(SetupError::OutOfRange) => {
                of_numbers(alloc, self.start?.start, self.numbers)
            }
            _ => None,
        }
    }

    /// Returns the sentence on the part of the start that does not fit the program.
    fn of_start(&self, alloc: Global, error: SetupError) -> Option<Vec<u8>> {
        let sentence = start_sentence(alloc, self.text, self.start?.start, error).ok()?;
        if sentence.is_empty() {
            None
        } else {
            Some(sentence)
        }
    }

    /// Returns the sentence on the name of this number, from 1: a watched variable, or else a
    /// global with its bit. A command has names in one option, and nothing of the program has this
    /// one.
    fn of_name(&self, alloc: Global, number: u64) -> Option<Vec<u8>> {
        let place = (number as usize).checked_sub(1)?;
        if self.watch.is_none() {
            return global_sentence(alloc, self.text, self.start?.named.name(place)?).ok();
        }
        let names = watched_names(alloc, self.watch).ok()?;
        variable_sentence(alloc, self.text, names.get(place)?).ok()
    }

    /// Returns the sentence that replaces the error's own, if there is more to say.
    pub(crate) fn sentence(&self, alloc: Global, error: &Error) -> Option<Vec<u8>> {
        if let Some(sentence) = self.of_files(alloc, error) {
            return Some(sentence.into_bytes());
        }
        match error {
            Error::Setup(_) if self.is_bundle && self.text.is_empty() => {
                Some(String::from_str(alloc, EMPTY_BUNDLE).ok()?.into_bytes())
            }
            Error::Setup(error) => self.of_start(alloc, *error),
            Error::NoVariable(number) => self.of_name(alloc, *number),
            _ => None,
        }
    }
}

/// Returns the error in a sentence, with the known facts of the command line.
pub(crate) fn sentence(
    alloc: Global,
    error: &Error,
    context: ErrorContext<'_, '_>,
) -> Result<Vec<u8>, AllocError> {
    if let Some(sentence) = context.sentence(alloc, error) {
        return Ok(sentence);
    }
    let sentence = format!(in alloc; "{error}")?;
    Ok(sentence.into_bytes())
}

/// Returns that sentence for a terminal, with `?` for each byte of a control character.
pub(crate) fn shown_sentence(
    alloc: Global,
    error: &Error,
    context: ErrorContext<'_, '_>,
) -> Result<Vec<u8>, AllocError> {
    let sentence = sentence(alloc, error, context)?;
    let mut shown = Vec::new(alloc);
    push_displayed(&mut shown, sentence.as_slice())?;
    Ok(shown)
}
