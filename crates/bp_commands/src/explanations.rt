//! The text that `--explain` adds after the line of an error, for people.
ghost use Rattle.std.specs.Prelude.{◌≡◌, ℕ, List, IfOk};
ghost use Rattle.bp_advice.specs.Explanations.{IsExplanationOf};
ghost use Rattle.bp_text.specs.Writing.{Writes};
ghost use Rattle.bp_commands.specs.ErrorReports.{ExplainsInput, ExplainsPair, ExplainsText, IsSentenceLine, IsSaidFor};
ghost use Rattle.bp_commands.specs.Commands.{limit_of, Pair};

use crate::error_contexts::{ErrorContext, shown_sentence};
use crate::programs::start_of_run;
use crate::run_ends::Explained;
use bp_advice::{Explanation, explain_program};
use bp_explain::{explain_schedule, explain_steps, explain_trace};
use bp_machine::Start;
use bp_messages::Error;
use bp_source::{NamedBits, NamedStart};
use bp_text::Piece::Bytes;
use bp_text::{WriteError, first_line, put, put_pieces};
use bp_trace::ReplayError;
use bp_trace::limits::{MAX_SCHEDULE, MAX_TRACE};
use std::alloc::{AllocError, Global};
use std::io::Write;

/// A text that a command has read, and the name of its file.
#[derive(Clone, Copy)]
pub(crate) struct NamedText<'a> {
    pub(crate) name: &'a str,
    pub(crate) text: &'a [u8],
}

/// The kind of the second input.
#[derive(Clone, Copy)]
pub enum SecondInput {
    Schedule,
    Steps,
    Trace,
}

impl SecondInput {
    /// Returns the most bytes of an input of this kind.
    pub(crate) fn limit(self) -> usize
        ensures { result ≡ limit_of self }
    {
        match self {
            SecondInput::Schedule | SecondInput::Steps => MAX_SCHEDULE,
            SecondInput::Trace => MAX_TRACE,
        }
    }
}

/// Returns the explanation of an error of a program, if there is one.
pub(crate) fn of_program<'a>(
    alloc: Global,
    error: &Error,
    program: NamedText<'a>,
) -> Result<Option<Explanation<'a>>, AllocError>
    ensures { let Explains = ExplainsText program.entry.name.now program.entry.text.now in
        IfOk result (IsExplanationOf (Explains error.now)) }
{
    match error {
        Error::Program(error) => explain_program(alloc, program.name, program.text, error),
        _ => Ok(None),
    }
}

/// Returns the explanation of an error of the second input, if there is one. A schedule and steps
/// are of a run from this start.
fn of_input<'a>(
    alloc: Global,
    second_input: SecondInput,
    error: &Error,
    start: &Start,
    program: NamedText<'_>,
    input: NamedText<'a>,
) -> Result<Option<Explanation<'a>>, AllocError>
    ensures { let Explains = ExplainsInput second_input input.entry.name.now input.entry.text.now in
        IfOk result (IsExplanationOf (Explains error.now)) }
{
    let (text, name, lines) = (program.text, input.name, input.text);
    match (second_input, error) {
        (SecondInput::Schedule, Error::Schedule(error)) => {
            explain_schedule(alloc, text, start, name, lines, error)
        }
        (SecondInput::Steps, Error::Steps(error)) => {
            explain_steps(alloc, program.name, text, start, name, lines, error)
        }
        (SecondInput::Trace, Error::Trace(error)) => explain_trace(alloc, text, name, lines, error),
        (SecondInput::Trace, Error::Setup(error)) => {
            let error = ReplayError::Setup(*error);
            explain_trace(alloc, text, name, lines, &error)
        }
        _ => Ok(None),
    }
}

/// Returns the explanation of an error of a program or of its second input, if there is one.
/// Without a start, the defaults apply.
pub(crate) fn of_pair<'a>(
    alloc: Global,
    second_input: SecondInput,
    error: &Error,
    start: Option<NamedStart<'_>>,
    program: NamedText<'a>,
    input: NamedText<'a>,
) -> Result<Option<Explanation<'a>>, AllocError>
    ensures { let given : Pair =
        record { text = program.entry.text.now; input = input.entry.text.now } in
        let Explains =
        ExplainsPair second_input program.entry.name.now input.entry.name.now given in
        IfOk result (IsExplanationOf (Explains error.now)) }
{
    if let Error::Program(_) = error {
        return of_program(alloc, error, program);
    }
    let (defaults, none) = (Start::defaults(alloc)?, NamedBits::none(alloc));
    let asked = start.unwrap_or(NamedStart {
        start: &defaults,
        named: &none,
    });
    match &start_of_run(alloc, program.text, asked)? {
        Some(start) => of_input(alloc, second_input, error, start, program, input),
        None => of_input(alloc, second_input, error, asked.start, program, input),
    }
}

/// Writes the sentence of an error on one line.
fn put_line<E: Write>(sentence: &[u8], errors: &mut E) -> Result<(), WriteError>
    ensures { (said : List ℕ) × IsSentenceLine said
        × Writes (E.contents errors.old) (E.contents errors.new) said result }
{
    put_pieces(errors, &[Bytes(first_line(sentence)), Bytes(b"\n")])
}

/// Writes the error in a sentence, with the known facts of the command line.
fn put_sentence<E: Write>(
    alloc: Global,
    error: &Error,
    context: ErrorContext<'_, '_>,
    errors: &mut E,
) -> Result<(), WriteError>
    ensures { (said : List ℕ) × IsSentenceLine said
        × Writes (E.contents errors.old) (E.contents errors.new) said result }
{
    match shown_sentence(alloc, error, context) {
        Ok(sentence) => put_line(sentence.as_slice(), errors),
        Err(_) => put_line(b"out of memory", errors),
    }
}

/// Writes the lines that explain an error; or else the error in a sentence, if there are none or no
/// memory for them.
pub(crate) fn put_explanation<E: Write>(
    alloc: Global,
    lines: &Result<Option<Vec<u8>>, AllocError>,
    error: &Error,
    context: ErrorContext<'_, '_>,
    errors: &mut E,
) -> Explained
    ensures { (said : List ℕ) × IsSaidFor lines.now result said
        × Writes (E.contents errors.old) (E.contents errors.new) said result.told }
{
    match lines {
        Ok(Some(lines)) => Explained {
            lines: Ok(()),
            told: put(errors, lines),
        },
        Ok(None) => Explained {
            lines: Ok(()),
            told: put_sentence(alloc, error, context, errors),
        },
        Err(_) => Explained {
            lines: Err(AllocError),
            told: put_sentence(alloc, error, context, errors),
        },
    }
}
