//! The reports on errors of the texts given to a command.
ghost use Rattle.std.specs.Prelude.{◌≡◌, ℕ, List, Option, None, Result, IfOk};
ghost use Rattle.bp_text.specs.Writing.{Writes};
ghost use Rattle.bp_commands.specs.ErrorReports.{IsEndOf, ExplainsPair, ExplainsText, IsSaid, IsTextOf, IsUntold, IsConcluded, IsFileOfPair, IsFileOfText, IsObjectIn, IsObjectWith, IsReported};
ghost use Rattle.bp_advice.specs.declared.explanations.Explanation.{Explanation};
ghost use Rattle.bp_advice.specs.Explanations.{IsExplanationOf};
ghost use Rattle.bp_messages.specs.ErrorObjects.{name_in};
ghost use Rattle.bp_messages.specs.ErrorTable.{status_of};
ghost use Rattle.bp_commands.specs.Commands.{text_alone_of, Pair};
ghost use Rattle.bp_messages.specs.declared.errors.Error.{Error as SomeError};

use crate::error_contexts::{ErrorContext, sentence};
use crate::explanations::{NamedText, SecondInput, of_pair, of_program, put_explanation};
use crate::run_ends::{CommandAnswer, Explained, RunEnd, end};
use bp_advice::{Explanation, lines_of, sentence_of};
use bp_messages::{Error, put_error_object, value_in};
use bp_source::{ErrorFormat, NamedStart};
use bp_text::WriteError;
use std::alloc::{AllocError, Global};
use std::io::Write;

/// The texts given to a command.
pub(crate) trait Texts {
    ghost explains: { Self → SomeError → Explanation → Type 0 };

    ghost is_in: { Self → SomeError → Option (List ℕ) → Type 0 };

    ghost given: { Self → Pair };

    /// Returns the explanation of an error of the texts, if there is one.
    fn explanation(
        &self,
        alloc: Global,
        error: &Error,
    ) -> Result<Option<Explanation<'_>>, AllocError>
        ensures { IfOk result (IsExplanationOf (explains self.now error.now)) };

    /// Returns the name of the file that has an error.
    fn file(&self, error: &Error, context: ErrorContext<'_, '_>) -> Option<&str>
        ensures { is_in self.now error.now (name_in result) };

    /// Returns the text of the program, and the second input, or an empty text without one.
    fn texts(&self) -> (&[u8], &[u8])
        ensures { let texts = given self.now in
            (result.0.now ≡ texts.text) × (result.1.now ≡ texts.input) };
}

impl Texts for NamedText<'_> {
    ghost explains = { λ t. ExplainsText t.name.now t.text.now };

    ghost is_in = { λ t. IsFileOfText t.name.now };

    ghost given = { λ t. text_alone_of t.text.now };

    fn explanation(
        &self,
        alloc: Global,
        error: &Error,
    ) -> Result<Option<Explanation<'_>>, AllocError> {
        of_program(alloc, error, *self)
    }

    fn file(&self, error: &Error, _context: ErrorContext<'_, '_>) -> Option<&str> {
        match error {
            Error::Device | Error::Program(_) => Some(self.name),
            _ => None,
        }
    }

    fn texts(&self) -> (&[u8], &[u8]) {
        (self.text, b"")
    }
}

/// A program, and the schedule, the steps or the trace beside it, which has a start of its own or
/// this one.
#[derive(Clone, Copy)]
pub(crate) struct NamedPair<'a> {
    pub(crate) program: NamedText<'a>,
    pub(crate) input: NamedText<'a>,
    pub(crate) second_input: SecondInput,
    pub(crate) start: Option<NamedStart<'a>>,
}

impl Texts for NamedPair<'_> {
    ghost explains = { λ t.
        let given : Pair = record { text = t.program.text.now; input = t.input.text.now } in
        ExplainsPair t.second_input t.program.name.now t.input.name.now given };

    ghost is_in = { λ t. IsFileOfPair t.second_input t.program.name.now t.input.name.now };

    ghost given = { λ t. record { text = t.program.text.now; input = t.input.text.now } };

    fn explanation(
        &self,
        alloc: Global,
        error: &Error,
    ) -> Result<Option<Explanation<'_>>, AllocError> {
        of_pair(
            alloc,
            self.second_input,
            error,
            self.start,
            self.program,
            self.input,
        )
    }

    fn file(&self, error: &Error, context: ErrorContext<'_, '_>) -> Option<&str> {
        let (program, input) = (self.program.name, self.input.name);
        match (self.second_input, error) {
            (_, Error::Program(_)) => Some(program),
            (_, Error::Device) => Some(if context.is_unread(program) {
                program
            } else {
                input
            }),
            (_, Error::TooLong | Error::Schedule(_) | Error::Steps(_)) => Some(input),
            (_, Error::Trace(_) | Error::NoFailure) => Some(input),
            (SecondInput::Trace, Error::Setup(_)) => Some(input),
            _ => None,
        }
    }

    fn texts(&self) -> (&[u8], &[u8]) {
        (self.program.text, self.input.text)
    }
}

/// A bundle that was read. Its errors are reported in sentences.
#[derive(Clone, Copy)]
pub(crate) struct ReadBundle<'a> {
    pub(crate) bytes: &'a [u8],
}

impl Texts for ReadBundle<'_> {
    ghost explains = { λ _ _ _. ⊥ };

    ghost is_in = { λ _ _ file. file ≡ None };

    ghost given = { λ t. text_alone_of t.bytes.now };

    fn explanation(
        &self,
        _alloc: Global,
        _error: &Error,
    ) -> Result<Option<Explanation<'_>>, AllocError> {
        Ok(None)
    }

    fn file(&self, _error: &Error, _context: ErrorContext<'_, '_>) -> Option<&str> {
        None
    }

    fn texts(&self) -> (&[u8], &[u8]) {
        (self.bytes, b"")
    }
}

/// Returns the lines or the sentence of the explanation of an error, if there is one.
fn explaining_text<G: Texts>(
    alloc: Global,
    given: &G,
    error: &Error,
    in_lines: bool,
) -> Result<Option<Vec<u8>>, AllocError>
    ensures { IfOk result (IsTextOf in_lines (G.explains given.now error.now)) }
{
    match &given.explanation(alloc, error)? {
        Some(explanation) if in_lines => Ok(Some(lines_of(alloc, explanation)?)),
        Some(explanation) => Ok(Some(sentence_of(alloc, explanation)?)),
        None => Ok(None),
    }
}

/// Writes the object of an error with this message.
fn put_object<G: Texts, E: Write>(
    given: &G,
    error: &Error,
    context: ErrorContext<'_, '_>,
    message: &[u8],
    errors: &mut E,
) -> Result<(), WriteError>
    ensures { (object : List ℕ)
        × IsObjectWith (G.is_in given.now) (G.given given.now) error.now message.now object
        × Writes (E.contents errors.old) (E.contents errors.new) object result }
{
    let file = given.file(error, context);
    let (program, input) = given.texts();
    let value = value_in(input, error.row().detail);
    put_error_object(error, file, program, value, message, errors)
}

/// Writes the object of an error with the error in a sentence as its message.
fn put_object_with_sentence<G: Texts, E: Write>(
    alloc: Global,
    given: &G,
    error: &Error,
    context: ErrorContext<'_, '_>,
    errors: &mut E,
) -> Result<(), WriteError>
    ensures { (message : List ℕ) × (object : List ℕ)
        × IsObjectWith (G.is_in given.now) (G.given given.now) error.now message object
        × Writes (E.contents errors.old) (E.contents errors.new) object result }
{
    match sentence(alloc, error, context) {
        Ok(sentence) => put_object(given, error, context, sentence.as_slice(), errors),
        Err(_) => put_object(given, error, context, b"out of memory", errors),
    }
}

/// Returns the end of a run whose error was told by its object.
fn told_by_object(
    error: &Error,
    lines: Result<(), AllocError>,
    told: Result<(), WriteError>,
) -> RunEnd
    ensures { result ≡ record {
      status = status_of error.now;
      told = told;
      explained = record { lines = lines; told = Result.Ok tt };
    } }
{
    RunEnd {
        status: error.status(),
        told,
        explained: Explained {
            lines,
            told: Ok(()),
        },
    }
}

/// Writes the object of an error, and returns how it ends a run.
fn end_by_object<G: Texts, E: Write>(
    alloc: Global,
    given: &G,
    error: &Error,
    context: ErrorContext<'_, '_>,
    errors: &mut E,
) -> RunEnd
    ensures status { result.status ≡ status_of error.now }
    ensures untold { result.explained.told ≡ Result.Ok tt }
    ensures object { let IsObject =
        IsObjectIn (G.is_in given.now) (G.given given.now) (G.explains given.now) in
        (object : List ℕ) × IsObject result.explained error.now object
        × Writes (E.contents errors.old) (E.contents errors.new) object result.told }
{
    match explaining_text(alloc, given, error, false) {
        Ok(Some(sentence)) => {
            let told = put_object(given, error, context, sentence.as_slice(), errors);
            told_by_object(error, Ok(()), told)
        }
        Ok(None) => {
            let told = put_object_with_sentence(alloc, given, error, context, errors);
            told_by_object(error, Ok(()), told)
        }
        Err(refused) => {
            let told = put_object_with_sentence(alloc, given, error, context, errors);
            told_by_object(error, Err(refused), told)
        }
    }
}

/// Ends a run by the result of its command, with a refusal in this format.
fn report<G: Texts, T: CommandAnswer, E: Write>(
    alloc: Global,
    format: ErrorFormat,
    given: &G,
    done: &Result<T, Error>,
    context: ErrorContext<'_, '_>,
    errors: &mut E,
) -> RunEnd
    ensures ends { let IsObject =
        IsObjectIn (G.is_in given.now) (G.given given.now) (G.explains given.now) in
        IsEndOf T.rule (IsReported format (IsObject result.explained)) done.now result
        (E.contents errors.old) (E.contents errors.new) }
    ensures untold { IsUntold format done.now result.explained }
{
    match (format, done) {
        (ErrorFormat::Json, Err(error)) => end_by_object(alloc, given, error, context, errors),
        _ => end(done, errors),
    }
}

/// Ends a run by the result of its command: writes its summary, or its refusal in this format and
/// its explanation.
pub(crate) fn conclude<G: Texts, T: CommandAnswer, E: Write>(
    alloc: Global,
    format: ErrorFormat,
    given: &G,
    done: &Result<T, Error>,
    context: ErrorContext<'_, '_>,
    errors: &mut E,
) -> RunEnd
    ensures { let IsObject =
        IsObjectIn (G.is_in given.now) (G.given given.now) (G.explains given.now) in
        IsConcluded T.rule format IsObject (λ f. IsSaid (G.explains given.now f)) done.now result
        (E.contents errors.old) (E.contents errors.new) }
{
    let end = report(alloc, format, given, done, context, errors);
    match (format.is_explained(), done) {
        (true, Err(error)) => {
            let lines = explaining_text(alloc, given, error, true);
            let explained = put_explanation(alloc, &lines, error, context, errors);
            RunEnd { explained, ..end }
        }
        _ => end,
    }
}
