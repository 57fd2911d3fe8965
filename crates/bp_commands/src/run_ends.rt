//! How a run ends: the line on standard error, and the exit status. The end of a command that wrote
//! through a buffer.
ghost use Rattle.std.specs.Prelude.{◌≡◌, None};
ghost use Rattle.std.specs.Io.Buffered.{writer_contents};
ghost use Rattle.bp_messages.specs.ErrorTable.{exit_status};
ghost use Rattle.bp_commands.specs.ErrorReports.{AnswerRule, IsEndOf, HasErrorLine, HasSummary, done, nothing_explained, of_report, of_run, report_failed};
ghost use Rattle.bp_commands.specs.Jobs.{IsFlushed};

use bp_machine::{Outcome, Report};
use bp_messages::{Error, exit_status, show_error};
use bp_run::RunReport;
use bp_text::WriteError;
use std::alloc::AllocError;
use std::io::{BufWriter, Write};

/// The result of a command.
pub trait CommandAnswer {
    ghost rule: { AnswerRule Self };

    /// Returns the exit status of a run with this result.
    fn status(&self) -> u8
        ensures { result ≡ rule.status self.now };

    /// Writes the summary, if there is one.
    fn summarize<E: Write>(&self, errors: &mut E) -> Result<(), WriteError>
        ensures { HasSummary (rule.summary self.now)
            (E.contents errors.old) (E.contents errors.new) result };
}

/// Returns the exit status of a run that ends with this report.
fn status_of_report(report: &Report) -> u8
    ensures { result ≡ exit_status (report_failed report.now) None }
{
    exit_status(matches!(report.outcome, Outcome::Failed { .. }), None)
}

impl CommandAnswer for () {
    ghost rule = { done };

    fn status(&self) -> u8 {
        exit_status(false, None)
    }

    fn summarize<E: Write>(&self, _errors: &mut E) -> Result<(), WriteError> {
        Ok(())
    }
}

impl CommandAnswer for Report {
    ghost rule = { of_report };

    fn status(&self) -> u8 {
        status_of_report(self)
    }

    fn summarize<E: Write>(&self, _errors: &mut E) -> Result<(), WriteError> {
        Ok(())
    }
}

impl CommandAnswer for RunReport {
    ghost rule = { of_run };

    fn status(&self) -> u8 {
        status_of_report(&self.report)
    }

    fn summarize<E: Write>(&self, _errors: &mut E) -> Result<(), WriteError> {
        Ok(())
    }
}

/// The outcome of the explanation of a refusal.
#[derive(Clone, Copy)]
pub struct Explained {
    /// Whether there was memory for its lines, or for its sentence in an object. Otherwise the
    /// sentence of the error is in its place.
    pub lines: Result<(), AllocError>,
    /// Whether standard error has all of it.
    pub told: Result<(), WriteError>,
}

impl Explained {
    /// There was nothing to explain.
    pub(crate) const NOTHING: Explained = Explained {
        lines: Ok(()),
        told: Ok(()),
    };
}

/// The end of a run, and whether its text on standard error was written.
#[derive(Clone, Copy)]
pub struct RunEnd {
    /// The exit status. It does not depend on the other parts.
    pub status: u8,
    /// Whether standard error has all of the summary, or of the line or object of the error.
    pub told: Result<(), WriteError>,
    pub explained: Explained,
}

/// Ends a run by the result of its command: writes its summary or the line of its error, if there
/// is one. Nothing is explained.
pub fn end<T: CommandAnswer, E: Write>(done: &Result<T, Error>, errors: &mut E) -> RunEnd
    ensures ends { IsEndOf T.rule HasErrorLine done.now result
        (E.contents errors.old) (E.contents errors.new) }
    ensures explained { result.explained ≡ nothing_explained }
{
    let (told, status) = match done {
        Ok(answer) => (answer.summarize(errors), answer.status()),
        Err(error) => (show_error(error, errors), error.status()),
    };
    RunEnd {
        status,
        told,
        explained: Explained::NOTHING,
    }
}

/// Flushes a buffer after a command's result, and returns the output. If bytes are lost, the result
/// is that the output could not be written, whatever the command returned.
pub fn flushed<T: Drop, W: Write + Drop>(
    done: Result<T, Error>,
    out: BufWriter<W>,
) -> (Result<T, Error>, W)
    ensures { let held = writer_contents W.contents out in
        IsFlushed done held result.0 (W.contents result.1) }
{
    match out.into_inner() {
        Ok(output) => (done, output),
        Err(error) => {
            let (output, lost) = error.into_inner().into_parts();
            if lost.is_empty() {
                return (done, output);
            }
            (Err(Error::Write), output)
        }
    }
}
