//! Explanations of the errors of traces. The number of accepted attempts of a refused trace.
ghost use Rattle.std.specs.Prelude.{IfOk};
ghost use Rattle.bp_advice.specs.Explanations.{ExplainsLine, IsExplanationOf};
ghost use Rattle.bp_explain.specs.ExplainedErrors.{ExplainsTrace};

use crate::heads::{head_of, line_of_setup};
use crate::sources::source_of;
use bp_advice::{Explanation, Place, explained, number_at_front};
use bp_flat::Code;
use bp_text::{first_line, position_of, push_line, push_place, take_line, text_from_line};
use bp_trace::{AcceptedTrace, EndCounts, Head, ReplayError, Version, accepted_trace};
use std::alloc::{AllocError, Global};

/// A line of a trace of the program of a text, and its error.
#[derive(Clone, Copy)]
pub(crate) struct RefusedLine<'a, 't> {
    pub(crate) alloc: Global,
    pub(crate) program: &'a [u8],
    pub(crate) trace: &'a [u8],
    /// The head of the trace, if it has one.
    pub(crate) head: Option<&'a Head<'t>>,
    pub(crate) error: &'a ReplayError,
    pub(crate) number: usize,
}

impl RefusedLine<'_, '_> {
    /// Returns whether the trace is of version 2.
    pub(crate) fn is_version_two(&self) -> bool {
        matches!(self.head, Some(head) if head.version == Version::Two)
    }

    /// Returns the places in the trace of the choice bit and of the reply's letter, of the attempt
    /// that the error names. In version 1 a space is between them.
    pub(crate) fn call(&self) -> Option<(usize, usize)> {
        let mut before = match self.error {
            ReplayError::AfterFinish(_, made) => *made as usize,
            ReplayError::Bit(_, due) | ReplayError::Reply(_, due) => due.calls as usize,
            _ => return None,
        };
        let size: usize = if self.is_version_two() { 2 } else { 3 };
        let first = (self.head?.lines as usize).saturating_add(1);
        let mut rest = text_from_line(self.trace, first);
        for _line in first..self.number {
            let (_, symbols) = number_at_front(take_line(&mut rest)?.text)?;
            before = before.saturating_sub(symbols.len() / size);
        }
        let line = first_line(rest);
        let (_, symbols) = number_at_front(line)?;
        let from = self.trace.len().saturating_sub(rest.len());
        let at = from.saturating_add(line.len());
        let bit_at = at
            .saturating_sub(symbols.len())
            .saturating_add(before.saturating_mul(size));
        Some((bit_at, bit_at.saturating_add(size.saturating_sub(1))))
    }

    /// Returns the trace of the accepted attempts, if it has the head of a setup that the program
    /// accepts.
    pub(crate) fn accepted_part(&self, code: &Code) -> Result<Option<AcceptedTrace>, AllocError> {
        match accepted_trace(self.alloc, code, self.trace) {
            Ok(accepted) => Ok(accepted),
            Err(ReplayError::Memory) => Err(AllocError),
            Err(_) => Ok(None),
        }
    }

    /// Returns the number of accepted attempts of the trace, if any could be.
    fn accepted_calls(&self) -> Result<Option<u64>, AllocError> {
        match self.error {
            ReplayError::AfterFinish(_, made) => Ok(Some(*made)),
            ReplayError::Bit(_, due) | ReplayError::Reply(_, due) => Ok(Some(due.calls)),
            ReplayError::NoEnd(counts) | ReplayError::EndCount(_, counts) => Ok(Some(counts.calls)),
            ReplayError::Line(_) => match &source_of(self.alloc, self.program)? {
                Some(source) => Ok(self.accepted_part(&source.code)?.map(|part| part.calls)),
                None => Ok(None),
            },
            _ => Ok(None),
        }
    }

    /// Explains the mistake in the line.
    fn line_sentence(&self) -> Result<String, AllocError> {
        let alloc = self.alloc;
        match self.error {
            ReplayError::Head(_) => self.head_sentence(),
            ReplayError::Setup(error) => self.setup_sentence(*error),
            ReplayError::Line(_) => self.body_sentence(),
            ReplayError::AfterFinish(..) => self.finished(),
            ReplayError::Bit(_, due) => self.other_bit(*due),
            ReplayError::Reply(_, due) => self.other_reply(*due),
            ReplayError::NoEnd(EndCounts { calls, left_live }) => {
                let more = if *left_live > 0 {
                    " or another line of calls"
                } else {
                    ""
                };
                format!(in alloc; "the trace ends here; expected 'end {calls} {left_live}'{more}")
            }
            ReplayError::EndCount(_, EndCounts { calls, left_live }) => format!(in alloc;
                "expected 'end {calls} {left_live}': \
                the number of calls, and of threads that may go on"
            ),
            ReplayError::TooLong | ReplayError::Memory => Ok(String::new(alloc)),
        }
    }

    /// Explains the mistake in the line, and gives the number of accepted attempts of the trace.
    fn sentence(&self) -> Result<String, AllocError> {
        let (alloc, line) = (self.alloc, self.line_sentence()?);
        let Some(calls) = self.accepted_calls()? else {
            return Ok(line);
        };
        let (before, after) = if line.ends_with('.') {
            (" ", ".")
        } else {
            ("; ", "")
        };
        match calls {
            0 => format!(in alloc; "{line}{before}no call of the trace was accepted{after}"),
            1 => format!(in alloc; "{line}{before}1 call of the trace was accepted{after}"),
            _ => format!(in alloc; "{line}{before}{calls} calls of the trace were accepted{after}"),
        }
    }
}

/// Explains the mistake in a line of a trace.
fn explain_line<'a>(
    file: &'a str,
    line: &RefusedLine<'_, '_>,
) -> Result<Explanation<'a>, AllocError>
    ensures { IfOk result (λ e. ExplainsLine file.now line.now.number e) }
{
    let sentence = line.sentence()?;
    let mut excerpt = Vec::new(line.alloc);
    match (line.error, line.call()) {
        (ReplayError::Reply(..), Some((_, at))) => push_place(&mut excerpt, line.trace, at)?,
        (_, Some((at, _))) => push_place(&mut excerpt, line.trace, at)?,
        (_, None) => push_line(&mut excerpt, line.trace, line.number)?,
    }
    explained(
        line.alloc,
        file,
        Place::Line(line.number),
        excerpt,
        sentence.as_str(),
    )
}

/// Explains this error of a trace of the program of a text, at its line, with a caret below the
/// place in an attempt that is not the machine's own. Nothing explains a trace that is too long, or
/// refused memory. Fails only on allocation.
pub fn explain_trace<'a, 't>(
    alloc: Global,
    program: &'t [u8],
    file: &'a str,
    trace: &'t [u8],
    error: &'t ReplayError,
) -> Result<Option<Explanation<'a>>, AllocError>
    ensures { let Explains = ExplainsTrace file.now trace.now error.now in
        IfOk result (IsExplanationOf Explains) }
{
    let head = head_of(alloc, trace)?;
    let number = match error {
        ReplayError::Setup(setup) => line_of_setup(trace, &head, *setup),
        ReplayError::NoEnd(_) => position_of(trace, trace.len()).line,
        ReplayError::Head(line)
        | ReplayError::Line(line)
        | ReplayError::EndCount(line, _)
        | ReplayError::AfterFinish(line, _)
        | ReplayError::Bit(line, _)
        | ReplayError::Reply(line, _) => *line as usize,
        ReplayError::TooLong | ReplayError::Memory => return Ok(None),
    };
    let line = RefusedLine {
        alloc,
        program,
        trace,
        head: head.as_ref(),
        error,
        number,
    };
    Ok(Some(explain_line(file, &line)?))
}
