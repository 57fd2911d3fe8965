//! Steps that an explanation tries in place of reported ones.
//! The threads and the contexts of a list of steps.
use crate::sources::{Source, lines_before, setup_of};
use bp_advice::number_at_front;
use bp_confirm::{ConfirmError, StepRefusal, confirm};
use bp_machine::{Call, Setup, Start};
use bp_source::ContextBound;
use bp_text::take_line;
use bp_trace::write_trace;
use std::alloc::{AllocError, Global};

/// A step that is not taken, with its texts, its files and its start.
#[derive(Clone, Copy)]
pub(crate) struct RefusedStep<'a> {
    pub(crate) alloc: Global,
    pub(crate) program_file: &'a str,
    pub(crate) source: &'a Source<'a>,
    pub(crate) start: &'a Start,
    pub(crate) file: &'a str,
    pub(crate) steps: &'a [u8],
    pub(crate) refusal: StepRefusal,
}

/// The result of steps that were tried.
#[derive(Drop)]
pub(crate) enum Tried {
    /// This is the trace of the run that makes them.
    Taken(Vec<u8>),
    Refused(StepRefusal),
    /// There is no start, or the text is malformed.
    Unread,
}

/// Returns the trace of this history, which takes the steps.
fn traced(alloc: Global, setup: &Setup, history: &[Call]) -> Result<Tried, AllocError> {
    let mut trace = Vec::new(alloc);
    match write_trace(setup, history, &mut trace) {
        Ok(()) => Ok(Tried::Taken(trace)),
        Err(_) => Err(AllocError),
    }
}

impl<'a> RefusedStep<'a> {
    /// Returns the steps before the refused one.
    pub(crate) fn before(&self) -> &'a [u8] {
        lines_before(self.steps, self.refusal.line as usize)
    }

    /// Tries these steps in place of the reported ones, in as many contexts as they use.
    pub(crate) fn try_steps(&self, steps: &[u8]) -> Result<Tried, AllocError> {
        let (alloc, source, bound) = (self.alloc, self.source, ContextBound::AsUsed);
        let code = &source.code;
        let Some(setup) = setup_of(alloc, code, self.start)? else {
            return Ok(Tried::Unread);
        };
        match confirm(alloc, source.text, code, &setup, bound, steps) {
            Ok(confirmed) => traced(alloc, confirmed.session.setup(), &confirmed.history),
            Err(ConfirmError::Step(refusal)) => Ok(Tried::Refused(refusal)),
            Err(ConfirmError::NoSteps) => traced(alloc, &setup, &[]),
            Err(ConfirmError::Memory) => Err(AllocError),
            Err(_) => Ok(Tried::Unread),
        }
    }

    /// Returns the threads of the steps, in their order.
    pub(crate) fn threads(&self) -> Result<Vec<u32>, AllocError> {
        let mut threads = Vec::new(self.alloc);
        let mut rest = self.steps;
        for _step in 0..self.steps.len() {
            let Some(line) = take_line(&mut rest) else {
                return Ok(threads);
            };
            if let Some((thread, _)) = number_at_front(line.text) {
                threads.push(thread)?;
            }
        }
        Ok(threads)
    }

    /// Returns the threads of the steps before the refused one, in their order.
    pub(crate) fn threads_before(&self) -> Result<Vec<u32>, AllocError> {
        let mut threads = self.threads()?;
        threads.truncate((self.refusal.line as usize).saturating_sub(1));
        Ok(threads)
    }

    /// Returns the lines before the refused step at which contexts begin.
    pub(crate) fn context_lines(&self) -> Result<Vec<usize>, AllocError> {
        let mut lines = Vec::new(self.alloc);
        let mut last = None;
        for (index, thread) in self.threads_before()?.iter().enumerate() {
            if last != Some(*thread) {
                lines.push(index.saturating_add(1))?;
            }
            last = Some(*thread);
        }
        Ok(lines)
    }
}
