//! Sentences on a step that is not taken.

use crate::schedules::last_sentence;
use crate::sources::{Located, ThreadPlaceText, word_of};
use crate::tried_steps::{RefusedStep, Tried};
use crate::value_sentences::{changes, session_after, values};
use bp_advice::{Count, Named, Quoted, listed};
use bp_confirm::{Difference, StepReason, ThreadPlace, value_on_line};
use bp_machine::Reply;
use bp_machine::limits::MAX_FRAMES;
use bp_text::Position;
use std::alloc::AllocError;
use std::fmt::Write;

impl RefusedStep<'_> {
    /// Returns the position of the thread, not where its line says.
    fn here(&self) -> ThreadPlaceText<'_> {
        ThreadPlaceText(self.source.text, self.refusal.thread_place)
    }

    /// Gives the position of the thread, not where its line says, and the ways to that place.
    fn elsewhere(&self) -> Result<String, AllocError> {
        let (alloc, thread, ways) = (self.alloc, self.refusal.thread, self.ways_there()?);
        if self.refusal.thread_place == ThreadPlace::Ended {
            return format!(in alloc; "thread {thread} has ended{ways}");
        }
        let (here, there) = (self.here(), Located(self.refusal.location));
        format!(in alloc; "thread {thread} is at {here}, not at {there}{ways}")
    }

    /// Returns the positions of the two ways of the step's instruction, if they begin on one line.
    fn ways(&self) -> Option<(Position, Position)> {
        let source = self.source;
        let instr = source.code.get(self.refusal.number?)?;
        let taken = source.statements.get(instr.next()? as usize)?.position?;
        let other = source.statements.get(instr.other()? as usize)?.position?;
        if taken.line != other.line {
            return None;
        }
        Some((taken, other))
    }

    /// Says that the place of the thread's next line does not tell which way its `?` went, and
    /// which two places do, if the ways begin on one line.
    fn ambiguous(&self) -> Result<String, AllocError> {
        let (alloc, thread, here) = (self.alloc, self.refusal.thread, self.here());
        let threads = self.threads()?;
        let mut later = threads.iter().enumerate().skip(self.refusal.line as usize);
        let next = match later.find(|(_, other)| **other == thread) {
            Some((index, _)) => format!(in alloc; "line {}", index.saturating_add(1))?,
            None => format!(in alloc; "its next step")?,
        };
        let ways = match self.ways() {
            Some((one, other)) => format!(in alloc;
                ": write {}:{} or {}:{}",
                one.line, one.column, other.line, other.column
            )?,
            None => String::new(alloc),
        };
        format!(in alloc;
            "thread {thread} is at the '?' of {here}, \
            and both ways lead to the place of {next}, which wants a column{ways}"
        )
    }

    /// Says by which step the thread was terminated, and why.
    fn finished(&self) -> Result<String, AllocError> {
        let (start, thread) = (self.start, self.refusal.thread);
        let (mut made, mut line) = (0u32, 0);
        for (index, other) in self.threads_before()?.iter().enumerate() {
            if *other == thread {
                made = made.saturating_add(1);
                line = index.saturating_add(1);
            }
        }
        let reply = if made < start.calls {
            Reply::Failed
        } else {
            Reply::Stepped
        };
        last_sentence(self.alloc, start, thread, (line, reply))
    }

    /// Says that the step begins a context that is not allowed. The steps before use all that are.
    fn no_contexts(&self) -> Result<String, AllocError> {
        let (alloc, lines) = (self.alloc, self.context_lines()?);
        let allowed = match lines.len() {
            0 => "are allowed",
            1 => "is allowed; it begins at line ",
            _ => "are allowed; they begin at lines ",
        };
        let (count, list) = (
            Count(lines.len(), "context"),
            listed(alloc, lines.as_slice())?,
        );
        format!(in alloc; "this step begins another context, and only {count} {allowed}{list}")
    }

    /// Says that the assumption at which the thread waits is false: the values that it reads, and
    /// which step changed each of them last.
    fn blocked(&self) -> Result<String, AllocError> {
        let (alloc, source, thread) = (self.alloc, self.source, self.refusal.thread);
        let (mut read, mut changed) = (String::new(alloc), String::new(alloc));
        if let Tried::Taken(trace) = &self.try_steps(self.before())? {
            if let Some(session) = &session_after(alloc, source, trace)? {
                read = values(alloc, source, session, thread)?;
                changed = changes(alloc, source, trace, session, thread)?;
            }
        }
        let here = self.here();
        format!(in alloc; "thread {thread} waits at {here}{read}: its assumption is false{changed}")
    }

    /// Explains why the machine does not grant the step.
    fn refused(&self, reply: Reply) -> Result<String, AllocError> {
        let (alloc, thread) = (self.alloc, self.refusal.thread);
        match reply {
            Reply::Stopped => {
                let before = self.refusal.line.saturating_sub(1);
                format!(in alloc;
                    "an assertion failed at line {before}, and no thread makes a step after that"
                )
            }
            Reply::NoContexts => self.no_contexts(),
            Reply::Full => format!(in alloc;
                "thread {thread} has no room for one more call: \
                a stack has at most {MAX_FRAMES} frames"
            ),
            Reply::Blocked => self.blocked(),
            Reply::Ended | Reply::Failed | Reply::Stepped => format!(in alloc;
                "thread {thread} does not make this step"
            ),
        }
    }

    /// Names the step that last changed the value that the thread sees.
    fn last_change(&self, found: Difference) -> Result<String, AllocError> {
        let alloc = self.alloc;
        let (verb, last, never) = match found.seen {
            Some(_) => ("changed it", " last", "changed it"),
            None => ("left its scope", "", "entered its scope"),
        };
        match found.changed {
            None => format!(in alloc; "; no step {never}"),
            Some(step) if step == self.refusal.line => format!(in alloc; "; this step {verb}"),
            Some(step) => format!(in alloc; "; step {step} {verb}{last}"),
        }
    }

    /// Gives the value that the thread sees instead of one of its line.
    fn differs(&self, found: Difference) -> Result<String, AllocError> {
        let (alloc, thread, change) = (self.alloc, self.refusal.thread, self.last_change(found)?);
        let Some(value) = value_on_line(self.steps, self.refusal.line, found.place) else {
            return format!(in alloc; "a value is another one after this step");
        };
        let Some(bit) = found.seen else {
            let name = Quoted(value.name);
            return format!(in alloc;
                "thread {thread} sees no variable {name} after this step{change}"
            );
        };
        let (name, bit, other) = (Named(value.name), u8::from(bit), u8::from(value.bit));
        format!(in alloc; "{name} is {bit} after this step, not {other}{change}")
    }

    /// Gives the command that shows the run of the steps before, if there are any. Gives also the
    /// one that searches for a run through all listed steps, if it may find one although `confirm`
    /// refuses them. A shell has to be able to name both files.
    fn commands(&self) -> Result<String, AllocError> {
        let mut words = String::new(self.alloc);
        let (Some(program), Some(steps)) = (word_of(self.program_file), word_of(self.file)) else {
            return Ok(words);
        };
        let count = self.refusal.line.saturating_sub(1);
        let run = if count == 1 {
            "step before it is a run"
        } else {
            "steps before it are a run"
        };
        if count > 0 {
            write!(
                words,
                "; the {run}: head -n {count} {steps} | btrun confirm {program} - .."
            )?;
        }
        let when = match self.refusal.reason {
            StepReason::Elsewhere => "if steps are left out",
            StepReason::Ambiguous => "either way",
            _ => return Ok(words),
        };
        write!(
            words,
            "; {when}: btrun explore {program} --through {steps} .."
        )?;
        Ok(words)
    }

    /// Explains why the step is not taken, how to see the run up to there, and how to search for a
    /// run through all steps.
    pub(crate) fn sentence(&self) -> Result<String, AllocError> {
        let why = match self.refusal.reason {
            StepReason::Elsewhere => self.elsewhere()?,
            StepReason::Ambiguous => self.ambiguous()?,
            StepReason::Finished => self.finished()?,
            StepReason::Refused(reply) => self.refused(reply)?,
            StepReason::Differs(found) => self.differs(found)?,
        };
        let (alloc, commands) = (self.alloc, self.commands()?);
        format!(in alloc; "{why}{commands}")
    }
}
