//! Words for a step whose thread is at another place: another thread that is there, and the steps
//! of its own that lead it there.

use crate::sources::Located;
use crate::tried_steps::{RefusedStep, Tried};
use bp_advice::between;
use bp_confirm::{Location, StepReason, StepRefusal, ThreadPlace};
use bp_machine::limits::MAX_THREADS;
use std::alloc::{AllocError, Global};
use std::fmt::Write;

/// The most steps left out that are searched for.
const MOST_MISSING: u32 = 6;

/// The most bytes of steps that are tried again for each thread.
const MOST_TRIED: usize = 262_144;

/// Adds a line of steps without values.
fn push_step(steps: &mut Vec<u8>, thread: u32, location: Location) -> Result<(), AllocError> {
    let alloc = *steps.allocator();
    let line = match location {
        Location::End => format!(in alloc; "{thread} -\n")?,
        Location::Line(line) => format!(in alloc; "{thread} {line}\n")?,
        Location::Column(line, column) => format!(in alloc; "{thread} {line}:{column}\n")?,
    };
    steps.extend_from_slice(line.as_bytes())
}

/// Returns the line of a statement.
fn line_of(thread_place: ThreadPlace) -> Option<usize> {
    match thread_place {
        ThreadPlace::Statement(position) => Some(position.line),
        ThreadPlace::End | ThreadPlace::Ended => None,
    }
}

/// Returns whether two of these statements, one after the other, begin on one line.
fn share_a_line(thread_places: &[ThreadPlace]) -> bool {
    let mut pairs = thread_places.iter().zip(thread_places.iter().skip(1));
    pairs.any(|(thread_place, next)| line_of(*thread_place).is_some()
        && line_of(*thread_place) == line_of(*next))
}

/// Returns the places of some steps as lines of steps name them, the last after an 'and'.
fn places(
    alloc: Global,
    thread_places: &[ThreadPlace],
    by_column: bool,
) -> Result<String, AllocError> {
    let mut list = String::new(alloc);
    for (index, thread_place) in thread_places.iter().enumerate() {
        let before = between(index, thread_places.len(), " and ");
        match thread_place {
            ThreadPlace::Ended | ThreadPlace::End => write!(list, "{before}'-'")?,
            ThreadPlace::Statement(at) if by_column => write!(
                list,
                "{before}{}:{}",
                at.line, at.column
            )?,
            ThreadPlace::Statement(at) => write!(list, "{before}{}", at.line)?,
        }
    }
    Ok(list)
}

impl RefusedStep<'_> {
    /// Returns the result of these steps with one more, of this thread at the location of the
    /// refused step.
    fn try_with(&self, steps: &[u8], thread: u32) -> Result<Tried, AllocError> {
        let mut tried = Vec::new(self.alloc);
        tried.extend_from_slice(steps)?;
        push_step(&mut tried, thread, self.refusal.location)?;
        self.try_steps(tried.as_slice())
    }

    /// Returns the thread that is at the location of the refused step, if it is the only one.
    fn only_thread_there(&self) -> Result<Option<u32>, AllocError> {
        let start = self.start;
        let mut only = None;
        for thread in 0..start.entries.len().min(MAX_THREADS) as u32 {
            let stands_there = match self.try_with(self.before(), thread)? {
                Tried::Taken(_) => true,
                Tried::Refused(found) => found.reason != StepReason::Elsewhere,
                Tried::Unread => false,
            };
            if stands_there && only.is_some() {
                return Ok(None);
            }
            if stands_there {
                only = Some(thread);
            }
        }
        Ok(only)
    }

    /// Returns the thread's position as a step names it, if its next step does not depend on a
    /// choice.
    fn location_without_choice(&self, here: StepRefusal) -> Option<Location> {
        let statement = self.source.statements.get(here.number? as usize)?;
        match here.thread_place {
            _ if statement.excerpt.reads_choice => None,
            ThreadPlace::Ended => None,
            ThreadPlace::End => Some(Location::End),
            ThreadPlace::Statement(position) => Some(Location::Column(
                u32::try_from(position.line).ok()?,
                u32::try_from(position.column).ok()?,
            )),
        }
    }

    /// Returns the positions of the thread of the refused step before each of the steps that lead
    /// it to the location of that step, if they do not depend on a choice and are few.
    fn missing_steps(&self) -> Result<Option<Vec<ThreadPlace>>, AllocError> {
        let mut steps = Vec::new(self.alloc);
        steps.extend_from_slice(self.before())?;
        let mut thread_places = Vec::new(self.alloc);
        let (thread, mut here) = (self.refusal.thread, self.refusal);
        for made in 1..=MOST_MISSING {
            let Some(location) = self.location_without_choice(here) else {
                return Ok(None);
            };
            push_step(&mut steps, thread, location)?;
            thread_places.push(here.thread_place)?;
            let number = self.refusal.line.saturating_add(made);
            match self.try_with(steps.as_slice(), thread)? {
                Tried::Unread => return Ok(None),
                Tried::Refused(found) if found.line != number => return Ok(None),
                Tried::Refused(found) if found.reason == StepReason::Elsewhere => here = found,
                Tried::Taken(_) | Tried::Refused(_) => return Ok(Some(thread_places)),
            }
        }
        Ok(None)
    }

    /// Gives the steps of the thread of the refused step that lead it to the location of that step,
    /// if they do not depend on a choice and are few.
    fn missing(&self) -> Result<String, AllocError> {
        let alloc = self.alloc;
        let Some(thread_places) = self.missing_steps()? else {
            return Ok(String::new(alloc));
        };
        let has_column = matches!(self.refusal.location, Location::Column(_, _));
        let by_column = has_column || share_a_line(thread_places.as_slice());
        let are_lines = !by_column && !thread_places.contains(&ThreadPlace::End);
        let (lead, verb) = match (thread_places.len(), are_lines) {
            (1, true) => ("line", "is"),
            (_, true) => ("lines", "are"),
            (1, false) => ("the step at", "is"),
            (_, false) => ("the steps at", "are"),
        };
        let places = places(alloc, thread_places.as_slice(), by_column)?;
        format!(in alloc; "; {lead} {places} {verb} missing")
    }

    /// Gives the ways to the location of the refused step: another thread, or steps that are left
    /// out. They are searched for after a list that is not too long.
    pub(crate) fn ways_there(&self) -> Result<String, AllocError> {
        let alloc = self.alloc;
        if self.before().len() > MOST_TRIED {
            return Ok(String::new(alloc));
        }
        let (other, missing) = (self.only_thread_there()?, self.missing()?);
        let Some(thread) = other else {
            return Ok(missing);
        };
        let there = Located(self.refusal.location);
        format!(in alloc; "; thread {thread} is at {there}{missing}")
    }
}
