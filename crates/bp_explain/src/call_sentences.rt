//! Sentences on an attempt of a trace that is not the machine's own.

use crate::sources::{Source, ThreadPlaceText, source_of};
use crate::traces::RefusedLine;
use crate::value_sentences::{session_after, values};
use bp_advice::number_at_front;
use bp_confirm::ThreadPlace;
use bp_machine::{Call, Reply, Session};
use bp_text::line_of;
use bp_trace::Due;
use std::alloc::AllocError;

/// Returns the verb for a thread whose attempt has a reply of this letter.
fn verb_of(letter: u8) -> Option<&'static str> {
    match letter {
        b'x' => Some("is stopped: an assertion failed before"),
        b'e' => Some("has ended"),
        b'n' => Some("is refused a context"),
        b'u' => Some("is refused a frame"),
        b'b' => Some("waits"),
        b'f' => Some("fails"),
        b's' => Some("makes a step"),
        _ => None,
    }
}

/// Returns the position of a thread of a session.
fn thread_place_of(source: &Source<'_>, session: &Session, thread: u32) -> ThreadPlace {
    let Some(top) = session.top(thread) else {
        return ThreadPlace::Ended;
    };
    match source.statements.get(top.number as usize) {
        Some(statement) => statement
            .position
            .map_or(ThreadPlace::End, ThreadPlace::Statement),
        None => ThreadPlace::Ended,
    }
}

impl RefusedLine<'_, '_> {
    /// Says that an attempt is expected in place of that of the line.
    fn due(&self, call: Call) -> Result<String, AllocError> {
        let (alloc, thread, bit) = (self.alloc, call.thread, u8::from(call.bit));
        let letter = char::from(call.reply.letter());
        if self.is_version_two() {
            format!(in alloc; "expected '{bit}{letter}'")
        } else {
            format!(in alloc; "expected '{thread} {bit} {letter}'")
        }
    }

    /// Says that an attempt of the line has another choice bit than the seed.
    pub(crate) fn other_bit(&self, due: Due) -> Result<String, AllocError> {
        let (alloc, expected) = (self.alloc, self.due(due.call)?);
        format!(in alloc; "{expected}: the choice bit is that of the seed")
    }

    /// Says that an attempt of the line is of a thread that has made its last one.
    pub(crate) fn finished(&self) -> Result<String, AllocError> {
        let alloc = self.alloc;
        match line_of(self.trace, self.number).and_then(|line| number_at_front(line.text)) {
            Some((thread, _)) => format!(in alloc; "thread {thread} has made its last call before"),
            None => Ok(String::new(alloc)),
        }
    }

    /// Gives the position of the thread of an attempt, with the values that its statement reads.
    fn standing(&self, thread: u32) -> Result<String, AllocError> {
        let alloc = self.alloc;
        let Some(source) = &source_of(alloc, self.program)? else {
            return Ok(String::new(alloc));
        };
        let Some(accepted) = self.accepted_part(&source.code)? else {
            return Ok(String::new(alloc));
        };
        let Some(session) = &session_after(alloc, source, &accepted.trace)? else {
            return Ok(String::new(alloc));
        };
        let here = ThreadPlaceText(self.program, thread_place_of(source, session, thread));
        let read = values(alloc, source, session, thread)?;
        format!(in alloc; "is at {here}{read} and ")
    }

    /// Returns the verb of the line for the thread of its attempt.
    fn told_verb(&self) -> Option<&'static str> {
        let (_, reply_at) = self.call()?;
        verb_of(*self.trace.get(reply_at)?)
    }

    /// Says that an attempt of the line has another reply than the machine's own, with the verb of
    /// each.
    pub(crate) fn other_reply(&self, due: Due) -> Result<String, AllocError> {
        let (alloc, expected, thread) = (self.alloc, self.due(due.call)?, due.call.thread);
        let here = match due.call.reply {
            Reply::Ended | Reply::Stopped => String::new(alloc),
            _ => self.standing(thread)?,
        };
        let verb = verb_of(due.call.reply.letter()).unwrap_or("");
        let told = match self.told_verb() {
            Some(verb) => format!(in alloc; "; the trace says it {verb}")?,
            None => String::new(alloc),
        };
        format!(in alloc;
            "{expected}: thread {thread} {here}{verb}{told}. \
            The trace may be of another version of the program."
        )
    }
}
