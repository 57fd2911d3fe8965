//! Explanations of the errors of schedules. The attempt that finished a thread, and why.
ghost use Rattle.std.specs.Prelude.{IfOk};
ghost use Rattle.bp_advice.specs.Explanations.{IsExplanationOf};
ghost use Rattle.bp_explain.specs.ExplainedErrors.{ExplainsSchedule};

use crate::sources::{Source, lines_before, setup_of, source_of};
use bp_advice::{ENDS_IN_CR_LF, Explanation, Quoted, about_line, ends_in_cr_lf, number_at_front};
use bp_machine::limits::MAX_FRAMES;
use bp_machine::{Call, Reply, Start};
use bp_text::{Line, line_of};
use bp_trace::{DriveError, ReplayError, drive, replay};
use std::alloc::{AllocError, Global};

/// Says "there is no thread N".
pub(crate) fn no_entry(alloc: Global, thread: u32) -> Result<String, AllocError> {
    format!(in alloc;
        "there is no thread {thread}: the first thread is 0, and each entry makes one"
    )
}

/// Explains why this line is not one of a schedule. One that is a thread and a choice bit is
/// refused for its thread.
fn line_sentence(alloc: Global, line: Line<'_>) -> Result<String, AllocError> {
    match number_at_front(line.text) {
        Some((thread, b"0" | b"1")) if line.is_ended => no_entry(alloc, thread),
        Some((_, b"0" | b"1")) => format!(in alloc; "there is no line feed after this line"),
        _ if ends_in_cr_lf(line) => String::from_str(alloc, ENDS_IN_CR_LF),
        _ => format!(in alloc; "expected a line as '0 1', a thread, one space and a choice bit"),
    }
}

/// Returns the line of the last attempt of a thread in this history, and the reply to it.
fn last_of(history: &[Call], thread: u32) -> Option<(usize, Reply)> {
    let mut last = None;
    for (index, call) in history.iter().enumerate() {
        if call.thread == thread {
            last = Some((index.saturating_add(1), call.reply));
        }
    }
    last
}

/// Returns the line of the last attempt of a thread on these lines of a schedule, and the reply to
/// it, in the runs of a program from this start; None if the program, start or a line is refused.
fn last_call(
    alloc: Global,
    program: &[u8],
    start: &Start,
    lines: &[u8],
    thread: u32,
) -> Result<Option<(usize, Reply)>, AllocError> {
    let Some(Source { code, .. }) = &source_of(alloc, program)? else {
        return Ok(None);
    };
    let Some(setup) = setup_of(alloc, code, start)? else {
        return Ok(None);
    };
    let mut trace = Vec::new(alloc);
    // If a line is refused, nothing is written, and then nothing is replayed.
    let driven = drive(alloc, code, &setup, lines, &mut trace);
    if let Err(DriveError::Memory | DriveError::Write) = driven {
        return Err(AllocError);
    }
    match replay(alloc, code, &trace) {
        Ok(replayed) => Ok(last_of(&replayed.history, thread)),
        Err(ReplayError::Memory) => Err(AllocError),
        Err(_) => Ok(None),
    }
}

/// Explains why a thread was terminated by an attempt with this reply, in a run from this start.
fn cause(alloc: Global, start: &Start, thread: u32, reply: Reply) -> Result<String, AllocError> {
    let (contexts, calls) = (start.contexts, start.calls);
    let verb = |number: u32| if number == 1 { "is" } else { "are" };
    match reply {
        Reply::Stopped => format!(in alloc; "an assertion failed before"),
        Reply::Ended => match start.entries.get(thread as usize) {
            Some(entry) => {
                format!(in alloc; "its procedure {} is finished", Quoted(entry.as_bytes()))
            }
            None => format!(in alloc; "its procedure is finished"),
        },
        Reply::NoContexts => format!(in alloc; "--contexts {contexts} {} used up", verb(contexts)),
        Reply::Full => format!(in alloc; "a stack has at most {MAX_FRAMES} frames"),
        Reply::Failed => format!(in alloc; "its assertion was false"),
        Reply::Blocked | Reply::Stepped => {
            format!(in alloc; "--calls {calls} {} used up", verb(calls))
        }
    }
}

/// Names the attempt that finished a thread, in a run from this start, and why: that of a line of a
/// schedule or of steps, with this reply.
pub(crate) fn last_sentence(
    alloc: Global,
    start: &Start,
    thread: u32,
    (line, reply): (usize, Reply),
) -> Result<String, AllocError> {
    let answer = match reply {
        Reply::Stopped => "was stopped",
        Reply::Ended => "had ended",
        Reply::NoContexts => "was refused a context",
        Reply::Full => "was refused a frame",
        Reply::Failed => "failed",
        Reply::Blocked | Reply::Stepped => "made its last call",
    };
    let cause = cause(alloc, start, thread, reply)?;
    format!(in alloc; "thread {thread} {answer} at line {line}: {cause}")
}

/// Names the attempt that finished the thread on the line of this number of a schedule, and why, if
/// that is known.
fn finished(
    alloc: Global,
    program: &[u8],
    start: &Start,
    schedule: &[u8],
    number: usize,
) -> Result<String, AllocError> {
    let unknown = format!(in alloc; "the thread has made its last call before")?;
    let Some((thread, _)) = line_of(schedule, number).and_then(|line| number_at_front(line.text))
    else {
        return Ok(unknown);
    };
    match last_call(
        alloc,
        program,
        start,
        lines_before(schedule, number),
        thread,
    )? {
        Some(last) => last_sentence(alloc, start, thread, last),
        None => Ok(unknown),
    }
}

/// Explains this error of a schedule of the program of a text, which runs from this start, at its
/// line. For a thread that has made its last attempt the schedule is played up to that line.
/// Nothing explains a schedule that is too long, refused memory, or an output that failed. Fails
/// only on allocation.
pub fn explain_schedule<'a>(
    alloc: Global,
    program: &[u8],
    start: &Start,
    file: &'a str,
    schedule: &[u8],
    error: &DriveError,
) -> Result<Option<Explanation<'a>>, AllocError>
    ensures { let Explains = ExplainsSchedule file.now error.now in
        IfOk result (IsExplanationOf Explains) }
{
    let (number, sentence) = match *error {
        DriveError::Line(number) => match line_of(schedule, number as usize) {
            Some(line) => (number, line_sentence(alloc, line)?),
            None => (number, String::new(alloc)),
        },
        DriveError::AfterFinish(number) => {
            (
                number,
                finished(alloc, program, start, schedule, number as usize)?,
            )
        }
        DriveError::TooLong | DriveError::Memory | DriveError::Write => return Ok(None),
    };
    Ok(Some(about_line(alloc, file, schedule, number as usize, sentence.as_str())?))
}
