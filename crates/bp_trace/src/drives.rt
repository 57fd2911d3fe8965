//! Driving a program by a schedule. Schedules: lines that name the thread of the next attempt and
//! its choice bit.
ghost use Rattle.std.specs.Prelude.{◌≡◌, ◌<◌, ◌≤◌, ℕ, List, Option, None, [], length, IfOk, IfErr, OnOk, MatchResult, drop};
ghost use Rattle.bp_machine.specs.declared.limits.TheConstants.{MAX_THREADS};
ghost use Rattle.bp_machine.specs.Setups.{Fits};
ghost use Rattle.bp_machine.specs.Sessions.{Stands};
ghost use Rattle.bp_trace.specs.declared.limits.TheConstants.{MAX_SCHEDULE};
ghost use Rattle.bp_text.specs.Formats.{Finds};
ghost use Rattle.bp_trace.specs.TraceText.{schedule_text, lines_of_history};
ghost use Rattle.bp_trace.specs.Drives.{DrivesTo, IsRefusal, drive_error_of, IsAdded, IsLineRefusal};
ghost use Rattle.bp_trace.specs.Readings.{schedule_line};

use crate::errors::DriveError;
use crate::limits::MAX_SCHEDULE;
use crate::trace_lines::thread_at;
use crate::traces::{Version, write_with_live_threads};
use bp_flat::Code;
use bp_machine::{AskError, Call, Report, Session, Setup};
use bp_text::{after, bit_at};
use std::alloc::Global;
use std::io::Write;

/// Returns the refusal of an attempt on the `n`-th line, of an existing thread.
fn drive_error_of(error: AskError, n: u32) -> DriveError
    ensures { result ≡ drive_error_of error n }
{
    match error {
        AskError::Memory => DriveError::Memory,
        // The setup has no seed, so the thread makes no more attempts.
        _ => DriveError::AfterFinish(n),
    }
}

/// Makes the attempt of a line, which is the `n`-th, and appends it.
fn play_line(
    session: &mut Session,
    calls: &mut Vec<Call>,
    line: ScheduleLine,
    n: u32,
) -> Result<(), DriveError>
    requires stands { Stands session.old.code.tree session.old calls.old.items }
    requires thread { line.thread < length session.old.setup.entries }
    requires unseeded { session.old.setup.seed ≡ None }
    ensures stands { OnOk result (Stands session.new.code.tree session.new calls.new.items) }
    ensures added { OnOk result (IsAdded calls.old.items calls.new.items line) }
    ensures kept { (session.new.code ≡ session.old.code) × (session.new.setup ≡ session.old.setup) }
    ensures refused { IfErr result (IsLineRefusal session.old.setup calls.old.items line n) }
{
    match session.ask_with(line.thread, line.bit) {
        Ok(call) => {
            if calls.push(call).is_err() {
                return Err(DriveError::Memory);
            }
            Ok(())
        }
        Err(error) => Err(drive_error_of(error, n)),
    }
}

/// Plays all lines of a schedule on a session before any attempt.
fn play(
    alloc: Global,
    session: &mut Session,
    threads: u32,
    schedule: &[u8],
) -> Result<Vec<Call>, DriveError>
    requires stands { Stands session.old.code.tree session.old [] }
    requires threads { threads ≡ length session.old.setup.entries }
    requires few { threads ≤ MAX_THREADS }
    requires unseeded { session.old.setup.seed ≡ None }
    requires short { length schedule.now ≤ MAX_SCHEDULE }
    ensures stands { IfOk result (λ h. Stands session.new.code.tree session.new h.items) }
    ensures lines { IfOk result (λ h. schedule.now ≡ schedule_text (lines_of_history h.items)) }
    ensures kept { (session.new.code ≡ session.old.code) × (session.new.setup ≡ session.old.setup) }
    ensures refused { let t = session.old.code.tree in (bytes : Option (List ℕ))
        → IfErr result (IsRefusal t session.old.setup schedule.now bytes bytes) }
{
    let mut calls = Vec::new(alloc);
    let mut rest = schedule;
    while !rest.is_empty() {
        let n = calls.len() as u32 + 1;
        let Some((line, more)) = line_at(threads, rest) else {
            return Err(DriveError::Line(n));
        };
        play_line(session, &mut calls, line, n)?;
        rest = more;
    }
    Ok(calls)
}

/// Plays the lines of a schedule, one attempt each, and then writes the trace of the history. A
/// line is the number of a thread, a space, the choice bit and a line feed. At a refusal nothing is
/// written, unless the writer refuses: it then has a proper prefix of the trace.
pub fn drive<W: Write>(
    alloc: Global,
    code: &Code,
    setup: &Setup,
    schedule: &[u8],
    out: &mut W,
) -> Result<Report, DriveError>
    requires fits { Fits code.now.tree setup.now }
    requires unseeded { setup.now.seed ≡ None }
    ensures { let t = code.now.tree in MatchResult result
        (DrivesTo t setup.now schedule.now (W.contents out.old) (W.contents out.new))
        (IsRefusal t setup.now schedule.now (W.contents out.old) (W.contents out.new)) }
{
    if schedule.len() > MAX_SCHEDULE {
        return Err(DriveError::TooLong);
    }
    setup.is_in_range();
    let mut session = Session::new(alloc, code, setup)?;
    let calls = play(alloc, &mut session, setup.threads(), schedule)?;
    let report = session.report();
    write_with_live_threads(Version::One, setup, calls.as_slice(), report.left_live, out)?;
    Ok(report)
}

/// A line of a schedule: the thread that makes an attempt, and its choice bit.
#[derive(Clone, Copy)]
pub struct ScheduleLine {
    /// The thread, from 0.
    pub thread: u32,
    pub bit: bool,
}

/// Returns the text from this place on.
pub(crate) fn text_from(text: &[u8], place: usize) -> &[u8]
    requires { place ≤ length text.now }
    ensures { result.now ≡ drop place text.now }
{
    &text[place..]
}

/// Parses the line of a thread below `threads`, and returns it with the rest of the text.
#[inline(always)]
fn line_at(threads: u32, text: &[u8]) -> Option<(ScheduleLine, &[u8])>
    ensures { Finds (schedule_line threads) text.now result }
{
    let Some((thread, digit)) = thread_at(threads, text) else {
        return None;
    };
    let Some((bit, rest)) = bit_at(digit) else {
        return None;
    };
    match after(rest, b'\n') {
        None => None,
        Some(rest) => Some((ScheduleLine { thread, bit }, rest)),
    }
}
