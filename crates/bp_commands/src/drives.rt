//! The command `drive`.
//! The command without a name: it drives a bundle.
//! The parts of a bundle.
ghost use Rattle.std.specs.Prelude.{◌≡◌, length, take, MatchOption};
ghost use Rattle.bp_commands.specs.Commands.{AnswersOf, Pair, Answers, bundle_alone};
ghost use Rattle.bp_commands.specs.Traces.{drives, bundles, IsSeparated, HasNoSeparator, HasNoneBefore, IsSplit, IsParted};
ghost use Rattle.bp_commands.specs.ErrorReports.{AreReadOr};

use crate::commands::PairCommand;
use crate::explanations::SecondInput;
use crate::inputs::{Source, read_input};
use crate::limits::MAX_BUNDLE;
use crate::programs::open;
use bp_machine::{Report, Start};
use bp_messages::Error;
use bp_source::{DriveTask, NamedBits, NamedStart};
use bp_trace::drive;
use std::alloc::Global;
use std::io::{Read, Write};

/// Drives a program by a schedule from a start, in which the named globals have their bits, and
/// writes the trace.
fn drive_from<W: Write>(
    alloc: Global,
    start: &Start,
    named: &NamedBits<'_>,
    text: &[u8],
    schedule: &[u8],
    out: &mut W,
) -> Result<Report, Error>
    ensures { let given : Pair = record { text = text.now; input = schedule.now } in
        let command = drives start.now named.now in
        AnswersOf command given (W.contents out.old) (W.contents out.new) result }
{
    let opened = open(alloc, text, start, named)?;
    Ok(drive(alloc, &opened.code, &opened.setup, schedule, out)?)
}

/// `drive`: drives a program by a schedule, and writes the trace.
impl PairCommand for DriveTask<'_> {
    ghost use Rattle.bp_commands.specs.declared.explanations.SecondInput.{SecondInput};
    ghost use Rattle.bp_commands.specs.Traces.{drives};

    type Answer = Report;

    ghost command = { λ d. drives d.start d.named };

    ghost second_input = { λ _. SecondInput.Schedule };

    fn apply<W: Write>(
        &self,
        alloc: Global,
        text: &[u8],
        schedule: &[u8],
        out: &mut W,
    ) -> Result<Report, Error> {
        drive_from(alloc, &self.start, &self.named, text, schedule, out)
    }

    fn second_input(&self) -> SecondInput {
        SecondInput::Schedule
    }

    fn named_start(&self) -> Option<NamedStart<'_>> {
        let (start, named) = (&self.start, &self.named);
        Some(NamedStart { start, named })
    }
}

/// Reads a bundle, a program and a schedule, drives the program by the schedule, and writes the
/// trace: one thread begins with `main`, all globals are 0, and at most 2 contexts and 1,000
/// attempts are allowed. Reads at most 1,048,577 bytes.
pub fn drive_bundle<R: Read, W: Write>(
    alloc: Global,
    bundle: &mut Source<R>,
    out: &mut W,
) -> Result<Report, Error>
    ensures answers { let inputs = bundle_alone
        (R.remaining bundle.old.reader) (R.remaining bundle.new.reader) in
        Answers bundles inputs (W.contents out.old) (W.contents out.new) result }
    ensures holds { let inputs = bundle_alone
        (R.remaining bundle.old.reader) (R.remaining bundle.new.reader) in
        AreReadOr inputs bundle.new.bytes.items result }
{
    read_input(alloc, MAX_BUNDLE, bundle)?;
    let start = Start::defaults(alloc)?;
    let (text, schedule) = parts(&bundle.bytes);
    drive_from(alloc, &start, &NamedBits::none(alloc), text, schedule, out)
}

/// Returns the text after a line that is exactly `%`, if the bytes begin with one.
fn after_separator(bytes: &[u8]) -> Option<&[u8]>
    ensures { MatchOption result
        (HasNoSeparator bytes.now)
        (λ rest. IsSeparated bytes.now rest.now) }
{
    match bytes {
        [b'%'] => Some(&[]),
        [b'%', b'\n', rest @ ..] => Some(rest),
        _ => None,
    }
}

/// Returns the start of the first line that is exactly `%`, and the text after it.
fn first_separator(input: &[u8]) -> Option<(usize, &[u8])>
    ensures { MatchOption result
        (HasNoneBefore input.now (length input.now))
        (λ x. IsSplit input.now (take x.0 input.now) x.1.now) }
{
    let mut begins = true;
    for at in 0..input.len() {
        if begins {
            if let Some(rest) = after_separator(&input[at..]) {
                return Some((at, rest));
            }
        }
        begins = input[at] == b'\n';
    }
    None
}

/// Splits a bundle into the program text and the schedule, before and after the first line that is
/// exactly `%`. Without such a line all is the text.
pub fn parts(input: &[u8]) -> (&[u8], &[u8])
    ensures { IsParted input.now result.0.now result.1.now }
{
    match first_separator(input) {
        Some((at, schedule)) => (&input[..at], schedule),
        None => (input, &[]),
    }
}
