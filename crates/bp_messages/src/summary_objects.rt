//! The summary of a test in JSON: an object of the finding and of the reached statements, and one
//! for each statement that no run reached. It is written without memory.
ghost use Rattle.std.specs.Prelude.{◌≡◌};
ghost use Rattle.bp_text.specs.Writing.{Writes, Given};
ghost use Rattle.bp_messages.specs.SummaryObjects.{ends_members, found_name, found_run, reach_members, summary_object, summary_objects};

use crate::asked_tests::put_asked_member;
use crate::failures::{failed_assertion, put_failure_member, put_waits_member, statement_of};
use crate::notes::{new_percent, put_notes_members};
use crate::summaries::{TestReport, put_unreached};
use bp_test::{Counts, Found};
use bp_text::Piece::{Bytes, Key, Number, NumberOrNull, Text};
use bp_text::{Sink, WriteError};
use std::io::Write;

/// Returns the word for the finding.
fn found_name(found: Found) -> &'static [u8]
    ensures { result.now ≡ found_name found }
{
    match found {
        Found::Nothing => b"nothing",
        Found::Failed { .. } => b"failed",
        Found::Deadlock { .. } => b"deadlock",
    }
}

/// Returns the run in which something was found.
fn found_run(found: Found) -> Option<u64>
    ensures { result ≡ found_run found }
{
    match found {
        Found::Nothing => None,
        Found::Failed { run, .. } | Found::Deadlock { run, .. } => Some(run),
    }
}

/// Writes the number of runs made, how they ended, and the lacks of those that ended too early.
fn put_ends_members<W: Write>(counts: &Counts, sink: &mut Sink<'_, W>)
    ensures { Given W.contents sink.old sink.new (ends_members counts.now) }
{
    sink.put_pieces(&[
        Key(b"runs"),
        Number(counts.runs),
        Key(b"calls"),
        Number(counts.calls),
        Key(b"longest"),
        Number(counts.longest),
        Bytes(b",\"ended\":{\"finished\":"),
        Number(counts.ends.finished),
        Key(b"out_of_contexts"),
        Number(counts.ends.out_of_contexts),
        Key(b"cut_off"),
        Number(counts.ends.cut_off),
        Key(b"starved"),
        Number(counts.ends.starved),
        Key(b"deadlocked"),
        Number(counts.ends.deadlocked),
        Bytes(b"},\"lacked\":{\"contexts\":"),
        Number(counts.ends.lacking_contexts),
        Key(b"calls"),
        Number(counts.ends.lacking_calls),
        Key(b"frames"),
        Number(counts.ends.lacking_frames),
        Bytes(b"}"),
    ])
}

/// Writes the number of contexts that the runs used, and the statements and threads reached.
fn put_reach_members<W: Write>(counts: &Counts, sink: &mut Sink<'_, W>)
    ensures { Given W.contents sink.old sink.new (reach_members counts.now) }
{
    sink.put_pieces(&[
        Bytes(b",\"contexts\":{\"least\":"),
        Number(counts.contexts.least),
        Key(b"middle"),
        Number(counts.contexts.middle),
        Key(b"most"),
        Number(counts.contexts.most),
        Bytes(b"},\"statements\":{\"reached\":"),
        Number(counts.statements.reached),
        Key(b"all"),
        Number(counts.statements.all),
        Bytes(b"},\"assertions\":{\"reached\":"),
        Number(counts.assertions.reached),
        Key(b"all"),
        Number(counts.assertions.all),
        Bytes(b"},\"threads\":{\"reached\":"),
        Number(counts.threads.reached),
        Key(b"all"),
        Number(counts.threads.all),
        Bytes(b"}"),
    ])
}

/// Writes the object of the finding and of the statements and threads that the runs reached.
fn put_summary_object<W: Write>(tested: &TestReport, sink: &mut Sink<'_, W>)
    ensures { Given W.contents sink.old sink.new (summary_object tested.now) }
{
    sink.put_pieces(&[
        Bytes(b"{\"kind\":\"test\",\"version\":4"),
        Key(b"found"),
        Text(found_name(tested.found)),
        Key(b"run"),
        NumberOrNull(found_run(tested.found)),
    ]);
    let failure = failed_assertion(tested);
    let statement = statement_of(tested.statements.as_slice(), failure);
    put_failure_member(failure, statement, sink);
    put_waits_member(tested.positions.as_slice(), tested.waiting.as_slice(), sink);
    put_asked_member(tested, sink);
    put_ends_members(&tested.counts, sink);
    put_reach_members(&tested.counts, sink);
    let distinct = tested.distinct;
    sink.put_pieces(&[
        Bytes(b",\"distinct\":{\"runs\":"),
        Number(distinct.runs),
        Key(b"of"),
        Number(distinct.of),
        Key(b"once"),
        Number(distinct.once),
        Key(b"new_percent"),
        NumberOrNull(new_percent(distinct)),
        Bytes(b"}"),
    ]);
    put_notes_members(tested, sink)
}

/// Writes the summary of a test as objects, each on a line.
pub fn put_summary_objects<W: Write>(tested: &TestReport, out: &mut W) -> Result<(), WriteError>
    ensures { let text = summary_objects tested.now in
        Writes (W.contents out.old) (W.contents out.new) text result }
{
    let mut sink = Sink::new(out);
    put_summary_object(tested, &mut sink);
    let (lines, reached) = (tested.lines.as_slice(), tested.reached.as_slice());
    put_unreached(lines, reached, &mut sink);
    sink.finish()
}
