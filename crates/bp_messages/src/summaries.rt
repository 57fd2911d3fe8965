//! The summary of a test: its finding, and the coverage of the program. The number of runs that a
//! test was to make, after the number made.
ghost use Rattle.std.specs.Prelude.{◌≡◌};
ghost use Rattle.bp_text.specs.Writing.{Writes, Given};
ghost use Rattle.bp_text.specs.Pieces.{piece_text};
ghost use Rattle.bp_messages.specs.Summaries.{counts_text, deadlock_text, finding_text, line_unless, nothing_text, nothing_phrase, summary_text, unreached_text, is_limit, limit_of, limit_text, of_word};
ghost use Rattle.bp_messages.specs.Notes.{has_found};

use crate::asked_tests::put_asked_line;
use crate::failures::{failed_assertion, put_failure, put_waits, statement_of};
use crate::limits::MOST_RUNS;
use crate::notes::put_notes;
use bp_machine::Setup;
use bp_source::TestOptions;
use bp_test::{Counts, Distinct, Found, Waiting};
use bp_text::Piece::{Bytes, Number};
use bp_text::{Piece, Position, Sink, WriteError};
use std::io::Write;

/// Writes that a deadlock was found in a run of this test, and the places at which threads wait.
fn put_deadlock<W: Write>(tested: &TestReport, run: u64, sink: &mut Sink<'_, W>)
    ensures { Given W.contents sink.old sink.new (deadlock_text tested.now run) }
{
    let runs = tested.options.runs;
    sink.put_pieces(&[
        Bytes(b"deadlock in run "),
        Number(run),
        of_word(runs),
        limit_piece(runs),
    ]);
    let (file, positions) = (tested.file.as_slice(), tested.positions.as_slice());
    put_waits(file, positions, tested.waiting.as_slice(), sink);
    sink.put(b"\n")
}

/// Returns the end that was searched for and not found.
fn nothing_phrase(with_deadlock: bool) -> &'static [u8]
    ensures { result.now ≡ nothing_phrase with_deadlock }
{
    if with_deadlock {
        b"no assertion failed and no deadlock"
    } else {
        b"no assertion failed"
    }
}

/// Writes that nothing was found in the runs that were made, of the runs to be made, within this
/// number of contexts.
fn put_nothing<W: Write>(phrase: &[u8], made: u64, runs: u64, contexts: u32, sink: &mut Sink<'_, W>)
    ensures { Given W.contents sink.old sink.new (nothing_text phrase.now made runs contexts) }
{
    let contexts = u64::from(contexts);
    if made != runs {
        return sink.put_pieces(&[
            Bytes(phrase),
            Bytes(b" in "),
            Number(made),
            of_word(runs),
            limit_piece(runs),
            Bytes(b" runs within "),
            Number(contexts),
            Bytes(b" contexts: the time is over\n"),
        ]);
    }
    sink.put_pieces(&[
        Bytes(phrase),
        Bytes(b" in "),
        Number(runs),
        Bytes(b" runs within "),
        Number(contexts),
        Bytes(b" contexts\n"),
    ])
}

/// Writes the finding.
fn put_finding<W: Write>(tested: &TestReport, sink: &mut Sink<'_, W>)
    ensures { Given W.contents sink.old sink.new (finding_text tested.now tested.now.found) }
{
    let runs = tested.options.runs;
    match tested.found {
        Found::Nothing => {
            let phrase = nothing_phrase(tested.options.with_deadlock);
            put_nothing(
                phrase,
                tested.counts.runs,
                runs,
                tested.setup.contexts(),
                sink,
            )
        }
        Found::Failed { run, .. } => {
            let failure = failed_assertion(tested);
            let statement = statement_of(tested.statements.as_slice(), failure);
            put_failure(failure, statement, tested.file.as_slice(), run, runs, sink)
        }
        Found::Deadlock { run, .. } => put_deadlock(tested, run, sink),
    }
}

/// Writes the number of runs made, how they ended, and the statements and threads reached.
fn put_counts<W: Write>(counts: &Counts, sink: &mut Sink<'_, W>)
    ensures { Given W.contents sink.old sink.new (counts_text counts.now) }
{
    sink.put_pieces(&[
        Bytes(b"runs "),
        Number(counts.runs),
        Bytes(b", calls "),
        Number(counts.calls),
        Bytes(b", longest "),
        Number(counts.longest),
        Bytes(b"\nended: finished "),
        Number(counts.ends.finished),
        Bytes(b", out of contexts "),
        Number(counts.ends.out_of_contexts),
        Bytes(b", cut off "),
        Number(counts.ends.cut_off),
        Bytes(b", starved "),
        Number(counts.ends.starved),
        Bytes(b", deadlocked "),
        Number(counts.ends.deadlocked),
        Bytes(b"\ncontexts: least "),
        Number(counts.contexts.least),
        Bytes(b", middle "),
        Number(counts.contexts.middle),
        Bytes(b", most "),
        Number(counts.contexts.most),
        Bytes(b"\nreached: statements "),
        Number(counts.statements.reached),
        Bytes(b" of "),
        Number(counts.statements.all),
        Bytes(b", assertions "),
        Number(counts.assertions.reached),
        Bytes(b" of "),
        Number(counts.assertions.all),
        Bytes(b", threads "),
        Number(counts.threads.reached),
        Bytes(b" of "),
        Number(counts.threads.all),
        Bytes(b"\n"),
    ])
}

/// Returns the line of a statement that was not reached.
fn line_unless(is_reached: bool, line: &Vec<u8>) -> &[u8]
    ensures { result.now ≡ line_unless is_reached line.now }
{
    if is_reached { b"" } else { line.as_slice() }
}

/// Writes the lines of the statements that no run reached.
#[tactic(auto, using(bp_text::proofs::Givings::left_after))]
pub(crate) fn put_unreached<W: Write>(lines: &[Vec<u8>], reached: &[bool], sink: &mut Sink<'_, W>)
    ensures { Given W.contents sink.old sink.new (unreached_text lines.now reached.now) }
{
    let mut lines = lines;
    let mut reached = reached;
    while let (Some((line, more)), Some((is_reached, others))) = (
        lines.split_first(),
        reached.split_first(),
    ) {
        sink.put(line_unless(*is_reached, line));
        lines = more;
        reached = others;
    }
}

/// Writes the summary of a test.
pub fn put_summary<W: Write>(tested: &TestReport, out: &mut W) -> Result<(), WriteError>
    ensures { let text = summary_text tested.now in
        Writes (W.contents out.old) (W.contents out.new) text result }
{
    let mut sink = Sink::new(out);
    put_finding(tested, &mut sink);
    put_asked_line(tested, &mut sink);
    put_counts(&tested.counts, &mut sink);
    let distinct = tested.distinct;
    sink.put_pieces(&[
        Bytes(b"distinct: runs "),
        Number(distinct.runs),
        Bytes(b" of "),
        Number(distinct.of),
        Bytes(b", seen once "),
        Number(distinct.once),
        Bytes(b"\n"),
    ]);
    put_notes(tested, &mut sink);
    let (lines, reached) = (tested.lines.as_slice(), tested.reached.as_slice());
    put_unreached(lines, reached, &mut sink);
    sink.finish()
}

/// Returns whether a number of runs is a limit.
fn is_limit(runs: u64) -> bool
    ensures { result ≡ is_limit runs }
{
    runs != MOST_RUNS
}

/// Returns the most runs, if they are limited.
pub(crate) fn limit_of(runs: u64) -> Option<u64>
    ensures { result ≡ limit_of runs }
{
    if is_limit(runs) { Some(runs) } else { None }
}

/// Returns the word before the most runs, if they are limited.
pub(crate) fn of_word<'a>(runs: u64) -> Piece<'a>
    ensures { piece_text result ≡ of_word runs }
{
    if is_limit(runs) {
        Bytes(b" of ")
    } else {
        Bytes(b"")
    }
}

/// Returns the most runs as a piece, if they are limited.
pub(crate) fn limit_piece<'a>(runs: u64) -> Piece<'a>
    ensures { piece_text result ≡ limit_text runs }
{
    if is_limit(runs) {
        Number(runs)
    } else {
        Bytes(b"")
    }
}

/// The finding of a test, and the coverage of the program.
#[derive(Drop)]
pub struct TestReport {
    /// The name of the program's text.
    pub file: Vec<u8>,
    /// The options of the test.
    pub options: TestOptions,
    /// The start of each run, except for its seed.
    pub setup: Setup,
    pub found: Found,
    /// The instruction whose assertion failed in the run that was found, if one did.
    pub failed: Option<u32>,
    /// The threads that wait at the end of the run that was found.
    pub waiting: Vec<Waiting>,
    /// The positions at which the statements of the instructions begin.
    pub positions: Vec<Option<Position>>,
    /// The texts of the statements of the instructions.
    pub statements: Vec<Vec<u8>>,
    pub counts: Counts,
    /// The number of different runs.
    pub distinct: Distinct,
    /// The lines of the program's statements, if those that no run reached are listed.
    pub lines: Vec<Vec<u8>>,
    /// For each instruction of the code, whether a run reached it.
    pub reached: Vec<bool>,
    /// Whether the summary is JSON objects. The lines of the statements then are objects too.
    pub json: bool,
}

impl TestReport {
    /// Returns whether the test found a run that it searches for.
    pub fn has_found(&self) -> bool
        ensures { result ≡ has_found self.now.found }
    {
        !matches!(self.found, Found::Nothing)
    }
}
