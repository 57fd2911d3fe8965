//! Possible caveats of a test: what it did not explore, and what it did not search for. The share
//! of further runs that would be new.
ghost use Rattle.std.specs.Prelude.{◌≡◌, flat_map};
ghost use Rattle.bp_text.specs.Pieces.{piece_text};
ghost use Rattle.bp_text.specs.Writing.{Given};
ghost use Rattle.bp_messages.specs.Notes.{are_many, count_note, note_if, notes_members, notes_of, notes_text, new_percent, novelty_note, novelty_said};

use crate::limits::NOTED_SHARE;
use crate::summaries::TestReport;
use bp_test::Distinct;
use bp_text::Piece::{Bytes, Key, Number, Truth};
use bp_text::{Piece, Sink};
use std::io::Write;

/// The caveats of a test's result. All but the first are for tests that found nothing.
#[derive(Clone, Copy)]
struct Notes {
    /// Runs ended in a deadlock, and the test did not search for one.
    deadlocked: bool,
    /// Fewer contexts were allowed than there are threads.
    few_contexts: bool,
    no_run: bool,
    /// The program has no assertion, and the test searched for nothing else.
    no_assertion: bool,
    /// The program has assertions, there were runs, and none reached one.
    no_assertion_reached: bool,
    /// Many runs ended too early for want of contexts.
    out_of_contexts: bool,
    /// Many runs ended too early for want of attempts.
    cut_off: bool,
    /// Many runs ended too early because a stack was full.
    full_stack: bool,
}

const FEW_CONTEXTS: &[u8] = b"note: fewer contexts than threads; raise --contexts\n";

const NO_RUN: &[u8] = b"note: no run was made\n";

const NO_ASSERTION: &[u8] = b"note: the program has no assertion\n";

const NO_ASSERTION_REACHED: &[u8] = b"note: no run reached an assertion\n";

const DEADLOCKED: &[u8] = b"ended in a deadlock; --deadlock stops at the first\n";

const OUT_OF_CONTEXTS: &[u8] = b"ran out of contexts; raise --contexts\n";

const CUT_OFF: &[u8] = b"ran out of calls; raise --calls\n";

const FULL_STACK: &[u8] = b"ended with a full stack of 1,024 frames\n";

/// Returns whether enough of the runs ended this way for a note to give their number.
fn are_many(count: u64, runs: u64) -> bool
    ensures { result ≡ are_many count runs }
{
    0 < count && runs <= count.saturating_mul(NOTED_SHARE)
}

/// Returns the caveats of a test.
fn notes_of(tested: &TestReport) -> Notes
    ensures { result ≡ notes_of tested.now }
{
    let counts = &tested.counts;
    let (runs, assertions) = (counts.runs, counts.assertions);
    let is_clean = !tested.has_found();
    let is_of_assertions = !tested.options.with_deadlock;
    Notes {
        deadlocked: is_of_assertions && 0 < counts.ends.deadlocked,
        few_contexts: is_clean && u64::from(tested.setup.contexts()) < counts.threads.all,
        no_run: is_clean && runs == 0,
        no_assertion: is_clean && is_of_assertions && assertions.all == 0,
        no_assertion_reached: is_clean && 0 < runs && 0 < assertions.all && assertions.reached == 0,
        out_of_contexts: is_clean && are_many(counts.ends.lacking_contexts, runs),
        cut_off: is_clean && are_many(counts.ends.lacking_calls, runs),
        full_stack: is_clean && are_many(counts.ends.lacking_frames, runs),
    }
}

/// Makes a note on the number of runs with this property.
fn count_note<'a>(count: u64, runs: u64, said: &'a [u8]) -> [Piece<'a>; 6]
    ensures { flat_map piece_text result ≡ count_note count runs said.now }
{
    [
        Bytes(b"note: "),
        Number(count),
        Bytes(b" of "),
        Number(runs),
        Bytes(b" runs "),
        Bytes(said),
    ]
}

/// Returns the pieces of a note, if it applies.
fn note_if<'a>(applies: bool, note: &'a [Piece<'a>]) -> &'a [Piece<'a>]
    ensures { flat_map piece_text result.now ≡ note_if applies (flat_map piece_text note.now) }
{
    if applies { note } else { &[] }
}

/// Writes notes, by their pieces, one after the other.
fn put_each<W: Write>(notes: &[&[Piece<'_>]], sink: &mut Sink<'_, W>)
    ensures { let text = flat_map (λ note. flat_map piece_text note.now) notes.now in
        Given W.contents sink.old sink.new text }
{
    for note in notes {
        sink.put_pieces(note);
    }
}

/// Writes a line for each note that applies. If nothing was found, also writes the share of further
/// runs that would be new.
pub(crate) fn put_notes<W: Write>(tested: &TestReport, sink: &mut Sink<'_, W>)
    ensures { Given W.contents sink.old sink.new (notes_text tested.now) }
{
    let notes = notes_of(tested);
    let (runs, ends) = (tested.counts.runs, &tested.counts.ends);
    let novelty = novelty_note(tested.distinct);
    let deadlocked = count_note(ends.deadlocked, runs, DEADLOCKED);
    let out_of_contexts = count_note(ends.lacking_contexts, runs, OUT_OF_CONTEXTS);
    let cut_off = count_note(ends.lacking_calls, runs, CUT_OFF);
    let full_stack = count_note(ends.lacking_frames, runs, FULL_STACK);
    put_each(
        &[
            note_if(!tested.has_found(), &novelty),
            note_if(notes.few_contexts, &[Bytes(FEW_CONTEXTS)]),
            note_if(notes.no_run, &[Bytes(NO_RUN)]),
            note_if(notes.no_assertion, &[Bytes(NO_ASSERTION)]),
            note_if(notes.no_assertion_reached, &[Bytes(NO_ASSERTION_REACHED)]),
            note_if(notes.deadlocked, &deadlocked),
            note_if(notes.out_of_contexts, &out_of_contexts),
            note_if(notes.cut_off, &cut_off),
            note_if(notes.full_stack, &full_stack),
        ],
        sink,
    )
}

/// Writes the member with the notes that apply, and the end of the object.
pub(crate) fn put_notes_members<W: Write>(tested: &TestReport, sink: &mut Sink<'_, W>)
    ensures { Given W.contents sink.old sink.new (notes_members (notes_of tested.now)) }
{
    let notes = notes_of(tested);
    sink.put_pieces(&[
        Bytes(b",\"notes\":{\"few_contexts\":"),
        Truth(notes.few_contexts),
        Key(b"no_run"),
        Truth(notes.no_run),
        Key(b"no_assertion"),
        Truth(notes.no_assertion),
        Key(b"no_assertion_reached"),
        Truth(notes.no_assertion_reached),
        Key(b"deadlocked"),
        Truth(notes.deadlocked),
        Key(b"out_of_contexts"),
        Truth(notes.out_of_contexts),
        Key(b"cut_off"),
        Truth(notes.cut_off),
        Key(b"full_stack"),
        Truth(notes.full_stack),
        Bytes(b"}}\n"),
    ])
}

/// Returns the number of new runs among a hundred further ones, rounded down, if there were runs.
/// Good and Turing estimate it by the share of the runs that were seen once.
pub(crate) fn new_percent(distinct: Distinct) -> Option<u64>
    ensures { result ≡ new_percent distinct }
{
    if distinct.of == 0 {
        return None;
    }
    Some(distinct.once.saturating_mul(100) / distinct.of)
}

const ALL_SEEN: &[u8] =
    b"note: every run was seen before: about all that this drawing reaches was tried\n";

const FEW_NEW: &[u8] = b"note: less than 1% of new runs would be new\n";

/// Returns the note on new runs, if `once` runs were seen once and `percent` of a hundred further
/// runs would be new.
fn novelty_said<'a>(once: u64, percent: u64) -> [Piece<'a>; 3]
    ensures { flat_map piece_text result ≡ novelty_said once percent }
{
    if once == 0 {
        return [Bytes(ALL_SEEN), Bytes(b""), Bytes(b"")];
    }
    if percent == 0 {
        return [Bytes(FEW_NEW), Bytes(b""), Bytes(b"")];
    }
    [
        Bytes(b"note: about "),
        Number(percent),
        Bytes(b"% of new runs would be new\n"),
    ]
}

/// Returns the note on the share of further runs that would be new.
pub(crate) fn novelty_note<'a>(distinct: Distinct) -> [Piece<'a>; 3]
    ensures { flat_map piece_text result ≡ novelty_note distinct }
{
    match new_percent(distinct) {
        Some(percent) => novelty_said(distinct.once, percent),
        None => [Bytes(b""), Bytes(b""), Bytes(b"")],
    }
}
