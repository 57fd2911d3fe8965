//! The report of an exploration on standard error: lines for people, or one JSON object.
ghost use Rattle.std.specs.Prelude.{◌≡◌, option_map};
ghost use Rattle.bp_text.specs.Writing.{Given, Writes};
ghost use Rattle.bp_commands.specs.ExplorationTexts.{anywhere_by, anywhere_text, below_text, count_of, cut_text, digit, end_text, ending_by, exploration_object, exploration_text, finding_text, first_text, found_text, found_word, grouped, it_text, last_members, last_three, less_by, made_end, of_program, plural, reason_text, reason_word, run_by, sought_text, steps_text, traceless_by, unfinished_text, were_text, within_text};

use crate::exploration_ends::{Exploration, FoundKind, ListedSteps};
use bp_explore::Reason;
use bp_source::Verdict;
use bp_text::Piece::{Bytes, Displayed, Key, List, Number, NumberOrNull, Text, TextOrNull, Truth};
use bp_text::{Sink, WriteError};
use std::io::Write;

/// Returns the last digit of a number.
fn digit(number: u64) -> u8
    ensures { result ≡ digit number }
{
    b'0' + (number % 10) as u8
}

/// Writes a comma and the last three digits of a number.
fn put_last_three<W: Write>(number: u64, sink: &mut Sink<'_, W>)
    ensures { Given W.contents sink.old sink.new (last_three number) }
{
    sink.put(&[b',', digit(number / 100), digit(number / 10), digit(number)])
}

/// Writes a number with a comma before each three of its last nine digits.
fn put_grouped<W: Write>(number: u64, sink: &mut Sink<'_, W>)
    ensures { Given W.contents sink.old sink.new (grouped number) }
{
    if number < 1_000 {
        return sink.put_pieces(&[Number(number)]);
    }
    if number < 1_000_000 {
        sink.put_pieces(&[Number(number / 1_000)]);
        return put_last_three(number, sink);
    }
    if number < 1_000_000_000 {
        sink.put_pieces(&[Number(number / 1_000_000)]);
        put_last_three(number / 1_000, sink);
        return put_last_three(number, sink);
    }
    sink.put_pieces(&[Number(number / 1_000_000_000)]);
    put_last_three(number / 1_000_000, sink);
    put_last_three(number / 1_000, sink);
    put_last_three(number, sink)
}

/// Returns the ending of a noun after this number.
fn plural(number: u64) -> &'static [u8]
    ensures { result.now ≡ plural number }
{
    if number == 1 { b"" } else { b"s" }
}

/// Writes a number of these, as `1 state` and `2 states`.
fn put_count<W: Write>(number: u64, noun: &[u8], sink: &mut Sink<'_, W>)
    ensures { Given W.contents sink.old sink.new (count_of number noun.now) }
{
    put_grouped(number, sink);
    sink.put_pieces(&[Bytes(b" "), Bytes(noun), Bytes(plural(number))])
}

/// Writes the steps that are listed.
fn put_steps<W: Write>(count: u32, sink: &mut Sink<'_, W>)
    ensures { Given W.contents sink.old sink.new (steps_text count) }
{
    sink.put(b"makes the ");
    put_count(count as u64, b"listed step", sink);
    sink.put(b" in this order")
}

/// Writes the first steps that no run makes, and the number of them that a run makes.
fn put_first<W: Write>(made: u32, sink: &mut Sink<'_, W>)
    ensures { Given W.contents sink.old sink.new (first_text made) }
{
    if made == 0 {
        return sink.put(b"makes the first listed step");
    }
    sink.put(b"makes the first ");
    put_grouped(made as u64 + 1, sink);
    sink.put(b" listed steps in this order; a run makes ");
    put_grouped(made as u64, sink);
    sink.put(b" of them")
}

/// Returns the end that no run has if nothing is found.
fn end_text(with_deadlock: bool) -> &'static [u8]
    ensures { result.now ≡ end_text with_deadlock }
{
    if with_deadlock {
        b"fails or ends in a deadlock"
    } else {
        b"fails"
    }
}

/// Writes the aim of an exploration.
fn put_sought<W: Write>(x: &Exploration<'_>, sink: &mut Sink<'_, W>)
    ensures { Given W.contents sink.old sink.new (sought_text x.now) }
{
    match x.steps {
        None => sink.put(end_text(x.task.options.with_deadlock)),
        Some(
            ListedSteps {
                made: Some(made),
                ..
            },
        ) => put_first(made, sink),
        Some(steps) => put_steps(steps.count, sink),
    }
}

/// Returns why not everything was explored, and the remedy.
fn reason_text(reason: Reason) -> &'static [u8]
    ensures { result.now ≡ reason_text reason }
{
    match reason {
        Reason::States => b"note: no more states are kept; raise --states\n",
        Reason::Stopped => b"note: the time was over; raise --time\n",
        Reason::Memory => b"note: memory was refused\n",
    }
}

fn were_text(number: u64) -> &'static [u8]
    ensures { result.now ≡ were_text number }
{
    if number == 1 { b" was" } else { b" were" }
}

/// Writes the contexts within which no such run was found, and why the search ended there.
fn put_unfinished<W: Write>(x: &Exploration<'_>, reason: Reason, sink: &mut Sink<'_, W>)
    ensures { Given W.contents sink.old sink.new (unfinished_text x.now reason) }
{
    let contexts = x.facts.contexts as u64;
    sink.put(b"no run within ");
    put_count(contexts.saturating_sub(1), b"context", sink);
    sink.put(b" ");
    put_sought(x, sink);
    sink.put(b"; ");
    put_count(contexts, b"context", sink);
    sink.put(were_text(contexts));
    sink.put(b" not looked through: ");
    put_count(x.states as u64, b"state", sink);
    sink.put_pieces(&[Bytes(b"\n"), Bytes(reason_text(reason))])
}

/// Writes that no run of any number of contexts has the end that is searched for.
fn put_anywhere<W: Write>(x: &Exploration<'_>, sink: &mut Sink<'_, W>)
    ensures { Given W.contents sink.old sink.new (anywhere_by x.now.steps x.now) }
{
    match x.steps {
        None => {
            sink.put(b"no run of ");
            sink.put_pieces(&[Displayed(x.task.program.as_bytes())]);
            sink.put(b" ");
            put_sought(x, sink);
            sink.put(b", within any number of contexts")
        }
        Some(_) => {
            sink.put(b"no run, within any number of contexts, ");
            put_sought(x, sink)
        }
    }
}

/// Writes that with the number of states.
fn put_complete<W: Write>(x: &Exploration<'_>, sink: &mut Sink<'_, W>)
    ensures { Given W.contents sink.old sink.new (anywhere_text x.now) }
{
    put_anywhere(x, sink);
    sink.put(b": ");
    put_count(x.states as u64, b"state", sink);
    sink.put_pieces(&[
        Bytes(b", the last new one within "),
        Number(x.facts.contexts as u64),
        Bytes(b"\n"),
    ])
}

/// Writes the file of the program whose runs are meant, unless steps are listed.
fn put_program<W: Write>(steps: Option<ListedSteps>, file: &str, sink: &mut Sink<'_, W>)
    ensures { Given W.contents sink.old sink.new (of_program steps file.now) }
{
    match steps {
        None => sink.put_pieces(&[Bytes(b" of "), Displayed(file.as_bytes())]),
        Some(_) => sink.put(b""),
    }
}

/// Writes that no run within the bound has the end that is searched for.
fn put_within<W: Write>(x: &Exploration<'_>, sink: &mut Sink<'_, W>)
    ensures { Given W.contents sink.old sink.new (within_text x.now) }
{
    sink.put(b"no run");
    put_program(x.steps, x.task.program, sink);
    sink.put(b" within ");
    put_count(x.facts.contexts as u64, b"context", sink);
    sink.put(b" ");
    put_sought(x, sink);
    sink.put(b": ");
    put_count(x.states as u64, b"state", sink);
    sink.put(b"\n")
}

fn finding_text(found: FoundKind) -> &'static [u8]
    ensures { result.now ≡ finding_text found }
{
    match found {
        FoundKind::Failure => b"an assertion fails",
        _ => b"deadlock",
    }
}

/// Writes the note on the last step if an assertion fails in it.
fn put_made_end<W: Write>(verdict: Verdict, outcome: &[u8], sink: &mut Sink<'_, W>)
    ensures { Given W.contents sink.old sink.new (made_end verdict outcome.now) }
{
    if matches!(verdict, Verdict::Failure) {
        sink.put(b"\n");
        return sink.put(outcome);
    }
    sink.put(b"")
}

/// Writes the run that was found: its end, or the steps that it makes.
fn put_run<W: Write>(x: &Exploration<'_>, sink: &mut Sink<'_, W>)
    ensures { Given W.contents sink.old sink.new (run_by x.now.steps x.now.facts.trace x.now) }
{
    match (x.steps, x.facts.trace) {
        (None, true) => {
            sink.put(x.said.outcome.as_slice());
            sink.put(x.said.waits.as_slice())
        }
        (None, false) => sink.put(finding_text(x.facts.found)),
        (Some(steps), _) => {
            sink.put(b"a run ");
            put_steps(steps.count, sink);
            put_made_end(x.said.verdict, x.said.outcome.as_slice(), sink)
        }
    }
}

fn it_text(steps: Option<ListedSteps>) -> &'static [u8]
    ensures { result.now ≡ it_text steps }
{
    match steps {
        None => b"the run",
        Some(_) => b"it",
    }
}

/// Writes why there is not a trace of the run, if there is none.
fn put_traceless<W: Write>(x: &Exploration<'_>, sink: &mut Sink<'_, W>)
    ensures { let facts = x.now.facts in
        Given W.contents sink.old sink.new (traceless_by facts.trace facts.calls x.now.steps) }
{
    match (x.facts.trace, x.facts.calls) {
        (false, Some(calls)) => {
            sink.put(b", but no trace can hold ");
            sink.put(it_text(x.steps));
            sink.put(b": a thread makes ");
            put_count(calls, b"call", sink)
        }
        _ => sink.put(b""),
    }
}

/// Returns the end that no run within fewer contexts has.
fn less_text(steps: Option<ListedSteps>, with_deadlock: bool) -> &'static [u8]
    ensures { result.now ≡ less_by steps with_deadlock }
{
    match steps {
        None => end_text(with_deadlock),
        Some(_) => b"makes them",
    }
}

/// Writes the result for runs within fewer contexts than these.
fn put_below<W: Write>(x: &Exploration<'_>, contexts: u64, sink: &mut Sink<'_, W>)
    ensures { Given W.contents sink.old sink.new (below_text x.now contexts) }
{
    if contexts <= 1 {
        return sink.put(b"");
    }
    sink.put(b"no run within ");
    put_count(contexts - 1, b"context", sink);
    sink.put(b" ");
    sink.put(less_text(x.steps, x.task.options.with_deadlock));
    sink.put(b"\n")
}

/// Writes the finding.
fn put_found<W: Write>(x: &Exploration<'_>, sink: &mut Sink<'_, W>)
    ensures { Given W.contents sink.old sink.new (found_text x.now) }
{
    let contexts = x.facts.contexts as u64;
    sink.put(b"within ");
    put_count(contexts, b"context", sink);
    sink.put(b": ");
    put_run(x, sink);
    put_traceless(x, sink);
    sink.put(b"\n");
    put_below(x, contexts, sink)
}

/// Writes how an exploration ended.
fn put_ending<W: Write>(x: &Exploration<'_>, sink: &mut Sink<'_, W>)
    ensures { let facts = x.now.facts in
        let text = ending_by facts.found facts.reason facts.complete x.now in
        Given W.contents sink.old sink.new text }
{
    match (x.facts.found, x.facts.reason, x.facts.complete) {
        (FoundKind::Nothing, Some(reason), _) => put_unfinished(x, reason, sink),
        (FoundKind::Nothing, None, true) => put_complete(x, sink),
        (FoundKind::Nothing, None, false) => put_within(x, sink),
        (FoundKind::Failure | FoundKind::Deadlock | FoundKind::Steps, _, _) => put_found(x, sink),
    }
}

/// Writes the number of states that were cut off at a full stack.
fn put_cut<W: Write>(states: u64, sink: &mut Sink<'_, W>)
    ensures { Given W.contents sink.old sink.new (cut_text states) }
{
    if states == 0 {
        return sink.put(b"");
    }
    sink.put(b"note: in ");
    put_count(states, b"state", sink);
    sink.put(b" a call had no room on a stack of 1,024 frames; ");
    sink.put(b"what follows it was not looked through\n")
}

fn found_word(found: FoundKind) -> &'static [u8]
    ensures { result.now ≡ found_word found }
{
    match found {
        FoundKind::Nothing => b"nothing",
        FoundKind::Failure => b"failed",
        FoundKind::Deadlock => b"deadlock",
        FoundKind::Steps => b"steps",
    }
}

fn reason_word(reason: Option<Reason>) -> Option<&'static [u8]>
    ensures { option_map (λ s. s.now) result ≡ option_map reason_word reason }
{
    match reason? {
        Reason::States => Some(b"states"),
        Reason::Stopped => Some(b"time"),
        Reason::Memory => Some(b"memory"),
    }
}

/// Writes the last members of the object: the threads that wait, or the listed steps.
fn put_last_members<W: Write>(steps: Option<ListedSteps>, waits: &[u8], sink: &mut Sink<'_, W>)
    ensures { Given W.contents sink.old sink.new (last_members steps waits.now) }
{
    match steps {
        None => sink.put_pieces(&[Key(b"deadlock"), List(waits)]),
        Some(ListedSteps { count, made }) => sink.put_pieces(&[
            Key(b"steps"),
            Number(count as u64),
            Key(b"made"),
            NumberOrNull(match made {
                Some(made) => Some(made as u64),
                None => None,
            }),
        ]),
    }
}

/// Writes the object.
fn put_object<W: Write>(x: &Exploration<'_>, sink: &mut Sink<'_, W>)
    ensures { Given W.contents sink.old sink.new (exploration_object x.now) }
{
    let facts = x.facts;
    sink.put_pieces(&[
        Bytes(b"{\"kind\":\"explore\",\"version\":1"),
        Key(b"found"),
        Text(found_word(facts.found)),
        Key(b"contexts"),
        Number(facts.contexts as u64),
        Key(b"complete"),
        Truth(facts.complete),
        Key(b"states"),
        Number(x.states as u64),
        Key(b"full_stacks"),
        Number(x.full_stacks as u64),
        Key(b"reason"),
        TextOrNull(reason_word(facts.reason)),
        Key(b"calls"),
        NumberOrNull(facts.calls),
        Key(b"trace"),
        Truth(facts.trace),
        Key(b"failure"),
        Bytes(x.said.outcome.as_slice()),
    ]);
    put_last_members(x.steps, x.said.waits.as_slice(), sink);
    sink.put(b"}\n")
}

/// Writes the report of an exploration: lines for people, or an object.
pub(crate) fn put_exploration<W: Write>(x: &Exploration<'_>, out: &mut W) -> Result<(), WriteError>
    ensures { Writes (W.contents out.old) (W.contents out.new) (exploration_text x.now) result }
{
    let mut sink = Sink::new(out);
    if x.task.json {
        put_object(x, &mut sink);
        return sink.finish();
    }
    put_ending(x, &mut sink);
    put_cut(x.full_stacks as u64, &mut sink);
    sink.finish()
}
