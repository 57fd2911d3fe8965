//! The command `confirm`.
ghost use Rattle.std.specs.Prelude.{◌≡◌, ◌++◌, IfOk, OnOk};
ghost use Rattle.bp_machine.specs.Sessions.{Stands};
ghost use Rattle.bp_commands.specs.Confirms.{choice_text, choices_text, deadlock_lead, deadlock_line, of_confirm, status_of_verdict, verdict_line, verdict_word, IsConfirmation};
ghost use Rattle.bp_text.specs.Writing.{Writes};

use crate::commands::PairCommand;
use crate::end_texts::{EndTexts, texts_of_run};
use crate::explanations::SecondInput;
use crate::programs::open;
use crate::run_ends::CommandAnswer;
use bp_confirm::{Confirmed, LastChoice, confirm};
use bp_machine::Report;
use bp_messages::{Error, VerdictFacts, exit_status, put_verdict};
use bp_source::{ConfirmTask, NamedStart, Verdict};
use bp_text::Piece::{Bit, Bytes, Number};
use bp_text::{WriteError, part_from, push_pieces, put, put_pieces};
use bp_trace::{Version, write_with_live_threads};
use std::alloc::{AllocError, Global};
use std::io::Write;

/// The exit status if the run of the steps does not end as expected, and of refuted steps.
const UNEXPECTED: u8 = 4;

/// The verdict on steps that are a run, and the form of its report.
#[derive(Drop)]
pub struct Confirmation {
    /// What is said of the end of their run, in JSON.
    pub said: EndTexts,
    pub report: Report,
    /// The last bits on which the deadlock depends, each as an object after a comma or in words.
    pub choices: Vec<u8>,
    /// The expected verdict, if the exit status tells whether it is met.
    pub expected: Option<Verdict>,
    /// Whether the report is a JSON object.
    pub json: bool,
}

/// Returns the word for a verdict.
fn verdict_word(verdict: Verdict) -> &'static [u8]
    ensures { result.now ≡ verdict_word verdict }
{
    match verdict {
        Verdict::Failure => b"failure",
        Verdict::Deadlock => b"deadlock",
        Verdict::Run => b"run",
    }
}

/// Returns the text on a deadlock before the last bits on which it depends.
fn deadlock_lead(choices: &[u8]) -> &'static [u8]
    ensures { result.now ≡ deadlock_lead choices.now }
{
    if choices.is_empty() {
        b"the steps are a run of the program; they end in a deadlock"
    } else {
        b"the steps are a run of the program; they may end in a deadlock, by"
    }
}

/// Writes the line of a deadlock, which depends on these last bits.
fn put_deadlock<W: Write>(choices: &[u8], out: &mut W) -> Result<(), WriteError>
    ensures { let line = deadlock_line choices.now in
        Writes (W.contents out.old) (W.contents out.new) line result }
{
    let lead = Bytes(deadlock_lead(choices));
    put_pieces(out, &[lead, Bytes(part_from(choices, 4)), Bytes(b"\n")])
}

/// Writes the line of a verdict for people.
fn put_line<W: Write>(choices: &[u8], verdict: Verdict, out: &mut W) -> Result<(), WriteError>
    ensures { let line = verdict_line choices.now verdict in
        Writes (W.contents out.old) (W.contents out.new) line result }
{
    match verdict {
        Verdict::Deadlock => put_deadlock(choices, out),
        Verdict::Failure => put(
            out,
            b"the steps are a run of the program; an assertion fails at the last one\n",
        ),
        Verdict::Run => put(
            out,
            b"the steps are a run of the program; no assertion fails at the last one\n",
        ),
    }
}

/// Adds a last bit on which a deadlock depends.
fn push_choice(text: &mut Vec<u8>, json: bool, choice: LastChoice) -> Result<(), AllocError>
    ensures { let more = choice_text json choice in
        OnOk result (text.new.items ≡ text.old.items ++ more) }
{
    let thread = Number(u64::from(choice.thread));
    let bit = Bit(choice.bit);
    if json {
        return push_pieces(
            text,
            &[
                Bytes(b",{\"thread\":"),
                thread,
                Bytes(b",\"bit\":"),
                bit,
                Bytes(b"}"),
            ],
        );
    }
    push_pieces(
        text,
        &[
            Bytes(b" and ?="),
            bit,
            Bytes(b" at the last step of thread "),
            thread,
        ],
    )
}

/// Returns the last bits on which a deadlock depends.
fn choices_text(alloc: Global, json: bool, choices: &[LastChoice]) -> Result<Vec<u8>, AllocError>
    ensures { IfOk result (λ v. v.items ≡ choices_text json choices.now) }
{
    let mut text = Vec::new(alloc);
    for choice in choices {
        push_choice(&mut text, json, *choice)?;
    }
    Ok(text)
}

/// Returns the exit status of a verdict: that of a failure, or 0 or 4 if a verdict is expected.
fn status_of_verdict(expected: Option<Verdict>, verdict: Verdict) -> u8
    ensures { result ≡ status_of_verdict expected verdict }
{
    match expected {
        None => exit_status(matches!(verdict, Verdict::Failure), None),
        Some(wanted) if wanted == verdict => exit_status(false, None),
        Some(_) => UNEXPECTED,
    }
}

impl CommandAnswer for Confirmation {
    ghost rule = { of_confirm };

    fn status(&self) -> u8 {
        status_of_verdict(self.expected, self.said.verdict)
    }

    fn summarize<E: Write>(&self, errors: &mut E) -> Result<(), WriteError> {
        if self.json {
            return put_verdict(
                VerdictFacts {
                    verdict: verdict_word(self.said.verdict),
                    steps: self.report.calls,
                    contexts: Some(u64::from(self.report.contexts)),
                    failure: &self.said.outcome,
                    waits: &self.said.waits,
                    choices: &self.choices,
                },
                errors,
            );
        }
        // A failure needs no line: its trace and the status show it.
        if self.expected.is_none() && matches!(self.said.verdict, Verdict::Failure) {
            return Ok(());
        }
        put_line(&self.choices, self.said.verdict, errors)
    }
}

/// Returns the verdict on steps of the program of a text, which this history takes.
fn confirmation_of(
    alloc: Global,
    text: &[u8],
    confirmed: &Confirmed,
    task: &ConfirmTask<'_>,
) -> Result<Confirmation, AllocError>
    ensures { let t = confirmed.now.session.code.tree in
        Stands t confirmed.now.session confirmed.now.history.items
        → let setup = confirmed.now.session.setup in
        let history = confirmed.now.history.items in
        let choices = confirmed.now.choices.items in
        IfOk result (IsConfirmation text.now t setup history choices task.now) }
{
    let report = confirmed.session.report();
    let said = texts_of_run(alloc, text, true, "", &confirmed.session, report)?;
    let choices = choices_text(alloc, task.json, confirmed.choices.as_slice())?;
    Ok(Confirmation {
        said,
        report,
        choices,
        expected: task.expected,
        json: task.json,
    })
}

/// `confirm`: takes the steps that a model checker reports, and writes the trace.
impl PairCommand for ConfirmTask<'_> {
    ghost use Rattle.bp_commands.specs.declared.explanations.SecondInput.{SecondInput};
    ghost use Rattle.bp_commands.specs.Confirms.{confirms};

    type Answer = Confirmation;

    ghost command = { λ x. confirms x };

    ghost second_input = { λ _. SecondInput.Steps };

    fn apply<W: Write>(
        &self,
        alloc: Global,
        text: &[u8],
        steps: &[u8],
        out: &mut W,
    ) -> Result<Confirmation, Error> {
        let opened = open(alloc, text, &self.start, &self.named)?;
        let (code, setup) = (&opened.code, &opened.setup);
        let confirmed = confirm(alloc, text, code, setup, self.bound, steps)?;
        let answer = confirmation_of(alloc, text, &confirmed, self)?;
        let (setup, left_live) = (confirmed.session.setup(), answer.report.left_live);
        write_with_live_threads(Version::One, setup, &confirmed.history, left_live, out)?;
        Ok(answer)
    }

    fn second_input(&self) -> SecondInput {
        SecondInput::Steps
    }

    fn named_start(&self) -> Option<NamedStart<'_>> {
        let (start, named) = (&self.start, &self.named);
        Some(NamedStart { start, named })
    }
}
