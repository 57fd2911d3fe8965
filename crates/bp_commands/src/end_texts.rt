//! What is said of the end of a run: its verdict, its outcome, and the threads that wait.
ghost use Rattle.std.specs.Prelude.{◌≡◌, List, IfOk};
ghost use Rattle.bp_machine.specs.declared.calls.Call.{Call};
ghost use Rattle.bp_machine.specs.Histories.{IsReport};
ghost use Rattle.bp_machine.specs.Sessions.{Stands};
ghost use Rattle.bp_view.specs.FooterFacts.{footer_in};
ghost use Rattle.bp_commands.specs.EndTexts.{format_of, verdict_of, AreEndTexts, AreNoTexts};

use bp_machine::{Report, Session};
use bp_source::{Verdict, ViewFormat, source_statements_of};
use bp_view::{FooterFacts, facts_of_footer, facts_of_program, outcome_text, waits_text};
use std::alloc::{AllocError, Global};

/// What is said of the end of a run.
#[derive(Drop)]
pub struct EndTexts {
    pub verdict: Verdict,
    /// The outcome; in JSON the object of the assertion that failed, or `null`.
    pub outcome: Vec<u8>,
    /// The threads that wait in a deadlock; in JSON each as an object after a comma.
    pub waits: Vec<u8>,
}

fn format_of(json: bool) -> ViewFormat
    ensures { result ≡ format_of json }
{
    if json {
        ViewFormat::Json
    } else {
        ViewFormat::Columns
    }
}

/// Returns the verdict on a run that ends with these facts.
fn verdict_of(footer: &FooterFacts<'_>) -> Verdict
    ensures { result ≡ verdict_of (footer_in footer.now) }
{
    if footer.failure.is_some() {
        return Verdict::Failure;
    }
    if footer.deadlocked {
        Verdict::Deadlock
    } else {
        Verdict::Run
    }
}

/// Returns what is said of the end of a run of the program in this file: a run with this report,
/// after which the session stands.
pub(crate) fn texts_of_run(
    alloc: Global,
    text: &[u8],
    json: bool,
    file: &str,
    session: &Session,
    report: Report,
) -> Result<EndTexts, AllocError>
    ensures { let t = session.now.code.tree in (h : List Call)
        → Stands t session.now h
        → IsReport session.now.setup h report
        → IfOk result (AreEndTexts json file.now text.now t session.now.setup h report) }
{
    let checked = session.code().checked();
    let statements = source_statements_of(alloc, text, checked)?;
    let program = facts_of_program(statements.as_slice(), checked);
    let footer = facts_of_footer(alloc, &program, session, report)?;
    let format = format_of(json);
    let failure = footer.failure.as_ref();
    let outcome = outcome_text(alloc, format, file, footer.deadlocked, failure)?;
    let waits = waits_text(alloc, format, file, footer.waits.as_slice())?;
    Ok(EndTexts {
        verdict: verdict_of(&footer),
        outcome,
        waits,
    })
}

/// Returns what is said if there is no run.
pub(crate) fn no_texts(alloc: Global, json: bool) -> Result<EndTexts, AllocError>
    ensures { IfOk result (AreNoTexts json) }
{
    let outcome = outcome_text(alloc, format_of(json), "", false, None)?;
    Ok(EndTexts {
        verdict: Verdict::Run,
        outcome,
        waits: Vec::new(alloc),
    })
}
