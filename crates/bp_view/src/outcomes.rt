//! The text of the footer of a view, from its facts: the report of the history.
ghost use Rattle.std.specs.Prelude.{◌≡◌, ℕ, List, map, option_map, IfOk};
ghost use Rattle.bp_machine.specs.declared.calls.Call.{Call as Answered};
ghost use Rattle.bp_machine.specs.Histories.{outcome_of};
ghost use Rattle.bp_machine.specs.Sessions.{Stands};
ghost use Rattle.bp_view.specs.Buffers.{Gains, Grown};
ghost use Rattle.bp_view.specs.FooterFacts.{condition_in, footer_in};
ghost use Rattle.bp_source.specs.declared.options.ViewFormat.TheVariants.{Columns, Json};
ghost use Rattle.bp_view.specs.Views.{clean_text, failure_text, footer_text, outcome_text, wait_text, waits_text, IsFooter, IsViewContextOf};

use crate::buffers::Buffer;
use crate::footer_facts::{ConditionFacts, FooterFacts, facts_of_footer};
use crate::frames::{push_condition_lines, push_condition_object};
use crate::view_contexts::ViewContext;
use bp_machine::{Report, Session};
use bp_source::ViewFormat;
use bp_text::Piece::{Bytes, Key, Number};
use std::alloc::{AllocError, Global};

/// Adds the thread whose assertion failed, and the text of the assertion.
fn push_failure(view: &mut Buffer, format: ViewFormat, file: &str, assertion: &ConditionFacts<'_>)
    ensures { let text = failure_text format file.now (condition_in assertion.now) in
        Grown view.old view.new text }
{
    match format {
        ViewFormat::Columns => {
            view.put_three(
                Bytes(b"an assertion of thread "),
                Number(u64::from(assertion.thread)),
                Bytes(b" failed"),
            );
            push_condition_lines(view, file, assertion)
        }
        ViewFormat::Json => push_condition_object(view, assertion),
    }
}

/// Returns the outcome if no assertion failed, and the threads are deadlocked or not.
fn clean_text(format: ViewFormat, deadlocked: bool) -> &'static [u8]
    ensures { result.now ≡ clean_text format deadlocked }
{
    match format {
        ViewFormat::Columns if deadlocked => b"deadlock",
        ViewFormat::Columns => b"no assertion failed",
        ViewFormat::Json => b"null",
    }
}

/// Adds the outcome.
fn push_outcome(
    view: &mut Buffer,
    format: ViewFormat,
    file: &str,
    deadlocked: bool,
    failure: Option<&ConditionFacts<'_>>,
)
    ensures { let failure = option_map (λ x. condition_in x.now) failure.entry in
        Grown view.old view.new (outcome_text format file.now deadlocked failure) }
{
    match failure {
        Some(assertion) => push_failure(view, format, file, assertion),
        None => view.put(Bytes(clean_text(format, deadlocked))),
    }
}

/// Returns the text of the outcome. In a view for people, the place of a failure is in this file.
pub fn outcome_text(
    alloc: Global,
    format: ViewFormat,
    file: &str,
    deadlocked: bool,
    failure: Option<&ConditionFacts<'_>>,
) -> Result<Vec<u8>, AllocError>
    ensures { let failure = option_map (λ x. condition_in x.now) failure.entry in
        let text = outcome_text format file.now deadlocked failure in
        IfOk result (λ v. v.items ≡ text) }
{
    let mut view = Buffer::new(alloc);
    push_outcome(&mut view, format, file, deadlocked, failure);
    view.into_bytes()
}

/// Adds a thread that waits, and the text of its assumption.
fn push_wait(view: &mut Buffer, format: ViewFormat, file: &str, assumption: &ConditionFacts<'_>)
    ensures { let text = wait_text format file.now (condition_in assumption.now) in
        Grown view.old view.new text }
{
    match format {
        ViewFormat::Columns => {
            let thread = u64::from(assumption.thread);
            view.put_three(Bytes(b"\nthread "), Number(thread), Bytes(b" waits"));
            push_condition_lines(view, file, assumption)
        }
        ViewFormat::Json => {
            view.put(Bytes(b","));
            push_condition_object(view, assumption)
        }
    }
}

/// Adds the threads that wait, each after a line feed or a comma.
#[tactic(auto, using(crate::proofs::SingleFacts::all_mapped))]
fn push_waits(view: &mut Buffer, format: ViewFormat, file: &str, waits: &[ConditionFacts<'_>])
    ensures { let waits = map condition_in waits.now in
        Grown view.old view.new (waits_text format file.now waits) }
{
    for wait in waits {
        push_wait(view, format, file, wait);
    }
}

/// Returns the text of the threads that wait, each after a line feed or a comma. In a view for
/// people, their places are in this file.
pub fn waits_text(
    alloc: Global,
    format: ViewFormat,
    file: &str,
    waits: &[ConditionFacts<'_>],
) -> Result<Vec<u8>, AllocError>
    ensures { let waits = map condition_in waits.now in
        IfOk result (λ v. v.items ≡ waits_text format file.now waits) }
{
    let mut view = Buffer::new(alloc);
    push_waits(&mut view, format, file, waits);
    view.into_bytes()
}

/// Adds the counts of a report after an empty line, its outcome and the threads that wait, for
/// people.
fn push_footer_lines(view: &mut Buffer, file: &str, footer: &FooterFacts<'_>)
    ensures { Grown view.old view.new (footer_text Columns file.now (footer_in footer.now)) }
{
    let report = footer.report;
    view.put_pieces(&[
        Bytes(b"\n"),
        Number(report.calls),
        Bytes(b" calls, contexts "),
        Number(u64::from(report.contexts)),
        Bytes(b", open threads "),
        Number(u64::from(report.left_live)),
        Bytes(b"\n"),
    ]);
    let format = ViewFormat::Columns;
    push_outcome(
        view,
        format,
        file,
        footer.deadlocked,
        footer.failure.as_ref(),
    );
    push_waits(view, format, file, footer.waits.as_slice());
    view.put(Bytes(b"\n"))
}

/// Adds the object of a report, its outcome and the threads that wait.
fn push_footer_object(view: &mut Buffer, file: &str, footer: &FooterFacts<'_>)
    ensures { Grown view.old view.new (footer_text Json file.now (footer_in footer.now)) }
{
    let report = footer.report;
    view.put_pieces(&[
        Bytes(b"{\"kind\":\"end\""),
        Key(b"calls"),
        Number(report.calls),
        Key(b"contexts"),
        Number(u64::from(report.contexts)),
        Key(b"open"),
        Number(u64::from(report.left_live)),
        Key(b"failure"),
    ]);
    let format = ViewFormat::Json;
    push_outcome(
        view,
        format,
        file,
        footer.deadlocked,
        footer.failure.as_ref(),
    );
    view.put(Key(b"deadlock"));
    let start = view.len();
    push_waits(view, format, file, footer.waits.as_slice());
    view.close_list(start);
    view.put(Bytes(b"}\n"))
}

/// Adds the footer of a view in this format: a report, its outcome and the threads that wait.
fn push_footer(view: &mut Buffer, format: ViewFormat, file: &str, footer: &FooterFacts<'_>)
    ensures { Grown view.old view.new (footer_text format file.now (footer_in footer.now)) }
{
    match format {
        ViewFormat::Columns => push_footer_lines(view, file, footer),
        ViewFormat::Json => push_footer_object(view, file, footer),
    }
}

/// Adds the report of the history after which the session stands, and the text on an assertion that
/// failed in it, or on the threads that are deadlocked after it.
pub(crate) fn push_footer_of(
    alloc: Global,
    view: &mut Buffer,
    context: &ViewContext<'_>,
    session: &Session,
    report: Report,
)
    ensures { let t = session.now.code.tree in (text : List ℕ) (h : List Answered)
        → IsViewContextOf t text context.now
        → Stands t session.now h
        → report.outcome ≡ outcome_of h
        → let format = context.now.options.format in
        let footer = IsFooter format context.now.file.now t text session.now.setup h report in
        Gains footer view.old view.new }
{
    let Ok(footer) = facts_of_footer(alloc, &context.program, session, report) else {
        return view.refuse();
    };
    push_footer(view, context.options.format, context.file, &footer)
}
