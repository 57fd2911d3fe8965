//! Shrinking a history that fails or ends in a deadlock.
//! How histories end.
//! Driving attempts again, in the memory of an earlier session.
ghost use Rattle.std.specs.Prelude.{◌≡◌, ◌≤◌, IfOk, List, true, IfErr, OnOk};
ghost use Rattle.bp_syntax.specs.Ast.{Program};
ghost use Rattle.bp_machine.specs.Histories.{granted_calls, IsLegal, IsReport};
ghost use Rattle.bp_machine.specs.Setups.{Fits, SetupOf};
ghost use Rattle.bp_machine.specs.declared.calls.Call.{Call as Answered};
ghost use Rattle.bp_machine.specs.Sessions.{Stands, AfterEach};
ghost use Rattle.bp_test.specs.Tests.{IsDeadlock};
ghost use Rattle.bp_test.specs.Shrinks.{IsEnd, with_contexts, IsDriven, IsShrunk, IsShrunkOf, EndsIn, unseeded};

use crate::searches::{Driven, Search, improve};
use crate::waits::{Waiting, failed_instruction, waiting_threads};
use bp_flat::Code;
use bp_machine::{
    AskError, Call, Reply, Report, Session, Setup, live_threads, runs_are_histories,
    steps_are_within,
};
use std::alloc::{AllocError, Global};

/// A history that ends as another one does, and is no larger.
#[derive(Drop)]
pub struct Shrunk {
    /// Its setup: without a seed, and with as many contexts as its steps use.
    pub setup: Setup,
    /// The attempts. Each made a step.
    pub history: Vec<Call>,
    pub report: Report,
}

/// Returns the attempts that made a step.
pub(crate) fn granted(alloc: Global, history: &[Call]) -> Result<Vec<Call>, AllocError>
    ensures { IfOk result (λ v. v.items ≡ granted_calls history.now) }
{
    let mut calls = Vec::new(alloc);
    for call in history {
        if matches!(call.reply, Reply::Stepped | Reply::Failed) {
            calls.push(*call)?;
        }
    }
    Ok(calls)
}

/// Returns the setup with this number of contexts and no seed.
fn with_contexts(setup: &Setup, contexts: u32) -> Result<Setup, AllocError>
    requires { contexts ≤ setup.now.contexts }
    ensures { IfOk result (λ x. x ≡ with_contexts setup.now contexts) }
{
    setup.is_in_range();
    let unseeded = setup.try_copy()?.with_seed(None);
    Ok(unseeded.with_bounds(contexts, setup.calls()))
}

/// Returns the best history's attempts that made a step, in the setup of the contexts they use.
fn used(alloc: Global, code: &Code, setup: &Setup, search: &Search) -> Result<Shrunk, AllocError>
    requires fits { Fits code.now.tree setup.now }
    requires driven { IsDriven code.now.tree setup.now search.now.end search.now.best }
    ensures { IfOk result (λ g.
        IsShrunkOf code.now.tree setup.now search.now g) }
{
    runs_are_histories();
    steps_are_within();
    let best = &search.best;
    let history = granted(alloc, best.history.as_slice())?;
    let setup = with_contexts(setup, best.report.contexts)?;
    setup.is_in_range();
    let calls = history.as_slice();
    let report = Report {
        calls: calls.len() as u64,
        left_live: live_threads(&setup, calls),
        ..best.report
    };
    Ok(Shrunk {
        setup,
        history,
        report,
    })
}

/// Returns a history with the same end, by no more attempts and no more contexts: the same
/// assertion fails, or the same threads wait at the same assumptions. Contexts are left out and
/// joined, loops and other attempts are left out, and choices are 0, as long as that makes it
/// smaller and `limits` allows the work. The attempts keep their bits, so the returned setup has no
/// seed, and as many contexts as are used.
pub fn shrink(
    alloc: Global,
    code: &Code,
    setup: &Setup,
    history: &[Call],
    report: &Report,
    end: HistoryEnd,
) -> Result<Shrunk, AllocError>
    requires fits { Fits code.now.tree setup.now }
    requires legal { IsLegal code.now.tree setup.now history.now }
    requires report { IsReport setup.now history.now report.now }
    requires ends { IsEnd code.now.tree setup.now history.now end }
    ensures { IfOk result (λ g.
        IsShrunk code.now.tree setup.now history.now end g) }
{
    let setup = setup.try_copy()?.with_seed(None);
    let search = Search {
        session: Session::new(alloc, code, &setup)?,
        end,
        best: Driven {
            history: Vec::from_slice(alloc, history)?,
            report: *report,
        },
        lines: Vec::new(alloc),
        spare: Driven {
            history: Vec::new(alloc),
            report: *report,
        },
        is_taken: false,
    };
    let search = improve(search)?;
    let shrunk = used(alloc, code, &setup, &search)?;
    Ok(shrunk)
}

/// The end of a history.
#[derive(Drop)]
pub enum HistoryEnd {
    /// An assertion failed, at the instruction of this number.
    Failure { number: u32 },
    /// The threads are deadlocked: these wait, in ascending order.
    Deadlock { waiting: Vec<Waiting> },
    /// Neither.
    Other,
}

/// Returns the end of the history of a session. Allocates only in a deadlock.
pub fn history_end(alloc: Global, session: &Session) -> Result<HistoryEnd, AllocError>
    ensures end { IfOk result (EndsIn session.now) }
    ensures memory { IfErr result (λ _.
        AfterEach session.now (λ t h. IsDeadlock t session.now.setup h)) }
{
    if let Some(number) = failed_instruction(session) {
        return Ok(HistoryEnd::Failure { number });
    }
    if !session.is_deadlocked() {
        return Ok(HistoryEnd::Other);
    }
    let waiting = waiting_threads(alloc, session)?;
    Ok(HistoryEnd::Deadlock { waiting })
}

/// Returns whether two ends are the same: the same instruction, or the same threads that wait at
/// the same instructions.
pub(crate) fn is_same(one: &HistoryEnd, other: &HistoryEnd) -> bool
    ensures { result ≡ true
        → (t : Program) (s : SetupOf) (h : List Answered)
        → IsEnd t s h one.now
        → IsEnd t s h other.now }
{
    match (one, other) {
        (HistoryEnd::Failure { number }, HistoryEnd::Failure { number: failed }) => {
            number == failed
        }
        (HistoryEnd::Deadlock { waiting }, HistoryEnd::Deadlock { waiting: threads }) => {
            waiting.as_slice() == threads.as_slice()
        }
        (HistoryEnd::Other, HistoryEnd::Other) => true,
        _ => false,
    }
}

/// Makes an attempt again, if the thread may make it, and appends it.
fn make_again(session: &mut Session, history: &mut Vec<Call>, line: &Call) -> Result<(), AllocError>
    requires stands { Stands session.old.code.tree session.old history.old.items }
    ensures stands { OnOk result (Stands session.new.code.tree session.new history.new.items) }
    ensures kept { (session.new.code ≡ session.old.code) × (session.new.setup ≡ session.old.setup) }
{
    match session.ask_with(line.thread, line.bit) {
        Ok(call) => {
            history.push(call)?;
            Ok(())
        }
        Err(AskError::Memory) => Err(AllocError),
        Err(_) => Ok(()),
    }
}

/// Drives the attempts again without a seed, each with its thread and its bit. Those that a thread
/// may not make are left out, and so are the attempts after a failure.
pub(crate) fn drive_again(
    session: &mut Session,
    history: &mut Vec<Call>,
    lines: &[Call],
) -> Result<(), AllocError>
    requires { Fits session.old.code.tree session.old.setup }
    ensures stands { OnOk result (Stands session.new.code.tree session.new history.new.items) }
    ensures code { session.new.code ≡ session.old.code }
    ensures setup { OnOk result (session.new.setup ≡ unseeded session.old.setup) }
{
    session.restart(None)?;
    history.clear();
    for line in lines {
        if session.is_failed() {
            return Ok(());
        }
        make_again(session, history, line)?;
    }
    Ok(())
}
