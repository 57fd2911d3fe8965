//! The shown facts of the end of a history, as plain values.
ghost use Rattle.std.specs.Prelude.{if◌then◌else◌, ◌≡◌, ◌++◌, [], suc, ℕ, List, map, option_map, IfOk, IsSomeAnd, OnOk};
ghost use Rattle.bp_syntax.specs.Ast.{Program};
ghost use Rattle.bp_syntax.specs.Views.{decision_of};
ghost use Rattle.bp_flat.specs.InstrEffects.{store_of};
ghost use Rattle.bp_flat.specs.Moves.{Configuration, frame_store};
ghost use Rattle.bp_flat.specs.StandsFor.{named_store};
ghost use Rattle.bp_machine.specs.declared.calls.Call.{Call as Answered};
ghost use Rattle.bp_machine.specs.Histories.{configuration_after, outcome_of};
ghost use Rattle.bp_machine.specs.Sessions.{Stands};
ghost use Rattle.bp_machine.specs.Setups.{threads};
ghost use Rattle.bp_machine.specs.Runs.{IsTop};
ghost use Rattle.bp_source.specs.Names.{variables_read};
ghost use Rattle.bp_view.specs.CallFacts.{entry_of, AreProgramFacts};
ghost use Rattle.bp_view.specs.FooterFacts.{condition_in, footer_in, named_entries, named_entry, waiting, AreFailureFacts, AreFooterFacts, AreStandingFacts, AreWaitsFacts, IsAtCondition};

use crate::change_facts::Change;
use crate::program_facts::{ProgramFacts, source_statement_of};
use bp_flat::{Store, bit_of, local_slot_of, slot_of};
use bp_machine::{Outcome, Report, Session, Top};
use bp_source::{decider_at, procedure_at, variables_read};
use bp_syntax::{Decider, Name, Proc};
use bp_text::Position;
use std::alloc::{AllocError, Global};

/// The shown facts of an assertion or an assumption at which a thread is.
#[derive(Drop)]
pub struct ConditionFacts<'a> {
    /// The number of the thread.
    pub thread: u32,
    /// The position at which it begins.
    pub position: Position,
    /// The text of its statement.
    pub text: &'a [u8],
    /// The variables that it reads, with their values.
    pub values: Vec<Change<'a>>,
}

/// The shown facts of the end of a history.
#[derive(Drop)]
pub struct FooterFacts<'a> {
    pub report: Report,
    /// Whether the threads are deadlocked.
    pub deadlocked: bool,
    /// The assertion that failed, if one did.
    pub failure: Option<ConditionFacts<'a>>,
    /// The assumptions at which threads wait in a deadlock, in the order of the threads.
    pub waits: Vec<ConditionFacts<'a>>,
}

/// Adds a variable with its value, if it has this name: a local hides a global.
fn add_variable<'a>(
    values: &mut Vec<Change<'a>>,
    globals: &[Name],
    proc: &'a Proc,
    store: Store,
    name: &'a [u8],
) -> Result<(), AllocError>
    ensures { let s = named_store globals.now proc.entry.now (store_of store) in
        let more = named_entry proc.entry.now s name.entry.now in
        OnOk result (map entry_of values.new.items ≡ map entry_of values.old.items ++ more) }
{
    if let Some(slot) = local_slot_of(proc, name) {
        let value = bit_of(store.locals, slot);
        let owner = Some(proc);
        values.push(Change { owner, name, value })?;
        return Ok(());
    }
    let Some(slot) = slot_of(globals, name) else {
        return Ok(());
    };
    let value = bit_of(store.globals, slot);
    let owner = None;
    values.push(Change { owner, name, value })?;
    Ok(())
}

/// Returns the variables of these names, with their values.
fn variables_named<'a>(
    alloc: Global,
    globals: &[Name],
    proc: &'a Proc,
    store: Store,
    names: &[&'a [u8]],
) -> Result<Vec<Change<'a>>, AllocError>
    ensures { let s = named_store globals.now proc.entry.now (store_of store) in
        let read = named_entries proc.entry.now s (map (λ n. n.now) names.entry.now) in
        IfOk result (λ v. map entry_of v.items ≡ read) }
{
    let mut values = Vec::new(alloc);
    for name in names {
        add_variable(&mut values, globals, proc, store, name)?;
    }
    Ok(values)
}

/// Returns the variables that a decider reads, with their values in the frame at this top.
fn values_read<'a>(
    alloc: Global,
    program: &ProgramFacts<'a>,
    decider: &'a Decider,
    top: Top,
) -> Result<Vec<Change<'a>>, AllocError>
    ensures { (t : Program) (text : List ℕ) (c : Configuration) (i : ℕ)
        → AreProgramFacts t text program.now
        → (is : IsTop t c i top)
        → let s = frame_store c.globals is.frame in
        let names = variables_read (decision_of decider.entry.now) in
        let read = named_entries is.frame.procedure s names in
        IfOk result (λ v. map entry_of v.items ≡ read) }
{
    let Some(proc) = procedure_at(program.statements, program.procs, top.number) else {
        return Ok(Vec::new(alloc));
    };
    let names = variables_read(alloc, decider)?;
    variables_named(alloc, program.globals, proc, top.store, &names)
}

/// Returns the facts of the assertion or the assumption at which a thread stands.
fn condition_of<'a>(
    alloc: Global,
    program: &ProgramFacts<'a>,
    session: &Session,
    thread: u32,
) -> Result<Option<ConditionFacts<'a>>, AllocError>
    ensures { let t = session.now.code.tree in (text : List ℕ) (h : List Answered)
        → AreProgramFacts t text program.now
        → Stands t session.now h
        → let now = configuration_after t session.now.setup h in
        IsAtCondition now thread
        → let are = AreStandingFacts text now in
        let is = λ (x : ConditionFacts). (x.thread ≡ thread) × are (condition_in x) in
        IfOk result (λ o. IsSomeAnd o is) }
{
    let Some(top) = session.top(thread) else {
        return Ok(None);
    };
    let Some(statement) = source_statement_of(program, top) else {
        return Ok(None);
    };
    let Some(position) = statement.position else {
        return Ok(None);
    };
    let Some(decider) = decider_at(alloc, program.procs, top.number)? else {
        return Ok(None);
    };
    let values = values_read(alloc, program, decider, top)?;
    let shown = statement.excerpt.text.as_slice();
    Ok(Some(ConditionFacts {
        thread,
        position,
        text: shown,
        values,
    }))
}

/// Adds the assumption of a thread, if it waits.
fn add_wait<'a>(
    alloc: Global,
    waits: &mut Vec<ConditionFacts<'a>>,
    program: &ProgramFacts<'a>,
    session: &Session,
    thread: u32,
) -> Result<(), AllocError>
    ensures { let t = session.now.code.tree in (text : List ℕ) (h : List Answered)
        → AreProgramFacts t text program.now
        → Stands t session.now h
        → let now = configuration_after t session.now.setup h in
        AreWaitsFacts text now (waiting t now thread) (map condition_in waits.old.items)
        → let facts = map condition_in waits.new.items in
        OnOk result (AreWaitsFacts text now (waiting t now (suc thread)) facts) }
{
    if !session.waits(thread) {
        return Ok(());
    }
    let Some(condition) = condition_of(alloc, program, session, thread)? else {
        return Ok(());
    };
    waits.push(condition)?;
    Ok(())
}

/// Returns the assumptions at which threads wait if the threads are deadlocked, else none.
fn waits_of<'a>(
    alloc: Global,
    program: &ProgramFacts<'a>,
    session: &Session,
    deadlocked: bool,
) -> Result<Vec<ConditionFacts<'a>>, AllocError>
    ensures { let t = session.now.code.tree in (text : List ℕ) (h : List Answered)
        → AreProgramFacts t text program.now
        → Stands t session.now h
        → let now = configuration_after t session.now.setup h in
        let all = waiting t now (threads session.now.setup) in
        let stuck = if deadlocked then all else [] in
        IfOk result (λ v. AreWaitsFacts text now stuck (map condition_in v.items)) }
{
    let mut waits = Vec::new(alloc);
    if !deadlocked {
        return Ok(waits);
    }
    for thread in 0..session.setup().threads() {
        add_wait(alloc, &mut waits, program, session, thread)?;
    }
    Ok(waits)
}

/// Returns the facts of the assertion that failed, if one did.
fn failure_of<'a>(
    alloc: Global,
    program: &ProgramFacts<'a>,
    session: &Session,
    outcome: Outcome,
) -> Result<Option<ConditionFacts<'a>>, AllocError>
    ensures { let t = session.now.code.tree in (text : List ℕ) (h : List Answered)
        → AreProgramFacts t text program.now
        → Stands t session.now h
        → outcome ≡ outcome_of h
        → let are = AreFailureFacts t text session.now.setup h outcome in
        IfOk result (λ o. are (option_map condition_in o)) }
{
    let Outcome::Failed { thread } = outcome else {
        return Ok(None);
    };
    condition_of(alloc, program, session, thread)
}

/// Returns the facts of the end of the history with this report, after which the session stands.
/// Fails only on allocation.
pub fn facts_of_footer<'a>(
    alloc: Global,
    program: &ProgramFacts<'a>,
    session: &Session,
    report: Report,
) -> Result<FooterFacts<'a>, AllocError>
    ensures { let t = session.now.code.tree in (text : List ℕ) (h : List Answered)
        → AreProgramFacts t text program.now
        → Stands t session.now h
        → report.outcome ≡ outcome_of h
        → let s = session.now.setup in
        IfOk result (λ x. AreFooterFacts t text s h report (footer_in x)) }
{
    let deadlocked = session.is_deadlocked();
    let failure = failure_of(alloc, program, session, report.outcome)?;
    let waits = waits_of(alloc, program, session, deadlocked)?;
    Ok(FooterFacts {
        report,
        deadlocked,
        failure,
        waits,
    })
}
