//! The shown facts of an attempt, as plain values. The shown facts of a context of a history.
ghost use Rattle.std.specs.Prelude.{◌≡◌, [], ℕ, List, map, MatchOption, OnOk};
ghost use Rattle.bp_syntax.specs.Ast.{Program};
ghost use Rattle.bp_flat.specs.Moves.{Configuration};
ghost use Rattle.bp_machine.specs.declared.calls.Call.{Call as Answered};
ghost use Rattle.bp_machine.specs.Histories.{stack_of};
ghost use Rattle.bp_machine.specs.Setups.{SetupOf};
ghost use Rattle.bp_machine.specs.Runs.{IsTop};
ghost use Rattle.bp_view.specs.CallFacts.{changes_by, choice_of, facts_in, is_tried, next_by, next_in, AreCallFacts, IsNextOf, entry_of, IsReplayedCall, AreProgramFacts};
ghost use Rattle.bp_view.specs.ContextLines.{changes_within, context_in, AreContextFacts, IsSpan};

use crate::change_facts::{Change, add_differing};
use crate::checkpoints::ReplayedCall;
use crate::program_facts::{ProgramFacts, source_statement_of};
use crate::spans::Span;
use bp_machine::{Call, Reply, Top};
use bp_source::name_at;
use bp_syntax::Proc;
use bp_text::Position;
use std::alloc::AllocError;

/// The next statement of a thread.
#[derive(Clone, Copy)]
pub struct Next<'a> {
    /// The start of the statement, as printed.
    pub place: &'a [u8],
    /// The start as a line and a column; None at the end of a procedure.
    pub position: Option<Position>,
    /// The name of the procedure; None if the thread has ended.
    pub procedure: Option<&'a [u8]>,
    /// The number of frames of the stack.
    pub depth: usize,
    /// The text of the statement; None if the thread has ended.
    pub text: Option<&'a [u8]>,
    /// Whether the statement reads a choice bit.
    pub reads_choice: bool,
}

/// The shown facts of an attempt.
#[derive(Clone, Copy)]
pub struct CallFacts<'a> {
    /// Its number in the history, from 1.
    pub number: u64,
    /// The attempt with its reply.
    pub call: Call,
    /// The context of its step; None if it made none.
    pub context: Option<u32>,
    /// Whether another thread made the step before.
    pub is_switch: bool,
    /// Its thread's next statement, before it.
    pub next: Next<'a>,
    /// The variables that it changed, with their values after it.
    pub changes: &'a [Change<'a>],
}

/// A thread that has ended has no next statement.
const NOTHING: Next<'static> = Next {
    place: b"-",
    position: None,
    procedure: None,
    depth: 0,
    text: None,
    reads_choice: false,
};

/// Returns the next statement of a thread with this top of its stack.
pub(crate) fn next_of<'a>(program: &ProgramFacts<'a>, top: Option<Top>) -> Next<'a>
    ensures is { next_in result ≡ next_by program.now top }
    ensures next { (t : Program) (text : List ℕ) (c : Configuration) (i : ℕ)
        → AreProgramFacts t text program.now
        → MatchOption top (stack_of c i ≡ []) (IsTop t c i)
        → IsNextOf text (stack_of c i) (next_in result) }
{
    let Some(top) = top else {
        return NOTHING;
    };
    let Some(statement) = source_statement_of(program, top) else {
        return NOTHING;
    };
    Next {
        place: statement.place.as_slice(),
        position: statement.position,
        procedure: name_at(program.procs, statement.procedure),
        depth: top.depth,
        text: Some(statement.excerpt.text.as_slice()),
        reads_choice: statement.excerpt.reads_choice,
    }
}

/// Returns the facts of an attempt that changed these variables.
pub fn facts_of_call<'a>(
    program: &ProgramFacts<'a>,
    replayed: &ReplayedCall,
    changes: &'a [Change<'a>],
) -> CallFacts<'a>
    ensures next { next_in result.next ≡ next_by program.now replayed.now.before }
    ensures facts { (t : Program) (text : List ℕ) (s : SetupOf) (h : List Answered) (x : Answered)
        → AreProgramFacts t text program.now
        → IsReplayedCall t s h x replayed.now
        → map entry_of changes.entry.now ≡ changes_by t s h x
        → AreCallFacts t text s h x (facts_in result) }
{
    CallFacts {
        number: replayed.number,
        call: replayed.call,
        context: replayed.context,
        is_switch: replayed.is_switch,
        next: next_of(program, replayed.before),
        changes,
    }
}

/// Returns whether the next statement was tried.
fn is_tried(reply: Reply) -> bool
    ensures { result ≡ is_tried reply }
{
    matches!(reply, Reply::Stepped | Reply::Failed | Reply::Blocked)
}

impl CallFacts<'_> {
    /// Returns the choice bit of an attempt whose statement reads one, if it was tried.
    pub fn choice(&self) -> Option<bool>
        ensures { result ≡ choice_of (facts_in self.now) }
    {
        if self.next.reads_choice && is_tried(self.call.reply) {
            Some(self.call.bit)
        } else {
            None
        }
    }
}

/// The shown facts of a context.
#[derive(Clone, Copy)]
pub struct ContextFacts<'a> {
    /// Its number, from 1.
    pub number: u64,
    /// The thread of its steps.
    pub thread: u32,
    /// The number of its first attempt, from 1.
    pub first: u64,
    /// The number of its last attempt, from 1.
    pub last: u64,
    /// Its thread's next statement before the first of them.
    pub from: Next<'a>,
    /// Its thread's next statement after the last of them.
    pub to: Next<'a>,
    /// The globals whose values then differ.
    pub changes: &'a [Change<'a>],
}

/// Fills the list with the globals whose values differ before and after a span. Fails only on
/// allocation.
pub fn fill_changes_within<'a>(
    changes: &mut Vec<Change<'a>>,
    program: &ProgramFacts<'a>,
    span: &Span,
) -> Result<(), AllocError>
    ensures { (t : Program) (text : List ℕ) (s : SetupOf) (h : List Answered) (n : ℕ)
        → AreProgramFacts t text program.now
        → (is : IsSpan t s h n span.now)
        → let filled = map entry_of changes.new.items in
        OnOk result (filled ≡ changes_within t s h is.first is.last) }
{
    changes.clear();
    let (before, after) = (span.before.globals, span.after.globals);
    add_differing(changes, None, program.globals, 0, before, after)
}

/// Returns the facts of a span that is the context of this number, and that changed these globals.
pub fn facts_of_context<'a>(
    program: &ProgramFacts<'a>,
    number: u64,
    span: &Span,
    changes: &'a [Change<'a>],
) -> ContextFacts<'a>
    ensures facts { (t : Program) (text : List ℕ) (s : SetupOf) (h : List Answered)
        → AreProgramFacts t text program.now
        → (is : IsSpan t s h number span.now)
        → map entry_of changes.entry.now ≡ changes_within t s h is.first is.last
        → AreContextFacts t text s h number (context_in result) }
    ensures changes { result.changes.now ≡ changes.entry.now }
{
    ContextFacts {
        number,
        thread: span.thread,
        first: span.first,
        last: span.last,
        from: next_of(program, span.before.top),
        to: next_of(program, span.after.top),
        changes,
    }
}
