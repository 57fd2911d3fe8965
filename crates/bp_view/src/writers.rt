//! The lines of a view, each made by a session that makes the attempt once more. The lines of the
//! attempts that are shown. The attempts that a view shows, by its options.
ghost use Rattle.std.specs.Prelude.{◌≡◌, ◌++◌, ◌∷◌, [], ℕ, List, option_map, MatchResult, OnOk, None};
ghost use Rattle.bp_syntax.specs.Ast.{Program};
ghost use Rattle.bp_machine.specs.declared.calls.Call.{Call as Answered};
ghost use Rattle.bp_machine.specs.Histories.{stack_of, configuration_after};
ghost use Rattle.bp_machine.specs.Runs.{values_printed};
ghost use Rattle.bp_machine.specs.Sessions.{IsPrintRefusal, AfterEach};
ghost use Rattle.bp_machine.specs.Setups.{SetupOf};
ghost use Rattle.bp_text.specs.Lines.{Adds};
ghost use Rattle.bp_trace.specs.Replays.{IsPlayable};
ghost use Rattle.bp_view.specs.Buffers.{Gains, Grown};
ghost use Rattle.bp_view.specs.CallFacts.{facts_in, next_by, IsReplayedCall};
ghost use Rattle.bp_view.specs.declared.program_facts.ProgramFacts.{ProgramFacts as FactsOf};
ghost use Rattle.bp_view.specs.Views.{HaveMembers, IsViewContextOf, next_print_in, line_in, printed_in, IsShownLine, filter_of};

use crate::buffers::Buffer;
use crate::call_facts::{CallFacts, facts_of_call};
use crate::change_facts::{Change, fill_changes};
use crate::checkpoints::{ReplayedCall, last_step, printed_by, replayed_call};
use crate::filters::CallFilter;
use crate::lines::push_line;
use crate::prefixes::Prefix;
use crate::program_facts::has_watched;
use crate::statement_members::{StatementMembers, ready_members};
use crate::variables::push_object;
use crate::view_contexts::ViewContext;
use bp_machine::{AskError, Call, Session, Top};
use bp_source::{ViewFormat, ViewOptions};

/// Returns the values that the thread's next statement prints, if a view of this format has them.
fn next_print(
    session: &Session,
    format: ViewFormat,
    thread: u32,
) -> Result<Option<Vec<bool>>, AskError>
    ensures { AfterEach session.now (λ t h. let now = configuration_after t session.now.setup h in
        MatchResult result
        (λ values. option_map (λ v. v.items) values ≡ next_print_in format now thread)
        (IsPrintRefusal session.now.setup thread
        (values_printed now.globals (stack_of now thread)))) }
{
    match format {
        ViewFormat::Columns => Ok(None),
        ViewFormat::Json => session.next_print(thread),
    }
}

/// Makes the lines of a view, one for each attempt of its history.
#[derive(Drop)]
pub(crate) struct ViewWriter<'a> {
    pub(crate) context: ViewContext<'a>,
    /// It stands after the attempts that were made.
    pub(crate) session: Session,
    /// The text that was made and is not yet written.
    pub(crate) text: Buffer,
    /// The fields that lines have in common with the lines before.
    pub(crate) prefix: Prefix,
    /// The members of each statement, in a view of objects.
    pub(crate) statements: Vec<StatementMembers>,
    /// Room for the changes of an attempt.
    pub(crate) changes: Vec<Change<'a>>,
    /// The thread of the last step.
    pub(crate) last: Option<u32>,
    /// The number of attempts made.
    pub(crate) made: u64,
}

impl ViewWriter<'_> {
    ghost use Rattle.bp_view.specs.Views.{HasMade, IsShownLine};

    /// Makes the next attempt of the history, which is the recorded one, and adds its line. No
    /// attempt of a history that may be played is refused, unless for memory.
    pub(crate) fn make_line(&mut self, recorded: &Call) -> Result<(), AskError>
        ensures made { (t : Program) (h : List Answered)
            → HasMade t h self.old
            → IsPlayable t self.old.session.setup (h ++ recorded.now ∷ [])
            → MatchResult result
            (λ _. HasMade t (h ++ recorded.now ∷ []) self.new)
            (λ f. f ≡ AskError.Memory) }
        ensures line { (t : Program) (text : List ℕ) (h : List Answered)
            → HasMade t h self.old
            → IsPlayable t self.old.session.setup (h ++ recorded.now ∷ [])
            → IsViewContextOf t text self.old.context
            → let x = self.old.context in
            HaveMembers x.options.format x.program self.old.statements.items
            → let s = self.old.session.setup in
            let whole = x.history.now in
            let line = IsShownLine t text s x.options x.widths whole h recorded.now in
            OnOk result (Adds line self.old.text.bytes.items self.new.text.bytes.items) }
        ensures kept { (self.new.session.setup ≡ self.old.session.setup)
            × (self.new.context ≡ self.old.context)
            × (self.new.statements ≡ self.old.statements) }
    {
        self.session.setup().is_in_range();
        let number = self.made.saturating_add(1);
        let format = self.context.options.format;
        let next = next_print(&self.session, format, recorded.thread)?;
        let replayed = replayed_call(&mut self.session, self.last, number, recorded)?;
        let printed = printed_by(next.as_deref(), replayed.call.reply);
        push_shown(
            &mut self.text,
            &mut self.prefix,
            &mut self.changes,
            &self.context,
            self.statements.as_slice(),
            &replayed,
            printed,
        );
        self.text.finish()?;
        self.last = last_step(self.last, &replayed.call);
        self.made = number;
        Ok(())
    }
}

/// Adds the line of an attempt and of those folded into it, `calls` in all, in the format of the
/// view. `before` is the top of its thread's stack before it. The attempt printed these values, if
/// any.
fn push_line_in(
    view: &mut Buffer,
    prefix: &mut Prefix,
    context: &ViewContext<'_>,
    facts: &CallFacts<'_>,
    statements: &[StatementMembers],
    before: &Option<Top>,
    calls: usize,
    printed: Option<&[bool]>,
)
    ensures { let o = context.now.options in
        let printed = option_map (λ v. v.now) printed.entry in
        let f = facts_in facts.now in (program : FactsOf)
        → HaveMembers o.format program statements.now
        → f.next ≡ next_by program before.now
        → let line = line_in o.format o.has_colour context.now.widths f calls printed in
        Grown view.old view.new line }
{
    let options = context.options;
    match options.format {
        ViewFormat::Columns => {
            let widths = &context.widths;
            push_line(view, prefix, widths, options.has_colour, facts, calls)
        }
        ViewFormat::Json => {
            let ready = ready_members(statements, before);
            push_object(view, facts, ready, printed)
        }
    }
}

/// Adds the line of an attempt, if it is shown: it is asked for, it changed a watched variable, and
/// its line stands for an attempt. `changes` is room for the attempt's changes.
pub(crate) fn push_shown<'a>(
    view: &mut Buffer,
    prefix: &mut Prefix,
    changes: &mut Vec<Change<'a>>,
    context: &ViewContext<'a>,
    statements: &[StatementMembers],
    replayed: &ReplayedCall,
    printed: Option<&[bool]>,
)
    ensures { (t : Program) (text : List ℕ) (s : SetupOf) (h : List Answered) (x : Answered)
        → IsViewContextOf t text context.now
        → HaveMembers context.now.options.format context.now.program statements.now
        → IsReplayedCall t s h x replayed.now
        → let o = context.now.options in
        option_map (λ v. v.now) printed.entry ≡ printed_in o.format (configuration_after t s h) x
        → let line = IsShownLine t text s o context.now.widths context.now.history.now h x in
        Gains line view.old view.new }
{
    let (call, number) = (&replayed.call, replayed.number);
    let (filter, count) = (&context.filter, context.history.len() as u64);
    if !filter.asks_for(call.thread, number, count) {
        return;
    }
    let Ok(()) = fill_changes(changes, &context.program, replayed) else {
        return view.refuse();
    };
    if !has_watched(context.names, changes) {
        return;
    }
    let calls = filter.calls_in_line(context.history, call, number);
    if calls == 0 {
        return;
    }
    let facts = facts_of_call(&context.program, replayed, changes);
    let before = &replayed.before;
    push_line_in(
        view, prefix, context, &facts, statements, before, calls, printed,
    )
}

/// Returns options for all attempts, without colours.
pub(crate) fn all_calls<'a>(format: ViewFormat) -> ViewOptions<'a>
    ensures { (result.format ≡ format) × (result.watch ≡ None) × (result.columns ≡ None) }
{
    ViewOptions {
        thread: None,
        last: None,
        from: None,
        to: None,
        watch: None,
        fold: false,
        has_state: false,
        is_brief: false,
        has_colour: false,
        columns: None,
        format,
    }
}

/// Returns the attempts that are asked for. Equal waits have one line only in columns.
pub(crate) fn filter_of(options: &ViewOptions<'_>) -> CallFilter
    ensures { result ≡ filter_of options.now }
{
    CallFilter {
        thread: options.thread,
        last: options.last,
        from: options.from,
        to: options.to,
        folds: options.fold && matches!(options.format, ViewFormat::Columns),
    }
}
