//! The commands `explore` and `explore --through`.
ghost use Rattle.std.specs.Prelude.{◌≡◌, IfOk};
ghost use Rattle.bp_text.specs.Writing.{Writes};
ghost use Rattle.bp_machine.specs.Sessions.{Stands};
ghost use Rattle.bp_explore.specs.declared.explorations.FoundRun.{FoundRun};
ghost use Rattle.bp_explore.specs.declared.explorations.Ending.TheVariants as endings;
ghost use Rattle.bp_explore.specs.declared.explorations.RunThrough.{RunThrough};
ghost use Rattle.bp_explore.specs.declared.explorations.ThroughEnding.TheVariants as throughs;
ghost use Rattle.bp_commands.specs.Explores.{bound_of, of_exploration, trace_of, IsFindingSaid};
ghost use Rattle.bp_commands.specs.Throughs.{trace_through, IsRunSaid};

use crate::commands::{PairCommand, ProgramCommand};
use crate::end_texts::{EndTexts, no_texts, texts_of_run};
use crate::explanations::SecondInput;
use crate::exploration_ends::{
    Exploration, ListedSteps, facts_of_ending, facts_through, made_through, status_of,
};
use crate::exploration_texts::put_exploration;
use crate::programs::open;
use crate::run_ends::CommandAnswer;
use bp_code::Code;
use bp_confirm::read_listed_lines;
use bp_explore::{Ending, Observer, ThroughEnding, Watcher, explore, explore_through};
use bp_messages::Error;
use bp_source::{ContextBound, ExploreTask, NamedStart};
use bp_text::WriteError;
use bp_trace::write_trace;
use std::alloc::{AllocError, Global};
use std::io::Write;

/// `explore`: explores all runs of a program, and writes the trace of one that fails, or ends in a
/// deadlock, within the fewest contexts.
#[derive(Drop)]
pub struct Explore<'a, P> {
    pub task: &'a ExploreTask<'a>,
    /// Is told the progress, and decides whether to continue.
    pub watcher: &'a P,
}

impl CommandAnswer for Exploration<'_> {
    ghost rule = { of_exploration };

    fn status(&self) -> u8 {
        status_of(self)
    }

    fn summarize<E: Write>(&self, errors: &mut E) -> Result<(), WriteError> {
        put_exploration(self, errors)
    }
}

/// Returns the most contexts of the runs to explore, if there is a bound.
fn bound_of(bound: ContextBound, contexts: u32) -> Option<u32>
    ensures { result ≡ bound_of bound contexts }
{
    match bound {
        ContextBound::Kept => Some(contexts),
        ContextBound::AsUsed => None,
    }
}

/// Returns the texts on the finding of an exploration, if it found a run.
fn finding_texts(
    alloc: Global,
    text: &[u8],
    code: &Code,
    task: &ExploreTask<'_>,
    ending: &Ending,
) -> Result<EndTexts, AllocError>
    requires { (r : FoundRun)
        → ending.now ≡ endings.Found r
        → (r.session.code ≡ code.now) × Stands code.now.tree r.session r.history.items }
    ensures { IfOk result (IsFindingSaid task.now text.now code.now.tree ending.now) }
{
    if let Ending::Found(run) = ending {
        let (session, report) = (&run.session, run.session.report());
        let said = texts_of_run(alloc, text, task.json, task.program, session, report)?;
        return Ok(said);
    }
    no_texts(alloc, task.json)
}

/// Writes the trace of the run that an exploration found, if it found one.
fn write_found<W: Write>(ending: &Ending, out: &mut W) -> Result<(), WriteError>
    ensures { Writes (W.contents out.old) (W.contents out.new) (trace_of ending.now) result }
{
    match ending {
        Ending::Found(run) => write_trace(run.session.setup(), &run.history, out),
        _ => Ok(()),
    }
}

impl<'a, P: Watcher> ProgramCommand for Explore<'a, P> {
    ghost use Rattle.bp_commands.specs.Explores.{explores};

    type Answer = Exploration<'a>;

    ghost command = { λ x. explores x.task.now };

    ghost allowed = { λ _. Unit {0} };

    fn apply<W: Write>(
        &self,
        alloc: Global,
        text: &[u8],
        out: &mut W,
    ) -> Result<Exploration<'a>, Error> {
        let task = self.task;
        let opened = open(alloc, text, &task.start, &task.named)?;
        opened.code.is_of_a_program();
        let options = task.options;
        let bound = bound_of(options.bound, opened.setup.contexts());
        let states = usize::try_from(options.states).unwrap_or(usize::MAX);
        let explored = explore(
            alloc,
            &opened.code,
            &opened.setup,
            bound,
            states,
            options.with_deadlock,
            self.watcher,
        )?;
        let said = finding_texts(alloc, text, &opened.code, task, &explored.ending)?;
        write_found(&explored.ending, out)?;
        Ok(Exploration {
            task,
            facts: facts_of_ending(&explored.ending),
            steps: None,
            states: explored.states,
            full_stacks: explored.full_stacks,
            said,
        })
    }

    fn named_start(&self) -> Option<NamedStart<'_>> {
        let (start, named) = (&self.task.start, &self.task.named);
        Some(NamedStart { start, named })
    }
}

/// Returns the texts on the run that was found, if there is one.
fn run_texts(
    alloc: Global,
    text: &[u8],
    code: &Code,
    task: &ExploreTask<'_>,
    ending: &ThroughEnding,
) -> Result<EndTexts, AllocError>
    requires { (r : RunThrough)
        → ending.now ≡ throughs.Found r
        → (r.session.code ≡ code.now) × Stands code.now.tree r.session r.history.items }
    ensures { IfOk result (IsRunSaid task.now text.now code.now.tree ending.now) }
{
    if let ThroughEnding::Found(run) = ending {
        let (session, report) = (&run.session, run.session.report());
        let said = texts_of_run(alloc, text, task.json, task.program, session, report)?;
        return Ok(said);
    }
    no_texts(alloc, task.json)
}

/// Writes the trace of the run that was found, if there is one.
fn write_through<W: Write>(ending: &ThroughEnding, out: &mut W) -> Result<(), WriteError>
    ensures { Writes (W.contents out.old) (W.contents out.new) (trace_through ending.now) result }
{
    match ending {
        ThroughEnding::Found(run) => write_trace(run.session.setup(), &run.history, out),
        _ => Ok(()),
    }
}

impl<'a, P: Watcher> PairCommand for Explore<'a, P> {
    ghost use Rattle.bp_commands.specs.declared.explanations.SecondInput.{SecondInput};
    ghost use Rattle.bp_commands.specs.Throughs.{explores_through};

    type Answer = Exploration<'a>;

    ghost command = { λ x. explores_through x.task.now };

    ghost second_input = { λ _. SecondInput.Steps };

    fn apply<W: Write>(
        &self,
        alloc: Global,
        text: &[u8],
        steps: &[u8],
        out: &mut W,
    ) -> Result<Exploration<'a>, Error> {
        let task = self.task;
        let opened = open(alloc, text, &task.start, &task.named)?;
        let (code, setup) = (&opened.code, &opened.setup);
        code.is_of_a_program();
        let lines = read_listed_lines(alloc, text, code.checked(), setup, steps)?;
        let bound = bound_of(task.options.bound, setup.contexts());
        let states = usize::try_from(task.options.states).unwrap_or(usize::MAX);
        let explored = explore_through(alloc, code, setup, &lines, bound, states, self.watcher)?;
        let said = run_texts(alloc, text, code, task, &explored.ending)?;
        write_through(&explored.ending, out)?;
        let count = lines.count();
        let made = made_through(count, &explored.ending);
        Ok(Exploration {
            task,
            facts: facts_through(&explored.ending),
            steps: Some(ListedSteps { count, made }),
            states: explored.states,
            full_stacks: explored.full_stacks,
            said,
        })
    }

    fn second_input(&self) -> SecondInput {
        SecondInput::Steps
    }

    fn named_start(&self) -> Option<NamedStart<'_>> {
        let (start, named) = (&self.task.start, &self.task.named);
        Some(NamedStart { start, named })
    }
}
