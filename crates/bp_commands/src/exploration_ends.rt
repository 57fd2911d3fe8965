//! How an exploration ends, and the exit status of its run.
ghost use Rattle.std.specs.Prelude.{◌≡◌};
ghost use Rattle.bp_commands.specs.ExplorationEnds.{facts_of_ending, facts_through, found_end, kind_of, made_through, missed_end, status_of};

use crate::end_texts::EndTexts;
use bp_explore::{Ending, Finding, Reason, ThroughEnding};
use bp_messages::exit_status;
use bp_source::{ExploreTask, Verdict};

/// The exit status if no run makes the steps.
const NOT_MADE: u8 = 4;

/// The exit status if not all runs were explored, and nothing was found.
const UNFINISHED: u8 = 5;

/// The kind of an exploration's finding.
#[derive(Clone, Copy)]
pub enum FoundKind {
    Nothing,
    Failure,
    Deadlock,
    Steps,
}

/// How an exploration ends.
#[derive(Clone, Copy)]
pub struct EndFacts {
    pub found: FoundKind,
    /// The contexts of the last new state, of the bound, of the finding, or those that were not
    /// explored.
    pub contexts: u32,
    /// Whether all runs were explored, of any number of contexts.
    pub complete: bool,
    /// Why not everything was explored, if so.
    pub reason: Option<Reason>,
    /// The attempts of the trace, or of the thread that makes too many for one.
    pub calls: Option<u64>,
    /// Whether a trace of the finding is written.
    pub trace: bool,
}

/// The steps of a list, for which an exploration searches.
#[derive(Clone, Copy)]
pub struct ListedSteps {
    /// Their number.
    pub count: u32,
    /// The number of them that are made, if known.
    pub made: Option<u32>,
}

/// How an exploration ended, and what is said of the run that it found.
#[derive(Drop)]
pub struct Exploration<'a> {
    pub task: &'a ExploreTask<'a>,
    pub facts: EndFacts,
    /// The steps that a run has to make, if any.
    pub steps: Option<ListedSteps>,
    /// The number of states.
    pub states: usize,
    /// The number of them in which a call had no room on its stack.
    pub full_stacks: usize,
    /// What is said of the end of the run that was found.
    pub said: EndTexts,
}

/// Returns an end without a finding.
fn missed_end(contexts: u32, complete: bool, reason: Option<Reason>) -> EndFacts
    ensures { result ≡ missed_end contexts complete reason }
{
    EndFacts {
        found: FoundKind::Nothing,
        contexts,
        complete,
        reason,
        calls: None,
        trace: false,
    }
}

/// Returns an end with a finding.
fn found_end(found: FoundKind, contexts: u32, calls: u64, trace: bool) -> EndFacts
    ensures { result ≡ found_end found contexts calls trace }
{
    EndFacts {
        found,
        contexts,
        complete: false,
        reason: None,
        calls: Some(calls),
        trace,
    }
}

fn kind_of(finding: Finding) -> FoundKind
    ensures { result ≡ kind_of finding }
{
    match finding {
        Finding::Failure => FoundKind::Failure,
        Finding::Deadlock => FoundKind::Deadlock,
    }
}

/// Returns the facts of the end of an exploration.
pub(crate) fn facts_of_ending(ending: &Ending) -> EndFacts
    ensures { result ≡ facts_of_ending ending.now }
{
    match ending {
        Ending::Nothing { last } => missed_end(*last, true, None),
        Ending::NothingWithin { contexts } => missed_end(*contexts, false, None),
        Ending::Found(run) => {
            found_end(
                kind_of(run.finding),
                run.contexts,
                run.history.len() as u64,
                true,
            )
        }
        Ending::Unplayed {
            contexts,
            finding,
            calls,
        } => found_end(kind_of(*finding), *contexts, *calls as u64, false),
        Ending::Unfinished { contexts, reason } => missed_end(*contexts, false, Some(*reason)),
    }
}

/// Returns the facts of the end of an exploration through steps.
pub(crate) fn facts_through(ending: &ThroughEnding) -> EndFacts
    ensures { result ≡ facts_through ending.now }
{
    match ending {
        ThroughEnding::Found(run) => {
            found_end(
                FoundKind::Steps,
                run.contexts,
                run.history.len() as u64,
                true,
            )
        }
        ThroughEnding::Unplayed { contexts, calls } => {
            found_end(FoundKind::Steps, *contexts, *calls as u64, false)
        }
        ThroughEnding::Missing { last, .. } => missed_end(*last, true, None),
        ThroughEnding::MissingWithin { contexts, .. } => missed_end(*contexts, false, None),
        ThroughEnding::Unfinished { contexts, reason } => {
            missed_end(*contexts, false, Some(*reason))
        }
    }
}

/// Returns the number of the steps that are made, if known.
pub(crate) fn made_through(steps: u32, ending: &ThroughEnding) -> Option<u32>
    ensures { result ≡ made_through steps ending.now }
{
    match ending {
        ThroughEnding::Found(_) | ThroughEnding::Unplayed { .. } => Some(steps),
        ThroughEnding::Missing { made, .. } | ThroughEnding::MissingWithin { made, .. } => {
            Some(*made)
        }
        ThroughEnding::Unfinished { .. } => None,
    }
}

/// Returns the exit status of an exploration: 1 if a run fails or ends in a deadlock, 4 if no run
/// makes listed steps, 5 if not all was explored.
pub(crate) fn status_of(x: &Exploration<'_>) -> u8
    ensures { result ≡ status_of x.now }
{
    match (x.facts.found, x.facts.reason, x.steps) {
        (FoundKind::Nothing, Some(_), _) => UNFINISHED,
        (FoundKind::Nothing, None, Some(_)) => NOT_MADE,
        (FoundKind::Nothing, None, None) => exit_status(false, None),
        (FoundKind::Failure | FoundKind::Deadlock, _, _) => exit_status(true, None),
        (FoundKind::Steps, _, _) => {
            exit_status(matches!(x.said.verdict, Verdict::Failure), None)
        }
    }
}
