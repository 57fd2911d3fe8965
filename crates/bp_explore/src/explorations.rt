//! Exploring all runs of a program. The result of an exploration.
ghost use Rattle.std.specs.Prelude.{◌<◌, Bool, ℕ, false, IfOk, Option};
ghost use Rattle.bp_machine.specs.Setups.{Fits};
ghost use Rattle.bp_explore.specs.Searches.{failures, IsSearchEnd};
ghost use Rattle.bp_explore.specs.Explorations.{IsExploration};
ghost use Rattle.bp_explore.specs.ThroughExplorations.{IsThrough};

use crate::found_runs::{played, played_through};
use crate::observers::{Failures, Observer, Watcher};
use crate::searches::{SearchEnd, search};
use crate::spaces::{Space, Stop};
use bp_flat::Code;
use bp_machine::{Call, Reply, Session, Setup};
use std::alloc::{AllocError, Global};

/// Returns the result if the search of a space ends in this way.
fn ending_of(
    alloc: Global,
    code: &Code,
    setup: &Setup,
    space: &Space,
    end: SearchEnd,
) -> Result<Ending, AllocError>
    requires { Fits code.now.tree setup.now }
    ensures { let t = code.now.tree in (bound : Option ℕ) (with_deadlock : Bool)
        → IsSearchEnd t setup.now failures bound with_deadlock space.now.nodes.items end
        → IfOk result (IsExploration code.now t setup.now bound with_deadlock) }
{
    match end {
        SearchEnd::Closed { last } => Ok(Ending::Nothing { last }),
        SearchEnd::Bound { contexts } => Ok(Ending::NothingWithin { contexts }),
        SearchEnd::Short { contexts, reason } => Ok(Ending::Unfinished { contexts, reason }),
        SearchEnd::Deadlocked { contexts, at } => {
            let calls = space.calls_to(alloc, at)?;
            Ok(played(alloc, code, setup, calls, contexts, Finding::Deadlock)?)
        }
        SearchEnd::Found {
            contexts,
            step,
            reply,
        } => {
            let mut calls = space.calls_to(alloc, step.from)?;
            calls.push(step.call(reply))?;
            Ok(played(alloc, code, setup, calls, contexts, Finding::Failure)?)
        }
    }
}

/// Explores all runs of a program from the start of a setup within `contexts` contexts, or within
/// any number if there is no bound. Keeps at most `states` states. The setup's bounds and its seed
/// do not matter. Fails if memory is refused before the first state is kept, or while the run that
/// was found is played.
pub fn explore<P: Watcher>(
    alloc: Global,
    code: &Code,
    setup: &Setup,
    contexts: Option<u32>,
    states: usize,
    with_deadlock: bool,
    watcher: &P,
) -> Result<Explored, AllocError>
    requires { Fits code.now.tree setup.now }
    ensures { let t = code.now.tree in
        IfOk result (λ x. IsExploration code.now t setup.now contexts with_deadlock x.ending) }
{
    let mut space = Space::new(alloc, code, setup, states)?;
    let end = search(
        &mut space,
        code,
        setup,
        &Failures,
        contexts,
        with_deadlock,
        watcher,
    );
    watcher.ends();
    let ending = ending_of(alloc, code, setup, &space, end)?;
    Ok(Explored {
        states: space.len(),
        full_stacks: space.full_stacks(),
        ending,
    })
}

/// Returns the result if the search of a space for listed steps ends in this way.
fn through_ending_of<O: Observer>(
    alloc: Global,
    code: &Code,
    setup: &Setup,
    observer: &O,
    space: &Space,
    end: SearchEnd,
) -> Result<ThroughEnding, AllocError>
    requires fits { Fits code.now.tree setup.now }
    requires some { 0 < (O.listed observer.now).count }
    ensures { let o = O.listed observer.now in
        let t = code.now.tree in (bound : Option ℕ)
        → o.is_of t
        → IsSearchEnd t setup.now o bound false space.now.nodes.items end
        → IfOk result (IsThrough code.now t setup.now o bound) }
{
    match end {
        SearchEnd::Closed { last } => {
            let made = space.most_made();
            Ok(ThroughEnding::Missing { last, made })
        }
        SearchEnd::Bound { contexts } => {
            let made = space.most_made();
            Ok(ThroughEnding::MissingWithin { contexts, made })
        }
        SearchEnd::Short { contexts, reason } => {
            Ok(ThroughEnding::Unfinished { contexts, reason })
        }
        // Deadlocks are not searched for.
        SearchEnd::Deadlocked { contexts, .. } => {
            let reason = Reason::Stopped;
            Ok(ThroughEnding::Unfinished { contexts, reason })
        }
        SearchEnd::Found {
            contexts,
            step,
            reply,
        } => {
            let mut calls = space.calls_to(alloc, step.from)?;
            calls.push(step.call(reply))?;
            Ok(played_through(alloc, code, setup, observer, calls, contexts)?)
        }
    }
}

/// Explores the runs of a program as `explore` does, for one that makes the steps that an observer
/// lists, in their order and with any other steps between them. A false assertion ends a run, and
/// is found only if it makes the last of these steps. At least one step is listed.
pub fn explore_through<O: Observer, P: Watcher>(
    alloc: Global,
    code: &Code,
    setup: &Setup,
    observer: &O,
    contexts: Option<u32>,
    states: usize,
    watcher: &P,
) -> Result<ExploredThrough, AllocError>
    requires fits { Fits code.now.tree setup.now }
    requires some { 0 < (O.listed observer.now).count }
    ensures { let o = O.listed observer.now in
        let t = code.now.tree in o.is_of t
        → IfOk result (λ x. IsThrough code.now t setup.now o contexts x.ending) }
{
    let mut space = Space::new(alloc, code, setup, states)?;
    let end = search(&mut space, code, setup, observer, contexts, false, watcher);
    watcher.ends();
    let ending = through_ending_of(alloc, code, setup, observer, &space, end)?;
    Ok(ExploredThrough {
        states: space.len(),
        full_stacks: space.full_stacks(),
        ending,
    })
}

/// The kind of a finding.
#[derive(Clone, Copy)]
pub enum Finding {
    /// A false assertion.
    Failure,
    Deadlock,
}

/// Why an exploration is incomplete.
#[derive(Clone, Copy)]
pub enum Reason {
    /// The limit of states was reached.
    States,
    /// The watcher said to stop.
    Stopped,
    /// An allocation failed.
    Memory,
}

/// A run that ends in the finding. Its session is in the setup of its trace.
#[derive(Drop)]
pub struct FoundRun {
    /// The least number of contexts in which something is found.
    pub contexts: u32,
    pub finding: Finding,
    /// The steps of the run.
    pub history: Vec<Call>,
    /// The session after these steps.
    pub session: Session,
}

/// A run that makes all listed steps, the last of them with its last step. Its session is in the
/// setup of its trace.
#[derive(Drop)]
pub struct RunThrough {
    /// The least number of contexts in which a run makes them.
    pub contexts: u32,
    /// The steps of the run.
    pub history: Vec<Call>,
    /// The session after these steps.
    pub session: Session,
}

/// How an exploration ends.
#[derive(Drop)]
pub enum Ending {
    /// Nothing is found in any number of contexts. The last new state is within `last`.
    Nothing {
        last: u32,
    },
    /// Nothing is found within this number of contexts, the given bound. More were not explored.
    NothingWithin {
        contexts: u32,
    },
    Found(FoundRun),
    /// Something is found within this number of contexts, and nothing within fewer. No setup allows
    /// the run that ends in it: it has too many contexts, or some thread makes `calls` steps.
    Unplayed {
        contexts: u32,
        finding: Finding,
        calls: usize,
    },
    /// Not everything was explored. Nothing is found within fewer contexts than these.
    Unfinished {
        contexts: u32,
        reason: Reason,
    },
}

/// How an exploration ends that searches for a run which makes listed steps in order.
#[derive(Drop)]
pub enum ThroughEnding {
    Found(RunThrough),
    /// Some run makes them within this number of contexts, and none within fewer. No setup allows
    /// the run that was found: it has too many contexts, or some thread makes `calls` steps.
    Unplayed { contexts: u32, calls: usize },
    /// Some run makes the first `made` of them, and none makes one more, in any number of contexts.
    /// The last new state is within `last`.
    Missing { last: u32, made: u32 },
    /// Also of the runs within this number of contexts, the given bound.
    MissingWithin { contexts: u32, made: u32 },
    /// Not everything was explored. No run makes them within fewer contexts than these.
    Unfinished { contexts: u32, reason: Reason },
}

/// The statistics of an exploration. A state counts once for each thread whose step leads to it.
#[derive(Drop)]
pub struct Explored {
    /// The number of states.
    pub states: usize,
    /// The number of states in which the next step of some thread is a call, and its stack is full.
    pub full_stacks: usize,
    pub ending: Ending,
}

/// The statistics of an exploration for listed steps. A state is counted once for each thread whose
/// step leads to it, and each number of listed steps that are made.
#[derive(Drop)]
pub struct ExploredThrough {
    /// The number of states.
    pub states: usize,
    /// The number of states in which the next step of some thread is a call, and its stack is full.
    pub full_stacks: usize,
    pub ending: ThroughEnding,
}
