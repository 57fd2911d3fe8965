//! Searching for listed steps. Steps as an exploration sees them. Watching the progress of an
//! exploration.
ghost use Rattle.std.specs.Prelude.{◌≡◌, ◌<◌, ◌≤◌, ◌↔◌, IsTrue};
ghost use Rattle.bp_syntax.specs.Ast.{Program};
ghost use Rattle.bp_flat.specs.Moves.{Configuration};
ghost use Rattle.bp_explore.specs.Explorations.{ListedSteps, IsMade};
ghost use Rattle.bp_explore.specs.Searches.{ShowsStep, IsCountedStep, failures};

use bp_machine::Top;

/// Searches for listed steps.
pub trait Observer {
    ghost listed: { Self → ListedSteps };

    /// Returns the number of listed steps.
    fn count(&self) -> u32
        ensures { result ≡ (listed self.now).count };

    /// Returns whether a step is the listed step of this number, from 0.
    fn is_listed(&self, number: u32, step: &SeenStep) -> bool
        ensures { (t : Program) (c d : Configuration)
            → (listed self.now).is_of t
            → ShowsStep t step.now c d
            → result ≡ (listed self.now).makes number c step.now.thread d };
}

/// Looks for a false assertion.
#[derive(Clone, Copy)]
pub(crate) struct Failures;

impl Observer for Failures {
    ghost listed = { λ _. failures };

    fn count(&self) -> u32 {
        1
    }

    fn is_listed(&self, _number: u32, step: &SeenStep) -> bool {
        step.failed
    }
}

/// Returns whether a step makes the listed step of this number.
fn is_made<O: Observer>(observer: &O, number: u32, step: &SeenStep) -> bool
    ensures { let o = O.listed observer.now in
        (t : Program) (c d : Configuration)
        → o.is_of t
        → ShowsStep t step.now c d
        → (IsTrue result ↔ IsMade o number c step.now.thread d) }
{
    let is_last = u64::from(number) + 1 == u64::from(observer.count());
    if step.failed && !is_last {
        return false;
    }
    observer.is_listed(number, step)
}

/// Returns the number of listed steps made after a step, if `made` were made before it.
pub(crate) fn made_with<O: Observer>(observer: &O, made: u32, step: &SeenStep) -> u32
    ensures counted { let o = O.listed observer.now in
        made < o.count → IsCountedStep o made step.now result }
    ensures more { made ≤ result }
{
    if made < observer.count() && is_made(observer, made, step) {
        return made + 1;
    }
    made
}

/// The seen part of a step of a thread.
#[derive(Clone, Copy)]
pub struct SeenStep {
    pub thread: u32,
    /// The top of its stack before the step. None if the stack is empty.
    pub before: Option<Top>,
    /// The top of its stack after the step.
    pub after: Option<Top>,
    /// The word of the globals after the step.
    pub globals: u128,
    /// Whether an assertion fails in the step.
    pub failed: bool,
}

/// Decides whether an exploration continues, and is told its progress.
pub trait Watcher {
    /// Records the number of contexts being explored and the number of states, and returns whether
    /// to continue.
    fn goes_on(&self, contexts: u32, states: usize) -> bool;

    /// Records that the exploration ends.
    fn ends(&self);
}
