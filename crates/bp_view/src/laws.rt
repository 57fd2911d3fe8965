//! Laws of views and of facts. These functions do nothing: their contracts are the laws.
ghost use Rattle.bp_view.specs.Views.{OneListOfContexts, OneState, OneView};
ghost use Rattle.bp_view.specs.Filters.{StandForEachOnce};
ghost use Rattle.bp_view.specs.Laws.{ChangesReplay};

/// Proves that a history has at most one view with these options, at most one state and at most one
/// list of its contexts: the definitions that the contracts of `view`, `state_at` and `contexts_of`
/// cite allow no second text.
pub fn views_are_single()
    ensures view { OneView }
    ensures state { OneState }
    ensures contexts { OneListOfContexts }
{}

/// Proves that the lines of the attempts of a history whose numbers are asked for, folded or not,
/// stand for these attempts, each once.
#[tactic(auto, using(crate::proofs::CallsOfLines::each_once))]
pub fn lines_stand_for_each_call_once()
    ensures { StandForEachOnce }
{}

/// Proves that the changes that a view shows of an attempt, put into the values before it, give
/// those after it: of all globals, and of the frames of its thread. A frame at the top that stays
/// has the changes, and those below it are unchanged. One that the attempt entered has the formals
/// that the changes name, and 0 for each declared local; one that it left is gone. Other threads
/// keep their stacks. The values of a history begin with those of its setup.
#[tactic(auto, using(crate::proofs::ChangesReplay::changes_replay))]
pub fn changes_replay()
    ensures { ChangesReplay }
{}
