//! Searching a space, layer by layer.
ghost use Rattle.std.specs.Prelude.{◌≡◌, ◌<◌, length};
ghost use Rattle.bp_explore.specs.Searches.{BeginsAt, IsSearchEnd};

use crate::explorations::Reason;
use crate::observers::{Observer, Watcher};
use crate::spaces::{Space, Step, Stop};
use bp_flat::{Code, steps_alike};
use bp_machine::{Reply, Setup};
use std::alloc::AllocError;

/// How a search ends.
#[derive(Clone, Copy)]
pub(crate) enum SearchEnd {
    /// The layer after `last` has no new state.
    Closed {
        last: u32,
    },
    /// All layers within the bound were searched.
    Bound {
        contexts: u32,
    },
    /// The threads are deadlocked in the state of a node.
    Deadlocked {
        contexts: u32,
        at: usize,
    },
    /// This step makes the last of the listed steps, and is within this number of contexts.
    Found {
        contexts: u32,
        step: Step,
        reply: Reply,
    },
    /// Not everything within this number of contexts was explored.
    Short {
        contexts: u32,
        reason: Reason,
    },
}

/// Searches a space from its first node, within this number of contexts or within any number, until
/// the listed steps are made.
pub(crate) fn search<O: Observer, P: Watcher>(
    space: &mut Space,
    code: &Code,
    setup: &Setup,
    observer: &O,
    contexts: Option<u32>,
    with_deadlock: bool,
    watcher: &P,
) -> SearchEnd
    requires begins { BeginsAt code.now setup.now space.old.nodes.items }
    requires one { length space.old.nodes.items ≡ 1 }
    requires some { 0 < (O.listed observer.now).count }
    ensures { let o = O.listed observer.now in
        let nodes = space.new.nodes.items in
        let t = code.now.tree in o.is_of t
        → IsSearchEnd t setup.now o contexts with_deadlock nodes result }
{
    steps_alike(code);
    match space.first_dead(code, 0, with_deadlock) {
        Err(AllocError) => {
            let reason = Reason::Memory;
            return SearchEnd::Short {
                contexts: 0,
                reason,
            };
        }
        Ok(dead) => {
            if let Some(at) = dead {
                return SearchEnd::Deadlocked { contexts: 0, at };
            }
        }
    }
    let threads = setup.threads();
    let mut from = 0;
    for last in 0..contexts.unwrap_or(u32::MAX) {
        let contexts = last + 1;
        if !watcher.goes_on(contexts, space.len()) {
            let reason = Reason::Stopped;
            return SearchEnd::Short { contexts, reason };
        }
        match space.next_layer(code, observer, from, contexts, threads, watcher) {
            Err(Stop::Found { step, reply }) => {
                return SearchEnd::Found {
                    contexts,
                    step,
                    reply,
                };
            }
            Err(Stop::Short(reason)) => return SearchEnd::Short { contexts, reason },
            Ok(next) => from = next,
        }
        match space.first_dead(code, from, with_deadlock) {
            Err(AllocError) => {
                let reason = Reason::Memory;
                return SearchEnd::Short { contexts, reason };
            }
            Ok(dead) => {
                if let Some(at) = dead {
                    return SearchEnd::Deadlocked { contexts, at };
                }
            }
        }
        if from == space.len() {
            return SearchEnd::Closed { last };
        }
    }
    match contexts {
        Some(contexts) => SearchEnd::Bound { contexts },
        None => SearchEnd::Short {
            contexts: u32::MAX,
            reason: Reason::States,
        },
    }
}
