//! States: the globals and the stacks of a configuration, without a history.
ghost use Rattle.std.specs.Prelude.{◌≡◌, ◌<◌, [], true, IsTrue, List, Some, IfOk, OnOk, drop, length, map, slice_get, string_bytes};
ghost use Rattle.bp_syntax.specs.Ast.{Program};
ghost use Rattle.bp_flat.specs.InstrEffects.{bits_of};
ghost use Rattle.bp_flat.specs.Moves.{Configuration};
ghost use Rattle.bp_flat.specs.Steps.{bits_from};
ghost use Rattle.bp_machine.specs.declared.stacks.ActivationRecord.{ActivationRecord};
ghost use Rattle.bp_explore.specs.Searches.{IsTopOrNone, ShowsStep};
ghost use Rattle.bp_explore.specs.States.{frames_of, first_stack_of, Shows, state_after, IsPacked, take_state, goes_on, IsLive, IsNext};
ghost use Rattle.bp_machine.specs.Transitions.{IsTransitionOn};
ghost use Rattle.bp_machine.specs.declared.threads.Transition.{Transition as TransitionOf};

use crate::cells::{push_number, push_stacks, read_number, read_stacks};
use crate::observers::SeenStep;
use bp_flat::stores::word_of;
use bp_flat::{Code, Effect, Store, steps_alike};
use bp_machine::limits::MAX_FRAMES;
use bp_machine::{
    ActivationRecord, Reply, Setup, Stack, Top, Transition, globals_after, transition_on,
};
use std::alloc::{AllocError, Global};
use std::marker::Model;

/// The globals, and the stack of each thread.
#[derive(Drop)]
pub(crate) struct State {
    globals: u128,
    stacks: Vec<Stack>,
}

impl Model for State {
    ghost use Rattle.bp_explore.specs.States.{StateOf, state_of};

    ghost Value = { StateOf };

    ghost view = { λ s. state_of s.globals s.stacks.items };
}

/// Returns whether a thread with this next transition has frames left and does not wait.
fn goes_on(transition: Transition) -> bool
    ensures { result ≡ goes_on transition }
{
    !matches!(transition, Transition::Stays(Reply::Ended | Reply::Blocked))
}

/// Makes the stacks of threads that begin with these procedures.
fn first_stacks(alloc: Global, code: &Code, entries: &[String]) -> Result<Vec<Stack>, AllocError>
    ensures { IfOk result
        (λ v. frames_of v.items ≡ map (first_stack_of code.now) (map string_bytes entries.now)) }
{
    let mut stacks = Vec::with_capacity(alloc, entries.len())?;
    for name in entries {
        let number = code.entry(name.as_str()).unwrap_or(0);
        stacks.push(Stack::start(alloc, number)?)?;
    }
    Ok(stacks)
}

impl State {
    /// Returns the state at the start of a setup.
    pub(crate) fn first(alloc: Global, code: &Code, setup: &Setup) -> Result<State, AllocError>
        ensures globals { IfOk result (λ x. bits_of x.globals ≡ bits_from setup.now.init) }
        ensures stacks { IfOk result
            (λ x. x.stacks ≡ map (first_stack_of code.now) setup.now.entries) }
    {
        setup.is_in_range();
        let globals = word_of(setup.bits());
        let stacks = first_stacks(alloc, code, setup.entries())?;
        Ok(State { globals, stacks })
    }

    /// Returns the number of threads.
    pub(crate) fn threads(&self) -> usize
        ensures { result ≡ length self.now.stacks }
    {
        self.stacks.len()
    }

    /// Adds the state to cells.
    pub(crate) fn pack(&self, cells: &mut Vec<u16>) -> Result<(), AllocError>
        ensures { let threads = length self.now.stacks in
            OnOk result
            (IsPacked (take_state threads) cells.old.items cells.new.items self.now) }
    {
        push_number(cells, self.globals)?;
        push_stacks(cells, self.stacks.as_slice())
    }

    /// Makes this the state in these cells, which has as many threads. It uses the memory that it
    /// has.
    pub(crate) fn load(&mut self, cells: &[u16], at: &mut usize) -> Result<(), AllocError>
        ensures state { let threads = length self.old.stacks in
            OnOk result (self.new ≡ (take_state threads (drop at.old cells.now)).0) }
        ensures count { length self.new.stacks ≡ length self.old.stacks }
    {
        self.globals = read_number(cells, at);
        read_stacks(cells, at, &mut self.stacks)
    }

    /// Returns the top of the stack of a thread, or None if it is empty.
    pub(crate) fn top(&self, thread: u32) -> Option<Top>
        ensures { (t : Program) (c : Configuration)
            → Shows t self.now c
            → IsTopOrNone t c thread result }
    {
        let thread = thread as usize;
        if thread >= self.stacks.len() {
            return None;
        }
        let frames = self.stacks[thread].frames();
        let depth = frames.len();
        if depth == 0 {
            return None;
        }
        let frame = frames[depth - 1];
        let store = Store {
            globals: self.globals,
            locals: frame.locals,
        };
        Some(Top {
            number: frame.number,
            store,
            depth,
        })
    }

    /// Returns the seen part of a step of a thread that led to this state.
    pub(crate) fn seen(&self, thread: u32, before: Option<Top>, failed: bool) -> SeenStep
        ensures shows { (t : Program) (c d : Configuration)
            → IsTopOrNone t c thread before
            → Shows t self.now d
            → d.failed ≡ failed
            → ShowsStep t result c d }
        ensures thread { result.thread ≡ thread }
    {
        SeenStep {
            thread,
            before,
            after: self.top(thread),
            globals: self.globals,
            failed,
        }
    }

    /// Returns the transition for the next step of a thread, with this choice bit.
    pub(crate) fn transition(&self, code: &Code, thread: u32, bit: bool) -> Transition
        ensures { IsNext code.now.instructions self.now thread bit result }
    {
        let thread = thread as usize;
        if thread >= self.stacks.len() {
            return Transition::Stays(Reply::Ended);
        }
        transition_on(code, self.globals, true, &self.stacks[thread], bit)
    }

    /// Makes a step of a thread. Without memory for its frame the state is unspecified.
    pub(crate) fn take_step(&mut self, thread: u32, effect: Effect) -> Result<(), AllocError>
        ensures state { OnOk result
            ((stack : List ActivationRecord)
            → slice_get self.old.stacks thread ≡ Some stack
            → self.new ≡ state_after self.old thread stack effect) }
        ensures count { length self.new.stacks ≡ length self.old.stacks }
    {
        let thread = thread as usize;
        self.globals = globals_after(self.globals, effect);
        if thread < self.stacks.len() {
            self.stacks[thread].take_step(effect)?;
        }
        Ok(())
    }

    /// Returns whether there is no frame on the stack of a thread.
    fn is_over(&self, thread: usize) -> bool
        ensures { IsTrue result
            → (stack : List ActivationRecord)
            → slice_get self.now.stacks thread ≡ Some stack
            → stack ≡ [] }
    {
        thread >= self.stacks.len() || self.stacks[thread].len() == 0
    }

    /// Returns whether a thread has frames left and does not wait.
    fn goes_on(&self, code: &Code, thread: usize) -> bool
        ensures { IsTrue result
            → (stack : List ActivationRecord)
            × (v : TransitionOf)
            × (slice_get self.now.stacks thread ≡ Some stack)
            × IsTransitionOn code.now.instructions self.now.globals true true stack v
            × (goes_on v ≡ true) }
    {
        if thread >= self.stacks.len() {
            return false;
        }
        goes_on(transition_on(code, self.globals, true, &self.stacks[thread], true))
    }

    /// Returns whether the threads are not deadlocked: some thread can continue, or each has ended.
    #[tactic(auto, using(crate::proofs::LiveStates::going_is_live))]
    pub(crate) fn is_live(&self, code: &Code) -> bool
        ensures { IsTrue result → IsLive code.now.tree self.now }
    {
        steps_alike(code);
        let mut is_left = false;
        for thread in 0..self.threads() {
            if self.goes_on(code, thread) {
                return true;
            }
            if !self.is_over(thread) {
                is_left = true;
            }
        }
        !is_left
    }

    /// Returns whether the next step of a thread is a call, and its stack is full.
    fn is_full(&self, code: &Code, thread: usize) -> bool {
        if thread >= self.stacks.len() || self.stacks[thread].len() < MAX_FRAMES {
            return false;
        }
        let next = transition_on(code, self.globals, true, &self.stacks[thread], true);
        matches!(next, Transition::Stays(Reply::Full))
    }

    /// Returns whether there is such a thread.
    pub(crate) fn has_full_stack(&self, code: &Code) -> bool {
        for thread in 0..self.threads() {
            if self.is_full(code, thread) {
                return true;
            }
        }
        false
    }
}
