//! The machine of a session: the globals, the guest threads, and the count of contexts.
ghost use Rattle.std.specs.Prelude.{◌≡◌, ◌≤◌, ◌<◌, ◌^◌, ◌+◌, List, Some, true, length, map, slice_get, string_bytes, option_map, IfOk, OnOk, OnErr};
ghost use Rattle.bp_syntax.specs.Ast.{Program};
ghost use Rattle.bp_flat.specs.InstrEffects.{bits_of};
ghost use Rattle.bp_machine.specs.declared.calls.Call.{Call as Answered};
ghost use Rattle.bp_machine.specs.Setups.{SetupOf};
ghost use Rattle.bp_machine.specs.Histories.{live_threads, is_failure};
ghost use Rattle.bp_machine.specs.Sessions.{GuestThreadOf, first_thread, guests, StandsAfter};
ghost use Rattle.bp_machine.specs.Transitions.{transition_of, IsTransitionOn, IsTransition, MayGrow, HasRoom, globals_after, state_after, IsCallTransition};

use crate::calls::{Outcome, Reply};
use crate::contexts::ContextCount;
use crate::limits::{MAX_FRAMES, MAX_THREADS};
use crate::stacks::Stack;
use crate::threads::{GuestThread, Transition, copied_threads, restart_threads};
use bp_flat::stores::bit_at;
use bp_flat::{Code, Effect, Store};
use std::alloc::AllocError;
use std::marker::Model;

/// The state that all threads of a session share, and each of them.
#[derive(Drop)]
pub(crate) struct Machine {
    globals: u128,
    threads: Vec<GuestThread>,
    contexts: ContextCount,
    outcome: Outcome,
}

impl Model for Machine {
    ghost use Rattle.bp_machine.specs.Sessions.{guests, rooms, MachineOf};

    ghost Value = { MachineOf };

    ghost view = { λ m. record {
      state = record {
        globals = m.globals;
        threads = guests m.threads.items;
        contexts = m.contexts;
        outcome = m.outcome;
      };
      rooms = rooms m.threads.items;
    } };
}

/// Returns the transition for an effect on a stack that is full or not.
#[inline(always)]
fn transition_of(effect: Effect, is_full: bool) -> Transition
    ensures { result ≡ transition_of effect is_full }
{
    match effect {
        Effect::Enters { .. } => {
            if is_full {
                Transition::Stays(Reply::Full)
            } else {
                Transition::Steps(effect)
            }
        }
        Effect::Fails => Transition::Fails,
        Effect::Blocks => Transition::Stays(Reply::Blocked),
        Effect::Continues { .. } | Effect::Returns => Transition::Steps(effect),
    }
}

/// Returns the transition for an attempt of a thread with this stack. `fits` says whether one more
/// step is within the contexts.
#[inline(always)]
pub fn transition_on(code: &Code, globals: u128, fits: bool, stack: &Stack, bit: bool) -> Transition
    ensures { IsTransitionOn code.now.instructions globals bit fits stack.now.frames result }
{
    let Some(top) = stack.top() else {
        return Transition::Stays(Reply::Ended);
    };
    if !fits {
        return Transition::Stays(Reply::NoContexts);
    }
    let Some(instr) = code.get(top.number) else {
        return Transition::Stays(Reply::Ended);
    };
    let store = Store {
        globals,
        locals: top.locals,
    };
    transition_of(instr.effect(store, bit), stack.len() >= MAX_FRAMES)
}

/// Returns the globals after a step.
pub fn globals_after(globals: u128, effect: Effect) -> u128
    ensures { result ≡ globals_after globals (Transition.Steps effect) }
{
    match effect {
        Effect::Continues { store, .. } => store.globals,
        _ => globals,
    }
}

impl Machine {
    ghost use Rattle.std.specs.Prelude.{None};
    ghost use Rattle.bp_machine.specs.declared.limits.TheConstants.{MAX_THREADS};

    /// Makes the machine before any attempt.
    pub(crate) fn start(globals: u128, threads: Vec<GuestThread>) -> Machine
        ensures { result.state ≡ record {
          globals = globals;
          threads = guests threads.items;
          contexts = record { used = 0; last = None };
          outcome = Outcome.Clean;
        } }
    {
        Machine {
            globals,
            threads,
            contexts: ContextCount::start(),
            outcome: Outcome::Clean,
        }
    }

    /// Returns a deep copy.
    pub(crate) fn try_copy(&self) -> Result<Machine, AllocError>
        ensures { IfOk result (λ m. m.state ≡ self.now.state) }
    {
        let alloc = *self.threads.allocator();
        Ok(Machine {
            globals: self.globals,
            threads: copied_threads(alloc, self.threads.as_slice())?,
            contexts: self.contexts,
            outcome: self.outcome,
        })
    }

    /// Restarts the machine, before any attempt, with these globals and threads that begin with
    /// these procedures.
    pub(crate) fn restart(&mut self, globals: u128, code: &Code, entries: &[String])
        requires { length self.old.state.threads ≡ length entries.now }
        ensures { self.new.state ≡ record {
          globals = globals;
          threads = map (first_thread code.now) (map string_bytes entries.now);
          contexts = record { used = 0; last = None };
          outcome = Outcome.Clean;
        } }
    {
        restart_threads(&mut self.threads, code, entries);
        self.globals = globals;
        self.contexts = ContextCount::start();
        self.outcome = Outcome::Clean;
    }

    /// Returns the globals, that of slot n in the bit of weight 2 to the n.
    pub(crate) fn globals(&self) -> u128
        ensures { result ≡ self.now.state.globals }
    {
        self.globals
    }

    pub(crate) fn global(&self, slot: u8) -> bool
        requires { slot < 128 }
        ensures { result ≡ bits_of self.now.state.globals slot }
    {
        bit_at(self.globals, slot)
    }

    /// Returns the number of contexts of the steps so far.
    pub(crate) fn contexts_used(&self) -> u32
        ensures { result ≡ self.now.state.contexts.used }
    {
        self.contexts.used
    }

    /// Returns whether an assertion failed, and in which thread.
    pub(crate) fn outcome(&self) -> Outcome
        ensures { result ≡ self.now.state.outcome }
    {
        self.outcome
    }

    /// Returns whether an assertion failed.
    pub(crate) fn is_failed(&self) -> bool
        ensures { result ≡ is_failure self.now.state.outcome }
    {
        matches!(self.outcome, Outcome::Failed { .. })
    }

    pub(crate) fn thread(&self, thread: u32) -> Option<&GuestThread>
        ensures { option_map (λ g. g.now.guest) result ≡ slice_get self.now.state.threads thread }
    {
        self.threads.get(thread as usize)
    }

    /// Returns the number of threads that may continue, if `calls` attempts of each are allowed.
    pub(crate) fn live_threads(&self, calls: u32) -> u32
        requires { length self.now.state.threads ≤ MAX_THREADS }
        ensures { (t : Program) (s : SetupOf) (h : List Answered)
            → s.calls ≡ calls
            → StandsAfter t s self.now.state h
            → result ≡ live_threads s h }
    {
        let mut count = 0;
        for thread in self.threads.as_slice() {
            if !thread.is_terminated(calls) {
                count += 1;
            }
        }
        count
    }

    /// Returns the number of attempts of all threads together.
    pub(crate) fn calls(&self) -> u64
        requires { length self.now.state.threads ≤ MAX_THREADS }
        ensures { (t : Program) (s : SetupOf) (h : List Answered)
            → StandsAfter t s self.now.state h
            → result ≡ length h }
    {
        let mut sum = 0;
        for thread in self.threads.as_slice() {
            sum += u64::from(thread.calls());
        }
        sum
    }

    /// Returns the transition for an attempt of the thread, if `contexts` contexts are allowed.
    #[inline(always)]
    pub(crate) fn judge(
        &self,
        code: &Code,
        contexts: u32,
        thread: u32,
        guest: &GuestThread,
        bit: bool,
    ) -> Transition
        ensures { let code = code.now.instructions in
            IsTransition code self.now.state contexts thread guest.now.guest bit result }
    {
        if self.is_failed() {
            return Transition::Stays(Reply::Stopped);
        }
        let fits = self.contexts.allows(contexts, thread);
        transition_on(code, self.globals, fits, guest.stack(), bit)
    }

    /// Returns the transition for a step of the thread, if one more is within the contexts and no
    /// assertion failed.
    pub(crate) fn judge_step(&self, code: &Code, guest: &GuestThread, bit: bool) -> Transition
        ensures { let globals = self.now.state.globals in
            let stack = guest.now.guest.stack in
            IsTransitionOn code.now.instructions globals bit true stack result }
    {
        transition_on(code, self.globals, true, guest.stack(), bit)
    }

    /// Reserves memory for the frame of an attempt's step; without it the machine is unchanged.
    #[inline(always)]
    pub(crate) fn reserve(&mut self, thread: u32, transition: Transition) -> Result<(), AllocError>
        requires { thread < length self.old.state.threads }
        ensures state { self.new.state ≡ self.old.state }
        ensures ok { OnOk result (HasRoom self.new.rooms thread transition) }
        ensures err { OnErr result (self.new ≡ self.old) }
        ensures entering { OnErr result (IsCallTransition transition) }
    {
        self.threads[thread as usize].reserve(transition)
    }

    /// Makes an attempt of the thread, for whose frame there is room.
    #[inline(always)]
    pub(crate) fn make(&mut self, thread: u32, transition: Transition)
        requires within { thread < length self.old.state.threads }
        requires calls { (guest : GuestThreadOf)
            → slice_get self.old.state.threads thread ≡ Some guest
            → guest.calls + 1 < 2 ^ 32 }
        requires contexts { MayGrow self.old.state thread transition }
        requires room { HasRoom self.old.rooms thread transition }
        ensures { (guest : GuestThreadOf)
            → slice_get self.old.state.threads thread ≡ Some guest
            → self.new.state ≡ state_after self.old.state thread guest transition }
    {
        self.threads[thread as usize].make(transition);
        match transition {
            Transition::Stays(_) => {}
            Transition::Fails => {
                self.contexts.add(thread);
                self.outcome = Outcome::Failed { thread };
            }
            Transition::Steps(effect) => {
                self.contexts.add(thread);
                self.globals = globals_after(self.globals, effect);
            }
        }
    }
}
