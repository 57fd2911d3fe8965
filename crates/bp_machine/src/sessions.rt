//! Sessions: the sequential machine, one attempt at a time.
ghost use Rattle.std.specs.Prelude.{◌≡◌, ◌++◌, ◌∷◌, [], None, Some, IfOk, IsOk, OnOk, OnErr, MatchResult};
ghost use Rattle.bp_machine.specs.Setups.{Fits};
ghost use Rattle.bp_machine.specs.Sessions.{Stands, IsAnswer, given_bit};
ghost use Rattle.bp_machine.specs.Transitions.{AreFirstChoices, AreDrawn};

mod copies;
mod judgements;
mod readings;
mod restarts;
mod waits;

use crate::calls::{AskError, Call};
use crate::choices::Choices;
use crate::machine::Machine;
use crate::setups::Setup;
use crate::threads::{Transition, first_threads};
use bp_flat::Code;
use bp_flat::stores::word_of;
use std::alloc::{AllocError, Global};
use std::marker::Model;

/// An attempt that was judged, and its transition.
#[derive(Clone, Copy)]
pub(crate) struct Judged {
    call: Call,
    transition: Transition,
}

/// A session of guest threads: a code, a setup, and the machine after the attempts that were
/// answered. If the setup has a seed, it has the choices of each thread.
pub struct Session {
    code: Code,
    setup: Setup,
    machine: Machine,
    choices: Vec<Choices>,
}

// Written out, so that elsewhere a way out has one call, and not the drop of each part.
impl Drop for Session {
    #[inline(always)]
    fn drop(self) {
        let Session {
            code: _,
            setup: _,
            machine: _,
            choices: _,
        } = self;
    }
}

impl Model for Session {
    ghost use Rattle.bp_machine.specs.Sessions.{SessionOf};
    ghost use Rattle.bp_machine.specs.SessionCodes.{coded_session};

    ghost Value = { SessionOf };

    ghost coded = { coded_session };

    ghost use Rattle.bp_machine.specs.Sessions.{IsInOrder};
    ghost use Rattle.bp_machine.specs.Transitions.{session_of};

    ghost view = { λ s. session_of s.code s.setup s.machine s.choices.items };

    ghost invariant = { λ s. IsInOrder (session_of s.code s.setup s.machine s.choices.items) };
}

/// Restarts the choices of each thread of a setup with this seed, before any is drawn; without one
/// there are none. They use the memory that they have, and are unchanged if more is refused.
fn restart_choices(
    choices: &mut Vec<Choices>,
    setup: &Setup,
    seed: Option<u64>,
) -> Result<(), AllocError>
    ensures first { OnOk result
        (AreFirstChoices (record setup.now { seed = seed }) choices.new.items) }
    ensures same { OnErr result (choices.new.items ≡ choices.old.items) }
    ensures unseeded { seed ≡ None → IsOk result }
{
    setup.is_in_range();
    let threads = setup.threads();
    let Some(seed) = seed else {
        choices.clear();
        return Ok(());
    };
    choices.reserve((threads as usize).saturating_sub(choices.len()))?;
    choices.clear();
    for thread in 0..threads {
        choices.push_reserved(Choices::new(seed, thread));
    }
    Ok(())
}

/// Returns the choices of each thread of a setup, before any is drawn; none without a seed.
fn first_choices(alloc: Global, setup: &Setup) -> Result<Vec<Choices>, AllocError>
    ensures { IfOk result (λ v. AreFirstChoices setup.now v.items) }
{
    let mut choices = Vec::new(alloc);
    restart_choices(&mut choices, setup, setup.seed())?;
    Ok(choices)
}

/// Draws the next bit of a thread, if there are choices.
pub(crate) fn draw(choices: &mut Vec<Choices>, thread: usize)
    ensures { AreDrawn thread choices.old.items choices.new.items }
{
    if thread < choices.len() {
        let _bit = choices[thread].next();
    }
}

impl Session {
    /// Starts a session of a code in a setup that fits it, before any attempt.
    pub fn new(alloc: Global, code: &Code, setup: &Setup) -> Result<Session, AllocError>
        requires { Fits code.now.tree setup.now }
        ensures stands { IfOk result (λ x. Stands code.now.tree x []) }
        ensures kept { IfOk result (λ x. (x.code ≡ code.now) × (x.setup ≡ setup.now)) }
    {
        code.is_of_a_program();
        setup.is_in_range();
        let threads = first_threads(alloc, code, setup.entries())?;
        let machine = Machine::start(word_of(setup.bits()), threads);
        let choices = first_choices(alloc, setup)?;
        let code = code.try_copy()?;
        let setup = setup.try_copy()?;
        Ok(Session {
            code,
            setup,
            machine,
            choices,
        })
    }

    /// Makes an attempt of a thread with the choice bit of the setup's seed. Only a step that is a
    /// call allocates.
    #[inline(always)]
    pub fn ask(&mut self, thread: u32) -> Result<Call, AskError>
        ensures { IsAnswer self.old thread None self.new result }
    {
        self.make_given(thread, None)
    }

    /// Makes an attempt of a thread with this choice bit, if the setup has no seed. Only a step
    /// that is a call allocates.
    #[inline(always)]
    pub fn ask_with(&mut self, thread: u32, bit: bool) -> Result<Call, AskError>
        ensures { IsAnswer self.old thread (Some bit) self.new result }
    {
        self.make_given(thread, Some(bit))
    }

    /// Makes the machine's own attempt of the thread of a recorded attempt: with the bit of the
    /// seed if the setup has one, else with the recorded bit. Only a step that is a call allocates.
    #[inline(always)]
    pub fn ask_as_recorded(&mut self, thread: u32, bit: bool) -> Result<Call, AskError>
        ensures { IsAnswer self.old thread (given_bit self.old.setup bit) self.new result }
    {
        let given = self.given_bit(bit);
        self.make_given(thread, given)
    }

    /// Returns the code whose instructions the threads step through.
    pub fn code(&self) -> &Code
        ensures { result.now ≡ self.now.code }
    {
        &self.code
    }

    /// Returns the setup from which the session started.
    pub fn setup(&self) -> &Setup
        ensures { result.now ≡ self.now.setup }
    {
        &self.setup
    }
}
