//! The plan from which the runs of a test are made.
ghost use Rattle.std.specs.Prelude.{◌≡◌, IfOk};
ghost use Rattle.bp_machine.specs.Setups.{Fits};

use crate::pilots::Pilots;
use crate::visible_steps::VisibleSteps;
use bp_flat::Code;
use bp_machine::Setup;
use std::alloc::{AllocError, Global};
use std::time::Clock;

/// The first seed, and the places at which switches matter in runs of the program.
#[derive(Drop)]
pub struct Plan {
    /// The seed of run 0. Each other run has the seed after that of the run before it.
    pub seed: u64,
    /// Whether the test also searches for runs that end in a deadlock.
    pub with_deadlock: bool,
    /// The time of the clock, in milliseconds, from which no run or pilot begins.
    pub deadline: Option<u64>,
    /// The steps before which runs switch.
    pub visible: VisibleSteps,
    /// The pilots of the program.
    pub pilots: Pilots,
}

impl Plan {
    /// Makes the plan of a test that begins with this seed, with its pilots. A plan does not depend
    /// on the number of runs or of jobs.
    pub fn new<C: Clock>(
        clock: &C,
        alloc: Global,
        code: &Code,
        setup: &Setup,
        seed: u64,
        with_deadlock: bool,
        deadline: Option<u64>,
    ) -> Result<Plan, AllocError>
        requires { Fits code.now.tree setup.now }
        ensures seed { IfOk result (λ p. p.seed ≡ seed) }
        ensures deadlock { IfOk result (λ p. p.with_deadlock ≡ with_deadlock) }
        ensures deadline { IfOk result (λ p. p.deadline ≡ deadline) }
    {
        let visible = VisibleSteps::new(alloc, code, setup)?;
        let pilots = Pilots::new(clock, alloc, code, setup, seed, &visible, deadline)?;
        Ok(Plan {
            seed,
            with_deadlock,
            deadline,
            visible,
            pilots,
        })
    }
}
