//! Restarting a session.
ghost use Rattle.std.specs.Prelude.{◌≡◌, [], None, IsOk, OnOk, OnErr};
ghost use Rattle.bp_machine.specs.Setups.{Fits};
ghost use Rattle.bp_machine.specs.Sessions.{Stands};

use crate::sessions::{Session, restart_choices};
use bp_flat::stores::word_of;
use std::alloc::AllocError;

impl Session {
    /// Restarts this session, before any attempt, in the same setup but with this seed or none. It
    /// uses the memory that it has. Only the choices may need more; if that is refused, the session
    /// is unchanged.
    pub fn restart(&mut self, seed: Option<u64>) -> Result<(), AllocError>
        requires { Fits self.old.code.tree self.old.setup }
        ensures stands { OnOk result
            (Stands self.old.code.tree self.new []) }
        ensures code { self.new.code ≡ self.old.code }
        ensures setup { OnOk result (self.new.setup ≡ record self.old.setup { seed = seed }) }
        ensures same { OnErr result (self.new ≡ self.old) }
        ensures unseeded { seed ≡ None → IsOk result }
    {
        self.code.is_of_a_program();
        self.setup.is_in_range();
        // This comes before all else, since nothing after it can be refused.
        restart_choices(&mut self.choices, &self.setup, seed)?;
        self.setup.set_seed(seed);
        let word = word_of(self.setup.bits());
        self.machine.restart(word, &self.code, self.setup.entries());
        Ok(())
    }
}
