//! Values that instructions print.
ghost use Rattle.std.specs.Prelude.{◌≡◌, true, is_some, option_map, MatchResult};
ghost use Rattle.bp_flat.specs.InstrEffects.{store_of};
ghost use Rattle.bp_flat.specs.Steps.{printed_values};

use crate::actions::Action;
use crate::instrs::Instr;
use crate::stores::Store;
use std::alloc::{AllocError, Global};

impl Instr {
    /// Returns the values that a `print` prints with this store. No other instruction prints.
    pub fn printed(&self, alloc: Global, store: Store) -> Result<Option<Vec<bool>>, AllocError>
        ensures { let printed = printed_values (store_of store) self.now in
            MatchResult result
            (λ values. option_map (λ v. v.items) values ≡ printed)
            (λ _. is_some printed ≡ true) }
    {
        let Action::Print { values, .. } = self.action() else {
            return Ok(None);
        };
        let values = values.values(alloc, store)?;
        Ok(Some(values))
    }
}
