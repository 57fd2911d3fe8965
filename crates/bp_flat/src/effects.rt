//! Effects of instructions.
ghost use Rattle.std.specs.Prelude.{◌≡◌, List};
ghost use Rattle.bp_flat.specs.InstrEffects.{store_of, effect_of};
ghost use Rattle.bp_flat.specs.Steps.{Activation, instruction_effect};

use crate::actions::Action;
use crate::instrs::Instr;
use crate::stores::Store;

/// The effect of an instruction on its thread.
#[derive(Clone, Copy)]
pub enum Effect {
    /// The topmost frame continues at `next`, and the globals and its locals are these.
    Continues {
        next: u32,
        store: Store,
    },
    /// The topmost frame is left to continue at `next`, and a frame with these locals begins above
    /// it at `callee`.
    Enters {
        callee: u32,
        next: u32,
        locals: u128,
    },
    /// The topmost frame is removed.
    Returns,
    /// An assertion of 0.
    Fails,
    /// An assumption of 0.
    Blocks,
}

impl Instr {
    /// Returns the effect of this instruction on its thread, with this store and choice bit.
    #[inline(always)]
    pub fn effect(&self, store: Store, bit: bool) -> Effect
        ensures { let now = store_of store in
            (below : List Activation)
            → effect_of store result below ≡ instruction_effect self.now now below bit }
    {
        match self.action() {
            Action::Skip { next } | Action::Goto { next } | Action::Print { next, .. } => {
                Effect::Continues { next: *next, store }
            }
            Action::Return => Effect::Returns,
            Action::Assign(assignment) => Effect::Continues {
                next: assignment.next,
                store: assignment.store_after(&store),
            },
            Action::If(branch) | Action::While(branch) => {
                let next = if branch.test.holds(&store, bit) {
                    branch.next
                } else {
                    branch.other
                };
                Effect::Continues { next, store }
            }
            Action::Assert { test, .. } if !test.holds(&store, bit) => Effect::Fails,
            Action::Assume { test, .. } if !test.holds(&store, bit) => Effect::Blocks,
            Action::Assert { next, .. } | Action::Assume { next, .. } => {
                Effect::Continues { next: *next, store }
            }
            Action::Call(call) => Effect::Enters {
                callee: call.callee,
                next: call.next,
                locals: call.arguments.word(&store),
            },
        }
    }
}
