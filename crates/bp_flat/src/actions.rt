//! Actions of instructions.
ghost use Rattle.std.specs.Prelude.{◌≡◌};
ghost use Rattle.bp_flat.specs.Steps.{with_slots, formula_values};
ghost use Rattle.bp_flat.specs.InstrEffects.{store_of};

use crate::expr_lists::{Arguments, SlotExprs};
use crate::exprs::Test;
use crate::slots::Slots;
use crate::stores::Store;
use std::alloc::AllocError;

/// A parallel assignment, and the number of the instruction that follows it.
#[derive(Drop)]
pub struct Assignment {
    pub targets: Slots,
    pub values: SlotExprs,
    pub next: u32,
}

impl Assignment {
    /// Returns the store after it: evaluates all right sides before writing the first target.
    #[inline(always)]
    pub fn store_after(&self, store: &Store) -> Store
        ensures { let bits = formula_values (store_of store.now) self.now.values in
            store_of result ≡ with_slots (store_of store.now) self.now.targets bits }
    {
        let values = self.values.as_slice();
        let mut after = *store;
        for (i, slot) in self.targets.as_slice().iter().enumerate() {
            let Some(value) = values.get(i) else {
                return after;
            };
            let bit = value.value(store);
            slot.set(&mut after, bit);
        }
        after
    }
}

/// A test with two ways: to `next` if it is 1, to `other` if it is 0.
#[derive(Drop)]
pub struct Branch {
    pub test: Test,
    pub next: u32,
    pub other: u32,
}

/// A call of the procedure whose first instruction has the number `callee`, and the number of the
/// instruction that follows its return.
#[derive(Drop)]
pub struct Call {
    pub callee: u32,
    pub arguments: Arguments,
    pub next: u32,
}

/// The action of one instruction, with the numbers of its successors. The next instruction follows
/// it, or follows if its test is 1; the other one follows if its test is 0.
#[derive(Drop)]
pub enum Action {
    Skip { next: u32 },
    Goto { next: u32 },
    Return,
    Assign(Assignment),
    If(Branch),
    While(Branch),
    Assert { test: Test, next: u32 },
    Assume { test: Test, next: u32 },
    Print { values: SlotExprs, next: u32 },
    Call(Call),
}
