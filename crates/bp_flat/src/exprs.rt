//! Expressions over slots.
ghost use Rattle.std.specs.Prelude.{◌≡◌, IfOk};
ghost use Rattle.bp_flat.specs.Moves.{operation_value};
ghost use Rattle.bp_flat.specs.Steps.{formula_value, test_value};
ghost use Rattle.bp_flat.specs.InstrEffects.{store_of};
ghost use Rattle.bp_flat.specs.Views.{formula_of, test_of};

use crate::slots::Slot;
use crate::stores::Store;
use bp_syntax::Op;
use std::alloc::{AllocError, Global};
use std::marker::Model;

/// An expression that names its variables by their slots.
#[cycle(slot_expr)]
#[derive(Drop)]
pub enum SlotExpr {
    Const(bool),
    Var(Slot),
    Not(SlotSub),
    Binary(Op, SlotSub, SlotSub),
}

/// An operand: an expression in a box, which a contract sees as that expression.
#[cycle(slot_expr)]
#[derive(Drop)]
pub struct SlotSub {
    inner: Box<SlotExpr>,
}

impl Model for SlotSub {
    ghost use Rattle.std.proofs.Common.{arith};
    ghost use Rattle.bp_flat.specs.Flat.{Formula};
    ghost use Rattle.bp_flat.specs.Codes.{coded_formula, height};

    ghost Value = { Formula };

    ghost coded = { coded_formula };

    ghost use Rattle.bp_flat.specs.Views.{formula_of};

    ghost view = { λ s. formula_of s.inner.value };

    ghost size = { height };

    ghost size_decreases = { λ a h. Prim.grind (arith) };
}

/// Applies an operator to two bits.
pub fn apply(op: Op, left: bool, right: bool) -> bool
    ensures { result ≡ operation_value op left right }
{
    match op {
        Op::Equal => left == right,
        Op::Differ => left != right,
        Op::And => left && right,
        Op::Xor => left ^ right,
        Op::Or => left || right,
        Op::Implies => !left || right,
    }
}

impl SlotSub {
    /// Makes the expression an operand.
    pub fn new(alloc: Global, expr: SlotExpr) -> Result<SlotSub, AllocError>
        ensures { IfOk result (λ s. s ≡ formula_of expr) }
    {
        Ok(SlotSub {
            inner: Box::new(alloc, expr)?,
        })
    }

    /// Returns the operand's value. That of a variable needs no call.
    #[cycle(slot_value)]
    #[inline(always)]
    pub fn value(&self, store: &Store) -> bool
        ensures { result ≡ formula_value (store_of store.now) self.now }
    {
        match &*self.inner {
            SlotExpr::Const(b) => *b,
            SlotExpr::Var(slot) => slot.get(store),
            operation => operation.value(store),
        }
    }

    /// Returns the globals in the operand.
    #[cycle(slot_globals)]
    pub fn globals(&self) -> u128 {
        self.inner.globals()
    }
}

impl SlotExpr {
    /// Returns the expression's value.
    #[cycle(slot_value)]
    #[inline(never)]
    pub fn value(&self, store: &Store) -> bool
        ensures { result ≡ formula_value (store_of store.now) (formula_of self.now) }
    {
        match self {
            SlotExpr::Const(b) => *b,
            SlotExpr::Var(slot) => slot.get(store),
            SlotExpr::Not(e) => !e.value(store),
            SlotExpr::Binary(op, left, right) => {
                let left = left.value(store);
                apply(*op, left, right.value(store))
            }
        }
    }

    /// Returns the globals in the expression, as a word of bits.
    #[cycle(slot_globals)]
    pub fn globals(&self) -> u128 {
        match self {
            SlotExpr::Const(_) => 0,
            SlotExpr::Var(slot) => slot.globals(),
            SlotExpr::Not(e) => e.globals(),
            SlotExpr::Binary(_, left, right) => left.globals() | right.globals(),
        }
    }
}

/// The test of an instruction with two ways.
#[derive(Drop)]
pub enum Test {
    /// The choice bit of the attempt.
    Choice,
    /// The value of an expression.
    Value(SlotExpr),
}

impl Test {
    /// Returns whether the test is 1 with this choice bit.
    pub fn holds(&self, store: &Store, bit: bool) -> bool
        ensures { result ≡ test_value (store_of store.now) bit (test_of self.now) }
    {
        match self {
            Test::Choice => bit,
            Test::Value(e) => e.value(store),
        }
    }

    /// Returns the globals in the test, as a word of bits.
    pub fn globals(&self) -> u128 {
        match self {
            Test::Choice => 0,
            Test::Value(e) => e.globals(),
        }
    }
}
