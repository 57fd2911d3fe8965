//! Expressions in order.
ghost use Rattle.std.specs.Prelude.{◌≡◌, ◌≤◌, IfOk, map, length};
ghost use Rattle.bp_flat.specs.declared.limits.TheConstants.{SLOTS};
ghost use Rattle.bp_flat.specs.Steps.{formula_values, bits_from};
ghost use Rattle.bp_flat.specs.InstrEffects.{bits_of, store_of};
ghost use Rattle.bp_flat.specs.Views.{formula_of};

use crate::exprs::SlotExpr;
use crate::stores::{Store, with_bit};
use std::alloc::{AllocError, Global};
use std::marker::Model;

/// Expressions in order: right sides, arguments or printed values.
#[derive(Drop)]
pub struct SlotExprs {
    items: Vec<SlotExpr>,
}

impl Model for SlotExprs {
    ghost use Rattle.std.specs.Prelude.{List, map};
    ghost use Rattle.std.specs.Coded.{coded_list};
    ghost use Rattle.bp_flat.specs.Flat.{Formula};
    ghost use Rattle.bp_flat.specs.Codes.{coded_formula};

    ghost Value = { List Formula };

    ghost coded = { coded_list coded_formula };

    ghost use Rattle.bp_flat.specs.Views.{formula_of};

    ghost view = { λ es. map formula_of es.items.items };
}

impl SlotExprs {
    /// Wraps these expressions.
    pub fn new(items: Vec<SlotExpr>) -> SlotExprs
        ensures { result ≡ map formula_of items.items }
    {
        SlotExprs { items }
    }

    /// Returns the expressions in order.
    pub fn as_slice(&self) -> &[SlotExpr]
        ensures { map formula_of result.now ≡ self.now }
    {
        self.items.as_slice()
    }

    /// Returns the values in order.
    pub fn values(&self, alloc: Global, store: Store) -> Result<Vec<bool>, AllocError>
        ensures { IfOk result (λ v. v.items ≡ formula_values (store_of store) self.now) }
    {
        let mut values = Vec::new(alloc);
        for expr in self.items.as_slice() {
            values.push(expr.value(&store))?;
        }
        Ok(values)
    }
}

/// The arguments of a call, which fit into the slots of a word.
#[derive(Drop)]
pub struct Arguments {
    values: SlotExprs,
}

impl Model for Arguments {
    ghost use Rattle.std.specs.Prelude.{◌≤◌, List, length};
    ghost use Rattle.bp_flat.specs.declared.limits.TheConstants.{SLOTS};
    ghost use Rattle.std.specs.Coded.{coded_list};
    ghost use Rattle.bp_flat.specs.Flat.{Formula};
    ghost use Rattle.bp_flat.specs.Codes.{coded_formula};

    ghost Value = { List Formula };

    ghost coded = { coded_list coded_formula };

    ghost view = { λ a. a.values };

    ghost invariant = { λ a. length a.values ≤ SLOTS };
}

impl Arguments {
    /// Wraps these arguments.
    pub fn new(values: SlotExprs) -> Arguments
        requires { length values ≤ SLOTS }
        ensures { result ≡ values }
    {
        Arguments { values }
    }

    /// Returns the arguments in order.
    pub fn values(&self) -> &SlotExprs
        ensures { result.now ≡ self.now }
    {
        &self.values
    }

    /// Returns the locals of the callee's new frame: the arguments from slot 0 on, then 0.
    pub fn word(&self, store: &Store) -> u128
        ensures { bits_of result ≡ bits_from (formula_values (store_of store.now) self.now) }
    {
        let mut word = 0;
        for (i, value) in self.values.as_slice().iter().enumerate() {
            word = with_bit(word, i as u8, value.value(store));
        }
        word
    }
}
