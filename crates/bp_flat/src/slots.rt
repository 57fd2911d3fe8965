//! Variables by their slots.
ghost use Rattle.std.specs.Prelude.{◌≡◌, ◌<◌};
ghost use Rattle.bp_flat.specs.declared.limits.TheConstants.{SLOTS};
ghost use Rattle.bp_flat.specs.Steps.{slot_bit, with_slot};
ghost use Rattle.bp_flat.specs.InstrEffects.{store_of};

use crate::stores::{Store, bit_at, with_bit};
use std::alloc::AllocError;
use std::marker::Model;

/// An index among the globals, or among the formals and then the locals of a procedure, for which a
/// word of bits has a slot.
#[derive(Clone, Copy)]
pub struct Index {
    number: u8,
}

impl Model for Index {
    ghost use Rattle.std.specs.Prelude.{ℕ, ◌<◌};
    ghost use Rattle.bp_flat.specs.declared.limits.TheConstants.{SLOTS};

    ghost Value = { ℕ };

    ghost view = { λ i. i.number };

    ghost invariant = { λ i. i.number < SLOTS };

    ghost inverse = { λ n. record { number = n } };
}

impl Index {
    /// Makes the index of this number.
    pub fn new(number: u8) -> Index
        requires { number < SLOTS }
        ensures { result ≡ number }
    {
        Index { number }
    }

    /// Returns the number, from 0.
    pub fn number(self) -> u8
        ensures number { result ≡ self }
        ensures below { result < SLOTS }
    {
        self.number
    }
}

/// A variable by its slot.
#[derive(Clone, Copy)]
pub enum Slot {
    Global(Index),
    Local(Index),
}

impl Slot {
    /// Returns the variable's bit.
    pub fn get(self, store: &Store) -> bool
        ensures { result ≡ slot_bit (store_of store.now) self }
    {
        match self {
            Slot::Global(index) => bit_at(store.globals, index.number()),
            Slot::Local(index) => bit_at(store.locals, index.number()),
        }
    }

    /// Returns the bit of this variable among the globals, if it is one.
    pub fn globals(self) -> u128 {
        match self {
            Slot::Global(index) => 1 << index.number(),
            Slot::Local(_) => 0,
        }
    }

    /// Writes the variable.
    pub fn set(self, store: &mut Store, bit: bool)
        ensures { store_of store.new ≡ with_slot (store_of store.old) self bit }
    {
        match self {
            Slot::Global(index) => store.globals = with_bit(store.globals, index.number(), bit),
            Slot::Local(index) => store.locals = with_bit(store.locals, index.number(), bit),
        }
    }
}

/// Variables in order, as the left side of an assignment has them.
#[derive(Drop)]
pub struct Slots {
    items: Vec<Slot>,
}

impl Model for Slots {
    ghost use Rattle.std.specs.Prelude.{List};
    ghost use Rattle.bp_flat.specs.declared.slots.Slot.{Slot};

    ghost Value = { List Slot };

    ghost view = { λ s. s.items.items };
}

impl Slots {
    /// Wraps these variables.
    pub fn new(items: Vec<Slot>) -> Slots
        ensures { result ≡ items.items }
    {
        Slots { items }
    }

    /// Returns the variables in order.
    pub fn as_slice(&self) -> &[Slot]
        ensures { result.now ≡ self.now }
    {
        self.items.as_slice()
    }
}
