//! The slots of variables by their names, and their values.
ghost use Rattle.std.specs.Prelude.{◌≡◌, ◌<◌, length, MatchOption};
ghost use Rattle.bp_syntax.specs.Errors.{first_index};
ghost use Rattle.bp_flat.specs.InstrEffects.{bits_of};
ghost use Rattle.bp_flat.specs.StandsFor.{valuation_of, variables};
ghost use Rattle.bp_flat.specs.Moves.{lookup};

use crate::limits::SLOTS;
use bp_syntax::{Name, Proc};

/// Returns the bit of a slot, or 0 past the word.
pub fn bit_of(word: u128, slot: usize) -> bool
    ensures { result ≡ bits_of word slot }
{
    if slot >= SLOTS {
        return false;
    }
    (word >> slot) & 1 == 1
}

/// Returns the slot of the first of these names with this text, if any.
pub fn slot_of(names: &[Name], name: &[u8]) -> Option<usize>
    ensures slot { result ≡ first_index names.now name.now }
    ensures within { MatchOption result Unit (λ k. k < length names.now) }
{
    names.iter().position(|it| it.text().as_bytes() == name)
}

/// Returns the slot of a local; the formals of the procedure have the first slots.
pub fn local_slot_of(proc: &Proc, name: &[u8]) -> Option<usize>
    ensures { result ≡ first_index (variables proc.now) name.now }
{
    let formals = proc.formals();
    if let Some(slot) = slot_of(formals, name) {
        return Some(slot);
    }
    let slot = slot_of(proc.locals(), name)?;
    Some(formals.len() + slot)
}

/// Returns the value of a local in this word, if the procedure has one of this name.
pub fn local_value(proc: &Proc, word: u128, name: &[u8]) -> Option<bool>
    ensures { result ≡ lookup (valuation_of (variables proc.now) (bits_of word)) name.now }
{
    match local_slot_of(proc, name) {
        Some(slot) => Some(bit_of(word, slot)),
        None => None,
    }
}

/// Returns the value of a global in this word, if there is one of this name.
pub fn global_value(names: &[Name], word: u128, name: &[u8]) -> Option<bool>
    ensures { result ≡ lookup (valuation_of names.now (bits_of word)) name.now }
{
    match slot_of(names, name) {
        Some(slot) => Some(bit_of(word, slot)),
        None => None,
    }
}
