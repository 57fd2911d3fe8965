//! Globals by their names, each with a bit.
//! The text that gives globals their initial bits by name, as `valid=1,freed=0`.
//! The start that has the bits of globals by name.
ghost use Rattle.std.specs.Prelude.{◌≡◌, ◌↔◌, [], IsTrue, slice_get, option_map, IfOk, map, string_bytes, MatchOption};
ghost use Rattle.std.specs.List.{list_any};
ghost use Rattle.bp_source.specs.Names.{pieces_left};
ghost use Rattle.bp_source.specs.NamedBits.{named_bit, are_named_bits, ending_of, gives_names, is_named_bit, is_named_in, name_in, named_bit_in, named_bits, values_of, bits_by_name, has_global, is_set, start_by_names, AreGlobals, IsUnknown};

use crate::names::first_piece;
use bp_code::Checked;
use bp_flat::slot_of;
use bp_machine::Start;
use bp_syntax::Name;
use bp_text::{part_before, part_from};
use std::alloc::{AllocError, Global};
use std::marker::Model;

/// A global, by its name, and its initial bit.
#[derive(Clone, Copy)]
pub struct NamedBit<'a> {
    pub name: &'a [u8],
    pub bit: bool,
}

/// Globals by their names, as written in a program, each with its initial bit.
#[derive(Drop)]
pub struct NamedBits<'a> {
    items: Vec<NamedBit<'a>>,
}

impl<'a> Model for NamedBits<'a> {
    ghost use Rattle.std.specs.Prelude.{List};
    ghost use Rattle.bp_source.specs.NamedBits.{NamedBitOf, values_of};

    ghost Value = { List NamedBitOf };

    ghost view = { λ n. values_of n.items.items };
}

impl<'a> NamedBits<'a> {
    ghost use Rattle.bp_source.specs.NamedBits.{values_of};

    pub(crate) fn new(items: Vec<NamedBit<'a>>) -> NamedBits<'a>
        ensures { result ≡ values_of items.entry.items }
    {
        NamedBits { items }
    }

    /// Returns an empty list.
    pub fn none(alloc: Global) -> NamedBits<'a>
        ensures { result ≡ [] }
    {
        NamedBits {
            items: Vec::new(alloc),
        }
    }

    pub(crate) fn as_slice(&self) -> &[NamedBit<'a>]
        ensures { values_of result.now ≡ self.now }
    {
        self.items.as_slice()
    }

    /// Returns whether no global is named.
    pub fn is_empty(&self) -> bool
        ensures { IsTrue result ↔ (self.now ≡ []) }
    {
        self.items.is_empty()
    }

    /// Returns the name of this number in the list, from 0.
    pub fn name(&self, n: usize) -> Option<&'a [u8]>
        ensures { let names = option_map (λ it. it.name) (slice_get self.now n) in
            option_map (λ it. it.now) result ≡ names }
    {
        match self.items.get(n) {
            Some(item) => Some(item.name),
            None => None,
        }
    }
}

/// Returns whether a text gives bits by name: it has an equals sign.
pub fn gives_names(text: &str) -> bool
    ensures { result ≡ gives_names text.now }
{
    text.as_bytes().iter().any(|byte| *byte == b'=')
}

/// Returns the bytes before the last two.
fn name_in(piece: &[u8]) -> &[u8]
    ensures { result.now ≡ name_in piece.now }
{
    part_before(piece, piece.len().saturating_sub(2))
}

/// Returns the last two bytes.
fn ending_of(piece: &[u8]) -> &[u8]
    ensures { result.now ≡ ending_of piece.now }
{
    part_from(piece, piece.len().saturating_sub(2))
}

/// Returns whether a piece is a name with `=0` or `=1`.
fn is_named_bit(piece: &[u8]) -> bool
    ensures { result ≡ is_named_bit piece.now }
{
    let ending = ending_of(piece);
    !name_in(piece).is_empty() && (ending == b"=0".as_slice() || ending == b"=1".as_slice())
}

/// Returns whether one of the pieces that are left gives this name a bit.
fn is_named_in(list: Option<&[u8]>, name: &[u8]) -> bool
    ensures { result ≡ is_named_in (pieces_left list.entry) name.now }
{
    let mut rest = list;
    while let Some(text) = rest {
        let (piece, others) = first_piece(text);
        if name_in(piece) == name {
            return true;
        }
        rest = others;
    }
    false
}

/// Returns whether a text has names with bits between its commas, `NAME=0` or `NAME=1`, and no name
/// twice. A name in braces may have commas too.
pub fn are_named_bits(text: &str) -> bool
    ensures { result ≡ are_named_bits text.now }
{
    let mut rest = Some(text.as_bytes());
    while let Some(list) = rest {
        let (piece, others) = first_piece(list);
        if !is_named_bit(piece) || is_named_in(others, name_in(piece)) {
            return false;
        }
        rest = others;
    }
    true
}

fn named_bit_in(piece: &[u8]) -> NamedBit<'_>
    ensures { named_bit result.name.now result.bit ≡ named_bit_in piece.now }
{
    NamedBit {
        name: name_in(piece),
        bit: ending_of(piece) == b"=1".as_slice(),
    }
}

/// Returns the names with bits of such a text. Fails only on allocation.
pub fn named_bits(alloc: Global, text: &str) -> Result<NamedBits<'_>, AllocError>
    ensures { IfOk result (λ n. n ≡ named_bits text.now) }
{
    let mut items = Vec::new(alloc);
    let mut rest = Some(text.as_bytes());
    while let Some(list) = rest {
        let (piece, others) = first_piece(list);
        items.push(named_bit_in(piece))?;
        rest = others;
    }
    Ok(NamedBits::new(items))
}

/// A start, and the globals in it that have their initial bits by name.
#[derive(Clone, Copy)]
pub struct NamedStart<'a> {
    pub start: &'a Start,
    pub named: &'a NamedBits<'a>,
}

/// Returns whether this gives a global of this name the bit 1.
fn is_set(it: &NamedBit<'_>, name: &[u8]) -> bool
    ensures { result ≡ is_set (named_bit it.now.name.now it.now.bit) name.now }
{
    it.name == name && it.bit
}

/// Returns the initial bit of a global of this name: 1 if it is named with 1, and else 0.
fn bit_of(named: &[NamedBit<'_>], name: &[u8]) -> bool
    ensures { let given = named.now in
        result ≡ list_any (λ it. is_set (named_bit it.name.now it.bit) name.now) given }
{
    named.iter().any(|it| is_set(it, name))
}

/// Returns the bits of the globals in order of declaration.
fn bits_by_name(
    alloc: Global,
    named: &[NamedBit<'_>],
    globals: &[Name],
) -> Result<Vec<bool>, AllocError>
    ensures { IfOk result (λ v. v.items ≡ bits_by_name (values_of named.now) globals.now) }
{
    let mut bits = Vec::new(alloc);
    for global in globals {
        bits.push(bit_of(named, global.text().as_bytes()))?;
    }
    Ok(bits)
}

fn copies(alloc: Global, names: &[String]) -> Result<Vec<String>, AllocError>
    ensures { IfOk result (λ v. map string_bytes v.items ≡ map string_bytes names.now) }
{
    let mut items = Vec::new(alloc);
    for name in names {
        items.push(name.clone()?)?;
    }
    Ok(items)
}

fn has_global(checked: &Checked, it: &NamedBit<'_>) -> bool
    ensures { result ≡ has_global checked.now (named_bit it.now.name.now it.now.bit) }
{
    slot_of(checked.tree().globals(), it.name).is_some()
}

/// Returns the number, from 1, of the first name that no global has.
fn first_unknown(checked: &Checked, named: &[NamedBit<'_>]) -> Option<u64>
    ensures { let named = values_of named.now in
        MatchOption result (AreGlobals checked.now named) (IsUnknown checked.now named) }
{
    for (n, it) in named.iter().enumerate() {
        if !has_global(checked, it) {
            return Some(n as u64 + 1);
        }
    }
    None
}

impl NamedBits<'_> {
    /// Returns the number, from 1, of the first name that no global of the program has.
    pub fn unknown(&self, checked: &Checked) -> Option<u64>
        ensures { MatchOption result
            (AreGlobals checked.now self.now)
            (IsUnknown checked.now self.now) }
    {
        first_unknown(checked, self.as_slice())
    }

    /// Returns this start, in which each global of the program has the initial bit of its name, or
    /// 0 if it is not named. Fails only on allocation.
    pub fn start_by_names(
        &self,
        alloc: Global,
        checked: &Checked,
        start: &Start,
    ) -> Result<Start, AllocError>
        ensures { IfOk result (λ s. s ≡ start_by_names start.now self.now checked.now) }
    {
        let globals = checked.tree().globals();
        Ok(Start {
            entries: copies(alloc, &start.entries)?,
            init: Some(bits_by_name(alloc, self.as_slice(), globals)?),
            contexts: start.contexts,
            calls: start.calls,
        })
    }
}
