//! The facts of a program: its source statements and its names. The names of the watched variables.
ghost use Rattle.std.specs.Prelude.{◌≡◌, ℕ, List, IsSomeAnd, slice_get, ◌==◌, ◌-◌, false, length, map, option_map, IfOk, MatchOption};
ghost use Rattle.std.specs.List.{list_any, prefix_len, suffix_len};
ghost use Rattle.bp_syntax.specs.Ast.{Program};
ghost use Rattle.bp_flat.specs.Moves.{Configuration, Frame};
ghost use Rattle.bp_flat.specs.StandsFor.{place};
ghost use Rattle.bp_machine.specs.Runs.{IsTopOf};
ghost use Rattle.bp_source.specs.SourceStatements.{IsSourceStatement};
ghost use Rattle.bp_source.specs.Names.{pieces};
ghost use Rattle.bp_view.specs.CallFacts.{AreProgramFacts, entry_of};
ghost use Rattle.bp_view.specs.Filters.{is_of, is_seen, owner_name, trimmed, watched_names, AreDeclared, IsUndeclared};

use crate::change_facts::Change;
use bp_code::Checked;
use bp_machine::Top;
use bp_source::{SourceStatement, declares, is_qualified, piece_size};
use bp_syntax::{Name, Proc};
use bp_text::{part_before, part_from};
use std::alloc::{AllocError, Global};

/// The facts of a program.
#[derive(Clone, Copy)]
pub struct ProgramFacts<'a> {
    /// Its statements, by the numbers of their instructions.
    pub statements: &'a [SourceStatement],
    /// In the order of their declarations.
    pub globals: &'a [Name],
    pub procs: &'a [Proc],
}

/// Returns the facts of a well-formed program that has these source statements.
pub fn facts_of_program<'a>(
    statements: &'a [SourceStatement],
    checked: &'a Checked,
) -> ProgramFacts<'a>
    ensures statements { result.statements.now ≡ statements.entry.now }
    ensures globals { result.globals.now ≡ checked.entry.now.globals }
    ensures procedures { result.procs.now ≡ checked.entry.now.procedures }
{
    let tree = checked.tree();
    ProgramFacts {
        statements,
        globals: tree.globals(),
        procs: tree.procs(),
    }
}

/// Returns the source statement of the next statement at this top of a stack.
pub(crate) fn source_statement_of<'a>(
    program: &ProgramFacts<'a>,
    top: Top,
) -> Option<&'a SourceStatement>
    ensures got { let statements = program.now.statements.now in
        option_map (λ s. s.now) result ≡ slice_get statements top.number }
    ensures is { (t : Program) (text : List ℕ) (c : Configuration) (frames : List Frame)
        → AreProgramFacts t text program.now
        → (is : IsTopOf t c frames top)
        → let next = place is.frame.procedure is.frame.left in
        IsSomeAnd result (λ statement. IsSourceStatement text t.procedures next statement.now) }
{
    program.statements.get(top.number as usize)
}

/// Returns the number of leading spaces of a text.
fn spaces_before(text: &[u8]) -> usize
    ensures { result ≡ prefix_len (λ b. b == 32) text.now }
{
    for (i, byte) in text.iter().enumerate() {
        if *byte != b' ' {
            return i;
        }
    }
    text.len()
}

/// Returns the number of bytes before the trailing spaces of a text.
fn size_before_spaces(text: &[u8]) -> usize
    ensures { result ≡ length text.now - suffix_len (λ b. b == 32) text.now }
{
    let mut size = text.len();
    while size > 0 {
        if text[size - 1] != b' ' {
            return size;
        }
        size -= 1;
    }
    size
}

/// Returns a text without its leading and trailing spaces.
fn trimmed(text: &[u8]) -> &[u8]
    ensures { result.now ≡ trimmed text.now }
{
    let rest = part_from(text, spaces_before(text));
    part_before(rest, size_before_spaces(rest))
}

/// Returns the names between a list's commas outside braces, each without the spaces around it.
fn names_in<'a>(alloc: Global, list: &'a [u8]) -> Result<Vec<&'a [u8]>, AllocError>
    ensures { IfOk result
        (λ v. map (λ n. n.now) v.items ≡ map trimmed (pieces false list.now)) }
{
    let mut names = Vec::new(alloc);
    let mut rest = list;
    let mut size = piece_size(rest);
    while size < rest.len() {
        names.push(trimmed(part_before(rest, size)))?;
        rest = part_from(rest, size + 1);
        size = piece_size(rest);
    }
    names.push(trimmed(rest))?;
    Ok(names)
}

/// Returns the watched names; none without a list of them. They are separated by commas, which a
/// name in braces may have too, and may have spaces around them. Fails only on allocation.
pub fn watched_names<'a>(alloc: Global, list: Option<&'a str>) -> Result<Vec<&'a [u8]>, AllocError>
    ensures { IfOk result (λ v. map (λ n. n.now) v.items ≡ watched_names list.entry) }
{
    match list {
        Some(list) => names_in(alloc, list.as_bytes()),
        None => Ok(Vec::new(alloc)),
    }
}

/// Returns whether a text names this variable, which is a local of the procedure or a global.
fn is_of(text: &[u8], owner: Option<&Proc>, name: &[u8]) -> bool
    ensures { let procedure = option_map (λ p. p.now.name.text) owner.entry in
        result ≡ is_of text.now procedure name.now }
{
    match owner {
        Some(proc) => text == name || is_qualified(text, proc.name().text().as_bytes(), name),
        None => text == name,
    }
}

/// Returns whether one of these texts names this variable.
fn is_watched(texts: &[&[u8]], owner: Option<&Proc>, name: &[u8]) -> bool
    ensures { let procedure = option_map (λ p. p.now.name.text) owner.entry in
        result ≡ list_any (λ text. is_of text.now procedure name.now) texts.now }
{
    texts.iter().any(|text| is_of(text, owner, name))
}

/// Returns the number, from 1, of the first of these names that no variable has, or None.
pub fn undeclared(checked: &Checked, names: &[&[u8]]) -> Option<u64>
    ensures { let t = checked.now in
        let names = map (λ n. n.now) names.now in
        MatchOption result (AreDeclared t names) (IsUndeclared t names) }
{
    for (n, name) in names.iter().enumerate() {
        if !declares(checked, name) {
            return Some(n as u64 + 1);
        }
    }
    None
}

/// Returns whether one of the changed variables has such a name.
fn has_named(names: &[&[u8]], changes: &[Change<'_>]) -> bool
    ensures { let texts = names.now in
        result ≡ list_any
        (λ x. list_any (λ text. is_of text.now (owner_name (entry_of x)) x.name.now) texts)
        changes.now }
{
    changes
        .iter()
        .any(|change| is_watched(names, change.owner, change.name))
}

/// Returns whether one of the changed variables has such a name, or no name is watched.
pub fn has_watched(names: &[&[u8]], changes: &[Change<'_>]) -> bool
    ensures { result ≡ is_seen (map (λ n. n.now) names.now) (map entry_of changes.now) }
{
    if names.is_empty() {
        return true;
    }
    has_named(names, changes)
}
