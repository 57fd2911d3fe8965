//! Names of variables.
//! Variables by their names.
//! The pieces of a text that is cut at its commas. A comma inside braces cuts nothing.
//! The name of a procedure, and the procedure of an instruction.
ghost use Rattle.std.specs.Prelude.{◌≡◌, ◌≢◌, ℕ, List, bytes_eq, MatchOption, ◌<◌, ◌∷◌, false, length, Some, option_map, slice_get};
ghost use Rattle.std.specs.List.{list_any};
ghost use Rattle.bp_syntax.specs.Ast.{Program};
ghost use Rattle.bp_flat.specs.StandsFor.{variables, places_of, Place};
ghost use Rattle.bp_source.specs.Names.{is_among, declares, has_local, has_qualified, qualified, is_braced_after, piece_size, pieces, pieces_left};
ghost use Rattle.bp_source.specs.Listings.{name_at};
ghost use Rattle.bp_source.specs.SourceStatements.{AreSourceStatements};

use crate::source_statements::SourceStatement;
use bp_code::Checked;
use bp_flat::{local_slot_of, slot_of};
use bp_syntax::{Name, Proc};
use bp_text::{part_before, part_from};

/// Returns whether this is one of the names.
pub fn is_named(names: &[&[u8]], name: &[u8]) -> bool
    ensures { result ≡ is_among names.now name.now }
{
    names.contains(&name)
}

/// Returns whether a procedure has a variable of this name.
fn is_local(procs: &[Proc], name: &[u8]) -> bool
    ensures { result ≡ has_local procs.now name.now }
{
    procs.iter().any(|proc| local_slot_of(proc, name).is_some())
}

/// Returns the text after the name of a procedure and a dot, if these begin it.
pub fn own_name<'a>(text: &'a [u8], procedure: &[u8]) -> Option<&'a [u8]>
    ensures { MatchOption result
        ((own : List ℕ) → text.now ≢ qualified procedure.now own)
        (λ own. text.now ≡ qualified procedure.now own.now) }
{
    let Some(rest) = text.strip_prefix(procedure) else {
        return None;
    };
    let Some((first, own)) = rest.split_first() else {
        return None;
    };
    if *first != b'.' {
        return None;
    }
    Some(own)
}

/// Returns whether a text is the name of a procedure, a dot, and this name.
pub fn is_qualified(text: &[u8], procedure: &[u8], name: &[u8]) -> bool
    ensures { result ≡ bytes_eq text.now (qualified procedure.now name.now) }
{
    match own_name(text, procedure) {
        Some(own) => own == name,
        None => false,
    }
}

/// Returns whether a text says which of these variables is meant, with the procedure's name.
fn is_qualified_among(names: &[Name], procedure: &[u8], text: &[u8]) -> bool
    ensures { let own = procedure.now in
        result ≡ list_any (λ v. bytes_eq text.now (qualified own v.text)) names.now }
{
    names.iter().any(|name| is_qualified(text, procedure, name.text().as_bytes()))
}

/// Returns whether a text says which variable of a procedure is meant, with the name of that.
fn qualifies(proc: &Proc, text: &[u8]) -> bool
    ensures { let own = proc.now.name.text in
        result ≡ list_any (λ v. bytes_eq text.now (qualified own v.text)) (variables proc.now) }
{
    let own = proc.name().text().as_bytes();
    is_qualified_among(proc.formals(), own, text) || is_qualified_among(proc.locals(), own, text)
}

/// Returns whether a text says which local is meant, with the name of its procedure.
fn is_qualified_local(procs: &[Proc], text: &[u8]) -> bool
    ensures { result ≡ has_qualified procs.now text.now }
{
    procs.iter().any(|proc| qualifies(proc, text))
}

/// Returns whether a text says which variable of the program is meant: by its name, or by the name
/// of its procedure, a dot and its name.
pub fn declares(checked: &Checked, text: &[u8]) -> bool
    ensures { result ≡ declares checked.now text.now }
{
    let tree = checked.tree();
    let procs = tree.procs();
    slot_of(tree.globals(), text).is_some()
        || is_local(procs, text)
        || is_qualified_local(procs, text)
}

/// Returns whether the next byte is inside braces, if this byte is inside or outside.
pub fn is_braced_after(braced: bool, byte: u8) -> bool
    ensures { result ≡ is_braced_after braced byte }
{
    if braced { byte != b'}' } else { byte == b'{' }
}

/// Returns the number of bytes before the first comma outside braces, or of all if there is none.
pub fn piece_size(text: &[u8]) -> usize
    ensures { result ≡ piece_size false text.now }
{
    let mut braced = false;
    for (i, byte) in text.iter().enumerate() {
        if !braced && *byte == b',' {
            return i;
        }
        braced = is_braced_after(braced, *byte);
    }
    text.len()
}

/// Returns the first piece of a text, and the text after its comma, if it has one.
pub fn first_piece(text: &[u8]) -> (&[u8], Option<&[u8]>)
    ensures pieces { pieces false text.now ≡ result.0.now ∷ pieces_left result.1 }
    ensures shorter { MatchOption result.1 Unit (λ rest. length rest.now < length text.now) }
{
    let size = piece_size(text);
    if size < text.len() {
        return (part_before(text, size), Some(part_from(text, size + 1)));
    }
    (text, None)
}

/// Returns the name of the procedure with this number.
pub fn name_at(procs: &[Proc], number: usize) -> Option<&[u8]>
    ensures { option_map (λ s. s.now) result ≡ name_at procs.now number }
{
    match procs.get(number) {
        Some(proc) => Some(proc.name().text().as_bytes()),
        None => None,
    }
}

/// Returns the procedure of the instruction with this number.
pub fn procedure_at<'a>(
    statements: &[SourceStatement],
    procs: &'a [Proc],
    number: u32,
) -> Option<&'a Proc>
    ensures { (t : Program) (text : List ℕ) (x : Place)
        → AreSourceStatements text t statements.now
        → procs.now ≡ t.procedures
        → slice_get (places_of t.procedures) number ≡ Some x
        → option_map (λ p. p.now) result ≡ Some x.procedure }
{
    let Some(statement) = statements.get(number as usize) else {
        return None;
    };
    procs.get(statement.procedure)
}
