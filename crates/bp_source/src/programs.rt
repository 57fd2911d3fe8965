//! The object of a program in JSON: the names of its procedures and of their variables.
ghost use Rattle.std.specs.Prelude.{◌≡◌, ◌++◌, flat_map, IfOk, OnOk};
ghost use Rattle.bp_source.specs.Listings.{name_item, procedure_item, program_object, string_item};

use crate::pieces::{push_four, push_three, push_two};
use bp_code::Checked;
use bp_syntax::{Name, Proc};
use bp_text::Piece::{Bytes, Key, List, Text};
use bp_text::push_pieces;
use std::alloc::{AllocError, Global};

/// Adds a string as an item of a list.
pub fn push_item(items: &mut Vec<u8>, text: &[u8]) -> Result<(), AllocError>
    ensures { OnOk result (items.new.items ≡ items.old.items ++ string_item text.now) }
{
    push_pieces(items, &[Bytes(b","), Text(text)])
}

/// Adds names as items of a list.
fn push_names(items: &mut Vec<u8>, names: &[Name]) -> Result<(), AllocError>
    ensures { OnOk result (items.new.items ≡ items.old.items ++ flat_map name_item names.now) }
{
    for name in names {
        push_item(items, name.text().as_bytes())?;
    }
    Ok(())
}

/// Adds the object of a procedure as an item of a list. `note` is room for its lists.
fn push_procedure(items: &mut Vec<u8>, note: &mut Vec<u8>, proc: &Proc) -> Result<(), AllocError>
    ensures { OnOk result (items.new.items ≡ items.old.items ++ procedure_item proc.now) }
{
    let name = proc.name().text().as_bytes();
    note.clear();
    push_names(note, proc.formals())?;
    push_four(
        items,
        Bytes(b",{\"name\":"),
        Text(name),
        Key(b"formals"),
        List(note),
    )?;
    note.clear();
    push_names(note, proc.locals())?;
    push_three(items, Key(b"locals"), List(note), Bytes(b"}"))
}

/// Adds the objects of procedures as items of a list. `note` is room for their lists.
fn push_procedures(
    items: &mut Vec<u8>,
    note: &mut Vec<u8>,
    procs: &[Proc],
) -> Result<(), AllocError>
    ensures { OnOk result
        (items.new.items ≡ items.old.items ++ flat_map procedure_item procs.now) }
{
    for proc in procs {
        push_procedure(items, note, proc)?;
    }
    Ok(())
}

/// Returns the object of a well-formed program: its procedures, each with its formals and declared
/// locals, and its globals.
pub fn program_object(alloc: Global, checked: &Checked) -> Result<Vec<u8>, AllocError>
    ensures { IfOk result (λ v. v.items ≡ program_object checked.now) }
{
    let tree = checked.tree();
    let mut note = Vec::new(alloc);
    let mut procedures = Vec::new(alloc);
    push_procedures(&mut procedures, &mut note, tree.procs())?;
    note.clear();
    push_names(&mut note, tree.globals())?;
    let mut object = Vec::new(alloc);
    push_pieces(
        &mut object,
        &[
            Bytes(b"{\"kind\":\"program\",\"version\":1"),
            Key(b"procedures"),
            List(&procedures),
            Key(b"globals"),
        ],
    )?;
    push_two(&mut object, List(&note), Bytes(b"}\n"))?;
    Ok(object)
}
