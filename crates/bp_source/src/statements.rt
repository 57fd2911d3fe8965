//! The statements of a program: a line each, their texts, and their positions. Objects in JSON that
//! name the statements of a program that no run reached.
ghost use Rattle.std.specs.Prelude.{◌≡◌, ◌++◌, map, IfOk, OnOk};
ghost use Rattle.bp_flat.specs.StandsFor.{places_of};
ghost use Rattle.bp_source.specs.StatementLines.{rendering_of, AreRenderings, line_of_statement, positions_of, AreStatementLines, object_of_statement, AreUnreachedObjects};
ghost use Rattle.bp_source.specs.SourceStatements.{AreStatements};

use crate::listings::{column_of, line_of};
use crate::source_statements::{SourceStatement, source_statements_of};
use bp_code::Checked;
use bp_text::Piece::{Bytes, Displayed, Key, NumberOrNull, Text};
use bp_text::{Position, push_bytes, push_pieces};
use std::alloc::{AllocError, Global};

/// The rendering of each statement.
#[derive(Clone, Copy)]
pub(crate) enum Rendering<'a> {
    /// Its line, in the file of this name.
    Line(&'a str),
    /// Its object if no run reached it, in the file of this name.
    Unreached(&'a str),
    /// Its text.
    Text,
}

/// Adds the line of an instruction's statement: the file's name, the place and the statement's
/// text. The end of a procedure adds nothing.
fn push_line<'a>(
    line: &mut Vec<u8>,
    file: &'a str,
    statement: &'a SourceStatement,
) -> Result<(), AllocError>
    ensures { let more = line_of_statement file.entry.now statement.entry.now in
        OnOk result (line.new.items ≡ line.old.items ++ more) }
{
    if statement.start.is_none() {
        return Ok(());
    }
    push_pieces(
        line,
        &[
            Displayed(file.as_bytes()),
            Bytes(b":"),
            Bytes(statement.place.as_slice()),
            Bytes(b" "),
            Bytes(statement.excerpt.text.as_slice()),
            Bytes(b"\n"),
        ],
    )
}

/// Adds the rendering of an instruction's statement.
fn push_rendering(
    text: &mut Vec<u8>,
    rendering: Rendering<'_>,
    statement: &SourceStatement,
) -> Result<(), AllocError>
    ensures { OnOk result (text.new.items ≡ text.old.items ++ rendering_of rendering.entry
        statement.now) }
{
    match rendering {
        Rendering::Line(file) => push_line(text, file, statement),
        Rendering::Unreached(file) => push_object(text, file, statement),
        Rendering::Text => push_bytes(text, &statement.excerpt.text),
    }
}

/// Returns for each instruction of the program of a text the rendering of its statement, in order.
pub(crate) fn all_renderings(
    alloc: Global,
    rendering: Rendering<'_>,
    text: &[u8],
    checked: &Checked,
) -> Result<Vec<Vec<u8>>, AllocError>
    ensures { IfOk result (λ v.
        let texts = map (λ rendering. rendering.items) v.items in
        AreRenderings rendering.entry text.now checked.now texts) }
{
    let statements = source_statements_of(alloc, text, checked)?;
    let mut texts = Vec::with_capacity(alloc, statements.len())?;
    for statement in statements.iter() {
        let mut written = Vec::new(alloc);
        push_rendering(&mut written, rendering, statement)?;
        texts.push(written)?;
    }
    Ok(texts)
}

/// Returns for each instruction of the program of a text, in order, the line of its statement:
/// `FILE:LINE:COLUMN STATEMENT` and a line feed. The end of a procedure has an empty one.
pub fn statement_lines(
    alloc: Global,
    file: &str,
    text: &[u8],
    checked: &Checked,
) -> Result<Vec<Vec<u8>>, AllocError>
    ensures { IfOk result (λ v.
        let lines = map (λ line. line.items) v.items in
        AreStatementLines file.now text.now checked.now lines) }
{
    all_renderings(alloc, Rendering::Line(file), text, checked)
}

/// Returns the position of the statement of each instruction in the program of a text. The end of a
/// procedure has none.
pub fn statement_positions(
    alloc: Global,
    text: &[u8],
    checked: &Checked,
) -> Result<Vec<Option<Position>>, AllocError>
    ensures { IfOk result (λ v. v.items ≡ positions_of text.now checked.now) }
{
    let statements = source_statements_of(alloc, text, checked)?;
    let mut positions = Vec::with_capacity(alloc, statements.len())?;
    for statement in statements.iter() {
        positions.push(statement.position)?;
    }
    Ok(positions)
}

/// Returns the text of each instruction's statement in the program of a text, on one line. At the
/// end of a procedure it says that.
pub fn statement_texts(
    alloc: Global,
    text: &[u8],
    checked: &Checked,
) -> Result<Vec<Vec<u8>>, AllocError>
    ensures { IfOk result (λ v.
        let texts = map (λ v. v.items) v.items in
        AreStatements text.now (places_of checked.now.procedures) texts) }
{
    all_renderings(alloc, Rendering::Text, text, checked)
}

/// Adds the object of an instruction's statement: the file's name, the place and the statement's
/// text. The end of a procedure adds nothing.
pub(crate) fn push_object<'a>(
    line: &mut Vec<u8>,
    file: &'a str,
    statement: &'a SourceStatement,
) -> Result<(), AllocError>
    ensures { let more = object_of_statement file.entry.now statement.entry.now in
        OnOk result (line.new.items ≡ line.old.items ++ more) }
{
    if statement.start.is_none() {
        return Ok(());
    }
    push_pieces(
        line,
        &[
            Bytes(b"{\"kind\":\"unreached\""),
            Key(b"file"),
            Text(file.as_bytes()),
            Key(b"line"),
            NumberOrNull(line_of(statement.position)),
            Key(b"column"),
            NumberOrNull(column_of(statement.position)),
            Key(b"statement"),
            Text(statement.excerpt.text.as_slice()),
            Bytes(b"}\n"),
        ],
    )
}

/// Returns for each instruction of the program of a text, in order, the object that names its
/// statement if no run reached it, on a line. The end of a procedure has an empty one.
pub fn unreached_objects(
    alloc: Global,
    file: &str,
    text: &[u8],
    checked: &Checked,
) -> Result<Vec<Vec<u8>>, AllocError>
    ensures { IfOk result (λ v.
        let objects = map (λ line. line.items) v.items in
        AreUnreachedObjects file.now text.now checked.now objects) }
{
    all_renderings(alloc, Rendering::Unreached(file), text, checked)
}
