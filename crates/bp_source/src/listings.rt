//! A listing with the source of each instruction.
//! The code of a program in JSON: its procedures, and its instructions with their source.
//! The line and the column of a place, as objects of JSON have them.
ghost use Rattle.std.specs.Prelude.{◌≡◌, ◌++◌, IfOk, OnOk, ◌<◌, ◌^◌, flat_map, length};
ghost use Rattle.bp_source.specs.Listings.{is_heading, line_with, plain_line, statements_after, sourced_line, IsSourcedListing, code_object, heading_item, instruction_object, instruction_objects, operation_name, IsCodeInJson, column_of, line_of};

use crate::names::name_at;
use crate::pieces::push_two;
use crate::source_statements::{SourceStatement, source_statements_of};
use bp_code::Checked;
use bp_flat::{Code, Heading, Instr, Kind};
use bp_syntax::Proc;
use bp_text::Piece::{Bytes, Key, Left, List, Number, NumberOrNull, Text, TextOrNull};
use bp_text::{Position, push_pieces, take_line};
use std::alloc::{AllocError, Global};

/// The width of the column of an instruction.
pub(crate) const INSTRUCTION_WIDTH: usize = 20;

/// The width of the column of a place.
pub(crate) const PLACE_WIDTH: usize = 7;

/// Returns whether the line of a listing is that of a procedure: it begins with `proc`, and any
/// other with a number.
fn is_heading(instruction: &[u8]) -> bool
    ensures { result ≡ is_heading instruction.now }
{
    matches!(instruction.first(), Some(b'p'))
}

/// Adds the line of an instruction, and in columns after it its place and its statement.
fn push_sourced<'a>(
    out: &mut Vec<u8>,
    instruction: &'a [u8],
    statement: &'a SourceStatement,
) -> Result<(), AllocError>
    ensures { let line = sourced_line instruction.entry.now statement.entry.now in
        OnOk result (out.new.items ≡ out.old.items ++ line) }
{
    push_pieces(
        out,
        &[
            Left(INSTRUCTION_WIDTH, instruction),
            Bytes(b" ; "),
            Left(PLACE_WIDTH, statement.place.as_slice()),
            Bytes(b" "),
            Bytes(statement.excerpt.text.as_slice()),
            Bytes(b"\n"),
        ],
    )
}

/// Adds the line of a listing as it is.
fn push_plain(out: &mut Vec<u8>, instruction: &[u8]) -> Result<(), AllocError>
    ensures { OnOk result (out.new.items ≡ out.old.items ++ plain_line instruction.now) }
{
    push_two(out, Bytes(instruction), Bytes(b"\n"))
}

/// Adds the line of a listing. Next to the line of an instruction the first of these source
/// statements is shown, and is then taken.
fn push_listed(
    out: &mut Vec<u8>,
    instruction: &[u8],
    statements: &mut &[SourceStatement],
) -> Result<(), AllocError>
    ensures line { OnOk result
        (out.new.items ≡ out.old.items ++ line_with instruction.now statements.old.now) }
    ensures left { OnOk result
        (statements.new.now ≡ statements_after instruction.now statements.old.now) }
{
    if is_heading(instruction) {
        return push_plain(out, instruction);
    }
    let Some((statement, rest)) = statements.split_first() else {
        return push_plain(out, instruction);
    };
    *statements = rest;
    push_sourced(out, instruction, statement)
}

/// Returns the listing of the code of a well-formed program, and after each instruction the place
/// and the statement that `show` prints of it. `listing` is that listing.
pub fn sourced_listing(
    alloc: Global,
    text: &[u8],
    checked: &Checked,
    listing: &[u8],
) -> Result<Vec<u8>, AllocError>
    ensures { IfOk result
        (λ v. IsSourcedListing text.now checked.now listing.now v.items) }
{
    let statements = source_statements_of(alloc, text, checked)?;
    let mut left = statements.as_slice();
    let mut rest = listing;
    let mut out = Vec::new(alloc);
    while let Some(line) = take_line(&mut rest) {
        push_listed(&mut out, line.text, &mut left)?;
    }
    Ok(out)
}

/// Returns the word for the operation of an instruction, as in the listing.
fn operation_name(kind: Kind) -> &'static [u8]
    ensures { result.now ≡ operation_name kind }
{
    match kind {
        Kind::Skip => b"skip",
        Kind::Goto => b"goto",
        Kind::Return => b"return",
        Kind::Assign => b"assign",
        Kind::If => b"if",
        Kind::While => b"while",
        Kind::Assert => b"assert",
        Kind::Assume => b"assume",
        Kind::Print => b"print",
        Kind::Call => b"call",
    }
}

/// Adds the object of a procedure as an item of a list.
fn push_heading(items: &mut Vec<u8>, heading: &Heading) -> Result<(), AllocError>
    ensures { OnOk result (items.new.items ≡ items.old.items ++ heading_item heading.now) }
{
    push_pieces(
        items,
        &[
            Bytes(b",{\"name\":"),
            Text(heading.name().as_bytes()),
            Key(b"formals"),
            Number(u64::from(heading.formals())),
            Key(b"locals"),
            Number(u64::from(heading.locals())),
            Key(b"entry"),
            Number(u64::from(heading.entry())),
            Bytes(b"}"),
        ],
    )
}

/// Adds the objects of procedures as items of a list.
fn push_headings(items: &mut Vec<u8>, headings: &[Heading]) -> Result<(), AllocError>
    ensures { OnOk result
        (items.new.items ≡ items.old.items ++ flat_map heading_item headings.now) }
{
    for heading in headings {
        push_heading(items, heading)?;
    }
    Ok(())
}

/// Adds the object of a code: its procedures, and the number of instructions that follow.
fn push_code(out: &mut Vec<u8>, alloc: Global, code: &Code) -> Result<(), AllocError>
    ensures { OnOk result (out.new.items ≡ out.old.items ++ code_object code.now) }
{
    let mut procedures = Vec::new(alloc);
    push_headings(&mut procedures, code.headings())?;
    push_pieces(
        out,
        &[
            Bytes(b"{\"kind\":\"code\",\"version\":1"),
            Key(b"procedures"),
            List(&procedures),
            Key(b"instructions"),
            Number(code.len() as u64),
            Bytes(b"}\n"),
        ],
    )
}

/// Adds the object of the instruction with this number, and its source statement.
fn push_instruction<'a>(
    out: &mut Vec<u8>,
    procs: &'a [Proc],
    number: u32,
    instr: &Instr,
    statement: &'a SourceStatement,
) -> Result<(), AllocError>
    ensures { let procedures = procs.entry.now in
        let object = instruction_object procedures number instr.now statement.entry.now in
        OnOk result (out.new.items ≡ out.old.items ++ object) }
{
    push_pieces(
        out,
        &[
            Bytes(b"{\"kind\":\"instruction\""),
            Key(b"number"),
            Number(u64::from(number)),
            Key(b"procedure"),
            TextOrNull(name_at(procs, statement.procedure)),
            Key(b"operation"),
            Text(operation_name(instr.kind())),
            Key(b"next"),
            NumberOrNull(wide(instr.next())),
            Key(b"other"),
            NumberOrNull(wide(instr.other())),
            Key(b"callee"),
            NumberOrNull(wide(instr.callee())),
            Key(b"line"),
            NumberOrNull(line_of(statement.position)),
            Key(b"column"),
            NumberOrNull(column_of(statement.position)),
            Key(b"statement"),
            Text(statement.excerpt.text.as_slice()),
            Bytes(b"}\n"),
        ],
    )
}

/// Adds the objects of the instructions of a code, each with its source statement.
fn push_instructions(
    out: &mut Vec<u8>,
    procs: &[Proc],
    code: &Code,
    statements: &[SourceStatement],
) -> Result<(), AllocError>
    requires { length statements.now < 2 ^ 32 }
    ensures { let objects = instruction_objects procs.now 0 code.now.instructions statements.now in
        OnOk result (out.new.items ≡ out.old.items ++ objects) }
{
    for (number, statement) in statements.iter().enumerate() {
        let number = number as u32;
        let Some(instr) = code.get(number) else {
            return Ok(());
        };
        push_instruction(out, procs, number, instr, statement)?;
    }
    Ok(())
}

/// Returns the code of a well-formed program, an object a line: that of the code with its
/// procedures, and one for each instruction, with the place and the statement that `show` prints of
/// it.
pub fn code_objects(alloc: Global, text: &[u8], code: &Code) -> Result<Vec<u8>, AllocError>
    ensures { IfOk result (λ v. IsCodeInJson text.now code.now.tree code.now v.items) }
{
    code.is_of_a_program();
    let checked = code.checked();
    checked.has_few_statements();
    let statements = source_statements_of(alloc, text, checked)?;
    let procs = checked.tree().procs();
    let mut out = Vec::new(alloc);
    push_code(&mut out, alloc, code)?;
    push_instructions(&mut out, procs, code, &statements)?;
    Ok(out)
}

/// Returns the line of a place, if there is one.
pub fn line_of(position: Option<Position>) -> Option<u64>
    ensures { result ≡ line_of position }
{
    match position {
        Some(position) => Some(position.line as u64),
        None => None,
    }
}

/// Returns the column of a place, if there is one.
pub fn column_of(position: Option<Position>) -> Option<u64>
    ensures { result ≡ column_of position }
{
    match position {
        Some(position) => Some(position.column as u64),
        None => None,
    }
}

/// Returns the number in 64 bits.
pub fn wide(number: Option<u32>) -> Option<u64>
    ensures { result ≡ number }
{
    match number {
        Some(number) => Some(u64::from(number)),
        None => None,
    }
}
