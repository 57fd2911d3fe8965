//! The source statement of each instruction.
ghost use Rattle.std.specs.Prelude.{◌≡◌, ℕ, List, None, Some, slice_get, IfOk};
ghost use Rattle.bp_syntax.specs.Ast.{Procedure};
ghost use Rattle.bp_flat.specs.StandsFor.{Place, start_of_block};
ghost use Rattle.bp_source.specs.SourceStatements.{place_text, position_text, AreSourceStatements, IsSourceStatement};
ghost use Rattle.bp_text.specs.Lines.{position_at};

use crate::excerpts::{Excerpt, excerpt_of};
use crate::pieces::push_three;
use bp_code::{Checked, statement_starts};
use bp_syntax::Proc;
use bp_text::Piece::{Bytes, Number};
use bp_text::{FIRST, Position, part_from, position_from, push_bytes, push_on_one_line};
use std::alloc::{AllocError, Global};

/// The shown facts of an instruction: the place of its statement, as printed, and its text.
#[derive(Drop)]
pub struct SourceStatement {
    pub place: Vec<u8>,
    pub excerpt: Excerpt,
    /// The offset at which the statement begins; None at the end of a procedure.
    pub start: Option<u32>,
    /// The start as a line and a column.
    pub position: Option<Position>,
    /// The procedure's index among the procedures.
    pub procedure: usize,
}

/// Returns the text of a place.
fn place_text(alloc: Global, position: Position) -> Result<Vec<u8>, AllocError>
    ensures { IfOk result (λ v. v.items ≡ position_text position) }
{
    let (line, column) = (position.line as u64, position.column as u64);
    let mut text = Vec::new(alloc);
    push_three(&mut text, Number(line), Bytes(b":"), Number(column))?;
    Ok(text)
}

/// Returns the source statement of a statement that begins at this offset.
fn begun_statement(
    alloc: Global,
    text: &[u8],
    start: u32,
    position: Position,
    procedure: usize,
) -> Result<SourceStatement, AllocError>
    requires { position ≡ position_at text.now start }
    ensures { (ps : List Procedure) (x : Place)
        → slice_get ps procedure ≡ Some x.procedure
        → start_of_block x.left ≡ Some start
        → IfOk result (IsSourceStatement text.now ps x) }
{
    let rest = part_from(text, start as usize);
    Ok(SourceStatement {
        place: place_text(alloc, position)?,
        excerpt: excerpt_of(alloc, rest)?,
        start: Some(start),
        position: Some(position),
        procedure,
    })
}

/// Returns the source statement of the end of a procedure.
fn procedure_end(
    alloc: Global,
    name: &[u8],
    procedure: usize,
) -> Result<SourceStatement, AllocError>
    ensures { (text : List ℕ) (ps : List Procedure) (x : Place)
        → slice_get ps procedure ≡ Some x.procedure
        → name.now ≡ x.procedure.name.text
        → start_of_block x.left ≡ None
        → IfOk result (IsSourceStatement text ps x) }
{
    let mut place = Vec::new(alloc);
    push_bytes(&mut place, b"-")?;
    let mut text = Vec::new(alloc);
    push_on_one_line(&mut text, b"end of ")?;
    push_on_one_line(&mut text, name)?;
    Ok(SourceStatement {
        place,
        excerpt: Excerpt {
            text,
            reads_choice: false,
        },
        start: None,
        position: None,
        procedure,
    })
}

/// Returns the name of a procedure.
fn name_of(procs: &[Proc], procedure: usize) -> &[u8]
    ensures { (p : Procedure)
        → slice_get procs.now procedure ≡ Some p
        → result.now ≡ p.name.text }
{
    match procs.get(procedure) {
        Some(proc) => proc.name().text().as_bytes(),
        None => b"",
    }
}

/// Returns a source statement for each instruction of the program of a text, in their order.
pub fn source_statements_of(
    alloc: Global,
    text: &[u8],
    checked: &Checked,
) -> Result<Vec<SourceStatement>, AllocError>
    ensures { IfOk result (λ v. AreSourceStatements text.now checked.now v.items) }
{
    let procs = checked.tree().procs();
    let starts = statement_starts(alloc, checked)?;
    let mut statements = Vec::new(alloc);
    let mut at = 0;
    let mut position = FIRST;
    let mut procedure = 0;
    for start in starts.iter() {
        let statement = if let Some(start) = *start {
            position = position_from(text, at, position, start as usize);
            at = start as usize;
            begun_statement(alloc, text, start, position, procedure)
        } else {
            let end = procedure_end(alloc, name_of(procs, procedure), procedure);
            procedure = procedure.saturating_add(1);
            end
        };
        statements.push(statement?)?;
    }
    Ok(statements)
}
