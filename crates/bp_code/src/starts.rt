//! The places in the text at which statements begin, in the order of the instructions.
ghost use Rattle.std.specs.Prelude.{◌≡◌, ◌++◌, IfOk, OnOk};
ghost use Rattle.bp_syntax.specs.Blocks.{block_of, statement_of};
ghost use Rattle.bp_flat.specs.StandsFor.{block_starts, inner_starts, starts_of};

use bp_syntax::{Checked, Form, Stmt};
use std::alloc::{AllocError, Global};

/// Records the starts of statements, and of those inside them.
#[cycle(note_starts)]
fn record_block(starts: &mut Vec<Option<u32>>, stmts: &[Stmt]) -> Result<(), AllocError>
    ensures { OnOk result
        (starts.new.items ≡ starts.old.items ++ block_starts (block_of stmts.now)) }
{
    for stmt in stmts {
        starts.push(Some(stmt.at()))?;
        record_inside(starts, stmt.form())?;
    }
    Ok(())
}

/// Records the starts of the statements inside a statement.
#[cycle(note_starts)]
fn record_inside(starts: &mut Vec<Option<u32>>, form: &Form) -> Result<(), AllocError>
    ensures { OnOk result
        (starts.new.items ≡ starts.old.items ++ inner_starts (statement_of form.now)) }
{
    match form {
        Form::If(_, a, b) => {
            record_block(starts, a.as_slice())?;
            record_block(starts, b.as_slice())
        }
        Form::While(_, body) => record_block(starts, body.as_slice()),
        _ => Ok(()),
    }
}

/// Returns for each instruction of the program's code, in order, the offset of its statement's
/// first token after its label, or None at the end of a procedure.
pub fn statement_starts(alloc: Global, checked: &Checked) -> Result<Vec<Option<u32>>, AllocError>
    ensures { IfOk result (λ v. v.items ≡ starts_of checked.now) }
{
    let procs = checked.tree().procs();
    let mut starts = Vec::new(alloc);
    for proc in procs {
        record_block(&mut starts, proc.body())?;
        starts.push(None)?;
    }
    Ok(starts)
}
