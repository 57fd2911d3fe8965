//! The instructions of the statements of a procedure, in text order.
ghost use Rattle.std.specs.Prelude.{◌≡◌, ◌+◌, ◌^◌, ◌<◌, ◌≤◌, ◌++◌, ◌∷◌, [], OnOk, drop, length};
ghost use Rattle.bp_syntax.specs.Ast.{Branches, Loops};
ghost use Rattle.bp_syntax.specs.Views.{decision_of};
ghost use Rattle.bp_syntax.specs.Blocks.{block_of, statement_of};
ghost use Rattle.bp_code.specs.Environments.{environment_of};
ghost use Rattle.bp_code.specs.KnownNames.{IsKnown, IsKnownIn};
ghost use Rattle.bp_code.specs.CompilablePrograms.{block_sizes, inner_sizes, AreSizesOf};
ghost use Rattle.bp_code.specs.CompiledCode.{block_entry, block_size, size, with_block, with_statement};

use crate::environments::Environment;
use crate::translate::{exprs, slots, test};
use bp_flat::actions::{Action, Assignment, Branch, Call};
use bp_flat::expr_lists::Arguments;
use bp_flat::instrs::Instr;
use bp_syntax::{Block, Decider, Form, Stmt};
use std::alloc::AllocError;

/// Appends an instruction.
pub(crate) fn push(out: &mut Vec<Instr>, instr: Instr) -> Result<(), AllocError>
    ensures code { OnOk result (out.new.items ≡ out.old.items ++ instr ∷ []) }
    ensures grown { OnOk result (length out.new.items ≡ length out.old.items + 1) }
{
    out.push(instr)?;
    Ok(())
}

/// Returns the number at which control enters a block whose first instruction would have the number
/// `at`, if `next` follows the block.
fn first(block: &Block, at: u32, next: u32) -> u32
    ensures { result ≡ block_entry block.now at next }
{
    if block.as_slice().is_empty() {
        next
    } else {
        at
    }
}

/// Returns the number at which control continues after the i-th of the statements: the statement
/// after it, whose first instruction would have the number `after`, or `next`.
fn following(stmts: &[Stmt], i: usize, after: u32, next: u32) -> u32
    requires { i < length stmts.now }
    ensures { result ≡ block_entry (block_of (drop (i + 1) stmts.now)) after next }
{
    if i + 1 < stmts.len() { after } else { next }
}

/// Adds the instructions of a block, followed by `next`.
#[cycle(emit)]
pub(crate) fn emit_block(
    out: &mut Vec<Instr>,
    environment: &Environment<'_, '_>,
    stmts: &[Stmt],
    next: u32,
) -> Result<(), AllocError>
    requires room { length out.old.items + block_size (block_of stmts.now) < 2 ^ 32 }
    requires known { IsKnown (environment_of environment.now) (block_of stmts.now) }
    requires placed { let sizes = block_sizes (block_of stmts.now) in
        AreSizesOf environment.now.layout (length out.old.items) sizes }
    ensures code { let environment = environment_of environment.now in
        let block = block_of stmts.now in
        OnOk result (out.new.items ≡ with_block environment out.old.items block next) }
    ensures grown { let grown = length out.old.items + block_size (block_of stmts.now) in
        OnOk result (length out.new.items ≡ grown) }
{
    for (i, stmt) in stmts.iter().enumerate() {
        let number = out.len() as u32;
        let after = number + environment.layout.size_at(number);
        let follows = following(stmts, i, after, next);
        emit(out, environment, stmt.form(), follows)?;
    }
    Ok(())
}

/// Adds the instructions of a statement, followed by `next`.
#[cycle(emit)]
fn emit(
    out: &mut Vec<Instr>,
    environment: &Environment<'_, '_>,
    form: &Form,
    next: u32,
) -> Result<(), AllocError>
    requires room { length out.old.items + size (statement_of form.now) < 2 ^ 32 }
    requires known { IsKnownIn (environment_of environment.now) (statement_of form.now) }
    requires placed { let sizes = inner_sizes (statement_of form.now) in
        AreSizesOf environment.now.layout (length out.old.items + 1) sizes }
    ensures code { let environment = environment_of environment.now in
        let statement = statement_of form.now in
        OnOk result (out.new.items ≡ with_statement environment out.old.items statement next) }
    ensures grown { let grown = length out.old.items + size (statement_of form.now) in
        OnOk result (length out.new.items ≡ grown) }
{
    let alloc = *out.allocator();
    let action = match form {
        Form::If(d, a, b) => return emit_if(out, environment, d, a, b, next),
        Form::While(d, body) => return emit_while(out, environment, d, body, next),
        Form::Skip => Action::Skip { next },
        Form::Goto(to) => Action::Goto {
            next: environment.label(to),
        },
        Form::Return => Action::Return,
        Form::Assign(targets, values) => {
            let targets = slots(alloc, environment, targets)?;
            let values = exprs(alloc, environment, values)?;
            Action::Assign(Assignment {
                targets,
                values,
                next,
            })
        }
        Form::Assert(d) => Action::Assert {
            test: test(alloc, environment, d)?,
            next,
        },
        Form::Assume(d) => Action::Assume {
            test: test(alloc, environment, d)?,
            next,
        },
        Form::Print(values) => Action::Print {
            values: exprs(alloc, environment, values)?,
            next,
        },
        Form::Call(name, arguments) => Action::Call(Call {
            callee: environment.callee(name),
            arguments: Arguments::new(exprs(alloc, environment, arguments)?),
            next,
        }),
    };
    push(out, Instr::new(action))
}

/// Adds the test of a branch, then its two parts.
#[cycle(emit)]
fn emit_if(
    out: &mut Vec<Instr>,
    environment: &Environment<'_, '_>,
    d: &Decider,
    a: &Block,
    b: &Block,
    next: u32,
) -> Result<(), AllocError>
    requires room { let statement = Branches (decision_of d.now) a.now b.now in
        length out.old.items + size statement < 2 ^ 32 }
    requires known { let statement = Branches (decision_of d.now) a.now b.now in
        IsKnownIn (environment_of environment.now) statement }
    requires placed { let sizes = inner_sizes (Branches (decision_of d.now) a.now b.now) in
        AreSizesOf environment.now.layout (length out.old.items + 1) sizes }
    ensures code { let environment = environment_of environment.now in
        let statement = Branches (decision_of d.now) a.now b.now in
        OnOk result (out.new.items ≡ with_statement environment out.old.items statement next) }
    ensures grown { let statement = Branches (decision_of d.now) a.now b.now in
        OnOk result (length out.new.items ≡ length out.old.items + size statement) }
{
    let at = out.len() as u32;
    let second = at + 1 + environment.layout.size_of_block(a.as_slice(), at + 1);
    let test = test(*out.allocator(), environment, d)?;
    let branch = Branch {
        test,
        next: first(a, at + 1, next),
        other: first(b, second, next),
    };
    push(out, Instr::new(Action::If(branch)))?;
    emit_block(out, environment, a.as_slice(), next)?;
    emit_block(out, environment, b.as_slice(), next)
}

/// Adds the test of a loop, then its body, which the test follows.
#[cycle(emit)]
fn emit_while(
    out: &mut Vec<Instr>,
    environment: &Environment<'_, '_>,
    d: &Decider,
    body: &Block,
    next: u32,
) -> Result<(), AllocError>
    requires room { let statement = Loops (decision_of d.now) body.now in
        length out.old.items + size statement < 2 ^ 32 }
    requires known { let statement = Loops (decision_of d.now) body.now in
        IsKnownIn (environment_of environment.now) statement }
    requires placed { let sizes = inner_sizes (Loops (decision_of d.now) body.now) in
        AreSizesOf environment.now.layout (length out.old.items + 1) sizes }
    ensures code { let environment = environment_of environment.now in
        let statement = Loops (decision_of d.now) body.now in
        OnOk result (out.new.items ≡ with_statement environment out.old.items statement next) }
    ensures grown { let statement = Loops (decision_of d.now) body.now in
        OnOk result (length out.new.items ≡ length out.old.items + size statement) }
{
    let at = out.len() as u32;
    let test = test(*out.allocator(), environment, d)?;
    let branch = Branch {
        test,
        next: first(body, at + 1, at),
        other: next,
    };
    push(out, Instr::new(Action::While(branch)))?;
    emit_block(out, environment, body.as_slice(), at)
}
