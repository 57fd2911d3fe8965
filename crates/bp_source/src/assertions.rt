//! The deciders of the assertions and the assumptions of a program, and the variables that a
//! decider reads.
ghost use Rattle.std.specs.Prelude.{◌≡◌, ◌++◌, Some, map, option_map, slice_get, IfOk, OnOk};
ghost use Rattle.bp_syntax.specs.Blocks.{block_of, statement_of};
ghost use Rattle.bp_syntax.specs.Views.{decision_of, expression_of};
ghost use Rattle.bp_flat.specs.StandsFor.{places_of, Place};
ghost use Rattle.bp_source.specs.Names.{decision_in, next_decision, block_decisions, inner_decisions, names_after, reading_of, variables_read, with_name};

use crate::names::is_named;
use bp_syntax::{Decider, Expr, Form, Proc, Stmt};
use std::alloc::{AllocError, Global};

/// Adds a name, if it is not among the names.
fn add_name<'a>(names: &mut Vec<&'a [u8]>, name: &'a [u8]) -> Result<(), AllocError>
    ensures { let old = map (λ n. n.now) names.old.items in
        OnOk result (map (λ n. n.now) names.new.items ≡ with_name old name.entry.now) }
{
    if !is_named(names, name) {
        names.push(name)?;
    }
    Ok(())
}

/// Adds the names of the variables that an expression reads, each once.
fn add_names<'a>(names: &mut Vec<&'a [u8]>, expr: &'a Expr) -> Result<(), AllocError>
    ensures { let old = map (λ n. n.now) names.old.items in
        let read = names_after old (expression_of expr.entry.now) in
        OnOk result (map (λ n. n.now) names.new.items ≡ read) }
{
    match expr {
        Expr::Const(_) => Ok(()),
        Expr::Var(name) => add_name(names, name.text().as_bytes()),
        Expr::Not(operand) => add_names(names, operand.get()),
        Expr::Binary(_, left, right) => {
            add_names(names, left.get())?;
            add_names(names, right.get())
        }
    }
}

/// Returns the names of the variables that a decider reads, each once, by their first use.
pub fn variables_read<'a>(alloc: Global, decider: &'a Decider) -> Result<Vec<&'a [u8]>, AllocError>
    ensures { let read = variables_read (decision_of decider.entry.now) in
        IfOk result (λ v. map (λ n. n.now) v.items ≡ read) }
{
    let mut names = Vec::new(alloc);
    if let Decider::Value(expr) = decider {
        add_names(&mut names, expr)?;
    }
    Ok(names)
}

/// Returns the decider of a statement, if it is an assertion or an assumption.
fn decision_in<'a>(form: &'a Form) -> Option<&'a Decider>
    ensures { let decides = decision_in (statement_of form.entry.now) in
        option_map (λ d. decision_of d.now) result ≡ decides }
{
    match form {
        Form::Assert(decider) | Form::Assume(decider) => Some(decider),
        _ => None,
    }
}

/// Appends the decider of each of these statements, and of those inside them.
#[cycle(note_deciders)]
fn record_block<'a>(
    deciders: &mut Vec<Option<&'a Decider>>,
    stmts: &'a [Stmt],
) -> Result<(), AllocError>
    ensures { let more = block_decisions (block_of stmts.entry.now) in
        OnOk result
        (map reading_of deciders.new.items ≡ map reading_of deciders.old.items ++ more) }
{
    for stmt in stmts {
        let form = stmt.form();
        deciders.push(decision_in(form))?;
        record_inside(deciders, form)?;
    }
    Ok(())
}

/// Appends the decider of each of the statements inside a statement.
#[cycle(note_deciders)]
fn record_inside<'a>(
    deciders: &mut Vec<Option<&'a Decider>>,
    form: &'a Form,
) -> Result<(), AllocError>
    ensures { let more = inner_decisions (statement_of form.entry.now) in
        OnOk result
        (map reading_of deciders.new.items ≡ map reading_of deciders.old.items ++ more) }
{
    match form {
        Form::If(_, a, b) => {
            record_block(deciders, a.as_slice())?;
            record_block(deciders, b.as_slice())
        }
        Form::While(_, body) => record_block(deciders, body.as_slice()),
        _ => Ok(()),
    }
}

/// Returns for each instruction of the program's code, in order, the decider of its statement if
/// that is an assertion or an assumption.
fn deciders_in<'a>(alloc: Global, procs: &'a [Proc]) -> Result<Vec<Option<&'a Decider>>, AllocError>
    ensures { let decides = map (λ x. next_decision x.left) (places_of procs.entry.now) in
        IfOk result (λ v. map reading_of v.items ≡ decides) }
{
    let mut deciders = Vec::new(alloc);
    for proc in procs {
        record_block(&mut deciders, proc.body())?;
        deciders.push(None)?;
    }
    Ok(deciders)
}

/// Returns the decider of the statement of the instruction with this number, if that is an
/// assertion or an assumption.
pub fn decider_at<'a>(
    alloc: Global,
    procs: &'a [Proc],
    number: u32,
) -> Result<Option<&'a Decider>, AllocError>
    ensures { (x : Place)
        → slice_get (places_of procs.entry.now) number ≡ Some x
        → IfOk result (λ d. reading_of d ≡ next_decision x.left) }
{
    let deciders = deciders_in(alloc, procs)?;
    match deciders.get(number as usize) {
        Some(decider) => Ok(*decider),
        None => Ok(None),
    }
}
