//! The errors of one statement, apart from the blocks inside it.
ghost use Rattle.std.specs.Prelude.{◌≡◌, [], map, IfOk};
ghost use Rattle.bp_syntax.specs.Ast.{GoesTo, Assigns, Calls};
ghost use Rattle.bp_syntax.specs.Views.{expression_of};
ghost use Rattle.bp_syntax.specs.Blocks.{statement_of};
ghost use Rattle.bp_syntax.specs.Errors.{Mentions, IsUneven};
ghost use Rattle.bp_code.specs.Sets.{Only, IsStray, IsMisuse, IsStatementError, Finds};

use crate::checks::{Found, least};
use crate::procedures::Scope;
use crate::tables::{NameTable, least_repeat};
use crate::uses::{Callees, stray_in_all, stray_in_decider, stray_names};
use bp_syntax::{CheckError, Expr, Form, Name};
use std::alloc::{AllocError, Global};

/// Returns the least undeclared variable that the statement mentions.
fn stray(declared: &Scope<'_, '_>, form: &Form) -> Option<Found>
    ensures { Finds (IsStray declared.now (Mentions (statement_of form.now))) result }
{
    match form {
        Form::Skip | Form::Goto(_) | Form::Return => None,
        Form::Assign(targets, values) => {
            let found = stray_names(declared, targets.as_slice());
            least(found, stray_in_all(declared, values.as_slice()))
        }
        Form::If(decider, _, _) => stray_in_decider(declared, decider),
        Form::While(decider, _) => stray_in_decider(declared, decider),
        Form::Assert(decider) => stray_in_decider(declared, decider),
        Form::Assume(decider) => stray_in_decider(declared, decider),
        Form::Print(values) => stray_in_all(declared, values.as_slice()),
        Form::Call(_, arguments) => stray_in_all(declared, arguments.as_slice()),
    }
}

/// Returns a call of an unknown procedure, or with a wrong number of arguments.
fn wrong_call(callees: &Callees<'_>, callee: &Name, arguments: &[Expr]) -> Option<Found>
    ensures { Finds
        (IsMisuse callees.now [] (Calls callee.now (map expression_of arguments.now)))
        result }
{
    match callees.find(callee.text()) {
        None => Some(Found {
            error: CheckError::UnknownProcedure,
            at: callee.at(),
        }),
        Some(proc) => {
            if arguments.len() == proc.formals().len() {
                None
            } else {
                Some(Found {
                    error: CheckError::Arity,
                    at: callee.at(),
                })
            }
        }
    }
}

/// Returns a jump to an unknown label.
fn lost_jump(labels: &NameTable<'_>, to: &Name) -> Option<Found>
    ensures { Finds (IsMisuse [] labels.now (GoesTo to.now)) result }
{
    if labels.has(to.text()) {
        return None;
    }
    Some(Found {
        error: CheckError::UnknownLabel,
        at: to.at(),
    })
}

/// Returns the first target of an assignment whose two sides differ in number.
fn uneven_sides(targets: &[Name], values: &[Expr]) -> Option<Found>
    ensures { Finds
        (Only CheckError.Lengths (IsUneven (Assigns targets.now (map expression_of values.now))))
        result }
{
    if targets.len() == values.len() {
        return None;
    }
    let first = targets.first()?;
    Some(Found {
        error: CheckError::Lengths,
        at: first.at(),
    })
}

/// Returns the least error of an assignment's two sides, apart from undeclared names.
fn wrong_sides(
    alloc: Global,
    targets: &[Name],
    values: &[Expr],
) -> Result<Option<Found>, AllocError>
    ensures { IfOk result
        (Finds (IsMisuse [] [] (Assigns targets.now (map expression_of values.now)))) }
{
    let found = uneven_sides(targets, values);
    let names = NameTable::of(alloc, targets)?;
    Ok(least(found, least_repeat(&names, CheckError::TwiceTarget)))
}

/// Returns the least error of a statement, apart from undeclared names and the blocks inside it.
fn misuse(
    alloc: Global,
    callees: &Callees<'_>,
    labels: &NameTable<'_>,
    form: &Form,
) -> Result<Option<Found>, AllocError>
    ensures { IfOk result (Finds (IsMisuse callees.now labels.now (statement_of form.now))) }
{
    match form {
        Form::Goto(to) => Ok(lost_jump(labels, to)),
        Form::Assign(targets, values) => wrong_sides(alloc, targets.as_slice(), values.as_slice()),
        Form::Call(callee, arguments) => Ok(wrong_call(callees, callee, arguments.as_slice())),
        _ => Ok(None),
    }
}

/// Returns the least error of a statement, apart from the blocks inside it.
pub(crate) fn statement_error(
    alloc: Global,
    declared: &Scope<'_, '_>,
    callees: &Callees<'_>,
    labels: &NameTable<'_>,
    form: &Form,
) -> Result<Option<Found>, AllocError>
    ensures { IfOk result (Finds
        (IsStatementError declared.now callees.now labels.now (statement_of form.now))) }
{
    let found = misuse(alloc, callees, labels, form)?;
    Ok(least(found, stray(declared, form)))
}
