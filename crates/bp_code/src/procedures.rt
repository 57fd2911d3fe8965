//! The errors of a procedure.
//! The variables that the statements of a procedure may name.
ghost use Rattle.std.specs.Prelude.{◌≡◌, ◌++◌, IfOk, OnOk};
ghost use Rattle.bp_syntax.specs.Blocks.{block_of, statement_of};
ghost use Rattle.bp_syntax.specs.Errors.{statements, statements_inside, labels_of, has};
ghost use Rattle.bp_code.specs.Sets.{names_of, all_labelled, IsErrorOfStatements, IsErrorOfBody, IsProcedureError, Finds};

use crate::checks::{Found, least};
use crate::forms::statement_error;
use crate::tables::{NameTable, error_of_names, least_repeat};
use crate::uses::Callees;
use bp_syntax::limits::MAX_OWN_NAMES;
use bp_syntax::{CheckError, Form, Name, Proc, Stmt};
use std::alloc::{AllocError, Global};
use std::marker::Model;

/// Appends the statements of a block, at any depth, in the order of the text.
#[cycle(collect)]
fn collect<'a>(out: &mut Vec<&'a Stmt>, stmts: &'a [Stmt]) -> Result<(), AllocError>
    ensures { OnOk result (all_labelled out.new.items
        ≡ all_labelled out.old.items ++ statements (block_of stmts.now)) }
{
    for stmt in stmts {
        out.push(stmt)?;
        collect_inside(out, stmt.form())?;
    }
    Ok(())
}

/// Appends the statements of the blocks inside a statement.
#[cycle(collect)]
fn collect_inside<'a>(out: &mut Vec<&'a Stmt>, form: &'a Form) -> Result<(), AllocError>
    ensures { OnOk result (all_labelled out.new.items
        ≡ all_labelled out.old.items ++ statements_inside (statement_of form.now)) }
{
    match form {
        Form::If(_, yes, no) => {
            collect(out, yes.as_slice())?;
            collect(out, no.as_slice())
        }
        Form::While(_, body) => collect(out, body.as_slice()),
        _ => Ok(()),
    }
}

fn gather_labels<'a>(out: &mut Vec<&'a Name>, stmts: &[&'a Stmt]) -> Result<(), AllocError>
    ensures { OnOk result (names_of out.new.items
        ≡ names_of out.old.items ++ labels_of (all_labelled stmts.now)) }
{
    for stmt in stmts {
        match stmt.label() {
            Some(label) => out.push(label)?,
            None => {}
        }
    }
    Ok(())
}

/// Returns the least error of statements.
fn error_of_statements(
    alloc: Global,
    declared: &Scope<'_, '_>,
    callees: &Callees<'_>,
    labels: &NameTable<'_>,
    stmts: &[&Stmt],
) -> Result<Option<Found>, AllocError>
    ensures { IfOk result (Finds
        (IsErrorOfStatements declared.now callees.now labels.now (all_labelled stmts.now))) }
{
    let mut best = None;
    for stmt in stmts {
        let found = statement_error(alloc, declared, callees, labels, stmt.form())?;
        best = least(best, found);
    }
    Ok(best)
}

/// Returns the statements of a procedure, at any depth.
fn all_statements<'a>(alloc: Global, proc: &'a Proc) -> Result<Vec<&'a Stmt>, AllocError>
    ensures { IfOk result (λ v. all_labelled v.items ≡ statements proc.now.body) }
{
    let mut stmts = Vec::new(alloc);
    collect(&mut stmts, proc.body())?;
    Ok(stmts)
}

fn labels_in<'a>(alloc: Global, stmts: &[&'a Stmt]) -> Result<Vec<&'a Name>, AllocError>
    ensures { IfOk result (λ v. names_of v.items ≡ labels_of (all_labelled stmts.now)) }
{
    let mut labels = Vec::new(alloc);
    gather_labels(&mut labels, stmts)?;
    Ok(labels)
}

/// Returns the least error among the statements and labels of a procedure.
fn error_of_body(
    alloc: Global,
    declared: &Scope<'_, '_>,
    callees: &Callees<'_>,
    proc: &Proc,
) -> Result<Option<Found>, AllocError>
    ensures { IfOk result (Finds (IsErrorOfBody declared.now callees.now proc.now)) }
{
    let stmts = all_statements(alloc, proc)?;
    let labels = NameTable::new(alloc, labels_in(alloc, &stmts)?)?;
    let found = error_of_statements(alloc, declared, callees, &labels, &stmts)?;
    Ok(least(found, least_repeat(&labels, CheckError::TwiceLabel)))
}

/// Returns the least error inside a procedure.
pub(crate) fn procedure_error<'a>(
    alloc: Global,
    globals: &NameTable<'a>,
    callees: &Callees<'_>,
    proc: &'a Proc,
) -> Result<Option<Found>, AllocError>
    ensures { IfOk result (Finds (IsProcedureError globals.now callees.now proc.now)) }
{
    let own = NameTable::of_variables(alloc, proc)?;
    let found = error_of_names(&own, CheckError::TwiceLocal, MAX_OWN_NAMES);
    let declared = Scope::new(own, globals);
    let inside = error_of_body(alloc, &declared, callees, proc)?;
    Ok(least(found, inside))
}

/// A procedure's own variables, and after them the globals.
#[derive(Drop)]
pub(crate) struct Scope<'s, 'a> {
    own: NameTable<'a>,
    globals: &'s NameTable<'a>,
}

impl<'s, 'a> Model for Scope<'s, 'a> {
    ghost use Rattle.std.specs.Prelude.{List, ◌++◌};
    ghost use Rattle.std.specs.Coded.{coded_list};
    ghost use Rattle.bp_syntax.specs.Ast as ast;
    ghost use Rattle.bp_syntax.specs.Codes.{coded_name};

    ghost Value = { List ast.Name };

    ghost coded = { coded_list coded_name };

    ghost view = { λ s. s.own ++ s.globals.now };
}

impl<'s, 'a> Scope<'s, 'a> {
    /// Returns the scope of a procedure with these variables of its own.
    pub(crate) fn new(own: NameTable<'a>, globals: &'s NameTable<'a>) -> Scope<'s, 'a>
        ensures { result ≡ own.entry ++ globals.now }
    {
        Scope { own, globals }
    }

    /// Returns whether a variable has this text.
    pub(crate) fn has(&self, text: &str) -> bool
        ensures { result ≡ has self.now text.now }
    {
        let globals = self.globals;
        self.own.has(text) || globals.has(text)
    }
}
