//! Variables that are used and not declared.
//! Procedures that are found by their names.
ghost use Rattle.std.specs.Prelude.{◌≡◌, map, IfOk};
ghost use Rattle.std.specs.Option.{option_copied};
ghost use Rattle.bp_syntax.specs.Views.{expression_of, decision_of};
ghost use Rattle.bp_syntax.specs.Ast.{procedure_named};
ghost use Rattle.bp_syntax.specs.Errors.{Uses, SomeUses, DecisionUses, Among};
ghost use Rattle.bp_code.specs.Sets.{IsStray, Finds};

use crate::checks::{Found, least};
use crate::procedures::Scope;
use crate::tables::NameTable;
use bp_syntax::{CheckError, Decider, Expr, Name, Proc};
use std::alloc::{AllocError, Global};
use std::marker::Model;

/// Returns the name, if no variable has its text.
pub(crate) fn stray_name(declared: &Scope<'_, '_>, name: &Name) -> Option<Found>
    ensures { Finds (IsStray declared.now (λ n. name.now ≡ n)) result }
{
    if declared.has(name.text()) {
        return None;
    }
    Some(Found {
        error: CheckError::UnknownVariable,
        at: name.at(),
    })
}

/// Returns the least undeclared name of an expression.
pub(crate) fn stray_in(declared: &Scope<'_, '_>, expr: &Expr) -> Option<Found>
    ensures { Finds (IsStray declared.now (Uses (expression_of expr.now))) result }
{
    match expr {
        Expr::Const(_) => None,
        Expr::Var(name) => stray_name(declared, name),
        Expr::Not(e) => stray_in(declared, e.get()),
        Expr::Binary(_, left, right) => {
            let found = stray_in(declared, left.get());
            least(found, stray_in(declared, right.get()))
        }
    }
}

/// Returns the least undeclared name of a decider.
pub(crate) fn stray_in_decider(declared: &Scope<'_, '_>, decider: &Decider) -> Option<Found>
    ensures { Finds (IsStray declared.now (DecisionUses (decision_of decider.now))) result }
{
    match decider {
        Decider::Choice => None,
        Decider::Value(expr) => stray_in(declared, expr),
    }
}

/// Returns the least undeclared name of expressions.
pub(crate) fn stray_in_all(declared: &Scope<'_, '_>, exprs: &[Expr]) -> Option<Found>
    ensures { Finds (IsStray declared.now (SomeUses (map expression_of exprs.now))) result }
{
    let mut best = None;
    for expr in exprs {
        best = least(best, stray_in(declared, expr));
    }
    best
}

/// Returns the least undeclared name among names.
pub(crate) fn stray_names(declared: &Scope<'_, '_>, names: &[Name]) -> Option<Found>
    ensures { Finds (IsStray declared.now (Among names.now)) result }
{
    let mut best = None;
    for name in names {
        best = least(best, stray_name(declared, name));
    }
    best
}

/// Procedures in order. The first with a name is found without a walk over the others.
#[derive(Drop)]
pub(crate) struct Callees<'a> {
    procs: &'a [Proc],
    names: NameTable<'a>,
}

impl<'a> Model for Callees<'a> {
    ghost use Rattle.std.specs.Prelude.{◌≡◌, List, map};
    ghost use Rattle.std.specs.Coded.{coded_list};
    ghost use Rattle.bp_syntax.specs.Ast.{Procedure};
    ghost use Rattle.bp_syntax.specs.Codes.{coded_procedure};

    ghost Value = { List Procedure };

    ghost coded = { coded_list coded_procedure };

    ghost view = { λ c. c.procs.now };

    ghost invariant = { λ c. c.names ≡ map (λ q. q.name) c.procs.now };
}

impl<'a> Callees<'a> {
    pub(crate) fn new(alloc: Global, procs: &'a [Proc]) -> Result<Callees<'a>, AllocError>
        ensures { IfOk result (λ c. c ≡ procs.now) }
    {
        let names = NameTable::of_procedures(alloc, procs)?;
        Ok(Callees { procs, names })
    }

    pub(crate) fn names(&self) -> &NameTable<'a>
        ensures { result.now ≡ map (λ q. q.name) self.now }
    {
        &self.names
    }

    /// Returns the first procedure with this name.
    pub(crate) fn find(&self, text: &str) -> Option<&'a Proc>
        ensures { option_copied result ≡ procedure_named self.now text.now }
    {
        let first = self.names.first(text)?;
        self.procs.get(first)
    }
}
