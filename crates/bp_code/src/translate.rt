//! From program trees to flat code. The slots, labels and first instructions for names.
ghost use Rattle.std.specs.Prelude.{◌≡◌, IfOk};
ghost use Rattle.bp_syntax.specs.Views.{expression_of, decision_of};
ghost use Rattle.bp_syntax.specs.NamesIn.{EachName, NamesInExpression, NamesInExpressions, NamesInDecision};
ghost use Rattle.bp_flat.specs.Views.{formula_of, test_of};
ghost use Rattle.bp_code.specs.Environments.{environment_of};
ghost use Rattle.bp_code.specs.KnownNames.{HasSlot, HasLabel, HasHeading};
ghost use Rattle.bp_code.specs.CompiledCode.{slots_in, formula_in, formulas_in, test_in, slot_in, label_in, callee_in};

use crate::environments::Environment;
use bp_flat::expr_lists::SlotExprs;
use bp_flat::exprs::{SlotExpr, SlotSub, Test};
use bp_flat::slots::{Index, Slot, Slots};
use bp_syntax::{Decider, Expr, Exprs, Name, Names};
use std::alloc::{AllocError, Global};

/// Returns the slots of declared variables, in order.
pub(crate) fn slots(
    alloc: Global,
    environment: &Environment<'_, '_>,
    names: &Names,
) -> Result<Slots, AllocError>
    requires { EachName (HasSlot (environment_of environment.now)) names.now }
    ensures { IfOk result (λ s. s ≡ slots_in (environment_of environment.now) names.now) }
{
    let mut items = Vec::new(alloc);
    for name in names.as_slice() {
        items.push(environment.slot(name))?;
    }
    Ok(Slots::new(items))
}

/// Returns the expression over slots that stands for an expression over names.
pub(crate) fn expr(
    alloc: Global,
    environment: &Environment<'_, '_>,
    e: &Expr,
) -> Result<SlotExpr, AllocError>
    requires { NamesInExpression (HasSlot (environment_of environment.now)) (expression_of e.now) }
    ensures { let formula = formula_in (environment_of environment.now) (expression_of e.now) in
        IfOk result (λ f. formula_of f ≡ formula) }
{
    match e {
        Expr::Const(b) => Ok(SlotExpr::Const(*b)),
        Expr::Var(name) => Ok(SlotExpr::Var(environment.slot(name))),
        Expr::Not(e) => {
            let e = expr(alloc, environment, e.get())?;
            Ok(SlotExpr::Not(SlotSub::new(alloc, e)?))
        }
        Expr::Binary(op, left, right) => {
            let left = expr(alloc, environment, left.get())?;
            let right = expr(alloc, environment, right.get())?;
            let left = SlotSub::new(alloc, left)?;
            Ok(SlotExpr::Binary(*op, left, SlotSub::new(alloc, right)?))
        }
    }
}

/// Returns the expressions over slots that stand for expressions over names, in order.
pub(crate) fn exprs(
    alloc: Global,
    environment: &Environment<'_, '_>,
    es: &Exprs,
) -> Result<SlotExprs, AllocError>
    requires { NamesInExpressions (HasSlot (environment_of environment.now)) es.now }
    ensures { IfOk result (λ fs. fs ≡ formulas_in (environment_of environment.now) es.now) }
{
    let mut items = Vec::new(alloc);
    for e in es.as_slice() {
        items.push(expr(alloc, environment, e)?)?;
    }
    Ok(SlotExprs::new(items))
}

/// Returns the test that stands for a decider.
pub(crate) fn test(
    alloc: Global,
    environment: &Environment<'_, '_>,
    d: &Decider,
) -> Result<Test, AllocError>
    requires { NamesInDecision (HasSlot (environment_of environment.now)) (decision_of d.now) }
    ensures { let test = test_in (environment_of environment.now) (decision_of d.now) in
        IfOk result (λ t. test_of t ≡ test) }
{
    match d {
        Decider::Choice => Ok(Test::Choice),
        Decider::Value(e) => Ok(Test::Value(expr(alloc, environment, e)?)),
    }
}

impl<'s, 'a> Environment<'s, 'a> {
    /// Returns the slot of a declared variable: its index among the formals and then the locals, or
    /// else among the globals.
    pub(crate) fn slot(&self, name: &Name) -> Slot
        requires { HasSlot (environment_of self.now) name.now }
        ensures { result ≡ slot_in (environment_of self.now) name.now.text }
    {
        match self.own.first(name.text()) {
            Some(index) => Slot::Local(Index::new(index as u8)),
            None => {
                let index = self.globals.first(name.text()).unwrap();
                Slot::Global(Index::new(index as u8))
            }
        }
    }

    /// Returns the number of the statement with this label.
    pub(crate) fn label(&self, name: &Name) -> u32
        requires { HasLabel (environment_of self.now) name.now }
        ensures { result ≡ label_in (environment_of self.now) name.now.text }
    {
        self.layout.label(name.text()).unwrap()
    }

    /// Returns the number of a procedure's first instruction.
    pub(crate) fn callee(&self, name: &Name) -> u32
        requires { HasHeading (environment_of self.now) name.now }
        ensures { result ≡ callee_in (environment_of self.now) name.now.text }
    {
        let index = self.procs.first(name.text()).unwrap();
        self.headings[index].entry()
    }
}
