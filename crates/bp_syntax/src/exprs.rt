//! Expressions and deciders.
ghost use Rattle.std.specs.Prelude.{◌≡◌, IfOk, map};
ghost use Rattle.bp_syntax.specs.Views.{expression_of};

use crate::names::Name;
use std::alloc::{AllocError, Global};
use std::marker::Model;

/// An operator on two bits.
#[derive(Clone, Copy, Debug, PartialEq, Eq)]
pub enum Op {
    /// 1 if both are equal.
    Equal,
    /// 1 if they differ.
    Differ,
    /// 1 if both are 1.
    And,
    /// 1 if exactly one is 1.
    Xor,
    /// 1 if at least one is 1.
    Or,
    /// 0 only if the left is 1 and the right is 0.
    Implies,
}

/// An expression. Brackets leave no mark.
#[cycle(expr)]
#[derive(Drop)]
pub enum Expr {
    Const(bool),
    Var(Name),
    Not(Sub),
    Binary(Op, Sub, Sub),
}

/// An operand: an expression in a box, which a contract sees as that expression.
#[cycle(expr)]
#[derive(Drop)]
pub struct Sub {
    inner: Box<Expr>,
}

impl Model for Sub {
    ghost use Rattle.std.proofs.Common.{arith};
    ghost use Rattle.bp_syntax.specs.Ast.{Expression};
    ghost use Rattle.bp_syntax.specs.Codes.{coded_expression};
    ghost use Rattle.bp_syntax.specs.Depth.{height};

    ghost Value = { Expression };

    ghost coded = { coded_expression };

    ghost use Rattle.bp_syntax.specs.Views.{expression_of};

    ghost view = { λ s. expression_of s.inner.value };

    ghost size = { height };

    ghost size_decreases = { λ a h. Prim.grind (arith) };
}

impl Sub {
    /// Moves an expression into a box. Fails if the allocation fails.
    pub fn new(alloc: Global, expr: Expr) -> Result<Sub, AllocError>
        ensures { IfOk result (λ s. s ≡ expression_of expr) }
    {
        Ok(Sub {
            inner: Box::new(alloc, expr)?,
        })
    }

    /// Returns the expression in the box.
    pub fn get(&self) -> &Expr
        ensures { expression_of result.now ≡ self.now }
    {
        &self.inner
    }
}

/// The test of a branch, a loop, an assertion or an assumption.
#[derive(Drop)]
pub enum Decider {
    /// `?`: the choice bit of the attempt.
    Choice,
    /// The value of an expression.
    Value(Expr),
}

/// Expressions in order: right sides, arguments or printed values.
#[derive(Drop)]
pub struct Exprs {
    items: Vec<Expr>,
}

impl Model for Exprs {
    ghost use Rattle.std.specs.Prelude.{List, map};
    ghost use Rattle.std.specs.Coded.{coded_list};
    ghost use Rattle.bp_syntax.specs.Ast.{Expression};
    ghost use Rattle.bp_syntax.specs.Codes.{coded_expression};

    ghost Value = { List Expression };

    ghost coded = { coded_list coded_expression };

    ghost use Rattle.bp_syntax.specs.Views.{expression_of};

    ghost view = { λ es. map expression_of es.items.items };
}

impl Exprs {
    /// Takes over a vector, whose order is that of the text.
    pub fn new(items: Vec<Expr>) -> Exprs
        ensures { result ≡ map expression_of items.items }
    {
        Exprs { items }
    }

    /// Returns the expressions, in order.
    pub fn as_slice(&self) -> &[Expr]
        ensures { map expression_of result.now ≡ self.now }
    {
        self.items.as_slice()
    }
}
