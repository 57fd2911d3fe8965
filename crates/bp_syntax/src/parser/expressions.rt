//! Expressions and deciders.
ghost use Rattle.std.specs.Prelude.{◌≡◌, ◌<◌, ◌≤◌, [], length, drop, map, OnOk, IfOk, MatchOption};
ghost use Rattle.bp_syntax.specs.Ast.{Operation};
ghost use Rattle.bp_syntax.specs.Views.{expression_of, decision_of};
ghost use Rattle.bp_syntax.specs.ParserState.{UnThen, OperandThen, MoreOperands, MoreTighter, ExprThen, ExprsThen, AnyExprsThen, DeciderThen, ConditionThen, ReadsPhrase, is_at_expr, operator_ahead};

use crate::exprs::{Decider, Expr, Exprs, Op, Sub};
use crate::parser::operators::{Precedence, operator};
use crate::parser::{Parser, Stop};
use crate::tokens::TokenKind;
use std::alloc::{AllocError, Global};

fn operation(alloc: Global, op: Op, left: Expr, right: Expr) -> Result<Expr, AllocError>
    ensures { IfOk result
        (λ e. expression_of e ≡ Operation op (expression_of left) (expression_of right)) }
{
    let left = Sub::new(alloc, left)?;
    let right = Sub::new(alloc, right)?;
    Ok(Expr::Binary(op, left, right))
}

impl<'a> Parser<'a> {
    /// Reads un. `!` and `(` are not separators, so the limit on tokens in succession bounds the
    /// recursion.
    #[cycle(expr)]
    pub(crate) fn unary(&mut self, alloc: Global) -> Result<Expr, Stop>
        ensures reads { ReadsPhrase result UnThen self.old self.new expression_of }
        ensures shorter { OnOk result (length self.new < length self.old) }
    {
        match self.peek() {
            Some(TokenKind::Bang) => {
                self.advance();
                let operand = self.unary(alloc)?;
                Ok(Expr::Not(Sub::new(alloc, operand)?))
            }
            Some(TokenKind::Open) => {
                self.advance();
                let inner = self.expr(alloc)?;
                self.expect(TokenKind::Close)?;
                Ok(inner)
            }
            Some(TokenKind::Zero) => {
                self.advance();
                Ok(Expr::Const(false))
            }
            Some(TokenKind::One) => {
                self.advance();
                Ok(Expr::Const(true))
            }
            Some(TokenKind::Name) => Ok(Expr::Var(self.name(alloc)?)),
            _ => Err(Stop::Unexpected),
        }
    }

    /// Reads an operand of the operators of a precedence: un, and the tighter operators after it.
    #[cycle(expr)]
    fn operand(&mut self, alloc: Global, precedence: Precedence) -> Result<Expr, Stop>
        ensures reads { ReadsPhrase result (OperandThen precedence)
            self.old self.new expression_of }
        ensures shorter { OnOk result (length self.new < length self.old) }
    {
        let first = self.unary(alloc)?;
        self.tighter(alloc, precedence, first)
    }

    /// Reads the operators that bind more tightly than the precedence, after their first operand.
    #[cycle(expr)]
    fn tighter(&mut self, alloc: Global, precedence: Precedence, first: Expr) -> Result<Expr, Stop>
        ensures reads { ReadsPhrase result (MoreTighter precedence (expression_of first))
            self.old self.new expression_of }
        ensures shorter { OnOk result (length self.new ≤ length self.old) }
    {
        match precedence {
            Precedence::Equality => Ok(first),
            Precedence::Conjunction => self.operators(alloc, Precedence::Equality, first),
            Precedence::Exclusion => {
                let left = self.operators(alloc, Precedence::Equality, first)?;
                self.operators(alloc, Precedence::Conjunction, left)
            }
            Precedence::Disjunction => {
                let left = self.operators(alloc, Precedence::Equality, first)?;
                let left = self.operators(alloc, Precedence::Conjunction, left)?;
                self.operators(alloc, Precedence::Exclusion, left)
            }
        }
    }

    /// Skips the next token if it is an operator of the precedence.
    fn eat_operator(&mut self, precedence: Precedence) -> Option<Op>
        ensures value { result ≡ operator_ahead precedence self.old }
        ensures left { MatchOption result (self.new ≡ self.old) (λ _. self.new ≡ drop 1 self.old) }
    {
        let op = operator(precedence, self.peek()?)?;
        self.advance();
        Some(op)
    }

    /// Reads operators of a precedence, each with its right operand, after their first operand.
    #[cycle(expr)]
    fn operators(
        &mut self,
        alloc: Global,
        precedence: Precedence,
        first: Expr,
    ) -> Result<Expr, Stop>
        ensures reads { ReadsPhrase result (MoreOperands precedence (expression_of first))
            self.old self.new expression_of }
        ensures shorter { OnOk result (length self.new ≤ length self.old) }
    {
        let mut left = first;
        while let Some(op) = self.eat_operator(precedence) {
            let right = self.operand(alloc, precedence)?;
            left = operation(alloc, op, left, right)?;
        }
        Ok(left)
    }

    /// Reads expr. Between a bracket and one that follows it at once only `unary` and `expr` are
    /// called, which keeps the stack short.
    #[cycle(expr)]
    pub(crate) fn expr(&mut self, alloc: Global) -> Result<Expr, Stop>
        ensures reads { ReadsPhrase result ExprThen self.old self.new expression_of }
        ensures shorter { OnOk result (length self.new < length self.old) }
    {
        let first = self.unary(alloc)?;
        let operand = self.tighter(alloc, Precedence::Disjunction, first)?;
        let left = self.operators(alloc, Precedence::Disjunction, operand)?;
        if self.eat(TokenKind::Implies) {
            let right = self.expr(alloc)?;
            return Ok(operation(alloc, Op::Implies, left, right)?);
        }
        Ok(left)
    }

    /// Reads expr,+ and appends it to the expressions.
    fn exprs(&mut self, alloc: Global, exprs: &mut Vec<Expr>) -> Result<(), Stop>
        ensures reads { ReadsPhrase result (ExprsThen (map expression_of exprs.old.items))
            self.old self.new (λ _. map expression_of exprs.new.items) }
        ensures shorter { OnOk result (length self.new < length self.old) }
    {
        exprs.push(self.expr(alloc)?)?;
        while self.eat(TokenKind::Comma) {
            exprs.push(self.expr(alloc)?)?;
        }
        Ok(())
    }

    /// Reads expr,+.
    pub(crate) fn expr_list(&mut self, alloc: Global) -> Result<Exprs, Stop>
        ensures reads { ReadsPhrase result (ExprsThen []) self.old self.new (λ x. x) }
        ensures shorter { OnOk result (length self.new < length self.old) }
    {
        let mut exprs = Vec::new(alloc);
        self.exprs(alloc, &mut exprs)?;
        Ok(Exprs::new(exprs))
    }

    /// Returns whether the next token begins an expression.
    fn at_expr(&self) -> bool
        ensures { result ≡ is_at_expr self.now }
    {
        match self.peek() {
            Some(kind) => matches!(
                kind,
                TokenKind::Bang
                    | TokenKind::Zero
                    | TokenKind::One
                    | TokenKind::Name
                    | TokenKind::Open
            ),
            None => false,
        }
    }

    /// Reads expr,*.
    pub(crate) fn any_exprs(&mut self, alloc: Global) -> Result<Exprs, Stop>
        ensures reads { ReadsPhrase result AnyExprsThen self.old self.new (λ x. x) }
        ensures no_longer { OnOk result (length self.new ≤ length self.old) }
    {
        if self.at_expr() {
            self.expr_list(alloc)
        } else {
            Ok(Exprs::new(Vec::new(alloc)))
        }
    }

    /// Reads decider.
    fn decider(&mut self, alloc: Global) -> Result<Decider, Stop>
        ensures reads { ReadsPhrase result DeciderThen self.old self.new decision_of }
        ensures shorter { OnOk result (length self.new < length self.old) }
    {
        if self.eat(TokenKind::Question) {
            return Ok(Decider::Choice);
        }
        Ok(Decider::Value(self.expr(alloc)?))
    }

    /// Reads a decider in brackets.
    pub(crate) fn condition(&mut self, alloc: Global) -> Result<Decider, Stop>
        ensures reads { ReadsPhrase result ConditionThen self.old self.new decision_of }
        ensures shorter { OnOk result (length self.new < length self.old) }
    {
        self.expect(TokenKind::Open)?;
        let decider = self.decider(alloc)?;
        self.expect(TokenKind::Close)?;
        Ok(decider)
    }
}
