//! Statements.
ghost use Rattle.std.specs.Prelude.{◌≡◌, ◌<◌, ◌≤◌, length, ℕ, Option, OnOk, true};
ghost use Rattle.bp_syntax.specs.Ast as tree;
ghost use Rattle.bp_syntax.specs.Ast.{Returns, Skips};
ghost use Rattle.bp_syntax.specs.Blocks.{statement_of};
ghost use Rattle.bp_syntax.specs.Views.{decision_of};
ghost use Rattle.bp_syntax.specs.ParserState.{Wanted, KeywordThen, OneWordThen, ListedThen, ConditionBetween, StmtsTo, GotoThen, IfThen, WhileThen, AssertThen, AssumeThen, PrintThen, AssignThen, CallThen, FormThen, StmtThen, StmtsThen, ReadsBy, ReadsPhrase, place_ahead, is_at, is_at_form};
ghost use Rattle.bp_syntax.specs.declared.tokens.TokenKind.TheVariants as kind;

use crate::exprs::{Decider, Exprs};
use crate::names::Name;
use crate::parser::{Parser, Stop};
use crate::stmts::{Block, Form, Stmt};
use crate::tokens::TokenKind;
use std::alloc::Global;

impl<'a> Parser<'a> {
    /// Reads NAME,+ ":=" expr,+ ";".
    fn assignment(&mut self, alloc: Global) -> Result<Form, Stop>
        ensures reads { ReadsPhrase result AssignThen self.old self.new statement_of }
        ensures shorter { OnOk result (length self.new < length self.old) }
    {
        let targets = self.name_list(alloc)?;
        self.expect(TokenKind::Becomes)?;
        let values = self.expr_list(alloc)?;
        self.expect(TokenKind::Semicolon)?;
        Ok(Form::Assign(targets, values))
    }

    /// Reads "(" expr,* ")" ";".
    fn arguments(&mut self, alloc: Global) -> Result<Exprs, Stop>
        ensures reads { ReadsPhrase result ListedThen self.old self.new (λ x. x) }
        ensures shorter { OnOk result (length self.new < length self.old) }
    {
        self.expect(TokenKind::Open)?;
        let arguments = self.any_exprs(alloc)?;
        self.expect(TokenKind::Close)?;
        self.expect(TokenKind::Semicolon)?;
        Ok(arguments)
    }

    /// Reads NAME "(" expr,* ")" ";".
    fn call(&mut self, alloc: Global) -> Result<Form, Stop>
        ensures reads { ReadsPhrase result CallThen self.old self.new statement_of }
        ensures shorter { OnOk result (length self.new < length self.old) }
    {
        let callee = self.name(alloc)?;
        let arguments = self.arguments(alloc)?;
        Ok(Form::Call(callee, arguments))
    }

    /// Reads "skip" ";".
    fn skip(&mut self) -> Result<Form, Stop>
        ensures reads { ReadsPhrase result (OneWordThen kind.Skip Skips)
            self.old self.new statement_of }
        ensures shorter { OnOk result (length self.new < length self.old) }
    {
        self.expect(TokenKind::Skip)?;
        self.expect(TokenKind::Semicolon)?;
        Ok(Form::Skip)
    }

    /// Reads "return" ";".
    fn leave(&mut self) -> Result<Form, Stop>
        ensures reads { ReadsPhrase result (OneWordThen kind.Return Returns)
            self.old self.new statement_of }
        ensures shorter { OnOk result (length self.new < length self.old) }
    {
        self.expect(TokenKind::Return)?;
        self.expect(TokenKind::Semicolon)?;
        Ok(Form::Return)
    }

    /// Reads "goto" NAME ";".
    fn jump(&mut self, alloc: Global) -> Result<Form, Stop>
        ensures reads { ReadsPhrase result (KeywordThen kind.Goto GotoThen)
            self.old self.new statement_of }
        ensures shorter { OnOk result (length self.new < length self.old) }
    {
        self.expect(TokenKind::Goto)?;
        let to = self.name(alloc)?;
        self.expect(TokenKind::Semicolon)?;
        Ok(Form::Goto(to))
    }

    /// Reads "print" "(" expr,+ ")" ";".
    fn printing(&mut self, alloc: Global) -> Result<Form, Stop>
        ensures reads { ReadsPhrase result (KeywordThen kind.Print PrintThen)
            self.old self.new statement_of }
        ensures shorter { OnOk result (length self.new < length self.old) }
    {
        self.expect(TokenKind::Print)?;
        self.expect(TokenKind::Open)?;
        let values = self.expr_list(alloc)?;
        self.expect(TokenKind::Close)?;
        self.expect(TokenKind::Semicolon)?;
        Ok(Form::Print(values))
    }

    /// Reads a word, "(" decider ")", and another word.
    fn condition_between(
        &mut self,
        alloc: Global,
        before: TokenKind,
        after: TokenKind,
    ) -> Result<Decider, Stop>
        ensures reads { ReadsPhrase result (ConditionBetween before after)
            self.old self.new decision_of }
        ensures shorter { OnOk result (length self.new < length self.old) }
    {
        self.expect(before)?;
        let decider = self.condition(alloc)?;
        self.expect(after)?;
        Ok(decider)
    }

    /// Reads "assert" "(" decider ")" ";".
    fn assertion(&mut self, alloc: Global) -> Result<Form, Stop>
        ensures reads { ReadsPhrase result (KeywordThen kind.Assert AssertThen)
            self.old self.new statement_of }
        ensures shorter { OnOk result (length self.new < length self.old) }
    {
        let decider = self.condition_between(alloc, TokenKind::Assert, TokenKind::Semicolon)?;
        Ok(Form::Assert(decider))
    }

    /// Reads "assume" "(" decider ")" ";".
    fn assumption(&mut self, alloc: Global) -> Result<Form, Stop>
        ensures reads { ReadsPhrase result (KeywordThen kind.Assume AssumeThen)
            self.old self.new statement_of }
        ensures shorter { OnOk result (length self.new < length self.old) }
    {
        let decider = self.condition_between(alloc, TokenKind::Assume, TokenKind::Semicolon)?;
        Ok(Form::Assume(decider))
    }

    /// Reads stmt+ and the word that ends them.
    #[cycle(stmt)]
    pub(crate) fn stmts_to(&mut self, alloc: Global, end: TokenKind) -> Result<Block, Stop>
        ensures reads { ReadsPhrase result (StmtsTo end) self.old self.new (λ x. x) }
        ensures shorter { OnOk result (length self.new < length self.old) }
    {
        let stmts = self.stmts(alloc)?;
        self.expect(end)?;
        Ok(stmts)
    }

    /// Reads a branch. Branches and loops nest no deeper than their limit, which bounds the
    /// recursion.
    #[cycle(stmt)]
    fn branch(&mut self, alloc: Global) -> Result<Form, Stop>
        ensures reads { ReadsPhrase result (KeywordThen kind.If IfThen)
            self.old self.new statement_of }
        ensures shorter { OnOk result (length self.new < length self.old) }
    {
        let decider = self.condition_between(alloc, TokenKind::If, TokenKind::Then)?;
        let yes = self.stmts_to(alloc, TokenKind::Else)?;
        let no = self.stmts_to(alloc, TokenKind::Fi)?;
        Ok(Form::If(decider, yes, no))
    }

    /// Reads "while" "(" decider ")" "do" stmt+ "od".
    #[cycle(stmt)]
    fn repetition(&mut self, alloc: Global) -> Result<Form, Stop>
        ensures reads { ReadsPhrase result (KeywordThen kind.While WhileThen)
            self.old self.new statement_of }
        ensures shorter { OnOk result (length self.new < length self.old) }
    {
        let decider = self.condition_between(alloc, TokenKind::While, TokenKind::Do)?;
        let body = self.stmts_to(alloc, TokenKind::Od)?;
        Ok(Form::While(decider, body))
    }

    /// Reads a call or an assignment, which begin with a name.
    fn call_or_assignment(&mut self, alloc: Global) -> Result<Form, Stop>
        requires { is_at kind.Name self.old ≡ true }
        ensures reads { (next : ℕ → tree.Statement → Wanted)
            → ReadsBy result (FormThen next) self.old self.new
            (λ f. next (place_ahead self.old) (statement_of f)) }
        ensures shorter { OnOk result (length self.new < length self.old) }
    {
        if self.at_second(TokenKind::Open) {
            self.call(alloc)
        } else {
            self.assignment(alloc)
        }
    }

    /// Reads form, by the next token.
    #[cycle(stmt)]
    fn form(&mut self, alloc: Global) -> Result<Form, Stop>
        ensures reads { (next : ℕ → tree.Statement → Wanted)
            → ReadsBy result (FormThen next) self.old self.new
            (λ f. next (place_ahead self.old) (statement_of f)) }
        ensures shorter { OnOk result (length self.new < length self.old) }
    {
        match self.peek() {
            Some(TokenKind::Skip) => self.skip(),
            Some(TokenKind::Return) => self.leave(),
            Some(TokenKind::Goto) => self.jump(alloc),
            Some(TokenKind::Name) => self.call_or_assignment(alloc),
            Some(TokenKind::If) => self.branch(alloc),
            Some(TokenKind::While) => self.repetition(alloc),
            Some(TokenKind::Assert) => self.assertion(alloc),
            Some(TokenKind::Assume) => self.assumption(alloc),
            Some(TokenKind::Print) => self.printing(alloc),
            _ => Err(Stop::Unexpected),
        }
    }

    /// Reads label?.
    fn label(&mut self, alloc: Global) -> Result<Option<Name>, Stop>
        ensures reads { (next : Option tree.Name → ℕ → tree.Statement → Wanted)
            → ReadsBy result (StmtThen next) self.old self.new (λ l. FormThen (next l)) }
        ensures no_longer { OnOk result (length self.new ≤ length self.old) }
    {
        if self.at(TokenKind::Name) {
            if self.at_second(TokenKind::Colon) {
                let name = self.name(alloc)?;
                self.expect(TokenKind::Colon)?;
                return Ok(Some(name));
            }
        }
        Ok(None)
    }

    /// Reads stmt.
    #[cycle(stmt)]
    fn stmt(&mut self, alloc: Global) -> Result<Stmt, Stop>
        ensures reads { (next : Option tree.Name → ℕ → tree.Statement → Wanted)
            → ReadsBy result (StmtThen next) self.old self.new
            (λ s. next s.label s.at (statement_of s.form)) }
        ensures shorter { OnOk result (length self.new < length self.old) }
    {
        let label = self.label(alloc)?;
        let at = self.place();
        let form = self.form(alloc)?;
        Ok(Stmt::new(label, at, form))
    }

    /// Returns whether the next token begins a statement.
    fn at_stmt(&self) -> bool
        ensures { result ≡ is_at_form self.now }
    {
        match self.peek() {
            Some(kind) => matches!(
                kind,
                TokenKind::Skip
                    | TokenKind::Goto
                    | TokenKind::Return
                    | TokenKind::Name
                    | TokenKind::If
                    | TokenKind::While
                    | TokenKind::Assert
                    | TokenKind::Assume
                    | TokenKind::Print
            ),
            None => false,
        }
    }

    /// Reads stmt+.
    #[cycle(stmt)]
    pub(crate) fn stmts(&mut self, alloc: Global) -> Result<Block, Stop>
        ensures reads { ReadsPhrase result StmtsThen self.old self.new (λ x. x) }
        ensures shorter { OnOk result (length self.new < length self.old) }
    {
        let mut stmts = Vec::new(alloc);
        stmts.push(self.stmt(alloc)?)?;
        while self.at_stmt() {
            stmts.push(self.stmt(alloc)?)?;
        }
        Ok(Block::new(stmts))
    }
}
