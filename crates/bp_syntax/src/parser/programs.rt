//! Declarations, procedures and programs.
ghost use Rattle.std.specs.Prelude.{◌≡◌, ◌<◌, ◌≤◌, [], length, OnOk, MatchResult};
ghost use Rattle.bp_syntax.specs.Lexer.{token_list};
ghost use Rattle.bp_syntax.specs.ParserState.{MoreDecls, MoreProcs, FormalsThen, ProcThen, ReadsPhrase, Reads, Parses, whole_program, program_of, IsParseError};

use crate::errors::ReadError;
use crate::names::Names;
use crate::parser::{Parser, Stop};
use crate::procs::{Proc, Procs};
use crate::tokens::{Token, TokenKind};
use std::alloc::Global;

impl<'a> Parser<'a> {
    /// Reads decl*.
    fn decls(&mut self, alloc: Global) -> Result<Names, Stop>
        ensures reads { ReadsPhrase result (MoreDecls []) self.old self.new (λ x. x) }
        ensures no_longer { OnOk result (length self.new ≤ length self.old) }
    {
        let mut names = Vec::new(alloc);
        while self.eat(TokenKind::Decl) {
            self.names(alloc, &mut names)?;
            self.expect(TokenKind::Semicolon)?;
        }
        Ok(Names::new(names))
    }

    /// Reads "(" NAME,* ")" "begin".
    fn formals(&mut self, alloc: Global) -> Result<Names, Stop>
        ensures reads { ReadsPhrase result FormalsThen self.old self.new (λ x. x) }
        ensures shorter { OnOk result (length self.new < length self.old) }
    {
        self.expect(TokenKind::Open)?;
        let formals = self.any_names(alloc)?;
        self.expect(TokenKind::Close)?;
        self.expect(TokenKind::Begin)?;
        Ok(formals)
    }

    /// Reads proc.
    fn procedure(&mut self, alloc: Global) -> Result<Proc, Stop>
        ensures reads { ReadsPhrase result ProcThen self.old self.new (λ x. x) }
        ensures shorter { OnOk result (length self.new < length self.old) }
    {
        let name = self.name(alloc)?;
        let formals = self.formals(alloc)?;
        let locals = self.decls(alloc)?;
        let body = self.stmts_to(alloc, TokenKind::End)?;
        Ok(Proc::new(name, formals, locals, body))
    }

    /// Reads proc*.
    fn procs(&mut self, alloc: Global) -> Result<Procs, Stop>
        ensures { ReadsPhrase result (MoreProcs []) self.old self.new (λ x. x) }
    {
        let mut procs = Vec::new(alloc);
        while self.at(TokenKind::Name) {
            procs.push(self.procedure(alloc)?)?;
        }
        Ok(Procs::new(procs))
    }

    /// Reads a program, to the end of the tokens.
    fn program(&mut self, alloc: Global) -> Result<(Names, Procs), Stop>
        ensures { Reads result whole_program self.old self.new (λ p. program_of p.0 p.1) }
    {
        let globals = self.decls(alloc)?;
        let procs = self.procs(alloc)?;
        if self.peek().is_some() {
            return Err(Stop::Unexpected);
        }
        Ok((globals, procs))
    }
}

/// Parses the globals and procedures of a program. `end` is the length of the text.
pub(crate) fn parse(alloc: Global, tokens: &[Token], end: u32) -> Result<(Names, Procs), ReadError>
    ensures { MatchResult result
        (λ p. Parses (token_list tokens.now) (program_of p.0 p.1))
        (IsParseError (token_list tokens.now) end) }
{
    let mut parser = Parser { left: tokens };
    match parser.program(alloc) {
        Ok(parts) => Ok(parts),
        Err(Stop::Memory) => Err(ReadError::Memory),
        Err(Stop::Unexpected) => Err(ReadError::Syntax(parser.place_or(end))),
    }
}
