//! The parser: a recursive descent over the tokens that are left. Those left when a function stops
//! begin at the text's syntax error.
ghost use Rattle.std.specs.Prelude.{◌≡◌, ◌<◌, ◌≤◌, [], length, drop, OnOk, if◌then◌else◌};
ghost use Rattle.bp_syntax.specs.ParserState.{Wanted, WordThen, NameThen, NamesThen, AnyNamesThen, ReadsBy, ReadsPhrase, kind_ahead, place_ahead, is_at, place_or};

mod expressions;
mod operators;
mod programs;
mod statements;

use crate::names::{Name, Names};
use crate::tokens::{Token, TokenKind};
pub(crate) use programs::parse;
use std::alloc::{AllocError, AllocFailed, Global};
use std::marker::Model;

/// Why a function of the parser stops.
#[derive(Drop)]
pub(crate) enum Stop {
    /// The next token may not come here, or the tokens may not end here.
    Unexpected,
    /// An allocation failed.
    Memory,
}

impl From<AllocError> for Stop {
    ghost use Rattle.bp_syntax.specs.declared.parser.Stop.TheVariants.{Memory};

    ghost from_gives = { λ _ e. e ≡ Memory };

    fn from(_e: AllocError) -> Stop {
        Stop::Memory
    }
}

impl<T: Drop> From<AllocFailed<T>> for Stop {
    ghost use Rattle.bp_syntax.specs.declared.parser.Stop.TheVariants.{Memory};

    ghost from_gives = { λ _ e. e ≡ Memory };

    fn from(_e: AllocFailed<T>) -> Stop {
        Stop::Memory
    }
}

/// The parser: the tokens that are left to read.
#[derive(Drop)]
pub(crate) struct Parser<'a> {
    pub(crate) left: &'a [Token<'a>],
}

impl<'a> Model for Parser<'a> {
    ghost use Rattle.std.specs.Prelude.{List};
    ghost use Rattle.bp_syntax.specs.Tokens.{Token as SomeToken};

    ghost Value = { List SomeToken };

    ghost use Rattle.bp_syntax.specs.Lexer.{token_list};

    ghost view = { λ r. token_list r.left.now };
}

impl<'a> Parser<'a> {
    /// Returns the kind of the next token, `None` after the last.
    pub(crate) fn peek(&self) -> Option<TokenKind>
        ensures { result ≡ kind_ahead self.now }
    {
        match self.left.first() {
            Some(token) => Some(token.kind),
            None => None,
        }
    }

    /// Returns whether the next token is of the kind.
    pub(crate) fn at(&self, kind: TokenKind) -> bool
        ensures { result ≡ is_at kind self.now }
    {
        self.peek() == Some(kind)
    }

    /// Returns whether the token after the next is of the kind.
    pub(crate) fn at_second(&self, kind: TokenKind) -> bool
        ensures { result ≡ is_at kind (drop 1 self.now) }
    {
        if self.left.is_empty() {
            return false;
        }
        let after = Parser {
            left: &self.left[1..],
        };
        after.at(kind)
    }

    /// Returns the place of the next token, or 0 if there is none.
    pub(crate) fn place(&self) -> u32
        ensures { result ≡ place_ahead self.now }
    {
        match self.left.first() {
            Some(token) => token.at,
            None => 0,
        }
    }

    /// Returns the place of the next token, or `end` if there is none.
    pub(crate) fn place_or(&self, end: u32) -> u32
        ensures { result ≡ place_or end self.now }
    {
        match self.left.first() {
            Some(token) => token.at,
            None => end,
        }
    }

    pub(crate) fn advance(&mut self)
        requires { 0 < length self.old }
        ensures { self.new ≡ drop 1 self.old }
    {
        self.left = &self.left[1..];
    }

    /// Skips the next token if it is of the kind.
    pub(crate) fn eat(&mut self, kind: TokenKind) -> bool
        ensures value { result ≡ is_at kind self.old }
        ensures left { self.new ≡ (if result then drop 1 self.old else self.old) }
    {
        let found = self.at(kind);
        if found {
            self.advance();
        }
        found
    }

    /// Skips the next token, which has to be of the kind.
    pub(crate) fn expect(&mut self, kind: TokenKind) -> Result<(), Stop>
        ensures reads { (next : Wanted)
            → ReadsBy result (WordThen kind next) self.old self.new (λ _. next) }
        ensures shorter { OnOk result (length self.new < length self.old) }
    {
        if self.at(kind) {
            self.advance();
            Ok(())
        } else {
            Err(Stop::Unexpected)
        }
    }

    /// Reads NAME.
    pub(crate) fn name(&mut self, alloc: Global) -> Result<Name, Stop>
        ensures reads { ReadsPhrase result NameThen self.old self.new (λ x. x) }
        ensures shorter { OnOk result (length self.new < length self.old) }
    {
        let Some(token) = self.left.first() else {
            return Err(Stop::Unexpected);
        };
        if token.kind != TokenKind::Name {
            return Err(Stop::Unexpected);
        }
        let name = Name::new(String::from_str(alloc, token.text)?, token.at);
        self.advance();
        Ok(name)
    }

    /// Reads NAME,+ and appends it to the names.
    pub(crate) fn names(&mut self, alloc: Global, names: &mut Vec<Name>) -> Result<(), Stop>
        ensures reads { ReadsPhrase result (NamesThen names.old.items)
            self.old self.new (λ _. names.new.items) }
        ensures shorter { OnOk result (length self.new < length self.old) }
    {
        names.push(self.name(alloc)?)?;
        while self.eat(TokenKind::Comma) {
            names.push(self.name(alloc)?)?;
        }
        Ok(())
    }

    /// Reads NAME,+.
    pub(crate) fn name_list(&mut self, alloc: Global) -> Result<Names, Stop>
        ensures reads { ReadsPhrase result (NamesThen []) self.old self.new (λ x. x) }
        ensures shorter { OnOk result (length self.new < length self.old) }
    {
        let mut names = Vec::new(alloc);
        self.names(alloc, &mut names)?;
        Ok(Names::new(names))
    }

    /// Reads NAME,*.
    pub(crate) fn any_names(&mut self, alloc: Global) -> Result<Names, Stop>
        ensures reads { ReadsPhrase result AnyNamesThen self.old self.new (λ x. x) }
        ensures no_longer { OnOk result (length self.new ≤ length self.old) }
    {
        if self.at(TokenKind::Name) {
            self.name_list(alloc)
        } else {
            Ok(Names::new(Vec::new(alloc)))
        }
    }
}
