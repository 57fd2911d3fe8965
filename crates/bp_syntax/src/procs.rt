//! Procedures: their declared names and statements.
ghost use Rattle.std.specs.Prelude.{◌≡◌};

use crate::names::{Name, Names};
use crate::stmts::{Block, Stmt};
use std::marker::Model;

/// A procedure: its name, its formals, its declared locals and its statements.
#[derive(Drop)]
pub struct Proc {
    name: Name,
    formals: Names,
    locals: Names,
    body: Block,
}

impl Model for Proc {
    ghost use Rattle.bp_syntax.specs.Ast.{Procedure};
    ghost use Rattle.bp_syntax.specs.Codes.{coded_procedure};

    ghost Value = { Procedure };

    ghost coded = { coded_procedure };

    ghost view = { λ p. record {
      name = p.name;
      formals = p.formals;
      locals = p.locals;
      body = p.body;
    } };
}

impl Proc {
    ghost use Rattle.bp_syntax.specs.Blocks.{block_of};

    /// Puts a procedure together, without checking whether its names are well-formed.
    pub fn new(name: Name, formals: Names, locals: Names, body: Block) -> Proc
        ensures { result ≡ record { name = name; formals = formals; locals = locals; body = body } }
    {
        Proc {
            name,
            formals,
            locals,
            body,
        }
    }

    /// Returns the name that calls and entries use for the procedure.
    pub fn name(&self) -> &Name
        ensures { result.now ≡ self.now.name }
    {
        &self.name
    }

    /// Returns the formals, in order of declaration.
    pub fn formals(&self) -> &[Name]
        ensures { result.now ≡ self.now.formals }
    {
        self.formals.as_slice()
    }

    /// Returns the declared locals, in order of declaration.
    pub fn locals(&self) -> &[Name]
        ensures { result.now ≡ self.now.locals }
    {
        self.locals.as_slice()
    }

    /// Returns the statements: at least one in a program that was read.
    pub fn body(&self) -> &[Stmt]
        ensures { block_of result.now ≡ self.now.body }
    {
        self.body.as_slice()
    }
}

/// Procedures in order of their text.
#[derive(Drop)]
pub struct Procs {
    items: Vec<Proc>,
}

impl Model for Procs {
    ghost use Rattle.std.specs.Prelude.{List};
    ghost use Rattle.std.specs.Coded.{coded_list};
    ghost use Rattle.bp_syntax.specs.Ast.{Procedure};
    ghost use Rattle.bp_syntax.specs.Codes.{coded_procedure};

    ghost Value = { List Procedure };

    ghost coded = { coded_list coded_procedure };

    ghost view = { λ p. p.items.items };
}

impl Procs {
    /// Takes over a vector, whose order is that of the text.
    pub fn new(items: Vec<Proc>) -> Procs
        ensures { result ≡ items.items }
    {
        Procs { items }
    }

    /// Returns the procedures, in order.
    pub fn as_slice(&self) -> &[Proc]
        ensures { result.now ≡ self.now }
    {
        self.items.as_slice()
    }
}
