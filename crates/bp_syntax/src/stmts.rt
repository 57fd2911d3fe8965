//! Statements, and blocks of them.
ghost use Rattle.std.specs.Prelude.{◌≡◌};
ghost use Rattle.std.specs.Option.{option_copied};
ghost use Rattle.bp_syntax.specs.Blocks.{block_of};

use crate::exprs::{Decider, Exprs};
use crate::names::{Name, Names};
use std::marker::Model;

/// A statement with its label and its place.
#[cycle(stmt)]
#[derive(Drop)]
pub struct Stmt {
    label: Option<Name>,
    at: u32,
    form: Form,
}

/// The form of a statement.
#[cycle(stmt)]
#[derive(Drop)]
pub enum Form {
    Skip,
    /// A jump to the statement of this label.
    Goto(Name),
    Return,
    /// A parallel assignment: targets, and right sides.
    Assign(Names, Exprs),
    /// The `then` part and the `else` part.
    If(Decider, Block, Block),
    While(Decider, Block),
    Assert(Decider),
    Assume(Decider),
    Print(Exprs),
    /// The called procedure, and the arguments.
    Call(Name, Exprs),
}

/// Statements in order, which a contract sees as one value without memory.
#[cycle(stmt)]
#[derive(Drop)]
pub struct Block {
    items: Vec<Stmt>,
}

impl Model for Block {
    ghost use Rattle.bp_syntax.specs.Ast as ast;
    ghost use Rattle.bp_syntax.specs.Codes.{coded_block};
    ghost use Rattle.bp_syntax.specs.Depth.{depth};

    ghost Value = { ast.Block };

    ghost coded = { coded_block };

    ghost use Rattle.bp_syntax.specs.Blocks.{block_of};

    ghost view = { λ b. block_of b.items.items };

    ghost size = { depth };

    ghost use Rattle.bp_syntax.specs.SizeDecreases.{block_size_decreases};

    ghost size_decreases = { λ a h. block_size_decreases a.items.items };
}

impl Stmt {
    /// Makes the statement whose first token after any label begins at the byte `at`.
    pub fn new(label: Option<Name>, at: u32, form: Form) -> Stmt
        ensures { result ≡ record { label = label; at = at; form = form } }
    {
        Stmt { label, at, form }
    }

    /// Returns the label, if the statement has one.
    pub fn label(&self) -> Option<&Name>
        ensures { option_copied result ≡ self.now.label }
    {
        self.label.as_ref()
    }

    /// Returns the offset of the statement's first token after its label.
    pub fn at(&self) -> u32
        ensures { result ≡ self.now.at }
    {
        self.at
    }

    /// Returns the form of the statement, with its operands and the blocks inside it.
    pub fn form(&self) -> &Form
        ensures { result.now ≡ self.now.form }
    {
        &self.form
    }
}

impl Block {
    /// Takes over a vector, whose order is that of the text.
    pub fn new(items: Vec<Stmt>) -> Block
        ensures { result ≡ block_of items.items }
    {
        Block { items }
    }

    /// Returns the statements, in order.
    pub fn as_slice(&self) -> &[Stmt]
        ensures { block_of result.now ≡ self.now }
    {
        self.items.as_slice()
    }
}
