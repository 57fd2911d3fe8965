//! Well-formed trees.
ghost use Rattle.std.specs.Prelude.{◌≡◌, ◌≤◌, IfOk};
ghost use Rattle.bp_syntax.specs.Ast.{procedures_size};
ghost use Rattle.bp_syntax.specs.Errors.{IsWellFormed, HasFewNames, HasDistinctNames, HasSoundStatements};
ghost use Rattle.bp_syntax.specs.Texts.{HasText};
ghost use Rattle.bp_syntax.specs.declared.limits.TheConstants.{TEXT_LIMIT};

use crate::trees::Tree;
use std::alloc::AllocError;
use std::marker::Model;

/// A tree without errors. Copies share the tree.
#[derive(Drop)]
pub struct Checked {
    tree: Tree,
}

impl Model for Checked {
    ghost use Rattle.bp_syntax.specs.Ast.{Program};
    ghost use Rattle.bp_syntax.specs.Codes.{coded_program};
    ghost use Rattle.bp_syntax.specs.Errors.{IsWellFormed};

    ghost Value = { Program };

    ghost coded = { coded_program };

    ghost view = { λ c. c.tree };

    ghost invariant = { λ c. IsWellFormed c.tree };
}

impl Checked {
    /// Keeps a tree that has no error.
    pub fn new(tree: Tree) -> Checked
        requires { IsWellFormed tree }
        ensures { result ≡ tree }
    {
        Checked { tree }
    }

    /// Returns the tree, which has no error.
    pub fn tree(&self) -> &Tree
        ensures value { result.now ≡ self.now }
        ensures well_formed { IsWellFormed self.now }
    {
        &self.tree
    }

    /// Returns a copy, which shares the tree. Fails only if too many share it.
    pub fn try_copy(&self) -> Result<Checked, AllocError>
        ensures { IfOk result (λ c. c ≡ self.now) }
    {
        let tree = self.tree.try_copy()?;
        Ok(Checked { tree })
    }

    /// Proves that the tree is that of some text.
    pub fn is_of_a_text(&self)
        ensures { HasText self.now }
    {
        self.tree.is_of_a_text();
    }

    /// Proves that procedures, globals, and formals and locals of a procedure are within the
    /// limits.
    pub fn has_few_names(&self)
        ensures { HasFewNames self.now }
    {
        let _ = &self.tree;
    }

    /// Proves that no two globals, no two procedures, and in a procedure no two labels and no two
    /// formals or locals have the same text.
    pub fn has_distinct_names(&self)
        ensures { HasDistinctNames self.now }
    {
        let _ = &self.tree;
    }

    /// Proves that each variable, label and procedure that a statement names is declared, an
    /// assignment has targets, and an assignment and a call have as many values as they need.
    pub fn has_sound_statements(&self)
        ensures { HasSoundStatements self.now }
    {
        self.tree.is_of_a_text();
    }

    /// Proves that there are no more statements and procedures together than a text has bytes.
    pub fn has_few_statements(&self)
        ensures { procedures_size self.now.procedures ≤ TEXT_LIMIT }
    {
        self.tree.has_few_statements();
    }
}
