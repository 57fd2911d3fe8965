//! Programs as trees.
ghost use Rattle.std.specs.Prelude.{◌≡◌, ◌≤◌, IfOk};
ghost use Rattle.bp_syntax.specs.Ast.{procedures_size};
ghost use Rattle.bp_syntax.specs.Texts.{HasText};
ghost use Rattle.bp_syntax.specs.NamesIn.{HasShortNames, HasSpelledNames};

use crate::limits::TEXT_LIMIT;
use crate::names::{Name, Names};
use crate::procs::{Proc, Procs};
use std::alloc::{AllocError, Global};
use std::marker::Model;
use std::sync::Arc;

/// The tree of a program text that was read. Copies of a tree share it.
pub struct Tree {
    parts: Arc<Parts, Global>,
}

// Written out, so that elsewhere a way out has one call, and not the drop of each part.
impl Drop for Tree {
    fn drop(self) {
        let Tree { parts: _ } = self;
    }
}

/// The parts of a tree.
#[derive(Drop)]
struct Parts {
    globals: Names,
    procs: Procs,
}

impl Model for Tree {
    ghost use Rattle.bp_syntax.specs.Ast.{Program};
    ghost use Rattle.bp_syntax.specs.Codes.{coded_program};

    ghost Value = { Program };

    ghost coded = { coded_program };

    ghost use Rattle.bp_syntax.specs.Texts.{HasText};
    ghost use Rattle.std.specs.Arc.{arc_value};

    ghost view = { λ t. let p = arc_value t.parts in
        record { globals = p.globals; procedures = p.procs } };

    ghost invariant = { λ t. let p = arc_value t.parts in
        HasText (record { globals = p.globals; procedures = p.procs }) };
}

impl Tree {
    /// Makes the tree of these globals and procedures. Fails only on allocation.
    pub(crate) fn new(alloc: Global, globals: Names, procs: Procs) -> Result<Tree, AllocError>
        requires { HasText (record { globals = globals; procedures = procs }) }
        ensures { IfOk result (λ t. t ≡ record { globals = globals; procedures = procs }) }
    {
        let parts = Arc::new(alloc, Parts { globals, procs })?;
        Ok(Tree { parts })
    }

    /// Returns a copy, which shares the tree. Fails only if too many share it.
    pub fn try_copy(&self) -> Result<Tree, AllocError>
        ensures { IfOk result (λ t. t ≡ self.now) }
    {
        let parts = Arc::try_clone(&self.parts)?;
        Ok(Tree { parts })
    }

    /// Returns the declared variables, in order of declaration.
    pub fn globals(&self) -> &[Name]
        ensures value { result.now ≡ self.now.globals }
        ensures of_text { HasText self.now }
    {
        self.parts.globals.as_slice()
    }

    /// Returns the procedures, in order of their text.
    pub fn procs(&self) -> &[Proc]
        ensures value { result.now ≡ self.now.procedures }
        ensures of_text { HasText self.now }
    {
        self.parts.procs.as_slice()
    }

    /// Proves that a program has no more statements and procedures together than a text has bytes.
    pub fn has_few_statements(&self)
        ensures { procedures_size self.now.procedures ≤ TEXT_LIMIT }
    {
        let _ = &self.parts;
    }

    /// Proves that no name in a program is longer than a text.
    pub fn has_short_names(&self)
        ensures { HasShortNames TEXT_LIMIT self.now }
    {
        let _ = &self.parts;
    }

    /// Proves that each name in a program is an identifier that is not reserved, or a braced name.
    /// So it holds no line feed (`has_names_on_one_line`).
    pub fn has_spelled_names(&self)
        ensures { HasSpelledNames self.now }
    {
        let _ = &self.parts;
    }

    /// Proves that each tree is that of some text.
    pub fn is_of_a_text(&self)
        ensures { HasText self.now }
    {
        let _ = &self.parts;
    }
}
